//! Words of runs by threads; numbers and texts of statuses.
use crate::asserting::words;
use kms_model::{ObjId, Why};
use kms_run::{Status, is_run, legal_words, status_text};
use std::test::Fail;

#[test]
fn threads_come_once_among_the_options(rt: HostRuntime) -> Result<(), Fail> {
    let rows: [&[&str]; 5] = [
        &["run", "--threads", "1"],
        &["run", "--threads", "16"],
        &["run", "--threads", "3", "--trace", "--ppm"],
        &["run", "--ppm", "--threads", "3", "--trace"],
        &["run", "--trace", "--ppm", "--threads", "3"],
    ];
    for row in &rows {
        let words = words(rt.alloc(), row)?;
        assert!(rt; legal_words(&words) && is_run(&words), "{row:?}");
    }
    Ok(())
}

#[test]
fn statuses_have_their_texts(rt: HostRuntime) -> Result<(), Fail> {
    let rows = [
        (Status::Ok, 0, ""),
        (Status::ReadFault, 1, "kms: read fault"),
        (Status::WriteFault, 2, "kms: write fault"),
        (
            Status::Usage,
            3,
            "kms: usage: kms one, replay, run, gen, audit, legacy, suspend",
        ),
        (
            Status::Script {
                line: 3,
                why: Why::Label,
            },
            4,
            "kms: line 3: label",
        ),
        (Status::Stalled, 5, "kms: stalled"),
        (Status::NoMemory, 6, "kms: out of memory"),
        (Status::Illegal { at: 12 }, 7, "kms: event 12 is not legal"),
        (Status::Open, 8, "kms: open"),
        (Status::AuditNo { line: 7 }, 9, "kms: audit: line 7"),
        (Status::Closed { object: ObjId(203) }, 10, "kms: closed 203"),
    ];
    for (status, number, text) in &rows {
        let found = status_text(rt.alloc(), status)?;
        assert!(rt;
            status.number() == *number && found.as_str() == *text,
            "{text}"
        );
    }
    Ok(())
}

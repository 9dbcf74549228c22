//! Generated scripts whose writing fails, and the digest of a report. No source is read: each would fail at its first read.
use crate::asserting::{run, sink, source, words};
use kms_io::NoGate;
use kms_run::{Status, kms_main};
use sha2::{Digest, Sha256};
use std::test::Fail;

/// A failing write leaves what the two before it have written.
#[test]
fn a_failing_write_leaves_a_front_of_the_script(rt: HostRuntime) -> Result<(), Fail> {
    let alloc = rt.alloc();
    let mut source = source(alloc, "", 1, &[1])?;
    let mut sink = sink(alloc, 16, &[3])?;
    let words = words(alloc, &["gen", "0", "1"])?;
    let status = kms_main(&rt, alloc, &words, &mut source, &mut sink, &NoGate);
    assert!(rt; status == Status::WriteFault);
    let front = b"kms 1\ncrtcs 2\nplane primary 0 XR".as_slice();
    assert!(rt; sink.written() == front);
    Ok(())
}

/// The digest is that of what `one` writes of the script.
#[test]
fn one_commit_is_run(rt: HostRuntime) -> Result<(), Fail> {
    let alloc = rt.alloc();
    let (_, script) = run(&rt, alloc, &["gen", "0", "1"], "")?;
    let text = String::from_utf8(Vec::from_slice(alloc, script.written())?)?;
    let (_, report) = run(&rt, alloc, &["one"], text.as_str())?;
    let digest = hex::encode(alloc, Sha256::digest(report.written()).as_slice())?;
    let lines = format!(in alloc;
        "journal 13\nlatches 3\nevents 1\nfreed 0\nreport {digest}\ndrained\n"
    )?;
    let (status, sink) = run(&rt, alloc, &["gen", "0", "1", "--run"], "")?;
    assert!(rt; status == Status::Ok);
    assert!(rt; sink.written() == lines.as_bytes());
    Ok(())
}

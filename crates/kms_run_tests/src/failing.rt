//! Sources and sinks that fail, at each of their calls in turn.
use crate::asserting::{sink, source, with_report, words};
use crate::texts::{LEGACY, LEGACY_TRANSLATION, LIT, LIT_REPORT, LIT_SLEPT};
use kms_io::{MemSink, MemSource};
use kms_run::{Status, is_run, kms_plain};
use std::alloc::Global;
use std::test::Fail;
use std::thread::Threads;

/// The bytes of one read, and of one write.
const READ: usize = 40;

const WRITE: usize = 16;

/// How many reads the first script takes, its end included, and how many writes its report.
const READS: u32 = 9;

const WRITES: u32 = 12;

/// The same of the script with an older call, and of its translation.
const LEGACY_READS: u32 = 5;

const LEGACY_WRITES: u32 = 24;

/// How many writes the report takes of the first script's device that is turned off and brought back.
const SLEPT_WRITES: u32 = 20;

/// How many reads the first script and its report take, the end included.
const AUDIT_READS: u32 = 14;

/// What is written of a report that is right, the bytes of one write, and how many writes that takes.
const YES: &str = "audit yes\n";

const YES_WRITE: usize = 4;

const YES_WRITES: u32 = 3;

/// What a word answers that is none of `run`.
fn answered<R: Threads + Sync>(
    rt: &R,
    alloc: Global,
    word: &str,
    source: &mut MemSource,
    sink: &mut MemSink,
) -> Result<Option<Status>, Fail> {
    let words = words(alloc, &[word])?;
    if is_run(&words) {
        return Ok(None);
    }
    Ok(Some(kms_plain(rt, alloc, &words, source, sink)))
}

/// Whether a failing read of this number ends the call, with nothing written.
fn read_fails<R: Threads + Sync>(
    rt: &R,
    alloc: Global,
    word: &str,
    text: &str,
    number: u32,
) -> Result<bool, Fail> {
    let mut source = source(alloc, text, READ, &[number])?;
    let mut sink = sink(alloc, 64, &[])?;
    let status = answered(rt, alloc, word, &mut source, &mut sink)?;
    Ok(status == Some(Status::ReadFault) && sink.written().is_empty())
}

/// Whether a failing write of this number ends the call, with what was written before it.
fn write_fails<R: Threads + Sync>(
    rt: &R,
    alloc: Global,
    word: &str,
    text: &str,
    report: &str,
    number: u32,
) -> Result<bool, Fail> {
    let mut source = source(alloc, text, READ, &[])?;
    let mut sink = sink(alloc, WRITE, &[number])?;
    let status = answered(rt, alloc, word, &mut source, &mut sink)?;
    let front = report
        .as_bytes()
        .chunks(WRITE)
        .take(number.saturating_sub(1) as usize);
    Ok(status == Some(Status::WriteFault) && front.flatten().eq(sink.written()))
}

/// Whether a failing write of this number ends an audit, with what was written before it.
fn yes_fails<R: Threads + Sync>(
    rt: &R,
    alloc: Global,
    text: &str,
    yes: &str,
    number: u32,
) -> Result<bool, Fail> {
    let mut source = source(alloc, text, READ, &[])?;
    let mut sink = sink(alloc, YES_WRITE, &[number])?;
    let status = answered(rt, alloc, "audit", &mut source, &mut sink)?;
    let front = yes
        .as_bytes()
        .chunks(YES_WRITE)
        .take(number.saturating_sub(1) as usize);
    Ok(status == Some(Status::WriteFault) && front.flatten().eq(sink.written()))
}

/// Whether each write is handed all that is left of a report: a sink that takes so many bytes at a time has no more writes
/// than it needs, since the next one would fail.
fn is_handed_all<R: Threads + Sync>(
    rt: &R,
    alloc: Global,
    text: &str,
    report: &str,
    step: usize,
) -> Result<bool, Fail> {
    let step = step.max(1);
    let needed = report.len().div_ceil(step);
    let Ok(next) = u32::try_from(needed.saturating_add(1)) else {
        return Ok(false);
    };
    let mut source = source(alloc, text, READ, &[])?;
    let mut sink = sink(alloc, step, &[next])?;
    let status = answered(rt, alloc, "one", &mut source, &mut sink)?;
    Ok(status == Some(Status::Ok) && sink.written() == report.as_bytes())
}

#[test]
fn each_failing_read_writes_nothing(rt: HostRuntime) -> Result<(), Fail> {
    assert!(rt; LIT.len().div_ceil(READ) + 1 == READS as usize);
    for number in 1..READS + 1 {
        assert!(rt;
            read_fails(&rt, rt.alloc(), "one", LIT, number)?,
            "read {number}"
        );
    }
    assert!(rt; !read_fails(&rt, rt.alloc(), "one", LIT, READS + 1)?);
    Ok(())
}

#[test]
fn each_failing_write_leaves_a_front(rt: HostRuntime) -> Result<(), Fail> {
    assert!(rt; LIT_REPORT.len().div_ceil(WRITE) == WRITES as usize);
    for number in 1..WRITES + 1 {
        let fails = write_fails(&rt, rt.alloc(), "one", LIT, LIT_REPORT, number)?;
        assert!(rt; fails, "write {number}");
    }
    assert!(rt; !write_fails(&rt, rt.alloc(), "one", LIT, LIT_REPORT, WRITES + 1)?);
    Ok(())
}

#[test]
fn each_failing_read_leaves_a_device_on(rt: HostRuntime) -> Result<(), Fail> {
    for number in 1..READS + 1 {
        let fails = read_fails(&rt, rt.alloc(), "suspend", LIT, number)?;
        assert!(rt; fails, "read {number}");
    }
    assert!(rt; !read_fails(&rt, rt.alloc(), "suspend", LIT, READS + 1)?);
    Ok(())
}

#[test]
fn each_failing_write_leaves_a_front_of_what_slept(rt: HostRuntime) -> Result<(), Fail> {
    assert!(rt; LIT_SLEPT.len().div_ceil(WRITE) == SLEPT_WRITES as usize);
    for number in 1..SLEPT_WRITES + 1 {
        let fails = write_fails(&rt, rt.alloc(), "suspend", LIT, LIT_SLEPT, number)?;
        assert!(rt; fails, "write {number}");
    }
    let beyond = SLEPT_WRITES + 1;
    assert!(rt; !write_fails(&rt, rt.alloc(), "suspend", LIT, LIT_SLEPT, beyond)?);
    Ok(())
}

#[test]
fn each_failing_read_translates_nothing(rt: HostRuntime) -> Result<(), Fail> {
    assert!(rt; LEGACY.len().div_ceil(READ) + 1 == LEGACY_READS as usize);
    for number in 1..LEGACY_READS + 1 {
        let fails = read_fails(&rt, rt.alloc(), "legacy", LEGACY, number)?;
        assert!(rt; fails, "read {number}");
    }
    assert!(rt; !read_fails(&rt, rt.alloc(), "legacy", LEGACY, LEGACY_READS + 1)?);
    Ok(())
}

#[test]
fn each_failing_write_leaves_a_front_of_the_translation(rt: HostRuntime) -> Result<(), Fail> {
    assert!(rt; LEGACY_TRANSLATION.len().div_ceil(WRITE) == LEGACY_WRITES as usize);
    for number in 1..LEGACY_WRITES + 1 {
        let fails = write_fails(
            &rt,
            rt.alloc(),
            "legacy",
            LEGACY,
            LEGACY_TRANSLATION,
            number,
        )?;
        assert!(rt; fails, "write {number}");
    }
    let beyond = LEGACY_WRITES + 1;
    assert!(rt;
        !write_fails(
            &rt,
            rt.alloc(),
            "legacy",
            LEGACY,
            LEGACY_TRANSLATION,
            beyond
        )?
    );
    Ok(())
}

#[test]
fn each_failing_read_says_no_yes(rt: HostRuntime) -> Result<(), Fail> {
    let text = with_report(rt.alloc(), LIT, LIT_REPORT)?;
    assert!(rt; text.len().div_ceil(READ) + 1 == AUDIT_READS as usize);
    for number in 1..AUDIT_READS + 1 {
        let fails = read_fails(&rt, rt.alloc(), "audit", text.as_str(), number)?;
        assert!(rt; fails, "read {number}");
    }
    let beyond = AUDIT_READS + 1;
    assert!(rt; !read_fails(&rt, rt.alloc(), "audit", text.as_str(), beyond)?);
    Ok(())
}

#[test]
fn each_failing_write_leaves_a_front_of_a_yes(rt: HostRuntime) -> Result<(), Fail> {
    assert!(rt; YES.len().div_ceil(YES_WRITE) == YES_WRITES as usize);
    let text = with_report(rt.alloc(), LIT, LIT_REPORT)?;
    for number in 1..YES_WRITES + 1 {
        let fails = yes_fails(&rt, rt.alloc(), text.as_str(), YES, number)?;
        assert!(rt; fails, "write {number}");
    }
    assert!(rt; !yes_fails(&rt, rt.alloc(), text.as_str(), YES, YES_WRITES + 1)?);
    Ok(())
}

#[test]
fn each_write_is_handed_all_that_is_left(rt: HostRuntime) -> Result<(), Fail> {
    let whole = LIT_REPORT.len();
    for step in [1, WRITE, 64, 100, whole.saturating_sub(1), whole, 4096] {
        assert!(rt;
            is_handed_all(&rt, rt.alloc(), LIT, LIT_REPORT, step)?,
            "{step} at a time"
        );
    }
    Ok(())
}

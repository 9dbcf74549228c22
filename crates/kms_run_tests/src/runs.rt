//! Runs by threads.
use crate::asserting::{has_line, joined, run, with_report};
use crate::texts::{
    BEFORE_TABLE, BEHIND_TABLE, LIT, LIT_REPORT, SCALED, SCALED_REPORT, TABLE_REPORT, WAITING,
};
use kms_run::Status;
use kms_samples::script;
use std::alloc::{AllocError, Global};
use std::sync::Wait;
use std::test::Fail;
use std::thread::Threads;

/// Whether so many threads drain a script, and write this.
fn drains<R: Threads + Wait + Sync>(
    rt: &R,
    alloc: Global,
    threads: &str,
    text: &str,
    report: &str,
) -> Result<bool, Fail> {
    let (status, sink) = run(rt, alloc, &["run", "--threads", threads], text)?;
    Ok(status == Status::Ok && sink.written() == report.as_bytes())
}

/// The line of a blob: a table that inverts each channel.
fn inverting(alloc: Global) -> Result<String, AllocError> {
    let mut text = String::new(alloc);
    for entry in 0..256u32 {
        let value = 255u32.saturating_sub(entry);
        for _ in 0..6 {
            write!(text, "{value:02x}")?;
        }
        text.push_str("0000")?;
    }
    joined(alloc, &[BEFORE_TABLE, text.as_str(), BEHIND_TABLE])
}

/// Of a script of one client the report is that of `one`.
#[test]
fn threads_drain_scripts_of_one_client(rt: HostRuntime) -> Result<(), Fail> {
    let alloc = rt.alloc();
    let table = inverting(alloc)?;
    let rows = [
        ("the empty device", "1", script!(single), "D drained\n"),
        ("a first commit", "4", LIT, LIT_REPORT),
        ("a scaled plane", "4", SCALED, SCALED_REPORT),
        ("a table", "4", table.as_str(), TABLE_REPORT),
    ];
    for (case, threads, text, report) in &rows {
        assert!(rt; drains(&rt, alloc, threads, text, report)?, "{case}");
    }
    Ok(())
}

/// A run that waits for a fence which nobody signals comes to rest, and its history is ended.
#[test]
fn a_fence_that_nobody_signals_stalls_threads(rt: HostRuntime) -> Result<(), Fail> {
    let text = joined(rt.alloc(), &[LIT, WAITING])?;
    let words = ["run", "--threads", "4", "--trace"];
    let (status, sink) = run(&rt, rt.alloc(), &words, text.as_str())?;
    assert!(rt; status == Status::Stalled);
    assert!(rt; sink.written().ends_with(b"\nT stall\n") && has_line(&sink, "D stalled n"));
    Ok(())
}

/// A script, and the steps of a report with its steps as a schedule.
fn with_schedule(alloc: Global, script: &[u8], report: &[u8]) -> Result<String, Fail> {
    let mut text = String::from_utf8(Vec::from_slice(alloc, script)?)?;
    text.push_str("schedule\n")?;
    for line in report.split(|byte| *byte == b'\n') {
        if line.starts_with(b"T ") {
            text.push_str(str::from_utf8(line)?)?;
            text.push_str("\n")?;
        }
    }
    Ok(text)
}

/// The steps that three threads make are a schedule, of which `replay` writes the same bytes.
#[test]
fn steps_of_threads_are_replayed(rt: HostRuntime) -> Result<(), Fail> {
    let alloc = rt.alloc();
    let (_, script) = run(&rt, alloc, &["gen", "7", "200"], "")?;
    let text = String::from_utf8(Vec::from_slice(alloc, script.written())?)?;
    let trace = ["run", "--threads", "3", "--trace"];
    let (status, report) = run(&rt, alloc, &trace, text.as_str())?;
    assert!(rt; status == Status::Ok);
    let text = with_schedule(alloc, script.written(), report.written())?;
    let (status, replayed) = run(&rt, alloc, &["replay", "--trace"], text.as_str())?;
    assert!(rt; status == Status::Ok);
    assert!(rt; replayed.written() == report.written());
    Ok(())
}

/// Whether `audit` says yes to the report of a run by so many threads.
fn is_audited<R: Threads + Wait + Sync>(
    rt: &R,
    alloc: Global,
    threads: u32,
    script: &str,
) -> Result<bool, Fail> {
    let count = format!(in alloc; "{threads}")?;
    let words = ["run", "--threads", count.as_str()];
    let (_, report) = run(rt, alloc, &words, script)?;
    let report = String::from_utf8(Vec::from_slice(alloc, report.written())?)?;
    let text = with_report(alloc, script, report.as_str())?;
    let (status, sink) = run(rt, alloc, &["audit"], text.as_str())?;
    Ok(status == Status::Ok && sink.written() == b"audit yes\n".as_slice())
}

/// Whatever order threads find, their report is that of the device of one thread.
#[test]
fn reports_of_threads_are_right(rt: HostRuntime) -> Result<(), Fail> {
    let alloc = rt.alloc();
    let (_, script) = run(&rt, alloc, &["gen", "7", "60"], "")?;
    let text = String::from_utf8(Vec::from_slice(alloc, script.written())?)?;
    for threads in 1..17 {
        let is_right = is_audited(&rt, alloc, threads, text.as_str())?;
        assert!(rt; is_right, "{threads} threads");
    }
    Ok(())
}

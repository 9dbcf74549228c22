//! How tests call the program.
ghost use Rattle.std.specs.Prelude.{◌<◌};

use kms_io::{MemSink, MemSource, NoGate};
use kms_run::{Status, kms_main};
use std::alloc::{AllocError, Global};
use std::sync::Wait;
use std::test::Fail;
use std::thread::Threads;

/// The bytes that a sink has room for.
const ROOM: usize = 1 << 20;

/// The text of pieces, one after the other.
pub(crate) fn joined(alloc: Global, pieces: &[&str]) -> Result<String, AllocError> {
    let mut text = String::new(alloc);
    for piece in pieces {
        text.push_str(piece)?;
    }
    Ok(text)
}

/// The words of a command line.
pub(crate) fn words(alloc: Global, all: &[&str]) -> Result<Vec<String>, AllocError> {
    let mut words = Vec::new(alloc);
    for word in all {
        words.push(String::from_str(alloc, word)?)?;
    }
    Ok(words)
}

/// A source of a text, some of whose reads fail.
pub(crate) fn source(
    alloc: Global,
    text: &str,
    step: usize,
    fails: &[u32],
) -> Result<MemSource, AllocError>
    requires { 0 < step }
{
    let bytes = Vec::from_slice(alloc, text.as_bytes())?;
    Ok(MemSource::new(bytes, step, Vec::from_slice(alloc, fails)?))
}

/// A sink, some of whose writes fail.
pub(crate) fn sink(alloc: Global, step: usize, fails: &[u32]) -> Result<MemSink, Fail>
    requires { 0 < step }
{
    Ok(MemSink::new(alloc, ROOM, step, Vec::from_slice(alloc, fails)?)?)
}

/// What the program answers to words and a text, and what it writes.
pub(crate) fn run<R: Threads + Wait + Sync>(
    rt: &R,
    alloc: Global,
    all: &[&str],
    text: &str,
) -> Result<(Status, MemSink), Fail> {
    let mut source = source(alloc, text, 4096, &[])?;
    let mut sink = sink(alloc, 4096, &[])?;
    let words = words(alloc, all)?;
    let status = kms_main(rt, alloc, &words, &mut source, &mut sink, &NoGate);
    Ok((status, sink))
}

/// A script and a report behind it, as `audit` reads them.
pub(crate) fn with_report(alloc: Global, script: &str, report: &str) -> Result<String, AllocError> {
    joined(alloc, &[script, "report\n", report])
}

/// Whether a line stands in what was written.
pub(crate) fn has_line(sink: &MemSink, line: &str) -> bool {
    sink.written()
        .split(|byte| *byte == b'\n')
        .any(|found| found == line.as_bytes())
}

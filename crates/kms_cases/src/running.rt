//! A case answered by the program, over memory.

use kms_io::{MemSink, MemSource};
use kms_run::{is_run, kms_plain, status_text};
use kms_samples::casebook::{Case, Ending};
use std::alloc::{AllocError, Global};
use std::thread::Threads;

/// The bytes that a sink has room for.
const ROOM: usize = 1 << 21;

/// The bytes of a read or a write.
const STEP: usize = 4096;

/// How the program ends, and what it writes.
#[derive(Drop)]
pub struct Found {
    pub ending: Ending,
    pub sink: MemSink,
}

/// What the program answers to a case's words and input. None for words of `run`, which no case has.
pub fn run_case<R: Threads + Sync>(
    rt: &R,
    alloc: Global,
    case: &Case,
) -> Result<Option<Found>, AllocError> {
    if is_run(&case.words) {
        return Ok(None);
    }
    let bytes = Vec::from_slice(alloc, case.input.as_slice())?;
    let mut source = MemSource::new(bytes, STEP, Vec::new(alloc));
    let mut sink = MemSink::new(alloc, ROOM, STEP, Vec::new(alloc)).map_err(|_| AllocError)?;
    let status = kms_plain(rt, alloc, &case.words, &mut source, &mut sink);
    let text = status_text(alloc, &status).map_err(|_| AllocError)?;
    Ok(Some(Found {
        ending: Ending {
            number: status.number(),
            text,
        },
        sink,
    }))
}

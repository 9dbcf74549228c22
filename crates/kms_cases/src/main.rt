//! `kms_cases`: reads cases from its standard input, has the program answer each in memory, and prints a line a case.
#![tactic(auto)]

mod running;
mod telling;

use kms_samples::casebook::{FileError, read_cases};
use std::io;
use std::io::Read;
use std::process::ExitCode;
use std::thread::Threads;
use telling::tell_all;

/// Reads all cases and answers each. Gives whether all are alike; a fault of the file is told, and no case is answered.
fn answer_all<R: AllocGlobal + Input + Print + Threads + Sync>(rt: &R) -> io::Result<bool> {
    let mut text = Vec::new(rt.alloc());
    rt.reader().read_to_end(&mut text)?;
    match read_cases(rt.alloc(), text.as_slice()) {
        Ok(cases) => tell_all(rt, cases.as_slice()),
        Err(FileError::Fault { line, why }) => {
            println!(rt; "line {line}: {why}")?;
            Ok(false)
        }
        Err(FileError::NoMemory) => Err(io::Error::from(io::ErrorKind::OutOfMemory)),
    }
}

fn main(rt: HostRuntime) -> ExitCode {
    match answer_all(&rt) {
        Ok(true) => ExitCode::SUCCESS,
        Ok(false) => ExitCode::from(1),
        Err(_) => ExitCode::from(2),
    }
}

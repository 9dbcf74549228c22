//! `kms`: runs a script of clients' calls on a virtual display device, and writes the report.
#![tactic(auto)]

use kms_io::{NoGate, StdSink, StdSource};
use kms_run::{Status, kms_main, status_text};
use std::process::ExitCode;
use std::rt::Env;
use std::{env, io};

/// The words of the command line, without the program's own name. A word that is no text is not legal.
fn words<R: Env + AllocGlobal>(rt: &R) -> Result<Vec<String>, Status> {
    let mut words = Vec::new(rt.alloc());
    let all = match env::args(rt) {
        Ok(all) => all,
        Err(e) => {
            return Err(match e.kind() {
                io::ErrorKind::OutOfMemory => Status::NoMemory,
                _ => Status::Usage,
            });
        }
    };
    for word in all.skip(1) {
        if words.push(word).is_err() {
            return Err(Status::NoMemory);
        }
    }
    Ok(words)
}

fn main(rt: HostRuntime) -> ExitCode {
    let mut source = StdSource::new(rt.reader());
    let mut sink = StdSink::new(io::writer(&rt));
    let status = match words(&rt) {
        Ok(words) => kms_main(&rt, rt.alloc(), &words, &mut source, &mut sink, &NoGate),
        Err(status) => status,
    };
    if status != Status::Ok {
        // Where there is no memory for the text, nothing is said.
        if let Ok(text) = status_text(rt.alloc(), &status) {
            let _ = eprintln!(rt; "{text}");
        }
    }
    ExitCode::from(status.number())
}

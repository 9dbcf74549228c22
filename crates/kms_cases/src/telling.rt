//! What is found, compared with what is wanted, and told.

use crate::running::run_case;
use kms_samples::casebook::{Case, Ending, show};
use std::io;
use std::thread::Threads;

/// Answers each case and tells how. Gives whether all are alike.
pub fn tell_all<R: AllocGlobal + Print + Threads + Sync>(
    rt: &R,
    cases: &[Case],
) -> io::Result<bool> {
    let mut different = 0usize;
    for case in cases {
        if !tell_case(rt, case)? {
            different = different.saturating_add(1);
        }
    }
    println!(rt; "{} cases, {different} different", cases.len())?;
    Ok(different == 0)
}

/// Answers a case and tells what differs. Gives whether it is alike.
fn tell_case<R: AllocGlobal + Print + Threads + Sync>(rt: &R, case: &Case) -> io::Result<bool> {
    let name = case.name.as_str();
    let Some(found) = run_case(rt, rt.alloc(), case)? else {
        println!(rt; "{name}: words of run are for tests")?;
        return Ok(false);
    };
    let ended = tell_ending(rt, name, case.ending.as_ref(), &found.ending)?;
    let written = if case.parts.is_empty() {
        tell_output(rt, name, case.output.as_slice(), found.sink.written())?
    } else {
        tell_parts(rt, name, case.parts.as_slice(), found.sink.written())?
    };
    if ended && written {
        println!(rt; "{name}: alike")?;
    }
    Ok(ended && written)
}

/// Tells an end that is not wanted. Gives whether it is.
fn tell_ending(
    rt: &impl Print,
    name: &str,
    wanted: Option<&Ending>,
    found: &Ending,
) -> io::Result<bool> {
    let (number, text) = match wanted {
        Some(ending) => (ending.number, ending.text.as_str()),
        None => (0, ""),
    };
    let is_wanted = found.number == number && found.text.as_str() == text;
    if !is_wanted {
        println!(rt;
            "{name}: status {number} {text:?} wanted, {} {:?} found",
            found.number,
            found.text.as_str()
        )?;
    }
    Ok(is_wanted)
}

/// Tells the first line that is not wanted. Gives whether there is none.
fn tell_output<R: AllocGlobal + Print>(
    rt: &R,
    name: &str,
    wanted: &[u8],
    found: &[u8],
) -> io::Result<bool> {
    if wanted == found {
        return Ok(true);
    }
    let mut others = found.split(|byte| *byte == b'\n');
    let mut number = 0usize;
    for line in wanted.split(|byte| *byte == b'\n') {
        number = number.saturating_add(1);
        match others.next() {
            Some(other) if other == line => {}
            Some(other) => {
                tell_line(rt, name, number, line, other)?;
                return Ok(false);
            }
            None => {
                tell_line(rt, name, number, line, b"")?;
                return Ok(false);
            }
        }
    }
    println!(rt; "{name}: more than {number} lines found")?;
    Ok(false)
}

/// Tells two lines that differ.
fn tell_line<R: AllocGlobal + Print>(
    rt: &R,
    name: &str,
    number: usize,
    wanted: &[u8],
    found: &[u8],
) -> io::Result<()> {
    let wanted = show(rt.alloc(), wanted)?;
    let found = show(rt.alloc(), found)?;
    println!(rt; "{name}: line {number}: {wanted:?} wanted, {found:?} found")
}

/// Tells the first part that is not found behind the one before. Gives whether all are.
fn tell_parts<R: AllocGlobal + Print>(
    rt: &R,
    name: &str,
    parts: &[Vec<u8>],
    found: &[u8],
) -> io::Result<bool> {
    let mut rest = found;
    for part in parts {
        match behind(rest, part.as_slice()) {
            Some(others) => rest = others,
            None => {
                let part = show(rt.alloc(), part.as_slice())?;
                println!(rt; "{name}: {part:?} wanted")?;
                return Ok(false);
            }
        }
    }
    Ok(true)
}

/// What stands behind the first line that begins with a part, its rest and the lines after it.
fn behind<'a>(text: &'a [u8], part: &[u8]) -> Option<&'a [u8]> {
    for place in 0..text.len() {
        if place == 0 || text[place - 1] == b'\n' {
            if let Some(rest) = text[place..].strip_prefix(part) {
                return Some(rest);
            }
        }
    }
    None
}

//! A file of cases, taken apart.

use crate::casebook::cases::{Case, Ending};
use crate::casebook::faults::{FileError, LineError, Why};
use crate::casebook::lines::{Marked, read_marked};
use crate::casebook::spelling::spell_word;
use std::alloc::{AllocError, Global};
use std::str;

/// The cases of a file, or the first line of it that may not stand.
pub fn read_cases(alloc: Global, text: &[u8]) -> Result<Vec<Case>, FileError> {
    let mut cases = Vec::new(alloc);
    let mut number = 0usize;
    for line in text.split(|byte| *byte == b'\n') {
        number = number.saturating_add(1);
        match read_line(alloc, &mut cases, line) {
            Ok(()) => {}
            Err(LineError::Fault(why)) => return Err(FileError::Fault { line: number, why }),
            Err(LineError::NoMemory) => return Err(FileError::NoMemory),
        }
    }
    Ok(cases)
}

/// Reads a line: it begins a case, or goes on with the last one.
fn read_line(alloc: Global, cases: &mut Vec<Case>, line: &[u8]) -> Result<(), LineError> {
    let Ok(line) = str::from_utf8(line) else {
        return Err(LineError::Fault(Why::Text));
    };
    if line.is_empty() || line.starts_with('#') {
        return Ok(());
    }
    let Some(marked) = read_marked(line) else {
        return Err(LineError::Fault(Why::Mark));
    };
    match (marked.mark, marked.times) {
        ("case", 1) => {
            let case = read_head(alloc, cases.as_slice(), marked.text)?;
            Ok(cases.push(case)?)
        }
        _ => match cases.as_mut_slice().split_last_mut() {
            Some((case, earlier)) => add_line(alloc, earlier, case, marked),
            None => Err(LineError::Fault(Why::Case)),
        },
    }
}

/// Adds to a case what a line says.
fn add_line(
    alloc: Global,
    earlier: &[Case],
    case: &mut Case,
    line: Marked<'_>,
) -> Result<(), LineError> {
    match (line.mark, line.times) {
        ("<", times) => case.add_input(alloc, line.text, times),
        (">", times) => case.add_output(alloc, line.text, times),
        ("~", 1) => case.add_part(alloc, line.text),
        ("status", 1) => case.set_ending(read_ending(alloc, line.text)?),
        (mark, times) => match find(earlier, line.text) {
            Some(other) => add_of(case, other, mark, times),
            None if names_other(mark) => Err(LineError::Fault(Why::Other)),
            None => Err(LineError::Fault(Why::Mark)),
        },
    }
}

/// Whether the text behind a mark names another case.
fn names_other(mark: &str) -> bool {
    matches!(mark, "as" | "script" | "to" | "from")
}

/// Adds to a case what another one has.
fn add_of(case: &mut Case, other: &Case, mark: &str, number: u32) -> Result<(), LineError> {
    match (mark, number) {
        ("as", 1) => case.add_input_of(other),
        ("script", 1) => case.add_script_of(other),
        ("to", last) => case.add_lines_of(other, 0, last),
        ("from", first) => case.add_lines_of(other, first.saturating_sub(1), u32::MAX),
        _ => Err(LineError::Fault(Why::Mark)),
    }
}

/// The case of a name.
fn find<'a>(cases: &'a [Case], name: &str) -> Option<&'a Case> {
    cases.iter().find(|case| case.name.as_str() == name)
}

/// The head of a case: a name that no other has, and its words behind a colon, each behind a space.
fn read_head(alloc: Global, earlier: &[Case], text: &str) -> Result<Case, LineError> {
    let Some((name, rest)) = text.split_once(':') else {
        return Err(LineError::Fault(Why::Head));
    };
    if find(earlier, name).is_some() {
        return Err(LineError::Fault(Why::Twice));
    }
    let words = read_words(alloc, rest)?;
    Ok(Case::new(alloc, String::from_str(alloc, name)?, words))
}

/// Words, each behind a space.
fn read_words(alloc: Global, text: &str) -> Result<Vec<String>, LineError> {
    let mut words = Vec::new(alloc);
    for word in text.split(' ').skip(1) {
        words.push(read_word(alloc, word)?)?;
    }
    Ok(words)
}

/// The word that a text spells.
fn read_word(alloc: Global, text: &str) -> Result<String, LineError> {
    match String::from_utf8(spell_word(alloc, text)?) {
        Ok(word) => Ok(word),
        Err(_) => Err(LineError::Fault(Why::Text)),
    }
}

/// A number, and the text behind it.
fn read_ending(alloc: Global, text: &str) -> Result<Ending, LineError> {
    let (digits, says) = match text.split_once(' ') {
        Some(parts) => parts,
        None => (text, ""),
    };
    let Ok(number) = digits.parse::<u8>() else {
        return Err(LineError::Fault(Why::Status));
    };
    Ok(Ending {
        number,
        text: String::from_str(alloc, says)?,
    })
}

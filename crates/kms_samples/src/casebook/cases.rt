//! A case: what the program is given, and what is wanted of it.

use crate::casebook::faults::{LineError, Why};
use crate::casebook::spelling::spell_line;
use std::alloc::Global;

/// What is wanted of a run's end.
#[derive(Drop)]
pub struct Ending {
    pub number: u8,
    /// What the program says on standard error.
    pub text: String,
}

/// A case.
#[derive(Drop)]
pub struct Case {
    pub name: String,
    pub words: Vec<String>,
    /// None where the program ends well.
    pub ending: Option<Ending>,
    pub input: Vec<u8>,
    /// All that the program writes, where there are no parts.
    pub output: Vec<u8>,
    /// What stands at the begins of lines that the program writes, each behind the one before.
    pub parts: Vec<Vec<u8>>,
}

impl Case {
    /// A case without an input, of which nothing is wanted but that it ends well.
    pub(crate) fn new(alloc: Global, name: String, words: Vec<String>) -> Case {
        Case {
            name,
            words,
            ending: None,
            input: Vec::new(alloc),
            output: Vec::new(alloc),
            parts: Vec::new(alloc),
        }
    }

    /// Says how the run ends.
    pub(crate) fn set_ending(&mut self, ending: Ending) -> Result<(), LineError> {
        if self.ending.is_some() {
            return Err(LineError::Fault(Why::Status));
        }
        self.ending = Some(ending);
        Ok(())
    }

    /// Puts bytes behind the output.
    pub(crate) fn add_output(
        &mut self,
        alloc: Global,
        text: &str,
        times: u32,
    ) -> Result<(), LineError> {
        if !self.parts.is_empty() {
            return Err(LineError::Fault(Why::Both));
        }
        say(alloc, &mut self.output, text, times)
    }

    /// Puts bytes behind the input.
    pub(crate) fn add_input(
        &mut self,
        alloc: Global,
        text: &str,
        times: u32,
    ) -> Result<(), LineError> {
        say(alloc, &mut self.input, text, times)
    }

    /// Puts the input of another case behind the input.
    pub(crate) fn add_input_of(&mut self, other: &Case) -> Result<(), LineError> {
        Ok(self.input.extend_from_slice(other.input.as_slice())?)
    }

    /// Puts the script of another case behind the input: its lines before a schedule.
    pub(crate) fn add_script_of(&mut self, other: &Case) -> Result<(), LineError> {
        for line in other
            .input
            .as_slice()
            .split_inclusive(|byte| *byte == b'\n')
        {
            if line == b"schedule\n".as_slice() {
                return Ok(());
            }
            self.input.extend_from_slice(line)?;
        }
        Ok(())
    }

    /// Puts lines of the output that is wanted of another case behind the input: so many, behind so many others.
    pub(crate) fn add_lines_of(
        &mut self,
        other: &Case,
        behind: u32,
        count: u32,
    ) -> Result<(), LineError> {
        let mut number = 0u32;
        for line in other
            .output
            .as_slice()
            .split_inclusive(|byte| *byte == b'\n')
        {
            if behind <= number && number - behind < count {
                self.input.extend_from_slice(line)?;
            }
            number = number.saturating_add(1);
        }
        Ok(())
    }

    /// Adds a part of the output.
    pub(crate) fn add_part(&mut self, alloc: Global, text: &str) -> Result<(), LineError> {
        if !self.output.is_empty() {
            return Err(LineError::Fault(Why::Both));
        }
        Ok(self.parts.push(spell_line(alloc, text)?)?)
    }
}

/// Puts the bytes that a text spells behind others, so many times.
fn say(alloc: Global, into: &mut Vec<u8>, text: &str, times: u32) -> Result<(), LineError> {
    let bytes = spell_line(alloc, text)?;
    for _ in 0..times {
        into.extend_from_slice(bytes.as_slice())?;
    }
    Ok(())
}

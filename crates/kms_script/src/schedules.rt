//! The schedule behind a script: a line for each step of a history.
ghost use Rattle.std.specs.Prelude.{◌≡◌, ◌≤◌, ◌+◌, ℕ, length};
ghost use Rattle.kms_model.specs.Script.InputLines.{rows_of};
ghost use Rattle.kms_model.specs.Script.Schedules.{step_in_row, steps_in};
ghost use Rattle.kms_script.specs.Drafted.{row_in};
ghost use Rattle.kms_script.specs.Scheduled.{SchedulesAreReadBack};
ghost use Rattle.kms_script.specs.Stated.{Gives};

use crate::draft::all_printable;
use crate::faults::ParseError;
use crate::rows::{Row, split_line};
use crate::steps::read_step;
use kms_model::{Seq, Step, Why};
use std::alloc::Global;

/// The step of a line, or the line's fault: the first of Bytes, Cut and Form.
#[tactic(auto, unfolding(kms_model::specs::Script::Schedules::step_in_row))]
fn step_in_row(line: u32, row: &Row<'_>) -> Result<Step, ParseError>
    ensures { Gives (λ step. step) result (step_in_row line (row_in row.now)) }
{
    let fault = |why| ParseError::Fault { line, why };
    if !all_printable(row.text) {
        return Err(fault(Why::Bytes));
    }
    if !row.is_ended {
        return Err(fault(Why::Cut));
    }
    read_step(row.text).ok_or(fault(Why::Form))
}

/// The steps of lines, of which the first has a number, or the first fault.
pub fn read_steps(alloc: Global, bytes: &[u8], first: u32) -> Result<Seq<Step>, ParseError>
    requires { first + length bytes.now ≤ 4294967295 }
    ensures { Gives (λ steps. steps) result (steps_in first (rows_of bytes.now)) }
{
    let mut steps = Seq::new(alloc);
    let mut number = first;
    let mut rest = bytes;
    'lines: while !rest.is_empty() {
        let (row, after) = split_line(rest);
        let step = step_in_row(number, &row)?;
        let Ok(()) = steps.push(step) else {
            return Err(ParseError::NoMemory);
        };
        number += 1;
        rest = after;
    }
    Ok(steps)
}

/// `parse` reads each history of a well-formed script back: of the text that `print` gives of the script, a line
/// `schedule`, and the lines that `print_step` gives of the history's steps, each with its line feed, where the
/// script's text is at most 1,048,576 bytes and the whole at most 67,108,864.
pub fn schedules_are_read_back()
    ensures { SchedulesAreReadBack }
{}

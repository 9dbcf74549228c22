//! Whole inputs.
ghost use Rattle.std.specs.Prelude.{◌≡◌, ◌≤◌, ◌<◌, ◌+◌, ℕ, Ok, IfOk, length};
ghost use Rattle.kms_model.specs.declared.scripts.Part.TheVariants as parts;
ghost use Rattle.kms_model.specs.Script.FewerCommands.{input_within};
ghost use Rattle.kms_model.specs.Script.InputLines.{rows_of};
ghost use Rattle.kms_model.specs.Script.Schedules.{at_end_of_lines, behind_script, input_of};
ghost use Rattle.kms_model.specs.Script.WholeInput.{blank_draft, input, script_in};
ghost use Rattle.kms_model.specs.Script.WellFormed.{IsWellFormed};
ghost use Rattle.kms_model.specs.Script.Spelling.{Spells};
ghost use Rattle.kms_words.specs.Fitting.{KeepsLimits};
ghost use Rattle.kms_script.specs.Scheduled.{IsScheduleText};
ghost use Rattle.kms_script.specs.Stated.{Gives, parts_in, parts_of};
ghost use Rattle.kms_script.specs.Drafted.{draft_in, row_in, IsSoundDraft};
ghost use Rattle.kms_script.specs.Within.{input_within_of, parts_within};

use crate::draft::Draft;
use crate::endings::ends_script;
use crate::faults::ParseError;
use crate::rows::{Row, split_line};
use crate::schedules::read_steps;
use kms_model::{Part, Script, Seq, Step, Why};
use kms_words::{MAX_COMMANDS, MAX_INPUT};
use std::alloc::Global;

/// What an input has.
#[derive(PartialEq, Eq, Drop)]
pub struct Parsed {
    /// The script.
    pub script: Script,
    /// The steps of the schedule, in order; none for the other parts.
    pub steps: Seq<Step>,
    /// The place of the report's first byte, in bytes; the input's length for the other parts.
    pub rest: usize,
}

/// The line that ends a script.
#[derive(Clone, Copy)]
struct End<'a> {
    /// Its number, counted from 1.
    line: u32,
    row: Row<'a>,
    /// The bytes behind it.
    after: &'a [u8],
}

/// The script of all lines, with what follows it.
fn finish(alloc: Global, draft: Draft, steps: Seq<Step>, rest: usize) -> Result<Parsed, ParseError>
    requires sound { IsSoundDraft (draft_in draft) }
    requires whole { 0 < length (draft_in draft).conns }
    ensures value { Gives parts_in result (Ok (parts_of (script_in (draft_in draft)) steps rest)) }
    ensures limits { IfOk result (λ p. KeepsLimits p.script) }
{
    Ok(Parsed {
        script: draft.into_script(alloc)?,
        steps,
        rest,
    })
}

/// The script of lines that end without a line that ends the script: a report would be demanded.
fn at_end_of_lines(
    alloc: Global,
    part: Part,
    draft: Draft,
    line: u32,
    size: usize,
) -> Result<Parsed, ParseError>
    requires { IsSoundDraft (draft_in draft) }
    ensures value { Gives parts_in result (at_end_of_lines part size (draft_in draft) line) }
    ensures limits { IfOk result (λ p. KeepsLimits p.script) }
{
    if matches!(part, Part::Report) || draft.lacks_connectors() {
        return Err(ParseError::Fault {
            line,
            why: Why::Form,
        });
    }
    finish(alloc, draft, Seq::new(alloc), size)
}

/// What follows the line that ends the script.
fn behind_script(
    alloc: Global,
    part: Part,
    draft: Draft,
    end: End<'_>,
    size: usize,
) -> Result<Parsed, ParseError>
    requires sound { IsSoundDraft (draft_in draft) }
    requires whole { 0 < length (draft_in draft).conns }
    requires room { end.line + 1 + length end.after.now ≤ 4294967295 }
    requires short { length end.row.text.now ≤ 67108864 }
    ensures value { Gives parts_in result (behind_script part size (draft_in draft)
        end.entry.line (row_in end.entry.row) (rows_of end.entry.after.now)) }
    ensures limits { IfOk result (λ p. KeepsLimits p.script) }
{
    match part {
        Part::Report => {
            let rest = draft.size() + end.row.text.len() + 1;
            finish(alloc, draft, Seq::new(alloc), rest)
        }
        Part::Script | Part::Schedule => {
            let steps = read_steps(alloc, end.after, end.line + 1)?;
            finish(alloc, draft, steps, size)
        }
    }
}

/// Reads the lines of an input that is no longer than an input may be, of clients with at most so many commands.
fn read_lines(alloc: Global, bytes: &[u8], part: Part, most: usize) -> Result<Parsed, ParseError>
    requires { length bytes.now ≤ 67108864 }
    ensures value { Gives parts_in result
        (parts_within most part (length bytes.now) blank_draft 1 (rows_of bytes.now)) }
    ensures limits { IfOk result (λ p. KeepsLimits p.script) }
{
    let mut draft = Draft::new(alloc);
    let mut line = 1u32;
    let mut rest = bytes;
    'lines: while !rest.is_empty() {
        let (row, after) = split_line(rest);
        if ends_script(part, &draft, &row) {
            return behind_script(alloc, part, draft, End { line, row, after }, bytes.len());
        }
        if let Err(stop) = draft.line_within(alloc, &row, most) {
            return Err(stop.at(line));
        }
        line += 1;
        rest = after;
    }
    at_end_of_lines(alloc, part, draft, line, bytes.len())
}

/// The script that the bytes spell, with what follows it, or their first fault.
///
/// `Part::Script` is followed by nothing; `Part::Schedule` by a line `schedule` and a line for each step (see
/// `read_step`), or by nothing, which is a schedule without steps; `Part::Report` by a line `report`, behind which the
/// bytes may be any. That line may come as soon as there is a connector. It is `Form` in an input of another part,
/// and so is a second one.
///
/// More than 67,108,864 bytes are `Limit` in line 0. Otherwise the first line with a fault is told, counted from 1,
/// with the first cause that holds of it: `Bytes`, a byte outside 0x20 to 0x7e; `Cut`, a last line without its line
/// feed; `Form`, a line that may not stand there; `Label`, a label that was made before; `Limit`, a limit that is
/// passed with this line: 16 planes, 8 connectors, 16 clients, 4096 commands of a client, 256 assignments of a
/// request, 4096 labels made, or 1,048,576 bytes of the script's lines. Where the input ends before the first
/// connector, or before the line `report` that is demanded, the fault is `Form` at the number after the last line.
pub fn parse(alloc: Global, bytes: &[u8], part: Part) -> Result<Parsed, ParseError>
    ensures value { Gives parts_in result (input_of part bytes.now) }
    ensures formed { IfOk result (λ p. IsWellFormed p.script) }

    // An input of a script alone spells it, and one with a schedule is the text of both.
    ensures alone { part ≡ parts.Script → Gives (λ p. p.script) result (input bytes.now) }
    ensures spells { part ≡ parts.Script → IfOk result (λ p. Spells bytes.now p.script) }
    ensures text { part ≡ parts.Schedule
        → IfOk result (λ p. IsScheduleText bytes.now p.script p.steps) }
{
    parse_within(alloc, bytes, part, MAX_COMMANDS)
}

/// The same of an input whose clients have at most so many commands each, so that commands can be added: the line of one
/// more is `Limit`, where it has no other fault. `parse` is the case of 4096, and more than these are none either.
#[tactic(auto, unfolding(crate::specs::Within::input_within_of))]
pub fn parse_within(
    alloc: Global,
    bytes: &[u8],
    part: Part,
    most: usize,
) -> Result<Parsed, ParseError>
    ensures value { Gives parts_in result (input_within_of most part bytes.now) }
    ensures formed { IfOk result (λ p. IsWellFormed p.script) }

    // The script of an input that has a script alone.
    ensures alone { part ≡ parts.Script
        → Gives (λ p. p.script) result (input_within most bytes.now) }
{
    if bytes.len() > MAX_INPUT {
        return Err(ParseError::Fault {
            line: 0,
            why: Why::Limit,
        });
    }
    read_lines(alloc, bytes, part, most)
}

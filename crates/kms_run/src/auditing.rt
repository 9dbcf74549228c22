//! What `audit` says to an input.
ghost use Rattle.std.specs.Prelude.{◌≡◌, drop};
ghost use Rattle.kms_audit.specs.Told.{IsSpelt};
ghost use Rattle.kms_model.specs.Script.WellFormed.{IsWellFormed};
ghost use Rattle.kms_run.specs.Auditing.{Compares, SaysOf, said_of};

use kms_audit::{Audit, audit};
use kms_model::{NoMemory, Part, Report, Script, Why};
use kms_reading::{ReportError, parse_report};
use kms_script::{ParseError, parse};
use std::alloc::Global;

/// Why a report is not said to be right.
#[derive(Clone, Copy, PartialEq, Eq)]
pub enum NoYes {
    /// The first line of the input that may not stand where it stands, counted from 1, and why; line 0 is the whole input.
    Fault { line: u32, why: Why },
    /// The first line of the report, counted from 1, that is not right.
    Wrong { line: u32 },
    /// Memory ran out.
    NoMemory,
}

impl From<ParseError> for NoYes {
    ghost use Rattle.kms_run.specs.Auditing.{unparsed_input};
    ghost use Rattle.std.specs.Prelude.{◌≡◌};

    ghost from_gives = { λ e stop. stop ≡ unparsed_input e };

    fn from(e: ParseError) -> NoYes {
        match e {
            ParseError::Fault { line, why } => NoYes::Fault { line, why },
            ParseError::NoMemory => NoYes::NoMemory,
        }
    }
}

impl From<ReportError> for NoYes {
    ghost use Rattle.kms_run.specs.Auditing.{unread_report};
    ghost use Rattle.std.specs.Prelude.{◌≡◌};

    ghost from_gives = { λ e stop. stop ≡ unread_report e };

    fn from(e: ReportError) -> NoYes {
        match e {
            ReportError::BadLine { line } => NoYes::Wrong { line },
            ReportError::NoMemory => NoYes::NoMemory,
        }
    }
}

impl From<NoMemory> for NoYes {
    ghost use Rattle.kms_run.specs.declared.auditing.NoYes.TheVariants as stops;
    ghost use Rattle.std.specs.Prelude.{◌≡◌};

    ghost from_gives = { λ _ stop. stop ≡ stops.NoMemory };

    fn from(_e: NoMemory) -> NoYes {
        NoYes::NoMemory
    }
}

/// The bytes from a place on; none where there are not so many.
fn behind(bytes: &[u8], place: usize) -> &[u8]
    ensures { result.now ≡ drop place bytes.now }
{
    if place <= bytes.len() {
        &bytes[place..]
    } else {
        &[]
    }
}

/// What is said where an audit says this.
fn said_of(answer: Audit) -> Result<(), NoYes>
    ensures { result ≡ said_of answer }
{
    match answer {
        Audit::Yes => Ok(()),
        Audit::No { line } => Err(NoYes::Wrong { line }),
    }
}

/// Whether the lines of a report are those of a script, by the device of one thread.
fn compare(alloc: Global, script: &Script, report: &Report) -> Result<(), NoYes>
    requires formed { IsWellFormed script.now }
    requires spelt { IsSpelt report.now }
    ensures { Compares script.now report.now result }
{
    said_of(audit(alloc, script, report)?)
}

/// Whether the report in an input is right, behind its script; or the input's first fault, or the first line that is not right.
pub fn answer_audit(alloc: Global, input: &[u8]) -> Result<(), NoYes>
    ensures { SaysOf input.now result }
{
    let parsed = parse(alloc, input, Part::Report)?;
    let report = parse_report(alloc, behind(input, parsed.rest))?;
    compare(alloc, &parsed.script, &report)
}

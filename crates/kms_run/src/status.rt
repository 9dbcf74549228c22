//! How a run of the program ends.
ghost use Rattle.std.specs.Prelude.{◌≡◌, ◌++◌, codes, IfOk, string_bytes};
ghost use Rattle.std.specs.Fmt.{decimal};
ghost use Rattle.kms_run.specs.StatusText.{why_text, status_text};

use kms_model::{NoMemory, ObjId, Why};
use kms_one_thread::End;
use std::alloc::{AllocError, Global};

/// How a run of the program ends.
#[derive(Clone, Copy, Debug, PartialEq, Eq)]
pub enum Status {
    /// The history is drained and its report is written; or `gen` or `legacy` has written its text.
    Ok,
    /// The source failed; nothing is written.
    ReadFault,
    /// The sink failed; a front part of the output is written.
    WriteFault,
    /// The words are not legal; nothing is read or written.
    Usage,
    /// The input's first fault, at a line counted from 1; nothing is written. Line 0 is the whole input.
    Script { line: u32, why: Why },
    /// The history is dead; its report is written.
    Stalled,
    /// Memory ran out; nothing is written.
    NoMemory,
    /// An event of a schedule, counted from 1, is the first that is not legal; nothing is written.
    Illegal { at: u64 },
    /// A schedule ends neither drained nor dead; the report is written.
    Open,
    /// A line of a report, counted from 1, is the first that is wrong; nothing is written.
    AuditNo { line: u32 },
    /// What an object shows cannot be brought back, since no open thing holds it; nothing is written. It is the object of
    /// least id of which this holds.
    Closed { object: ObjId },
}

impl Status {
    ghost use Rattle.std.specs.Prelude.{◌≡◌};
    ghost use Rattle.kms_run.specs.StatusText.{status_number, status_of};

    /// The status of a run whose report is written, by how its history ended.
    pub fn of_end(ended: End) -> Status
        ensures { result ≡ status_of ended }
    {
        match ended {
            End::Drained => Status::Ok,
            End::Dead => Status::Stalled,
            End::Open => Status::Open,
        }
    }

    /// The number that the program ends with.
    pub fn number(&self) -> u8
        ensures { result ≡ status_number self.now }
    {
        match self {
            Status::Ok => 0,
            Status::ReadFault => 1,
            Status::WriteFault => 2,
            Status::Usage => 3,
            Status::Script { .. } => 4,
            Status::Stalled => 5,
            Status::NoMemory => 6,
            Status::Illegal { .. } => 7,
            Status::Open => 8,
            Status::AuditNo { .. } => 9,
            Status::Closed { .. } => 10,
        }
    }
}

fn why_text(why: Why) -> &'static str
    ensures { result.now ≡ why_text why }
{
    match why {
        Why::Bytes => "bytes",
        Why::Cut => "cut",
        Why::Form => "form",
        Why::Label => "label",
        Why::Limit => "limit",
    }
}

/// What the program says of a status on standard error, without a line feed; nothing where it is Ok.
pub fn status_text(alloc: Global, status: &Status) -> Result<String, NoMemory>
    ensures { IfOk result (λ text. string_bytes text ≡ status_text status.now) }
{
    let text = match status {
        Status::Ok => String::new(alloc),
        Status::ReadFault => String::from_str(alloc, "kms: read fault")?,
        Status::WriteFault => String::from_str(alloc, "kms: write fault")?,
        Status::Usage => {
            String::from_str(
                alloc,
                "kms: usage: kms one, replay, run, gen, audit, legacy, suspend",
            )?
        }
        Status::Script { line, why } => script_text(alloc, *line, why_text(*why))?,
        Status::Stalled => String::from_str(alloc, "kms: stalled")?,
        Status::NoMemory => String::from_str(alloc, "kms: out of memory")?,
        Status::Illegal { at } => illegal_text(alloc, *at)?,
        Status::Open => String::from_str(alloc, "kms: open")?,
        Status::AuditNo { line } => audit_text(alloc, *line)?,
        Status::Closed { object } => closed_text(alloc, object.0)?,
    };
    Ok(text)
}

fn script_text(alloc: Global, line: u32, why: &str) -> Result<String, AllocError>
    ensures { IfOk result (λ text. string_bytes text
        ≡ codes "kms: line " ++ decimal line ++ codes ": " ++ why.now) }
{
    let mut text = String::new(alloc);
    write!(text, "kms: line {line}: {why}")?;
    Ok(text)
}

fn illegal_text(alloc: Global, at: u64) -> Result<String, AllocError>
    ensures { IfOk result (λ text. string_bytes text
        ≡ codes "kms: event " ++ decimal at ++ codes " is not legal") }
{
    format!(in alloc; "kms: event {at} is not legal")
}

fn audit_text(alloc: Global, line: u32) -> Result<String, AllocError>
    ensures { IfOk result (λ text. string_bytes text ≡ codes "kms: audit: line " ++ decimal line) }
{
    format!(in alloc; "kms: audit: line {line}")
}

fn closed_text(alloc: Global, object: u32) -> Result<String, AllocError>
    ensures { IfOk result (λ text. string_bytes text ≡ codes "kms: closed " ++ decimal object) }
{
    format!(in alloc; "kms: closed {object}")
}

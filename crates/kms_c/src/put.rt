//! What an answer leaves in the caller's memory, and what is told of it.
ghost use Rattle.std.specs.Prelude.{◌≡◌};
ghost use Rattle.kms_c.specs.Answered.{left_of_answer, left_of_sleep, left_of_translation};
ghost use Rattle.kms_c.specs.Answered.{told_of_answer, told_of_audit, told_of_sleep, told_of_translation};
ghost use Rattle.kms_c.specs.Told.{text_told, with_text};

use crate::told::Told;
use kms_model::Seq;
use kms_run::{FullReport, NoAnswer, NoSleep, NoYes, Status};
use kms_script::ParseError;

/// Puts a text at the front of a memory, unless that has too little room.
fn put_text(out: &mut [u8], text: &[u8], status: Status) -> Told
    ensures told { result ≡ text_told status text.now out.old }
    ensures left { out.new ≡ with_text text.now out.old }
{
    let length = text.len();
    if out.len() < length {
        return Told::of_cut(length);
    }
    out[..length].copy_from_slice(text);
    Told::of_text(status, length)
}

/// What comes of an answer of `one`, of `replay`, or of the replies alone.
pub(crate) fn put_answer(out: &mut [u8], answer: Result<FullReport, NoAnswer>) -> Told
    ensures told { result ≡ told_of_answer answer out.old }
    ensures left { out.new ≡ left_of_answer answer out.old }
{
    match answer {
        Ok(report) => put_text(out, report.text.as_slice(), Status::of_end(report.ended)),
        Err(NoAnswer::Fault { line, why }) => Told::of_fault(line, why),
        Err(NoAnswer::Illegal { at }) => Told::of_illegal(at),
        Err(NoAnswer::NoMemory) => Told::of_status(Status::NoMemory),
    }
}

/// What comes of an answer of `suspend`.
pub(crate) fn put_slept(out: &mut [u8], answer: Result<FullReport, NoSleep>) -> Told
    ensures told { result ≡ told_of_sleep answer out.old }
    ensures left { out.new ≡ left_of_sleep answer out.old }
{
    match answer {
        Ok(report) => put_text(out, report.text.as_slice(), Status::of_end(report.ended)),
        Err(NoSleep::Fault { line, why }) => Told::of_fault(line, why),
        Err(NoSleep::Closed { object }) => Told::of_closed(object),
        Err(NoSleep::NoMemory) => Told::of_status(Status::NoMemory),
    }
}

/// What comes of an answer of `legacy`.
pub(crate) fn put_translation(out: &mut [u8], answer: Result<Seq<u8>, ParseError>) -> Told
    ensures told { result ≡ told_of_translation answer out.old }
    ensures left { out.new ≡ left_of_translation answer out.old }
{
    match answer {
        Ok(text) => put_text(out, text.as_slice(), Status::Ok),
        Err(ParseError::Fault { line, why }) => Told::of_fault(line, why),
        Err(ParseError::NoMemory) => Told::of_status(Status::NoMemory),
    }
}

/// What comes of an answer of `audit`, which has no text.
pub(crate) fn tell_audit(answer: Result<(), NoYes>) -> Told
    ensures { result ≡ told_of_audit answer }
{
    match answer {
        Ok(()) => Told::of_status(Status::Ok),
        Err(NoYes::Fault { line, why }) => Told::of_fault(line, why),
        Err(NoYes::Wrong { line }) => Told::of_wrong(line),
        Err(NoYes::NoMemory) => Told::of_status(Status::NoMemory),
    }
}

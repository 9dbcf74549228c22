//! What a call tells besides the bytes.
ghost use Rattle.std.specs.Prelude.{◌≡◌};
ghost use Rattle.kms_c.specs.Told.{cut_told, fault_told, illegal_told, closed_told, status_told, why_number, written_told, wrong_told};

use kms_model::{ObjId, Why};
use kms_run::Status;

/// How a call ended. A number that says nothing of an ending is 0.
#[repr(C)]
#[derive(Clone, Copy, PartialEq, Eq)]
pub struct Told {
    /// The number that the program ends with: 0 drained, or a right report, 3 options that are not known, 4 a fault of the
    /// input, 5 stalled, 6 no memory, 7 a step that is not legal, 8 open, 9 a wrong line of a report, 10 an object that cannot
    /// be brought back. 2 where the text is longer than the room for it.
    pub status: u32,
    /// At status 4 the line of the input's first fault, counted from 1; 0 is the whole input. At status 9 the first wrong line
    /// of the report, counted from 1 there.
    pub line: u32,
    /// At status 4 why it is one: 1 bytes, 2 cut, 3 form, 4 label, 5 limit.
    pub why: u32,
    /// At status 10 the id of the object.
    pub object: u32,
    /// At status 7 the place of the step in the schedule, counted from 1.
    pub place: u64,
    /// The bytes of the text; at status 2 the room that it needs.
    pub length: usize,
}

/// The number of a reason.
fn why_number(why: Why) -> u32
    ensures { result ≡ why_number why }
{
    match why {
        Why::Bytes => 1,
        Why::Cut => 2,
        Why::Form => 3,
        Why::Label => 4,
        Why::Limit => 5,
    }
}

impl Told {
    /// An ending with nothing but its status.
    pub(crate) fn of_status(status: Status) -> Told
        ensures { result ≡ status_told status }
    {
        Told {
            status: u32::from(status.number()),
            line: 0,
            why: 0,
            object: 0,
            place: 0,
            length: 0,
        }
    }

    /// The first fault of an input.
    pub(crate) fn of_fault(line: u32, why: Why) -> Told
        ensures { result ≡ fault_told line why }
    {
        Told {
            line,
            why: why_number(why),
            ..Told::of_status(Status::Script { line, why })
        }
    }

    /// A step of a schedule that is not legal.
    pub(crate) fn of_illegal(at: u64) -> Told
        ensures { result ≡ illegal_told at }
    {
        Told {
            place: at,
            ..Told::of_status(Status::Illegal { at })
        }
    }

    /// A line of a report that is wrong.
    pub(crate) fn of_wrong(at: u32) -> Told
        ensures { result ≡ wrong_told at }
    {
        Told {
            line: at,
            ..Told::of_status(Status::AuditNo { line: at })
        }
    }

    /// An object that cannot be brought back.
    pub(crate) fn of_closed(object: ObjId) -> Told
        ensures { result ≡ closed_told object }
    {
        Told {
            object: object.0,
            ..Told::of_status(Status::Closed { object })
        }
    }

    /// A text that was put.
    pub(crate) fn of_text(status: Status, length: usize) -> Told
        ensures { result ≡ written_told status length }
    {
        Told {
            length,
            ..Told::of_status(status)
        }
    }

    /// A text for which there is too little room.
    pub(crate) fn of_cut(length: usize) -> Told
        ensures { result ≡ cut_told length }
    {
        Told {
            length,
            ..Told::of_status(Status::WriteFault)
        }
    }
}

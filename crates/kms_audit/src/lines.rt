//! The lines of a report, and places among them.
ghost use Rattle.std.specs.Prelude.{◌≡◌};
ghost use Rattle.kms_audit.specs.Sections.{earliest};
ghost use Rattle.kms_model.specs.Report.RightAnswers.{answer_from};

use kms_model::{Answered, Event, Reply, Seq};

/// A J line: client and command.
pub type EntryFields = (u32, u32);

/// An R line: client, command, place and reply.
pub type ReplyFields = (u32, u32, u32, Reply);

/// An L line: the CRTC's index, the commit, the count, and the digest where the CRTC is on.
pub type LatchFields = (u32, u32, u64, Option<[u8; 32]>);

/// An E line: client and event.
pub type EventFields = (u32, Event);

/// An X line: label and id.
pub type FreedFields = (Seq<u8>, u32);

/// What an R line says, as a reply of a machine.
pub fn answer_of(line: &ReplyFields) -> Answered
    ensures { result ≡ answer_from line.now }
{
    Answered {
        client: line.0,
        command: line.1,
        place: u64::from(line.2),
        reply: line.3,
    }
}

/// The lower of two places, where there are any.
pub fn earliest(one: Option<usize>, other: Option<usize>) -> Option<usize>
    ensures { result ≡ earliest one other }
{
    let Some(first) = one else {
        return other;
    };
    let Some(second) = other else {
        return one;
    };
    if first <= second { one } else { other }
}

//! Whether a reply is the device's, at the place at which the device stands.
ghost use Rattle.std.specs.Prelude.{◌≡◌};
ghost use Rattle.kms_audit.specs.Indexed.{IsIndexOf};
ghost use Rattle.kms_audit.specs.Judged.{IsAt, StandsAt};
ghost use Rattle.kms_model.specs.declared.reports.Report.{Report};
ghost use Rattle.kms_model.specs.declared.scripts.Script.{Script};
ghost use Rattle.kms_model.specs.Device.Serial.{is_accepted};
ghost use Rattle.kms_model.specs.Report.RightAnswers.{is_devices_reply, is_told, reply_is_right, same_event, same_reply};

use crate::index::Index;
use crate::late::is_refused_late;
use crate::touches::Touches;
use kms_model::{Answered, Command, Event, Reply, Script, command_of};
use kms_serial::Serial;

/// Whether two events are the same.
pub fn same_event(one: &Event, other: &Event) -> bool
    ensures { result ≡ same_event one.now other.now }
{
    one.user_data == other.user_data && one.sequence == other.sequence && one.crtc == other.crtc
}

/// Whether two replies are the same.
fn same_reply(one: &Reply, other: &Reply) -> bool
    ensures { result ≡ same_reply one.now other.now }
{
    match (one, other) {
        (Reply::Made { id }, Reply::Made { id: other }) => id == other,
        (Reply::Done, Reply::Done) => true,
        (Reply::Commit { commit }, Reply::Commit { commit: other }) => commit == other,
        (Reply::Tested, Reply::Tested) => true,
        (Reply::Refused(refusal), Reply::Refused(other)) => refusal.0 == other.0,
        (Reply::Space { used }, Reply::Space { used: other }) => used == other,
        (
            Reply::Busy { object, commit },
            Reply::Busy {
                object: other,
                commit: others,
            },
        ) => object.0 == other.0 && commit == others,
        (Reply::Denied(number), Reply::Denied(other)) => number == other,
        (Reply::Event(event), Reply::Event(other)) => same_event(event, other),
        (Reply::NoEvent, Reply::NoEvent) => true,
        _ => false,
    }
}

/// Whether a reply tells that a command was accepted.
pub fn is_accepted(reply: &Reply) -> bool
    ensures { result ≡ is_accepted reply.now }
{
    matches!(
        reply,
        Reply::Made { .. } | Reply::Done | Reply::Commit { .. }
    )
}

/// Whether a reply tells an event, or that there is none.
fn is_told(reply: &Reply) -> bool
    ensures { result ≡ is_told reply.now }
{
    matches!(reply, Reply::Event(_) | Reply::NoEvent)
}

/// Whether a reply is the device's, which accepts nothing but entries.
fn is_devices_reply(index: &Index, serial: &Serial, a: &Answered, command: &Command) -> bool
    ensures { (s : Script) (r : Report) → IsIndexOf r index.now
        → StandsAt s r a.now.place serial.now → result ≡ is_devices_reply s r a.now command.now }
{
    let reply = serial.preview(a.client, command);
    same_reply(&a.reply, &reply) && (index.is_to_entry(a) || !is_accepted(&reply))
}

/// Whether a reply is right to the command that it answers. The device stands at the reply's place in the journal: it has
/// executed so many entries.
pub fn reply_is_right(
    script: &Script,
    index: &Index,
    serial: &Serial,
    touches: &Touches,
    a: &Answered,
) -> bool
    ensures { (r : Report) → IsIndexOf r index.now
        → IsAt script.now r a.now.place serial.now touches.now
        → result ≡ reply_is_right script.now r a.now }
{
    let Some(command) = command_of(script, a.client, a.command) else {
        return false;
    };
    match command {
        Command::Wait => is_told(&a.reply),
        Command::Signal { .. } => same_reply(&a.reply, &serial.preview(a.client, command)),
        Command::Atomic(request) => {
            is_devices_reply(index, serial, a, command)
                || !index.is_to_entry(a) && is_refused_late(serial, touches, request, &a.reply)
        }
        _ => is_devices_reply(index, serial, a, command),
    }
}

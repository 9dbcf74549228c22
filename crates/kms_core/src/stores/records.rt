//! What is recorded of commands.
ghost use Rattle.std.specs.Prelude.{◌≡◌, ◌<◌, ◌≤◌, ◌+◌, ◌*◌, ◌∷◌, ◌++◌, [], length, OnOk};
ghost use Rattle.kms_model.specs.Device.Serial.{is_accepted};
ghost use Rattle.kms_core.specs.Calls.{answered, joined};

use crate::lists::Log;
use kms_model::{Answered, Latch, NoMemory, Reply, Step};
use kms_track::Tracker;

/// Takes memory for one step beside those that are left of all tails. What is recorded stays.
pub fn make_step_room(steps: &mut Log<Step>, tracker: &Tracker) -> Result<(), NoMemory>
    ensures items { steps.new.items ≡ steps.old.items }
    ensures kept { steps.old.room ≤ steps.new.room }
    ensures room { OnOk result (31 * length tracker.now.tails.slots < steps.new.room) }
    ensures fits { OnOk result (length steps.new.items < 18446744073709551615) }
{
    let Some(most) = tracker.most_left() else {
        return Err(NoMemory);
    };
    let Some(room) = most.checked_add(1) else {
        return Err(NoMemory);
    };
    steps.make_room(room)
}

/// Takes memory for one step, beside those that are left of all tails, one accepted command and one reply more. What is
/// recorded stays.
pub fn make_room(
    steps: &mut Log<Step>,
    journal: &mut Log<(u32, u32)>,
    replies: &mut Log<Answered>,
    tracker: &Tracker,
) -> Result<(), NoMemory>
    ensures steps { steps.new.items ≡ steps.old.items }
    ensures journal { journal.new.items ≡ journal.old.items }
    ensures replies { replies.new.items ≡ replies.old.items }
    ensures steps_kept { steps.old.room ≤ steps.new.room }
    ensures steps_room { OnOk result (31 * length tracker.now.tails.slots < steps.new.room) }
    ensures journal_room { OnOk result (0 < journal.new.room) }
    ensures replies_room { OnOk result (0 < replies.new.room) }
{
    make_step_room(steps, tracker)?;
    journal.make_room(1)?;
    replies.make_room(1)?;
    Ok(())
}

/// Takes memory for a step and a further tail, beside what is left of all tails: a tail has at most 31 steps, and a latch at
/// most at each. What is recorded stays.
pub fn make_spare(
    steps: &mut Log<Step>,
    latches: &mut Log<Latch>,
    tracker: &Tracker,
) -> Result<(), NoMemory>
    ensures steps { steps.new.items ≡ steps.old.items }
    ensures latches { latches.new.items ≡ latches.old.items }
    ensures steps_kept { steps.old.room ≤ steps.new.room }
    ensures latches_kept { latches.old.room ≤ latches.new.room }
    ensures steps_room { OnOk result (31 * length tracker.now.tails.slots + 32 ≤ steps.new.room) }
    ensures latches_room { OnOk result (31 * length tracker.now.tails.slots + 31 ≤ latches.new.room) }
{
    let Some(most) = tracker.most_left() else {
        return Err(NoMemory);
    };
    let Some(room) = most.checked_add(32) else {
        return Err(NoMemory);
    };
    steps.make_room(room)?;
    latches.make_room(room)
}

/// Records the reply to the command of a client, by their numbers from 1, at the place of the commands that were
/// accepted before.
pub fn answer(
    journal: &Log<(u32, u32)>,
    replies: &mut Log<Answered>,
    client: u32,
    command: u32,
    reply: Reply,
)
    requires { 0 < replies.old.room }
    ensures { replies.new.items
        ≡ replies.old.items ++ answered client command (length journal.now.items) reply ∷ [] }
{
    replies.push(Answered {
        client,
        command,
        place: journal.as_slice().len() as u64,
        reply,
    });
}

/// Puts the command of a client, by their numbers from 1, into the journal, where its reply accepts it.
pub fn join(journal: &mut Log<(u32, u32)>, client: u32, command: u32, reply: &Reply)
    requires { 0 < journal.old.room }
    ensures { journal.new.items ≡ joined journal.old.items (is_accepted reply.now) client command }
{
    match reply {
        Reply::Made { .. } | Reply::Done | Reply::Commit { .. } => journal.push((client, command)),
        _ => {}
    }
}

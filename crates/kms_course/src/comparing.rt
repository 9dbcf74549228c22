//! Whether two machines tell the same of themselves.
ghost use Rattle.std.specs.Prelude.{◌≡◌, IsTrue};
ghost use Rattle.std.specs.Cmp.Lexicographic.{pointwise};

use crate::moves::{goes, next_of, place_of};
use kms_core::Core;
use kms_model::{
    Answered, Command, FIRST_CRTC_ID, Image, Kind, MAX_CLIENTS, NoMemory, ObjId, Reply, Step,
};
use std::alloc::Global;

/// Whether two machines answer these questions in the same way: their script, history, journal, replies, latches and freed
/// framebuffers; whether they are drained, can go on or have ended, and what holds them up; where each client stands, with the
/// command at which it is idle, its next step in the order of one thread, and the objects that its context holds, with their
/// states; the next step of a tail; which CRTCs latch a commit at their next vblank; and the words of each
/// framebuffer. What labels name takes memory to tell (`looks_same`). Not compared is for how many steps memory was taken (`spare`): a call that finds none may leave more room
/// than it found.
pub fn tells_same(one: &Core, other: &Core) -> bool
    ensures { IsTrue result
        → IsTrue (pointwise ⟦<Step as PartialEq>⟧.eq one.now.steps other.now.steps) }
{
    has_same_lists(one, other)
        && one.script() == other.script()
        && ends_the_same(one, other)
        && stand_the_same(one, other)
        && hold_same_objects(one, other)
        && go_the_same(one, other)
        && hold_the_same(one, other)
}

/// Whether two machines did the same steps.
fn has_same_steps(one: &Core, other: &Core) -> bool
    ensures { result ≡ pointwise ⟦<Step as PartialEq>⟧.eq one.now.steps other.now.steps }
{
    one.history() == other.history()
}

/// Whether two machines did the same steps, and recorded the same of them.
fn has_same_lists(one: &Core, other: &Core) -> bool
    ensures { IsTrue result
        → IsTrue (pointwise ⟦<Step as PartialEq>⟧.eq one.now.steps other.now.steps) }
{
    has_same_steps(one, other)
        && one.journal() == other.journal()
        && one.replies() == other.replies()
        && one.latched() == other.latched()
        && one.freed() == other.freed()
}

/// Whether two machines are both drained, can both go on, or have both ended, and are held up by the same fence.
fn ends_the_same(one: &Core, other: &Core) -> bool {
    one.drained() == other.drained()
        && one.enabled() == other.enabled()
        && one.is_stalled() == other.is_stalled()
        && one.stalled_on() == other.stalled_on()
}

/// Whether the clients of two machines stand at the same places.
fn stand_the_same(one: &Core, other: &Core) -> bool {
    (1..MAX_CLIENTS + 1).all(|client| {
        place_of(one, client) == place_of(other, client)
            && one.idle_command(client) == other.idle_command(client)
            && next_of(one, client) == next_of(other, client)
    })
}

/// Whether the contexts of clients on two machines hold the same objects, in the same states.
fn hold_same_objects(one: &Core, other: &Core) -> bool {
    (1..MAX_CLIENTS + 1).all(|client| holds_same_objects(one, other, client))
}

/// Whether a client's context holds the same objects on two machines, in the same states.
fn holds_same_objects(one: &Core, other: &Core, client: u32) -> bool {
    (FIRST_CRTC_ID..Kind::Enc.first_id()).all(|id| {
        one.held_state(client, ObjId(id)) == other.held_state(client, ObjId(id))
    })
}

/// Whether the same CRTCs of two machines latch a commit at their next vblank, and the same step of a tail is next.
fn go_the_same(one: &Core, other: &Core) -> bool {
    (0..4).all(|crtc| goes(one, crtc) == goes(other, crtc)) && one.tail_step() == other.tail_step()
}

/// Whether each id that a machine has given is that of a framebuffer with the same words on another.
fn hold_the_same(one: &Core, other: &Core) -> bool {
    one.replies()
        .iter()
        .all(|answered| gives_the_same(one, other, answered))
}

/// Whether the id that an answer has given, if any, is that of a framebuffer with the same words on two machines.
fn gives_the_same(one: &Core, other: &Core, answered: &Answered) -> bool {
    match answered.reply {
        Reply::Made { id } => are_the_same(one.image(id), other.image(id)),
        _ => true,
    }
}

/// Whether there are the same words of the same width, height and format, or none.
fn are_the_same(one: Option<Image<'_>>, other: Option<Image<'_>>) -> bool {
    match (one, other) {
        (Some(one), Some(other)) => {
            one.width == other.width
                && one.height == other.height
                && one.format == other.format
                && one.words == other.words
        }
        (None, None) => true,
        _ => false,
    }
}

/// Whether the labels of each request in the script name the same things now on two machines, whose script is the same.
pub fn looks_same(one: &Core, other: &Core, alloc: Global) -> Result<bool, NoMemory> {
    for commands in one.script().clients.as_slice() {
        if !name_the_same(one, other, alloc, commands.as_slice())? {
            return Ok(false);
        }
    }
    Ok(true)
}

/// Whether the labels of each request among some commands name the same things on two machines.
fn name_the_same(
    one: &Core,
    other: &Core,
    alloc: Global,
    commands: &[Command],
) -> Result<bool, NoMemory> {
    for command in commands {
        let Command::Atomic(request) = command else {
            continue;
        };
        if one.lookups(alloc, request)? != other.lookups(alloc, request)? {
            return Ok(false);
        }
    }
    Ok(true)
}

//! What hinders the commit of an accepted request.
ghost use Rattle.std.specs.Prelude.{◌≡◌, ◌+◌, ◌*◌, ◌≤◌, ◌&&◌, nat_lt, length, None, Some, if◌then◌else◌};
ghost use Rattle.kms_model.specs.declared.replies.Reply.TheVariants as reply;
ghost use Rattle.kms_model.specs.Firsts.{one_if};
ghost use Rattle.kms_model.specs.Request.Flags.{is_nonblock, wants_event};
ghost use Rattle.kms_signal.specs.Queues.{space_used};
ghost use Rattle.kms_track.specs.Tracking.{busy_of};
ghost use Rattle.kms_core.specs.Swaps.{busy_as, count_in, late_told};

use kms_model::{Mask, Reply, has_bit};
use kms_props::{is_nonblock, wants_event};
use kms_signal::{EVENT_BYTES, EVENT_SPACE, EventQueue};
use kms_track::Tracker;

fn one_if(b: bool) -> u32
    ensures one { result ≡ one_if b }
    ensures most { result ≤ 1 }
{
    if b { 1 } else { 0 }
}

/// How many of the first four objects are in a set, by its mask.
pub fn count_in(mask: u32) -> u32
    ensures count { result ≡ count_in mask }
    ensures most { result ≤ 4 }
{
    one_if(has_bit(mask, 0))
        + (one_if(has_bit(mask, 1)) + (one_if(has_bit(mask, 2)) + one_if(has_bit(mask, 3))))
}

/// The refusal for want of space for the events of a request that names so many CRTCs.
fn space_reply(queue: &EventQueue, flags: u32, events: u32) -> Option<Reply>
    requires events { events ≤ 4 }
    requires few { queue.now.reserved + length queue.now.unread ≤ 128 }
    ensures { result ≡ (if wants_event flags && nat_lt 4096 (space_used queue.now + 32 * events)
        then Some (reply.Space (space_used queue.now)) else None) }
{
    let used = EVENT_BYTES * (queue.reserved() + queue.unread());
    if wants_event(flags) && used + EVENT_BYTES * events > EVENT_SPACE {
        Some(Reply::Space { used })
    } else {
        None
    }
}

/// The refusal of a request that does not wait and touches an object that is busy.
fn busy_reply(tracker: &Tracker, flags: u32, touched: &Mask) -> Option<Reply>
    ensures { result ≡ (if is_nonblock flags then busy_as (busy_of tracker.now touched.now)
        else None) }
{
    if !is_nonblock(flags) {
        return None;
    }
    match tracker.busy(touched) {
        Some((object, commit)) => Some(Reply::Busy { object, commit }),
        None => None,
    }
}

/// The refusal of an accepted request, if any, by the mask of the CRTCs that it names and its flags: there is no space for
/// its events in its client's queue, or it does not wait and is busy. (Kernel: `drm_event_reserve_init`,
/// `drm_atomic_helper_setup_commit`.)
pub fn late_reply(
    queue: &EventQueue,
    tracker: &Tracker,
    named: u32,
    touched: &Mask,
    flags: u32,
) -> Option<Reply>
    requires { queue.now.reserved + length queue.now.unread ≤ 128 }
    ensures { result ≡ late_told queue.now tracker.now named touched.now flags }
{
    match space_reply(queue, flags, count_in(named)) {
        Some(reply) => Some(reply),
        None => busy_reply(tracker, flags, touched),
    }
}

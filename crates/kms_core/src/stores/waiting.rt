//! What others wait for: events, and fences.
ghost use Rattle.std.specs.Prelude.{◌≡◌};
ghost use Rattle.kms_signal.specs.StepLaws.{with_signal};
ghost use Rattle.kms_core.specs.Calls.{read_reply};

use kms_model::Reply;
use kms_signal::{EventQueue, Fences};

/// What a `wait` is answered by a queue of events, where it does not have to wait.
pub fn next_reply(queue: &EventQueue) -> Option<Reply>
    ensures { result ≡ read_reply queue.now.unread queue.now.reserved }
{
    match queue.oldest() {
        Some(event) => Some(Reply::Event(event)),
        None if queue.reserved() == 0 => Some(Reply::NoEvent),
        None => None,
    }
}

/// Signals the fence with an id, where there is one.
pub fn signal_fence(fences: &mut Fences, id: Option<u32>)
    ensures { fences.new ≡ with_signal fences.old id }
{
    if let Some(id) = id {
        fences.signal(id);
    }
}

//! The acquire contexts that have begun and are not over.
ghost use Rattle.std.specs.Prelude.{◌≡◌, map};
ghost use Rattle.kms_wwlock.specs.Table.{doing_in_contexts};
ghost use Rattle.kms_wwlock.specs.Calls.{with_doing};

use kms_model::{ObjId, Ticket};

/// What a context that has begun and is not over is doing.
#[derive(Clone, Copy, PartialEq, Eq)]
pub enum ContextDoing {
    /// It may take locks.
    Taking,
    /// It met an older holder of the object, and has to back off.
    MustBackOff(ObjId),
    /// It backed off for the object, which it has to lock before it takes others.
    BackedOff(ObjId),
}

/// An acquire context that has begun and is not over. (Kernel: `struct drm_modeset_acquire_ctx`, whose
/// field `contended` is the object of the last two cases of `ContextDoing`.)
#[derive(Clone, Copy, PartialEq, Eq)]
pub struct Context {
    /// Its ticket, by which it is known.
    pub ticket: Ticket,
    /// The number of the client that began it, counted from 1.
    pub client: u32,
    /// What it is doing.
    pub doing: ContextDoing,
}

impl Context {
    /// The same context, which does something else where it has this ticket.
    fn with_doing(self, t: Ticket, doing: ContextDoing) -> Context
        ensures { result ≡ with_doing t doing self }
    {
        if self.ticket == t {
            Context { doing, ..self }
        } else {
            self
        }
    }
}

/// What the context of a ticket is doing, where there is one.
pub fn doing_of(contexts: &[Context], t: Ticket) -> Option<ContextDoing>
    ensures { result ≡ doing_in_contexts contexts.now t }
{
    for context in contexts {
        if context.ticket == t {
            return Some(context.doing);
        }
    }
    None
}

/// Lets the context of a ticket do something else.
pub fn set_doing(contexts: &mut [Context], t: Ticket, doing: ContextDoing)
    ensures { contexts.new ≡ map (with_doing t doing) contexts.old }
{
    for context in contexts.iter_mut() {
        *context = context.with_doing(t, doing);
    }
}

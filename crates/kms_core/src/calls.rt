//! The calls of clients that decide no request, and what the labels of a request name.
ghost use Rattle.std.specs.Prelude.{◌≡◌, IfOk, ◌<◌};
ghost use Rattle.kms_model.specs.Request.Lookups.{lookups};
ghost use Rattle.kms_core.specs.Decisions.{world};

mod contexts;
mod making;
mod reading;
mod states;

use crate::machine::Core;
use crate::stores::look_ups;
pub use contexts::Locked;
use kms_model::{Lookups, NoMemory, Request};
pub use states::has_lock;
use std::alloc::Global;

impl Core {
    /// For each label that a request names, what it names now. The only error is want of memory.
    pub fn lookups(&self, alloc: Global, request: &Request) -> Result<Lookups, NoMemory>
        ensures { IfOk result (λ found.
            found ≡ lookups (world self.now) request.now) }
    {
        look_ups(alloc, &self.stores.things, request.assigns.as_slice())
    }
}

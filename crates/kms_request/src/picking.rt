//! Which assignments of a request count.
ghost use Rattle.std.specs.Prelude.{◌≡◌, Bool, true, is_none};
ghost use Rattle.kms_model.specs.declared.scripts.Assign.{Assign};
ghost use Rattle.kms_model.specs.Request.Refusals.{own_refusal};

use crate::lookups::Looker;
use crate::refusals::own_refusal;
use kms_model::{Assign, Topology};

/// Tells which assignments count.
pub(crate) trait Picker {
    /// The assignments that count.
    ghost picked: { Self → Assign → Bool };

    /// Whether an assignment counts.
    fn picks(&self, a: &Assign) -> bool
        ensures { result ≡ picked self.now a.now };
}

/// Every assignment counts.
#[derive(Drop)]
pub(crate) struct Every;

impl Picker for Every {
    ghost picked = { λ every a. true };

    fn picks(&self, _a: &Assign) -> bool {
        true
    }
}

/// Those assignments count with which nothing is wrong by themselves.
#[derive(Drop)]
pub(crate) struct Allowed<'a, L: Looker> {
    pub(crate) topology: &'a Topology,
    pub(crate) found: &'a L,
}

impl<'a, L: Looker> Picker for Allowed<'a, L> {
    ghost picked = { λ s a. is_none (own_refusal s.topology.now (L.meaning s.found.now) a) };

    fn picks(&self, a: &Assign) -> bool {
        own_refusal(self.topology, self.found, a).is_none()
    }
}

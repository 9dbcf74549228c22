//! Applying what a request sets.
ghost use Rattle.std.specs.Prelude.{◌≡◌, ℕ, All};
ghost use Rattle.kms_check.specs.Applying.{HasPlanesInRange, IsApplicable, SetsAll};
ghost use Rattle.kms_state.specs.Places.{old_states};

use kms_model::{Duplicates, Set};
use kms_state::Duplicating;

/// Applies sets one after the other. Each object is duplicated, and each property may be set to its value.
pub(crate) fn apply(states: &mut Duplicates, sets: &[Set])
    requires { All (IsApplicable states.old) sets.now }
    ensures new { SetsAll states.old sets.now states.new }
    ensures old { old_states states.new ≡ old_states states.old }
    ensures in_range { (n : ℕ) → HasPlanesInRange n states.old → HasPlanesInRange n states.new }
{
    for one in sets {
        states.set(one);
    }
}

//! New states that become the present ones.
ghost use Rattle.std.specs.Prelude.{◌≡◌};
ghost use Rattle.kms_model.specs.declared.objects.Topology.{Topology};
ghost use Rattle.kms_model.specs.declared.scripts.Request.{Request};
ghost use Rattle.kms_model.specs.declared.worlds.World.{World};
ghost use Rattle.kms_model.specs.Request.Apply.{after};
ghost use Rattle.kms_things.specs.Present.{IsAfter, IsPresent};
ghost use Rattle.kms_things.specs.Swapping.{alike_new, swapped, swapped_states};

use kms_model::{Both, Duplicates};

/// The present states of all objects once a request is committed, old and new alike, by the states before and after it.
/// (Kernel: `drm_atomic_helper_swap_state`.)
pub fn swap(states: &Duplicates) -> Duplicates
    ensures states { result ≡ swapped states.now }
    ensures present { (t : Topology) (w : World) (r : Request) → IsAfter t w r states.now
        → IsPresent t (record w { values = after w r }) result }
{
    let mut swapped = *states;
    swap_all(&mut swapped.crtcs);
    swap_all(&mut swapped.planes);
    swap_all(&mut swapped.conns);
    swapped
}

/// Each state that is there becomes the old one too.
fn swap_all<S: Copy>(states: &mut [Option<Both<S>>])
    ensures { states.new ≡ swapped_states states.old }
{
    for both in states.iter_mut() {
        *both = alike_new(*both);
    }
}

/// The new state, old and new alike.
fn alike_new<S: Copy>(both: Option<Both<S>>) -> Option<Both<S>>
    ensures { result ≡ alike_new both }
{
    let new = both?.new;
    Some(Both { old: new, new })
}

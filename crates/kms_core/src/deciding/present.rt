//! The present states after a commit.
ghost use Rattle.std.specs.Prelude.{◌≡◌, length};
ghost use Rattle.kms_core.specs.SwappedIn.{AreSwappedIn, IsSwappedIn, swapped_in};

use kms_model::{Both, Duplicates};

/// The present states of all objects of a device once a request is committed: those that were checked become their new
/// ones, and the others stay. (Kernel: `drm_atomic_helper_swap_state`.)
pub(crate) fn present_after(present: &Duplicates, checked: &Duplicates) -> Duplicates
    ensures { IsSwappedIn present.now checked.now result }
{
    let mut after = *present;
    swap_all(&mut after.crtcs, &checked.crtcs);
    swap_all(&mut after.planes, &checked.planes);
    swap_all(&mut after.conns, &checked.conns);
    after
}

/// The same of the objects of a kind.
fn swap_all<S: Copy>(states: &mut [Option<Both<S>>], checked: &[Option<Both<S>>])
    requires { length states.old ≡ length checked.now }
    ensures { AreSwappedIn S states.old checked.now states.new }
{
    for index in 0..states.len() {
        states[index] = swap_one(states[index], checked[index]);
    }
}

/// The same of one object.
fn swap_one<S: Copy>(present: Option<Both<S>>, checked: Option<Both<S>>) -> Option<Both<S>>
    ensures { result ≡ swapped_in present checked }
{
    let present = present?;
    match checked {
        Some(both) => Some(Both {
            old: both.new,
            new: both.new,
        }),
        None => Some(present),
    }
}

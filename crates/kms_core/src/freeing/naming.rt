//! Whether states name a framebuffer. (Kernel: `drm_framebuffer.h`, `struct drm_framebuffer`, its references.)
ghost use Rattle.std.specs.Prelude.{◌≡◌};
ghost use Rattle.std.specs.List.{list_any};
ghost use Rattle.kms_model.specs.Machine.Commits.{has_number};
ghost use Rattle.kms_model.specs.Machine.Framebuffers.{is_fb};
ghost use Rattle.kms_core.specs.Freeing.{both_ids, state_names};

use kms_model::{Both, FbInfo, PlaneState};

/// Whether it is the framebuffer with an id.
fn is_fb(fb: Option<FbInfo>, id: u32) -> bool
    ensures { result ≡ is_fb id fb }
{
    match fb {
        Some(fb) => fb.id == id,
        None => false,
    }
}

/// Whether a new state, of those that are there, names the framebuffer with an id.
pub fn any_names(states: &[Option<Both<PlaneState>>], id: u32) -> bool
    ensures { result ≡ list_any (state_names id) states.now }
{
    for state in states {
        if let Some(both) = state {
            if is_fb(both.new.fb, id) {
                return true;
            }
        }
    }
    false
}

/// Whether the old or the new state of a plane names the framebuffer with an id, where they are there.
pub fn both_name(both: Option<Both<PlaneState>>, id: u32) -> bool
    ensures { result ≡ has_number (both_ids both) id }
{
    match both {
        Some(both) => is_fb(both.old.fb, id) || is_fb(both.new.fb, id),
        None => false,
    }
}

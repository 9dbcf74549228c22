//! The fences that a commit waits for.
ghost use Rattle.std.specs.Prelude.{◌≡◌, ◌≤◌, length, map};
ghost use Rattle.kms_track.specs.Tails.{all_signalled, fence_ids, is_fence_signalled};

use kms_model::ObjId;
use kms_signal::Fences;

/// The ids of the fences that a commit waits for, from the first place on. There are at most 16, one for each plane.
pub(crate) fn all_fences(in_fences: &[(ObjId, u32)]) -> [Option<u32>; 16]
    requires { length in_fences.now ≤ 16 }
    ensures { fence_ids result ≡ map (λ f. f.1) in_fences.now }
{
    let mut fences = [None; 16];
    for (i, fence) in in_fences.iter().enumerate() {
        fences[i] = Some(fence.1);
    }
    fences
}

/// Whether all of these fences are signalled.
pub(crate) fn are_signalled(fences: &[Option<u32>; 16], signals: &Fences) -> bool
    ensures { result ≡ all_signalled signals.now fences.now }
{
    fences
        .iter()
        .all(|fence| is_fence_signalled(signals, *fence))
}

// Whether a fence, if any, is signalled.
fn is_fence_signalled(signals: &Fences, fence: Option<u32>) -> bool
    ensures { result ≡ is_fence_signalled signals.now fence }
{
    match fence {
        Some(id) => signals.is_signalled(id),
        None => true,
    }
}

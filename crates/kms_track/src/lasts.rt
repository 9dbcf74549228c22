//! The last commits that touched each object.
ghost use Rattle.std.specs.Prelude.{◌≡◌, ℕ, ◌<◌, slice_index_or};
ghost use Rattle.kms_track.specs.Places.{mask_has};
ghost use Rattle.kms_track.specs.Tracking.{no_last, raised};

use crate::places::has_object;
use kms_model::{MAX_LOCKABLE, Mask};

/// The last two commits that touched an object.
#[derive(Clone, Copy, PartialEq, Eq)]
pub struct Last {
    /// The number of the last one, counted from 0, if any.
    pub commit: Option<u32>,
    /// The number of the last but one, counted from 0, if any.
    pub before: Option<u32>,
}

impl Last {
    /// No commit touched it.
    pub(crate) fn none() -> Last
        ensures { result ≡ no_last }
    {
        Last {
            commit: None,
            before: None,
        }
    }

    /// The last two after a commit, where it touches the object.
    fn raise(self, is_touched: bool, commit: u32) -> Last
        ensures { result ≡ raised self is_touched commit }
    {
        if is_touched {
            Last {
                commit: Some(commit),
                before: self.commit,
            }
        } else {
            self
        }
    }
}

/// The last two commits of each object after one, by its number from 0, that touches these.
pub(crate) fn raise(last: &mut [Last; 28], touched: &Mask, commit: u32)
    ensures { (p : ℕ) → p < 28 → slice_index_or last.new p no_last
        ≡ raised (slice_index_or last.old p no_last) (mask_has touched.now p) commit }
{
    for place in 0..MAX_LOCKABLE {
        let i = place as usize;
        last[i] = last[i].raise(has_object(touched, place), commit);
    }
}

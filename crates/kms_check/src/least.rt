//! The least object of a set.
ghost use Rattle.std.specs.Prelude.{◌≡◌, option_map};
ghost use Rattle.kms_check.specs.Moves.{least_of};

use kms_model::{MAX_LOCKABLE, Mask, ObjId};
use kms_track::{has_object, object_at_place};

/// The object of a set with the least id, if it has any.
pub(crate) fn least_of(objects: &Mask) -> Option<ObjId>
    ensures { option_map (λ id. id.0) result ≡ least_of objects.now }
{
    for place in 0..MAX_LOCKABLE {
        if has_object(objects, place) {
            return Some(object_at_place(place));
        }
    }
    None
}

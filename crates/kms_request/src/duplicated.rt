//! Duplicated states, by the index of their object.
ghost use Rattle.std.specs.Prelude.{◌≡◌, option_copied};
ghost use Rattle.kms_model.specs.Device.Masks.{has_bit};
ghost use Rattle.kms_model.specs.Device.Places.{state_at};
ghost use Rattle.kms_model.specs.Request.Late.{duplicate_in};

use kms_model::{Both, has_bit};

/// Whether the object with an index is in a set, by its mask.
pub(crate) fn is_in(mask: u32, index: usize) -> bool
    ensures { result ≡ has_bit mask index }
{
    index < 32 && has_bit(mask, index as u32)
}

/// The states of the object with an index, where they are duplicated.
pub(crate) fn duplicate_at<S: Copy>(states: &[Option<Both<S>>], index: usize) -> Option<&Both<S>>
    ensures { option_copied result ≡ state_at states.now index }
{
    match states.get(index) {
        Some(Some(both)) => Some(both),
        _ => None,
    }
}

/// The states of the object with an index, where it is in a set and they are duplicated.
pub(crate) fn duplicate_in<S: Copy>(
    mask: u32,
    states: &[Option<Both<S>>],
    index: usize,
) -> Option<&Both<S>>
    ensures { option_copied result ≡ duplicate_in mask states.now index }
{
    if is_in(mask, index) {
        duplicate_at(states, index)
    } else {
        None
    }
}

//! The objects that a check still needs duplicated.
ghost use Rattle.std.specs.Prelude.{◌≡◌, ◌^◌, ◌≤◌, ◌<◌, ◌&&◌, cond, is_none, length};
ghost use Rattle.kms_model.specs.Device.Masks.{has_bit};
ghost use Rattle.kms_check.specs.Lacking.{is_empty, lacking, missing_in};
ghost use Rattle.kms_model.specs.Device.Places.{state_at};

use kms_model::{Both, Duplicates, Mask, has_bit};

/// Whether a set has no object.
fn is_empty(set: &Mask) -> bool
    ensures { result ≡ is_empty set.now }
{
    set.crtcs == 0 && set.planes == 0 && set.conns == 0
}

/// Bit `index`, where it is wanted.
fn bit_if(wanted: bool, index: usize) -> u32
    requires { index < 32 }
    ensures { result ≡ cond wanted (2 ^ index) 0 }
{
    if wanted { 1 << index } else { 0 }
}

/// Whether an object of a set is not duplicated.
fn is_not_duplicated<S: Copy>(mask: u32, states: &[Option<Both<S>>], index: usize) -> bool
    requires { index < 32 }
    ensures { result ≡ (has_bit mask index && is_none (state_at states.now index)) }
{
    has_bit(mask, index as u32) && !matches!(states.get(index), Some(Some(_)))
}

/// The mask of those of a set that are not duplicated.
fn missing_in<S: Copy>(mask: u32, states: &[Option<Both<S>>]) -> u32
    requires { length states.now ≤ 16 }
    ensures { result ≡ missing_in mask states.now (length states.now) }
{
    let mut missing = 0;
    for index in 0..states.len() {
        missing |= bit_if(is_not_duplicated(mask, states, index), index);
    }
    missing
}

/// Those of a set that are not duplicated, if there are any.
pub(crate) fn lacking(states: &Duplicates, objects: &Mask) -> Option<Mask>
    ensures { result ≡ lacking states.now objects.now }
{
    let missing = Mask {
        crtcs: missing_in(objects.crtcs, &states.crtcs),
        planes: missing_in(objects.planes, &states.planes),
        conns: missing_in(objects.conns, &states.conns),
    };
    if is_empty(&missing) {
        None
    } else {
        Some(missing)
    }
}

/// It does nothing. It shows that states, which it takes by value, have a place for each object of the largest device.
pub fn have_places(states: Duplicates)
    ensures crtcs { length states.crtcs ≡ 4 }
    ensures planes { length states.planes ≡ 16 }
    ensures conns { length states.conns ≡ 8 }
{}

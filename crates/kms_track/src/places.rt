//! The objects that commits touch, each at its place in the order of their ids.
ghost use Rattle.std.specs.Prelude.{◌≡◌, ◌<◌};
ghost use Rattle.kms_track.specs.Places.{crtc_id, is_side, object_at_place, mask_has, sides_at};

use kms_model::{Duplicates, Kind, MAX_CRTCS, MAX_PLANES, Mask, ObjId, has_bit};

/// How many places CRTCs and planes have; those of connectors come after them.
const CRTCS_AND_PLANES: u32 = MAX_CRTCS + MAX_PLANES;

/// The CRTCs of an object before and after a commit.
#[derive(Clone, Copy, PartialEq, Eq)]
pub struct Sides {
    /// The id of its CRTC before the commit, or 0. A CRTC's is its own.
    pub old: u32,
    /// The id of its CRTC after it, or 0. A CRTC's is its own.
    pub new: u32,
}

impl Sides {
    /// Whether the CRTC with an index, from 0 to 3, is one of them.
    pub(crate) fn has(self, index: u32) -> bool
        requires { index < 4 }
        ensures { result ≡ is_side self (crtc_id index) }
    {
        let crtc = ObjId::of(Kind::Crtc, index).0;
        self.old == crtc || self.new == crtc
    }
}

/// The object at a place, from 0 to 27.
pub fn object_at_place(place: u32) -> ObjId
    requires { place < 28 }
    ensures { result.0 ≡ object_at_place place }
{
    if place < MAX_CRTCS {
        ObjId::of(Kind::Crtc, place)
    } else if place < CRTCS_AND_PLANES {
        ObjId::of(Kind::Plane, place - MAX_CRTCS)
    } else {
        ObjId::of(Kind::Conn, place - CRTCS_AND_PLANES)
    }
}

/// Whether the object at a place, from 0 to 27, is in a set.
pub fn has_object(mask: &Mask, place: u32) -> bool
    requires { place < 28 }
    ensures { result ≡ mask_has mask.now place }
{
    if place < MAX_CRTCS {
        has_bit(mask.crtcs, place)
    } else if place < CRTCS_AND_PLANES {
        has_bit(mask.planes, place - MAX_CRTCS)
    } else {
        has_bit(mask.conns, place - CRTCS_AND_PLANES)
    }
}

/// The CRTCs of the object at a place, from 0 to 27, of its states before and after a commit; none where it was not
/// duplicated.
pub(crate) fn sides_at(states: &Duplicates, place: u32) -> Sides
    requires { place < 28 }
    ensures { result ≡ sides_at states.now place }
{
    if place < MAX_CRTCS {
        let id = ObjId::of(Kind::Crtc, place).0;
        Sides { old: id, new: id }
    } else if place < CRTCS_AND_PLANES {
        match states.planes[(place - MAX_CRTCS) as usize] {
            Some(both) => Sides {
                old: both.old.crtc,
                new: both.new.crtc,
            },
            None => Sides { old: 0, new: 0 },
        }
    } else {
        match states.conns[(place - CRTCS_AND_PLANES) as usize] {
            Some(both) => Sides {
                old: both.old.crtc,
                new: both.new.crtc,
            },
            None => Sides { old: 0, new: 0 },
        }
    }
}

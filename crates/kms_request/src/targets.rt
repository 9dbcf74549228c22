//! Which properties of which objects assignments set, in place.
ghost use Rattle.std.specs.Prelude.{◌≡◌, ◌<◌, ℕ, List, [], ◌∷◌, not};
ghost use Rattle.std.specs.List.{list_any};
ghost use Rattle.kms_model.specs.declared.scripts.Assign.{Assign};
ghost use Rattle.kms_model.specs.Request.Resolves.{HasPlace, IsSettable};
ghost use Rattle.kms_model.specs.Request.Sets.{has_target_of};
ghost use Rattle.kms_request.specs.Targets.{target_place, target_of, TellTargets};

use crate::sets::prop_of;
use kms_model::{Assign, Kind, MAX_CRTCS, MAX_PLANES};

/// Room for 4 CRTCs, 16 planes and 8 connectors, each with the ids of properties up to 19.
const ROOM: usize = 560;

/// A mark for each property of each object.
pub type Marks = [bool; ROOM];

/// No mark.
pub fn no_marks() -> Marks
    ensures { TellTargets [] result }
{
    [false; ROOM]
}

/// The place of an object among all that can be set.
fn target_place(kind: Kind, index: u32) -> usize
    requires { HasPlace kind index }
    ensures place { result ≡ target_place kind index }
    ensures within { result < 28 }
{
    let index = index as usize;
    match kind {
        Kind::Crtc => index,
        Kind::Plane => MAX_CRTCS as usize + index,
        Kind::Conn => (MAX_CRTCS + MAX_PLANES) as usize + index,
        Kind::Enc => unreachable!(),
    }
}

/// The place of the property that an assignment sets.
fn target_of(a: &Assign) -> usize
    requires { IsSettable a.now }
    ensures place { result ≡ target_of a.now }
    ensures within { result < ROOM }
{
    target_place(a.kind, a.index) * 20 + prop_of(a.prop) as usize
}

/// Marks what an assignment sets, and tells whether it was not marked before.
pub fn mark(marks: &mut Marks, a: &Assign) -> bool
    requires { IsSettable a.now }
    ensures new { (others : List Assign) → TellTargets others marks.old
        → result ≡ not (list_any (has_target_of a.now) others) }
    ensures marked { (others : List Assign) → TellTargets others marks.old
        → TellTargets (a.now ∷ others) marks.new }
{
    let target = target_of(a);
    let was_marked = marks[target];
    marks[target] = true;
    !was_marked
}

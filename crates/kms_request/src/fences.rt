//! The fences that assignments name and ask for. (Kernel: "Explicit Fencing Properties".)
ghost use Rattle.std.specs.Prelude.{◌≡◌, ◌≤◌, ◌<◌, ◌&&◌, ◌==◌, ℕ, List, [], ◌∷◌, ◌++◌, All, IfOk, IsTrue, Option, Some, None, take};
ghost use Rattle.kms_model.specs.declared.objects.Kind.TheVariants.{Crtc, Plane};
ghost use Rattle.kms_model.specs.declared.scripts.Assign.{Assign};
ghost use Rattle.kms_model.specs.Request.Apply.{prop_of};
ghost use Rattle.kms_model.specs.Device.Properties.{keeps_limits, same_kind};
ghost use Rattle.kms_model.specs.Request.Resolves.{IsSettable};
ghost use Rattle.kms_model.specs.Request.Sets.{in_fences, out_fences};
ghost use Rattle.kms_model.specs.Request.Touched.{new_label, out_fence_label};
ghost use Rattle.kms_request.specs.Fences.{fence_value, ListsNumbers, TellInFences, TellNumbers, TellOutFences};

use crate::lookups::Looker;
use crate::sets::prop_of;
use kms_model::properties::{IN_FENCE_FD, OUT_FENCE_PTR};
use kms_model::{Assign, Kind, Look, NoMemory, ObjId, Seq, Topology, Value};
use std::alloc::Global;

/// A number for each of the objects of a kind, where it has one.
pub type Numbers = [Option<u32>; 16];

/// The id of the fence that a value names.
fn fence_of<L: Looker>(found: &L, given: Value) -> Option<u32>
    ensures { result ≡ fence_value (L.meaning found.now) given }
{
    let Value::Named(label) = given else {
        return None;
    };
    match found.look(label) {
        Look::Fence(id) => Some(id),
        _ => None,
    }
}

/// The label that a value asks to be made.
fn new_label(given: Value) -> Option<u32>
    ensures { result ≡ new_label (Some given) }
{
    match given {
        Value::New(label) => Some(label),
        _ => None,
    }
}

/// Whether an assignment sets a property of an object of a kind.
fn sets_of(a: &Assign, kind: Kind, prop: u32) -> bool
    ensures { result ≡ (same_kind a.now.kind kind && (prop_of a.now.prop == prop)) }
{
    a.kind == kind && prop_of(a.prop) == prop
}

/// Notes the fence that an assignment names for a plane, or that it names none.
fn note_in_fence<L: Looker>(fences: &mut Numbers, found: &L, a: &Assign)
    requires { IsSettable a.now }
    ensures { (earlier : List Assign) → TellInFences (L.meaning found.now) earlier fences.old
        → TellInFences (L.meaning found.now) (earlier ++ a.now ∷ []) fences.new }
{
    if sets_of(a, Kind::Plane, IN_FENCE_FD) {
        fences[a.index as usize] = fence_of(found, a.value);
    }
}

/// Notes the label that an assignment asks to be made for a CRTC, or that it asks for none.
fn note_out_fence(labels: &mut Numbers, a: &Assign)
    requires { IsSettable a.now }
    ensures { (earlier : List Assign) → TellOutFences earlier labels.old
        → TellOutFences (earlier ++ a.now ∷ []) labels.new }
{
    if sets_of(a, Kind::Crtc, OUT_FENCE_PTR) {
        labels[a.index as usize] = new_label(a.value);
    }
}

/// The fence of each plane.
fn in_fence_numbers<L: Looker>(found: &L, assigns: &[Assign]) -> Numbers
    requires { All IsSettable assigns.now }
    ensures { TellInFences (L.meaning found.now) assigns.now result }
{
    let mut fences = [None; 16];
    for a in assigns {
        note_in_fence(&mut fences, found, a);
    }
    fences
}

/// For each CRTC, the label of the out-fence that assignments ask for there by their last `OUT_FENCE_PTR`, if any.
pub fn out_fence_numbers(assigns: &[Assign]) -> Numbers
    requires { All IsSettable assigns.now }
    ensures { TellOutFences assigns.now result }
{
    let mut labels = [None; 16];
    for a in assigns {
        note_out_fence(&mut labels, a);
    }
    labels
}

/// The objects of a kind that have a number, with it, in order.
fn listed(
    alloc: Global,
    kind: Kind,
    count: usize,
    numbers: &Numbers,
) -> Result<Seq<(ObjId, u32)>, NoMemory>
    requires { count ≤ 16 }
    ensures { IfOk result (ListsNumbers kind count numbers.now) }
{
    let mut all = Seq::new(alloc);
    for index in 0..count {
        let Some(number) = numbers[index] else {
            continue;
        };
        all.push((ObjId::of(kind, index as u32), number))?;
    }
    Ok(all)
}

/// The planes for which assignments name a fence, each with the fence's id, in order.
pub fn in_fences<L: Looker>(
    alloc: Global,
    topology: &Topology,
    found: &L,
    assigns: &[Assign],
) -> Result<Seq<(ObjId, u32)>, NoMemory>
    requires limits { IsTrue (keeps_limits topology.now) }
    requires settable { All IsSettable assigns.now }
    ensures { IfOk result (λ fences.
        fences ≡ in_fences topology.now (L.meaning found.now) assigns.now) }
{
    let numbers = in_fence_numbers(found, assigns);
    listed(alloc, Kind::Plane, topology.planes.len(), &numbers)
}

/// The CRTCs for which assignments ask for a fence, each with the label that it gets, by its number from 0, in order.
pub fn out_fences(
    alloc: Global,
    topology: &Topology,
    assigns: &[Assign],
) -> Result<Seq<(ObjId, u32)>, NoMemory>
    requires limits { IsTrue (keeps_limits topology.now) }
    requires settable { All IsSettable assigns.now }
    ensures { IfOk result (λ labels. labels ≡ out_fences topology.now assigns.now) }
{
    let numbers = out_fence_numbers(assigns);
    listed(alloc, Kind::Crtc, topology.crtcs as usize, &numbers)
}

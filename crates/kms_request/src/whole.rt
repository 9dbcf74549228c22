//! The plain check of the whole device. (Kernel: `drm_atomic_check_only`.)
ghost use Rattle.std.specs.Prelude.{◌≡◌, ◌≤◌, ◌<◌, ◌&&◌, ℕ, All, IsTrue, filter};
ghost use Rattle.std.specs.List.{list_any};
ghost use Rattle.kms_model.specs.declared.worlds.World.{World};
ghost use Rattle.kms_model.specs.Request.Verdict.{late_in};
ghost use Rattle.kms_model.specs.declared.objects.Topology.{Topology};
ghost use Rattle.kms_model.specs.Device.Masks.{mask_below};
ghost use Rattle.kms_model.specs.Request.Touched.{named_by};
ghost use Rattle.kms_model.specs.Request.Resolves.{IsSettable};
ghost use Rattle.kms_request.specs.Answers.{refusal_number};
ghost use Rattle.kms_request.specs.Naming.{AreCrtcs};
ghost use Rattle.kms_request.specs.Whole.{IsSettableIf, StandBetween, StandSomewhere, is_named_between};
ghost use Rattle.kms_request.specs.Fences.{has_number_at};

use crate::fences::{Numbers, out_fence_numbers};
use crate::late::{Asked, late_refusal};
use crate::naming::{crtcs_of, only_crtc};
use crate::picking::{Every, Picker};
use crate::sets::object_of;
use kms_model::{Assign, Duplicates, Mask, Refusal, Request, Topology};
use kms_props::AtomicFlags;

/// The set of all objects.
const ALL: Mask = Mask {
    crtcs: u32::MAX,
    planes: u32::MAX,
    conns: u32::MAX,
};

/// The CRTCs that an assignment names.
fn named_between(states: &Duplicates, a: &Assign) -> u32
    requires { IsSettable a.now }
    ensures { AreCrtcs (is_named_between states.now a.now) result }
{
    let object = object_of(a);
    let (old, new) = crtcs_of(states, object);
    only_crtc(object) | only_crtc(old) | only_crtc(new)
}

/// The same of an assignment that may count or not.
fn named_if<P: Picker>(states: &Duplicates, picks: &P, a: &Assign) -> u32
    requires { IsSettableIf (P.picked picks.now a.now) a.now }
    ensures { AreCrtcs (λ crtc. P.picked picks.now a.now && is_named_between states.now a.now crtc)
        result }
{
    if !picks.picks(a) {
        return 0;
    }
    named_between(states, a)
}

/// The mask of the CRTCs that those of some assignments name that count.
pub(crate) fn named_by_picked<P: Picker>(states: &Duplicates, picks: &P, assigns: &[Assign]) -> u32
    requires { All (λ a. IsSettableIf (P.picked picks.now a) a) assigns.now }
    ensures { AreCrtcs (λ crtc. list_any (λ a. is_named_between states.now a crtc)
        (filter (P.picked picks.now) assigns.now)) result }
{
    let mut named = 0;
    for a in assigns {
        named |= named_if(states, picks, a);
    }
    named
}

/// The CRTCs that assignments name.
fn all_named_between(states: &Duplicates, assigns: &[Assign]) -> u32
    requires { All IsSettable assigns.now }
    ensures { AreCrtcs (λ crtc. list_any (λ a. is_named_between states.now a crtc) assigns.now)
        result }
{
    named_by_picked(states, &Every, assigns)
}

/// The mask of the CRTCs that an accepted request names: bit i stands for CRTC index i. Every object of the device is
/// duplicated, before the request and after it.
pub fn named_in(states: &Duplicates, request: &Request) -> u32
    requires { All IsSettable request.now.assigns }
    ensures { (t : Topology) (w : World) → StandBetween t w request.now states.now
        → result ≡ named_by t w request.now }
{
    all_named_between(states, request.assigns.as_slice())
}

/// The first indices that have a number, as a set.
fn with_number(numbers: &Numbers, count: usize) -> u32
    requires { count ≤ 16 }
    ensures { result ≡ mask_below (has_number_at numbers.now) count }
{
    let mut mask = 0;
    for index in 0..count {
        if numbers[index].is_none() {
            continue;
        }
        mask |= 1 << index;
    }
    mask
}

/// The first late refusal of a request, where all objects of the device are looked at; `None` where there is
/// none. Every object of the device is duplicated, before the request and after it, in some sound world, and no early
/// refusal is due there. It takes no memory.
pub fn full_check(topology: &Topology, states: &Duplicates, request: &Request) -> Option<Refusal>
    requires { StandSomewhere topology.now request.now states.now }
    ensures { (w : World) → StandBetween topology.now w request.now states.now
        → refusal_number result ≡ late_in topology.now w request.now }
{
    let assigns = request.assigns.as_slice();
    let fences = out_fence_numbers(assigns);
    let asked = Asked {
        flags: AtomicFlags::of_request(request.flags),
        named: all_named_between(states, assigns),
        fenced: with_number(&fences, topology.crtcs as usize),
    };
    late_refusal(topology, states, &ALL, asked)
}

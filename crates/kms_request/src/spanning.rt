//! What a request touches, by the states of the whole device before and after it.
ghost use Rattle.std.specs.Prelude.{◌≡◌, All, filter};
ghost use Rattle.std.specs.List.{list_any};
ghost use Rattle.kms_model.specs.declared.objects.Topology.{Topology};
ghost use Rattle.kms_model.specs.declared.worlds.World.{World};
ghost use Rattle.kms_model.specs.Request.Groups.{union};
ghost use Rattle.kms_model.specs.Request.Resolves.{IsSettable};
ghost use Rattle.kms_model.specs.Request.Touched.{named_by, touched_by};
ghost use Rattle.kms_request.specs.Groups.{affected_below, objects_assigned};
ghost use Rattle.kms_request.specs.Naming.{AreCrtcs};
ghost use Rattle.kms_request.specs.Whole.{IsSettableIf, StandBetween, is_named_between};

use crate::groups::{affected, objects_assigned, only_crtcs, union};
use crate::picking::{Every, Picker};
use crate::whole::named_by_picked;
use kms_model::{Assign, Duplicates, Mask, Request};

/// The mask of the CRTCs that those of some assignments name that count, and the objects that these touch. Every object
/// of the device is duplicated, before them and after them.
pub(crate) fn spans_of_picked<P: Picker>(
    states: &Duplicates,
    picks: &P,
    assigns: &[Assign],
) -> (u32, Mask)
    requires { All (λ a. IsSettableIf (P.picked picks.now a) a) assigns.now }
    ensures named { AreCrtcs (λ crtc. list_any (λ a. is_named_between states.now a crtc)
        (filter (P.picked picks.now) assigns.now)) result.0 }
    ensures touched { result.1 ≡ union
        (union (objects_assigned (filter (P.picked picks.now) assigns.now))
        (record { crtcs = result.0; planes = 0; conns = 0 }))
        (affected_below states.now.crtcs result.0 4) }
{
    let named = named_by_picked(states, picks, assigns);
    let assigned = objects_assigned(picks, assigns);
    let affected = affected(states, named);
    let touched = union(&union(&assigned, &only_crtcs(named)), &affected);
    (named, touched)
}

/// The CRTCs that an accepted request names, bit i for CRTC index i, and the objects that it touches. Every object of
/// the device is duplicated, before the request and after it. It takes no memory.
pub fn spans(states: &Duplicates, request: &Request) -> (u32, Mask)
    requires { All IsSettable request.now.assigns }
    ensures named { (t : Topology) (w : World) → StandBetween t w request.now states.now
        → result.0 ≡ named_by t w request.now }
    ensures touched { (t : Topology) (w : World) → StandBetween t w request.now states.now
        → result.1 ≡ touched_by t w request.now }
{
    spans_of_picked(states, &Every, request.assigns.as_slice())
}

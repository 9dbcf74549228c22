//! What a request may do before it is known whether it is accepted. (Kernel: "Atomic Mode Setting", where objects are
//! locked as their states are duplicated, while the assignments are applied one by one; `drm_mode_atomic_ioctl`,
//! `drm_atomic_set_property`.)
ghost use Rattle.std.specs.Prelude.{◌≡◌, ℕ, IsTrue, List, None};
ghost use Rattle.kms_model.specs.declared.objects.Kind.{Kind};
ghost use Rattle.kms_model.specs.declared.worlds.Setting.{Setting};
ghost use Rattle.kms_model.specs.declared.worlds.Thing.{Thing};
ghost use Rattle.kms_model.specs.declared.worlds.World.{World};
ghost use Rattle.kms_model.specs.Device.Objects.{exists, object_id};
ghost use Rattle.kms_model.specs.Request.Agreement.{AgreesNew, AgreesOld};
ghost use Rattle.kms_model.specs.Request.Apply.{after};
ghost use Rattle.kms_model.specs.Request.Lookups.{look_up, look_up_any};
ghost use Rattle.kms_model.specs.Request.Reach.{reaches};
ghost use Rattle.kms_model.specs.Request.Verdict.{early_in};
ghost use Rattle.kms_props.specs.Setting.{AreSameDuplicated};
ghost use Rattle.kms_request.specs.Whole.{ArePresent, ArePresentSomewhere, StandBetween, TellSame, allowed_request, is_member, reached_by};

use crate::lookups::Looker;
use crate::picking::{Allowed, Picker};
use crate::sets::set_of;
use crate::spanning::spans_of_picked;
use kms_model::{Duplicates, Mask, Request, Topology};
use kms_props::Setter;

/// The states of all objects after those assignments of a request with which nothing is wrong by themselves, so after each
/// one where no early refusal is due. `found` tells what labels name, and `setter` sets properties. Before, the states are
/// the device's present ones. It takes no memory.
pub fn changed<L: Looker, S: Setter>(
    topology: &Topology,
    request: &Request,
    found: &L,
    states: &Duplicates,
    setter: &S,
) -> Duplicates
    requires { ArePresentSomewhere look_up topology.now (L.meaning found.now) states.now }
    ensures old { (things : List Thing) (values : List Setting)
        → AgreesOld topology.now things values states.now → AgreesOld topology.now things values result }
    ensures same { AreSameDuplicated states.now result }
    ensures new { (w : World) → ArePresent topology.now w states.now
        → TellSame (L.meaning found.now) (look_up w)
        → AgreesNew topology.now w.things
        (after w (allowed_request topology.now (L.meaning found.now) request.now))
        result }
    ensures between { (w : World) → ArePresent topology.now w states.now
        → TellSame (L.meaning found.now) (look_up w)
        → early_in topology.now w request.now ≡ None
        → StandBetween topology.now w request.now result }
{
    let counted = Allowed { topology, found };
    let mut after = *states;
    for a in request.assigns.as_slice() {
        if !counted.picks(a) {
            continue;
        }
        setter.set(topology, &mut after, &set_of(found, a));
    }
    after
}

/// The objects that a context may lock for a request before it is known whether the request is accepted: those that it
/// would touch if it had those assignments alone with which nothing is wrong by themselves. `found` tells what labels
/// name, where a closed thing counts as it was while it was open, and `setter` sets properties. Every object of the device is
/// duplicated in its present state. It takes no memory. (Kernel: "Atomic Mode Setting", where objects are locked as their states are duplicated,
/// while the assignments are applied one by one.)
pub fn reach<L: Looker, S: Setter>(
    topology: &Topology,
    request: &Request,
    found: &L,
    states: &Duplicates,
    setter: &S,
) -> Mask
    requires { ArePresentSomewhere look_up_any topology.now (L.meaning found.now) states.now }
    ensures reached { (w : World) → ArePresent topology.now w states.now
        → TellSame (L.meaning found.now) (look_up_any w)
        → result ≡ reached_by topology.now w request.now }

    // Each object of the device is in it where the request reaches it.
    ensures each { (w : World) (kind : Kind) (index : ℕ) → ArePresent topology.now w states.now
        → TellSame (L.meaning found.now) (look_up_any w)
        → IsTrue (exists topology.now kind index)
        → is_member result kind index ≡ reaches topology.now w request.now (object_id kind index) }
{
    let after = changed(topology, request, found, states, setter);
    let counted = Allowed { topology, found };
    let (_, reached) = spans_of_picked(&after, &counted, request.assigns.as_slice());
    reached
}

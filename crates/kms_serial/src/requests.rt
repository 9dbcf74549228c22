//! Whether a request is accepted, and what it leaves.
ghost use Rattle.std.specs.Prelude.{◌≡◌, All, IfErr, IfOk, OnOk, None, Some};
ghost use Rattle.kms_model.specs.Request.Verdict.{verdict};
ghost use Rattle.kms_model.specs.Request.Resolves.{IsSettable};
ghost use Rattle.kms_request.specs.Whole.{StandBetween};
ghost use Rattle.kms_serial.specs.Device.{StandsInWorld};
ghost use Rattle.kms_things.specs.Present.{IsAfter};

use crate::store::WorldStore;
use kms_model::{Duplicates, Refusal, Request, Topology};
use kms_request::{changed, early, full_check};
use kms_state::InPlace;

/// The states of all objects after a request, or its first refusal. They are the device's present states before.
#[tactic(auto, unfolding(kms_model::specs::Request::Verdict::verdict))]
pub fn check(
    topology: &Topology,
    store: &WorldStore,
    states: &Duplicates,
    request: &Request,
) -> Result<Duplicates, Refusal>
    requires { StandsInWorld topology.now store.now states.now }
    ensures refused { IfErr result (λ refusal. verdict topology.now store.now request.now
        ≡ Some refusal.0) }
    ensures accepted { OnOk result (verdict topology.now store.now request.now ≡ None) }
    ensures between { IfOk result (StandBetween topology.now store.now request.now) }
    ensures settable { OnOk result (All IsSettable request.now.assigns) }
    ensures after { IfOk result (IsAfter topology.now store.now request.now) }
{
    if let Some(refusal) = early(topology, request, store) {
        return Err(refusal);
    }
    let after = changed(topology, request, store, states, &InPlace);
    match full_check(topology, &after, request) {
        Some(refusal) => Err(refusal),
        None => Ok(after),
    }
}

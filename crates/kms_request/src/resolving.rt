//! What an accepted request asks for.
ghost use Rattle.std.specs.Prelude.{◌≡◌, ℕ, IfErr, IfOk, IsTrue};
ghost use Rattle.kms_model.specs.declared.worlds.Look.{Look};
ghost use Rattle.kms_model.specs.Device.Properties.{keeps_limits};
ghost use Rattle.kms_model.specs.Request.Refusals.{early_refusal};
ghost use Rattle.kms_model.specs.Request.Resolves.{IsResolved};
ghost use Rattle.kms_model.specs.Request.Sets.{look_in};
ghost use Rattle.kms_request.specs.Answers.{ComesFrom};
ghost use Rattle.kms_model.specs.Request.SameLooks.{TellsLabels};

use crate::errors::RequestError;
use crate::fences::{in_fences, out_fences};
use crate::refusals::early;
use crate::sets::last_sets;
use kms_model::{Lookups, Request, Resolved, Topology};
use std::alloc::Global;

/// What a request asks for, with its labels looked up. It is refused exactly where an early refusal is due, with
/// the first of them; want of memory comes only where none is. `found` tells what the request's labels name.
pub fn resolve(
    alloc: Global,
    topology: &Topology,
    request: &Request,
    found: &Lookups,
) -> Result<Resolved, RequestError>
    requires { IsTrue (keeps_limits topology.now) }
    ensures resolved { IfOk result (IsResolved topology.now (look_in found.now) request.now) }
    ensures refused { IfErr result
        (ComesFrom (early_refusal topology.now (look_in found.now) request.now)) }

    // The same of every other way to look labels up, as in a world, that tells of the labels of the request what `found`
    // tells.
    ensures resolved_by { (f : ℕ → Look) → TellsLabels (look_in found.now) f request.now.assigns
        → IfOk result (IsResolved topology.now f request.now) }
    ensures refused_by { (f : ℕ → Look) → TellsLabels (look_in found.now) f request.now.assigns
        → IfErr result (ComesFrom (early_refusal topology.now f request.now)) }
{
    if let Some(refusal) = early(topology, request, found) {
        return Err(RequestError::Of(refusal));
    }
    let assigns = request.assigns.as_slice();
    Ok(Resolved {
        flags: request.flags,
        user_data: request.user_data,
        sets: last_sets(alloc, found, assigns)?,
        in_fences: in_fences(alloc, topology, found, assigns)?,
        out_fences: out_fences(alloc, topology, assigns)?,
    })
}

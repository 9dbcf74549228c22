//! Whether a command is answered as a line says, and whether the calls that tell so before agree.
ghost use Rattle.kms_model.specs.Device.Sound.{IsDevice};
ghost use Rattle.kms_model.specs.Request.Deciding.{AreFresh, AreOfSoundWorld};
ghost use Rattle.kms_request_tests.specs.Standing.{Stands};

use kms_check::{Move, next_move};
use kms_model::{
    Command, Duplicates, Lookups, NoMemory, Refusal, Reply, Request, Seq, Topology, Value, rule_of,
};
use kms_request::{RequestError, early, resolve};
use kms_serial::Serial;
use std::alloc::Global;
use std::test::Fail;

/// Whether a rule has this name.
pub(crate) fn is_named(number: u32, name: &str) -> bool {
    match rule_of(number) {
        Some(rule) => rule.name == name,
        None => false,
    }
}

/// Whether a reply is what a line says: the name of the rule that refuses, or the reply as it is printed.
pub(crate) fn is_told(alloc: Global, reply: &Reply, want: &str) -> Result<bool, Fail> {
    match *reply {
        Reply::Refused(Refusal(number)) | Reply::Denied(number) => Ok(is_named(number, want)),
        _ => {
            let text = format!(in alloc; "{reply}")?;
            Ok(text.as_str() == want)
        }
    }
}

/// What the labels of a request name on a device.
pub(crate) fn looks_of(
    alloc: Global,
    device: &Serial,
    request: &Request,
) -> Result<Lookups, NoMemory> {
    let mut looks = Seq::new(alloc);
    for assign in request.assigns.as_slice() {
        if let Value::Named(label) = assign.value {
            looks.push((label, device.look(label)))?;
        }
    }
    Ok(looks)
}

/// The refusal of a reply.
fn refusal_in(reply: &Reply) -> Option<Refusal> {
    match *reply {
        Reply::Refused(refusal) => Some(refusal),
        _ => None,
    }
}

/// A refusal, if it is an early one.
fn if_early(refusal: Option<Refusal>) -> Option<Refusal> {
    match refusal {
        Some(Refusal(number)) if number <= Refusal::SECOND_IN_FENCE.0 => refusal,
        _ => None,
    }
}

/// The refusal that a request meets where it is resolved.
#[tactic(auto, using(crate::proofs::Standing::stands_limits))]
fn resolving_refusal(
    alloc: Global,
    topology: &Topology,
    request: &Request,
    looks: &Lookups,
) -> Result<Option<Refusal>, NoMemory>
    requires { IsDevice topology.now }
{
    match resolve(alloc, topology, request, looks) {
        Ok(_resolved) => Ok(None),
        Err(RequestError::Of(refusal)) => Ok(Some(refusal)),
        Err(RequestError::NoMemory) => Err(NoMemory),
    }
}

/// Whether a request meets this refusal early, where it is due early.
#[tactic(auto, using(crate::proofs::Standing::stands_limits))]
fn meets_early(
    alloc: Global,
    topology: &Topology,
    request: &Request,
    looks: &Lookups,
    refusal: Option<Refusal>,
) -> Result<bool, NoMemory>
    requires { IsDevice topology.now }
{
    let want = if_early(refusal);
    let told = early(topology, request, looks) == want;
    Ok(told && resolving_refusal(alloc, topology, request, looks)? == want)
}

/// Whether a client that holds all objects meets this refusal, or its request is accepted.
fn meets_in_time(
    alloc: Global,
    topology: &Topology,
    states: &Duplicates,
    request: &Request,
    looks: &Lookups,
    refusal: Option<Refusal>,
) -> Result<bool, NoMemory>
    requires device { IsDevice topology.now }
    requires held { AreOfSoundWorld topology.now states.now }
    requires fresh { AreFresh states.now }
{
    Ok(match next_move(alloc, topology, request, looks, states)? {
        Move::Lock(_) => false,
        Move::Refuse(why) => Some(why) == refusal,
        Move::Accept(_checked, _resolved) => refusal.is_none(),
    })
}

/// The present states of a device.
#[tactic(auto, using(crate::proofs::Standing::present_held, crate::proofs::Standing::present_fresh))]
pub(crate) fn states_of(topology: &Topology, device: &Serial) -> Duplicates
    requires { Stands topology.now device.now }
    ensures held { AreOfSoundWorld topology.now result }
    ensures fresh { AreFresh result }
{
    device.states()
}

/// Whether each call says of a request that it is refused as in this reply, or accepted.
#[tactic(auto, using(crate::proofs::Standing::stands_device))]
fn agree_on(
    alloc: Global,
    topology: &Topology,
    device: &Serial,
    request: &Request,
    reply: &Reply,
) -> Result<bool, NoMemory>
    requires { Stands topology.now device.now }
{
    let refusal = refusal_in(reply);
    let looks = looks_of(alloc, device, request)?;
    let states = states_of(topology, device);
    Ok(
        device.accepts(request) == refusal.is_none()
            && meets_early(alloc, topology, request, &looks, refusal)?
            && meets_in_time(alloc, topology, &states, request, &looks, refusal)?,
    )
}

/// Whether each call agrees with this reply to a command.
pub(crate) fn all_agree(
    alloc: Global,
    topology: &Topology,
    device: &Serial,
    command: &Command,
    reply: &Reply,
) -> Result<bool, NoMemory>
    requires { Stands topology.now device.now }
{
    match command {
        Command::Atomic(request) => agree_on(alloc, topology, device, request, reply),
        _ => Ok(true),
    }
}

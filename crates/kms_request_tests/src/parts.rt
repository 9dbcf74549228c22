//! Lines of a course on what a request names and touches, and on what it needs while states are missing.
ghost use Rattle.std.specs.Prelude.{◌≡◌, cond, replicate, IfOk, None};
ghost use Rattle.kms_model.specs.declared.objects.Topology.{Topology};
ghost use Rattle.kms_model.specs.Request.Deciding.{AreFresh, AreOfSoundWorld, IsAskedFor};
ghost use Rattle.kms_request_tests.specs.Standing.{Stands};

use crate::answers::{is_named, looks_of, states_of};
use kms_check::{Move, Refused, check, next_move};
use kms_model::{
    Both, Checked, Command, ConnState, CrtcState, Duplicates, Mask, ObjId, PlaneState, Request,
    Resolved, SetValue, Topology,
};
use kms_request::{named, resolve};
use kms_serial::Serial;
use std::alloc::Global;
use std::test::Fail;

/// States of CRTCs, or none of them.
fn crtcs_if(is: bool, states: &Duplicates) -> [Option<Both<CrtcState>>; 4]
    ensures { result ≡ cond is states.now.crtcs (replicate 4 None) }
{
    if is { states.crtcs } else { [None; 4] }
}

/// States of planes, or none of them.
fn planes_if(is: bool, states: &Duplicates) -> [Option<Both<PlaneState>>; 16]
    ensures { result ≡ cond is states.now.planes (replicate 16 None) }
{
    if is { states.planes } else { [None; 16] }
}

/// States of connectors, or none of them.
fn conns_if(is: bool, states: &Duplicates) -> [Option<Both<ConnState>>; 8]
    ensures { result ≡ cond is states.now.conns (replicate 8 None) }
{
    if is { states.conns } else { [None; 8] }
}

/// The states of some kinds of objects, which are named with commas between them.
#[tactic(auto, using(crate::proofs::Standing::held_of_kinds, crate::proofs::Standing::fresh_of_kinds))]
fn states_of_kinds(states: &Duplicates, kinds: &str) -> Duplicates
    ensures held { (t : Topology) → AreOfSoundWorld t states.now → AreOfSoundWorld t result }
    ensures fresh { AreFresh states.now → AreFresh result }
{
    let has_all = kinds == "all";
    Duplicates {
        crtcs: crtcs_if(has_all || kinds.contains("crtcs"), states),
        planes: planes_if(has_all || kinds.contains("planes"), states),
        conns: conns_if(has_all || kinds.contains("conns"), states),
    }
}

/// What a request asks for on a device.
#[tactic(auto, using(crate::proofs::Standing::stands_device, crate::proofs::Standing::stands_limits, crate::proofs::Standing::asked_for))]
fn resolve_request(
    alloc: Global,
    topology: &Topology,
    device: &Serial,
    request: &Request,
) -> Result<Resolved, Fail>
    requires { Stands topology.now device.now }
    ensures { IfOk result (IsAskedFor topology.now) }
{
    let looks = looks_of(alloc, device, request)?;
    match resolve(alloc, topology, request, &looks) {
        Ok(resolved) => Ok(resolved),
        Err(_) => Err(Fail::new("the request is resolved")),
    }
}

/// What a check of a request answers over the states of some kinds of objects.
#[tactic(auto, using(crate::proofs::Standing::stands_device))]
fn check_request(
    alloc: Global,
    topology: &Topology,
    device: &Serial,
    request: &Request,
    kinds: &str,
) -> Result<Result<Checked, Refused>, Fail>
    requires { Stands topology.now device.now }
{
    let states = states_of(topology, device);
    let resolved = resolve_request(alloc, topology, device, request)?;
    let held = states_of_kinds(&states, kinds);
    Ok(check(topology, &held, &resolved))
}

/// A set of objects as a line has it.
fn is_mask(alloc: Global, mask: &Mask, want: &str) -> Result<bool, Fail> {
    let text = format!(in alloc; "{}/{}/{}", mask.crtcs, mask.planes, mask.conns)?;
    Ok(text.as_str() == want)
}

/// Whether named CRTCs and touched objects are those that a line has.
fn is_span(alloc: Global, named: u32, touched: &Mask, want: &str) -> Result<bool, Fail> {
    let (crtcs, objects) = want.split_once(' ').ok_or("CRTCs and objects")?;
    let crtcs: u32 = crtcs.parse()?;
    Ok(named == crtcs && is_mask(alloc, touched, objects)?)
}

/// Whether a request names and touches what a line says: by the device, and by a check over all states.
fn spans(
    alloc: Global,
    topology: &Topology,
    device: &Serial,
    request: &Request,
    want: &str,
) -> Result<bool, Fail>
    requires { Stands topology.now device.now }
{
    if !device.accepts(request) {
        return Ok(false);
    }
    let (named, touched) = device.spans(request);
    let is_checked = match check_request(alloc, topology, device, request, "all")? {
        Ok(checked) => is_span(alloc, checked.named, &checked.touched, want)?,
        Err(_) => false,
    };
    Ok(is_checked && is_span(alloc, named, &touched, want)?)
}

/// Whether what a request asks for names these CRTCs.
fn names(
    alloc: Global,
    topology: &Topology,
    device: &Serial,
    request: &Request,
    want: &str,
) -> Result<bool, Fail>
    requires { Stands topology.now device.now }
{
    let resolved = resolve_request(alloc, topology, device, request)?;
    let want: u32 = want.parse()?;
    Ok(named(&resolved, &device.states()) == want)
}

/// The number that stands for what a property is set to: a framebuffer's id, the rate of a mode and the first value of a
/// table; -1 for none.
fn number_of(value: &SetValue) -> i64 {
    match value {
        SetValue::Num(number) => *number,
        SetValue::Fb(Some(fb)) => i64::from(fb.id),
        SetValue::Crtc(id) => i64::from(*id),
        SetValue::Mode(Some(mode)) => i64::from(mode.vrefresh),
        SetValue::Gamma(Some(gamma)) => i64::from(gamma.red[0]),
        _ => -1,
    }
}

/// The user data of a request, and what it sets.
fn sets_text(alloc: Global, resolved: &Resolved) -> Result<String, Fail> {
    let mut text = format!(in alloc; "{}", resolved.user_data)?;
    for set in resolved.sets.as_slice() {
        let (object, prop, number) = (set.object.0, set.prop, number_of(&set.value));
        text.push_str(format!(in alloc; " {object}.{prop}={number}")?.as_str())?;
    }
    Ok(text)
}

/// Objects with a number each.
fn numbered_text(alloc: Global, all: &[(ObjId, u32)]) -> Result<String, Fail> {
    let mut text = String::new(alloc);
    for (object, number) in all {
        text.push_str(format!(in alloc; " {}={number}", object.0)?.as_str())?;
    }
    Ok(text)
}

/// Whether a request is resolved to these sets.
fn sets(
    alloc: Global,
    topology: &Topology,
    device: &Serial,
    request: &Request,
    want: &str,
) -> Result<bool, Fail>
    requires { Stands topology.now device.now }
{
    let resolved = resolve_request(alloc, topology, device, request)?;
    let text = sets_text(alloc, &resolved)?;
    Ok(text.as_str() == want)
}

/// Whether a request is resolved to these fences to wait for, and to these labels of fences to be made, behind a comma.
fn fences(
    alloc: Global,
    topology: &Topology,
    device: &Serial,
    request: &Request,
    want: &str,
) -> Result<bool, Fail>
    requires { Stands topology.now device.now }
{
    let (waits, makes) = want.split_once(',').ok_or("two lists")?;
    let resolved = resolve_request(alloc, topology, device, request)?;
    let ins = numbered_text(alloc, resolved.in_fences.as_slice())?;
    let outs = numbered_text(alloc, resolved.out_fences.as_slice())?;
    Ok(ins.as_str() == waits && outs.as_str() == makes)
}

/// Whether a check over the states of some kinds asks for these objects.
fn needs(
    alloc: Global,
    topology: &Topology,
    device: &Serial,
    request: &Request,
    want: &str,
) -> Result<bool, Fail>
    requires { Stands topology.now device.now }
{
    let (kinds, objects) = want.split_once(' ').ok_or("kinds and objects")?;
    match check_request(alloc, topology, device, request, kinds)? {
        Err(Refused::MoreLocks { locks }) => is_mask(alloc, &locks, objects),
        _ => Ok(objects == "nothing"),
    }
}

/// Whether a next move is the one that a line has.
fn is_move(alloc: Global, next: &Move, want: &str) -> Result<bool, Fail> {
    match next {
        Move::Lock(id) => {
            let text = format!(in alloc; "lock {}", id.0)?;
            Ok(text.as_str() == want)
        }
        Move::Refuse(why) => Ok(is_named(why.0, want)),
        Move::Accept(_checked, _resolved) => Ok(want == "accepted"),
    }
}

/// Whether the next move over the states of some kinds is this one.
#[tactic(auto, using(crate::proofs::Standing::stands_device))]
fn goes_on(
    alloc: Global,
    topology: &Topology,
    device: &Serial,
    request: &Request,
    want: &str,
) -> Result<bool, Fail>
    requires { Stands topology.now device.now }
{
    let (kinds, what) = want.split_once(' ').ok_or("kinds and a move")?;
    let looks = looks_of(alloc, device, request)?;
    let states = states_of(topology, device);
    let held = states_of_kinds(&states, kinds);
    let next = next_move(alloc, topology, request, &looks, &held)?;
    is_move(alloc, &next, what)
}

/// Whether what a line says of a request is so; none where it only says how the request is answered.
fn observe_request(
    alloc: Global,
    topology: &Topology,
    device: &Serial,
    request: &Request,
    want: &str,
) -> Result<Option<bool>, Fail>
    requires { Stands topology.now device.now }
{
    let Some((word, rest)) = want.split_once(' ') else {
        return Ok(None);
    };
    if word == "spans" {
        return Ok(Some(spans(alloc, topology, device, request, rest)?));
    }
    if word == "names" {
        return Ok(Some(names(alloc, topology, device, request, rest)?));
    }
    if word == "sets" {
        return Ok(Some(sets(alloc, topology, device, request, rest)?));
    }
    if word == "fences" {
        return Ok(Some(fences(alloc, topology, device, request, rest)?));
    }
    if word == "needs" {
        return Ok(Some(needs(alloc, topology, device, request, rest)?));
    }
    if word == "next" {
        return Ok(Some(goes_on(alloc, topology, device, request, rest)?));
    }
    Ok(None)
}

/// The same of every command.
pub(crate) fn observe(
    alloc: Global,
    topology: &Topology,
    device: &Serial,
    command: &Command,
    want: &str,
) -> Result<Option<bool>, Fail>
    requires { Stands topology.now device.now }
{
    match command {
        Command::Atomic(request) => observe_request(alloc, topology, device, request, want),
        _ => Ok(None),
    }
}

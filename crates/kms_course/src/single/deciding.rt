//! A request is decided by the single calls: it is resolved with look-ups, checked over duplicated states, and handed to the
//! call that decides it.
ghost use Rattle.std.specs.Prelude.{ℕ, ◌≡◌, ◌↔◌, ◌<◌, ◌≤◌, IfOk, IsTrue, OnErr, false, is_some, length, map, true};
ghost use Rattle.kms_model.specs.Device.Masks.{has_bit};
ghost use Rattle.kms_model.specs.Device.Places.{state_at};
ghost use Rattle.kms_model.specs.Request.Lookups.{look_up};
ghost use Rattle.kms_check.specs.Moves.{AcceptedAs};
ghost use Rattle.kms_core.specs.Decisions.{IsDecided, steps_of, world};
ghost use Rattle.kms_core.specs.Run.{gains, if_ok, machine};
ghost use Rattle.kms_track.specs.InStep.{HasStates};
ghost use Rattle.kms_course.specs.Deciding.{AreOfLabels, ComesTo, accepting_answer, accepting_step};
ghost use Rattle.kms_course.specs.Taking.{HasTaken};

use crate::single::contexts::RequestContext;
use kms_check::{Move, next_move};
use kms_core::{Core, Decided};
use kms_model::{Both, Checked, Look, Lookups, NoMemory, Resolved, has_bit};
use kms_props::is_test;
use std::alloc::Global;

/// Decides the request of a context, with what its labels named when they were looked up. None, which does not tell the cause,
/// exactly where more objects have to be taken, where the look-ups are not of the request's labels, and after the end of the
/// history; and it may be none where no lawful world has both the look-ups and the context's states, as it can be with look-ups
/// that grew old. Then, and after want of memory, all is as it was.
pub fn decide(
    core: &mut Core,
    alloc: Global,
    context: &RequestContext,
    used: &Lookups,
) -> Result<Option<Decided>, NoMemory>
    requires { HasTaken core.old context.now }
    ensures answer { IfOk result (ComesTo core.old context.now used.now core.new) }
    ensures unchanged { OnErr result (core.new ≡ core.old) }
{
    if core.is_stalled() {
        return Ok(None);
    }
    let now = core.lookups(alloc, &context.request)?;
    if !are_of_same(used.as_slice(), now.as_slice()) {
        return Ok(None);
    }
    decide_with(core, alloc, context, used)
}

/// Decides the request of a context with look-ups of its labels.
fn decide_with(
    core: &mut Core,
    alloc: Global,
    context: &RequestContext,
    used: &Lookups,
) -> Result<Option<Decided>, NoMemory>
    requires taken { HasTaken core.old context.now }
    requires going { (machine core.old).stalled ≡ false }
    requires labels { AreOfLabels context.now used.now }
    ensures answer { IfOk result (ComesTo core.old context.now used.now core.new) }
    ensures unchanged { OnErr result (core.new ≡ core.old) }
{
    core.is_a_history();
    core.is_serial();
    core.has_sound_contexts();
    let topology = &core.script().topology;
    match next_move(alloc, topology, &context.request, used, &context.states)? {
        Move::Refuse(why) => Ok(Some(core.refuse(context.ticket, used, why)?)),
        Move::Lock(_id) => Ok(None),
        Move::Accept(boxed, resolved) => {
            let checked = &*boxed;
            if !has_states(checked) {
                return Ok(None);
            }
            let decided = accept(core, alloc, context, used, checked, &resolved)?;
            Ok(Some(decided))
        }
    }
}

/// Tests or commits a request that was accepted, with the states of all that it touches.
fn accept(
    core: &mut Core,
    alloc: Global,
    context: &RequestContext,
    used: &Lookups,
    checked: &Checked,
    resolved: &Resolved,
) -> Result<Decided, NoMemory>
    requires taken { HasTaken core.old context.now }
    requires going { (machine core.old).stalled ≡ false }
    requires labels { AreOfLabels context.now used.now }
    requires accepted { AcceptedAs core.old.script.topology context.now.request used.now
        context.now.states checked.now resolved.now }
    requires states { HasStates checked.now }
    ensures answer { IfOk result (IsDecided (look_up (world core.old)) used.now
        (accepting_answer core.old context.now)) }
    ensures history { core.new ≡ gains core.old
        (if_ok result (steps_of context.now.client (accepting_step context.now))) }
{
    core.is_a_history();
    core.has_sound_contexts();
    if is_test(context.request.flags) {
        core.test(context.ticket, used, checked)
    } else {
        core.swap(alloc, context.ticket, used, checked, resolved)
    }
}

/// Whether look-ups are of the same labels.
fn are_of_same(used: &[(u32, Look)], other: &[(u32, Look)]) -> bool
    ensures { IsTrue result ↔ (map (λ l. l.0) used.now ≡ map (λ l. l.0) other.now) }
{
    if used.len() != other.len() {
        return false;
    }
    for index in 0..used.len() {
        if used[index].0 != other[index].0 {
            return false;
        }
    }
    true
}

/// Whether each object that a request touches is duplicated.
fn has_states(checked: &Checked) -> bool
    ensures { IsTrue result ↔ HasStates checked.now }
{
    are_there(&checked.states.crtcs, checked.touched.crtcs)
        && are_there(&checked.states.planes, checked.touched.planes)
        && are_there(&checked.states.conns, checked.touched.conns)
}

/// Whether each object of a kind is there that is in a set.
fn are_there<S: Copy>(states: &[Option<Both<S>>], set: u32) -> bool
    requires { length states.now ≤ 32 }
    ensures { IsTrue result ↔ ((i : ℕ) → i < length states.now → has_bit set i ≡ true
        → is_some (state_at states.now i) ≡ true) }
{
    for index in 0..states.len() {
        if has_bit(set, index as u32) && !is_there(states, index) {
            return false;
        }
    }
    true
}

/// Whether the object with an index is there.
fn is_there<S: Copy>(states: &[Option<Both<S>>], index: usize) -> bool
    ensures { result ≡ is_some (state_at states.now index) }
{
    matches!(states.get(index), Some(Some(_)))
}

//! Histories that are made again, each step by its single call, as clients and workers make them.
use crate::comparing::{looks_same, tells_same};
use crate::single::{call_lock, call_relock, call_step, context_with, decide};
use kms_core::{Core, Decided, Locked};
use kms_model::{Kind, NoMemory, ObjId, Step};
use std::alloc::Global;

/// The object with an index that is no index of another kind's object.
fn object(kind: Kind, index: u32) -> ObjId {
    ObjId(kind.first_id().saturating_add(index))
}

/// What a client's context holds.
#[derive(Drop)]
struct Holding {
    client: u32,
    objects: Vec<ObjId>,
    // The object that it asked for last, in this context.
    last: Option<ObjId>,
}

impl Holding {
    /// Tells that a step was done.
    fn note_step(&mut self, step: &Step) -> Result<(), NoMemory> {
        match *step {
            Step::Lock {
                client,
                kind,
                index,
            } if client == self.client => self.take(object(kind, index)),
            Step::Begin { client } | Step::BackOff { client } if client == self.client => {
                self.objects.clear();
                Ok(())
            }
            Step::Relock { client } if client == self.client => self.take_again(),
            _ => Ok(()),
        }
    }

    /// It takes an object; one that an older context holds is dropped with the others when it backs off.
    fn take(&mut self, id: ObjId) -> Result<(), NoMemory> {
        self.last = Some(id);
        Ok(self.objects.push(id)?)
    }

    /// It takes the object that it backed off for.
    fn take_again(&mut self) -> Result<(), NoMemory> {
        match self.last {
            Some(id) => self.take(id),
            None => Ok(()),
        }
    }
}

/// The objects that a client's context holds after some steps.
fn objects_held(alloc: Global, steps: &[Step], client: u32) -> Result<Vec<ObjId>, NoMemory> {
    let mut holding = Holding {
        client,
        objects: Vec::new(alloc),
        last: None,
    };
    for step in steps {
        holding.note_step(step)?;
    }
    Ok(holding.objects)
}

/// Decides the request of a client, by its number from 1, in the context that it has, with what its labels name now.
/// None where it has no context, and where more objects are needed.
pub fn call_decision(
    core: &mut Core,
    alloc: Global,
    client: u32,
) -> Result<Option<Decided>, NoMemory> {
    let objects = objects_held(alloc, core.history(), client)?;
    let Some(context) = context_with(core, alloc, client, objects.as_slice())? else {
        return Ok(None);
    };
    let used = core.lookups(alloc, &context.request)?;
    decide(core, alloc, &context, &used)
}

/// Whether a decision is a step.
fn is_made(decided: Option<Decided>) -> bool {
    matches!(
        decided,
        Some(Decided::Done { .. } | Decided::Refused { .. })
    )
}

/// Does a step by its single call, and tells whether that did one.
fn do_by_call(core: &mut Core, alloc: Global, step: &Step) -> Result<bool, NoMemory> {
    match *step {
        Step::Lock {
            client,
            kind,
            index,
        } => Ok(call_lock(core, client, object(kind, index))?.is_some()),
        Step::Relock { client } => Ok(matches!(
            call_relock(core, client)?,
            Some(Locked::Got { .. })
        )),
        Step::Refuse { client } | Step::Test { client } | Step::Swap { client } => {
            Ok(is_made(call_decision(core, alloc, client)?))
        }
        Step::Claim { commit } => Ok(core.claim() == Some(commit)),
        _ => call_step(core, alloc, step),
    }
}

/// Does steps by single calls, up to the first whose call does none, which it gives.
fn do_by_calls(core: &mut Core, alloc: Global, steps: &[Step]) -> Result<Option<Step>, NoMemory> {
    for step in steps {
        if !do_by_call(core, alloc, step)? {
            return Ok(Some(*step));
        }
    }
    Ok(None)
}

/// Whether the history of a machine is made by single calls on another, which then tells the same.
pub(crate) fn is_called(called: &mut Core, alloc: Global, core: &Core) -> Result<bool, NoMemory> {
    if do_by_calls(called, alloc, core.history())?.is_some() {
        return Ok(false);
    }
    Ok(tells_same(core, called) && looks_same(core, called, alloc)?)
}

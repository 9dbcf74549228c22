//! Lines of a course on how a history ends.
use crate::replays::start_anew;
use kms_core::Core;
use kms_model::NoMemory;
use kms_one_thread::{End, end_of, finish};
use std::alloc::Global;

/// Whether a history waits for the fence with a name.
fn waits_for(core: &Core, name: &str) -> bool {
    let Some(label) = core.stalled_on() else {
        return false;
    };
    match core.script().names.get(label as usize) {
        Some(own) => own.as_slice() == name.as_bytes(),
        None => false,
    }
}

/// Whether a dead history ends as a line says.
fn is_dead(core: &Core, line: &str) -> bool {
    match line.split_once(' ') {
        Some(("stalled", name)) => waits_for(core, name) && !core.is_stalled(),
        Some(("ended", name)) => waits_for(core, name) && core.is_stalled(),
        _ => false,
    }
}

/// Whether a history ends as a line says.
pub(crate) fn ends(core: &Core, line: &str) -> bool {
    let goes_on = core.enabled();
    let is_drained = core.drained();
    match end_of(core) {
        End::Dead => !goes_on && !is_drained && is_dead(core, line),
        End::Open => line == "open" && goes_on && !is_drained && is_awake(core),
        End::Drained => line == "drained" && !goes_on && is_drained && is_awake(core),
    }
}

/// Whether a history neither waits for a fence nor was ended as dead.
fn is_awake(core: &Core) -> bool {
    core.stalled_on().is_none() && !core.is_stalled()
}

/// Whether a history is what one thread makes of the script, to its end.
pub(crate) fn is_of_one_thread(core: &Core, alloc: Global) -> Result<bool, NoMemory> {
    let mut one = start_anew(alloc, core)?;
    ends_alike(&mut one, core, alloc)
}

/// Whether one thread makes a history on a new machine of its script.
fn ends_alike(one: &mut Core, core: &Core, alloc: Global) -> Result<bool, NoMemory> {
    finish(alloc, one)?;
    Ok(one.history() == core.history())
}

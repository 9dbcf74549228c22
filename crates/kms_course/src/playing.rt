//! Cases: a script with its course.
use crate::calls::is_called;
use crate::comparing::tells_same;
use crate::courses::follow;
use crate::replays::{do_again, start_anew};
use crate::starting::{NotStarted, start_machine};
use kms_core::Core;
use kms_model::NoMemory;
use kms_one_thread::ReplayError;
use std::alloc::Global;

/// What became of a course.
#[derive(Clone, Copy, Drop)]
pub enum Played<'a> {
    /// Each line is met, and machines that make the history again tell the same.
    Alike,
    /// The text is no script.
    NoScript,
    /// This line is not met.
    Unmet(&'a str),
    /// A machine that makes the history again by single calls does not tell the same.
    Called,
    /// One on which it is replayed as a schedule does not.
    Replayed,
}

/// Follows a course from the start of a script. Its history is then made again by single calls, and by a schedule.
pub fn play<'a>(alloc: Global, script: &str, course: &'a str) -> Result<Played<'a>, NoMemory> {
    match start_machine(alloc, script) {
        Ok(mut core) => play_on(&mut core, alloc, course),
        Err(NotStarted::NoScript) => Ok(Played::NoScript),
        Err(NotStarted::NoMemory) => Err(NoMemory),
    }
}

/// The same on a machine that was started from the script. (A function that owns a machine drops it at each of its ends, and so
/// has few of them.)
fn play_on<'a>(core: &mut Core, alloc: Global, course: &'a str) -> Result<Played<'a>, NoMemory> {
    if let Some(line) = follow(core, alloc, course)? {
        return Ok(Played::Unmet(line));
    }
    if !call_again(core, alloc)? {
        return Ok(Played::Called);
    }
    if !replay_again(core, alloc)? {
        return Ok(Played::Replayed);
    }
    Ok(Played::Alike)
}

/// Whether single calls on a new machine make the same history, and both then tell the same.
fn call_again(core: &Core, alloc: Global) -> Result<bool, NoMemory> {
    let mut called = start_anew(alloc, core)?;
    is_called(&mut called, alloc, core)
}

/// Whether the history is replayed as a schedule on a new machine, and both then tell the same.
fn replay_again(core: &Core, alloc: Global) -> Result<bool, NoMemory> {
    match do_again(alloc, core) {
        Ok(replayed) => Ok(tells_same(core, &replayed)),
        Err(ReplayError::Illegal { .. }) => Ok(false),
        Err(ReplayError::NoMemory) => Err(NoMemory),
    }
}

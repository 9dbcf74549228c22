//! Histories that are done again.
ghost use Rattle.std.specs.Prelude.{◌≡◌, [], IfOk};

use kms_core::Core;
use kms_model::{Duplicate, NoMemory};
use kms_one_thread::{ReplayError, replay};
use std::alloc::Global;

/// A new machine of the script of a machine. The error is want of memory.
pub fn start_anew(alloc: Global, core: &Core) -> Result<Core, NoMemory>
    ensures { IfOk result (λ new. new ≡ record core.now { steps = [] }) }
{
    core.is_a_history();
    Core::new(alloc, core.script().copy(alloc)?)
}

/// A new machine of the same script, on which the steps of a machine were done again, one after the other. The error is want of
/// memory, or the place of a step that was not legal there.
pub fn do_again(alloc: Global, core: &Core) -> Result<Core, ReplayError>
    ensures { IfOk result (λ new. new ≡ core.now) }
{
    let mut new = start_anew(alloc, core)?;
    replay(alloc, &mut new, core.history())?;
    Ok(new)
}

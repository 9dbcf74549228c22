//! The core.
ghost use Rattle.std.specs.Prelude.{◌≡◌, [], IfOk};
ghost use Rattle.kms_model.specs.Script.WellFormed.{IsWellFormed};

use crate::stores::Stores;
use kms_model::{NoMemory, Script};
use std::alloc::Global;
use std::boxed::Box;
use std::marker::Model;

/// The machine. Contracts see its script and its history.
#[derive(Drop)]
pub struct Core {
    // In a box, since who owns a machine moves it, and gives it up at each end.
    pub(crate) stores: Box<Stores>,
}

impl Model for Core {
    ghost use Rattle.kms_core.specs.Run.{Run};

    ghost Value = { Run };

    ghost view = { λ c. c.stores.value };
}

impl Core {
    /// The machine of a script before the first step. The only error is want of memory.
    pub fn new(alloc: Global, script: Script) -> Result<Core, NoMemory>
        requires { IsWellFormed script }
        ensures { IfOk result (λ c. c ≡ record { script = script; steps = [] }) }
    {
        let stores = Stores::new(alloc, script)?;
        Ok(Core {
            stores: Box::new(alloc, stores)?,
        })
    }
}

//! Machines of scripts that are text.
ghost use Rattle.std.specs.Prelude.{◌≡◌, [], IfOk};

use kms_core::Core;
use kms_model::{NoMemory, Part};
use kms_script::{ParseError, parse};
use std::alloc::Global;

/// Why a script has no machine.
#[derive(Clone, Copy, Debug, PartialEq, Eq)]
pub enum NotStarted {
    /// The text is no script.
    NoScript,
    /// Memory ran out.
    NoMemory,
}

impl From<NoMemory> for NotStarted {
    fn from(_e: NoMemory) -> NotStarted {
        NotStarted::NoMemory
    }
}

impl From<ParseError> for NotStarted {
    fn from(e: ParseError) -> NotStarted {
        match e {
            ParseError::NoMemory => NotStarted::NoMemory,
            ParseError::Fault { .. } => NotStarted::NoScript,
        }
    }
}

/// The machine of the script that a text spells, before the first step.
pub fn start_machine(alloc: Global, text: &str) -> Result<Core, NotStarted>
    ensures { IfOk result (λ core. core.steps ≡ []) }
{
    let parsed = parse(alloc, text.as_bytes(), Part::Script)?;
    Ok(Core::new(alloc, parsed.script)?)
}

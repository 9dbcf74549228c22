//! Why reading stops at a line.
ghost use Rattle.std.specs.Prelude.{◌≡◌};
ghost use Rattle.kms_script.specs.Drafted.{error_at};

use crate::faults::ParseError;
use kms_model::{NoMemory, Why};
use std::alloc::AllocFailed;

/// Why reading stops at a line.
#[derive(Clone, Copy, PartialEq, Eq)]
pub enum Stop {
    /// The line may not stand there.
    Fault(Why),
    /// Memory ran out.
    NoMemory,
}

impl From<NoMemory> for Stop {
    ghost use Rattle.std.specs.Prelude.{◌≡◌};
    ghost use Rattle.kms_script.specs.declared.stop.Stop.TheVariants as stops;

    ghost from_gives = { λ _ e. e ≡ stops.NoMemory };

    fn from(_e: NoMemory) -> Stop {
        Stop::NoMemory
    }
}

impl<T: Drop> From<AllocFailed<T>> for Stop {
    ghost use Rattle.std.specs.Prelude.{◌≡◌};
    ghost use Rattle.kms_script.specs.declared.stop.Stop.TheVariants as stops;

    ghost from_gives = { λ _ e. e ≡ stops.NoMemory };

    fn from(_e: AllocFailed<T>) -> Stop {
        Stop::NoMemory
    }
}

impl Stop {
    /// The error of reading that stops at a line.
    pub fn at(self, line: u32) -> ParseError
        ensures { result ≡ error_at line self }
    {
        match self {
            Stop::Fault(why) => ParseError::Fault { line, why },
            Stop::NoMemory => ParseError::NoMemory,
        }
    }
}

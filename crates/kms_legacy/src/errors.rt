//! Why a call leaves no request.
ghost use Rattle.std.specs.Prelude.{◌≡◌};
ghost use Rattle.kms_legacy.specs.declared.errors.LegacyError.TheVariants.{Refused};

use kms_model::{LegacyRefusal, NoMemory};

/// Why a call leaves no request.
#[derive(Clone, Copy, Debug, PartialEq, Eq)]
pub enum LegacyError {
    /// It is refused before it is translated, by the rule with this number (see `kms_model::legacy_rule_of`).
    Refused { number: u32 },
    /// Memory ran out. It comes only where no refusal is due.
    NoMemory,
}

impl From<NoMemory> for LegacyError {
    ghost use Rattle.std.specs.Prelude.{◌≡◌};
    ghost use Rattle.kms_legacy.specs.declared.errors.LegacyError.TheVariants as errors;

    ghost from_gives = { λ _ e. e ≡ errors.NoMemory };

    fn from(_e: NoMemory) -> LegacyError {
        LegacyError::NoMemory
    }
}

/// The error of a call that a rule refuses.
pub fn refuse(refusal: LegacyRefusal) -> LegacyError
    ensures { result ≡ Refused refusal.0 }
{
    LegacyError::Refused { number: refusal.0 }
}

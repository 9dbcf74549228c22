//! Why a request is not resolved.
use kms_model::Refusal;

/// Why a request is not resolved.
#[derive(Clone, Copy, PartialEq, Eq)]
pub enum RequestError {
    /// It is refused, with an early refusal.
    Of(Refusal),
    /// Memory ran out. It comes only where no refusal is due.
    NoMemory,
}

impl From<kms_model::NoMemory> for RequestError {
    ghost use Rattle.std.specs.Prelude.{◌≡◌};
    ghost use Rattle.kms_request.specs.declared.errors.RequestError.TheVariants.{NoMemory};

    ghost from_gives = { λ _ e. e ≡ NoMemory };

    fn from(_e: kms_model::NoMemory) -> RequestError {
        RequestError::NoMemory
    }
}

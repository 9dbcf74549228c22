//! Why a text is no script.
use kms_model::{NoMemory, Why};

/// Why a script could not be read.
#[derive(Clone, Copy, Debug, PartialEq, Eq)]
pub enum ParseError {
    /// The first line that may not stand where it stands, counted from 1, and why it may not. Line 0 is the
    /// input as a whole. Where the input ends and a line is still demanded, it is the number after the last line.
    Fault { line: u32, why: Why },
    /// Memory ran out. This says nothing of the input.
    NoMemory,
}

impl From<NoMemory> for ParseError {
    ghost use Rattle.std.specs.Prelude.{◌≡◌};
    ghost use Rattle.kms_script.specs.declared.faults.ParseError.TheVariants as errors;

    ghost from_gives = { λ _ e. e ≡ errors.NoMemory };

    fn from(_e: NoMemory) -> ParseError {
        ParseError::NoMemory
    }
}

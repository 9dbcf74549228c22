//! Why a line of a file of cases may not stand.

use crate::casebook::spelling::Unspelled;
use std::alloc::{AllocError, AllocFailed};
use std::fmt;

/// Why a line may not stand.
#[derive(Clone, Copy, Drop)]
pub enum Why {
    /// It is no text in UTF-8.
    Text,
    /// Its mark is none.
    Mark,
    /// Its text spells no bytes.
    Spelling,
    /// It stands before the first case.
    Case,
    /// The head of a case has no name and colon.
    Head,
    /// A case of this name stands before it.
    Twice,
    /// It names a case that does not stand before it.
    Other,
    /// It says a status, which has no number or is said before.
    Status,
    /// The case has lines of all that is written and of parts of it.
    Both,
}

impl fmt::Display for Why {
    fn fmt<W: fmt::Write>(&self, f: &mut fmt::Formatter<W>) -> fmt::Result {
        f.write_str(match self {
            Why::Text => "no text",
            Why::Mark => "no such mark",
            Why::Spelling => "the text spells no bytes",
            Why::Case => "no case stands before it",
            Why::Head => "a case has a name, a colon and words",
            Why::Twice => "a case of this name stands before it",
            Why::Other => "no case of this name stands before it",
            Why::Status => "a case has one status, a number and a text",
            Why::Both => "a case has lines of all that is written, or of parts of it",
        })
    }
}

/// Why a file is not read.
#[derive(Clone, Copy, Drop)]
pub enum FileError {
    /// The first line that may not stand, counted from 1.
    Fault { line: usize, why: Why },
    NoMemory,
}

/// Why a line is not read.
#[derive(Clone, Copy, Drop)]
pub(crate) enum LineError {
    Fault(Why),
    NoMemory,
}

impl From<AllocError> for LineError {
    fn from(_e: AllocError) -> LineError {
        LineError::NoMemory
    }
}

impl<T: Drop> From<AllocFailed<T>> for LineError {
    fn from(_e: AllocFailed<T>) -> LineError {
        LineError::NoMemory
    }
}

impl From<Unspelled> for LineError {
    fn from(e: Unspelled) -> LineError {
        match e {
            Unspelled::Misspelt => LineError::Fault(Why::Spelling),
            Unspelled::NoMemory => LineError::NoMemory,
        }
    }
}

//! The memory that was taken for steps and latches to come.
ghost use Rattle.std.specs.Prelude.{◌≡◌, min};

use crate::lists::Log;
use kms_model::{Latch, Step};

/// The lists of a machine's steps and latches, with the room that each has.
#[derive(Clone, Copy)]
pub struct Spare<'a> {
    /// The steps so far.
    pub steps: &'a Log<Step>,
    /// The latches so far.
    pub latches: &'a Log<Latch>,
}

impl<'a> Spare<'a> {
    /// How many further steps, and as many latches, find memory that was taken: the less of the room of both lists.
    pub fn count(self) -> usize
        ensures { result ≡ min self.entry.steps.now.room self.entry.latches.now.room }
    {
        self.steps.room().min(self.latches.room())
    }
}

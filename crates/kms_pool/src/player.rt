//! Who takes turns.
ghost use Rattle.std.specs.Prelude.{◌≡◌, ℕ, Option, Some, IfOk};
ghost use Rattle.kms_pool.specs.declared.player.Turn.{Turn};

use kms_model::NoMemory;
use std::alloc::Global;
use std::sync::Wait;

/// The answer of a turn.
#[derive(Clone, Copy, PartialEq, Eq)]
pub enum Turn {
    /// The player did something, and may do more.
    Did,
    /// The player's next event was not legal in the history that it found.
    NotYet {
        /// The length of that history, a count of events.
        length: u64,
    },
    /// The player has nothing more to do.
    Ended,
}

/// Who takes turns. A player is given one turn after the other, by any thread, and one at a time.
pub trait Player: Drop {
    /// What tells players apart, as the device at which one plays and its rank there.
    type Name;

    // Who it is.
    ghost name: { Self → Self.Name };

    // The answer of its last turn; none before its first.
    ghost answer: { Self → Option Turn };

    // What a turn was: who took it, as it was before and as it is afterwards, and the turn's answer.
    ghost took: { Self → Self → Turn → Type 0 };

    // What a look at the history's length was: who looked, before and afterwards, and the length that was told.
    ghost looked: { Self → Self → ℕ → Type 0 };

    /// One turn, which may wait for others. The player stays who it is. The only error is want of memory.
    fn turn<W: Wait>(&mut self, rt: &W, alloc: Global) -> Result<Turn, NoMemory>
        ensures name { name self.new ≡ name self.old }
        ensures answer { IfOk result (λ t. answer self.new ≡ Some t) }
        ensures took { IfOk result (λ t. took self.old self.new t) };

    /// How long the history is, as far as one load tells, a count of events. It is no turn, and waits for nobody.
    fn history_len(&mut self) -> u64
        ensures name { name self.new ≡ name self.old }
        ensures answer { answer self.new ≡ answer self.old }
        ensures looked { looked self.old self.new result };
}

//! A player among those that are driven.
ghost use Rattle.std.specs.Prelude.{◌≡◌, ◌⊎◌, ℕ, Some, None, IfOk, IsTrue};
ghost use Rattle.std.specs.Option.{ForSome};
ghost use Rattle.kms_pool.specs.Playing.{IsSpared, Plays};

use crate::player::{Player, Turn};
use kms_model::NoMemory;
use std::alloc::Global;
use std::sync::Wait;

/// A player, and the answer of its last turn here.
#[derive(Drop)]
pub struct Participant<P: Player> {
    // In a box, so that what passes through the queue is small.
    pub(crate) player: Box<P>,
    pub(crate) last: Option<Turn>,
    ghost told: { ForSome last (λ t. P.answer player.value ≡ Some t) },
}

impl<P: Player> Participant<P> {
    ghost use Rattle.kms_pool.specs.Settled.{Rests};

    /// The participant of a player that has had no turn here. The only error is want of memory.
    pub(crate) fn new(alloc: Global, player: P) -> Result<Participant<P>, NoMemory>
        ensures { IfOk result (λ r. r.player.value ≡ player) }
    {
        Ok(Participant {
            player: Box::new(alloc, player)?,
            last: None,
        })
    }

    /// Gives the player a turn, unless nothing would come of it, and tells the answer. The only error is want of memory.
    pub(crate) fn play<W: Wait>(&mut self, rt: &W, alloc: Global) -> Result<Option<Turn>, NoMemory>
        ensures name { P.name self.new.player.value ≡ P.name self.old.player.value }
        ensures plays { IfOk result (Plays P.answer P.looked P.took self.old.player.value self.new.player.value) }
    {
        if self.has_no_turn() {
            return Ok(None);
        }
        self.last = None;
        let turn = self.player.turn(rt, alloc)?;
        self.last = Some(turn);
        Ok(Some(turn))
    }

    /// Whether nothing would come of a turn: the player has ended, or the history is no longer, as far as one load tells,
    /// than it was when the player's next event was not legal.
    fn has_no_turn(&mut self) -> bool
        ensures name { P.name self.new.player.value ≡ P.name self.old.player.value }
        ensures spared { IsTrue result → IsSpared P.answer P.looked self.old.player.value self.new.player.value }
        ensures looked { (self.new.player.value ≡ self.old.player.value)
            ⊎ ((told : ℕ) × P.looked self.old.player.value self.new.player.value told) }
    {
        match self.last {
            Some(Turn::Ended) => true,
            Some(Turn::NotYet { length }) => self.player.history_len() <= length,
            _ => false,
        }
    }

    /// The length at which the player's next event was not legal; none where its last turn had another answer.
    pub(crate) fn awaits(&self) -> Option<u64> {
        match self.last {
            Some(Turn::NotYet { length }) => Some(length),
            _ => None,
        }
    }

    /// Whether the player has ended, or its next event was not legal at this length.
    pub(crate) fn rests(&self, length: u64) -> bool
        ensures { IsTrue result → Rests length (P.answer self.now.player.value) }
    {
        match self.last {
            Some(Turn::Ended) => true,
            Some(Turn::NotYet { length: found }) => found == length,
            _ => false,
        }
    }
}

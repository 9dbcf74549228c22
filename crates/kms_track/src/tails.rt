//! The tails of all commits that are not cleaned.
ghost use Rattle.std.specs.Prelude.{◌≡◌, ℕ, ◌<◌, ◌≤◌, ◌+◌, [], ◌∷◌, ◌++◌, length, slice_index, OnOk, OnErr, IsOk, IfSome, IfNone, ◌*◌, option_copied};
ghost use Rattle.kms_model.specs.Things.Tables.{AreBelow, IsRising, slot, slot_ids, value_with_id, without_id};
ghost use Rattle.kms_track.specs.Tails.{IsMark, all_left, first_from, marked_tails};

use crate::progress::Mark;
use crate::tail::Tail;
use kms_model::{NoMemory, Slot, place_in};
use std::alloc::Global;
use std::marker::Model;

/// The most steps that a commit has: its claim, the writes of 4 CRTCs and 16 planes, 4 flushes, the end of writing, 4 latches
/// and its cleanup.
const MOST_STEPS: usize = 31;

/// The tails of the commits that are set up and not cleaned, by the numbers of the commits. Contracts see them with the room
/// that there is for further ones, a count. A look-up halves what is left at each step.
#[derive(Drop)]
pub(crate) struct Tails {
    slots: Vec<Slot<Tail>>,
}

impl Model for Tails {
    ghost use Rattle.std.specs.Prelude.{◌-◌, vec_len, vec_capacity};
    ghost use Rattle.kms_model.specs.Things.Tables.{IsRising};
    ghost use Rattle.kms_signal.specs.Rooms.{Rooms};
    ghost use Rattle.kms_track.specs.declared.tail.Tail.{Tail};

    ghost Value = { Rooms Tail };

    ghost view = { λ s. record {
      slots = s.slots.items;
      room = vec_capacity s.slots - vec_len s.slots;
    } };

    ghost invariant = { λ s. IsRising s.slots.items };
}

impl Tails {
    ghost use Rattle.kms_track.specs.Tails.{no_tails};

    /// None. It takes no memory.
    pub(crate) fn new(alloc: Global) -> Tails
        ensures { result ≡ no_tails }
    {
        Tails {
            slots: Vec::new(alloc),
        }
    }

    /// Takes the memory that one further tail needs, and changes nothing else. Want of memory leaves all as it was, and
    /// comes only where that room was missing.
    pub(crate) fn make_room(&mut self) -> Result<(), NoMemory>
        ensures slots { self.new.slots ≡ self.old.slots }
        ensures room { OnOk result (1 ≤ self.new.room) }
        ensures kept { self.old.room ≤ self.new.room }
        ensures there { 1 ≤ self.old.room → IsOk result }
        ensures err { OnErr result (self.new ≡ self.old) }
    {
        self.slots.reserve(1)?;
        Ok(())
    }

    /// Keeps the tail of a commit whose number, counted from 0, is greater than all others. Want of memory leaves all as it
    /// was, and comes only where there was no room.
    pub(crate) fn push(&mut self, commit: u32, tail: Tail) -> Result<(), NoMemory>
        requires { AreBelow commit self.old.slots }
        ensures slots { OnOk result (self.new.slots ≡ self.old.slots ++ slot commit tail ∷ []) }
        ensures room { OnOk result (self.old.room ≤ self.new.room + 1) }
        ensures there { 0 < self.old.room → IsOk result }
        ensures err { OnErr result (self.new ≡ self.old) }
    {
        self.slots.reserve(1)?;
        let Ok(()) = self.slots.push(Slot {
            id: commit,
            value: tail,
        })
        else {
            unreachable!();
        };
        Ok(())
    }

    /// The tail of a commit, by its number from 0; none where it has none.
    pub(crate) fn get(&self, commit: u32) -> Option<&Tail>
        ensures { option_copied result ≡ value_with_id self.now.slots commit }
    {
        match place_in(self.slots.as_slice(), commit) {
            Some(i) => Some(&self.slots[i].value),
            None => None,
        }
    }

    /// The least number, from a given one on, that has a tail.
    pub(crate) fn first_from(&self, from: u32) -> Option<u32>
        ensures { result ≡ first_from self.now.slots from }
    {
        let place = place_from(self.slots.as_slice(), from);
        match self.slots.get(place) {
            Some(slot) => Some(slot.id),
            None => None,
        }
    }

    /// At most how many steps are left of all commits, a count: 31 of each. None where a `usize` has no place for that
    /// number.
    pub(crate) fn most_left(&self) -> Option<usize>
        ensures bound { IfSome result (λ n. all_left self.now.slots ≤ n) }
        ensures number { IfSome result (λ n. n ≡ 31 * length self.now.slots) }
        ensures none { IfNone result (18446744073709551615 < 31 * length self.now.slots) }
    {
        self.slots.len().checked_mul(MOST_STEPS)
    }

    /// Marks a step of a commit, by its number from 0, where it has a tail.
    pub(crate) fn mark(&mut self, commit: u32, mark: Mark)
        requires { IsMark mark }
        ensures { self.new ≡ marked_tails self.old commit mark }
    {
        match place_in(self.slots.as_slice(), commit) {
            Some(i) => {
                let tail = &mut self.slots[i].value;
                tail.progress = tail.progress.with(mark);
            }
            None => {}
        }
    }

    /// Gives up the tail of a commit, by its number from 0, where it has one. The room does not shrink.
    pub(crate) fn remove(&mut self, commit: u32)
        ensures slots { self.new.slots ≡ without_id self.old.slots commit }
        ensures room { self.old.room ≤ self.new.room }
    {
        match place_in(self.slots.as_slice(), commit) {
            Some(i) => {
                self.slots.remove(i);
            }
            None => {}
        }
    }
}

/// How many ids are below one: the place of that one, or where it would stand.
fn place_from(slots: &[Slot<Tail>], id: u32) -> usize
    requires { IsRising slots.now }
    ensures bound { result ≤ length slots.now }
    ensures below { (k : ℕ) → k < result → slice_index (slot_ids slots.now) k < id }
    ensures above { (k : ℕ) → result ≤ k → k < length slots.now
        → id ≤ slice_index (slot_ids slots.now) k }
{
    slots.partition_point(|slot| slot.id < id)
}

//! Values by their ids, with memory taken beforehand.
ghost use Rattle.std.specs.Prelude.{◌≡◌, ◌<◌, ◌≤◌, ◌+◌, [], ◌∷◌, ◌++◌, OnOk, OnErr, IsOk, option_copied};
ghost use Rattle.kms_model.specs.Things.Tables.{value_with_id, with_value, without_id, AreBelow, IsRising, slot};

use kms_model::{NoMemory, Slot, place_in};
use std::alloc::Global;
use std::marker::Model;

/// Values by their ids, in rising order of the ids. Contracts see them with the room that there is for further ones, a
/// count: so many calls of `push` find memory. A look-up halves what is left at each step.
#[derive(Drop)]
pub struct RoomTable<T> {
    slots: Vec<Slot<T>>,
}

impl<T> Model for RoomTable<T> {
    ghost use Rattle.std.specs.Prelude.{◌-◌, vec_len, vec_capacity};
    ghost use Rattle.kms_signal.specs.Rooms.{Rooms};
    ghost use Rattle.kms_model.specs.Things.Tables.{IsRising};

    ghost Value = { Rooms T };

    ghost view = { λ t. record {
      slots = t.slots.items;
      room = vec_capacity t.slots - vec_len t.slots;
    } };

    ghost invariant = { λ t. IsRising t.slots.items };
}

impl<T> RoomTable<T> {
    /// The empty table, which has no room yet. It takes no memory.
    pub fn new(alloc: Global) -> Self
        ensures { result ≡ record { slots = []; room = 0 } }
    {
        RoomTable {
            slots: Vec::new(alloc),
        }
    }

    /// The value under an id; none where no value has it.
    pub fn get(&self, id: u32) -> Option<&T>
        ensures { option_copied result ≡ value_with_id self.now.slots id }
    {
        match place_in(self.slots.as_slice(), id) {
            Some(i) => Some(&self.slots[i].value),
            None => None,
        }
    }

    /// Takes memory for so many further values, a count, and changes nothing else. Want of memory leaves the table as it
    /// was, and comes only where that room was missing.
    pub fn make_room(&mut self, _alloc: Global, n: usize) -> Result<(), NoMemory>
        ensures slots { self.new.slots ≡ self.old.slots }
        ensures room { OnOk result (n ≤ self.new.room) }
        ensures kept { self.old.room ≤ self.new.room }
        ensures there { n ≤ self.old.room → IsOk result }
        ensures err { OnErr result (self.new ≡ self.old) }
    {
        self.slots.reserve(n)?;
        Ok(())
    }
}

impl<T: Drop> RoomTable<T> {
    /// Puts a value under an id that is greater than all others. Want of memory leaves the table as it was, and comes only
    /// where there was no room.
    pub fn push(&mut self, _alloc: Global, id: u32, value: T) -> Result<(), NoMemory>
        requires { AreBelow id self.old.slots }
        ensures slots { OnOk result (self.new.slots ≡ self.old.slots ++ slot id value ∷ []) }
        ensures room { OnOk result (self.old.room ≤ self.new.room + 1) }
        ensures there { 0 < self.old.room → IsOk result }
        ensures err { OnErr result (self.new ≡ self.old) }
    {
        self.slots.reserve(1)?;
        let Ok(()) = self.slots.push(Slot { id, value }) else {
            unreachable!();
        };
        Ok(())
    }

    /// Puts another value under an id, where it has one.
    pub fn set(&mut self, id: u32, value: T)
        ensures { self.new ≡ record self.old { slots = with_value self.old.slots id value } }
    {
        match place_in(self.slots.as_slice(), id) {
            Some(i) => self.slots[i] = Slot { id, value },
            None => {}
        }
    }

    /// Takes the value under an id out, where it has one. The room does not shrink.
    pub fn remove(&mut self, id: u32)
        ensures slots { self.new.slots ≡ without_id self.old.slots id }
        ensures room { self.old.room ≤ self.new.room }
    {
        match place_in(self.slots.as_slice(), id) {
            Some(i) => {
                self.slots.remove(i);
            }
            None => {}
        }
    }
}

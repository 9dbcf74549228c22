//! Values by their ids, which contracts see as a list.
ghost use Rattle.std.specs.Prelude.{◌≡◌, ◌≢◌, ℕ, [], ◌∷◌, ◌++◌, length, OnOk, OnErr, IfSome, IfNone, option_copied, slice_index, ◌<◌};
ghost use Rattle.kms_model.specs.Things.Tables.{value_with_id, with_value, without_id, AreBelow, IsRising, slot, slot_ids};

use crate::copying::NoMemory;
use std::alloc::Global;
use std::marker::Model;

/// A value with its id.
#[derive(Drop)]
pub struct Slot<T> {
    /// The id.
    pub id: u32,
    /// What stands under it.
    pub value: T,
}

/// Values by their ids, in rising order of the ids. A look-up halves what is left at each step.
#[derive(Drop)]
pub struct IdTable<T> {
    slots: Vec<Slot<T>>,
}

impl<T> Model for IdTable<T> {
    ghost use Rattle.std.specs.Prelude.{List};
    ghost use Rattle.kms_model.specs.declared.tables.Slot.{Slot};
    ghost use Rattle.kms_model.specs.Things.Tables.{IsRising};

    ghost Value = { List (Slot T) };

    ghost view = { λ t. t.slots.items };

    ghost invariant = { λ t. IsRising t.slots.items };
}

impl<T> IdTable<T> {
    /// The empty table. It takes no memory until the first `push`.
    pub fn new(alloc: Global) -> Self
        ensures { result ≡ [] }
    {
        IdTable {
            slots: Vec::new(alloc),
        }
    }

    /// The value under an id; none where no value has it.
    pub fn get(&self, id: u32) -> Option<&T>
        ensures { option_copied result ≡ value_with_id self.now id }
    {
        match place_in(self.slots.as_slice(), id) {
            Some(i) => Some(&self.slots[i].value),
            None => None,
        }
    }
}

impl<T: Drop> IdTable<T> {
    /// Puts a value under an id that is greater than all others. An error, for want of memory, leaves the
    /// table as it was.
    pub fn push(&mut self, id: u32, value: T) -> Result<(), NoMemory>
        requires { AreBelow id self.old }
        ensures ok { OnOk result (self.new ≡ self.old ++ slot id value ∷ []) }
        ensures err { OnErr result (self.new ≡ self.old) }
    {
        self.slots.push(Slot { id, value })?;
        Ok(())
    }

    /// Puts another value under an id, where it has one.
    pub fn set(&mut self, id: u32, value: T)
        ensures { self.new ≡ with_value self.old id value }
    {
        match place_in(self.slots.as_slice(), id) {
            Some(i) => self.slots[i] = Slot { id, value },
            None => {}
        }
    }

    /// Takes the value under an id out.
    pub fn remove(&mut self, id: u32)
        ensures { self.new ≡ without_id self.old id }
    {
        match place_in(self.slots.as_slice(), id) {
            Some(i) => {
                self.slots.remove(i);
            }
            None => {}
        }
    }
}

/// The place of an id, if it is there; each step halves where it may be.
pub fn place_in<T>(slots: &[Slot<T>], id: u32) -> Option<usize>
    requires { IsRising slots.now }
    ensures in_range { IfSome result (λ i. i < length slots.now) }
    ensures at { IfSome result (λ i. slice_index (slot_ids slots.now) i ≡ id) }
    ensures absent { IfNone result ((k : ℕ) → k < length slots.now
        → slice_index (slot_ids slots.now) k ≢ id) }
{
    let mut low: usize = 0;
    let mut high = slots.len();
    while low < high {
        let middle = low + (high - low) / 2;
        let found = slots[middle].id;
        if found == id {
            return Some(middle);
        }
        if found < id {
            low = middle + 1;
        } else {
            high = middle;
        }
    }
    None
}

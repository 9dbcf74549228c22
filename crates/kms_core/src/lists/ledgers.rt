//! A list with places that are kept for further items.
ghost use Rattle.std.specs.Prelude.{◌≡◌, ◌<◌, ◌≤◌, ◌+◌, ◌∷◌, ◌++◌, [], OnOk, OnErr};

use kms_model::NoMemory;
use std::alloc::Global;
use std::marker::Model;

/// A list that is written at its end alone, into places that were kept before. Contracts see its items, for how many
/// further ones a place is kept, and for how many beyond these there is memory.
#[derive(Drop)]
pub struct Ledger<T> {
    items: Vec<T>,
    places: usize,
}

impl<T> Model for Ledger<T> {
    ghost use Rattle.std.specs.Prelude.{◌+◌, ◌-◌, ◌≤◌, vec_len, vec_capacity};
    ghost use Rattle.kms_core.specs.Logs.{Reserved};

    ghost Value = { Reserved T };

    ghost view = { λ l. record {
      items = l.items.items;
      places = l.places;
      room = vec_capacity l.items - (vec_len l.items + l.places);
    } };

    ghost invariant = { λ l. vec_len l.items + l.places ≤ vec_capacity l.items };
}

impl<T> Ledger<T> {
    /// The empty list, without a place. It takes no memory.
    pub fn new(alloc: Global) -> Self
        ensures { result ≡ record { items = []; places = 0; room = 0 } }
    {
        Ledger {
            items: Vec::new(alloc),
            places: 0,
        }
    }

    /// Takes memory for one place more than those that are kept. Want of memory leaves the list as it was.
    pub fn make_room(&mut self) -> Result<(), NoMemory>
        ensures items { self.new.items ≡ self.old.items }
        ensures places { self.new.places ≡ self.old.places }
        ensures room { OnOk result (0 < self.new.room) }
    {
        let Some(places) = self.places.checked_add(1) else {
            return Err(NoMemory);
        };
        self.items.reserve(places)?;
        Ok(())
    }

    /// Keeps a place more, for which there is memory.
    pub fn keep_place(&mut self)
        requires { 0 < self.old.room }
        ensures items { self.new.items ≡ self.old.items }
        ensures places { self.new.places ≡ self.old.places + 1 }
    {
        self.places += 1;
    }

    /// The items, the oldest first.
    pub fn as_slice(&self) -> &[T]
        ensures { result.now ≡ self.now.items }
    {
        self.items.as_slice()
    }
}

impl<T: Drop> Ledger<T> {
    /// Puts an item at the end, at a place that is kept.
    pub fn push(&mut self, item: T)
        requires { 0 < self.old.places }
        ensures items { self.new.items ≡ self.old.items ++ item ∷ [] }
        ensures places { self.old.places ≡ self.new.places + 1 }
    {
        let Ok(()) = self.items.push(item) else {
            unreachable!();
        };
        self.places -= 1;
    }
}

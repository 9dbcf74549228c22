//! A list that grows into memory taken beforehand.
ghost use Rattle.std.specs.Prelude.{◌≡◌, ◌<◌, ◌≤◌, ◌+◌, ◌∷◌, ◌++◌, [], length, OnOk, OnErr, IsOk};

use kms_model::NoMemory;
use std::alloc::Global;
use std::marker::Model;

/// A list that is written at its end alone. Contracts see its items, and for how many further ones there is memory.
#[derive(Drop)]
pub struct Log<T> {
    items: Vec<T>,
}

impl<T> Model for Log<T> {
    ghost use Rattle.std.specs.Prelude.{◌-◌, vec_len, vec_capacity};
    ghost use Rattle.kms_core.specs.Logs.{Logged};

    ghost Value = { Logged T };

    ghost view = { λ l. record {
      items = l.items.items;
      room = vec_capacity l.items - vec_len l.items;
    } };
}

impl<T> Log<T> {
    /// The empty list. It takes no memory.
    pub fn new(alloc: Global) -> Self
        ensures { result ≡ record { items = []; room = 0 } }
    {
        Log {
            items: Vec::new(alloc),
        }
    }

    /// Takes memory for so many further items, a count. Want of memory leaves the list as it was.
    pub fn make_room(&mut self, n: usize) -> Result<(), NoMemory>
        ensures items { self.new.items ≡ self.old.items }
        ensures room { OnOk result (n ≤ self.new.room) }
        ensures kept { self.old.room ≤ self.new.room }
        ensures there { n ≤ self.old.room → IsOk result }
        ensures fits { OnOk result (length self.new.items + n ≤ 18446744073709551615) }
        ensures err { OnErr result (self.new ≡ self.old) }
    {
        self.items.reserve(n)?;
        Ok(())
    }

    /// For how many further items there is memory.
    pub fn room(&self) -> usize
        ensures { result ≡ self.now.room }
    {
        self.items.capacity() - self.items.len()
    }

    /// The items, the oldest first.
    pub fn as_slice(&self) -> &[T]
        ensures { result.now ≡ self.now.items }
    {
        self.items.as_slice()
    }
}

impl<T: Drop> Log<T> {
    /// Puts an item at the end, where there is room for it.
    pub fn push(&mut self, item: T)
        requires { 0 < self.old.room }
        ensures items { self.new.items ≡ self.old.items ++ item ∷ [] }
        ensures room { self.old.room ≤ self.new.room + 1 }
        ensures fits { length self.new.items ≤ 18446744073709551615 }
    {
        let Ok(()) = self.items.push(item) else {
            unreachable!();
        };
    }
}

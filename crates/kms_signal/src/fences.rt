//! Fences.
ghost use Rattle.std.specs.Prelude.{◌≡◌, ◌<◌, ◌≤◌, ◌+◌, [], ◌∷◌, ◌++◌, Bool, true, false, OnOk, OnErr, IsOk};
ghost use Rattle.kms_model.specs.Things.Tables.{AreBelow, slot, with_value};
ghost use Rattle.kms_signal.specs.FenceSets.{is_made, is_signalled, StaySignalled, IsSignalled};

use crate::tables::RoomTable;
use kms_model::NoMemory;
use std::alloc::Global;
use std::marker::Model;

/// The fences that were made, by their ids, each with whether it is signalled. Contracts see them with the room that
/// there is for further ones. (Kernel: "DMA Fences", `struct dma_fence`.)
#[derive(Drop)]
pub struct Fences {
    fences: RoomTable<bool>,
}

impl Model for Fences {
    ghost use Rattle.kms_signal.specs.FenceSets.{FenceSet};

    ghost Value = { FenceSet };

    ghost view = { λ s. s.fences };
}

impl Fences {
    /// No fence. It takes no memory.
    pub fn new(alloc: Global) -> Fences
        ensures { result ≡ record { slots = []; room = 0 } }
    {
        Fences {
            fences: RoomTable::new(alloc),
        }
    }

    /// Takes the memory for so many further fences, a count, and changes nothing else: so many calls of `make` then find
    /// memory. Want of memory leaves all as it was.
    pub fn make_room(&mut self, alloc: Global, n: u32) -> Result<(), NoMemory>
        ensures fences { self.new.slots ≡ self.old.slots }
        ensures room { OnOk result (n ≤ self.new.room) }
        ensures kept { self.old.room ≤ self.new.room }
        ensures there { n ≤ self.old.room → IsOk result }
        ensures err { OnErr result (self.new ≡ self.old) }
    {
        self.fences.make_room(alloc, n as usize)
    }

    /// Makes a fence, which is not signalled yet. Its id is greater than those of all fences before. Want of memory leaves
    /// all as it was, and comes only where there was no room.
    pub fn make(&mut self, alloc: Global, id: u32) -> Result<(), NoMemory>
        requires { AreBelow id self.old.slots }
        ensures made { OnOk result (self.new.slots ≡ self.old.slots ++ slot id false ∷ []) }
        ensures stay { StaySignalled self.old self.new }
        ensures room { OnOk result (self.old.room ≤ self.new.room + 1) }
        ensures there { 0 < self.old.room → IsOk result }
        ensures err { OnErr result (self.new ≡ self.old) }
    {
        self.fences.push(alloc, id, false)
    }

    /// Signals the fence with an id, where one was made. One that is signalled stays so.
    pub fn signal(&mut self, id: u32)
        ensures after { self.new ≡ record self.old { slots = with_value self.old.slots id true } }
        ensures stay { StaySignalled self.old self.new }
        ensures meant { IsSignalled self.old self.new id }
    {
        self.fences.set(id, true);
    }

    /// Whether a fence with an id was made and is signalled.
    pub fn is_signalled(&self, id: u32) -> bool
        ensures { result ≡ is_signalled self.now id }
    {
        self.fences.get(id).copied().unwrap_or(false)
    }
}

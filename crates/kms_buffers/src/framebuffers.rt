//! The store of framebuffers.
ghost use Rattle.std.specs.Prelude.{◌≡◌, ℕ, List, [], ◌∷◌, ◌++◌, IsTrue, OnOk, OnErr, option_copied};
ghost use Rattle.std.specs.Option.{option_map};
ghost use Rattle.kms_model.specs.declared.worlds.Content.TheVariants as content;
ghost use Rattle.kms_model.specs.declared.worlds.Thing.{Thing};
ghost use Rattle.kms_model.specs.declared.worlds.World.{World};
ghost use Rattle.kms_model.specs.Device.Execution.{close_refusal, make};
ghost use Rattle.kms_model.specs.Device.Sound.{AreNumbered};
ghost use Rattle.kms_model.specs.Device.World.{thing_with_id};
ghost use Rattle.kms_model.specs.Things.OpenThings.{denial, things_after};
ghost use Rattle.kms_buffers.specs.Things.{open_fbs, open_fbs_of};
ghost use Rattle.kms_model.specs.Things.Tables.{AreBelow, slot, value_with_id, without_id, with_value};
ghost use Rattle.kms_model.specs.Things.Kept.{framebuffer, MayTake, MayGive, AreCounted, close_answer, fbs_closed, fbs_taken, fbs_given, is_last_of, with_fewer, taken, given, closed, may_close};

use kms_model::{Denied, FbInfo, Framebuffer, IdTable, NoMemory};
use std::alloc::Global;
use std::marker::Model;

/// The framebuffers that something refers to. Contracts see them as their list with their ids, in the order in
/// which they were added. (Kernel: "Frame Buffer Abstraction"; `drm_framebuffer_get`, `drm_framebuffer_put`.)
#[derive(Drop)]
pub struct FbStore {
    fbs: IdTable<Framebuffer>,
}

impl Model for FbStore {
    ghost use Rattle.std.specs.Prelude.{List};
    ghost use Rattle.kms_model.specs.declared.tables.Slot.{Slot};
    ghost use Rattle.kms_model.specs.declared.things.Framebuffer.{Framebuffer};
    ghost use Rattle.kms_buffers.specs.Within.{AreStored};

    ghost Value = { List (Slot Framebuffer) };

    ghost view = { λ s. s.fbs };

    ghost invariant = { λ s. AreStored s.fbs };
}

impl FbStore {
    /// The store without framebuffers. It takes no memory until the first `add`.
    pub fn new(alloc: Global) -> Self
        ensures { result ≡ [] }
    {
        FbStore {
            fbs: IdTable::new(alloc),
        }
    }

    /// Adds a framebuffer of the buffer with an id for a client, by its number from 1: it is open, and has the
    /// reference of being open. Its id is greater than those of all framebuffers before. Want of memory leaves the
    /// store as it was.
    pub fn add(
        &mut self,
        _alloc: Global,
        owner: u32,
        id: u32,
        buffer: u32,
        info: FbInfo,
    ) -> Result<(), NoMemory>
        requires { AreBelow id self.old }
        ensures added { OnOk result (self.new ≡ self.old
            ++ slot id (framebuffer owner buffer info) ∷ []) }
        ensures unchanged { OnErr result (self.new ≡ self.old) }
        ensures counted { AreCounted self.new }
        ensures thing { OnOk result ((w : World) (label : ℕ)
            → open_fbs_of w.things ≡ open_fbs self.old
            → w.next_id ≡ id
            → open_fbs_of (make w owner label (content.Framebuffer info buffer)).world.things
            ≡ open_fbs self.new) }
    {
        self.fbs.push(
            id,
            Framebuffer {
                owner,
                buffer,
                info,
                is_open: true,
                references: 1,
            },
        )?;
        Ok(())
    }

    /// Closes the framebuffer with an id for a client, by its number from 1, which gives the reference of being open
    /// back. Refused with `NOT_FOUND` where it is no open framebuffer of this client; the store then stays as it was.
    /// True exactly where that was the last reference; the framebuffer is then out of the store. (Header: `drm_mode.h`,
    /// `struct drm_mode_closefb`.)
    pub fn close(&mut self, owner: u32, id: u32) -> Result<bool, Denied>
        ensures answer { result ≡ close_answer owner (value_with_id self.old id) }
        ensures store { self.new ≡ fbs_closed self.old owner id }
        ensures counted { AreCounted self.new }
        ensures things { (things : List Thing) → open_fbs_of things ≡ open_fbs self.old
            → open_fbs_of (things_after result things id) ≡ open_fbs self.new }
        ensures refusal { (things : List Thing) → AreNumbered 1000 things
            → open_fbs_of things ≡ open_fbs self.old
            → denial result ≡ close_refusal owner (thing_with_id things id) }
    {
        let Some(fb) = found(&self.fbs, id) else {
            return Err(Denied::NOT_FOUND);
        };
        if !fb.is_open || fb.owner != owner {
            return Err(Denied::NOT_FOUND);
        }
        let left = fb.references - 1;
        put_back(
            &mut self.fbs,
            id,
            Framebuffer {
                is_open: false,
                references: left,
                ..fb
            },
        );
        Ok(fb.references == 1)
    }

    /// What the framebuffer with an id is; none exactly where nothing refers to it, so that it is not in the store.
    pub fn info(&self, id: u32) -> Option<FbInfo>
        ensures { result ≡ option_map (λ fb. fb.info) (value_with_id self.now id) }
    {
        Some(self.fbs.get(id)?.info)
    }

    /// Takes a reference more of the framebuffer with an id, which is in the store and has fewer than 4294967295.
    pub fn take(&mut self, id: u32)
        requires { MayTake (value_with_id self.old id) }
        ensures store { self.new ≡ fbs_taken self.old id }
        ensures counted { AreCounted self.new }
        ensures things { open_fbs self.new ≡ open_fbs self.old }
    {
        if let Some(fb) = found(&self.fbs, id) {
            self.fbs.set(
                id,
                Framebuffer {
                    references: fb.references + 1,
                    ..fb
                },
            );
        }
    }

    /// Gives a reference back of the framebuffer with an id, which is in the store and has one beside that of being
    /// open. True exactly where that was the last; the framebuffer is then out of the store.
    pub fn give(&mut self, id: u32) -> bool
        requires { MayGive (value_with_id self.old id) }
        ensures last { result ≡ is_last_of (value_with_id self.old id) }
        ensures store { self.new ≡ fbs_given self.old id }
        ensures counted { AreCounted self.new }
        ensures things { open_fbs self.new ≡ open_fbs self.old }
    {
        let Some(fb) = found(&self.fbs, id) else {
            return false;
        };
        let rest = fb.references - 1;
        put_back(
            &mut self.fbs,
            id,
            Framebuffer {
                references: rest,
                ..fb
            },
        );
        fb.references == 1
    }
}

// The framebuffer with an id.
fn found(fbs: &IdTable<Framebuffer>, id: u32) -> Option<Framebuffer>
    ensures { result ≡ value_with_id fbs.now id }
{
    fbs.get(id).copied()
}

// Puts a framebuffer with one reference less back, and takes it out where it has none.
fn put_back(fbs: &mut IdTable<Framebuffer>, id: u32, fb: Framebuffer)
    ensures { fbs.new ≡ with_fewer fbs.old id fb }
{
    if fb.references == 0 {
        fbs.remove(id);
    } else {
        fbs.set(id, fb);
    }
}

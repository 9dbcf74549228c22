//! The store of blobs.
ghost use Rattle.std.specs.Prelude.{◌≡◌, ℕ, List, [], ◌∷◌, ◌++◌, OnOk, OnErr, IfOk, option_copied};
ghost use Rattle.kms_model.specs.Things.Tables.{AreBelow, slot, value_with_id};
ghost use Rattle.kms_model.specs.Things.Kept.{blob, bytes_with_id, destroy_answer, blobs_destroyed};
ghost use Rattle.kms_model.specs.declared.objects.Mode.{Mode};
ghost use Rattle.kms_model.specs.declared.worlds.Content.TheVariants as content;
ghost use Rattle.kms_model.specs.declared.worlds.Thing.{Thing};
ghost use Rattle.kms_model.specs.declared.worlds.World.{World};
ghost use Rattle.kms_model.specs.Device.ModeBytes.{mode_bytes};
ghost use Rattle.kms_model.specs.Device.Execution.{destroy_refusal, make};
ghost use Rattle.kms_model.specs.Device.Sound.{AreNumbered};
ghost use Rattle.kms_model.specs.Device.World.{thing_with_id};
ghost use Rattle.kms_model.specs.Things.OpenThings.{denial, things_after};
ghost use Rattle.kms_blobs.specs.Things.{blobs_of};

use kms_model::{Blob, Denied, IdTable, NoMemory, Seq};
use std::alloc::Global;
use std::marker::Model;

/// The open blobs. Contracts see them as the list of the blobs with their ids, in the order in which they were
/// made.
#[derive(Drop)]
pub struct BlobStore {
    blobs: IdTable<Blob>,
}

impl Model for BlobStore {
    ghost use Rattle.std.specs.Prelude.{List};
    ghost use Rattle.kms_model.specs.declared.tables.Slot.{Slot};
    ghost use Rattle.kms_model.specs.declared.things.Blob.{Blob};

    ghost Value = { List (Slot Blob) };

    ghost view = { λ s. s.blobs };
}

impl BlobStore {
    /// The store without blobs. It takes no memory until the first `create`.
    pub fn new(alloc: Global) -> Self
        ensures { result ≡ [] }
    {
        BlobStore {
            blobs: IdTable::new(alloc),
        }
    }

    /// Makes a blob of these bytes for a client, by its number from 1; of bytes a script gives 1 to 2048. The blob's id
    /// is greater than those of all blobs before. Want of memory leaves the store as it was.
    pub fn create(
        &mut self,
        alloc: Global,
        owner: u32,
        id: u32,
        bytes: &[u8],
    ) -> Result<(), NoMemory>
        requires { AreBelow id self.old }
        ensures made { OnOk result (self.new ≡ self.old ++ slot id (blob owner bytes.now) ∷ []) }
        ensures unchanged { OnErr result (self.new ≡ self.old) }
        ensures blob { OnOk result ((w : World) (label : ℕ) → blobs_of w.things ≡ self.old
            → w.next_id ≡ id
            → blobs_of (make w owner label (content.Blob bytes.now)).world.things ≡ self.new) }
        ensures mode { OnOk result ((w : World) (label : ℕ) (m : Mode)
            → blobs_of w.things ≡ self.old → w.next_id ≡ id → bytes.now ≡ mode_bytes m
            → blobs_of (make w owner label (content.Mode m)).world.things ≡ self.new) }
    {
        let bytes = copy(alloc, bytes)?;
        self.blobs.push(id, Blob { owner, bytes })
    }

    /// Destroys the blob with an id for a client, by its number from 1. Refused with `NOT_FOUND` where no open blob has
    /// the id, and with `NOT_OWNER` where the blob is another client's; the store then stays as it was. (Header:
    /// `drm_mode.h`, `struct drm_mode_destroy_blob`.)
    pub fn destroy(&mut self, owner: u32, id: u32) -> Result<(), Denied>
        ensures answer { result ≡ destroy_answer owner (value_with_id self.old id) }
        ensures blobs { self.new ≡ blobs_destroyed self.old owner id }
        ensures things { (things : List Thing) → blobs_of things ≡ self.old
            → blobs_of (things_after result things id) ≡ self.new }
        ensures refusal { (things : List Thing) → AreNumbered 1000 things
            → blobs_of things ≡ self.old
            → denial result ≡ destroy_refusal owner (thing_with_id things id) }
    {
        let Some(blob) = self.blobs.get(id) else {
            return Err(Denied::NOT_FOUND);
        };
        if blob.owner != owner {
            return Err(Denied::NOT_OWNER);
        }
        self.blobs.remove(id);
        Ok(())
    }

    /// The bytes of the open blob with this id; none where there is no such blob.
    pub fn get(&self, id: u32) -> Option<&[u8]>
        ensures { option_copied result ≡ bytes_with_id self.now id }
    {
        match self.blobs.get(id) {
            Some(blob) => Some(blob.bytes.as_slice()),
            None => None,
        }
    }
}

// A list of these bytes.
fn copy(alloc: Global, bytes: &[u8]) -> Result<Seq<u8>, NoMemory>
    ensures { IfOk result (λ list. list ≡ bytes.now) }
{
    let mut list = Vec::with_capacity(alloc, bytes.len())?;
    list.extend_from_slice(bytes)?;
    Ok(Seq::from_vec(list))
}

//! The things that were made, by label and by id, with the words of buffers.
ghost use Rattle.std.specs.Prelude.{◌≡◌, ◌<◌, ℕ, List, [], ◌∷◌, ◌++◌, map, IfNone, IfOk, IfSome, IsTrue, None, OnErr, OnOk, Some, length, option_copied, ◌≤◌};
ghost use Rattle.std.specs.Option.{option_map};
ghost use Rattle.kms_model.specs.declared.worlds.Content.TheVariants as content;
ghost use Rattle.kms_model.specs.declared.worlds.World.{World};
ghost use Rattle.kms_model.specs.Device.Closing.{closed_in};
ghost use Rattle.kms_model.specs.Device.Execution.{close_refusal, make, make_out_fences, make_unless, new_buffer_refusal};
ghost use Rattle.kms_model.specs.Request.Touched.{out_fence_label};
ghost use Rattle.kms_model.specs.declared.scripts.Assign.{Assign};
ghost use Rattle.kms_model.specs.Device.States.{framebuffer_of};
ghost use Rattle.kms_model.specs.Device.World.{thing_labelled, thing_with_id};
ghost use Rattle.kms_model.specs.Frames.Images.{image_of};
ghost use Rattle.kms_model.specs.Frames.Shown.{IsFramed};
ghost use Rattle.kms_model.specs.Order.Suspending.{open_label};
ghost use Rattle.kms_model.specs.Things.Kept.{Fills, MayGive, MayTake, fbs_closed, fbs_given, fbs_taken, framebuffer, is_last_of};
ghost use Rattle.kms_model.specs.Things.Tables.{slot, value_with_id};
ghost use Rattle.kms_things.specs.Index.{IsBlobAt, IsPlain, number_told};
ghost use Rattle.kms_things.specs.Made.{HasIds, has_ids, with_made};

use crate::{index, labels};
use kms_buffers::{Buffers, FbStore, MakeError};
use kms_model::{
    Content, Denied, FIRST_THING_ID, FbInfo, Format, Image, NoMemory, Pattern, Reply, Thing,
};
use std::alloc::Global;
use std::collections::HashMap;
use std::marker::Model;

/// Below this a next id leaves room for the things of one command more.
const MOST: u32 = 4294967000;

/// A buffer that a client asks for, of a width and a height in pixels, and the pattern that fills it.
#[derive(Drop)]
pub(crate) struct NewBuffer {
    pub width: u32,
    pub height: u32,
    pub format: Format,
    pub pattern: Pattern,
}

/// The things that were made, open and closed, which are found by their labels and their ids without a walk, with the
/// words of the buffers. Contracts see the things in order of making, and the id of the next one.
#[derive(Drop)]
pub struct Things {
    made: Vec<Thing>,
    next_id: u32,
    // The id of the thing that was made under each label.
    ids: HashMap<u32, u32>,
    buffers: Buffers,
    // The framebuffers that something refers to: their being open, or a reference that was taken.
    fbs: FbStore,
}

impl Model for Things {
    ghost use Rattle.kms_things.specs.Index.{IsStore};
    ghost use Rattle.kms_things.specs.Made.{Made};

    ghost Value = { Made };

    ghost view = { λ s. record { things = s.made.items; next_id = s.next_id; fbs = s.fbs } };

    ghost invariant = { λ s. IsStore s.made.items s.next_id s.ids s.buffers s.fbs };
}

impl Things {
    /// Nothing was made. It takes no memory until the first thing.
    pub fn new(alloc: Global) -> Things
        ensures { result ≡ record { things = []; next_id = 1000; fbs = [] } }
    {
        Things {
            made: Vec::new(alloc),
            next_id: FIRST_THING_ID,
            ids: HashMap::new(alloc),
            buffers: Buffers::new(alloc),
            fbs: FbStore::new(alloc),
        }
    }

    /// The id of the next thing.
    pub fn next_id(&self) -> u32
        ensures { result ≡ self.now.next_id }
    {
        self.next_id
    }

    /// Whether there are ids for the things of one command more.
    pub fn has_ids(&self) -> bool
        ensures is { result ≡ has_ids self.now }
        ensures ids { IsTrue result → HasIds self.now }
    {
        self.next_id < MOST
    }

    /// The thing that was made under a label, by its number from 0, open or closed.
    pub fn thing_labelled(&self, label: u32) -> Option<&Thing>
        ensures thing { option_copied result ≡ thing_labelled self.now.things label }
        ensures own_id { IfSome result (λ t. thing_with_id self.now.things t.now.id ≡ Some t.now) }
    {
        index::thing_labelled(self.made.as_slice(), &self.ids, label)
    }

    /// The thing with an id, open or closed.
    pub fn with_id(&self, id: u32) -> Option<&Thing>
        ensures { option_copied result ≡ thing_with_id self.now.things id }
    {
        index::thing_with_id(self.made.as_slice(), id)
    }

    /// The label, by its number from 0, of the open thing with an id; none exactly where no open thing has the id.
    pub fn label_of(&self, id: u32) -> Option<u32>
        ensures { result ≡ open_label self.now.things id }
    {
        labels::open_label(self.made.as_slice(), id)
    }

    /// The things in order of making, open and closed.
    pub(crate) fn made(&self) -> &[Thing]
        ensures { result.now ≡ self.now.things }
    {
        self.made.as_slice()
    }

    /// Makes a thing that is neither a buffer nor a framebuffer, for a client, by its number from 1, under a label, by
    /// its number from 0. Want of memory leaves all as it was.
    pub(crate) fn make(
        &mut self,
        owner: u32,
        label: u32,
        content: Content,
    ) -> Result<Reply, NoMemory>
        requires room { self.old.next_id < 4294967295 }
        requires plain { IsPlain content }
        ensures made { IfOk result (λ r. (w : World)
            → make (with_made w self.old) owner label content
            ≡ record { world = with_made w self.new; reply = r }) }
        ensures counted { self.new.fbs ≡ self.old.fbs }
        ensures unchanged { OnErr result (self.new ≡ self.old) }
    {
        self.made.reserve(1)?;
        self.ids.reserve(1)?;
        let id = self.next_id;
        index::put(&mut self.made, &mut self.ids, label, id, owner, content);
        self.next_id = id + 1;
        Ok(Reply::Made { id })
    }

    /// Makes a framebuffer of the buffer with an id for a client, by its number from 1, under a label, by its number
    /// from 0, with the one reference of being open. Want of memory leaves all as it was.
    pub(crate) fn make_fb(
        &mut self,
        alloc: Global,
        owner: u32,
        label: u32,
        info: FbInfo,
        buffer: u32,
    ) -> Result<Reply, NoMemory>
        requires room { self.old.next_id < 4294967295 }
        requires framed { IsFramed self.old.things self.old.next_id info buffer }
        ensures made { IfOk result (λ r. (w : World)
            → make (with_made w self.old) owner label (content.Framebuffer info buffer)
            ≡ record { world = with_made w self.new; reply = r }) }
        ensures counted { OnOk result (self.new.fbs ≡ self.old.fbs
            ++ slot self.old.next_id (framebuffer owner buffer info) ∷ []) }
        ensures unchanged { OnErr result (self.new ≡ self.old) }
    {
        self.made.reserve(1)?;
        self.ids.reserve(1)?;
        let id = self.next_id;
        self.fbs.add(alloc, owner, id, buffer, info)?;
        let content = Content::Framebuffer { info, buffer };
        index::put(&mut self.made, &mut self.ids, label, id, owner, content);
        self.next_id = id + 1;
        Ok(Reply::Made { id })
    }

    /// What is wrong with a new buffer, of a width and a height in pixels: `INVALID_SIZE`, a side is 0 or above 4096
    /// pixels; `NO_BUFFER_SPACE`, all buffers would have more than 268435456 bytes. The refusal's number is given.
    pub(crate) fn new_buffer_refusal(&self, width: u32, height: u32, format: Format) -> Option<u32>
        ensures { result ≡ new_buffer_refusal self.now.things width height format }
    {
        number_of(self.buffers.total_with(width, height, format))
    }

    /// Makes a buffer with its words for a client, by its number from 1, under a label, by its number from 0, unless it is
    /// refused. Want of memory leaves all as it was.
    pub(crate) fn make_buffer(
        &mut self,
        alloc: Global,
        owner: u32,
        label: u32,
        asked: NewBuffer,
    ) -> Result<Reply, NoMemory>
        requires room { self.old.next_id < 4294967295 }
        requires fills { Fills asked.pattern asked.width asked.height }
        ensures made { IfOk result (λ r. (w : World)
            → make_unless (with_made w self.old) owner label
            (content.Buffer asked.width asked.height asked.format asked.pattern)
            (new_buffer_refusal self.old.things asked.width asked.height asked.format)
            ≡ record { world = with_made w self.new; reply = r }) }
        ensures counted { self.new.fbs ≡ self.old.fbs }
        ensures unchanged { OnErr result (self.new ≡ self.old) }
    {
        let NewBuffer {
            width,
            height,
            format,
            pattern,
        } = asked;
        if let Some(number) = self.new_buffer_refusal(width, height, format) {
            return Ok(Reply::Denied(number));
        }
        self.made.reserve(1)?;
        self.ids.reserve(1)?;
        let id = self.next_id;
        match self
            .buffers
            .create(alloc, owner, id, width, height, format, &pattern)
        {
            Ok(()) => {}
            Err(_) => return Err(NoMemory),
        }
        let content = Content::Buffer {
            width,
            height,
            format,
            pattern,
        };
        index::put(&mut self.made, &mut self.ids, label, id, owner, content);
        self.next_id = id + 1;
        Ok(Reply::Made { id })
    }

    /// The words of a framebuffer's buffer; none exactly where no framebuffer, open or closed, has the id.
    pub fn image(&self, fb: u32) -> Option<Image<'_>>
        ensures some { IfSome result (λ image. image_of self.now.things fb ≡ Some (record {
          width = image.width;
          height = image.height;
          format = image.format;
          words = image.words.now;
        })) }
        ensures none { IfNone result (framebuffer_of (thing_with_id self.now.things fb) ≡ None) }
    {
        match &self.with_id(fb)?.content {
            Content::Framebuffer { buffer, .. } => self.buffers.image(*buffer),
            _ => None,
        }
    }

    /// Makes the out-fences of a client, by its number from 1, with the next ids under the labels, by their numbers from 0, that
    /// its accepted request asks for, one place for each CRTC of the device, in order. Want of memory leaves all as it was.
    /// (Kernel: "Explicit Fencing Properties", `OUT_FENCE_PTR`.)
    pub fn make_out_fences(&mut self, client: u32, labels: &[Option<u32>]) -> Result<(), NoMemory>
        requires few { length labels.now ≤ 4 }
        requires ids { HasIds self.old }
        ensures made { OnOk result ((w : World) (assigns : List Assign) (crtcs : List ℕ)
            → labels.now ≡ map (out_fence_label assigns) crtcs
            → make_out_fences client assigns (with_made w self.old) crtcs ≡ with_made w self.new) }
        ensures counted { self.new.fbs ≡ self.old.fbs }
        ensures unchanged { OnErr result (self.new ≡ self.old) }
    {
        self.made.reserve(labels.len())?;
        self.ids.reserve(labels.len())?;
        self.next_id = index::put_fences(
            &mut self.made,
            &mut self.ids,
            client,
            self.next_id,
            labels,
        );
        Ok(())
    }

    /// Destroys the blob with an id.
    pub(crate) fn destroy_blob(&mut self, id: u32)
        requires { IsBlobAt self.old.things id }
        ensures { self.new ≡ record self.old { things = closed_in self.old.things id } }
    {
        index::close(&mut self.made, id);
    }

    /// Closes the open framebuffer with an id of a client, by its number from 1, which gives the reference of being
    /// open back.
    pub(crate) fn close_fb(&mut self, client: u32, id: u32)
        requires { close_refusal client (thing_with_id self.old.things id) ≡ None }
        ensures things { self.new.things ≡ closed_in self.old.things id }
        ensures next_id { self.new.next_id ≡ self.old.next_id }
        ensures counted { self.new.fbs ≡ fbs_closed self.old.fbs client id }
    {
        let _ = self.fbs.close(client, id);
        index::close(&mut self.made, id);
    }

    /// What the framebuffer with an id is that something refers to: its being open, or a reference that was taken. None
    /// exactly where nothing does.
    pub fn stored_framebuffer(&self, fb: u32) -> Option<FbInfo>
        ensures { result ≡ option_map (λ held. held.info) (value_with_id self.now.fbs fb) }
    {
        self.fbs.info(fb)
    }

    /// Takes a reference more of the framebuffer with an id that something refers to and that has fewer than
    /// 4294967295. (Kernel: `drm_framebuffer_get`.)
    pub fn take(&mut self, fb: u32)
        requires { MayTake (value_with_id self.old.fbs fb) }
        ensures { self.new ≡ record self.old { fbs = fbs_taken self.old.fbs fb } }
    {
        self.fbs.take(fb);
    }

    /// Gives a reference back of the framebuffer with an id that has one beside that of being open. True exactly where
    /// that was the last: nothing refers to the framebuffer any more. (Kernel: `drm_framebuffer_put`.)
    pub fn give(&mut self, fb: u32) -> bool
        requires { MayGive (value_with_id self.old.fbs fb) }
        ensures last { result ≡ is_last_of (value_with_id self.old.fbs fb) }
        ensures given { self.new ≡ record self.old { fbs = fbs_given self.old.fbs fb } }
    {
        self.fbs.give(fb)
    }
}

/// The number with which an answer of the store of buffers refuses a buffer.
fn number_of(total: Result<u64, MakeError>) -> Option<u32>
    ensures { result ≡ number_told total }
{
    match total {
        Err(MakeError::BadSize) => Some(Denied::INVALID_SIZE.0),
        Err(MakeError::Space { .. }) => Some(Denied::NO_BUFFER_SPACE.0),
        Ok(_) | Err(MakeError::NoMemory) => None,
    }
}

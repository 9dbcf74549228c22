//! What labels and ids name.
ghost use Rattle.std.specs.Prelude.{◌≡◌};
ghost use Rattle.kms_model.specs.declared.worlds.Content.TheVariants as content;
ghost use Rattle.kms_model.specs.Device.World.{thing_labelled, thing_with_id};
ghost use Rattle.kms_model.specs.Request.Lookups.{look_of, look_of_any, look_of_blob, look_of_content, look_of_gamma};
ghost use Rattle.kms_things.specs.Framebuffers.{framebuffer_entry};

use crate::refusals::is_framebuffer;
use crate::things::Things;
use kms_blobs::{decode_mode, gamma_of_bytes, is_legal_mode};
use kms_model::{Content, Gamma, Look, Mode};

/// A blob of bytes that are no legal mode, by the gamma table that they hold, if any.
fn look_of_gamma(id: u32, gamma: Option<Gamma>) -> Look
    ensures { result ≡ look_of_gamma id gamma }
{
    match gamma {
        Some(gamma) => Look::Gamma(gamma, id),
        None => Look::Blob(id),
    }
}

/// A blob of bytes, by the mode or the gamma table that they hold, if any.
fn look_of_blob(id: u32, mode: Option<Mode>, gamma: Option<Gamma>) -> Look
    ensures { result ≡ look_of_blob id mode gamma }
{
    match mode {
        Some(mode) => Look::Mode(mode, id),
        None => look_of_gamma(id, gamma),
    }
}

/// What a blob of bytes is looked up as.
fn look_of_bytes(id: u32, bytes: &[u8]) -> Look
    ensures { result ≡ look_of_content id (content.Blob bytes.now) }
{
    look_of_blob(id, decode_mode(bytes).ok(), gamma_of_bytes(bytes))
}

/// An open thing by its kind.
pub fn look_of_content(id: u32, content: &Content) -> Look
    ensures { result ≡ look_of_content id content.now }
{
    match content {
        Content::Buffer { .. } => Look::Buffer(id),
        Content::Framebuffer { info, .. } => Look::Fb(*info),
        Content::Mode(mode) if is_legal_mode(mode) => Look::Mode(*mode, id),
        Content::Mode(_) => Look::Blob(id),
        Content::Blob(bytes) => look_of_bytes(id, bytes.as_slice()),
        Content::Fence | Content::OutFence => Look::Fence(id),
    }
}

impl Things {
    /// What a label, by its number from 0, names.
    pub fn look(&self, label: u32) -> Look
        ensures { result ≡ look_of (thing_labelled self.now.things label) }
    {
        match self.thing_labelled(label) {
            None => Look::Missing,
            Some(thing) if thing.is_open => look_of_content(thing.id, &thing.content),
            Some(_) => Look::Closed,
        }
    }

    /// What a label, by its number from 0, names, where a closed thing counts as it was while it was open.
    pub fn look_any(&self, label: u32) -> Look
        ensures { result ≡ look_of_any (thing_labelled self.now.things label) }
    {
        match self.thing_labelled(label) {
            None => Look::Missing,
            Some(thing) => look_of_content(thing.id, &thing.content),
        }
    }

    /// The label, by its number from 0, of the framebuffer with an id, and whether it is open; none where no
    /// framebuffer has it.
    pub fn framebuffer(&self, id: u32) -> Option<(u32, bool)>
        ensures { result ≡ framebuffer_entry (thing_with_id self.now.things id) }
    {
        let thing = self.with_id(id)?;
        is_framebuffer(&thing.content).then_some((thing.label, thing.is_open))
    }
}

//! The commands that make and close things.
ghost use Rattle.std.specs.Prelude.{◌≡◌, ◌<◌, IfOk, IfSome, OnErr, OnOk};
ghost use Rattle.kms_model.specs.declared.objects.Topology.{Topology};
ghost use Rattle.kms_model.specs.declared.worlds.World.{World};
ghost use Rattle.kms_model.specs.Device.Execution.{add_fb, buffer_of, close_fb, close_refusal, destroy, execute, signal_refusal, signal_unless};
ghost use Rattle.kms_model.specs.Device.World.{thing_labelled};
ghost use Rattle.kms_model.specs.Frames.Shown.{IsFramed};
ghost use Rattle.kms_model.specs.Script.WellFormed.{IsFitCommand};
ghost use Rattle.kms_things.specs.Commands.{IsNoRequest};
ghost use Rattle.kms_things.specs.Framebuffers.{new_framebuffer};
ghost use Rattle.kms_things.specs.Counting.{fbs_added, fbs_after, fbs_without};
ghost use Rattle.kms_things.specs.Made.{HasIds, with_made};

use crate::refusals::{close_refusal, destroy_refusal, signal_refusal};
use crate::things::{NewBuffer, Things};
use kms_model::{Command, Content, Denied, Duplicate, FbInfo, NoMemory, Reply};
use std::alloc::Global;

/// What a framebuffer is, with the next id, of the buffer that a client, by its number from 1, has under a label, by
/// its number from 0; and the id of the buffer.
pub fn new_framebuffer(things: &Things, client: u32, label: u32) -> Option<(FbInfo, u32)>
    ensures value { result ≡ new_framebuffer things.now client label }
    ensures framed { IfSome result (λ f. IsFramed things.now.things things.now.next_id f.0 f.1) }
{
    let thing = things.thing_labelled(label)?;
    if thing.owner != client {
        return None;
    }
    match &thing.content {
        Content::Buffer {
            width,
            height,
            format,
            ..
        } => Some((
            FbInfo {
                id: things.next_id(),
                width: *width,
                height: *height,
                format: *format,
            },
            thing.id,
        )),
        _ => None,
    }
}

/// Makes a framebuffer of a client's buffer; `NOT_FOUND` where the label is no buffer of this client.
fn add_fb(
    alloc: Global,
    things: &mut Things,
    client: u32,
    label: u32,
    buffer: u32,
) -> Result<Reply, NoMemory>
    requires { things.old.next_id < 4294967295 }
    ensures made { IfOk result (λ r. (w : World) → add_fb (with_made w things.old) client label
        (buffer_of things.old.things client buffer)
        ≡ record { world = with_made w things.new; reply = r }) }
    ensures counted { OnOk result (things.new.fbs
        ≡ fbs_added things.old client (buffer_of things.old.things client buffer)) }
    ensures unchanged { OnErr result (things.new ≡ things.old) }
{
    match new_framebuffer(things, client, buffer) {
        Some((info, buffer)) => things.make_fb(alloc, client, label, info, buffer),
        None => Ok(Reply::Denied(Denied::NOT_FOUND.0)),
    }
}

/// Destroys a client's blob.
fn destroy(things: &mut Things, client: u32, label: u32) -> Reply
    ensures counted { things.new.fbs ≡ things.old.fbs }
    ensures done { (w : World)
        → destroy (with_made w things.old) client (thing_labelled things.old.things label)
        ≡ record { world = with_made w things.new; reply = result } }
{
    let Some(thing) = things.thing_labelled(label) else {
        return Reply::Denied(Denied::NOT_FOUND.0);
    };
    if let Some(number) = destroy_refusal(client, Some(thing)) {
        return Reply::Denied(number);
    }
    let id = thing.id;
    things.destroy_blob(id);
    Reply::Done
}

/// Closes a client's framebuffer.
fn close_fb(things: &mut Things, client: u32, label: u32) -> Reply
    ensures counted { things.new.fbs
        ≡ fbs_without things.old client (thing_labelled things.old.things label)
        (close_refusal client (thing_labelled things.old.things label)) }
    ensures done { (w : World)
        → close_fb (with_made w things.old) client (thing_labelled things.old.things label)
        ≡ record { world = with_made w things.new; reply = result } }
{
    let Some(thing) = things.thing_labelled(label) else {
        return Reply::Denied(Denied::NOT_FOUND.0);
    };
    if let Some(number) = close_refusal(client, Some(thing)) {
        return Reply::Denied(number);
    }
    let id = thing.id;
    things.close_fb(client, id);
    Reply::Done
}

/// Signals the fence that a `fence` command made under a label, by its number from 0, which changes nothing.
pub fn signal(things: &Things, label: u32) -> Reply
    ensures { (w : World)
        → signal_unless (with_made w things.now)
        (signal_refusal (thing_labelled things.now.things label))
        ≡ record { world = with_made w things.now; reply = result } }
{
    match signal_refusal(things.thing_labelled(label)) {
        Some(number) => Reply::Denied(number),
        None => Reply::Done,
    }
}

impl Things {
    /// Executes a command of a client, by its number from 1, that is no atomic request: it makes, closes or signals, or is
    /// refused by 31 to 35, and then nothing changes. `Wait` changes nothing, and what is answered to it is not the things'.
    /// Want of memory leaves all as it was.
    #[tactic(auto, unfolding(kms_model::specs::Device::Execution::execute))]
    pub fn execute(
        &mut self,
        alloc: Global,
        client: u32,
        command: &Command,
    ) -> Result<Reply, NoMemory>
        requires fit { IsFitCommand command.now }
        requires ids { HasIds self.old }
        requires other { IsNoRequest command.now }
        ensures executed { IfOk result (λ r. (t : Topology) (w : World)
            → execute t (with_made w self.old) client command.now
            ≡ record { world = with_made w self.new; reply = r }) }
        ensures counted { OnOk result (self.new.fbs ≡ fbs_after self.old client command.now) }
        ensures unchanged { OnErr result (self.new ≡ self.old) }
    {
        match command {
            Command::Buffer {
                label,
                width,
                height,
                format,
                pattern,
            } => {
                let asked = NewBuffer {
                    width: *width,
                    height: *height,
                    format: *format,
                    pattern: pattern.copy(alloc)?,
                };
                self.make_buffer(alloc, client, *label, asked)
            }
            Command::AddFb { label, buffer } => add_fb(alloc, self, client, *label, *buffer),
            Command::Mode { label, mode } => self.make(client, *label, Content::Mode(*mode)),
            Command::Blob { label, bytes } => {
                let bytes = bytes.copy(alloc)?;
                self.make(client, *label, Content::Blob(bytes))
            }
            Command::Destroy { label } => Ok(destroy(self, client, *label)),
            Command::CloseFb { label } => Ok(close_fb(self, client, *label)),
            Command::Fence { label } => self.make(client, *label, Content::Fence),
            Command::Signal { label } => Ok(signal(self, *label)),
            Command::Atomic(_) | Command::Wait => Ok(Reply::NoEvent),
        }
    }
}

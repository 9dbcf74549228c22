//! The device of one thread.
ghost use Rattle.std.specs.Prelude.{◌≡◌, ◌<◌, ◌≤◌, ◌+◌, ℕ, IfNone, IfOk, IfSome, IsTrue, None, Some, OnOk, OnErr, is_none, option_map, length, pos};
ghost use Rattle.kms_model.specs.declared.scripts.Command.TheVariants as command;
ghost use Rattle.kms_model.specs.Device.Execution.{execute};
ghost use Rattle.kms_model.specs.Frames.Images.{image_of};
ghost use Rattle.kms_model.specs.Request.Lookups.{look_up};
ghost use Rattle.kms_model.specs.declared.objects.Kind.TheVariants as kind;
ghost use Rattle.kms_model.specs.Device.Objects.{object_id};
ghost use Rattle.kms_model.specs.Frames.Pictures.{picture};
ghost use Rattle.kms_model.specs.Device.Sound.{IsDevice};
ghost use Rattle.kms_model.specs.Device.States.{framebuffer_of};
ghost use Rattle.kms_model.specs.Request.Touched.{named_by, touched_by};
ghost use Rattle.kms_model.specs.Request.Verdict.{verdict};
ghost use Rattle.kms_model.specs.Script.WellFormed.{IsFitCommand};
ghost use Rattle.kms_model.specs.Device.World.{start, thing_labelled, thing_with_id, value};
ghost use Rattle.kms_model.specs.Frames.Shown.{EachCanBeShown};
ghost use Rattle.kms_serial.specs.Framebuffers.{framebuffer_id};
ghost use Rattle.kms_model.specs.declared.properties.TheConstants.{FB_ID};
ghost use Rattle.kms_serial.specs.Commands.{Grows, HasRoom, has_room, IsEmptyUnlessCommitted, NamesWhereCommitted};
ghost use Rattle.kms_things.specs.Commands.{IsNoRequest};
ghost use Rattle.kms_things.specs.Framebuffers.{framebuffer_entry};
ghost use Rattle.kms_things.specs.Present.{IsPresent};

use crate::requests::check;
use crate::store::WorldStore;
use kms_model::{
    Command, Duplicates, Image, Look, Mask, NoMemory, Picture, PlaneState, Reply, Request, Topology,
};
use kms_picture::picture;
use kms_props::is_test;
use kms_request::{Looker, changed, named_in, spans};
use kms_state::{Duplicating, InPlace};
use kms_things::{start_states, swap};
use std::alloc::Global;
use std::marker::Model;

/// The device of one thread. Contracts see its topology and its world: the values, the things in order of making, the
/// next id and the number of commits.
///
/// It keeps the things with an index of labels and the words of buffers, and the present states of all objects, typed; the
/// values exist in proofs alone. A call costs no more after many things were made than after few, but for the memory that they take.
#[derive(Drop)]
pub struct Serial {
    topology: Topology,
    store: WorldStore,
    // The present states of all objects, old and new alike.
    states: Duplicates,
}

/// The id of the framebuffer of a plane's state; 0 where it has none.
fn framebuffer_id(state: Option<PlaneState>) -> u32
    ensures { result ≡ framebuffer_id state }
{
    match state {
        Some(state) => state.fb.map_or(0, |fb| fb.id),
        None => 0,
    }
}

impl Model for Serial {
    ghost use Rattle.kms_serial.specs.Device.{Device, StandsInWorld};

    ghost Value = { Device };

    ghost view = { λ s. record { topology = s.topology; world = s.store } };

    ghost invariant = { λ s. StandsInWorld s.topology s.store s.states };
}

impl Serial {
    /// A device of this topology before the first command. The only error is want of memory.
    pub fn new(alloc: Global, topology: Topology) -> Result<Serial, NoMemory>
        requires { IsDevice topology }
        ensures { IfOk result (λ s. s ≡ record { topology = topology; world = start topology }) }
    {
        let store = WorldStore::at_start(alloc, &topology);
        let states = start_states(&topology);
        Ok(Serial {
            topology,
            store,
            states,
        })
    }

    /// Executes a command of a client that makes or closes a thing, signals a fence or waits.
    fn execute_other(
        &mut self,
        alloc: Global,
        client: u32,
        command: &Command,
    ) -> Result<Reply, NoMemory>
        requires fit { IsFitCommand command.now }
        requires room { HasRoom self.old.world }
        requires other { IsNoRequest command.now }
        ensures executed { IfOk result (λ r.
            execute self.old.topology self.old.world client command.now
            ≡ record { world = self.new.world; reply = r }) }
        ensures topology { self.new.topology ≡ self.old.topology }
        ensures grows { OnOk result (Grows self.old.world self.new.world) }
        ensures unchanged { OnErr result (self.new ≡ self.old) }
    {
        self.store.execute(alloc, client, command)
    }

    /// Executes the atomic request of a client, by its number from 1. Where it is committed, the set of CRTCs that it
    /// names comes with the answer: bit i stands for CRTC index i; else that set is empty. Want of memory leaves the
    /// device as it was.
    pub fn commit(&mut self, client: u32, request: &Request) -> Result<(Reply, u32), NoMemory>
        requires { HasRoom self.old.world }
        ensures executed { IfOk result (λ x.
            execute self.old.topology self.old.world client (command.Atomic request.now)
            ≡ record { world = self.new.world; reply = x.0 }) }
        ensures named { IfOk result (λ x.
            NamesWhereCommitted self.old.topology self.old.world self.new.world
            request.now x.0 x.1) }
        ensures empty { IfOk result (λ x. IsEmptyUnlessCommitted x.0 x.1) }
        ensures topology { self.new.topology ≡ self.old.topology }
        ensures grows { OnOk result (Grows self.old.world self.new.world) }
        ensures unchanged { OnErr result (self.new ≡ self.old) }
    {
        let after = match check(&self.topology, &self.store, &self.states, request) {
            Ok(after) => after,
            Err(refusal) => return Ok((Reply::Refused(refusal), 0)),
        };
        if is_test(request.flags) {
            return Ok((Reply::Tested, 0));
        }
        let commit = self.store.commit(client, request, &self.topology)?;
        self.states = swap(&after);
        Ok((Reply::Commit { commit }, named_in(&after, request)))
    }

    /// Executes the command of a client, by its number from 1: it makes, closes, signals or commits, or is refused by 1
    /// to 24 or by 31 to 35, and then nothing changes. `Wait` changes nothing, and what is answered to it is not this
    /// device's. Want of memory leaves the device as it was.
    pub fn execute(
        &mut self,
        alloc: Global,
        client: u32,
        command: &Command,
    ) -> Result<Reply, NoMemory>
        requires fit { IsFitCommand command.now }
        requires room { HasRoom self.old.world }
        ensures executed { IfOk result (λ r.
            execute self.old.topology self.old.world client command.now
            ≡ record { world = self.new.world; reply = r }) }
        ensures topology { self.new.topology ≡ self.old.topology }
        ensures grows { OnOk result (Grows self.old.world self.new.world) }
        ensures unchanged { OnErr result (self.new ≡ self.old) }
    {
        match command {
            Command::Atomic(request) => {
                let (reply, _) = self.commit(client, request)?;
                Ok(reply)
            }
            _ => self.execute_other(alloc, client, command),
        }
    }

    /// What `execute` would answer to a command of a client, by its number from 1, now. Nothing changes.
    #[tactic(auto, unfolding(kms_model::specs::Device::Execution::execute))]
    pub fn preview(&self, client: u32, command: &Command) -> Reply
        ensures { (execute self.now.topology self.now.world client command.now).reply ≡ result }
    {
        match command {
            Command::Atomic(request) => self.preview_request(request),
            _ => self.store.preview(client, command),
        }
    }

    /// What `commit` would answer to a client's request.
    #[tactic(auto, unfolding(kms_model::specs::Device::Execution::execute))]
    fn preview_request(&self, request: &Request) -> Reply
        ensures { (client : ℕ)
            → (execute self.now.topology self.now.world client (command.Atomic request.now)).reply
            ≡ result }
    {
        match check(&self.topology, &self.store, &self.states, request) {
            Err(refusal) => Reply::Refused(refusal),
            Ok(_) if is_test(request.flags) => Reply::Tested,
            Ok(_) => Reply::Commit {
                commit: self.store.commits(),
            },
        }
    }

    /// Whether a request is accepted now. Nothing changes, and no memory is taken.
    pub fn accepts(&self, request: &Request) -> bool
        ensures is { result ≡ is_none (verdict self.now.topology self.now.world request.now) }
        ensures accepted { IsTrue result → verdict self.now.topology self.now.world request.now
            ≡ None }
    {
        matches!(
            check(&self.topology, &self.store, &self.states, request),
            Ok(_)
        )
    }

    /// The CRTCs that an accepted request names, bit i for CRTC index i, and the objects that it touches: those that it
    /// sets, the CRTCs that it names, and the planes and connectors that a CRTC which needs a modeset has before or
    /// after. Nothing changes, and no memory is taken.
    pub fn spans(&self, request: &Request) -> (u32, Mask)
        requires { verdict self.now.topology self.now.world request.now ≡ None }
        ensures named { result.0 ≡ named_by self.now.topology self.now.world request.now }
        ensures touched { result.1 ≡ touched_by self.now.topology self.now.world request.now }
    {
        let after = changed(&self.topology, request, &self.store, &self.states, &InPlace);
        spans(&after, request)
    }

    /// What a CRTC of the device, by its index, shows.
    pub fn picture(&self, crtc: u32) -> Picture
        requires { crtc < self.now.topology.crtcs }
        ensures picture { result
            ≡ picture self.now.topology self.now.world.things self.now.world.values
            (object_id kind.Crtc crtc) }
        ensures shown { EachCanBeShown self.now.world.things result }
    {
        picture(&self.states, crtc)
    }

    /// Whether there is room for the things and the commit of one command more. It is so for the first 1,000,000,000
    /// commands.
    pub fn has_room(&self) -> bool
        ensures is { result ≡ has_room self.now.world }
        ensures room { IsTrue result → HasRoom self.now.world }
    {
        self.store.has_room()
    }

    /// The present states of all objects, old and new alike.
    pub fn states(&self) -> Duplicates
        ensures { IsPresent self.now.topology self.now.world result }
    {
        self.states
    }

    /// The words of a framebuffer's buffer; none exactly where no framebuffer, open or closed, has the id.
    pub fn image(&self, fb: u32) -> Option<Image<'_>>
        ensures some { IfSome result (λ image. image_of self.now.world.things fb ≡ Some (record {
          width = image.width;
          height = image.height;
          format = image.format;
          words = image.words.now;
        })) }
        ensures none { IfNone result (framebuffer_of (thing_with_id self.now.world.things fb)
            ≡ None) }
        ensures unseen { IfNone result (image_of self.now.world.things fb ≡ None) }
    {
        self.store.things().image(fb)
    }

    /// The label, by its number from 0, of the framebuffer with an id, and whether it is open; none where no
    /// framebuffer has it.
    pub fn framebuffer(&self, id: u32) -> Option<(u32, bool)>
        ensures { result ≡ framebuffer_entry (thing_with_id self.now.world.things id) }
    {
        self.store.things().framebuffer(id)
    }

    /// The id of the framebuffer that a plane of the device, by its index, is set to; 0 where it has none.
    pub fn framebuffer_on(&self, plane: u32) -> u32
        requires { plane < length self.now.topology.planes }
        ensures { pos result ≡ value self.now.world.values (object_id kind.Plane plane) FB_ID }
    {
        framebuffer_id(self.states.new_plane(plane))
    }

    /// The id of the thing that was made under a label, by its number from 0, open or closed; none where there is no
    /// such thing.
    pub fn id_of(&self, label: u32) -> Option<u32>
        ensures { result ≡ option_map (λ t. t.id) (thing_labelled self.now.world.things label) }
    {
        Some(self.store.things().thing_labelled(label)?.id)
    }

    /// What a label, by its number from 0, names.
    pub fn look(&self, label: u32) -> Look
        ensures { result ≡ look_up self.now.world label }
    {
        self.store.look(label)
    }
}

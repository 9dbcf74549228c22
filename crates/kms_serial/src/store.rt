//! The world of the device: the things that were made, the commits, and the values.
ghost use Rattle.std.specs.Prelude.{◌≡◌, ◌+◌, ◌≤◌, All, IfOk, IsTrue, OnErr, OnOk, length};
ghost use Rattle.kms_model.specs.declared.objects.Topology.{Topology};
ghost use Rattle.kms_model.specs.declared.worlds.World.{World};
ghost use Rattle.kms_model.specs.Device.Execution.{committed, execute};
ghost use Rattle.kms_model.specs.Device.World.{start};
ghost use Rattle.kms_model.specs.Request.Lookups.{look_up};
ghost use Rattle.kms_model.specs.Request.Resolves.{IsSettable};
ghost use Rattle.kms_model.specs.Script.WellFormed.{IsFitCommand};
ghost use Rattle.kms_serial.specs.Commands.{HasRoom, has_room};
ghost use Rattle.kms_things.specs.Commands.{IsNoRequest};
ghost use Rattle.kms_things.specs.Made.{with_made};

use crate::values::Values;
use kms_model::{Command, Look, NoMemory, Reply, Request, Topology};
use kms_request::{Looker, out_fence_numbers};
use kms_things::Things;
use std::alloc::Global;
use std::marker::Model;

/// Below this a number of commits leaves room for one more.
const MOST_COMMITS: u32 = 4294967000;

/// The world of the device. Contracts see it whole; the values exist in proofs alone.
#[derive(Drop)]
pub struct WorldStore {
    things: Things,
    commits: u32,
    values: Values,
}

impl Model for WorldStore {
    ghost use Rattle.kms_model.specs.declared.worlds.World.{World};

    ghost Value = { World };

    ghost view = { λ s. record {
      values = s.values.settings;
      things = s.things.things;
      next_id = s.things.next_id;
      commits = s.commits;
    } };
}

impl Looker for WorldStore {
    ghost meaning = { look_up };

    fn look(&self, label: u32) -> Look {
        self.things.look(label)
    }
}

impl WorldStore {
    /// The world of a device before the first command.
    pub fn at_start(alloc: Global, topology: &Topology) -> WorldStore
        ensures { result ≡ start topology.now }
    {
        WorldStore {
            things: Things::new(alloc),
            commits: 0,
            values: Values::at_start(topology),
        }
    }

    /// The things that were made.
    pub fn things(&self) -> &Things
        ensures things { result.now.things ≡ self.now.things }
        ensures next_id { result.now.next_id ≡ self.now.next_id }
    {
        &self.things
    }

    /// How many requests were committed.
    pub fn commits(&self) -> u32
        ensures { result ≡ self.now.commits }
    {
        self.commits
    }

    /// Whether there is room for the things and the commit of one command more.
    pub fn has_room(&self) -> bool
        ensures is { result ≡ has_room self.now }
        ensures room { IsTrue result → HasRoom self.now }
    {
        self.things.has_ids() && self.commits < MOST_COMMITS
    }

    /// Executes a command of a client, by its number from 1, that is no atomic request. Want of memory leaves the world
    /// as it was.
    pub fn execute(
        &mut self,
        alloc: Global,
        client: u32,
        command: &Command,
    ) -> Result<Reply, NoMemory>
        requires fit { IsFitCommand command.now }
        requires room { HasRoom self.old }
        requires other { IsNoRequest command.now }
        ensures executed { IfOk result (λ r. (t : Topology) → execute t self.old client command.now
            ≡ record { world = self.new; reply = r }) }
        ensures unchanged { OnErr result (self.new ≡ self.old) }
    {
        self.things.execute(alloc, client, command)
    }

    /// What `execute` would answer to a command of a client, by its number from 1, that is no atomic request. Nothing
    /// changes.
    pub fn preview(&self, client: u32, command: &Command) -> Reply
        requires { IsNoRequest command.now }
        ensures { (t : Topology) → (execute t self.now client command.now).reply ≡ result }
    {
        self.things.preview(client, command)
    }

    /// Commits the request of a client, by its number from 1, on a device: the values that it sets hold, its out-fences
    /// are made, and the number of commits before it is given. Want of memory leaves the world as it was.
    pub fn commit(
        &mut self,
        client: u32,
        request: &Request,
        topology: &Topology,
    ) -> Result<u32, NoMemory>
        requires few { topology.now.crtcs ≤ 4 }
        requires settable { All IsSettable request.now.assigns }
        requires room { HasRoom self.old }
        ensures world { OnOk result (self.new
            ≡ (committed topology.now self.old client request.now).world) }
        ensures number { IfOk result (λ k. k ≡ self.old.commits) }
        ensures unchanged { OnErr result (self.new ≡ self.old) }
    {
        let labels = out_fence_numbers(request.assigns.as_slice());
        let values = Values::after(&self.values, &self.things, request);
        self.things
            .make_out_fences(client, &labels[..topology.crtcs as usize])?;
        let commit = self.commits;
        self.values = values;
        self.commits = commit + 1;
        Ok(commit)
    }
}

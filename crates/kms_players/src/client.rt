//! Clients.
ghost use Rattle.std.specs.Prelude.{◌≡◌, ◌≤◌, [], length, Some, None, IfOk, OnErr};
ghost use Rattle.kms_device.specs.Attempts.{Went, new_attempt};
ghost use Rattle.kms_players.specs.Players.{name_of_pass};
ghost use Rattle.kms_players.specs.PlayerTurns.{ClientTurn};
ghost use Rattle.kms_players.specs.Took.{ClientLooked, ClientTook};

use crate::looking::look;
use crate::name::Name;
use crate::site::{Site, Standing};
use kms_device::{Attempt, Device, Pass};
use kms_io::Gate;
use kms_model::NoMemory;
use kms_pool::{Player, Turn};
use std::alloc::Global;
use std::marker::Model;
use std::sync::Wait;

/// A client of the script, which makes its commands one after the other. (Kernel: one `struct drm_file`.)
#[derive(Drop)]
pub struct Client<'a, G: Gate> {
    site: Site<'a, G>,
    pass: Pass,
    kept: Attempt,
    standing: Standing,
    last: Option<Turn>,
}

impl<'a, G: Gate> Model for Client<'a, G> {
    ghost use Rattle.kms_players.specs.Players.{ClientState};
    ghost use Rattle.kms_players.specs.UnderWay.{IsAtDevice, Knows};
    ghost use Rattle.kms_device.specs.Turns.{run_seen};

    ghost Value = { ClientState };

    ghost view = { λ c. record {
      device = c.site.device.now;
      client = c.site.client;
      pass = c.pass;
      kept = c.kept;
      last = c.last;
    } };

    ghost invariant = { λ c. IsAtDevice c.site.device.now c.site.client c.pass
        × Knows (run_seen c.site.device.now.script c.pass) c.site.client c.kept c.standing };
}

impl<'a, G: Gate> Client<'a, G> {
    /// The client with a number, counted from 1, of the device's script, with the pass of the device whose rank is that number. It
    /// has had no turn.
    pub fn new(device: &'a Device, gate: &'a G, client: u32, pass: Pass) -> Client<'a, G>
        requires own { pass.lock ≡ device.now.lock }
        requires whose { pass.rank ≡ client }
        requires low { 1 ≤ client }
        requires high { client ≤ length device.now.script.clients }
        ensures { result ≡ record {
          device = device.now;
          client = client;
          pass = pass;
          kept = new_attempt;
          last = None;
        } }
    {
        Client {
            site: Site {
                device,
                gate,
                client,
            },
            pass,
            kept: Attempt::new(),
            standing: Standing::Unknown,
            last: None,
        }
    }

    /// One turn. A client at a request makes one attempt at it; any other makes the one step of its place, where that is legal. It
    /// ends once it has no command left. The gate is called before a check of its request, and after each answer. The only error is
    /// want of memory: then no step was made, and what was kept of an attempt is new.
    pub fn play<W: Wait>(&mut self, rt: &W, alloc: Global) -> Result<Turn, NoMemory>
        ensures turn { IfOk result (ClientTurn self.old.device.script self.old.client self.old.pass
            self.old.kept self.new.pass self.new.kept) }
        ensures name { name_of_pass self.new.pass ≡ name_of_pass self.old.pass }
        ensures same { (self.new.device ≡ self.old.device) × (self.new.client ≡ self.old.client) }
        ensures last { IfOk result (λ turn. self.new.last ≡ Some turn) }
        ensures no_step { OnErr result (Went [] self.old.pass self.new.pass) }
        ensures anew { OnErr result (self.new.kept ≡ new_attempt) }
    {
        let standing = std::mem::replace(&mut self.standing, Standing::Unknown);
        let (turn, standing) = self
            .site
            .turn(rt, alloc, &mut self.pass, &mut self.kept, standing)?;
        self.standing = standing;
        self.last = Some(turn);
        Ok(turn)
    }

    /// How long the history is, as far as one load tells. It is no turn, and waits for nobody.
    pub fn look(&mut self) -> u64
        ensures looked { ClientLooked self.old self.new result }
        ensures name { name_of_pass self.new.pass ≡ name_of_pass self.old.pass }
        ensures last { self.new.last ≡ self.old.last }
    {
        look(self.site.device, &mut self.pass)
    }

    /// Its pass, when it is given up.
    pub fn into_pass(self) -> Pass
        ensures { result ≡ self.entry.pass }
    {
        self.pass
    }
}

impl<'a, G: Gate> Player for Client<'a, G> {
    type Name = Name;

    ghost name = { λ c. name_of_pass c.pass };

    ghost answer = { λ c. c.last };

    ghost took = { ClientTook };

    ghost looked = { ClientLooked };

    fn turn<W: Wait>(&mut self, rt: &W, alloc: Global) -> Result<Turn, NoMemory> {
        self.play(rt, alloc)
    }

    fn history_len(&mut self) -> u64 {
        self.look()
    }
}

//! Workers, which do the tails of commits.
ghost use Rattle.std.specs.Prelude.{◌≡◌, ◌<◌, length, Some, None};
ghost use Rattle.kms_players.specs.Players.{name_of_pass};
ghost use Rattle.kms_players.specs.PlayerTurns.{WorkerTurn, hand_after};
ghost use Rattle.kms_players.specs.Took.{WorkerLooked, WorkerTook};

use crate::looking::look;
use crate::name::Name;
use crate::resting::rest;
use kms_device::{Device, Pass};
use kms_io::{Gate, Point};
use kms_model::{NoMemory, Step};
use kms_pool::{Player, Turn};
use std::alloc::Global;
use std::marker::Model;
use std::sync::Wait;

/// A worker, which has at most one commit that it claimed. (Kernel: `drm_atomic_helper.c`, `commit_work`.)
#[derive(Drop)]
pub struct Worker<'a, G: Gate> {
    device: &'a Device,
    gate: &'a G,
    number: u32,
    pass: Pass,
    hand: Option<u32>,
    last: Option<Turn>,
}

impl<'a, G: Gate> Model for Worker<'a, G> {
    ghost use Rattle.std.specs.Prelude.{◌≡◌};
    ghost use Rattle.kms_players.specs.Players.{WorkerState};

    ghost Value = { WorkerState };

    ghost view = { λ w. record {
      device = w.device.now;
      number = w.number;
      pass = w.pass;
      hand = w.hand;
      last = w.last;
    } };

    ghost invariant = { λ w. w.pass.lock ≡ w.device.now.lock };
}

impl<'a, G: Gate> Worker<'a, G> {
    /// The worker with a number, counted from 0, with a pass of the device whose rank is no client's. It has had no turn, and has
    /// claimed no commit.
    pub fn new(device: &'a Device, gate: &'a G, number: u32, pass: Pass) -> Worker<'a, G>
        requires own { pass.lock ≡ device.now.lock }
        requires above { length device.now.script.clients < pass.rank }
        ensures { result ≡ record {
          device = device.now;
          number = number;
          pass = pass;
          hand = None;
          last = None;
        } }
    {
        Worker {
            device,
            gate,
            number,
            pass,
            hand: None,
            last: None,
        }
    }

    /// One turn. Without a claimed commit it claims the least that may be claimed, and keeps that until it is cleaned up; the
    /// gate is called before. With one it does the first step that is left of its tail. It ends where the history is drained.
    pub fn play<W: Wait>(&mut self, rt: &W) -> Turn
        ensures turn { WorkerTurn self.old.device.script self.old.pass self.old.hand self.new.pass
            self.new.hand result }
        ensures name { name_of_pass self.new.pass ≡ name_of_pass self.old.pass }
        ensures same { (self.new.device ≡ self.old.device) × (self.new.number ≡ self.old.number) }
        ensures last { self.new.last ≡ Some result }
    {
        if self.hand.is_none() {
            self.gate.at(rt, Point::Claim, self.number, 0);
        }
        let (turn, hand) = work(self.device, rt, &mut self.pass, self.hand);
        self.hand = hand;
        self.last = Some(turn);
        turn
    }

    /// How long the history is, as far as one load tells. It is no turn, and waits for nobody.
    pub fn look(&mut self) -> u64
        ensures looked { WorkerLooked self.old self.new result }
        ensures name { name_of_pass self.new.pass ≡ name_of_pass self.old.pass }
        ensures last { self.new.last ≡ self.old.last }
    {
        look(self.device, &mut self.pass)
    }

    /// Its pass, when it is given up.
    pub fn into_pass(self) -> Pass
        ensures { result ≡ self.entry.pass }
    {
        self.pass
    }
}

impl<'a, G: Gate> Player for Worker<'a, G> {
    type Name = Name;

    ghost name = { λ w. name_of_pass w.pass };

    ghost answer = { λ w. w.last };

    ghost took = { WorkerTook };

    ghost looked = { WorkerLooked };

    fn turn<W: Wait>(&mut self, rt: &W, _alloc: Global) -> Result<Turn, NoMemory> {
        Ok(self.play(rt))
    }

    fn history_len(&mut self) -> u64 {
        self.look()
    }
}

/// The turn of a worker with the commit that it claimed, if any, and the commit that it has claimed then.
fn work<W: Wait>(device: &Device, rt: &W, pass: &mut Pass, hand: Option<u32>) -> (Turn, Option<u32>)
    requires own { pass.old.lock ≡ device.now.lock }
    ensures { WorkerTurn device.now.script pass.old hand pass.new result.1 result.0 }
{
    match hand {
        None => claim(device, rt, pass),
        Some(commit) => work_on(device, rt, pass, commit),
    }
}

/// The turn of a worker without a claimed commit, and the commit that it has claimed then.
fn claim<W: Wait>(device: &Device, rt: &W, pass: &mut Pass) -> (Turn, Option<u32>)
    requires own { pass.old.lock ≡ device.now.lock }
    ensures { WorkerTurn device.now.script pass.old None pass.new result.1 result.0 }
{
    let (claimed, drained) = device.claim_or_rest(rt, pass);
    match claimed {
        Some(commit) => (Turn::Did, Some(commit)),
        None => (rest(pass.seen_len(), drained), None),
    }
}

/// The turn of a worker with a claimed commit, and the commit that it has claimed then.
fn work_on<W: Wait>(device: &Device, rt: &W, pass: &mut Pass, commit: u32) -> (Turn, Option<u32>)
    requires own { pass.old.lock ≡ device.now.lock }
    ensures { WorkerTurn device.now.script pass.old (Some commit) pass.new result.1 result.0 }
{
    let (done, drained) = device.work_or_rest(rt, pass, commit);
    match done {
        Some(step) => (Turn::Did, hand_after(Some(commit), &step)),
        None => (rest(pass.seen_len(), drained), Some(commit)),
    }
}

/// The commit that a worker has claimed, after a step.
fn hand_after(hand: Option<u32>, step: &Step) -> Option<u32>
    ensures { result ≡ hand_after hand step.now }
{
    match *step {
        Step::Claim { commit } => Some(commit),
        Step::Cleanup { .. } => None,
        _ => hand,
    }
}

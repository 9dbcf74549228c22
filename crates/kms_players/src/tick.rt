//! The vblank player of a CRTC.
ghost use Rattle.std.specs.Prelude.{◌≡◌, ◌<◌, length, Some, None};
ghost use Rattle.kms_players.specs.Players.{name_of_pass};
ghost use Rattle.kms_players.specs.PlayerTurns.{TickTurn};
ghost use Rattle.kms_players.specs.Took.{TickLooked, TickTook};

use crate::looking::look;
use crate::name::Name;
use crate::resting::rest;
use kms_device::{Device, Pass};
use kms_io::{Gate, Point};
use kms_model::NoMemory;
use kms_pool::{Player, Turn};
use std::alloc::Global;
use std::marker::Model;
use std::sync::Wait;

/// The vblanks of a CRTC, where it latches a commit at them. (Kernel: "Vertical Blanking".)
#[derive(Drop)]
pub struct VblankTick<'a, G: Gate> {
    device: &'a Device,
    gate: &'a G,
    crtc: u32,
    pass: Pass,
    last: Option<Turn>,
}

impl<'a, G: Gate> Model for VblankTick<'a, G> {
    ghost use Rattle.std.specs.Prelude.{◌≡◌};
    ghost use Rattle.kms_players.specs.Players.{TickState};

    ghost Value = { TickState };

    ghost view = { λ t. record {
      device = t.device.now;
      crtc = t.crtc;
      pass = t.pass;
      last = t.last;
    } };

    ghost invariant = { λ t. t.pass.lock ≡ t.device.now.lock };
}

impl<'a, G: Gate> VblankTick<'a, G> {
    /// The vblank player of the CRTC with an index, with a pass of the device whose rank is no client's. It has had no turn.
    pub fn new(device: &'a Device, gate: &'a G, crtc: u32, pass: Pass) -> VblankTick<'a, G>
        requires own { pass.lock ≡ device.now.lock }
        requires above { length device.now.script.clients < pass.rank }
        ensures { result
            ≡ record { device = device.now; crtc = crtc; pass = pass; last = None } }
    {
        VblankTick {
            device,
            gate,
            crtc,
            pass,
            last: None,
        }
    }

    /// One turn: a vblank of the CRTC where it latches a commit at it. It ends where the history is drained. The gate is
    /// called before.
    pub fn play<W: Wait>(&mut self, rt: &W) -> Turn
        ensures turn { TickTurn self.old.device.script self.old.crtc self.old.pass self.new.pass
            result }
        ensures name { name_of_pass self.new.pass ≡ name_of_pass self.old.pass }
        ensures same { (self.new.device ≡ self.old.device) × (self.new.crtc ≡ self.old.crtc) }
        ensures last { self.new.last ≡ Some result }
    {
        self.gate.at(rt, Point::Vblank, self.crtc, 0);
        let turn = tick(self.device, rt, &mut self.pass, self.crtc);
        self.last = Some(turn);
        turn
    }

    /// How long the history is, as far as one load tells. It is no turn, and waits for nobody.
    pub fn look(&mut self) -> u64
        ensures looked { TickLooked self.old self.new result }
        ensures name { name_of_pass self.new.pass ≡ name_of_pass self.old.pass }
        ensures last { self.new.last ≡ self.old.last }
    {
        look(self.device, &mut self.pass)
    }

    /// Its pass, when it is given up.
    pub fn into_pass(self) -> Pass
        ensures { result ≡ self.entry.pass }
    {
        self.pass
    }
}

impl<'a, G: Gate> Player for VblankTick<'a, G> {
    type Name = Name;

    ghost name = { λ t. name_of_pass t.pass };

    ghost answer = { λ t. t.last };

    ghost took = { TickTook };

    ghost looked = { TickLooked };

    fn turn<W: Wait>(&mut self, rt: &W, _alloc: Global) -> Result<Turn, NoMemory> {
        Ok(self.play(rt))
    }

    fn history_len(&mut self) -> u64 {
        self.look()
    }
}

/// A vblank of a CRTC where it latches a commit at it, or else the answer of a player that finds nothing to do.
fn tick<W: Wait>(device: &Device, rt: &W, pass: &mut Pass, crtc: u32) -> Turn
    requires own { pass.old.lock ≡ device.now.lock }
    ensures { TickTurn device.now.script crtc pass.old pass.new result }
{
    let (did, drained) = device.vblank_or_rest(rt, pass, crtc);
    if did {
        return Turn::Did;
    }
    rest(pass.seen_len(), drained)
}

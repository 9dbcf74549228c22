//! Players of every kind.
ghost use Rattle.std.specs.Prelude.{◌≡◌};
ghost use Rattle.kms_players.specs.Players.{name_of_pass};
ghost use Rattle.kms_players.specs.AnyPlayers.{Looked, Took, answer_of, pass_of};

use crate::client::Client;
use crate::name::Name;
use crate::tick::VblankTick;
use crate::worker::Worker;
use kms_device::Pass;
use kms_io::Gate;
use kms_model::NoMemory;
use kms_pool::{Player, Turn};
use std::alloc::Global;
use std::sync::Wait;

/// A player of any kind.
#[derive(Drop)]
pub enum AnyPlayer<'a, G: Gate> {
    /// A client.
    Client(Client<'a, G>),
    /// A worker.
    Worker(Worker<'a, G>),
    /// The vblank player of a CRTC.
    Vblank(VblankTick<'a, G>),
}

impl<'a, G: Gate> AnyPlayer<'a, G> {
    /// Its pass, when it is given up.
    pub fn into_pass(self) -> Pass
        ensures { result ≡ pass_of self.entry }
    {
        match self {
            AnyPlayer::Client(client) => client.into_pass(),
            AnyPlayer::Worker(worker) => worker.into_pass(),
            AnyPlayer::Vblank(tick) => tick.into_pass(),
        }
    }
}

impl<'a, G: Gate> Player for AnyPlayer<'a, G> {
    type Name = Name;

    ghost name = { λ p. name_of_pass (pass_of p) };

    ghost answer = { answer_of };

    ghost took = { Took };

    ghost looked = { Looked };

    fn turn<W: Wait>(&mut self, rt: &W, alloc: Global) -> Result<Turn, NoMemory> {
        match self {
            AnyPlayer::Client(client) => client.turn(rt, alloc),
            AnyPlayer::Worker(worker) => worker.turn(rt, alloc),
            AnyPlayer::Vblank(tick) => tick.turn(rt, alloc),
        }
    }

    fn history_len(&mut self) -> u64 {
        match self {
            AnyPlayer::Client(client) => client.history_len(),
            AnyPlayer::Worker(worker) => worker.history_len(),
            AnyPlayer::Vblank(tick) => tick.history_len(),
        }
    }
}

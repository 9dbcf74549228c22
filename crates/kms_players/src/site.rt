//! What a client does in a turn.
ghost use Rattle.std.specs.Prelude.{◌≡◌, ◌<◌, [], Some, None, IfOk, OnErr, option_copied};
ghost use Rattle.kms_model.specs.Device.Serial.{command_of};
ghost use Rattle.kms_model.specs.Machine.State.{place_at, request_in};
ghost use Rattle.kms_pool.specs.declared.player.Turn.TheVariants.{Did};
ghost use Rattle.kms_core.specs.Calls.{MayRead, MayReturn, idle_command_at};
ghost use Rattle.kms_core.specs.Run.{machine};
ghost use Rattle.kms_device.specs.Attempts.{StandsAt, Went, new_attempt};
ghost use Rattle.kms_device.specs.Turns.{IsOpen, run_seen};
ghost use Rattle.kms_players.specs.Players.{name_of_pass};
ghost use Rattle.kms_players.specs.PlayerTurns.{AttemptTurn, ClientTurn, PlainTurn};
ghost use Rattle.kms_players.specs.UnderWay.{IsAtDevice, IsAttempting, Knows, PlaysAt, standing_at, standing_behind};

use kms_device::{Attempt, Attempted, Device, Pass};
use kms_io::{Gate, Point};
use kms_model::{Command, Doing, NoMemory, Place, command_of};
use kms_pool::Turn;
use std::alloc::Global;
use std::sync::Wait;

/// Where a client plays: its device, its gate and its number.
#[derive(Drop)]
pub(crate) struct Site<'a, G: Gate> {
    pub(crate) device: &'a Device,
    pub(crate) gate: &'a G,
    pub(crate) client: u32,
}

/// What a client knows between its turns of where it stands. Its own steps alone move it, so that it stays so while others go on.
#[derive(Clone, Copy)]
pub(crate) enum Standing {
    /// Nothing: it is to be asked for, in a turn of its own.
    Unknown,
    /// It stands at this place, where it has a step to do, and has no attempt under way.
    At(Place),
    /// It makes attempts at its request, the command with a number. What is kept of these may tell the place.
    Attempting {
        /// The number of the command, counted from 1.
        command: u32,
    },
}

impl<'a, G: Gate> Site<'a, G> {
    /// A turn of a client, by what it knows of where it stands. The answer is given, with what it knows after the turn. Behind want
    /// of memory it knows nothing.
    pub(crate) fn turn<W: Wait>(
        &self,
        rt: &W,
        alloc: Global,
        pass: &mut Pass,
        kept: &mut Attempt,
        standing: Standing,
    ) -> Result<(Turn, Standing), NoMemory>
        requires at { IsAtDevice self.now.device.now self.now.client pass.old }
        requires knows { Knows (run_seen self.now.device.now.script pass.old)
            self.now.client kept.old standing }
        ensures turn { IfOk result (λ r. ClientTurn self.now.device.now.script self.now.client
            pass.old kept.old pass.new kept.new r.0) }
        ensures knows { IfOk result (λ r. Knows (run_seen self.now.device.now.script pass.new)
            self.now.client kept.new r.1) }
        ensures name { name_of_pass pass.new ≡ name_of_pass pass.old }
        ensures no_step { OnErr result (Went [] pass.old pass.new) }
        ensures anew { OnErr result (kept.new ≡ new_attempt) }
    {
        match standing {
            Standing::Attempting { command } => self.attempt(rt, alloc, pass, command, kept),
            Standing::At(place) => self.play_at(rt, alloc, pass, kept, place),
            Standing::Unknown => {
                let place = self.device.place(rt, pass, self.client);
                self.play_at(rt, alloc, pass, kept, place)
            }
        }
    }

    /// What a client with no attempt under way does at the place where it stands. At its end it does nothing, in no turn. The
    /// answer is given, with what it knows then.
    fn play_at<W: Wait>(
        &self,
        rt: &W,
        alloc: Global,
        pass: &mut Pass,
        kept: &mut Attempt,
        place: Place,
    ) -> Result<(Turn, Standing), NoMemory>
        requires at { IsAtDevice self.now.device.now self.now.client pass.old }
        requires new { kept.old ≡ new_attempt }
        requires stands { StandsAt (run_seen self.now.device.now.script pass.old)
            self.now.client place }
        ensures plays { IfOk result (λ r. PlaysAt self.now.device.now.script self.now.client
            pass.old kept.old pass.new kept.new r.0) }
        ensures knows { IfOk result (λ r. Knows (run_seen self.now.device.now.script pass.new)
            self.now.client kept.new r.1) }
        ensures no_step { OnErr result (Went [] pass.old pass.new) }
        ensures anew { OnErr result (kept.new ≡ new_attempt) }
    {
        if let Doing::Returning(_commit) = place.doing {
            let turn = self.go_on(rt, pass)?;
            return Ok((turn, self.behind(turn, place)));
        }
        let script = self.device.script();
        let Some(command) = command_of(script, self.client, place.command) else {
            return Ok((Turn::Ended, Standing::Unknown));
        };
        if let Command::Atomic(_request) = command {
            *kept = Attempt::at(place);
            return self.attempt(rt, alloc, pass, place.command, kept);
        }
        let turn = self.execute(rt, alloc, pass, place.command, command)?;
        Ok((turn, self.behind(turn, place)))
    }

    /// What a client knows behind a turn that began at a place, at no request: with its step it went on to its next command, and
    /// without one it stands where it stood.
    fn behind(&self, turn: Turn, place: Place) -> Standing
        requires { place.command < 4294967295 }
        ensures { result
            ≡ standing_behind self.now.device.now.script self.now.client turn place }
    {
        match turn {
            Turn::Did => self.idle_at(place.command + 1),
            Turn::NotYet { .. } => Standing::At(place),
            Turn::Ended => Standing::Unknown,
        }
    }

    /// What a client knows that is idle at the command with a number. That there is none is told by a turn.
    fn idle_at(&self, command: u32) -> Standing
        ensures { result ≡ standing_at self.now.device.now.script self.now.client command }
    {
        match command_of(self.device.script(), self.client, command) {
            Some(_command) => Standing::At(Place {
                command,
                doing: Doing::Idle,
            }),
            None => Standing::Unknown,
        }
    }

    /// An attempt at the request at which a client stands, the command with a number.
    fn attempt<W: Wait>(
        &self,
        rt: &W,
        alloc: Global,
        pass: &mut Pass,
        number: u32,
        kept: &mut Attempt,
    ) -> Result<(Turn, Standing), NoMemory>
        requires own { pass.old.lock ≡ self.now.device.now.lock }
        requires whose { pass.old.rank ≡ self.now.client }
        requires attempting { IsAttempting (run_seen self.now.device.now.script pass.old)
            self.now.client kept.old number }
        ensures turn { IfOk result (λ r. AttemptTurn self.now.device.now.script self.now.client
            pass.old kept.old pass.new kept.new r.0) }
        ensures knows { IfOk result (λ r. Knows (run_seen self.now.device.now.script pass.new)
            self.now.client kept.new r.1) }
        ensures no_step { OnErr result (Went [] pass.old pass.new) }
        ensures anew { OnErr result (kept.new ≡ new_attempt) }
    {
        let standing = Standing::Attempting { command: number };
        match self
            .device
            .attempt(rt, alloc, pass, self.client, self.gate, kept)?
        {
            Attempted::Did => Ok((Turn::Did, standing)),
            Attempted::NotYet { length } => Ok((Turn::NotYet { length }, standing)),
            Attempted::Answered(_reply) => {
                self.gate.at(rt, Point::Answered, self.client, number);
                Ok((Turn::Did, Standing::Unknown))
            }
        }
    }

    /// The return of a client from its commit, where that is cleaned up.
    fn go_on<W: Wait>(&self, rt: &W, pass: &mut Pass) -> Result<Turn, NoMemory>
        requires own { pass.old.lock ≡ self.now.device.now.lock }
        requires whose { pass.old.rank ≡ self.now.client }
        requires may { MayReturn (run_seen self.now.device.now.script pass.old) self.now.client }
        ensures turn { IfOk result
            (PlainTurn self.now.device.now.script self.now.client pass.old pass.new) }
        ensures no_step { OnErr result (Went [] pass.old pass.new) }
    {
        if self.device.return_from(rt, pass, self.client)? {
            Ok(Turn::Did)
        } else {
            Ok(Turn::NotYet {
                length: pass.seen_len(),
            })
        }
    }

    /// The command at which a client is idle, with its number; it is no request.
    fn execute<W: Wait>(
        &self,
        rt: &W,
        alloc: Global,
        pass: &mut Pass,
        number: u32,
        command: &Command,
    ) -> Result<Turn, NoMemory>
        requires own { pass.old.lock ≡ self.now.device.now.lock }
        requires whose { pass.old.rank ≡ self.now.client }
        requires is_open { IsOpen (run_seen self.now.device.now.script pass.old) }
        requires idle { idle_command_at (run_seen self.now.device.now.script pass.old)
            self.now.client ≡ Some command.now }
        requires no_request { request_in (Some command.now) ≡ None }
        requires at { (place_at (machine (run_seen self.now.device.now.script pass.old))
            self.now.client).command ≡ number }
        ensures turn { IfOk result
            (PlainTurn self.now.device.now.script self.now.client pass.old pass.new) }
        ensures no_step { OnErr result (Went [] pass.old pass.new) }
    {
        match command {
            Command::Wait => self.read(rt, pass, number),
            Command::Signal { .. } => {
                let _reply = self.device.signal(rt, pass, self.client)?;
                Ok(self.come_to_gate(rt, number))
            }
            _ => {
                let _reply = self.device.make(rt, alloc, pass, self.client)?;
                Ok(self.come_to_gate(rt, number))
            }
        }
    }

    /// The reading of an event by a client that is idle at a `wait`, the command with a number, where one is there or none will
    /// come.
    fn read<W: Wait>(&self, rt: &W, pass: &mut Pass, number: u32) -> Result<Turn, NoMemory>
        requires own { pass.old.lock ≡ self.now.device.now.lock }
        requires whose { pass.old.rank ≡ self.now.client }
        requires may { MayRead (run_seen self.now.device.now.script pass.old) self.now.client }
        requires at { (place_at (machine (run_seen self.now.device.now.script pass.old))
            self.now.client).command ≡ number }
        ensures turn { IfOk result
            (PlainTurn self.now.device.now.script self.now.client pass.old pass.new) }
        ensures no_step { OnErr result (Went [] pass.old pass.new) }
    {
        match self.device.read_event(rt, pass, self.client)? {
            Some(_reply) => Ok(self.come_to_gate(rt, number)),
            None => Ok(Turn::NotYet {
                length: pass.seen_len(),
            }),
        }
    }

    /// Ends a turn in which the command with a number was answered: the client comes to the gate.
    fn come_to_gate<W: Wait>(&self, rt: &W, number: u32) -> Turn
        ensures { result ≡ Did }
    {
        self.gate.at(rt, Point::Answered, self.client, number);
        Turn::Did
    }
}

//! The walk over the journal, with one device of one thread.
ghost use Rattle.std.specs.Prelude.{◌≡◌, ◌≤◌, ◌<◌, ◌-◌, [], IfOk, None, Some, length, slice_get, slice_index_or, slice_set, true};
ghost use Rattle.kms_audit.specs.Indexed.{IsIndexOf};
ghost use Rattle.kms_audit.specs.Ordered.{IsOrdered};
ghost use Rattle.kms_audit.specs.Walked.{CanEnter, IsComparedWalk, IsEntered, IsNextWalk, IsWalk, IsWalked, is_above_last};
ghost use Rattle.kms_model.specs.declared.scripts.Command.TheVariants as command;
ghost use Rattle.kms_model.specs.declared.reports.Report.{Report};
ghost use Rattle.kms_model.specs.Machine.Steps.{is_making};
ghost use Rattle.kms_model.specs.Report.RightAnswers.{entries_in, entry_is_right, first_off};
ghost use Rattle.kms_model.specs.Script.WellFormed.{IsFitCommand, IsWellFormed};
ghost use Rattle.kms_serial.specs.Commands.{HasRoom};

use crate::compared::Compared;
use crate::index::Index;
use crate::latches::Showing;
use crate::lines::EntryFields;
use crate::order::Ordered;
use crate::owners::{Owner, push_owner};
use crate::replies::is_accepted;
use crate::touches::Touches;
use kms_model::{Command, Duplicate, NoMemory, Reply, Report, Request, Script, Seq, command_of};
use kms_serial::Serial;
use std::alloc::Global;

/// The device of one thread on its way through a journal, and what is kept of the entries so far.
#[derive(Drop)]
pub struct Walk {
    /// The device behind the entries so far.
    pub serial: Serial,
    /// The number of the last entry of each client, the first client's at place 0.
    highest: [Option<u32>; 16],
    /// How far R lines are compared.
    pub compared: Compared,
    /// The commits that touched each object last.
    touches: Touches,
    /// Whose the commits are, by their numbers.
    pub owners: Seq<Owner>,
    /// What the CRTCs showed.
    pub showing: Showing,
}

/// Whether a command's number is above that of the last entry of its client, by its number from 1 to 16.
fn is_above(highest: &[Option<u32>; 16], client: u32, number: u32) -> bool
    requires some { 1 ≤ client }
    requires few { client ≤ 16 }
    ensures { result ≡ is_above_last (slice_index_or highest.now (client - 1) None) number }
{
    match highest[(client - 1) as usize] {
        Some(last) => last < number,
        None => true,
    }
}

/// Notes the number of a client's last entry.
fn note_number(highest: &mut [Option<u32>; 16], client: u32, number: u32)
    requires some { 1 ≤ client }
    requires few { client ≤ 16 }
    ensures { highest.new ≡ slice_set highest.old (client - 1) (Some number) }
{
    highest[(client - 1) as usize] = Some(number);
}

impl Walk {
    /// The device before the first entry.
    pub fn new(
        alloc: Global,
        script: &Script,
        report: &Report,
        ordered: &Ordered,
    ) -> Result<Walk, NoMemory>
        requires formed { IsWellFormed script.now }
        requires ordered { IsOrdered script.now report.now ordered.now }
        ensures { IfOk result (IsWalk script.now report.now 0) }
    {
        let topology = script.topology.copy(alloc)?;
        let serial = Serial::new(alloc, topology)?;
        let lines = report.latches.as_slice();
        let showing = Showing::dark(lines);
        let compared = Compared::none(&ordered.blocks);
        let touches = Touches::none();
        let owners = Seq::new(alloc);
        Ok(Walk {
            serial,
            highest: [None; 16],
            compared,
            touches,
            owners,
            showing,
        })
    }

    /// Compares the R lines of a place, at which the device stands.
    fn compare(&mut self, script: &Script, index: &Index, report: &Report, place: usize)
        requires index { IsIndexOf report.now index.now }
        requires few { place ≤ 67108864 }
        requires walk { IsWalk script.now report.now place self.old }
        ensures { IsComparedWalk script.now report.now place self.new }
    {
        self.compared.compare(
            script,
            index,
            report,
            &self.serial,
            &self.touches,
            place as u32,
        );
    }

    /// Commits a request, and shows what it makes CRTCs show. Gives whether it was committed; where it was not, the walk is of
    /// no more use.
    fn commit(
        &mut self,
        alloc: Global,
        report: &Report,
        client: u32,
        request: &Request,
    ) -> Result<bool, NoMemory>
        requires { CanEnter report.now self.old }
        ensures { IfOk result (λ entered. IsEntered report.now client (command.Atomic request.now)
            self.old self.new entered) }
    {
        if !self.serial.accepts(request) {
            return Ok(false);
        }
        let (_, touched) = self.serial.spans(request);
        let (reply, named) = self.serial.commit(client, request)?;
        let Reply::Commit { commit } = reply else {
            return Ok(false);
        };
        self.touches.note(&touched, commit);
        push_owner(&mut self.owners, client, request)?;
        let lines = report.latches.as_slice();
        self.showing
            .show(alloc, &self.serial, lines, named, commit)?;
        Ok(true)
    }

    /// Executes a command that makes or closes a thing. Gives whether it was accepted; where it was not, the walk is of no more
    /// use.
    fn make(&mut self, alloc: Global, client: u32, command: &Command) -> Result<bool, NoMemory>
        requires room { HasRoom self.old.serial.world }
        requires fit { IsFitCommand command.now }
        requires making { is_making command.now ≡ true }
        ensures { (r : Report) → IfOk result (λ entered. IsEntered r client command.now
            self.old self.new entered) }
    {
        let reply = self.serial.execute(alloc, client, command)?;
        Ok(is_accepted(&reply))
    }

    /// Executes a command of the script, unless it may be no entry. Gives whether it was accepted.
    fn execute(
        &mut self,
        alloc: Global,
        report: &Report,
        client: u32,
        command: &Command,
    ) -> Result<bool, NoMemory>
        requires can { CanEnter report.now self.old }
        requires fit { IsFitCommand command.now }
        ensures { IfOk result (λ entered. IsEntered report.now client command.now
            self.old self.new entered) }
    {
        match command {
            Command::Wait => Ok(false),
            Command::Signal { .. } => Ok(false),
            Command::Atomic(request) => self.commit(alloc, report, client, request),
            _ => self.make(alloc, client, command),
        }
    }

    /// Executes an entry. Gives whether it is right: its command is there, is no `wait` and no `signal`, has a number above
    /// each of its client before, and is accepted. Behind one that is not right the walk is of no more use.
    fn enter(
        &mut self,
        alloc: Global,
        script: &Script,
        report: &Report,
        entry: &EntryFields,
        place: usize,
    ) -> Result<bool, NoMemory>
        requires formed { IsWellFormed script.now }
        requires few { place < 67108864 }
        requires walk { IsComparedWalk script.now report.now place self.old }
        requires entry { slice_get report.now.journal place ≡ Some entry.now }
        ensures { IfOk result (λ right. IsNextWalk script.now report.now place self.new right) }
    {
        let (client, number) = *entry;
        let Some(command) = command_of(script, client, number) else {
            return Ok(false);
        };
        if !is_above(&self.highest, client, number) {
            return Ok(false);
        }
        let entered = self.execute(alloc, report, client, command)?;
        if !entered {
            return Ok(false);
        }
        note_number(&mut self.highest, client, number);
        Ok(true)
    }

    /// Goes through the journal. Gives the place of the first entry that is not right, if any; else the device stands behind all
    /// of them, and all R lines that stand in their order are compared.
    pub fn through(
        &mut self,
        alloc: Global,
        script: &Script,
        index: &Index,
        report: &Report,
    ) -> Result<Option<usize>, NoMemory>
        requires formed { IsWellFormed script.now }
        requires index { IsIndexOf report.now index.now }
        requires few { length report.now.journal ≤ 67108864 }
        requires walk { IsWalk script.now report.now 0 self.old }
        ensures off { IfOk result (λ off. off
            ≡ first_off (entry_is_right script.now) [] (entries_in report.now)) }
        ensures walked { IfOk result (λ off. off ≡ None → IsWalked script.now report.now self.new) }
    {
        let journal = report.journal.as_slice();
        for (place, entry) in journal.iter().enumerate() {
            self.compare(script, index, report, place);
            let right = self.enter(alloc, script, report, entry, place)?;
            if !right {
                return Ok(Some(place));
            }
        }
        self.compare(script, index, report, journal.len());
        Ok(None)
    }
}

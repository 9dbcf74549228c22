//! Whole scripts with older calls, translated.
ghost use Rattle.std.specs.Prelude.{◌≡◌, ◌+◌, IfOk, OnOk, Some, is_some, length, true};
ghost use Rattle.std.specs.List.{IsDistinct};
ghost use Rattle.std.specs.Str.{bytes_eq};
ghost use Rattle.kms_model.specs.declared.scripts.Command.TheVariants as command;
ghost use Rattle.kms_model.specs.Device.Sound.{IsDevice};
ghost use Rattle.kms_model.specs.Legacy.Screen.{KeepsScreen};
ghost use Rattle.kms_model.specs.Legacy.Translated.{IsTranslated, translated};
ghost use Rattle.kms_model.specs.Script.CommandLines.{command_read, words_in};
ghost use Rattle.kms_model.specs.Script.WholeInput.{clients_of};
ghost use Rattle.kms_words.specs.Named.{HasRoomForNames, NamesGrow};
ghost use Rattle.kms_words.specs.Fitting.{HasFilled};
ghost use Rattle.kms_legacy.specs.Asked.{GivesRequest};
ghost use Rattle.kms_legacy.specs.Translating.{ArePassed, GoesOn, HasRoomToGo, IsAtStart, IsFitCall, IsFitLegacy, IsFitLine, IsOver, IsPassed, IsReadAnew, IsSaidAnew, IsWellFormedLegacy, said_names, script_of};

use crate::errors::LegacyError;
use crate::looking::{fb_of_call, mode_of_call};
use crate::translating::translate;
use kms_model::{
    Command, Duplicate, LegacyCall, LegacyCommand, LegacyScript, NoMemory, Request, Script, Seq,
    Topology,
};
use kms_script::{forms_need_no_names, print_command, requests_are_read_back};
use kms_serial::Serial;
use kms_words::{Names, command_of};
use std::alloc::Global;

/// A translation that goes on.
#[derive(Drop)]
pub struct Going {
    /// The names that the new script has said.
    names: Names,
    /// The device of one thread, behind the new script's commands so far.
    serial: Serial,
    /// The new script's commands so far.
    lines: Seq<Command>,
}

/// The command that a line spells behind the names so far, where it is read behind any names.
fn read_anew(alloc: Global, names: &mut Names, line: &[u8]) -> Result<Command, NoMemory>
    requires room { HasRoomForNames names.old.names (length line.now + 2) }
    requires formed { is_some (command_read names.old.names line.now) ≡ true }
    ensures read { IfOk result (λ c. command_read names.old.names line.now
        ≡ Some (c, names.new.names)) }
    ensures filled { IfOk result HasFilled }
    ensures grows { OnOk result (NamesGrow names.old.names names.new.names (length line.now + 2)) }
{
    match command_of(names, alloc, line)? {
        Some(command) => Ok(command),
        None => unreachable!(),
    }
}

/// The request that a call asks for, with the labels of the old script.
fn translate_call(
    alloc: Global,
    topology: &Topology,
    old: &[Seq<u8>],
    going: &Going,
    call: &LegacyCall,
) -> Result<Request, LegacyError>
    requires device { IsDevice topology.now }
    requires over { IsOver topology.now going.now }
    requires fit { IsFitCall topology.now old.now call.now }
    requires room { HasRoomToGo going.now }
    ensures request { GivesRequest result
        (translated old.now (words_in (said_names going.now)) topology.now
        going.now.serial.world call.now) }
    ensures anew { IfOk result (λ r.
        IsReadAnew topology.now.profile old.now (command.Atomic r)) }
{
    requests_are_read_back();
    let mode = mode_of_call(old, &going.names, &going.serial, call);
    let fb = fb_of_call(old, &going.names, &going.serial, call);
    translate(alloc, topology, &going.serial.states(), mode, fb, call)
}

/// Says a command of the old script in the new one: its line is written with the old names and read with the new ones, and
/// the one client executes what was read.
fn say_anew(
    alloc: Global,
    _topology: &Topology,
    old: &[Seq<u8>],
    going: &mut Going,
    command: &Command,
) -> Result<(), NoMemory>
    requires over { IsOver _topology.now going.old }
    requires room { HasRoomToGo going.old }
    requires anew { IsReadAnew _topology.now.profile old.now command.now }
    ensures said { OnOk result
        (IsSaidAnew old.now _topology.now command.now going.old going.new) }
    ensures goes { OnOk result (GoesOn going.old going.new) }
{
    let line = print_command(alloc, old, command)?;
    let command = read_anew(alloc, &mut going.names, line.as_slice())?;
    going.serial.execute(alloc, 1, &command)?;
    going.lines.push(command)?;
    Ok(())
}

/// Translates a command of the old script: a call that is refused before it is translated leaves no line.
fn pass(
    alloc: Global,
    topology: &Topology,
    old: &[Seq<u8>],
    going: &mut Going,
    command: &LegacyCommand,
) -> Result<(), NoMemory>
    requires device { IsDevice topology.now }
    requires over { IsOver topology.now going.old }
    requires room { HasRoomToGo going.old }
    requires fit { IsFitLine topology.now old.now command.now }
    ensures passed { OnOk result
        (IsPassed old.now topology.now command.now going.old going.new) }
    ensures goes { OnOk result (GoesOn going.old going.new) }
{
    match command {
        LegacyCommand::Plain(command) => say_anew(alloc, topology, old, going, command),
        LegacyCommand::Call(call) => match translate_call(alloc, topology, old, going, call) {
            Ok(request) => say_anew(alloc, topology, old, going, &Command::Atomic(request)),
            Err(LegacyError::Refused { .. }) => Ok(()),
            Err(LegacyError::NoMemory) => Err(NoMemory),
        },
    }
}

/// A translation before the first command.
fn begin(alloc: Global, topology: &Topology) -> Result<Going, NoMemory>
    requires { IsDevice topology.now }
    ensures { IfOk result (IsAtStart topology.now) }
{
    let serial = Serial::new(alloc, topology.copy(alloc)?)?;
    Ok(Going {
        names: Names::new(alloc, topology.profile),
        serial,
        lines: Seq::new(alloc),
    })
}

/// Translates all commands.
fn pass_all(alloc: Global, script: &LegacyScript, going: &mut Going) -> Result<(), NoMemory>
    requires fit { IsFitLegacy script.now }
    requires start { IsAtStart script.now.base.topology going.old }
    ensures { OnOk result (ArePassed script.now.base.names script.now.base.topology
        script.now.commands going.old going.new) }
{
    let old = script.base.names.as_slice();
    for command in script.commands.as_slice() {
        pass(alloc, &script.base.topology, old, going, command)?;
    }
    Ok(())
}

/// The commands of each client, of which there is one or none.
fn clients_of(
    alloc: Global,
    has_client: bool,
    commands: Seq<Command>,
) -> Result<Seq<Seq<Command>>, NoMemory>
    ensures { IfOk result (λ clients. clients ≡ clients_of has_client commands) }
{
    let mut clients = Seq::new(alloc);
    if has_client {
        clients.push(commands)?;
        Ok(clients)
    } else {
        Ok(clients)
    }
}

/// The new script, once all commands are translated.
fn finish(alloc: Global, script: &LegacyScript, going: Going) -> Result<Script, NoMemory>
    ensures value { IfOk result (λ out. out ≡ script_of script.now going) }
    ensures differ { IfOk result (λ out. IsDistinct bytes_eq out.names) }
{
    Ok(Script {
        version: script.base.version,
        topology: script.base.topology.copy(alloc)?,
        names: going.names.into_words(),
        clients: clients_of(alloc, script.client, going.lines)?,
    })
}

/// The script that says by atomic requests what a script with older calls says. Its commands are the plain ones, and for
/// each call the request that `translate` gives of it, at the states that the device of one thread has there, and with what
/// the call's labels name there. A call that is refused by `NO_PLANE`, `NOT_SHOWN` or `FORMAT_CHANGES` leaves no line; one
/// whose request the device will refuse leaves that request. The names are those that occur, in order of first occurrence.
/// After each command the device of one thread, which executes the lines that are left so far, shows on each CRTC what the
/// user of older calls sees there. The script may have more bytes than `parse` reads. The only error is want of memory.
pub fn translate_script(alloc: Global, script: &LegacyScript) -> Result<Script, NoMemory>
    requires { IsWellFormedLegacy script.now }
    ensures translated { IfOk result (IsTranslated script.now) }
    ensures screen { IfOk result (KeepsScreen script.now) }
{
    forms_need_no_names();
    requests_are_read_back();
    let mut going = begin(alloc, &script.base.topology)?;
    pass_all(alloc, script, &mut going)?;
    finish(alloc, script, going)
}

//! Courses on a device of one thread: its commands, each behind what is answered to it, as text of a line for each. A test
//! is a device with its course, so that it has no device in hand: each call on one would make its proof longer.
//!
//! | line | what it says |
//! |---|---|
//! | `made 1000: fence e` | the command is answered so, as a report has it; `early`, `resolve`, `next_move`, `accepts` and `preview` agree |
//! | `NO_OBJECT: atomic 0x0 0 crtc9.ACTIVE=0` | it is refused by the rule with this name, and they agree |
//! | `spans 1 1/1/0: atomic ..` | the request names these CRTCs, and touches these CRTCs, planes and connectors |
//! | `names 1: atomic ..` | what the request asks for names these CRTCs |
//! | `sets 7 200.2=1001: atomic ..` | the request has this user data, and sets these properties of objects, by their ids |
//! | `fences  200=1004, 100=7: atomic ..` | its planes wait for fences with these ids, its CRTCs make labels with these numbers |
//! | `needs crtcs 0/1/1: atomic ..` | with the states of these kinds alone, `check` asks for these objects, or `nothing` |
//! | `next crtcs lock 200: atomic ..` | with them, this object is to be locked, or the request is refused, or `accepted` |
//! | `then: client` | what follows is of the next client |
//!
//! Sets of objects are masks: bit i stands for index i.
ghost use Rattle.std.specs.Prelude.{◌≡◌, IfOk, IsTrue, OnOk};
ghost use Rattle.kms_model.specs.Device.Sound.{IsDevice};
ghost use Rattle.kms_model.specs.Script.WellFormed.{IsFitCommand};
ghost use Rattle.kms_request_tests.specs.Standing.{Stands};

use crate::answers::{all_agree, is_told};
use crate::parts::observe;
use kms_model::{Command, NoMemory, Part, Pattern, Reply, Script, Seq, Topology};
use kms_script::parse;
use kms_serial::Serial;
use std::alloc::Global;
use std::test::Fail;

/// How far a course is: its client, by its number from 1, and how many of the client's commands are done.
#[derive(Drop)]
struct Progress {
    client: u32,
    done: usize,
}

/// Fails with the line that does not hold.
pub(crate) fn holds(is: bool, line: &str) -> Result<(), Fail> {
    if is { Ok(()) } else { Err(Fail::new(line)) }
}

/// The script of a course on a device.
fn script_text(alloc: Global, device: &str, course: &str) -> Result<String, Fail> {
    let mut text = String::from_str(alloc, device)?;
    text.push_str("client\n")?;
    for line in course.lines() {
        let (_, command) = line.split_once(": ").ok_or(line)?;
        text.push_str(command)?;
        text.push('\n')?;
    }
    Ok(text)
}

/// The same, read.
#[tactic(auto, using(crate::proofs::Standing::formed_device))]
fn script_of(alloc: Global, device: &str, course: &str) -> Result<Script, Fail>
    ensures { IfOk result (λ s. IsDevice s.topology) }
{
    let text = script_text(alloc, device, course)?;
    match parse(alloc, text.as_bytes(), Part::Script) {
        Ok(parsed) => Ok(parsed.script),
        Err(_) => Err(Fail::new("a course is a script")),
    }
}

/// The next command of a course.
fn next_command<'a>(script: &'a Script, progress: &mut Progress) -> Option<&'a Command> {
    let client = progress.client.saturating_sub(1) as usize;
    let commands = script.clients.get(client)?;
    let command = commands.get(progress.done)?;
    progress.done = progress.done.saturating_add(1);
    Some(command)
}

/// Whether a device takes a command: no buffer has a pattern of several words, and no request many assignments.
fn is_fit(command: &Command) -> bool
    ensures { IsTrue result → IsFitCommand command.now }
{
    match command {
        Command::Atomic(request) => request.assigns.len() <= 256,
        Command::Buffer { pattern, .. } => matches!(pattern, Pattern::Solid(_)),
        _ => true,
    }
}

/// What a device answers to a client's command.
fn ask(
    alloc: Global,
    topology: &Topology,
    device: &mut Serial,
    client: u32,
    command: &Command,
) -> Result<Reply, Fail>
    requires { Stands topology.now device.old }
    ensures { OnOk result (Stands topology.now device.new) }
{
    if !is_fit(command) || !device.has_room() {
        return Err(Fail::new("the device takes the command"));
    }
    Ok(device.execute(alloc, client, command)?)
}

/// Whether a command is answered as a line says, and each call says so before.
fn is_answered(
    alloc: Global,
    topology: &Topology,
    device: &mut Serial,
    client: u32,
    command: &Command,
    want: &str,
) -> Result<bool, Fail>
    requires { Stands topology.now device.old }
    ensures { OnOk result (Stands topology.now device.new) }
{
    let preview = device.preview(client, command);
    let agree = all_agree(alloc, topology, device, command, &preview)?;
    let reply = ask(alloc, topology, device, client, command)?;
    Ok(agree && reply == preview && is_told(alloc, &reply, want)?)
}

/// Whether what a line says of a command is so.
fn is_so(
    alloc: Global,
    topology: &Topology,
    device: &mut Serial,
    client: u32,
    command: &Command,
    want: &str,
) -> Result<bool, Fail>
    requires { Stands topology.now device.old }
    ensures { OnOk result (Stands topology.now device.new) }
{
    match observe(alloc, topology, device, command, want)? {
        Some(is) => Ok(is),
        None => is_answered(alloc, topology, device, client, command, want),
    }
}

/// Does what a line says, and asserts it.
fn follow_line(
    alloc: Global,
    script: &Script,
    device: &mut Serial,
    progress: &mut Progress,
    line: &str,
) -> Result<(), Fail>
    requires { Stands script.now.topology device.old }
    ensures { OnOk result (Stands script.now.topology device.new) }
{
    let (want, _) = line.split_once(": ").ok_or(line)?;
    if want == "then" {
        progress.client = progress.client.saturating_add(1);
        progress.done = 0;
        return Ok(());
    }
    let command = next_command(script, progress).ok_or(line)?;
    let is = is_so(
        alloc,
        &script.topology,
        device,
        progress.client,
        command,
        want,
    )?;
    holds(is, line)
}

/// Follows a course.
fn follow(alloc: Global, script: &Script, device: &mut Serial, course: &str) -> Result<(), Fail>
    requires { Stands script.now.topology device.old }
{
    let mut progress = Progress { client: 1, done: 0 };
    for line in course.lines() {
        follow_line(alloc, script, device, &mut progress, line)?;
    }
    Ok(())
}

/// A copy of a topology.
fn copy_of(alloc: Global, topology: &Topology) -> Result<Topology, NoMemory>
    ensures { IfOk result (λ t. t ≡ topology.now) }
{
    Ok(Topology {
        profile: topology.profile,
        crtcs: topology.crtcs,
        planes: Seq::from_vec(topology.planes.as_slice().to_vec(alloc)?),
        conns: Seq::from_vec(topology.conns.as_slice().to_vec(alloc)?),
    })
}

/// A device before the first command.
#[tactic(auto, using(crate::proofs::Standing::stands_start))]
fn device_of(alloc: Global, topology: &Topology) -> Result<Serial, NoMemory>
    requires { IsDevice topology.now }
    ensures { IfOk result (Stands topology.now) }
{
    Serial::new(alloc, copy_of(alloc, topology)?)
}

/// Follows the course of a script on a new device.
fn play_script(alloc: Global, script: &Script, course: &str) -> Result<(), Fail>
    requires { IsDevice script.now.topology }
{
    let mut device = device_of(alloc, &script.topology)?;
    follow(alloc, script, &mut device, course)
}

/// Follows a course on a new device.
fn play_text(alloc: Global, device: &str, course: &str) -> Result<(), Fail> {
    let script = script_of(alloc, device, course)?;
    play_script(alloc, &script, course)
}

/// Follows a course, of some pieces, on a new device of these lines.
pub(crate) fn play(rt: &impl AllocGlobal, device: &str, pieces: &[&str]) -> Result<(), Fail> {
    let alloc = rt.alloc();
    let mut course = String::new(alloc);
    for piece in pieces {
        course.push_str(piece)?;
    }
    play_text(alloc, device, course.as_str())
}

//! A run: players in threads execute a script on one device.
ghost use Rattle.std.specs.Prelude.{◌≡◌, ◌≤◌, IfOk, map, All};
ghost use Rattle.kms_model.specs.Script.WellFormed.{IsWellFormed};
ghost use Rattle.kms_players.specs.Players.{name_of_pass};
ghost use Rattle.kms_run.specs.Answers.{Answers, IsReportOf};
ghost use Rattle.kms_run.specs.Running.{AreAllPasses, IsFinishedOf, IsRunOf, IsSeat, player_of, seats_for};
ghost use Rattle.kms_run.specs.Words.{AreFewThreads, run_execution};

use crate::answers::{FullReport, NoAnswer, full_report};
use crate::words::{Action, Execution, ThreadedRun};
use kms_core::Core;
use kms_device::{Device, Pass};
use kms_io::Gate;
use kms_model::{NoMemory, Part, Script, Seq, Step};
use kms_one_thread::finish;
use kms_players::{AnyPlayer, Client, VblankTick, Worker};
use kms_pool::{Player, drive};
use kms_report::SeveralThreads;
use kms_script::parse;
use std::alloc::Global;
use std::sync::Wait;
use std::thread::Threads;

/// How many workers a run has.
const WORKERS: u32 = 4;

/// How many players a script has: its clients, the workers, and one for each CRTC.
fn seats_for(script: &Script) -> u32
    requires { IsWellFormed script.now }
    ensures exact { result ≡ seats_for script.now }
    ensures few { result ≤ 24 }
{
    script.clients.len() as u32 + WORKERS + script.topology.crtcs
}

/// The player of a pass, by its rank: first each client, in order of number, then the workers, then a player for the
/// vblanks of each CRTC.
fn player<'a, G: Gate>(device: &'a Device, gate: &'a G, pass: Pass) -> AnyPlayer<'a, G>
    requires formed { IsWellFormed device.now.script }
    requires seat { IsSeat device.now pass }
    ensures { result ≡ player_of device.now pass }
{
    let clients = device.script().clients.len() as u32;
    let rank = pass.rank();
    if rank <= clients {
        AnyPlayer::Client(Client::new(device, gate, rank, pass))
    } else if rank <= clients + WORKERS {
        AnyPlayer::Worker(Worker::new(device, gate, rank - clients - 1, pass))
    } else {
        let crtc = rank - clients - WORKERS - 1;
        AnyPlayer::Vblank(VblankTick::new(device, gate, crtc, pass))
    }
}

/// The players of all passes, in their order.
fn players<'a, G: Gate>(
    alloc: Global,
    device: &'a Device,
    gate: &'a G,
    passes: Seq<Pass>,
) -> Result<Seq<AnyPlayer<'a, G>>, NoMemory>
    requires formed { IsWellFormed device.now.script }
    requires seats { All (IsSeat device.now) passes }
    ensures { IfOk result (λ players. players ≡ map (player_of device.now) passes) }
{
    let passes = passes.into_vec();
    let mut players = Vec::with_capacity(alloc, passes.len())?;
    for pass in passes {
        players.push(player(device, gate, pass))?;
    }
    Ok(Seq::from_vec(players))
}

/// The passes of players, in their order.
fn passes_of<'a, G: Gate>(
    alloc: Global,
    players: Seq<AnyPlayer<'a, G>>,
) -> Result<Seq<Pass>, NoMemory>
    ensures { IfOk result (λ passes.
        map name_of_pass passes ≡ map ⟦<AnyPlayer<'a, G> as Player>⟧.name players.entry) }
{
    let players = players.into_vec();
    let mut passes = Vec::with_capacity(alloc, players.len())?;
    for player in players {
        passes.push(player.into_pass())?;
    }
    Ok(Seq::from_vec(passes))
}

/// Closes a device with all its passes, in any order, and continues its history to its end.
fn close_and_finish(alloc: Global, device: Device, passes: Seq<Pass>) -> Result<Core, NoMemory>
    requires all { AreAllPasses device passes }
    requires some { 1 ≤ device.seats }
    ensures { IfOk result (IsFinishedOf device passes) }
{
    let mut core = device.close(passes);
    core.is_a_history();
    finish(alloc, &mut core)?;
    Ok(core)
}

/// Lets players in threads execute a script on its device until they rest, and continues the history to its end.
fn run_to_end<R: Threads + Wait + Sync, G: Gate + Sync>(
    rt: &R,
    alloc: Global,
    script: Script,
    threads: u32,
    gate: &G,
) -> Result<Core, NoMemory>
    requires formed { IsWellFormed script }
    requires threads { AreFewThreads threads }
    ensures { IfOk result (IsRunOf script) }
{
    let seats = seats_for(&script);
    let (device, passes) = Device::new(alloc, script, seats)?;
    let players = players(alloc, &device, gate, passes)?;
    let players = drive(rt, alloc, players, threads)?;
    let passes = passes_of(alloc, players)?;
    close_and_finish(alloc, device, passes)
}

/// Runs a script by 1 to 16 threads, and reports it. The schedule behind it says nothing here.
fn run_and_report<R: Threads + Wait + Sync, G: Gate + Sync>(
    rt: &R,
    alloc: Global,
    script: Script,
    schedule: &[Step],
    asks: ThreadedRun,
    gate: &G,
) -> Result<FullReport, NoMemory>
    requires formed { IsWellFormed script }
    requires threads { AreFewThreads asks.threads }
    ensures { IfOk result (λ report. IsReportOf (run_execution asks) script schedule.now
        report.ended report.text) }
{
    let ThreadedRun { threads, options } = asks;
    let core = run_to_end(rt, alloc, script, threads, gate)?;
    let asked = Execution {
        action: Action::Run { threads },
        options,
    };
    full_report(&SeveralThreads { rt }, alloc, &core, &asked, schedule)
}

/// The report of a run of the script that an input spells, by 1 to 16 threads; or the input's first fault. The input's bytes
/// are given up before anything is executed. That the threads come to rest is not promised.
pub(crate) fn run_answer<R: Threads + Wait + Sync, G: Gate + Sync>(
    rt: &R,
    alloc: Global,
    input: Vec<u8>,
    asks: ThreadedRun,
    gate: &G,
) -> Result<FullReport, NoAnswer>
    requires { AreFewThreads asks.threads }
    ensures { Answers (run_execution asks) input.items result }
{
    let parsed = parse(alloc, &input, Part::Script)?;
    drop(input);
    let script = parsed.script;
    let steps = parsed.steps.as_slice();
    Ok(run_and_report(rt, alloc, script, steps, asks, gate)?)
}

//! All players, in several threads.
ghost use Rattle.std.specs.Prelude.{◌≡◌, ◌+◌, ◌-◌, ◌≤◌, ◌<◌, [], length, map, All, IfOk, IsTrue, IsPermutation};
ghost use Rattle.crossbeam_queue.specs.Passes.{view, IsPassOf, IsSamePass};
ghost use Rattle.kms_pool.specs.Rules.{ALL_PARTS, hand, HasBrought};
ghost use Rattle.kms_pool.specs.Settled.{AllRest};

use crate::participant::Participant;
use crate::player::Player;
use crate::quiet::Quiet;
use crate::rules::{Brings, OneMore, Queue, QueuePass, Takes, TakesIn};
use crate::work::{put, work};
use kms_model::{NoMemory, Seq};
use std::alloc::Global;
use std::sync::Wait;
use std::thread;
use std::thread::Threads;

/// What one thread has: its pass of the queue, and the result of its work.
#[derive(Drop)]
struct PoolThread<P: Player> {
    pass: QueuePass<P>,
    came: Result<(), NoMemory>,
}

/// Gives the players turns in 1 to 16 threads, until all players have ended, or all that have not ended answered `NotYet`
/// at one length. All players come back, each once, in any order. The only error is want of memory, also in a turn, and
/// then the players are given up. That it returns is not promised.
pub fn drive<P: Player + Send, R: Threads + Wait + Sync>(
    rt: &R,
    alloc: Global,
    players: Seq<P>,
    threads: u32,
) -> Result<Seq<P>, NoMemory>
    requires threads { (0 < threads) × (threads ≤ 16) }
    ensures players { IfOk result (λ r. IsPermutation (map P.name players) (map P.name r)) }
    ensures settled { IfOk result (AllRest P.answer) }
{
    let mut participants = participants_of(alloc, players)?;
    for _ in rt.forever() {
        if all_rest(participants.as_slice()) {
            return players_of(alloc, participants);
        }
        participants = round(rt, alloc, participants, threads)?;
    }
    unreachable!()
}

/// The participants of players that have had no turn here.
fn participants_of<P: Player>(
    alloc: Global,
    players: Seq<P>,
) -> Result<Vec<Participant<P>>, NoMemory>
    ensures { IfOk result (λ v. map (λ x. x.player.value) v.items ≡ players) }
{
    let players = players.into_vec();
    let mut participants = Vec::with_capacity(alloc, players.len())?;
    for player in players {
        participants.push(Participant::new(alloc, player)?)?;
    }
    Ok(participants)
}

/// The players of participants.
fn players_of<P: Player>(
    alloc: Global,
    participants: Vec<Participant<P>>,
) -> Result<Seq<P>, NoMemory>
    ensures { IfOk result (λ r. r ≡ map (λ x. x.player.value) participants.items) }
{
    let mut players = Vec::with_capacity(alloc, participants.len())?;
    for participant in participants {
        players.push(Box::into_inner(participant.player))?;
    }
    Ok(Seq::from_vec(players))
}

/// Whether all have ended, or all that have not answered `NotYet` at one length.
fn all_rest<P: Player>(participants: &[Participant<P>]) -> bool
    ensures { IsTrue result → AllRest (λ x. P.answer x.player.value) participants.now }
{
    let length = awaited_length(participants);
    participants
        .iter()
        .all(|participant| participant.rests(length))
}

/// The length at which the first player answered `NotYet`; 0 where there is none.
fn awaited_length<P: Player>(participants: &[Participant<P>]) -> u64 {
    for participant in participants {
        if let Some(length) = participant.awaits() {
            return length;
        }
    }
    0
}

/// Gives turns until nothing comes of as many in a row as there are players, or there is no memory in one.
fn round<P: Player + Send, R: Threads + Wait + Sync>(
    rt: &R,
    alloc: Global,
    participants: Vec<Participant<P>>,
    threads: u32,
) -> Result<Vec<Participant<P>>, NoMemory>
    requires threads { (0 < threads) × (threads ≤ 16) }
    ensures { IfOk result (λ r. IsPermutation
        (map (λ x. P.name x.player.value) participants.items) (map (λ x. P.name x.player.value) r.items)) }
{
    let count = participants.len();
    let (queue, mut pass) = Queue::<P>::ruled(alloc, count.max(1))?;
    bring_all(rt, &queue, &mut pass, participants);
    let mut workers = hire(alloc, &queue, &mut pass, threads)?;
    let quiet = Quiet::new(count as u64);
    run(rt, alloc, &queue, &quiet, workers.as_mut_slice());
    dismiss(&queue, &mut pass, workers)?;
    take_all(rt, alloc, &queue, pass)
}

/// Puts all players into the queue.
fn bring_all<P: Player, W: Wait>(
    rt: &W,
    queue: &Queue<P>,
    pass: &mut QueuePass<P>,
    participants: Vec<Participant<P>>,
)
    requires own { IsPassOf queue.now pass.old }
    requires whole { view pass.old ≡ hand ALL_PARTS [] [] }
    ensures own { IsSamePass pass.old pass.new }
    ensures brought { HasBrought (λ x. P.name x.player.value) (view pass.new) participants.items }
{
    for participant in participants {
        put::<P, Brings, W>(rt, queue, pass, participant);
    }
}

/// Hires workers, each with a pass of its own, which is split off this one.
fn hire<P: Player>(
    alloc: Global,
    queue: &Queue<P>,
    pass: &mut QueuePass<P>,
    threads: u32,
) -> Result<Vec<PoolThread<P>>, NoMemory>
    requires own { IsPassOf queue.now pass.old }
    requires whole { (view pass.old).parts ≡ ALL_PARTS }
    requires few { threads ≤ 16 }
    ensures own { IfOk result (λ _. IsSamePass pass.old pass.new) }
    ensures ready { IfOk result (λ v.
        All (λ w. IsPassOf queue.now w.pass × (view w.pass ≡ hand 1 [] [])) v.items) }
    ensures split { IfOk result (λ v. view pass.new
        ≡ hand (ALL_PARTS - length v.items) (view pass.old).brought (view pass.old).held) }
    ensures all { IfOk result (λ v. length v.items ≡ threads) }
{
    let mut workers = Vec::with_capacity(alloc, threads as usize)?;
    for _ in 0..threads {
        workers.push(PoolThread {
            pass: queue.another::<OneMore>(pass),
            came: Ok(()),
        })?;
    }
    Ok(workers)
}

/// Lets each worker work, in a thread of its own.
fn run<P: Player + Send, R: Threads + Wait + Sync>(
    rt: &R,
    alloc: Global,
    queue: &Queue<P>,
    quiet: &Quiet,
    workers: &mut [PoolThread<P>],
)
    requires some { 0 < length workers.old }
    requires ready { All (λ w.
        IsPassOf queue.now w.pass × (view w.pass ≡ hand 1 [] [])) workers.old }
    ensures ready { All (λ w.
        IsPassOf queue.now w.pass × (view w.pass ≡ hand 1 [] [])) workers.new }
{
    let threads = workers.len();
    thread::for_each_mut(
        rt,
        workers,
        threads,
        &|_, worker: &mut PoolThread<P>|
            requires { IsPassOf queue.now worker.now.pass × (view worker.now.pass ≡ hand 1 [] []) }
            ensures { IsPassOf queue.entry.now worker.exit.now.pass
                × (view worker.exit.now.pass ≡ hand 1 [] []) }
        { worker.came = work(rt, alloc, queue, quiet, &mut worker.pass) },
    );
}

/// Takes the workers' passes in. The error is want of memory in a turn.
fn dismiss<P: Player>(
    queue: &Queue<P>,
    pass: &mut QueuePass<P>,
    workers: Vec<PoolThread<P>>,
) -> Result<(), NoMemory>
    requires own { IsPassOf queue.now pass.old }
    requires some { 0 < (view pass.old).parts }
    requires ready { All (λ w.
        IsPassOf queue.now w.pass × (view w.pass ≡ hand 1 [] [])) workers.items }
    ensures own { IfOk result (λ _. IsSamePass pass.old pass.new) }
    ensures joined { IfOk result (λ _. view pass.new
        ≡ hand ((view pass.old).parts + length workers.items)
        (view pass.old).brought (view pass.old).held) }
{
    for worker in workers {
        worker.came?;
        queue.absorb::<TakesIn>(pass, worker.pass);
    }
    Ok(())
}

/// Takes all players out of the queue.
fn take_all<P: Player, W: Wait>(
    rt: &W,
    alloc: Global,
    queue: &Queue<P>,
    mut pass: QueuePass<P>,
) -> Result<Vec<Participant<P>>, NoMemory>
    requires own { IsPassOf queue.now pass }
    requires whole { ((view pass).parts ≡ ALL_PARTS) × ((view pass).held ≡ []) }
    ensures { IfOk result (λ v.
        IsPermutation (view pass).brought (map (λ x. P.name x.player.value) v.items)) }
{
    let mut participants = Vec::with_capacity(alloc, queue.capacity())?;
    for _ in rt.forever() {
        let Some(participant) = queue.pop_as::<Takes, W>(rt, &mut pass) else {
            return Ok(participants);
        };
        participants.push(participant)?;
    }
    unreachable!()
}

//! What each thread does.
ghost use Rattle.std.specs.Prelude.{◌≡◌, [], IfOk, IsFalse};
ghost use Rattle.crossbeam_queue.specs.Fifo.{Pushes};
ghost use Rattle.crossbeam_queue.specs.Passes.{view, IsPassOf, IsSamePass, ruled_capacity};
ghost use Rattle.kms_pool.specs.Playing.{IsSpared};
ghost use Rattle.kms_pool.specs.Rules.{hand, IsBalanced};

use crate::idle::Idle;
use crate::participant::Participant;
use crate::player::{Player, Turn};
use crate::quiet::Quiet;
use crate::rules::{Hand, PutsBack, Queue, QueuePass, Takes};
use crossbeam_queue::protocol::Outcome;
use kms_model::NoMemory;
use std::alloc::Global;
use std::sync::Wait;
use std::thread::yield_now;

/// How many turns in a row a player has at most, a count.
const IN_A_ROW: u32 = 16;

/// Puts a player into the queue. It tries again where the queue is full, which has room for all.
pub(crate) fn put<P: Player, M: Outcome<Participant<P>, Hand<P::Name>>, W: Wait>(
    rt: &W,
    queue: &Queue<P>,
    pass: &mut QueuePass<P>,
    participant: Participant<P>,
)
    requires own { IsPassOf queue.now pass.old }
    requires rule { Pushes (IsBalanced (λ x. P.name x.player.value)) (ruled_capacity queue.now)
        pass.old.id (view pass.old) participant (M.then (view pass.old) participant) }
    ensures own { IsSamePass pass.old pass.new }
    ensures rule { M.then (view pass.old) participant (view pass.new) }
{
    let mut participant = participant;
    for _ in rt.forever() {
        match queue.try_push_as::<M>(pass, participant) {
            Ok(()) => return,
            Err(back) => participant = back,
        }
        yield_now();
    }
    unreachable!()
}

/// Gives a player turns as long as it does something, and so many at most, unless nothing would come of the first. Tells
/// whether it had one.
fn give_turns<P: Player, W: Wait>(
    rt: &W,
    alloc: Global,
    quiet: &Quiet,
    participant: &mut Participant<P>,
) -> Result<bool, NoMemory>
    ensures name { P.name participant.new.player.value ≡ P.name participant.old.player.value }
    ensures spared { IfOk result (λ had. IsFalse had
        → IsSpared P.answer P.looked participant.old.player.value participant.new.player.value) }
{
    for given in 0..IN_A_ROW {
        let Some(turn) = participant.play(rt, alloc)? else {
            return Ok(0 < given);
        };
        quiet.stir();
        if turn != Turn::Did {
            return Ok(true);
        }
    }
    Ok(true)
}

/// Gives the first player in the queue turns, and puts it back. Tells whether it had one; none where no player is in the
/// queue.
fn step<P: Player, W: Wait>(
    rt: &W,
    alloc: Global,
    queue: &Queue<P>,
    quiet: &Quiet,
    pass: &mut QueuePass<P>,
) -> Option<Result<bool, NoMemory>>
    requires own { IsPassOf queue.now pass.old }
    requires idle { view pass.old ≡ hand 1 [] [] }
    ensures own { IsSamePass pass.old pass.new }
    ensures idle { view pass.new ≡ hand 1 [] [] }
{
    let mut participant = queue.pop_as::<Takes, W>(rt, pass)?;
    let had = give_turns(rt, alloc, quiet, &mut participant);
    put::<P, PutsBack, W>(rt, queue, pass, participant);
    Some(had)
}

/// Gives turns until no player is to have one. The error is want of memory in a turn, and then no other thread begins a
/// turn.
pub(crate) fn work<P: Player, W: Wait>(
    rt: &W,
    alloc: Global,
    queue: &Queue<P>,
    quiet: &Quiet,
    pass: &mut QueuePass<P>,
) -> Result<(), NoMemory>
    requires own { IsPassOf queue.now pass.old }
    requires idle { view pass.old ≡ hand 1 [] [] }
    ensures own { IsSamePass pass.old pass.new }
    ensures idle { view pass.new ≡ hand 1 [] [] }
{
    let mut idle = Idle::new();
    for _ in rt.forever() {
        if quiet.begin(&idle) {
            let had = step(rt, alloc, queue, quiet, pass);
            quiet.end(&had);
            match had {
                Some(Ok(true)) => idle = Idle::new(),
                Some(Ok(false)) => {}
                Some(Err(e)) => return Err(e),
                // There are more threads than players.
                None => quiet.pause(rt, &mut idle),
            }
        } else if quiet.is_over() {
            quiet.wake_sleepers();
            return Ok(());
        } else {
            quiet.pause(rt, &mut idle);
        }
    }
    unreachable!()
}

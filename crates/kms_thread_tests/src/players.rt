//! Players at a device, on one thread.
ghost use Rattle.std.specs.Prelude.{◌≡◌, ◌<◌, length};
ghost use Rattle.kms_histlock.specs.Passes.{new_pass, new_passes};
ghost use Rattle.kms_model.specs.Script.WellFormed.{IsWellFormed};
ghost use Rattle.kms_players.specs.Players.{name_of_pass};
ghost use Rattle.kms_thread_tests.specs.Four.{AreFour};

use crate::gates::{Came, Counter, LIT, WORKER};
use crate::player_texts::TWO;
use kms_core::Core;
use kms_device::{Device, Pass};
use kms_io::Gate;
use kms_model::{NoMemory, Part, Script, Seq};
use kms_players::{Client, VblankTick, Worker};
use kms_pool::{Player, Turn};
use kms_script::parse;
use std::alloc::Global;
use std::process::Abort;
use std::sync::Wait;

/// The script of two clients that a text spells.
fn two(rt: &(impl Abort + AllocGlobal), text: &str) -> Script
    ensures formed { IsWellFormed result }
    ensures clients { length result.clients ≡ 2 }
{
    let Ok(parsed) = parse(rt.alloc(), text.as_bytes(), Part::Script) else {
        panic!(rt; "it is a script")
    };
    assert!(rt; parsed.script.clients.len() == 2, "it has two clients");
    parsed.script
}

/// The passes of the four players.
pub(crate) type Four = (Pass, Pass, Pass, Pass);

/// The passes of a device that has five, in the order of their ranks: the players', and that of who looks on.
fn five(rt: &impl Abort, device: &Device, passes: Seq<Pass>) -> (Four, Pass)
    requires { passes ≡ new_passes device.now.lock 5 }
    ensures one { result.0.0 ≡ new_pass device.now.lock 1 }
    ensures other { result.0.1 ≡ new_pass device.now.lock 2 }
    ensures worker { result.0.2 ≡ new_pass device.now.lock 3 }
    ensures tick { result.0.3 ≡ new_pass device.now.lock 4 }
    ensures looker { result.1 ≡ new_pass device.now.lock 5 }
{
    let mut passes = passes.into_vec();
    let (Some(looker), Some(tick), Some(worker)) = (passes.pop(), passes.pop(), passes.pop()) else {
        panic!(rt; "no passes")
    };
    let (Some(other), Some(one)) = (passes.pop(), passes.pop()) else {
        panic!(rt; "no passes")
    };
    ((one, other, worker, tick), looker)
}

/// A device of two clients, with a pass for each, for a worker and for a vblank player, and one for who looks on.
pub(crate) fn open_device(rt: &(impl Abort + AllocGlobal), text: &str) -> (Device, Four, Pass)
    ensures seats { result.0.seats ≡ 5 }
    ensures clients { length result.0.script.clients ≡ 2 }
    ensures passes { AreFour result.0 result.1 }
    ensures looker { result.2.lock ≡ result.0.lock }
{
    let Ok((device, passes)) = Device::new(rt.alloc(), two(rt, text), 5) else {
        panic!(rt; "there is memory")
    };
    let (passes, looker) = five(rt, &device, passes);
    (device, passes, looker)
}

/// Ends the device, and gives the machine.
fn close_device(rt: &(impl Abort + AllocGlobal), device: Device, passes: Four, looker: Pass) -> Core
    requires seats { device.seats ≡ 5 }
    requires passes { AreFour device passes }
    requires looker { looker.lock ≡ device.lock }
{
    let (one, other, worker, tick) = passes;
    let Ok(passes) = Vec::from_array(rt.alloc(), [one, other, worker, tick, looker]) else {
        panic!(rt; "there is memory")
    };
    device.close(Seq::from_vec(passes))
}

/// Two clients, a worker and a vblank player.
#[derive(Drop)]
struct Players<'a, G: Gate> {
    one: Client<'a, G>,
    other: Client<'a, G>,
    worker: Worker<'a, G>,
    tick: VblankTick<'a, G>,
}

impl<'a, G: Gate> Players<'a, G> {
    ghost use Rattle.std.specs.Prelude.{◌≡◌, length};
    ghost use Rattle.kms_players.specs.Players.{name_of_pass};

    fn new(device: &'a Device, gate: &'a G, passes: Four) -> Players<'a, G>
        requires clients { length device.now.script.clients ≡ 2 }
        requires passes { AreFour device.now passes }
        ensures one { result.one.pass ≡ passes.0 }
        ensures other { result.other.pass ≡ passes.1 }
        ensures worker { result.worker.pass ≡ passes.2 }
        ensures tick { result.tick.pass ≡ passes.3 }
    {
        let (one, other, worker, tick) = passes;
        Players {
            one: Client::new(device, gate, 1, one),
            other: Client::new(device, gate, 2, other),
            worker: Worker::new(device, gate, WORKER, worker),
            tick: VblankTick::new(device, gate, LIT, tick),
        }
    }

    /// A turn of each, one after the other. Tells whether all have ended.
    fn round<W: Wait>(&mut self, rt: &W, alloc: Global) -> Result<bool, NoMemory>
        ensures one { name_of_pass self.new.one.pass ≡ name_of_pass self.old.one.pass }
        ensures other { name_of_pass self.new.other.pass ≡ name_of_pass self.old.other.pass }
        ensures worker { name_of_pass self.new.worker.pass ≡ name_of_pass self.old.worker.pass }
        ensures tick { name_of_pass self.new.tick.pass ≡ name_of_pass self.old.tick.pass }
    {
        let one = self.one.turn(rt, alloc)?;
        let other = self.other.turn(rt, alloc)?;
        let worker = self.worker.turn(rt, alloc)?;
        let tick = self.tick.turn(rt, alloc)?;
        Ok(all_ended(&[one, other, worker, tick]))
    }

    /// Rounds until all have ended, a thousand at most. Tells whether they have.
    fn finish<W: Wait>(&mut self, rt: &W, alloc: Global) -> Result<bool, NoMemory>
        ensures one { name_of_pass self.new.one.pass ≡ name_of_pass self.old.one.pass }
        ensures other { name_of_pass self.new.other.pass ≡ name_of_pass self.old.other.pass }
        ensures worker { name_of_pass self.new.worker.pass ≡ name_of_pass self.old.worker.pass }
        ensures tick { name_of_pass self.new.tick.pass ≡ name_of_pass self.old.tick.pass }
    {
        for _ in 0..1000 {
            if self.round(rt, alloc)? {
                return Ok(true);
            }
        }
        Ok(false)
    }

    /// The passes, when the players are given up.
    fn into_passes(self) -> Four
        ensures one { result.0 ≡ self.entry.one.pass }
        ensures other { result.1 ≡ self.entry.other.pass }
        ensures worker { result.2 ≡ self.entry.worker.pass }
        ensures tick { result.3 ≡ self.entry.tick.pass }
    {
        let Players {
            one,
            other,
            worker,
            tick,
        } = self;
        (
            one.into_pass(),
            other.into_pass(),
            worker.into_pass(),
            tick.into_pass(),
        )
    }
}

/// Whether each player has ended.
fn all_ended(turns: &[Turn]) -> bool {
    turns.iter().all(|turn| *turn == Turn::Ended)
}

/// Asserts that so many have come to a gate.
fn assert_came(rt: &impl Abort, gate: &Counter, wanted: Came, when: &str) {
    assert!(rt; gate.came() == wanted, "{when}");
}

/// Asserts that the players finish, and gives their passes.
pub(crate) fn drain<G: Gate>(
    rt: &(impl Abort + AllocGlobal + Wait),
    device: &Device,
    gate: &G,
    passes: Four,
) -> Four
    requires clients { length device.now.script.clients ≡ 2 }
    requires passes { AreFour device.now passes }
    ensures { AreFour device.now result }
{
    let mut players = Players::new(device, gate, passes);
    let finished = players.finish(rt, rt.alloc());
    assert!(rt; finished == Ok(true), "all have ended");
    players.into_passes()
}

/// Asserts that both clients had all their answers, and came to the gate with each.
fn assert_drained(rt: &impl Abort, core: &Core, gate: &Counter) {
    assert!(rt; core.drained() && core.replies().len() == 10);
    let came = gate.came();
    let wanted = Came {
        answers: 7,
        other_answers: 3,
        strange: 0,
        ..came
    };
    assert_came(rt, gate, wanted, "all have ended");
    assert!(rt; came.checks > 3 && came.claims > 1 && came.ticks > 1);
}

#[test]
fn players_on_one_thread_drain_a_history(rt: HostRuntime) {
    let gate = Counter::new(LIT);
    let (device, passes, looker) = open_device(&rt, TWO);
    let passes = drain(&rt, &device, &gate, passes);
    let core = close_device(&rt, device, passes, looker);
    assert_drained(&rt, &core, &gate);
}

/// The vblank player of a CRTC that is not there does nothing, and comes to the gate. It gives the passes.
fn play_tick(rt: &(impl Abort + Wait), device: &Device, gate: &Counter, passes: Four) -> Four
    requires clients { length device.now.script.clients ≡ 2 }
    requires passes { AreFour device.now passes }
    ensures { AreFour device.now result }
{
    let (one, other, worker, pass) = passes;
    let mut tick = VblankTick::new(device, gate, 2, pass);
    let turn = tick.play(rt);
    assert!(rt; turn != Turn::Did, "nothing ticks");
    (one, other, worker, tick.into_pass())
}

/// Nobody so far.
const NOBODY: Came = Came {
    checks: 0,
    answers: 0,
    other_answers: 0,
    claims: 0,
    ticks: 0,
    strange: 0,
};

/// Asserts that nothing was done, and that the vblank player came to the gate once.
fn assert_ticked(rt: &impl Abort, core: &Core, gate: &Counter) {
    assert!(rt; core.history().is_empty());
    let wanted = Came { ticks: 1, ..NOBODY };
    assert_came(rt, gate, wanted, "it ticked");
}

#[test]
fn what_ticks_comes_to_the_gate_with_its_crtc(rt: HostRuntime) {
    let gate = Counter::new(2);
    let (device, passes, looker) = open_device(&rt, TWO);
    let passes = play_tick(&rt, &device, &gate, passes);
    let core = close_device(&rt, device, passes, looker);
    assert_ticked(&rt, &core, &gate);
}

/// Twenty turns of a client, with which the first one commits for the first time.
pub(crate) fn play_on<W: Wait, G: Gate>(
    rt: &W,
    alloc: Global,
    client: &mut Client<'_, G>,
) -> Result<(), NoMemory> {
    for _ in 0..20 {
        let _turn = client.play(rt, alloc)?;
    }
    Ok(())
}

/// Turns of a worker until one does nothing, a hundred at most. Tells how many did something.
fn work<W: Wait>(rt: &W, worker: &mut Worker<'_, Counter>) -> u32 {
    let mut did = 0u32;
    for _ in 0..100 {
        if worker.play(rt) != Turn::Did {
            return did;
        }
        did = did.saturating_add(1);
    }
    did
}

/// Asserts that a worker does something in so many turns, and has come for so many commits then.
fn assert_works(
    rt: &(impl Abort + Wait),
    worker: &mut Worker<'_, Counter>,
    gate: &Counter,
    turns: u32,
    claims: u64,
) {
    let did = work(rt, worker);
    assert!(rt;
        did == turns && gate.came().claims == claims,
        "{turns} turns: {did}"
    );
}

/// Asserts what the worker does once the first client has committed.
fn assert_claims(
    rt: &(impl Abort + AllocGlobal + Wait),
    players: &mut Players<'_, Counter>,
    gate: &Counter,
) {
    let played = play_on(rt, rt.alloc(), &mut players.one);
    assert!(rt; played.is_ok() && gate.came().claims == 0);
    // the claim, two writes, the flush, and that they are done; the clean-up has to wait
    assert_works(rt, &mut players.worker, gate, 5, 1);
    let turn = players.tick.play(rt);
    assert!(rt; turn == Turn::Did && gate.came().claims == 1);
    // the clean-up, and then nothing is there to claim
    assert_works(rt, &mut players.worker, gate, 1, 2);
}

#[test]
fn a_worker_claims_no_commit_while_it_has_one(rt: HostRuntime) {
    let gate = Counter::new(LIT);
    let (device, passes, _looker) = open_device(&rt, TWO);
    let mut players = Players::new(&device, &gate, passes);
    assert_claims(&rt, &mut players, &gate);
}

//! A gate that looks at the device when it is called.
ghost use Rattle.std.specs.Prelude.{◌≡◌, length};
ghost use Rattle.kms_histlock.specs.Passes.{IsSamePass};

use crate::gates::LIT;
use crate::pass_calls::make;
use crate::player_texts::{CLOSING, MEETING, TWO};
use crate::players::{drain, open_device, play_on};
use kms_device::{Device, Pass};
use kms_io::{Gate, Point};
use kms_model::{NoMemory, Reply};
use kms_players::Client;
use std::alloc::Global;
use std::cell::RefCell;
use std::marker::Model;
use std::process::Abort;
use std::sync::Wait;

/// Who sits at a device, and what was written down there.
#[derive(Drop)]
struct Watcher<'a> {
    device: &'a Device,
    pass: Pass,
    alloc: Global,
    seen: String,
}

impl<'a> Model for Watcher<'a> {
    ghost use Rattle.std.specs.Prelude.{◌≡◌};
    ghost use Rattle.kms_device.specs.Turns.{SharedDevice};

    ghost Value = { SharedDevice };

    ghost view = { λ w. w.device.now };

    ghost invariant = { λ w. w.pass.lock ≡ w.device.now.lock };
}

impl<'a> Watcher<'a> {
    /// Writes down who comes where, how long the history is, and how many vblanks the lit CRTC had. The vblank player comes last in a
    /// round, and ends the line.
    fn look(&mut self, point: Point, a: u32, b: u32) -> Result<(), NoMemory> {
        let length = self.device.history_len(&mut self.pass);
        let vblanks = self.device.vblank_count(&mut self.pass, LIT);
        let name = name(point);
        let end = if point == Point::Vblank { "\n" } else { ", " };
        write!(self.seen, "{name} {a} {b}: {length} {vblanks}{end}")?;
        Ok(())
    }

    /// Makes the step at which the client of the seat stands, where it has one there that makes or closes a thing.
    fn go_on<W: Wait>(&mut self, rt: &W) -> Result<(), NoMemory> {
        let _reply = make(rt, self.alloc, self.device, &mut self.pass)?;
        Ok(())
    }
}

/// The word for a point.
fn name(point: Point) -> &'static str {
    match point {
        Point::Check => "check",
        Point::Answered => "answered",
        Point::Claim => "claim",
        Point::Vblank => "vblank",
    }
}

/// A gate that holds nobody. Each time that it is called a watcher looks, and at a check the client of the watcher's seat goes on.
#[derive(Drop)]
struct Watch<'a> {
    watcher: RefCell<Watcher<'a>>,
}

impl<'a> Watch<'a> {
    fn new(alloc: Global, device: &'a Device, pass: Pass) -> Watch<'a>
        requires { pass.lock ≡ device.now.lock }
    {
        let watcher = Watcher {
            device,
            pass,
            alloc,
            seen: String::new(alloc),
        };
        Watch {
            watcher: RefCell::new(watcher),
        }
    }

    /// What was written down.
    fn into_seen(self) -> String {
        self.watcher.into_inner().seen
    }
}

impl<'a> Gate for Watch<'a> {
    /// What there is no memory for is not written down.
    fn at<R: Wait>(&self, rt: &R, point: Point, a: u32, b: u32) {
        let Ok(mut watcher) = self.watcher.try_borrow_mut() else {
            return;
        };
        let _ = watcher.look(point, a, b);
        if point == Point::Check {
            let _ = watcher.go_on(rt);
        }
    }
}

/// Asserts that this was written down.
fn assert_seen(rt: &impl Abort, gate: Watch<'_>, wanted: &str) {
    let seen = gate.into_seen();
    assert!(rt; seen.as_str() == wanted, "{seen}");
}

/// What is seen of the two clients of [`TWO`] from a seat of no client, a line for each round. Behind the colon stand the length of
/// the history and the number of vblanks. An answer is that of the step before; a check, a claim and a vblank are followed by their
/// step, if any.
const ROUNDS: &str = concat!(
    "answered 1 1: 1 0, answered 2 1: 2 0, claim 3 0: 2 0, vblank 1 0: 2 0\n",
    "answered 1 2: 3 0, claim 3 0: 4 0, vblank 1 0: 4 0\n",
    // a lock and the test of the second client
    "answered 1 3: 5 0, check 2 2: 5 0, claim 3 0: 6 0, vblank 1 0: 6 0\n",
    "answered 1 4: 7 0, check 2 2: 7 0, answered 2 2: 8 0, claim 3 0: 8 0, vblank 1 0: 8 0\n",
    // the first client begins, the second signals
    "answered 2 3: 10 0, claim 3 0: 10 0, vblank 1 0: 10 0\n",
    // three locks and the swap, which is claimed
    "check 1 5: 10 0, claim 3 0: 11 0, vblank 1 0: 11 0\n",
    "check 1 5: 11 0, claim 3 0: 12 0, vblank 1 0: 12 0\n",
    "check 1 5: 12 0, claim 3 0: 13 0, vblank 1 0: 13 0\n",
    "check 1 5: 13 0, answered 1 5: 14 0, claim 3 0: 14 0, vblank 1 0: 15 0\n",
    // two writes, the flush and the vblank, that it is done, the clean-up
    "vblank 1 0: 16 0\n",
    "vblank 1 0: 17 0\n",
    "vblank 1 0: 18 0\n",
    "vblank 1 0: 20 1\n",
    "vblank 1 0: 21 1\n",
    // the first client returns, and begins
    "claim 3 0: 22 1, vblank 1 0: 22 1\n",
    "claim 3 0: 23 1, vblank 1 0: 23 1\n",
    // two locks and the swap, which is claimed
    "check 1 6: 23 1, claim 3 0: 24 1, vblank 1 0: 24 1\n",
    "check 1 6: 24 1, claim 3 0: 25 1, vblank 1 0: 25 1\n",
    "check 1 6: 25 1, answered 1 6: 26 1, claim 3 0: 26 1, vblank 1 0: 27 1\n",
    // two writes, the flush and the vblank, that it is done, the clean-up
    "vblank 1 0: 28 1\n",
    "vblank 1 0: 29 1\n",
    "vblank 1 0: 30 1\n",
    "vblank 1 0: 32 2\n",
    "vblank 1 0: 33 2\n",
    // the first client returns, and reads the event
    "claim 3 0: 34 2, vblank 1 0: 34 2\n",
    "answered 1 7: 35 2, claim 3 0: 35 2, vblank 1 0: 35 2\n",
    "claim 3 0: 35 2, vblank 1 0: 35 2\n",
);

/// What is seen of the two clients of [`MEETING`]. Where the second one gives its lock up and asks again for the other, it comes to no
/// check.
const MEETING_ROUNDS: &str = concat!(
    "claim 3 0: 2 0, vblank 1 0: 2 0\n",
    // a lock each; then the second one's, for which it must back off
    "check 1 1: 2 0, check 2 1: 3 0, claim 3 0: 4 0, vblank 1 0: 4 0\n",
    "check 1 1: 4 0, check 2 1: 5 0, claim 3 0: 6 0, vblank 1 0: 6 0\n",
    // it backs off, asks again in vain, and once more behind the first one's test
    "check 1 1: 6 0, claim 3 0: 8 0, vblank 1 0: 8 0\n",
    "check 1 1: 8 0, claim 3 0: 9 0, vblank 1 0: 9 0\n",
    "check 1 1: 9 0, answered 1 1: 10 0, claim 3 0: 11 0, vblank 1 0: 11 0\n",
    // its other lock, and its test
    "check 2 1: 11 0, claim 3 0: 12 0, vblank 1 0: 12 0\n",
    "check 2 1: 12 0, answered 2 1: 13 0, claim 3 0: 13 0, vblank 1 0: 13 0\n",
    "claim 3 0: 13 0, vblank 1 0: 13 0\n",
);

/// Asserts that this is seen in the rounds of the two clients of a script.
fn assert_rounds(rt: &(impl Abort + AllocGlobal + Wait), text: &str, rounds: &str) {
    let (device, passes, looker) = open_device(rt, text);
    let gate = Watch::new(rt.alloc(), &device, looker);
    let _passes = drain(rt, &device, &gate, passes);
    assert_seen(rt, gate, rounds);
}

#[test]
fn a_gate_is_called_at_the_moments_it_is_for(rt: HostRuntime) {
    assert_rounds(&rt, TWO, ROUNDS);
}

#[test]
fn a_client_that_asks_again_comes_to_no_check(rt: HostRuntime) {
    assert_rounds(&rt, MEETING, MEETING_ROUNDS);
}

/// The second client makes its buffer and its framebuffer.
fn make_both(rt: &(impl Abort + AllocGlobal + Wait), device: &Device, pass: &mut Pass)
    requires own { pass.old.lock ≡ device.now.lock }
    ensures same { IsSamePass pass.old pass.new }
{
    let buffer = make(rt, rt.alloc(), device, pass);
    let framebuffer = make(rt, rt.alloc(), device, pass);
    let made = |id| Ok(Some(Reply::Made { id }));
    assert!(rt; buffer == made(1000) && framebuffer == made(1001));
}

/// Turns of the first of two clients, until it has ended.
fn play(rt: &(impl Abort + AllocGlobal + Wait), device: &Device, gate: &Watch<'_>, pass: Pass)
    requires own { pass.lock ≡ device.now.lock }
    requires first { pass.rank ≡ 1 }
    requires clients { length device.now.script.clients ≡ 2 }
{
    let mut client = Client::new(device, gate, 1, pass);
    let played = play_on(rt, rt.alloc(), &mut client);
    assert!(rt; played.is_ok(), "there is memory");
}

/// What the first client's request names is closed at the gate before its first check, which finds that and refuses it.
#[test]
fn a_check_sees_what_was_done_at_its_gate(rt: HostRuntime) {
    let (device, (one, mut other, _worker, _tick), _looker) = open_device(&rt, CLOSING);
    make_both(&rt, &device, &mut other);
    let gate = Watch::new(rt.alloc(), &device, other);
    play(&rt, &device, &gate, one);
    assert_seen(
        &rt,
        gate,
        "answered 1 1: 3 0, check 1 2: 4 0, answered 1 2: 6 0, ",
    );
}

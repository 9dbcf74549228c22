//! Which threads of a round are at work, and when all stop.
use crate::idle::Idle;
use kms_model::NoMemory;
use std::sync::Wait;
use std::sync::atomic::{AtomicBool, AtomicU64, Ordering};
use std::thread::yield_now;

/// How many threads look for players and give turns at a time, a count, unless those that do are held. Turns are mostly under
/// one lock, so that more threads would wait for one another.
const AT_WORK: u64 = 2;

/// How many threads are at the queue or in a turn, and how many players in a row were to have no turn. It only saves
/// turns: whether the players have settled is asked of their answers, once no thread is at work.
#[derive(Drop)]
pub(crate) struct Quiet {
    going: AtomicU64,
    in_a_row: AtomicU64,
    enough: u64,
    // How many turns have ended.
    turns_ended: AtomicU64,
    stopped: AtomicBool,
    // Threads sleep on it. It is 1 once the round is over.
    sleepers: AtomicU64,
}

impl Quiet {
    /// It is quiet once so many players in a row, a count, were to have no turn.
    pub(crate) fn new(enough: u64) -> Quiet {
        Quiet {
            going: AtomicU64::new(0),
            in_a_row: AtomicU64::new(0),
            enough,
            turns_ended: AtomicU64::new(0),
            stopped: AtomicBool::new(false),
            sleepers: AtomicU64::new(0),
        }
    }

    /// Whether no player is to be looked for now.
    fn is_quiet(&self) -> bool {
        self.in_a_row.load(Ordering::SeqCst) >= self.enough || self.stopped.load(Ordering::SeqCst)
    }

    /// Whether a thread may look for players beside so many, a count. Where it has slept and no turn has ended, they are held.
    fn has_room(&self, going: u64, idle: &Idle) -> bool {
        going < AT_WORK || idle.slept_through(self.turns_ended.load(Ordering::SeqCst))
    }

    /// Whether a thread may look for players beside so many, a count, and there may be some that are to have a turn.
    fn has_work(&self, going: u64, idle: &Idle) -> bool {
        !self.is_quiet() && self.has_room(going, idle)
    }

    /// Begins to look for a player. False where none is to be looked for now: none had a turn, one after the other, or enough
    /// threads look for one.
    pub(crate) fn begin(&self, idle: &Idle) -> bool {
        if !self.has_work(self.going.load(Ordering::SeqCst), idle) {
            return false;
        }
        let going = self.going.fetch_add(1, Ordering::SeqCst);
        // Another thread may have begun, or told of the last one in between, and then some may have gone home already.
        if !self.has_work(going, idle) {
            self.going.fetch_sub(1, Ordering::SeqCst);
            return false;
        }
        true
    }

    /// Tells that a player had a turn. What it came to does not matter: where it came to nothing it may have begun at an
    /// earlier history, so that all are looked at again behind it.
    pub(crate) fn stir(&self) {
        self.in_a_row.store(0, Ordering::SeqCst);
        self.turns_ended.fetch_add(1, Ordering::SeqCst);
    }

    /// Ends what was begun: whether the player had a turn, if one was found. Without memory no further turn begins.
    pub(crate) fn end(&self, had: &Option<Result<bool, NoMemory>>) {
        match had {
            Some(Ok(false)) => {
                self.in_a_row.fetch_add(1, Ordering::SeqCst);
            }
            Some(Err(_)) => self.stopped.store(true, Ordering::SeqCst),
            _ => {}
        }
        self.going.fetch_sub(1, Ordering::SeqCst);
    }

    /// Lets some time go by for a thread that is not to look for a player, or found none. Where there is room for it, it yields
    /// at first. Where that goes on, or there is no room, it sleeps, for longer each time, or until the round is over.
    pub(crate) fn pause<W: Wait>(&self, rt: &W, idle: &mut Idle) {
        if self.going.load(Ordering::SeqCst) < AT_WORK && idle.yields() {
            yield_now();
        } else {
            let sleep = idle.begin_sleep(self.turns_ended.load(Ordering::SeqCst));
            self.sleepers.park_timeout(rt, 0, sleep);
        }
    }

    /// Whether no player is to be looked for, and no thread is in a turn that may change this.
    pub(crate) fn is_over(&self) -> bool {
        self.going.load(Ordering::SeqCst) == 0 && self.is_quiet()
    }

    /// Wakes all threads that sleep, once the round is over.
    pub(crate) fn wake_sleepers(&self) {
        self.sleepers.store(1, Ordering::SeqCst);
        self.sleepers.wake_all();
    }
}

//! A gate that counts who comes.
use kms_io::{Gate, Point};
use std::sync::Wait;
use std::sync::atomic::{AtomicU64, Ordering};

/// The number of the worker.
pub(crate) const WORKER: u32 = 3;

/// The index of the CRTC that is lit.
pub(crate) const LIT: u32 = 1;

/// A gate that holds nobody, and counts who comes, and who comes with other numbers than its own.
#[derive(Drop)]
pub(crate) struct Counter {
    // The CRTC for which it ticks.
    crtc: u32,
    checks: AtomicU64,
    answers: AtomicU64,
    other_answers: AtomicU64,
    claims: AtomicU64,
    ticks: AtomicU64,
    strange: AtomicU64,
}

/// How many have come so far.
#[derive(Clone, Copy, PartialEq, Eq)]
pub(crate) struct Came {
    /// Clients to a check.
    pub(crate) checks: u64,
    /// The first client with an answer.
    pub(crate) answers: u64,
    /// The second one.
    pub(crate) other_answers: u64,
    /// Workers for a commit.
    pub(crate) claims: u64,
    /// A vblank player.
    pub(crate) ticks: u64,
    /// Any with numbers that are not theirs.
    pub(crate) strange: u64,
}

/// Counts one of these. Tells how many there are then.
fn one_more(counted: &AtomicU64) -> u64 {
    counted.fetch_add(1, Ordering::SeqCst).saturating_add(1)
}

/// How many were counted.
fn count(counted: &AtomicU64) -> u64 {
    counted.load(Ordering::SeqCst)
}

impl Counter {
    pub(crate) fn new(crtc: u32) -> Counter {
        Counter {
            crtc,
            checks: AtomicU64::new(0),
            answers: AtomicU64::new(0),
            other_answers: AtomicU64::new(0),
            claims: AtomicU64::new(0),
            ticks: AtomicU64::new(0),
            strange: AtomicU64::new(0),
        }
    }

    /// How many have come so far.
    pub(crate) fn came(&self) -> Came {
        Came {
            checks: count(&self.checks),
            answers: count(&self.answers),
            other_answers: count(&self.other_answers),
            claims: count(&self.claims),
            ticks: count(&self.ticks),
            strange: count(&self.strange),
        }
    }

    /// Counts a check, by how many answers its client has had. Tells whether it is of the next command, whose number is `command`.
    fn check(&self, answers: &AtomicU64, command: u32) -> bool {
        one_more(&self.checks);
        count(answers).saturating_add(1) == u64::from(command)
    }
}

impl Gate for Counter {
    /// A client comes to a check with its number and that of the command behind the last answered one, and with each answer
    /// with the number of the command that it answers; a worker with its number, and a vblank player with the index of its CRTC.
    fn at<R: Wait>(&self, _rt: &R, point: Point, a: u32, b: u32) {
        let expected = match (point, a) {
            (Point::Check, 1) => self.check(&self.answers, b),
            (Point::Check, 2) => self.check(&self.other_answers, b),
            (Point::Answered, 1) => one_more(&self.answers) == u64::from(b),
            (Point::Answered, 2) => one_more(&self.other_answers) == u64::from(b),
            (Point::Claim, WORKER) => {
                one_more(&self.claims);
                b == 0
            }
            (Point::Vblank, _) => {
                one_more(&self.ticks);
                a == self.crtc && b == 0
            }
            _ => false,
        };
        if !expected {
            one_more(&self.strange);
        }
    }
}

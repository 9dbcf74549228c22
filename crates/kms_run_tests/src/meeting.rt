//! Two clients in threads that meet at a gate.
use crate::asserting::{sink, source, words};
use crate::texts::TWO_SCREENS;
use kms_io::{Gate, Point};
use kms_run::{Status, kms_main};
use std::sync::Wait;
use std::sync::atomic::{AtomicBool, Ordering};
use std::test::Fail;
use std::thread::yield_now;

/// How many turns of waiting a hold lasts at most.
const MOST_TURNS: u32 = 100_000_000;

/// Holds the second client's first check until the first client's first check has come, and that one until the second
/// client's first request is answered. So neither client can have its commands executed behind those of the other.
#[derive(Drop)]
struct Meeting {
    first_check: AtomicBool,
    second_check: AtomicBool,
    second_answer: AtomicBool,
    given_up: AtomicBool,
}

impl Meeting {
    fn new() -> Meeting {
        Meeting {
            first_check: AtomicBool::new(false),
            second_check: AtomicBool::new(false),
            second_answer: AtomicBool::new(false),
            given_up: AtomicBool::new(false),
        }
    }

    /// Holds a client whose check has come for the first time, until something else has.
    fn hold(&self, come: &AtomicBool, until: &AtomicBool) {
        if come.load(Ordering::SeqCst) {
            return;
        }
        come.store(true, Ordering::SeqCst);
        for _ in 0..MOST_TURNS {
            if until.load(Ordering::SeqCst) {
                return;
            }
            yield_now();
        }
        self.given_up.store(true, Ordering::SeqCst);
    }
}

impl Gate for Meeting {
    fn at<R: Wait>(&self, _rt: &R, point: Point, client: u32, command: u32) {
        match (point, client) {
            (Point::Check, 1) => self.hold(&self.first_check, &self.second_answer),
            (Point::Check, 2) => self.hold(&self.second_check, &self.first_check),
            (Point::Answered, 2) if command == 4 => {
                self.second_answer.store(true, Ordering::SeqCst)
            }
            _ => {}
        }
    }
}

/// Two clients in threads are both at their requests at one time.
#[test]
fn clients_meet_at_their_checks(rt: HostRuntime) -> Result<(), Fail> {
    let alloc = rt.alloc();
    let gate = Meeting::new();
    let mut source = source(alloc, TWO_SCREENS, 4096, &[])?;
    let mut sink = sink(alloc, 4096, &[])?;
    let words = words(alloc, &["run", "--threads", "4"])?;
    let status = kms_main(&rt, alloc, &words, &mut source, &mut sink, &gate);
    assert!(rt; status == Status::Ok);
    assert!(rt; gate.first_check.load(Ordering::SeqCst));
    assert!(rt; gate.second_check.load(Ordering::SeqCst));
    assert!(rt; gate.second_answer.load(Ordering::SeqCst));
    assert!(rt; !gate.given_up.load(Ordering::SeqCst));
    Ok(())
}

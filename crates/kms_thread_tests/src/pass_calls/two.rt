//! What a thread drives.
ghost use Rattle.std.specs.Prelude.{◌≡◌};

use crate::pass_calls::turns::commit_and_finish;
use kms_device::{Device, Pass};
use kms_model::NoMemory;
use std::alloc::Global;
use std::sync::Wait;

/// What a thread drives: the passes of two clients. It counts how many of their commits are over.
#[derive(Drop)]
pub struct Two {
    /// The pass of one.
    pub one: Pass,
    /// The pass of the other.
    pub other: Pass,
    /// How many commits are over.
    pub over: u32,
}

impl Two {
    ghost use Rattle.std.specs.Prelude.{◌≡◌};
    ghost use Rattle.kms_thread_tests.specs.Pairs.{AreOf, AreSame};

    /// Two passes by which nothing is over yet.
    pub fn new(one: Pass, other: Pass) -> Two
        ensures one { result.one ≡ one }
        ensures other { result.other ≡ other }
    {
        Two {
            one,
            other,
            over: 0,
        }
    }

    /// The two clients commit in turn, so many times each, until memory runs out.
    pub fn commit<W: Wait>(mut self, rt: &W, alloc: Global, device: &Device, times: u32) -> Two
        requires own { AreOf device.now self }
        ensures same { AreSame self result }
    {
        for _time in 0..times {
            let one = commit_and_finish(rt, alloc, device, &mut self.one);
            let other = commit_and_finish(rt, alloc, device, &mut self.other);
            self.over = self
                .over
                .saturating_add(count(one))
                .saturating_add(count(other));
        }
        self
    }
}

/// How many commits are over by such an answer.
fn count(answer: Result<bool, NoMemory>) -> u32 {
    u32::from(answer == Ok(true))
}

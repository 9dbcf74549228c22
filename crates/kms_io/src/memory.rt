//! A source and a sink in memory, which fail where they are told to.
ghost use Rattle.std.specs.Prelude.{◌≡◌, ◌-◌, ◌<◌, ◌≤◌, ◌↔◌, ◌⊎◌, IsTrue, [], ℕ, List, length, min, drop, IfOk, IsErr, OnErr, Contains, Some, vec_capacity};
ghost use Rattle.std.specs.Io.{ReadsAtMost};
ghost use Rattle.std.specs.Io.KnownBytes.{ReadConsumes, WriteAppends};
ghost use Rattle.kms_io.specs.Causes.{one_more, CountsFault, HasCause};
ghost use Rattle.kms_io.specs.Bytes.{EndsExactly, WritesSome};
ghost use Rattle.kms_io.specs.Memory.{SourceState, SinkState};

use crate::error::NoMemory;
use crate::traits::{Failed, Sink, Source};
use std::alloc::Global;
use std::marker::Model;

/// A source in memory, which tells what is left. A contract sees it as a `SourceState`.
#[derive(Drop)]
pub struct MemSource {
    bytes: Vec<u8>,
    place: usize,
    step: usize,
    fails: Vec<u32>,
    calls: u64,
    faults: u64,
}

impl Model for MemSource {
    ghost Value = { SourceState };

    ghost view = { λ s. record {
      left = drop s.place s.bytes.items;
      step = s.step;
      fails = s.fails.items;
      calls = s.calls;
      faults = s.faults;
    } };

    ghost invariant = { λ s. (s.place ≤ length s.bytes.items) × (0 < s.step) };
}

impl MemSource {
    /// A source of `bytes` that gives at most `step` bytes a call, at least 1, and that fails in the
    /// calls whose numbers, counted from 1, are in `fails`.
    pub fn new(bytes: Vec<u8>, step: usize, fails: Vec<u32>) -> MemSource
        requires { 0 < step }
        ensures { result ≡ record {
          left = bytes.items;
          step = step;
          fails = fails.items;
          calls = 0;
          faults = 0;
        } }
    {
        MemSource {
            bytes,
            place: 0,
            step,
            fails,
            calls: 0,
            faults: 0,
        }
    }
}

impl Source for MemSource {
    ghost left = { λ s. Some s.left };

    ghost faults = { λ s. s.faults };

    /// Gives the least of the step, the length of `into` and what is left. It fails exactly in the calls
    /// that [`MemSource::new`] was told of, and leaves `into` as it was then. A call changes of `into`
    /// only the front that it answers.
    fn read(&mut self, into: &mut [u8]) -> Result<usize, Failed>
        requires { 0 < length into.old }
        ensures bound { ReadsAtMost result into.new }
        ensures bytes { ReadConsumes (Some self.old.left) (Some self.new.left) result into.new }
        ensures end { EndsExactly (Some self.old.left) result }
        ensures cause { HasCause self.old.faults self.new.faults result }

        // What this source promises beyond that.
        ensures count { IfOk result (λ n.
            n ≡ min self.old.step (min (length into.old) (length self.old.left))) }
        ensures behind { IfOk result (λ n. drop n into.new ≡ drop n into.old) }
        ensures fails { IsErr result ↔ Contains self.old.fails (one_more self.old.calls) }
        ensures untouched { OnErr result (into.new ≡ into.old) }
        ensures faults { CountsFault self.old.faults self.new.faults result }
        ensures calls { self.new.calls ≡ one_more self.old.calls }
        ensures same { (self.new.step ≡ self.old.step) × (self.new.fails ≡ self.old.fails) }
    {
        self.calls = self.calls.saturating_add(1);
        if contains(self.fails.as_slice(), self.calls) {
            self.faults = self.faults.saturating_add(1);
            return Err(Failed);
        }
        let left = self.bytes.len() - self.place;
        let count = self.step.min(into.len()).min(left);
        into[..count].copy_from_slice(&self.bytes[self.place..self.place + count]);
        self.place += count;
        Ok(count)
    }
}

/// Whether `number` is among the numbers.
fn contains(numbers: &[u32], number: u64) -> bool
    ensures { IsTrue result ↔ Contains numbers.now number }
{
    numbers.iter().any(|n| u64::from(*n) == number)
}

/// A sink in memory, which tells what was written and takes no memory for it later. A contract sees it
/// as a `SinkState`.
#[derive(Drop)]
pub struct MemSink {
    bytes: Vec<u8>,
    room: usize,
    step: usize,
    fails: Vec<u32>,
    calls: u64,
    faults: u64,
}

impl Model for MemSink {
    ghost Value = { SinkState };

    ghost view = { λ s. record {
      written = s.bytes.items;
      room = s.room;
      step = s.step;
      fails = s.fails.items;
      calls = s.calls;
      faults = s.faults;
    } };

    ghost invariant = { λ s. (length s.bytes.items ≤ s.room) × (s.room ≤ vec_capacity s.bytes)
        × (0 < s.step) };
}

impl MemSink {
    /// An empty sink with room for `room` bytes, whose memory is taken here. It takes at most `step` bytes
    /// a call, at least 1, and fails in the calls whose numbers, counted from 1, are in `fails`, and in
    /// those that find it full.
    pub fn new(
        alloc: Global,
        room: usize,
        step: usize,
        fails: Vec<u32>,
    ) -> Result<MemSink, NoMemory>
        requires { 0 < step }
        ensures { IfOk result (λ s. s ≡ record {
          written = [];
          room = room;
          step = step;
          fails = fails.items;
          calls = 0;
          faults = 0;
        }) }
    {
        Ok(MemSink {
            bytes: Vec::with_capacity(alloc, room)?,
            room,
            step,
            fails,
            calls: 0,
            faults: 0,
        })
    }

    /// The bytes that were written.
    pub fn written(&self) -> &[u8]
        ensures { result.now ≡ self.now.written }
    {
        self.bytes.as_slice()
    }
}

impl Sink for MemSink {
    ghost written = { λ s. Some s.written };

    ghost faults = { λ s. s.faults };

    /// Takes the least of the step, the piece's length and the room that is left. It fails exactly in the
    /// calls that [`MemSink::new`] was told of, and where no room is left.
    fn write(&mut self, piece: &[u8]) -> Result<usize, Failed>
        requires { 0 < length piece.now }
        ensures bound { WritesSome result piece.now }
        ensures bytes { WriteAppends (Some self.old.written) (Some self.new.written)
            result piece.now }
        ensures cause { HasCause self.old.faults self.new.faults result }

        // What this sink promises beyond that.
        ensures count { IfOk result (λ n.
            n ≡ min self.old.step (min (length piece.now)
            (self.old.room - length self.old.written))) }
        ensures fails { IsErr result ↔ (Contains self.old.fails (one_more self.old.calls)
            ⊎ (self.old.room ≤ length self.old.written)) }
        ensures faults { CountsFault self.old.faults self.new.faults result }
        ensures calls { self.new.calls ≡ one_more self.old.calls }
        ensures same { (self.new.room ≡ self.old.room) × (self.new.step ≡ self.old.step)
            × (self.new.fails ≡ self.old.fails) }
    {
        self.calls = self.calls.saturating_add(1);
        let left = self.room - self.bytes.len();
        if left == 0 || contains(self.fails.as_slice(), self.calls) {
            self.faults = self.faults.saturating_add(1);
            return Err(Failed);
        }
        let count = self.step.min(piece.len()).min(left);
        self.bytes.extend_from_slice(&piece[..count]).unwrap();
        Ok(count)
    }
}

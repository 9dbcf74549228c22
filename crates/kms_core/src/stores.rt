//! The stores of the machine: what they stand for, how they grow by what is recorded, and what they tell of a request.
ghost use Rattle.std.specs.Prelude.{◌≡◌, ◌≤◌, IfOk, [], replicate};
ghost use Rattle.kms_model.specs.Script.WellFormed.{IsWellFormed};
ghost use Rattle.kms_signal.specs.Queues.{empty_queue};

mod hindering;
mod looking;
mod records;
mod waiting;

use crate::lists::{Ledger, Log};
pub use hindering::{count_in, late_reply};
use kms_model::{Answered, Duplicates, Latch, NoMemory, Script, Step};
use kms_regs::RegFile;
use kms_signal::{EventQueue, Fences};
use kms_things::{Things, start_states};
use kms_track::Tracker;
use kms_wwlock::Clients;
pub use looking::{Decided, Stale, first_stale, look_ups, taker};
pub use records::{answer, join, make_room, make_spare, make_step_room};
use std::alloc::Global;
use std::marker::Model;
pub use waiting::{next_reply, signal_fence};

/// The stores of the machine. Contracts see its script and its history. The fields are for the modules that do its
/// calls; what the stores stand for holds wherever they are changed.
#[derive(Drop)]
pub struct Stores {
    /// The script.
    pub script: Script,
    /// The steps so far, with room for those that are left of all tails.
    pub steps: Log<Step>,
    /// Where clients stand, and the locks of their contexts.
    pub clients: Clients,
    /// The accepted commands, each by its client and its number, both counted from 1.
    pub journal: Log<(u32, u32)>,
    /// The replies.
    pub replies: Log<Answered>,
    /// The latches, with room for those that are left of all tails.
    pub latches: Log<Latch>,
    /// The things that were made.
    pub things: Things,
    /// The present states of all objects, old and new alike.
    pub present: Duplicates,
    /// The fences.
    pub fences: Fences,
    /// The events of each client of the script.
    pub queues: Vec<EventQueue>,
    /// The commits that are not cleaned, what their tails still need, and which were before them.
    pub tracker: Tracker,
    /// The registers.
    pub registers: RegFile,
    /// The number, counted from 0, of the commit that each CRTC, by its index, latches at its next vblank.
    pub goes: [Option<u32>; 4],
    /// Whether the history was ended.
    pub stalled: bool,
    /// The framebuffers that were freed, each by its label, a number from 0, and its id, with a place for each that is
    /// needed.
    pub freed: Ledger<(u32, u32)>,
}

impl Model for Stores {
    ghost use Rattle.kms_core.specs.Run.{Run};

    ghost Value = { Run };

    ghost use Rattle.kms_core.specs.Insides.{AreStanding, run_in};

    ghost view = { run_in };

    ghost invariant = { AreStanding };
}

impl Stores {
    /// The stores of the machine of a script before its first step. The only error is want of memory.
    pub fn new(alloc: Global, script: Script) -> Result<Stores, NoMemory>
        requires { IsWellFormed script }
        ensures { IfOk result (λ c. c ≡ record { script = script; steps = [] }) }
    {
        let queues = empty_queues(alloc, script.clients.len())?;
        let present = start_states(&script.topology);
        let registers = RegFile::new(&script.topology);
        Ok(Stores {
            script,
            steps: Log::new(alloc),
            clients: Clients::new(alloc),
            journal: Log::new(alloc),
            replies: Log::new(alloc),
            latches: Log::new(alloc),
            things: Things::new(alloc),
            present,
            fences: Fences::new(alloc),
            queues,
            tracker: Tracker::new(alloc),
            registers,
            goes: [None; 4],
            stalled: false,
            freed: Ledger::new(alloc),
        })
    }
}

/// So many queues without events, at most 16.
fn empty_queues(alloc: Global, count: usize) -> Result<Vec<EventQueue>, NoMemory>
    requires { count ≤ 16 }
    ensures { IfOk result (λ queues. queues.items ≡ replicate count empty_queue) }
{
    let mut queues = Vec::new(alloc);
    for _client in 0..count {
        queues.push(EventQueue::new(alloc))?;
    }
    Ok(queues)
}

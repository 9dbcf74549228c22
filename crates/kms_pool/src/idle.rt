//! How a thread waits that finds nothing to do.
use std::time::Duration;

/// How many times in a row it yields before it sleeps, a count.
const YIELDS: u32 = 20;

/// How many microseconds its first sleep takes. Each sleep takes twice as long as the one before it.
const FIRST_SLEEP: u64 = 200;

/// How many microseconds a sleep takes at most.
const LONGEST_SLEEP: u64 = 6_400;

/// What a thread keeps from one look to the next, as long as it gives no turn.
#[derive(Drop)]
pub(crate) struct Idle {
    yields: u32,
    sleep: u64,
    // How many turns of all threads had ended when it last went to sleep; none before that.
    turns_ended: Option<u64>,
}

impl Idle {
    /// A thread that has not waited since it last gave a turn.
    pub(crate) fn new() -> Idle {
        Idle {
            yields: 0,
            sleep: FIRST_SLEEP,
            turns_ended: None,
        }
    }

    /// Whether it yields once more, and does not sleep yet.
    pub(crate) fn yields(&mut self) -> bool {
        if self.yields >= YIELDS {
            return false;
        }
        self.yields += 1;
        true
    }

    /// How long it sleeps now, where so many turns have ended, a count.
    pub(crate) fn begin_sleep(&mut self, turns_ended: u64) -> Duration {
        self.turns_ended = Some(turns_ended);
        let sleep = Duration::from_micros(self.sleep);
        self.sleep = self.sleep.saturating_mul(2).min(LONGEST_SLEEP);
        sleep
    }

    /// Whether no turn has ended since it last went to sleep, where so many have in all, a count.
    pub(crate) fn slept_through(&self, turns_ended: u64) -> bool {
        self.turns_ended == Some(turns_ended)
    }
}

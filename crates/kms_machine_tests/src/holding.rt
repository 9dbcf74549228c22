//! Players whose turns hold their threads until others are in theirs.
ghost use Rattle.std.specs.Prelude.{◌<◌, ◌≤◌};

use kms_model::{NoMemory, Seq};
use kms_pool::{Player, Turn, drive};
use std::alloc::Global;
use std::process::Abort;
use std::sync::Wait;
use std::sync::atomic::{AtomicU64, Ordering};
use std::test::Fail;
use std::thread::{Threads, yield_now};

/// How many times a turn that holds its thread lets others run at most.
const MOST_YIELDS: u32 = 10_000_000;

/// How many turns have begun, and how many were given up before all had.
#[derive(Drop)]
struct Begun {
    turns: AtomicU64,
    given_up: AtomicU64,
}

/// Its one turn lasts until as many turns have begun as there are players.
#[derive(Drop)]
struct Holder<'a> {
    number: u64,
    players: u64,
    begun: &'a Begun,
    last: Option<Turn>,
}

impl<'a> Holder<'a> {
    /// Waits until all turns have begun.
    fn hold(&self) {
        self.begun.turns.fetch_add(1, Ordering::SeqCst);
        for _ in 0..MOST_YIELDS {
            if self.begun.turns.load(Ordering::SeqCst) >= self.players {
                return;
            }
            yield_now();
        }
        self.begun.given_up.fetch_add(1, Ordering::SeqCst);
    }
}

impl<'a> Player for Holder<'a> {
    ghost use Rattle.std.specs.Prelude.{◌≡◌};

    type Name = u64;

    ghost name = { λ h. h.number };

    ghost answer = { λ h. h.last };

    ghost took = { λ before after turn. after.number ≡ before.number };

    ghost looked = { λ before after told. after.number ≡ before.number };

    fn turn<W: Wait>(&mut self, _rt: &W, _alloc: Global) -> Result<Turn, NoMemory> {
        if self.last.is_none() {
            self.hold();
        }
        self.last = Some(Turn::Ended);
        Ok(Turn::Ended)
    }

    fn history_len(&mut self) -> u64 {
        0
    }
}

fn holders<'a>(alloc: Global, begun: &'a Begun, players: u64) -> Result<Seq<Holder<'a>>, NoMemory> {
    let mut holders = Vec::new(alloc);
    for number in 0..players {
        holders.push(Holder {
            number,
            players,
            begun,
            last: None,
        })?;
    }
    Ok(Seq::from_vec(holders))
}

/// Drives so many holders by as many threads: all are in their turns at one time.
fn assert_all_meet<R: Abort + AllocGlobal + Threads + Wait + Sync>(
    rt: &R,
    players: u32,
) -> Result<(), Fail>
    requires { (0 < players) × (players ≤ 16) }
{
    let begun = Begun {
        turns: AtomicU64::new(0),
        given_up: AtomicU64::new(0),
    };
    let holders = holders(rt.alloc(), &begun, u64::from(players))?;
    let back = drive(rt, rt.alloc(), holders, players)?;
    let given_up = begun.given_up.load(Ordering::SeqCst);
    assert!(rt;
        given_up == 0,
        "{given_up} of {players} players did not meet"
    );
    assert!(rt; back.len() == players as usize);
    Ok(())
}

/// As many threads give turns at one time as there are, where each turn waits for all others.
#[test]
fn threads_come_to_those_that_are_held(rt: HostRuntime) -> Result<(), Fail> {
    for players in [2, 3, 8, 16] {
        assert!(rt; 0 < players && players <= 16);
        assert_all_meet(&rt, players)?;
    }
    Ok(())
}

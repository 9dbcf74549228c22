//! Players that count down, in threads.
ghost use Rattle.std.specs.Prelude.{◌≡◌, ◌<◌, ◌≤◌};

use kms_model::{NoMemory, Seq};
use kms_pool::{Player, Turn, drive};
use std::alloc::Global;
use std::process::Abort;
use std::sync::Wait;
use std::sync::atomic::{AtomicU64, Ordering};
use std::test::Fail;
use std::thread::{Threads, yield_now};

// The number of the counter whose turns find no memory.
const WITHOUT_MEMORY: u64 = 99;

// How much all counters have counted, how many turns go on, 2 once two went on at one time, and how many turns came to
// nothing at a count at which the same counter's turn had come to nothing just before.
#[derive(Drop)]
struct Counted {
    sum: AtomicU64,
    going: AtomicU64,
    most: AtomicU64,
    again: AtomicU64,
}

impl Counted {
    fn new() -> Counted {
        Counted {
            sum: AtomicU64::new(0),
            going: AtomicU64::new(0),
            most: AtomicU64::new(0),
            again: AtomicU64::new(0),
        }
    }

    // Notes a turn that came to nothing: whether it did so at the same count just before.
    fn note(&self, again: bool) {
        if again {
            self.again.fetch_add(1, Ordering::SeqCst);
        }
    }
}

// It counts down from `left`, but only where all together have counted at least `from`.
#[derive(Drop)]
struct Counter<'a> {
    number: u64,
    left: u32,
    from: u64,
    counted: &'a Counted,
    last: Option<Turn>,
}

impl<'a> Player for Counter<'a> {
    ghost use Rattle.std.specs.Prelude.{◌≡◌, ◌≤◌};
    ghost use Rattle.kms_pool.specs.declared.player.Turn.{Turn};

    type Name = u64;

    ghost name = { λ c. c.number };

    ghost answer = { λ c. c.last };

    ghost took = { λ before after turn. (after.left ≤ before.left)
        × ((turn ≡ Turn.Ended) → before.left ≡ 0) };

    ghost looked = { λ before after told. after.left ≡ before.left };

    fn turn<W: Wait>(&mut self, _rt: &W, _alloc: Global) -> Result<Turn, NoMemory> {
        if self.number == WITHOUT_MEMORY {
            return Err(NoMemory);
        }
        let turn = self.count();
        self.last = Some(turn);
        Ok(turn)
    }

    fn history_len(&mut self) -> u64 {
        self.counted.sum.load(Ordering::SeqCst)
    }
}

impl<'a> Counter<'a> {
    fn count(&mut self) -> Turn
        ensures number { self.new.number ≡ self.old.number }
        ensures left { self.new.left ≤ self.old.left }
        ensures ended { result ≡ Turn.Ended → self.old.left ≡ 0 }
    {
        let going = self.counted.going.fetch_add(1, Ordering::SeqCst);
        if going == 1 {
            self.counted.most.store(2, Ordering::SeqCst);
        }
        let length = self.counted.sum.load(Ordering::SeqCst);
        let turn = if self.left == 0 {
            Turn::Ended
        } else if length < self.from {
            self.counted
                .note(self.last == Some(Turn::NotYet { length }));
            Turn::NotYet { length }
        } else {
            self.left -= 1;
            self.counted.sum.fetch_add(1, Ordering::SeqCst);
            yield_now();
            Turn::Did
        };
        self.counted.going.fetch_sub(1, Ordering::SeqCst);
        turn
    }
}

fn counters<'a>(
    alloc: Global,
    counted: &'a Counted,
    froms: &[u64],
    left: u32,
) -> Result<Seq<Counter<'a>>, NoMemory> {
    let mut players = Vec::new(alloc);
    for (number, from) in froms.iter().enumerate() {
        players.push(Counter {
            number: number as u64,
            left,
            from: *from,
            counted,
            last: None,
        })?;
    }
    Ok(Seq::from_vec(players))
}

/// A run of counters, and what comes of it.
#[derive(Clone, Copy)]
struct Run<'a> {
    name: &'a str,
    // From which count on each counter counts, and how far.
    froms: &'a [u64],
    left: u32,
    threads: u32,
    // How far all count together; how many end, and how many wait for more; whether two counted at one time.
    sum: u64,
    ended: usize,
    waiting: usize,
    is_shared: bool,
}

// How many counters had this turn last.
fn count_last(counters: &[Counter<'_>], last: Turn) -> usize {
    counters.iter().filter(|c| c.last == Some(last)).count()
}

// Asserts what came of a run.
fn assert_ran(rt: &impl Abort, run: &Run<'_>, back: &[Counter<'_>], counted: &Counted) {
    let length = counted.sum.load(Ordering::SeqCst);
    let ended = count_last(back, Turn::Ended);
    let waiting = count_last(back, Turn::NotYet { length });
    assert!(rt;
        length == run.sum
            && ended == run.ended
            && waiting == run.waiting
            && back.len() == run.froms.len(),
        "{}, {} threads: {length}, {ended} and {waiting}",
        run.name,
        run.threads
    );
    let again = counted.again.load(Ordering::SeqCst);
    assert!(rt; again == 0, "{}: {again} turns for nothing", run.name);
    let shared = counted.most.load(Ordering::SeqCst) == 2;
    assert!(rt; shared || !run.is_shared, "{}", run.name);
}

// Gives counters their turns.
fn assert_run<R: Abort + AllocGlobal + Threads + Wait + Sync>(rt: &R, run: &Run<'_>)
    requires { (0 < run.now.threads) × (run.now.threads ≤ 16) }
{
    let counted = Counted::new();
    let Ok(players) = counters(rt.alloc(), &counted, run.froms, run.left) else {
        panic!(rt; "there is memory")
    };
    let Ok(back) = drive(rt, rt.alloc(), players, run.threads) else {
        panic!(rt; "there is memory")
    };
    assert_ran(rt, run, back.as_slice(), &counted);
}

// Each counter but the first two waits until those before it have counted, so all come to their end.
const ALL_END: Run<'static> = Run {
    name: "all end",
    froms: &[0, 0, 1000, 1000, 3000],
    left: 1000,
    threads: 1,
    sum: 5000,
    ended: 5,
    waiting: 0,
    is_shared: false,
};

// The last two wait for more than the others count.
const TWO_STAY: Run<'static> = Run {
    name: "two stay",
    froms: &[0, 10, 10, 91, 400],
    left: 30,
    threads: 1,
    sum: 90,
    ended: 3,
    waiting: 2,
    is_shared: false,
};

// There may be more threads than players, and no player at all.
const NO_PLAYER: Run<'static> = Run {
    name: "no player",
    froms: &[],
    left: 30,
    threads: 16,
    sum: 0,
    ended: 0,
    waiting: 0,
    is_shared: false,
};

const ONE_PLAYER: Run<'static> = Run {
    name: "one player",
    froms: &[0],
    left: 200,
    threads: 16,
    sum: 200,
    ended: 1,
    waiting: 0,
    is_shared: false,
};

// Four players without anybody to wait for have 8,000 turns in four threads: two of them go on at one time.
const SIDE_BY_SIDE: Run<'static> = Run {
    name: "side by side",
    froms: &[0, 0, 0, 0],
    left: 2000,
    threads: 4,
    sum: 8000,
    ended: 4,
    waiting: 0,
    is_shared: true,
};

// Gives the counters of each of some runs their turns.
fn assert_runs<R: Abort + AllocGlobal + Threads + Wait + Sync>(rt: &R, runs: &[Run<'_>]) {
    for run in runs {
        assert!(rt; 0 < run.threads && run.threads <= 16);
        assert_run(rt, run);
    }
}

#[test]
fn all_players_end(rt: HostRuntime) {
    let in_four = Run {
        threads: 4,
        ..ALL_END
    };
    assert_runs(&rt, &[ALL_END, in_four]);
}

#[test]
fn two_players_stay(rt: HostRuntime) {
    let in_four = Run {
        threads: 4,
        ..TWO_STAY
    };
    assert_runs(&rt, &[TWO_STAY, in_four]);
}

#[test]
fn threads_without_a_player_end(rt: HostRuntime) {
    assert_runs(&rt, &[NO_PLAYER, ONE_PLAYER]);
}

#[test]
fn turns_go_on_side_by_side(rt: HostRuntime) {
    assert_runs(&rt, &[SIDE_BY_SIDE]);
}

// A turn without memory ends the run.
#[test]
fn want_of_memory_is_told(rt: HostRuntime) -> Result<(), Fail> {
    let counted = Counted::new();
    let mut players = counters(rt.alloc(), &counted, &[0, 0, 0], 30)?;
    let last = Counter {
        number: WITHOUT_MEMORY,
        left: 3,
        from: 0,
        counted: &counted,
        last: None,
    };
    players.push(last)?;
    assert!(rt; drive(&rt, rt.alloc(), players, 4).is_err());
    Ok(())
}

//! The lock at work: a notebook behind it, and threads that take turns to write in it.
ghost use Rattle.std.specs.Prelude.{◌≡◌, ◌<◌, ◌^◌, length};
ghost use Rattle.kms_histlock.specs.Passes.{IsSamePass};
ghost use Rattle.kms_histlock.specs.Seats.{Lengthens};

use kms_histlock::{HistLock, Kept, Pass};
use kms_model::Seq;
use std::alloc::Global;
use std::sync::Wait;
use std::test::Fail;
use std::thread::{Threads, join};

/// A note: whose it is, and its number among that owner's.
#[derive(Clone, Copy, PartialEq, Eq)]
struct Note {
    owner: u32,
    number: u32,
}

/// Notes in the order in which they were written, under a title. Its `k`-th number is how many come behind the first `k`.
#[derive(Drop)]
struct Notebook {
    title: u32,
    notes: Seq<Note>,
}

impl Kept for Notebook {
    ghost use Rattle.kms_machine_tests.specs.Beyond.{beyond, beyond-longer};

    type Entry = Note;

    type Fixed = u32;

    ghost entries = { λ n. n.notes };

    ghost owner = { λ e. e.owner };

    ghost counted = { beyond };

    ghost fixed = { λ n. n.title };

    ghost sound = { λ n. n.title < 2 ^ 32 };

    fn shows(&self) {
        let _title = self.title;
    }

    fn length(&self) -> u64 {
        self.notes.len() as u64
    }

    fn count(&self, k: u32) -> u64 {
        (self.notes.len() as u64).saturating_sub(u64::from(k))
    }

    ghost grows = { beyond-longer };
}

impl Notebook {
    fn new(alloc: Global) -> Notebook
        ensures notes { length result.notes ≡ 0 }
        ensures title { result.title ≡ 7 }
    {
        Notebook {
            title: 7,
            notes: Seq::new(alloc),
        }
    }

    // Whether the owner's note before this one lies at `place`. The first note has none before it.
    fn has(&self, owner: u32, number: u32, place: usize) -> bool {
        if number == 0 {
            return true;
        }
        let before = Note {
            owner,
            number: number - 1,
        };
        self.notes.get(place) == Some(&before)
    }

    // Whether the owner's notes with the numbers from 0 on lie at these places, one behind the other.
    fn lie(&self, owner: u32, places: &[usize]) -> bool {
        let mut number = 0u32;
        let mut behind = 0;
        for &place in places {
            if place < behind || self.notes.get(place) != Some(&Note { owner, number }) {
                return false;
            }
            number = number.saturating_add(1);
            behind = place.saturating_add(1);
        }
        true
    }

    // Writes a note, and answers its place. None where there is no memory.
    fn write(&mut self, owner: u32, number: u32) -> Option<usize>
        ensures notes { Lengthens (λ e. e.owner) owner self.old.notes self.new.notes }
        ensures title { self.new.title ≡ self.old.title }
    {
        let place = self.notes.len();
        match self.notes.push(Note { owner, number }) {
            Ok(()) => Some(place),
            Err(_) => None,
        }
    }
}

// One turn: looks for the note before this one where it was left, and writes this one.
fn turn<W: Wait>(
    rt: &W,
    lock: &HistLock<Notebook>,
    pass: &mut Pass<Notebook>,
    number: u32,
    left: usize,
) -> Option<usize>
    requires own { pass.old.lock ≡ lock.now.lock }
    ensures same { IsSamePass pass.old pass.new }
{
    let owner = pass.rank();
    lock.with(
        rt,
        pass,
        |book: &mut Notebook| -> Option<usize>
            ensures notes { Lengthens (λ e. e.owner) owner
                book.entry.now.notes book.exit.now.notes }
            ensures title { book.exit.now.title ≡ book.entry.now.title }
        {
            if book.has(owner, number, left) {
                book.write(owner, number)
            } else {
                None
            }
        },
    )
}

// Reads the title in a turn of its own: it is the one that the notebook had at the start.
fn read_title<W: Wait>(rt: &W, lock: &HistLock<Notebook>, pass: &mut Pass<Notebook>) -> u32
    requires own { pass.old.lock ≡ lock.now.lock }
    ensures title { result ≡ lock.now.fixed }
    ensures same { IsSamePass pass.old pass.new }
{
    lock.with(
        rt,
        pass,
        |book: &mut Notebook| -> u32
            ensures title { result ≡ book.entry.now.title }
            ensures notes { book.exit.now ≡ book.entry.now }
        { book.title },
    )
}

// What a thread hands back: its pass, and the places of its notes in the order in which it wrote them.
#[derive(Drop)]
struct Worked {
    pass: Pass<Notebook>,
    places: Vec<usize>,
}

// Takes `turns` turns, and reads the length and a count after each. It stops at the first that does not go well.
fn work<W: Wait>(
    rt: &W,
    alloc: Global,
    lock: &HistLock<Notebook>,
    mut pass: Pass<Notebook>,
    turns: u32,
) -> Worked
    requires own { pass.lock ≡ lock.now.lock }
    ensures same { IsSamePass pass result.pass }
{
    let mut places = Vec::new(alloc);
    let mut left = 0;
    for number in 0..turns {
        let Some(place) = turn(rt, lock, &mut pass, number, left) else {
            break;
        };
        left = place;
        let seen = pass.seen_len();
        if lock.length(&mut pass) < seen
            || lock.count(&mut pass, 1).saturating_add(1) < seen
            || places.push(place).is_err()
        {
            break;
        }
    }
    Worked { pass, places }
}

// Two passes that work side by side.
#[derive(Drop)]
struct Pair {
    one: Pass<Notebook>,
    other: Pass<Notebook>,
}

// Two passes at work, each in a thread of its own.
fn two<R: Threads + Wait + Sync>(
    rt: &R,
    alloc: Global,
    lock: &HistLock<Notebook>,
    pair: Pair,
    turns: u32,
) -> (Worked, Worked)
    requires own { (pair.one.lock ≡ lock.now.lock) × (pair.other.lock ≡ lock.now.lock) }
    ensures same { IsSamePass pair.one result.0.pass × IsSamePass pair.other result.1.pass }
{
    let Pair { one, other } = pair;
    join(
        rt,
        || work(rt, alloc, lock, one, turns),
        || work(rt, alloc, lock, other, turns),
    )
}

// Four passes at work, each in a thread of its own.
fn four<R: Threads + Wait + Sync>(
    rt: &R,
    alloc: Global,
    lock: &HistLock<Notebook>,
    first: Pair,
    last: Pair,
    turns: u32,
) -> ((Worked, Worked), (Worked, Worked))
    requires first { (first.one.lock ≡ lock.now.lock) × (first.other.lock ≡ lock.now.lock) }
    requires last { (last.one.lock ≡ lock.now.lock) × (last.other.lock ≡ lock.now.lock) }
    ensures first { IsSamePass first.one result.0.0.pass × IsSamePass first.other result.0.1.pass }
    ensures last { IsSamePass last.one result.1.0.pass × IsSamePass last.other result.1.1.pass }
{
    join(
        rt,
        || -> (Worked, Worked)
            requires { (first.one.lock ≡ lock.now.lock) × (first.other.lock ≡ lock.now.lock) }
            ensures { IsSamePass first.one result.0.pass × IsSamePass first.other result.1.pass }
        { two(rt, alloc, lock, first, turns) },
        || -> (Worked, Worked)
            requires { (last.one.lock ≡ lock.now.lock) × (last.other.lock ≡ lock.now.lock) }
            ensures { IsSamePass last.one result.0.pass × IsSamePass last.other result.1.pass }
        { two(rt, alloc, lock, last, turns) },
    )
}

#[test]
fn one_pass_finds_what_it_left(rt: HostRuntime) -> Result<(), Fail> {
    let (lock, passes) = HistLock::new(rt.alloc(), Notebook::new(rt.alloc()), 1)?;
    let mut passes = passes.into_vec();
    let Some(pass) = passes.pop() else {
        panic!(rt; "no pass")
    };
    let Worked { mut pass, places } = work(&rt, rt.alloc(), &lock, pass, 10);
    assert!(rt; read_title(&rt, &lock, &mut pass) == 7);
    assert!(rt; places.len() == 10 && pass.rank() == 1 && pass.seen_len() == 10);
    passes.push(pass)?;
    let book = lock.close(Seq::from_vec(passes));
    assert!(rt; book.length() == 10 && book.count(3) == 7 && book.lie(1, &places));
    assert!(rt; book.title == 7);
    Ok(())
}

#[test]
fn two_threads_take_turns(rt: HostRuntime) -> Result<(), Fail> {
    let (lock, passes) = HistLock::new(rt.alloc(), Notebook::new(rt.alloc()), 2)?;
    let mut passes = passes.into_vec();
    let (Some(other), Some(one)) = (passes.pop(), passes.pop()) else {
        panic!(rt; "no passes")
    };
    assert!(rt; one.rank() == 1 && other.rank() == 2);
    let (one, other) = two(&rt, rt.alloc(), &lock, Pair { one, other }, 500);
    assert!(rt; one.places.len() == 500 && other.places.len() == 500);
    assert!(rt; one.pass.seen_len() >= 500 && other.pass.seen_len() >= 500);
    passes.push(other.pass)?;
    passes.push(one.pass)?;
    let book = lock.close(Seq::from_vec(passes));
    assert!(rt; book.length() == 1000 && book.count(2) == 998);
    assert!(rt; book.lie(1, &one.places) && book.lie(2, &other.places));
    Ok(())
}

#[test]
fn an_unused_pass_reads_what_another_made(rt: HostRuntime) -> Result<(), Fail> {
    let (lock, passes) = HistLock::new(rt.alloc(), Notebook::new(rt.alloc()), 2)?;
    let mut passes = passes.into_vec();
    let (Some(mut unused), Some(pass)) = (passes.pop(), passes.pop()) else {
        panic!(rt; "no passes")
    };
    let Worked { pass, places } = work(&rt, rt.alloc(), &lock, pass, 16);
    assert!(rt; places.len() == 16 && unused.seen_len() == 0);
    assert!(rt; lock.length(&mut unused) == 16 && unused.seen_len() == 0);
    assert!(rt; lock.count(&mut unused, 0) == 16 && lock.count(&mut unused, 3) == 13);
    passes.push(unused)?;
    passes.push(pass)?;
    let book = lock.close(Seq::from_vec(passes));
    assert!(rt; book.length() == 16 && book.lie(1, &places));
    Ok(())
}

#[test]
fn four_threads_take_a_hundred_thousand_turns(rt: HostRuntime) -> Result<(), Fail> {
    let (lock, passes) = HistLock::new(rt.alloc(), Notebook::new(rt.alloc()), 4)?;
    let mut passes = passes.into_vec();
    let (Some(other), Some(one)) = (passes.pop(), passes.pop()) else {
        panic!(rt; "no passes")
    };
    let last = Pair { one, other };
    let (Some(other), Some(one)) = (passes.pop(), passes.pop()) else {
        panic!(rt; "no passes")
    };
    let first = Pair { one, other };
    let ((a, b), (c, d)) = four(&rt, rt.alloc(), &lock, first, last, 25_000);
    assert!(rt; a.places.len() == 25_000 && b.places.len() == 25_000);
    assert!(rt; c.places.len() == 25_000 && d.places.len() == 25_000);
    let passes = Vec::from_array(rt.alloc(), [c.pass, a.pass, d.pass, b.pass])?;
    let book = lock.close(Seq::from_vec(passes));
    assert!(rt; book.length() == 100_000 && book.count(1) == 99_999);
    assert!(rt; book.lie(1, &a.places) && book.lie(2, &b.places));
    assert!(rt; book.lie(3, &c.places) && book.lie(4, &d.places));
    Ok(())
}

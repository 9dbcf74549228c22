//! The lock.
ghost use Rattle.std.specs.Prelude.{◌≡◌, ℕ, ◌≤◌, ◌<◌, [], length, slice_index, slice_set, All, Any, IfOk};
ghost use Rattle.std.specs.List.{sum_by};
ghost use Rattle.std.specs.Fn.{FnOnceTakesAtMut, FnOnceReturnsAtMut};
ghost use Rattle.kms_histlock.specs.Passes.{new_passes, IsReached, MayFind, GoesOn, Turned};

use crate::kept::Kept;
use crate::pass::Pass;
use crate::rules::{Board, COUNTS, LENGTH, ReadCount, ReadLength};
use crate::seats::{lay, split_off, take_in, take_out};
use crate::turn::{give, take};
use kms_model::{NoMemory, Seq};
use std::alloc::Global;
use std::marker::Model;
use std::sync::Wait;

/// A value behind a turn that passes take, one after another.
#[derive(Drop)]
pub struct HistLock<T: Kept> {
    table: Board<T>,
}

impl<T: Kept> Model for HistLock<T> {
    ghost use Rattle.std.specs.Prelude.{◌≡◌, ◌<◌};
    ghost use Rattle.kms_histlock.specs.Passes.{LockState, lock_state};
    ghost use Rattle.kms_histlock.specs.Seats.{IsSized};

    ghost Value = { LockState T.Fixed };

    ghost view = { λ l. lock_state l.table.shared.table_id l.table.shared.key.0
        (T.fixed l.table.shared.key.1.value) };

    ghost invariant = { λ l. IsSized l.table.shared.table_id × (0 < l.table.shared.key.0) };
}

impl<T: Kept> HistLock<T> {
    /// A lock around a value with an empty history, of which every count is 0, and its 1 to 64 passes,
    /// whose ranks go from 1 on. The lock tells what of the value never changes, and so do the passes' names of
    /// it. `seats` is a count. Want of memory is `NoMemory`.
    pub fn new(alloc: Global, value: T, seats: u32) -> Result<(HistLock<T>, Seq<Pass<T>>), NoMemory>
        requires seats { (0 < seats) × (seats ≤ 64) }
        requires empty { T.entries value ≡ [] }
        requires uncounted { (k : ℕ) → k < 4 → T.counted k [] ≡ 0 }
        ensures seats { IfOk result (λ r. r.0.seats ≡ seats) }
        ensures fixed { IfOk result (λ r. r.0.fixed ≡ T.fixed value) }
        ensures passes { IfOk result (λ r. r.1 ≡ new_passes r.0.lock seats) }
    {
        let (table, mut first) = lay(alloc, value, u64::from(seats))?;
        let mut passes = split_off(alloc, &table.shared, &mut first, seats)?;
        passes.insert(0, Pass::of(first, 1))?;
        Ok((HistLock { table }, Seq::from_vec(passes)))
    }

    /// Takes the turn once with a pass of this lock, calls `f` with the value, and passes the turn on. It waits until
    /// the turn comes. The value that `f` finds is sound, and what of it never changes is the lock's. Its history
    /// begins with what the pass has seen, has all entries of its own there, and reaches the numbers that it has read.
    /// `f` may only lengthen the value's history, by entries of nobody's and of the pass's own, and leaves what
    /// never changes as it is.
    pub fn with<R, W: Wait, F: FnOnce(&mut T) -> R>(&self, rt: &W, pass: &mut Pass<T>, f: F) -> R
        requires own { pass.old.lock ≡ self.now.lock }
        requires callable { (x : T)
            → MayFind T.owner T.entries T.counted T.fixed T.sound self.now.fixed pass.old x
            → FnOnceTakesAtMut F.FnOnce f x }
        requires goes_on { (x y : T) (r : R)
            → MayFind T.owner T.entries T.counted T.fixed T.sound self.now.fixed pass.old x
            → FnOnceReturnsAtMut F.FnOnce f x r y
            → GoesOn T.owner T.entries T.fixed pass.old.rank x y }
        ensures turn { Turned T.owner T.entries T.counted T.fixed T.sound self.now.fixed
            F.FnOnce f result pass.old pass.new }
    {
        let words = &self.table.shared;
        let mut value = take(rt, words, &mut pass.seat);
        let found = value.length();
        value.shows();
        let result = f(&mut value);
        value.shows();
        pass.seen_len = give(words, &mut pass.seat, found, value);
        result
    }

    /// How long the history is, as far as one load tells: at least as long as what the pass has seen, and
    /// as what it has read before. The pass, which is one of this lock, keeps the number. It waits for nobody.
    pub fn length(&self, pass: &mut Pass<T>) -> u64
        requires own { pass.old.lock ≡ self.now.lock }
        ensures seen { length pass.old.seen ≤ result }
        ensures before { pass.old.length_read ≤ result }
        ensures read { pass.new ≡ record pass.old { length_read = result } }
    {
        self.table.shared.load::<ReadLength>(&mut pass.seat, LENGTH)
    }

    /// The `k`-th number that is counted of the history, `k` from 0 to 3, as far as one load tells: at
    /// least that of what the pass has seen, and what it has read before. The pass, which is one of this lock, keeps
    /// the number. It waits for nobody.
    pub fn count(&self, pass: &mut Pass<T>, k: u32) -> u64
        requires own { pass.old.lock ≡ self.now.lock }
        requires few { k < 4 }
        ensures seen { T.counted k pass.old.seen ≤ result }
        ensures before { slice_index pass.old.counts_read k ≤ result }
        ensures read { pass.new
            ≡ record pass.old { counts_read = slice_set pass.old.counts_read k result } }
    {
        self.table
            .shared
            .load::<ReadCount>(&mut pass.seat, k as usize + COUNTS)
    }

    /// Ends the lock, with all its passes in any order, and gives the value back. Its history has as many entries as
    /// all passes have made together, begins with what each has seen, and reaches each number that one has read.
    /// It is sound, and what of it never changes is as it was at the start. The seat of the pass of rank 1 takes in
    /// those of the others.
    pub fn close(self, passes: Seq<Pass<T>>) -> T
        requires own { All (λ p. p.lock ≡ self.lock) passes }
        requires all { length passes ≡ self.seats }
        requires first { Any (λ p. p.rank ≡ 1) passes }
        ensures made { length (T.entries result) ≡ sum_by (λ p. p.made) passes }
        ensures fixed { T.fixed result ≡ self.fixed }
        ensures sound { T.sound result }
        ensures reached { All (λ p. IsReached T.counted p (T.entries result)) passes }
    {
        let HistLock { table } = self;
        let seat = take_in(&table.shared, passes.into_vec());
        let value = take_out(table, seat);
        value.shows();
        value
    }
}

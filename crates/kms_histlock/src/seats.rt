//! The seats of a lock: how they are made and how they end.
ghost use Rattle.std.specs.Prelude.{◌≡◌, ℕ, ◌≤◌, ◌<◌, List, [], ◌∷◌, length, All, Any, IfOk, IsPermutation};
ghost use Rattle.std.specs.List.{sum_by};
ghost use Rattle.kms_histlock.specs.declared.view.Stage.TheVariants.{Idle};
ghost use Rattle.kms_histlock.specs.Passes.{lock_name, pass_state, new_pass, new_passes, IsReached};
ghost use Rattle.kms_histlock.specs.Seats.{IsSized, HasAllSeen};
ghost use Rattle.kms_histlock.specs.Steps.{opened};

use crate::kept::Kept;
use crate::pass::Pass;
use crate::rules::{Board, OneMore, TableSeat, TakeIn, VALUE, Words};
use kms_model::NoMemory;
use std::alloc::Global;
use std::snapshot::Snapshot;

/// The table with the value at home, and its first seat, which stands for all.
pub(crate) fn lay<T: Kept>(
    alloc: Global,
    value: T,
    seats: u64,
) -> Result<(Board<T>, TableSeat<T>), NoMemory>
    requires empty { T.entries value ≡ [] }
    requires uncounted { (k : ℕ) → k < 4 → T.counted k [] ≡ 0 }
    ensures sized { IfOk result (λ r. IsSized r.0.shared.table_id) }
    ensures told { IfOk result (λ r. (r.0.shared.key.0 ≡ seats)
        × (r.0.shared.key.1.value ≡ value)) }
    ensures own { IfOk result (λ r. r.1.table_id ≡ r.0.shared.table_id) }
    ensures seat { IfOk result (λ r. r.1.me ≡ (opened seats (T.fixed value), [])) }
{
    let about = (seats, Snapshot::of(&value));
    let mut slots = Vec::new(alloc);
    slots.push(Some(value))?;
    match Board::new(alloc, &[0; 7], slots, &about) {
        Ok(laid) => Ok(laid),
        Err(_) => Err(NoMemory),
    }
}

/// Splits the other seats off the first, and makes their passes.
pub(crate) fn split_off<T: Kept>(
    alloc: Global,
    words: &Words<T>,
    first: &mut TableSeat<T>,
    seats: u32,
) -> Result<Vec<Pass<T>>, NoMemory>
    requires own { (first.old.table_id ≡ words.now.table_id) × IsSized words.now.table_id }
    requires seats { (0 < seats) × (seats ≤ 64) }
    requires whole { first.old.me ≡ (opened seats (T.fixed words.now.key.1.value), []) }
    ensures passes { IfOk result (λ v.
        new_pass (lock_name words.now.table_id (T.fixed words.now.key.1.value)) 1 ∷ v.items
        ≡ new_passes (lock_name words.now.table_id (T.fixed words.now.key.1.value)) seats) }
    ensures first { IfOk result (λ _. pass_state first.new
        ≡ new_pass (lock_name words.now.table_id (T.fixed words.now.key.1.value)) 1) }
    ensures rests { IfOk result (λ _.
        (first.new.me.1 ≡ []) × (first.new.me.0.stage ≡ Idle) × (first.new.me.0.parts ≡ 1)) }
    ensures leads { IfOk result (λ _. 0 < first.new.me.0.top) }
{
    let mut passes = Vec::with_capacity(alloc, seats as usize)?;
    for made in 1..seats {
        let seat = words.split_seat::<OneMore>(first);
        passes.push(Pass::of(seat, made + 1))?;
    }
    Ok(passes)
}

// Takes the pass of rank 1 out of the passes. The others may change places.
fn take_first<T: Kept>(passes: &mut Vec<Pass<T>>) -> Pass<T>
    requires first { Any (λ p. p.rank ≡ 1) passes.old.items }
    ensures first { result.rank ≡ 1 }
    ensures others { IsPermutation passes.old.items (result ∷ passes.new.items) }
{
    for place in 0..passes.len() {
        if passes[place].rank() == 1 {
            return passes.swap_remove(place);
        }
    }
    unreachable!()
}

/// The first seat, once it has taken in those of all other passes: it then stands for all.
pub(crate) fn take_in<T: Kept>(words: &Words<T>, mut passes: Vec<Pass<T>>) -> TableSeat<T>
    requires sized { IsSized words.now.table_id }
    requires first { Any (λ p. p.rank ≡ 1) passes.items }
    requires own { All (λ p. p.lock.table ≡ words.now.table_id) passes.items }
    ensures own { result.table_id ≡ words.now.table_id }
    ensures rests { (result.me.1 ≡ []) × (result.me.0.stage ≡ Idle) }
    ensures all { result.me.0.parts ≡ length passes.items }
    ensures made { result.me.0.made ≡ sum_by (λ p. p.made) passes.items }
    ensures covers { (xs : List T.Entry) → HasAllSeen T.counted result.me.0 xs
        → All (λ p. IsReached T.counted p xs) passes.items }
{
    let mut seat = take_first(&mut passes).into_seat();
    while let Some(pass) = passes.pop() {
        words.join_seat::<TakeIn>(&mut seat, pass.into_seat());
    }
    seat
}

/// The value of a table whose only seat this is.
pub(crate) fn take_out<T: Kept>(table: Board<T>, seat: TableSeat<T>) -> T
    requires own { (seat.table_id ≡ table.shared.table_id) × IsSized table.shared.table_id }
    requires rests { (seat.me.1 ≡ []) × (seat.me.0.stage ≡ Idle) }
    requires all { (seat.me.0.parts ≡ table.shared.key.0) × (0 < table.shared.key.0) }
    ensures made { length (T.entries result) ≡ seat.me.0.made }
    ensures covers { HasAllSeen T.counted seat.me.0 (T.entries result) }
    ensures fixed { T.fixed result ≡ T.fixed table.shared.key.1.value }
{
    let mut closed = table.close_with(seat);
    let value = closed.take(VALUE).unwrap();
    closed.free();
    value
}

//! Taking the turn with the value, and passing it on with what was made of it.
ghost use Rattle.std.specs.Prelude.{◌≡◌, ◌<◌, [], length};
ghost use Rattle.kms_histlock.specs.declared.view.Stage.TheVariants.{Idle, Waits};
ghost use Rattle.kms_histlock.specs.Steps.{Takes};
ghost use Rattle.kms_histlock.specs.Seats.{IsSized, IsSameSeat, HasTurn, MayGiveTurn, MayStoreLength, HasStored, Recounts, IsSameButTurn, gave};

use crate::kept::Kept;
use crate::rules::{
    COUNTS, Draw, LENGTH, LookForTurn, PassOn, SERVED, StoreCount, StoreLength, TICKETS, TableSeat,
    VALUE, Words,
};
use std::hint::spin_loop;
use std::sync::Wait;
use std::sync::atomic::AtomicU64;
use std::time::Duration;

/// How many times a waiting pass looks before it sleeps between two looks, a count.
const LOOKS: u32 = 400;

/// How many microseconds it sleeps then.
const NAP: u64 = 20;

/// How many times a pass looks for a lock that nobody uses before it draws a number all the same, a count.
const PATIENCE: u32 = 440;

// Lets some time go by between two looks at the words. The pass looks `LOOKS` times in a row at first, for a turn is short.
// Then it sleeps, so that whoever has the turn finds a processor where there are more threads than processors. Nobody
// wakes it: `bed` is 0 always.
fn pause<W: Wait>(rt: &W, bed: &AtomicU64, looks: u32) {
    if looks < LOOKS {
        spin_loop();
    } else {
        bed.park_timeout(rt, 0, Duration::from_micros(NAP));
    }
}

// Looks again and again, until nobody has a number, or patience ends. Who sleeps here has drawn none yet, so that nobody waits
// for who sleeps: that the turn is passed on to a sleeper again and again is what made many threads slower than one.
fn until_free<T: Kept, W: Wait>(rt: &W, words: &Words<T>)
    requires sized { IsSized words.now.table_id }
{
    let bed = AtomicU64::new(0);
    for looks in 0..PATIENCE {
        let served = words.peek(SERVED);
        if served == words.peek(TICKETS) {
            return;
        }
        pause(rt, &bed, looks);
    }
}

// Looks at the served word again and again, until it is the seat's number.
fn wait<T: Kept, W: Wait>(rt: &W, words: &Words<T>, seat: &mut TableSeat<T>, number: u64)
    requires own { (seat.old.table_id ≡ words.now.table_id) × IsSized words.now.table_id }
    requires waits { seat.old.me.0.stage ≡ Waits number }
    ensures same { IsSameSeat seat.old seat.new }
    ensures takes { Takes T.owner T.entries T.counted T.fixed number seat.old.me seat.new.me }
{
    let bed = AtomicU64::new(0);
    let mut looks = 0u32;
    for _ in rt.forever() {
        if words.load::<LookForTurn>(seat, SERVED) == number {
            return;
        }
        pause(rt, &bed, looks);
        looks = looks.saturating_add(1);
    }
    unreachable!()
}

/// Waits for the turn, and takes the value. It draws a number once nobody has one, as far as two looks tell.
pub(crate) fn take<T: Kept, W: Wait>(rt: &W, words: &Words<T>, seat: &mut TableSeat<T>) -> T
    requires own { (seat.old.table_id ≡ words.now.table_id) × IsSized words.now.table_id }
    requires rests { (seat.old.me.0.stage ≡ Idle) × (seat.old.me.1 ≡ [])
        × (0 < seat.old.me.0.parts) }
    ensures same { IsSameSeat seat.old seat.new }
    ensures turn { HasTurn T.owner T.entries T.counted T.fixed seat.old.me result seat.new.me }
{
    until_free(rt, words);
    let number = words.fetch_add::<Draw>(seat, TICKETS, 1);
    wait(rt, words, seat, number);
    words.exchange(seat, VALUE, None).unwrap()
}

// Stores the length of the value's history, which was `found` when the turn came. The word is the seat's
// to write, so it holds `found` still. It is exchanged, and not stored, so that the proof is told of `value`.
fn store_length<T: Kept>(
    words: &Words<T>,
    seat: &mut TableSeat<T>,
    found: u64,
    length: u64,
    value: &Option<T>,
)
    requires own { (seat.old.table_id ≡ words.now.table_id) × IsSized words.now.table_id }
    requires turn { MayStoreLength T.owner T.entries found length value.now seat.old.me }
    ensures same { IsSameSeat seat.old seat.new }
    ensures stored { HasStored T.entries value.now seat.old.me seat.new.me }
{
    words.compare_exchange_with::<StoreLength>(seat, LENGTH, found, length, value);
}

// Stores the counts of the history whose length is stored.
fn store_counts<T: Kept>(words: &Words<T>, seat: &mut TableSeat<T>, counts: &[u64; 4])
    requires own { (seat.old.table_id ≡ words.now.table_id) × IsSized words.now.table_id }
    requires turn { Recounts T.counted counts.now 0 seat.old.me }
    ensures same { IsSameSeat seat.old seat.new }
    ensures stored { Recounts T.counted counts.now 4 seat.new.me }
    ensures rest { IsSameButTurn seat.old.me seat.new.me }
{
    for k in 0..4usize {
        words.store::<StoreCount>(seat, k + COUNTS, counts[k]);
    }
}

/// Stores the length and the counts of the value's history, gives the value back, and passes the turn on.
/// Answers the length. It was `found` when the turn came.
pub(crate) fn give<T: Kept>(words: &Words<T>, seat: &mut TableSeat<T>, found: u64, value: T) -> u64
    requires own { (seat.old.table_id ≡ words.now.table_id) × IsSized words.now.table_id }
    requires turn { MayGiveTurn T.owner T.entries T.counted T.fixed found value seat.old.me }
    ensures same { IsSameSeat seat.old seat.new }
    ensures length { result ≡ length (T.entries value) }
    ensures rests { seat.new.me ≡ (gave (T.entries value) found seat.old.me.0, []) }
{
    let length = value.length();
    let counts = [
        value.count(0),
        value.count(1),
        value.count(2),
        value.count(3),
    ];
    let value = Some(value);
    store_length(words, seat, found, length, &value);
    store_counts(words, seat, &counts);
    words.exchange(seat, VALUE, value);
    words.fetch_add::<PassOn>(seat, SERVED, 1);
    length
}

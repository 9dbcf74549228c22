//! Fences, flip events and their space. The bytes of an event are those of the kernel's struct (`checks/event_bytes.sh`).
use crate::rows::assert_row;
use kms_model::{Event, FIRST_CRTC_ID, NoMemory};
use kms_signal::{EventQueue, Fences, ReserveError, RoomTable, event_bytes, flip_event};
use std::alloc::Global;
use std::process::Abort;

/// The events of latches at these counts, as a client reads them.
const EVENTS: [(u64, [u8; 32]); 3] = [
    (
        1,
        [
            2, 0, 0, 0, 32, 0, 0, 0, 7, 0, 0, 0, 0, 0, 0, 0, 0, 0, 0, 0, 0, 0, 0, 0, 1, 0, 0, 0,
            100, 0, 0, 0,
        ],
    ),
    (
        4_294_967_297,
        [
            2, 0, 0, 0, 32, 0, 0, 0, 7, 0, 0, 0, 0, 0, 0, 0, 0, 0, 0, 0, 0, 0, 0, 0, 1, 0, 0, 0,
            100, 0, 0, 0,
        ],
    ),
    (
        4_294_967_295,
        [
            2, 0, 0, 0, 32, 0, 0, 0, 7, 0, 0, 0, 0, 0, 0, 0, 0, 0, 0, 0, 0, 0, 0, 0, 255, 255, 255,
            255, 100, 0, 0, 0,
        ],
    ),
];

#[test]
fn an_event_has_the_lower_32_bits_of_the_count(rt: HostRuntime) {
    for (row, (count, bytes)) in EVENTS.iter().enumerate() {
        let event = flip_event(7, *count, FIRST_CRTC_ID);
        assert_row(&rt, event_bytes(&event) == *bytes, "events", row);
    }
}

/// A call on a queue, and what it answers. Events are given by their sequences.
#[derive(Clone, Copy)]
enum Call {
    /// There is memory for so many.
    MakeRoom(u32),
    /// There is space for so many.
    Reserve(u32),
    /// There is none for so many, as so many bytes are used.
    IsFull(u32, u32),
    Deliver(u32),
    Read(Option<u32>),
    /// So many are reserved and unread, and this is the oldest.
    Has(u32, u32, Option<u32>),
}

const QUEUES: [(&str, &[Call]); 3] = [
    (
        "events are read in the order of their delivery",
        &[
            Call::Reserve(2),
            Call::Has(2, 0, None),
            Call::Deliver(2),
            Call::Has(1, 1, Some(2)),
            Call::Deliver(1),
            Call::Has(0, 2, Some(2)),
            Call::Read(Some(2)),
            Call::Read(Some(1)),
            Call::Read(None),
        ],
    ),
    (
        "the space holds 128 events",
        &[
            Call::IsFull(129, 0),
            Call::Reserve(128),
            Call::IsFull(1, 4096),
            Call::Reserve(0),
        ],
    ),
    (
        "an unread event takes the space that it had reserved",
        &[
            Call::MakeRoom(128),
            Call::Reserve(128),
            Call::Deliver(1),
            Call::IsFull(1, 4096),
            Call::Read(Some(1)),
            Call::IsFull(2, 4064),
            Call::Reserve(1),
        ],
    ),
];

fn flip(sequence: u32) -> Event {
    Event {
        user_data: 7,
        sequence,
        crtc: FIRST_CRTC_ID,
    }
}

/// Delivers an event, where one is reserved.
fn delivers(queue: &mut EventQueue, sequence: u32) -> bool {
    if queue.reserved() == 0 {
        return false;
    }
    queue.deliver(flip(sequence));
    true
}

/// Reads an event. True where it is the one with this sequence, or there is none.
fn reads(queue: &mut EventQueue, want: Option<u32>) -> bool {
    match (queue.read(), want) {
        (Some(bytes), Some(sequence)) => bytes == event_bytes(&flip(sequence)),
        (found, want) => found.is_none() && want.is_none(),
    }
}

/// Whether the oldest event has this sequence, or there is none.
fn is_oldest(queue: &EventQueue, want: Option<u32>) -> bool {
    match (queue.oldest(), want) {
        (Some(event), Some(sequence)) => event == flip(sequence),
        (found, want) => found.is_none() && want.is_none(),
    }
}

/// Makes a call. True where it answers what the row says.
fn answers(queue: &mut EventQueue, alloc: Global, call: Call) -> bool {
    match call {
        Call::MakeRoom(n) => queue.make_room(alloc, n).is_ok(),
        Call::Reserve(n) => queue.reserve(alloc, n).is_ok(),
        Call::IsFull(n, used) => { queue.reserve(alloc, n) == Err(ReserveError::NoSpace { used }) }
        Call::Deliver(sequence) => delivers(queue, sequence),
        Call::Read(want) => reads(queue, want),
        Call::Has(reserved, unread, oldest) => {
            queue.reserved() == reserved && queue.unread() == unread && is_oldest(queue, oldest)
        }
    }
}

/// Makes the calls of a table on a new queue.
fn follow(rt: &(impl Abort + AllocGlobal), table: &str, calls: &[Call]) {
    let mut queue = EventQueue::new(rt.alloc());
    for (row, call) in calls.iter().enumerate() {
        let holds = answers(&mut queue, rt.alloc(), *call);
        assert_row(rt, holds, table, row);
    }
}

#[test]
fn queues_of_events(rt: HostRuntime) {
    for (table, calls) in QUEUES {
        follow(&rt, table, calls);
    }
}

/// The fence that is signalled, if any, and which of the fences 1000, 1001 (which was not made) and 1003 are signalled then.
const SIGNALS: [(Option<u32>, [bool; 3]); 4] = [
    (None, [false, false, false]),
    (Some(1003), [false, false, true]),
    (Some(1003), [false, false, true]),
    (Some(1001), [false, false, true]),
];

fn two_fences(alloc: Global) -> Result<Fences, NoMemory> {
    let mut fences = Fences::new(alloc);
    fences.make_room(alloc, 2)?;
    fences.make(alloc, 1000)?;
    fences.make(alloc, 1003)?;
    Ok(fences)
}

/// Signals a fence, and tells which are signalled.
fn signalled(fences: &mut Fences, signal: Option<u32>) -> [bool; 3] {
    if let Some(id) = signal {
        fences.signal(id);
    }
    [
        fences.is_signalled(1000),
        fences.is_signalled(1001),
        fences.is_signalled(1003),
    ]
}

/// Signals fences one after the other.
fn signal_all(rt: &impl Abort, fences: &mut Fences) {
    for (row, (signal, want)) in SIGNALS.iter().enumerate() {
        assert_row(rt, signalled(fences, *signal) == *want, "signals", row);
    }
}

#[test]
fn a_fence_stays_signalled(rt: HostRuntime) -> Result<(), NoMemory> {
    let mut fences = two_fences(rt.alloc())?;
    signal_all(&rt, &mut fences);
    Ok(())
}

/// The id under which a value is put, the value, or none where what is there is taken out, and what 3, 5 and 8 have then.
const CHANGES: [(u32, Option<u32>, [Option<u32>; 3]); 2] = [
    (5, Some(51), [Some(30), Some(51), Some(80)]),
    (3, None, [None, Some(51), Some(80)]),
];

fn three_values(alloc: Global) -> Result<RoomTable<u32>, NoMemory> {
    let mut table = RoomTable::<u32>::new(alloc);
    table.make_room(alloc, 3)?;
    table.push(alloc, 3, 30)?;
    table.push(alloc, 5, 50)?;
    table.push(alloc, 8, 80)?;
    Ok(table)
}

/// Changes a table, and tells what it has.
fn changed(table: &mut RoomTable<u32>, id: u32, value: Option<u32>) -> [Option<u32>; 3] {
    match value {
        Some(value) => table.set(id, value),
        None => table.remove(id),
    }
    [
        table.get(3).copied(),
        table.get(5).copied(),
        table.get(8).copied(),
    ]
}

/// Makes changes one after the other.
fn change_all(rt: &impl Abort, table: &mut RoomTable<u32>) {
    for (row, (id, value, want)) in CHANGES.iter().enumerate() {
        assert_row(rt, changed(table, *id, *value) == *want, "values", row);
    }
}

#[test]
fn a_table_keeps_what_is_not_taken_out(rt: HostRuntime) -> Result<(), NoMemory> {
    let mut table = three_values(rt.alloc())?;
    change_all(&rt, &mut table);
    Ok(())
}

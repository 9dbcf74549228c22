//! What the tails of commits still need.
use crate::rows::{assert_row, assert_rows};
use kms_model::{
    Both, Checked, ConnState, CrtcState, Duplicates, FIRST_CONNECTOR_ID, FIRST_PLANE_ID, Mask,
    NoMemory, ObjId, PlaneState, Seq,
};
use kms_samples::{CRTC, SECOND_CRTC};
use kms_track::{Progress, Signals, Tail, Tracker};
use std::alloc::Global;
use std::process::Abort;

/// The third plane.
const PLANE: ObjId = ObjId(FIRST_PLANE_ID + 2);

/// What a commit of the third client signals, which asks for events.
const SIGNALS: Signals = Signals {
    client: 3,
    user_data: 9,
    wants_event: true,
    out_fences: [None, Some(1007), None, None],
};

/// A call, and what it answers. Commits are given by their numbers.
#[derive(Clone, Copy)]
enum Call {
    Claim(u32),
    /// The registers of an object are written: of the first or the second CRTC, or the third plane.
    Wrote(u32, ObjId),
    /// The CRTC with an index is flushed.
    Flushed(u32, u32),
    /// It latches at the CRTC with an index.
    Latched(u32, u32),
    Done(u32),
    Clean(u32),
    /// Its next write and its next flush, and whether it has latched everywhere.
    IsNext(u32, Option<ObjId>, Option<u32>, bool),
    /// It is not there any more.
    IsGone(u32),
    /// So many steps are left of it.
    IsLeft(u32, u32),
    /// The first commit from a number on.
    IsFirst(u32, Option<u32>),
}

/// The tail of a commit that touches two CRTCs and a plane goes by rising ids.
const GOES: [Call; 17] = [
    Call::IsNext(0, Some(CRTC), Some(0), false),
    Call::Claim(0),
    Call::Wrote(0, CRTC),
    Call::IsNext(0, Some(SECOND_CRTC), Some(0), false),
    Call::Wrote(0, SECOND_CRTC),
    Call::IsNext(0, Some(PLANE), Some(0), false),
    Call::Wrote(0, PLANE),
    Call::Flushed(0, 0),
    Call::IsNext(0, None, Some(1), false),
    Call::Latched(0, 0),
    Call::Flushed(0, 1),
    Call::Done(0),
    // done is not latched
    Call::IsNext(0, None, None, false),
    Call::Latched(0, 1),
    Call::IsNext(0, None, None, true),
    Call::Clean(0),
    Call::IsGone(0),
];

/// Of a commit that touches all that there is, at most 31 steps are left.
const ALL: [Call; 5] = [
    Call::IsLeft(0, 31),
    Call::Claim(0),
    Call::Claim(0),
    Call::Wrote(0, PLANE),
    Call::IsLeft(0, 29),
];

/// A CRTC that is off after a commit needs no latch.
const OFF: [Call; 1] = [Call::IsLeft(0, 6)];

/// Whether the CRTCs of a commit are on after it, the CRTCs and planes that it touches, masks, and the table of its tail.
const ALONE: [(bool, u32, u32, &str, &[Call]); 3] = [
    (false, 3, 4, "two CRTCs and a plane", &GOES),
    (true, 15, 65535, "all objects", &ALL),
    (false, 1, 4, "a CRTC that is off", &OFF),
];

/// The commits 0, 1 and 2 are found in rising order.
const FOUND: [Call; 6] = [
    Call::IsFirst(0, Some(0)),
    Call::IsFirst(1, Some(1)),
    Call::Clean(1),
    Call::IsFirst(1, Some(2)),
    Call::Clean(0),
    Call::IsFirst(3, None),
];

/// What was checked of a request that touches these CRTCs and planes, masks, and names the same CRTCs, which are all on, or
/// all off, after it. CRTC 0 has connector 3 then.
fn checked(active: bool, crtcs: u32, planes: u32) -> Checked {
    let new = CrtcState {
        active,
        ..CrtcState::OFF
    };
    let mut states = [both(CrtcState::OFF, new); 4];
    states[0] = both(CrtcState::OFF, CrtcState { conns: 0x28, ..new });
    Checked {
        states: Duplicates {
            crtcs: states,
            planes: [both(PlaneState::OFF, PlaneState::OFF); 16],
            conns: [both(ConnState::OFF, ConnState::OFF); 8],
        },
        named: crtcs,
        touched: Mask {
            crtcs,
            planes,
            conns: 0,
        },
    }
}

fn both<S: Copy>(old: S, new: S) -> Option<Both<S>> {
    Some(Both { old, new })
}

/// Sets a commit up that waits for no fence.
fn set_up(tracker: &mut Tracker, alloc: Global, checked: &Checked) -> Result<(), NoMemory> {
    if tracker.count() < 100_000 {
        tracker.setup_for(alloc, SIGNALS, checked, &Seq::new(alloc))?;
    }
    Ok(())
}

/// One commit.
fn alone(alloc: Global, checked: &Checked) -> Result<Tracker, NoMemory> {
    let mut tracker = Tracker::new(alloc);
    tracker.make_room(alloc)?;
    set_up(&mut tracker, alloc, checked)?;
    Ok(tracker)
}

/// Tells that an object is written, where it is one of those of the tables.
fn wrote(tracker: &mut Tracker, commit: u32, object: ObjId) -> bool {
    if object == CRTC {
        tracker.mark_written(commit, CRTC);
    } else if object == SECOND_CRTC {
        tracker.mark_written(commit, SECOND_CRTC);
    } else if object == PLANE {
        tracker.mark_written(commit, PLANE);
    } else {
        return false;
    }
    true
}

/// Whether this is next of a tail.
fn is_next(tail: &Tail, write: Option<ObjId>, flush: Option<u32>, latched: bool) -> bool {
    tail.next_write() == write
        && tail.is_written() == write.is_none()
        && tail.next_flush() == flush
        && tail.is_flushed() == flush.is_none()
        && tail.is_latched() == latched
}

/// Whether a tracker answers what a row says.
fn tells(tracker: &Tracker, call: Call) -> bool {
    match call {
        Call::IsNext(commit, write, flush, latched) => match tracker.get(commit) {
            Some(tail) => is_next(tail, write, flush, latched),
            None => false,
        },
        Call::IsLeft(commit, left) => match tracker.get(commit) {
            Some(tail) => tail.left() == left,
            None => false,
        },
        Call::IsGone(commit) => tracker.get(commit).is_none(),
        Call::IsFirst(from, want) => tracker.first_from(from) == want,
        _ => false,
    }
}

/// Makes a call. True where it answers what the row says.
fn answers(tracker: &mut Tracker, call: Call) -> bool {
    match call {
        Call::Claim(commit) => tracker.claim(commit),
        Call::Wrote(commit, object) => return wrote(tracker, commit, object),
        Call::Flushed(commit, crtc) if crtc < 4 => tracker.mark_flushed(commit, crtc),
        Call::Latched(commit, crtc) if crtc < 4 => tracker.flip_done(commit, crtc),
        Call::Done(commit) => tracker.hw_done(commit),
        Call::Clean(commit) => tracker.cleanup(commit),
        other => return tells(tracker, other),
    }
    true
}

/// Makes the calls of a table.
fn follow(rt: &impl Abort, tracker: &mut Tracker, table: &str, calls: &[Call]) {
    for (row, call) in calls.iter().enumerate() {
        assert_row(rt, answers(tracker, *call), table, row);
    }
}

/// Makes the calls of a table on the tail of one commit.
fn follow_alone(
    rt: &(impl Abort + AllocGlobal),
    checked: &Checked,
    table: &str,
    calls: &[Call],
) -> Result<(), NoMemory> {
    let mut tracker = alone(rt.alloc(), checked)?;
    follow(rt, &mut tracker, table, calls);
    Ok(())
}

#[test]
fn a_tail_goes_by_rising_ids_over_at_most_31_steps(rt: HostRuntime) -> Result<(), NoMemory> {
    for (active, crtcs, planes, table, calls) in ALONE {
        follow_alone(&rt, &checked(active, crtcs, planes), table, calls)?;
    }
    Ok(())
}

#[test]
fn commits_are_found_in_rising_order(rt: HostRuntime) -> Result<(), NoMemory> {
    let one = checked(false, 1, 0);
    let mut tracker = alone(rt.alloc(), &one)?;
    set_up(&mut tracker, rt.alloc(), &one)?;
    set_up(&mut tracker, rt.alloc(), &one)?;
    follow(&rt, &mut tracker, "three commits", &FOUND);
    Ok(())
}

/// What a tail keeps for its latches: the client, what its events hand back, its fences and its connectors.
fn is_kept(tail: &Tail) -> [bool; 4] {
    let none = Progress {
        claimed: false,
        crtcs: 0,
        planes: 0,
        flushed: 0,
        done: false,
        latched: 0,
    };
    [
        tail.signals.client == 3 && tail.signals.user_data == 9 && tail.signals.wants_event,
        tail.out_fence(0).is_none() && tail.out_fence(1) == Some(1007),
        tail.connector(0) == FIRST_CONNECTOR_ID + 3 && tail.connector(1) == 0,
        tail.progress == none,
    ]
}

/// Asserts that all of it is kept of commit 0.
fn assert_kept(rt: &impl Abort, tracker: &Tracker) {
    match tracker.get(0) {
        Some(tail) => assert_rows(rt, &is_kept(tail), "client, fences, connectors, progress"),
        None => assert_row(rt, false, "no tail", 0),
    }
}

#[test]
fn a_tail_keeps_what_its_latches_need(rt: HostRuntime) -> Result<(), NoMemory> {
    let tracker = alone(rt.alloc(), &checked(false, 1, 1))?;
    assert_kept(&rt, &tracker);
    Ok(())
}

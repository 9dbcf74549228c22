//! Commits that are under way, and which of them others wait for.
use crate::rows::assert_row;
use kms_model::{
    Both, Checked, ConnState, CrtcState, Duplicates, Mask, NoMemory, ObjId, PlaneState, Seq,
};
use kms_samples::{CRTC, PLANE, SECOND_CRTC};
use kms_signal::Fences;
use kms_track::Tracker;
use std::alloc::Global;
use std::process::Abort;

/// The fence of all tables.
const FENCE: u32 = 1000;

/// A commit: the CRTCs and planes that it touches and the CRTCs that it names, masks; and the CRTCs of plane 0 before and
/// after it, each an id or 0.
#[derive(Clone, Copy)]
struct Commit {
    crtcs: u32,
    planes: u32,
    named: u32,
    old: u32,
    new: u32,
}

/// CRTC 0 alone.
const OF_CRTC: Commit = Commit {
    crtcs: 1,
    planes: 0,
    named: 1,
    old: 0,
    new: 0,
};

/// Plane 0 comes to CRTC 0.
const COMES: Commit = Commit {
    planes: 1,
    new: CRTC.0,
    ..OF_CRTC
};

/// Plane 0 leaves CRTC 0.
const LEAVES: Commit = Commit {
    planes: 1,
    old: CRTC.0,
    ..OF_CRTC
};

/// Plane 0 moves from CRTC 0 to CRTC 1.
const MOVES: Commit = Commit {
    crtcs: 3,
    planes: 1,
    named: 3,
    old: CRTC.0,
    new: SECOND_CRTC.0,
};

/// Plane 0 comes to CRTC 1.
const COMES_TO_ANOTHER: Commit = Commit {
    crtcs: 2,
    planes: 1,
    named: 2,
    old: 0,
    new: SECOND_CRTC.0,
};

/// Plane 0 is on no CRTC.
const OF_PLANE: Commit = Commit {
    crtcs: 0,
    planes: 1,
    named: 0,
    old: 0,
    new: 0,
};

/// A call, and what it answers. Commits are given by their numbers.
#[derive(Clone, Copy)]
enum Call {
    /// A commit is set up, with this number.
    SetUp(Commit, u32),
    /// The same of one that waits for the fence.
    SetUpFenced(Commit, u32),
    /// The same, and it is claimed, done, flipped at CRTC 0 and cleaned before the next call.
    InTurn(Commit, u32),
    Claim(u32),
    Done(u32),
    /// It flips at the CRTC with an index.
    Flip(u32, u32),
    Clean(u32),
    /// The fence is signalled.
    Signal,
    /// Whether it may be claimed.
    IsReady(u32, bool),
    /// The first of these CRTCs and planes, masks, whose last commit has not flipped, with this commit.
    IsBusy(u32, u32, Option<(ObjId, u32)>),
    /// The first of these CRTCs, a mask, at which a swap waits, with the commit for which it waits.
    NotYet(u32, Option<(ObjId, u32)>),
}

/// A swap waits for the last commit, and for the one before it.
const SWAPS: [Call; 20] = [
    Call::SetUp(OF_CRTC, 0),
    Call::NotYet(1, Some((CRTC, 0))),
    Call::NotYet(2, None),
    Call::Claim(0),
    Call::Done(0),
    Call::NotYet(1, None),
    Call::SetUp(OF_CRTC, 1),
    // done is not flipped
    Call::IsReady(1, false),
    Call::Flip(0, 0),
    Call::IsReady(1, true),
    // the last one first
    Call::NotYet(1, Some((CRTC, 1))),
    Call::Claim(1),
    Call::Done(1),
    // the one before is not cleaned
    Call::NotYet(3, Some((CRTC, 0))),
    Call::Flip(1, 0),
    Call::Clean(1),
    // nor after the last one is
    Call::NotYet(1, Some((CRTC, 0))),
    Call::Clean(0),
    Call::NotYet(1, None),
    Call::IsReady(1, false),
];

/// What is busy, and what waits for other commits, for planes and for fences.
const TABLES: [(&str, &[Call]); 6] = [
    (
        "a CRTC is busy until its flip",
        &[
            Call::IsBusy(1, 0, None),
            Call::SetUp(OF_CRTC, 0),
            Call::IsBusy(1, 0, Some((CRTC, 0))),
            Call::Claim(0),
            Call::Done(0),
            Call::IsBusy(1, 0, Some((CRTC, 0))),
            Call::Flip(0, 0),
            Call::IsBusy(1, 0, None),
            Call::Clean(0),
            Call::IsBusy(1, 0, None),
        ],
    ),
    (
        "a plane that moves waits for both CRTCs",
        &[
            Call::InTurn(COMES, 0),
            Call::SetUp(MOVES, 1),
            Call::Claim(1),
            Call::Done(1),
            Call::Flip(1, 1),
            Call::IsBusy(0, 1, Some((PLANE, 1))),
            Call::IsBusy(3, 1, Some((CRTC, 1))),
            Call::Flip(1, 0),
            Call::IsBusy(3, 1, None),
        ],
    ),
    (
        "a plane on no CRTC is never busy",
        &[Call::SetUp(OF_PLANE, 0), Call::IsBusy(0, 1, None)],
    ),
    (
        "a claim waits for planes and fences",
        &[
            Call::InTurn(COMES, 0),
            Call::SetUp(LEAVES, 1),
            Call::IsReady(1, true),
            Call::IsReady(2, false),
            Call::SetUpFenced(COMES_TO_ANOTHER, 2),
            Call::Claim(1),
            Call::IsReady(1, false),
            Call::Done(1),
            Call::Signal,
            Call::IsReady(2, false),
            Call::Flip(1, 0),
            Call::IsReady(2, true),
            Call::IsBusy(2, 1, Some((SECOND_CRTC, 2))),
        ],
    ),
    (
        "a fence may be signalled late",
        &[
            Call::SetUpFenced(COMES, 0),
            Call::IsReady(0, false),
            Call::Signal,
            Call::IsReady(0, true),
        ],
    ),
    ("a swap waits for the last and the one before", &SWAPS),
];

/// What was checked of a commit.
fn checked(commit: Commit) -> Checked {
    let mut planes = [None; 16];
    planes[0] = Some(Both {
        old: plane_on(commit.old),
        new: plane_on(commit.new),
    });
    Checked {
        states: Duplicates {
            crtcs: [Some(Both {
                old: CrtcState::OFF,
                new: CrtcState::OFF,
            }); 4],
            planes,
            conns: [Some(Both {
                old: ConnState::OFF,
                new: ConnState::OFF,
            }); 8],
        },
        named: commit.named,
        touched: mask(commit.crtcs, commit.planes),
    }
}

fn plane_on(crtc: u32) -> PlaneState {
    PlaneState {
        crtc,
        ..PlaneState::OFF
    }
}

fn mask(crtcs: u32, planes: u32) -> Mask {
    Mask {
        crtcs,
        planes,
        conns: 0,
    }
}

/// The fences that a commit waits for: that of all tables, or none.
fn waits(alloc: Global, fenced: bool) -> Result<Seq<(ObjId, u32)>, NoMemory> {
    let mut fences = Seq::new(alloc);
    if fenced {
        fences.push((PLANE, FENCE))?;
    }
    Ok(fences)
}

/// Sets a commit up. True where it has this number.
fn sets_up(
    tracker: &mut Tracker,
    alloc: Global,
    checked: &Checked,
    fenced: bool,
    number: u32,
) -> Result<bool, NoMemory> {
    let fences = waits(alloc, fenced)?;
    if tracker.count() > 100_000 || fences.len() > 16 {
        return Ok(false);
    }
    tracker.make_room(alloc)?;
    Ok(tracker.setup(alloc, checked, &fences)? == number)
}

/// Sets a commit up that is over before another begins. True where it has this number.
fn is_over(
    tracker: &mut Tracker,
    alloc: Global,
    checked: &Checked,
    number: u32,
) -> Result<bool, NoMemory> {
    let is = sets_up(tracker, alloc, checked, false, number)?;
    tracker.claim(number);
    tracker.hw_done(number);
    tracker.flip_done(number, 0);
    tracker.cleanup(number);
    Ok(is)
}

/// Tells a tracker what a row says of a commit that is set up; true where it says nothing more. Any other row holds nothing.
fn is_told(tracker: &mut Tracker, call: Call) -> bool {
    match call {
        Call::Claim(commit) => tracker.claim(commit),
        Call::Done(commit) => tracker.hw_done(commit),
        Call::Flip(commit, crtc) if crtc < 4 => tracker.flip_done(commit, crtc),
        Call::Clean(commit) => tracker.cleanup(commit),
        _ => return false,
    }
    true
}

/// Makes a call. True where it answers what the row says.
fn answers(
    tracker: &mut Tracker,
    fences: &mut Fences,
    alloc: Global,
    call: Call,
) -> Result<bool, NoMemory> {
    Ok(match call {
        Call::SetUp(commit, number) => sets_up(tracker, alloc, &checked(commit), false, number)?,
        Call::SetUpFenced(commit, number) => {
            sets_up(tracker, alloc, &checked(commit), true, number)?
        }
        Call::InTurn(commit, number) => is_over(tracker, alloc, &checked(commit), number)?,
        Call::Signal => {
            fences.signal(FENCE);
            true
        }
        Call::IsReady(commit, want) => tracker.ready(commit, fences) == want,
        Call::IsBusy(crtcs, planes, want) => tracker.busy(&mask(crtcs, planes)) == want,
        Call::NotYet(crtcs, want) => tracker.not_yet(crtcs) == want,
        other => is_told(tracker, other),
    })
}

/// Makes the calls of a table.
fn follow(
    rt: &(impl Abort + AllocGlobal),
    tracker: &mut Tracker,
    fences: &mut Fences,
    table: &str,
    calls: &[Call],
) {
    for (row, call) in calls.iter().enumerate() {
        let holds = answers(tracker, fences, rt.alloc(), *call);
        assert_row(rt, matches!(holds, Ok(true)), table, row);
    }
}

/// Makes the calls of a table on a new tracker, where the fence is not signalled.
fn follow_new(
    rt: &(impl Abort + AllocGlobal),
    table: &str,
    calls: &[Call],
) -> Result<(), NoMemory> {
    let mut fences = Fences::new(rt.alloc());
    fences.make(rt.alloc(), FENCE)?;
    let mut tracker = Tracker::new(rt.alloc());
    follow(rt, &mut tracker, &mut fences, table, calls);
    Ok(())
}

#[test]
fn commits_wait_for_others(rt: HostRuntime) -> Result<(), NoMemory> {
    for (table, calls) in TABLES {
        follow_new(&rt, table, calls)?;
    }
    Ok(())
}

/// Asserts that a commit which is over before the next one leaves nothing behind.
fn assert_over(
    rt: &(impl Abort + AllocGlobal),
    tracker: &mut Tracker,
    checked: &Checked,
    number: u32,
) {
    let is = is_over(tracker, rt.alloc(), checked, number);
    let holds = matches!(is, Ok(true))
        && tracker.busy(&mask(1, 0)).is_none()
        && tracker.is_cleaned(number);
    assert_row(rt, holds, "commits", number as usize);
}

#[test]
fn ten_thousand_commits_leave_nothing_behind(rt: HostRuntime) {
    let mut tracker = Tracker::new(rt.alloc());
    let checked = checked(OF_CRTC);
    for number in 0..10_000 {
        assert_over(&rt, &mut tracker, &checked, number);
    }
}

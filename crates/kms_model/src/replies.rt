//! What is answered to a command, and the steps of a run.
use crate::objects::{Kind, ObjId};

/// A flip event. (Header: `drm.h`, `struct drm_event_vblank`.)
#[derive(Clone, Copy, PartialEq, Eq)]
pub struct Event {
    /// The user data of the request that asked for it.
    pub user_data: u64,
    /// The CRTC's vblank count at the latch, modulo 2^32.
    pub sequence: u32,
    /// The CRTC's id.
    pub crtc: u32,
}

/// The number of a refused request, from 1 to 26. The flags are tried first, then each assignment, then what is wrong
/// with the state after the request, kind of object by kind of object. An accepted request is refused by 25 and 26
/// alone.
#[derive(Clone, Copy, PartialEq, Eq)]
pub struct Refusal(pub u32);

/// The number of another refused command, from 31 to 35.
#[derive(Clone, Copy, PartialEq, Eq)]
pub struct Denied(pub u32);

/// What is answered to a command.
#[derive(Clone, Copy, PartialEq, Eq)]
pub enum Reply {
    /// A thing was made.
    Made {
        /// Its id, from 1000 on.
        id: u32,
    },
    /// It is done.
    Done,
    /// The request was committed.
    Commit {
        /// Its number, counted from 0: how many commits were before it.
        commit: u32,
    },
    /// The request was tested only, and would be accepted.
    Tested,
    /// The request was refused.
    Refused(Refusal),
    /// There is no space for the events.
    Space {
        /// The bytes that reserved and unread events take: 32 for each, at most 4096.
        used: u32,
    },
    /// A commit that does not wait met one that has not flipped.
    Busy {
        /// The object on which it met the other.
        object: ObjId,
        /// The number of the other commit, counted from 0.
        commit: u32,
    },
    /// Another command was refused, with a number from 31 to 35.
    Denied(u32),
    /// The oldest event that was not read.
    Event(Event),
    /// There is no event and none will come.
    NoEvent,
}

/// A recorded reply.
#[derive(Clone, Copy, PartialEq, Eq)]
pub struct Answered {
    /// The client, counted from 1.
    pub client: u32,
    /// The command's number in the client, counted from 1.
    pub command: u32,
    /// How many commands had been accepted before.
    pub place: u64,
    /// The reply.
    pub reply: Reply,
}

/// One step of a run: an event of a client, a worker, a vblank or the end of a dead history. Clients are counted
/// from 1 and commits from 0; `kind` and `index` (from 0) name a display object.
#[derive(Clone, Copy, PartialEq, Eq)]
pub enum Step {
    /// A client's acquire context begins. (Kernel: "KMS Locking", `drm_modeset_acquire_init`.)
    Begin { client: u32 },
    /// A context asks for an object's lock. (`drm_modeset_lock`.)
    Lock { client: u32, kind: Kind, index: u32 },
    /// A context that met an older one drops all its locks. (`drm_modeset_backoff`.)
    BackOff { client: u32 },
    /// A context that backed off takes the contended lock.
    Relock { client: u32 },
    /// A request is refused.
    Refuse { client: u32 },
    /// A request is tested only. (`DRM_MODE_ATOMIC_TEST_ONLY`.)
    Test { client: u32 },
    /// A request is committed. (`drm_atomic_helper_swap_state`.)
    Swap { client: u32 },
    /// A command makes or closes a thing.
    Make { client: u32 },
    /// A command signals a fence.
    Signal { client: u32 },
    /// A worker takes a commit. (`drm_atomic_helper_wait_for_dependencies`.)
    Claim { commit: u32 },
    /// A worker writes an object's shadow registers. (`drm_atomic_helper_commit_planes`.)
    Write { commit: u32, kind: Kind, index: u32 },
    /// A worker flushes a CRTC. (`atomic_flush` of `struct drm_crtc_helper_funcs`.)
    Flush { commit: u32, kind: Kind, index: u32 },
    /// The hardware has taken a commit. (`drm_atomic_helper_commit_hw_done`.)
    HwDone { commit: u32 },
    /// A vblank of a CRTC. (Kernel: "Vertical Blanking".)
    Vblank { kind: Kind, index: u32 },
    /// A commit's states are given up. (`drm_atomic_helper_commit_cleanup_done`.)
    Cleanup { commit: u32 },
    /// A client reads an event, or is told that none will come.
    Read { client: u32 },
    /// A blocking commit's client goes on.
    Return { client: u32 },
    /// A dead history ends.
    Stall,
}

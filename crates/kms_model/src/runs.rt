//! What a run of many actors keeps of its clients and of its CRTCs.
use crate::objects::{ObjId, Ticket};
use crate::pictures::Picture;

/// What a client is doing. (Kernel: "KMS Locking", `struct drm_modeset_acquire_ctx`.)
#[derive(Clone, Copy, Debug, PartialEq, Eq)]
pub enum Doing {
    /// Nothing: its next command has not begun, or it is at its end.
    Idle,
    /// Its acquire context takes locks.
    Taking(Ticket),
    /// Its context met an older one that holds this object, and must drop its locks.
    MustBackOff(Ticket, ObjId),
    /// Its context dropped its locks, and takes this object first.
    BackedOff(Ticket, ObjId),
    /// Its blocking commit, of this number, counted from 0, is waited for.
    Returning(u32),
}

/// Where a client stands.
#[derive(Clone, Copy, PartialEq, Eq)]
pub struct Place {
    /// The number of the command that it stands at, counted from 1; the number after the last one at its end. A client
    /// that waits for its commit still stands at the command that committed.
    pub command: u32,
    /// What it does there.
    pub doing: Doing,
}

/// A picture that a CRTC latched. (Kernel: "Vertical Blanking".)
#[derive(Clone, Copy, PartialEq, Eq)]
pub struct Latch {
    /// The CRTC's index.
    pub crtc: u32,
    /// The number of the commit that latched, counted from 0.
    pub commit: u32,
    /// The CRTC's count of vblanks after the latch.
    pub count: u64,
    /// What the live registers show after it.
    pub picture: Picture,
}

//! How far the tail of a commit has come.
ghost use Rattle.std.specs.Prelude.{◌≡◌, ◌<◌, ◌≤◌, IfSome};
ghost use Rattle.kms_model.specs.Firsts.{one_if};
ghost use Rattle.kms_track.specs.Tails.{IsMark, count_below, first_left, is_left, no_progress, with_bit, with_mark};

use kms_model::has_bit;

/// How far the tail of a commit has come. In a mask bit i stands for the object with index i.
#[derive(Clone, Copy, PartialEq, Eq)]
pub struct Progress {
    /// Whether a worker has claimed it.
    pub claimed: bool,
    /// The CRTCs whose registers it has written, a mask.
    pub crtcs: u32,
    /// The planes whose registers it has written, a mask.
    pub planes: u32,
    /// The CRTCs that it has flushed, a mask.
    pub flushed: u32,
    /// Whether all its registers are written and flushed.
    pub done: bool,
    /// The CRTCs at which it has latched, a mask.
    pub latched: u32,
}

/// What a step does of a commit. CRTCs, from 0 to 3, and planes, from 0 to 15, are given by their indices.
#[derive(Clone, Copy, PartialEq, Eq)]
pub enum Mark {
    /// A worker claims it.
    Claimed,
    /// The registers of a CRTC are written.
    WroteCrtc(u32),
    /// The registers of a plane are written.
    WrotePlane(u32),
    /// A CRTC is flushed.
    Flushed(u32),
    /// All its registers are written and flushed.
    Done,
    /// It latches at a CRTC.
    Latched(u32),
}

impl Progress {
    /// Nothing was done of it.
    pub(crate) fn none() -> Progress
        ensures { result ≡ no_progress }
    {
        Progress {
            claimed: false,
            crtcs: 0,
            planes: 0,
            flushed: 0,
            done: false,
            latched: 0,
        }
    }

    /// How far it has come after a step.
    pub(crate) fn with(self, mark: Mark) -> Progress
        requires { IsMark mark }
        ensures { result ≡ with_mark mark self }
    {
        match mark {
            Mark::Claimed => Progress {
                claimed: true,
                ..self
            },
            Mark::WroteCrtc(index) => Progress {
                crtcs: with_bit(self.crtcs, index),
                ..self
            },
            Mark::WrotePlane(index) => Progress {
                planes: with_bit(self.planes, index),
                ..self
            },
            Mark::Flushed(index) => Progress {
                flushed: with_bit(self.flushed, index),
                ..self
            },
            Mark::Done => Progress { done: true, ..self },
            Mark::Latched(index) => Progress {
                latched: with_bit(self.latched, index),
                ..self
            },
        }
    }
}

/// A mask with one bit more.
fn with_bit(mask: u32, index: u32) -> u32
    requires { index < 32 }
    ensures { result ≡ with_bit mask index }
{
    mask | 1 << index
}

/// The least index, of so many, that is in one mask and not in another.
pub(crate) fn first_left(asked: u32, over: u32, count: u32) -> Option<u32>
    requires { count ≤ 32 }
    ensures first { result ≡ first_left asked over count }
    ensures bound { IfSome result (λ i. i < count) }
{
    (0..count).find(|index| is_left(asked, over, *index))
}

/// How many indices, of so many, are in one mask and not in another.
pub(crate) fn count_left(asked: u32, over: u32, count: u32) -> u32
    requires { count ≤ 32 }
    ensures number { result ≡ count_below (is_left asked over) count }
    ensures bound { result ≤ count }
{
    let mut left = 0;
    for index in 0..count {
        left += one_if(is_left(asked, over, index));
    }
    left
}

/// One, where a test says so.
pub(crate) fn one_if(holds: bool) -> u32
    ensures { result ≡ one_if holds }
{
    if holds { 1 } else { 0 }
}

/// Whether an index is in one mask and not in another.
pub(crate) fn is_left(asked: u32, over: u32, index: u32) -> bool
    ensures { result ≡ is_left asked over index }
{
    has_bit(asked, index) && !has_bit(over, index)
}

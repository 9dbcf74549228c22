//! Places where a run may be held.
use std::sync::Wait;

/// Where in a run a player comes to the gate. Its two numbers there say who comes.
#[derive(Clone, Copy, PartialEq, Eq)]
pub enum Point {
    /// A client, before each check of a request: its number and the number of its command.
    Check,
    /// A client, after each answer: its number and the number of its command.
    Answered,
    /// A worker, before each claim of a commit: its number and 0.
    Claim,
    /// A player of vblanks, before each tick: the index of its CRTC and 0.
    Vblank,
}

/// A place that each player of a run comes to, and that may hold it there for as long as it likes.
/// So a test can bring about an order of steps that chance would seldom bring.
pub trait Gate {
    /// Holds who comes to `point` with the numbers `a` and `b`, which [`Point`] tells. It changes
    /// nothing that the run looks at, and may wait for others.
    fn at<R: Wait>(&self, rt: &R, point: Point, a: u32, b: u32);
}

/// A gate that holds nobody.
#[derive(Clone, Copy, PartialEq, Eq)]
pub struct NoGate;

impl Gate for NoGate {
    /// Returns at once.
    fn at<R: Wait>(&self, _rt: &R, _point: Point, _a: u32, _b: u32) {}
}

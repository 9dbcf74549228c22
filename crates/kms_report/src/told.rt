//! What a report tells of the latches of a CRTC.
use kms_core::Core;
use kms_model::Latch;

/// The latches of a CRTC, of which a report tells.
#[derive(Clone, Copy)]
pub struct Told<'a> {
    /// The machine that latched.
    pub core: &'a Core,
    /// The index of the CRTC, from 0 to 3.
    pub crtc: u32,
    /// The latches of all CRTCs, in order of time.
    pub latches: &'a [Latch],
    /// Whether each frame is wanted as a pixmap, behind the line of its latch.
    pub pixmap: bool,
}

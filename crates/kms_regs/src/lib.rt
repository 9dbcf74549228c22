//! The registers of planes and CRTCs.
//!
//! Each register has a shadow word, which workers write, and a live word, which a latch copies from it. A CRTC that is
//! told to go latches at its next vblank, which is counted; one that is off latches at once. No call takes
//! memory. (Kernel: "Plane Helper Reference", "Vertical Blanking".)
#![tactic(auto)]

mod banks;
mod file;
mod law;
mod pictures;
mod words;

pub use file::RegFile;
pub use law::{follows_the_machine, latch_shows_what_was_written};

//! Courses: what is done on a machine, and what it tells meanwhile, as text of a line for each; and what the tests of the
//! machine share besides.
#![tactic(auto)]

mod answers;
mod calls;
mod comparing;
mod courses;
mod ends;
mod lists;
mod moves;
mod places;
mod playing;
mod refusing;
mod replays;
mod single;
mod starting;
mod steps;

pub use calls::call_decision;
pub use comparing::{looks_same, tells_same};
pub use courses::{follow, step_of};
pub use moves::{do_step, goes, next_of, place_of};
pub use playing::{Played, play};
pub use replays::{do_again, start_anew};
pub use single::{RequestContext, call_lock, call_relock, call_step, context_with, decide};
pub use starting::{NotStarted, start_machine};
pub use steps::{Object, crtc, flush, lock, plane, vblank, write};

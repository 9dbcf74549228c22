//! Which commits are under way, how far each has come, and which of them others wait for.
//!
//! A commit is set up with the objects that it touches, and has the number of the commits before it. A worker claims it,
//! writes the registers of each CRTC and plane that it touches and flushes each CRTC that it names; it latches once at each
//! of these, is done, and is cleaned up. `Tracker` has one record (`Tail`) of each commit that is not cleaned: what its tail
//! still needs, how far that has come, and what it waits for. It answers which object is busy, which commit a new one on
//! some CRTCs has to wait for, and whether a commit may be claimed. The last commits of each object stand in an array by
//! object, and a commit that is cleaned leaves nothing behind, so that no call takes longer for the commits that are over.
//! No call but `make_room` and `setup` takes memory.
//!
//! (Kernel: `drm_atomic_helper.c`, `drm_atomic_helper_setup_commit`, `drm_atomic_helper_wait_for_dependencies`,
//! `drm_atomic_helper_commit_tail`, `drm_atomic_helper_commit_hw_done` and `drm_atomic_helper_commit_cleanup_done`;
//! `struct drm_crtc_commit`, `struct drm_atomic_state`.)
#![tactic(auto)]

mod lasts;
mod law;
mod places;
mod progress;
mod tail;
mod tails;
mod tracker;
mod waits;

pub use lasts::Last;
pub use law::{answers_as_the_machine, follows_the_machine, legal_steps_are_left};
pub use places::{Sides, has_object, object_at_place};
pub use progress::{Mark, Progress};
pub use tail::{Signals, Tail};
pub use tracker::Tracker;

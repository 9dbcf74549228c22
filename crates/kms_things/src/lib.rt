//! The things that commands make and close, and the present states of a device's objects.
//!
//! `Things` has the blobs, buffers, framebuffers and fences, open and closed, by label and by id, and executes the
//! commands that make and close them. No call takes longer after many things were made than after few, but for the
//! memory that they take, and for `mode_label`, which looks for a mode among all of them. `start_states` and `swap`
//! give the states of all objects before the first command and after an accepted request.
#![tactic(auto)]

mod index;
mod labels;
mod looks;
mod making;
mod previews;
mod refusals;
mod starting;
mod swapping;
mod things;

pub use starting::start_states;
pub use swapping::swap;
pub use things::Things;

//! The order in which one thread does the steps of all actors, run on a machine, and schedules that are replayed on it.
#![tactic(auto)]

mod ending;
mod replaying;
mod rounds;
mod turns;

pub use ending::{End, end_of};
pub use replaying::{ReplayError, replay};
pub use rounds::finish;

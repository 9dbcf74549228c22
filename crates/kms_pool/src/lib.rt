//! Players that take turns in several threads.
//!
//! The players wait in one queue. A thread takes the first of them, gives it a turn while it holds nothing else, and
//! puts it back at the end. All of it is this device's own; the queue is `crossbeam_queue`'s.
#![tactic(auto)]

mod idle;
mod participant;
mod player;
mod quiet;
mod rounds;
mod rules;
mod work;

pub use player::{Player, Turn};
pub use rounds::drive;

//! The check of the state after a request: the late refusals, by the objects that the request touches alone; and what a client
//! that takes locks for its request asks for next.
//!
//! `check` first asks for the duplicated states of what the request touches, in three groups; then it applies what the
//! request sets, and tries the refusals. It takes no memory. `next_move` resolves the request with what its labels named, and
//! checks it over the states that its locks gave: the request is refused, or one more object is to be locked, or the request
//! is accepted.
#![tactic(auto)]

mod applying;
mod checking;
mod lacking;
mod least;
mod moving;

pub use checking::{Refused, check};
pub use lacking::have_places;
pub use moving::{Move, next_move};

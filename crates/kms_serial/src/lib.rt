//! The device of one thread.
#![tactic(auto)]

mod requests;
mod serial;
mod store;
mod values;

pub use serial::Serial;

//! The device that threads share: the machine behind a lock whose history they see grow.
#![tactic(auto)]

mod attempt;
mod commands;
mod contexts;
mod decisions;
mod device;
mod kernel;
mod tries;
mod workers;

pub use attempt::{Attempt, Attempted, Findings};
pub use decisions::Accepted;
pub use device::Device;
pub use kernel::{Kernel, Pass};

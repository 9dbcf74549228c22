//! Where a program's bytes come from, where they go to, and the gates at which a run may be held.
//!
//! A program reads from a [`Source`] and writes to a [`Sink`]. What it proves of its input and output
//! it says of these two alone: of the bytes that a source has left and that a sink was given, and of
//! how often each of them has failed. [`MemSource`] and [`MemSink`] stand in memory and fail exactly
//! where they are told to. [`StdSource`] and [`StdSink`] stand on any reader and writer of std.
#![tactic(auto)]

mod error;
mod gate;
mod memory;
mod standard;
mod traits;

pub use error::NoMemory;
pub use gate::{Gate, NoGate, Point};
pub use memory::{MemSink, MemSource};
pub use standard::{StdSink, StdSource};
pub use traits::{Failed, Sink, Source};

//! Buffers with their words, and framebuffers with their references.
//!
//! `Buffers` makes each buffer's words from a pattern and hands them out as an `Image`. `FbStore` keeps a
//! framebuffer exactly while something refers to it: its being open, or a reference that was taken.
#![tactic(auto)]

mod buffers;
mod framebuffers;
mod patterns;

pub use buffers::{Buffers, LARGEST_BYTES, LARGEST_SIDE, MakeError};
pub use framebuffers::FbStore;

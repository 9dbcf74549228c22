//! The tails of commits: their registers, their latches and their end.

mod latching;
mod workers;

pub use workers::claim_commit;

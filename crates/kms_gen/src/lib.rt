//! Generated scripts: two clients, each of which lights a CRTC of its own and then flips its plane, by the numbers of a
//! linear congruential generator. A script is determined by a seed and by how many commits there are.
#![tactic(auto)]

mod commands;
mod flips;
mod labels;
mod numbers;
mod scripts;

pub use scripts::generate;

//! The tests of the device that threads share, of the players at it, and of the gate that these come to; and calls of that device
//! through a pass, which the tests make.
#![tactic(auto)]

#[cfg(test)]
mod backing_off;
#[cfg(test)]
mod crowd;
#[cfg(test)]
mod gates;
#[cfg(test)]
mod meeting;
#[cfg(test)]
mod opening;
pub mod pass_calls;
#[cfg(test)]
mod player_texts;
#[cfg(test)]
mod players;
#[cfg(test)]
mod scripts;
#[cfg(test)]
mod seats;
#[cfg(test)]
mod texts;
#[cfg(test)]
mod watching;

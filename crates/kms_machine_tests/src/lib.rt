//! Tests of the machine and of what it and its threads stand on, by their public calls: registers, signals, commits and their tails,
//! locks and clients, things, the framebuffers that are given up, lists, the lock whose holders take turns, and the threads that
//! give players theirs. A test of a store is a table of calls on it, each with what it answers; one function makes the call of a
//! row, so that no function owns a store across many calls.
//!
//! Of the machine stands here what no text can say: random walks of many clients, with the steps that a machine tells next beside
//! those that are legal, look-ups that grow old, and machines that are told apart. Cases that are text are those of `kms_courses`.
#![tactic(auto)]

#[cfg(test)]
mod asking;
#[cfg(test)]
mod clients;
#[cfg(test)]
mod counting;
#[cfg(test)]
mod crowds;
#[cfg(test)]
mod dice;
#[cfg(test)]
mod following;
#[cfg(test)]
mod freeing;
#[cfg(test)]
mod holding;
#[cfg(test)]
mod kinds;
#[cfg(test)]
mod lists;
#[cfg(test)]
mod locks;
#[cfg(test)]
mod looking;
#[cfg(test)]
mod notebook;
#[cfg(test)]
mod registers;
#[cfg(test)]
mod rows;
#[cfg(test)]
mod signals;
#[cfg(test)]
mod tails;
#[cfg(test)]
mod things;
#[cfg(test)]
mod tracking;
#[cfg(test)]
mod turns;
#[cfg(test)]
mod walking;
#[cfg(test)]
mod walks;

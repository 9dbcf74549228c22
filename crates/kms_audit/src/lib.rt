//! A checker of reports: whether each line of a report is right by the device of one thread alone, or which is the first that
//! is not. No machine is run.
//!
//! `audit` goes once through the report's journal, with one device of one thread. What the lines alone tell is found before:
//! which commands are entries, and which have a reply (`index`), and how far R lines stand in their order, client by client
//! (`order`). On the way each R line is compared at its place (`compared`, `replies`, `late`), and each picture that a commit
//! makes a CRTC show with the CRTC's next L line (`latches`, `frames`); the commits that touched an object last (`touches`)
//! and whose they are (`owners`) are kept in tables. Behind the journal come the events, the framebuffers that were freed, and
//! the end (`events`, `freed`, `ends`).
//!
//! The time grows with the number of lines, but for a logarithm of it, and with the frames that are made: one for each L line
//! whose picture is not one of the last two of its CRTC. Of frames there is one at a time, and only their digests are kept.
#![tactic(auto)]

mod audits;
mod boundaries;
mod compared;
mod ends;
mod events;
mod frames;
mod freed;
mod images;
mod index;
mod latches;
mod late;
mod law;
mod lines;
mod order;
mod owners;
mod placed;
mod replies;
mod touches;
mod verdicts;
mod walk;

pub use audits::audit;
pub use law::what_a_yes_implies;
pub use verdicts::Audit;

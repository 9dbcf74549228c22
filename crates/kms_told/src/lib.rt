//! What the report of a history tells is right: laws of every history of every script, proved over the definitions alone. Each
//! is the contract of a function that does nothing.
#![tactic(auto)]

mod told;

pub use told::{commits_are_the_journals, events_fit, reports_are_right, texts_are_seen};

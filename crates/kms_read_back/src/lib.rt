//! Reports are read back.
#![tactic(auto)]

mod laws;

pub use laws::{histories_are_read_back, histories_have_no_wrong_line, reports_are_read_back};

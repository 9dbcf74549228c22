//! Reports, read: the report that a text without pixmaps spells, or the first line of it that may not stand.
//!
//! `parse_report` reads a whole report, as it stands behind a script. What a line says need not be true; `kms_audit` asks
//! that.
#![tactic(auto)]

mod laws;
mod report_lines;
mod report_replies;
mod reports;

pub use laws::{read_reports_are_their_text, reports_stand_behind_scripts};
pub use reports::{ReportError, parse_report};

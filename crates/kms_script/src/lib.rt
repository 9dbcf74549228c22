//! The grammar of scripts: the script that a text spells, or the first line of it that may not stand.
//!
//! `parse` reads every script, and `print` writes its text; `read_topology` reads the device at the front of a script
//! alone. `read_command` and `print_command` read and write one line of a client, `read_step` and `print_step` one of a
//! schedule. `split_line` cuts an input into lines, for grammars that share lines with this one.
#![tactic(auto)]

mod devices;
mod draft;
mod endings;
mod faults;
mod inputs;
mod laws;
mod lines;
mod one_line;
mod overlong;
mod printing;
mod printing_steps;
mod rows;
mod schedules;
mod steps;
mod stop;

pub use devices::{TopologyRead, read_topology};
pub use draft::all_printable;
pub use faults::ParseError;
pub use inputs::{Parsed, parse, parse_within};
pub use kms_model::Why;
pub use kms_words::{
    MAX_ASSIGNS, MAX_BLOB, MAX_COMMANDS, MAX_INPUT, MAX_LABELS, MAX_SCRIPT, is_label, read_dec,
    read_int,
};
pub use laws::{forms_need_no_names, generated_scripts_are_well_formed, requests_are_read_back};
pub use one_line::{LineError, NameIndex, read_command, read_command_with};
pub use printing::{print, print_command};
pub use printing_steps::print_step;
pub use rows::{Row, split_line};
pub use schedules::schedules_are_read_back;
pub use steps::{read_step, steps_have_one_line};
pub use stop::Stop;

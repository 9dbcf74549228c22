//! Lines of scripts: what a word of a line spells, and the words that spell a thing; the command that a line spells, behind the
//! names of the lines before it, and the words of a command.
//!
//! A reader takes a word from the front of a line's bytes, and leaves those behind it; `push_..` adds a word to a text.
//! `command_of` reads a line with the names so far, and `push_command` writes one. The names and the limits of a script stand here
//! too. The grammar is that of `kms_model`'s scripts.
#![tactic(auto)]

mod commands;
mod limits;
mod lists;
mod modes;
mod names;
mod numbering;
mod numbers;
mod objects;
mod packing;
mod patterns;
mod printing_commands;
mod printing_words;
mod requests;
mod words;

pub use commands::command_of;
pub use limits::{MAX_ASSIGNS, MAX_BLOB, MAX_COMMANDS, MAX_INPUT, MAX_LABELS, MAX_SCRIPT};
pub use lists::{read_crtcs, read_formats, take_format};
pub use modes::take_mode;
pub use names::Names;
pub use numbers::{read_blob, read_int, take_hex};
pub use objects::{AssignWords, known_property, read_assign_words, read_object};
pub use packing::push_packed;
pub use patterns::take_pattern;
pub use printing_commands::{push_command, push_command_words, push_number, push_word};
pub use printing_words::{
    format_word, kind_word, name_word, push_assign, push_blob, push_crtcs, push_decimal,
    push_formats, push_hex, push_pixel, type_word,
};
pub use words::{
    MOST, is_label, read_dec, split_at_byte, strip, take_dec, take_end, take_field, take_label,
};

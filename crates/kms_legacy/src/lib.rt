//! Older calls, translated: a script in which they stand in place of atomic requests, and the script that does the same by
//! atomic requests.
//!
//! `parse_legacy` reads a script with older calls. `translate` gives the request that a call asks for, over the states of a
//! device's objects, and `translate_script` the whole script of requests, by the device of one thread. What an older call
//! asks for, and that the translated script shows what the user of older calls sees, is stated in `specs/Legacy` of
//! `kms_model`; the forms of the lines are this project's own.
#![tactic(auto)]

mod calls;
mod errors;
mod fields;
mod laws;
mod looking;
mod present;
mod reading;
mod requests;
mod script;
mod setting;
mod special;
mod translating;

pub use errors::LegacyError;
pub use kms_model::{LegacyCall, LegacyCommand, LegacyScript};
pub use laws::there_is_one_translation;
pub use reading::parse_legacy;
pub use script::translate_script;
pub use translating::translate;

//! The program: it reads a script, executes it on the machine of many clients, by one thread or several, and writes the
//! report of the history; or it generates a script, or translates one with older calls; or it turns the device of a script
//! off behind its history, and brings it back; or it checks a report behind a script.
#![tactic(auto)]

mod answers;
mod auditing;
mod generated;
mod running;
mod slept;
mod status;
mod stream;
mod top;
mod translated;
mod words;

pub use answers::{FullReport, NoAnswer, answer, answer_to};
pub use auditing::{NoYes, answer_audit};
pub use slept::{NoSleep, answer_suspend, answer_suspend_to};
pub use status::{Status, status_text};
pub use top::{kms_main, kms_plain};
pub use translated::{answer_legacy, answer_legacy_to};
pub use words::{Action, Execution, Generation, Task, is_run, legal_words, read_words};

//! The device for programs that are not written in Rattle: a script is executed by one thread, as by the program `kms`, and
//! what the program would write is put into memory of the caller; or the caller is told whether a report is right. Nothing is
//! kept from call to call, nothing is shared between calls, and the caller has nothing to free. The C header is `c/kms.h`.
#![tactic(auto)]

mod exports;
mod put;
mod told;
mod verdicts;

pub use exports::{kms_audit, kms_legacy, kms_one, kms_replay, kms_suspend, kms_verdicts};
pub use told::Told;

//! Lists that are written at their ends alone, into memory that was taken beforehand: the records of a machine.

mod ledgers;
mod logs;

pub use ledgers::Ledger;
pub use logs::Log;

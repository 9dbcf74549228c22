//! The machine: a display device with many clients, workers and vblanks.
#![tactic(auto)]

mod applying;
mod calls;
mod deciding;
mod freeing;
mod lists;
mod machine;
mod next;
mod promises;
mod queries;
mod spare;
mod stores;
mod tails;

pub use calls::{Locked, has_lock};
pub use freeing::{any_names, both_name, put_both, shown_ids};
pub use lists::{Ledger, Log};
pub use machine::Core;
pub use spare::Spare;
pub use stores::Decided;

//! Calls of the device that threads share, through a pass. The device's calls ask for what holds where a client stands; here are
//! calls that first ask the device for that, and are not made where a client stands elsewhere, so that tests owe nothing for
//! them; and clients that commit and do the tails of the commits too.

mod calling;
mod calls;
mod locks;
mod places;
mod turns;
mod two;

pub use calling::{Call, Told, make_call};
pub use calls::{commit, make, return_from};
pub use locks::{back_off, begin, lock, relock};
pub use turns::{commit_and_finish, prepare};
pub use two::Two;

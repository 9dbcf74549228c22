//! The calls of the machine that take locks and decide requests, as a client's thread makes them one by one: what each asks for
//! is found out before it, and so proved. The other steps but claims are done by their single calls too.
mod contexts;
mod deciding;
mod locks;
mod steps;

pub use contexts::{RequestContext, context_with};
pub use deciding::decide;
pub use locks::{call_lock, call_relock};
pub use steps::call_step;

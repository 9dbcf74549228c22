//! What clients are told of commits: fences, and flip events with the space that they take.
//!
//! A fence is made, and may be signalled; it then stays signalled. Each client has a queue of flip events. A commit
//! reserves the space of its events before it changes anything; an event is delivered at its latch, and is unread until
//! the client reads it. Calls that need memory have a call beside them that takes this memory beforehand and changes
//! nothing else.
//!
//! (Kernel: "DMA Fences"; `drm_file.c`, `drm_event_reserve_init`, `drm_send_event` and `drm_read`.)
#![tactic(auto)]

mod bytes;
mod fences;
mod law;
mod queues;
mod tables;

pub use bytes::{EVENT_BYTES, event_bytes, flip_event};
pub use fences::Fences;
pub use law::{delivered_is_read_then_unread, follow_the_machine, stands_for_the_machine};
pub use queues::{EVENT_SPACE, EventQueue, ReserveError};
pub use tables::RoomTable;

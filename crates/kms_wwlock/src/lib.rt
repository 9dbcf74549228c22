//! Acquire contexts over the modeset locks of a display device.
//!
//! A client that wants to change the device begins a context, which has a ticket: the smaller ticket is the
//! older one. The context locks the objects that it needs one by one. Where it meets an older holder it has to
//! back off: it frees all its locks, and then locks the object that it met before any other. Where it meets a
//! younger holder it waits. So no contexts wait in a circle, which `no_cycle_of_waits` states.
//!
//! `Clients` keeps, beside the table of locks, the place of each client of a device: the command that it is at, and what it does
//! there. Its contracts are in the words of the machine: a call takes what stands for a machine's contexts to what stands for
//! them after the step.
//!
//! (Kernel: `Documentation/gpu/drm-kms.rst`, "KMS Locking", and `drivers/gpu/drm/drm_modeset_lock.c`;
//! `Documentation/locking/ww-mutex-design.rst`. Own choices of this device: of the two algorithms there it is
//! Wait-Die, and it never waits inside a call. A call that would wait in the kernel answers who holds the
//! object, and is made again.)
#![tactic(auto)]

mod clients;
mod contexts;
mod holders;
mod law;
mod table;

pub use clients::Clients;
pub use contexts::{Context, ContextDoing};
pub use law::no_cycle_of_waits;
pub use table::{Lock, LockTable, Relock};

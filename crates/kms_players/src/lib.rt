//! The players of a run: clients, workers and vblank players, which take turns at one device.
//!
//! A turn makes one step of the device's history at most. A player that finds that its next step is not legal yet tells how long
//! the history was; so all players rest once nobody can do anything.
#![tactic(auto)]

mod any;
mod client;
mod looking;
mod name;
mod resting;
mod site;
mod tick;
mod worker;

pub use any::AnyPlayer;
pub use client::Client;
pub use name::Name;
pub use tick::VblankTick;
pub use worker::Worker;

//! What may be done next in a history, and what one thread does next.

mod client_steps;
mod groups;
mod judgement;
mod judging;
mod lacking;
mod legality;
mod lookers;
mod moving;
mod ordering;
mod settling;
mod stalling;
mod tail_steps;

pub use client_steps::has_client;
pub use judging::{check_request, refusal_reply, request_taken, resolve_request};

//! The duplicated states of display objects: each object that a request needs is duplicated once, and sets change
//! the new states, with the sets of planes and connectors of the CRTCs kept in step.
//!
//! The type `Duplicates` stands in `kms_model`; the trait [`Duplicating`] gives it its calls. No call takes memory.
#![tactic(auto)]

mod in_place;
mod places;
mod sets;

pub use in_place::InPlace;
pub use places::Duplicating;

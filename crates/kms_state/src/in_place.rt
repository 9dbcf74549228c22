//! Properties that are set in `Duplicates` themselves.
use crate::places::Duplicating;
use kms_model::{Duplicates, Set, Topology};
use kms_props::Setter;

/// Sets properties in `Duplicates`, by their own call.
#[derive(Clone, Copy)]
pub struct InPlace;

impl Setter for InPlace {
    fn set(&self, _topology: &Topology, states: &mut Duplicates, set: &Set) {
        states.set(set);
    }
}

//! Refusals of a request, and what an accepted one asks for.
//!
//! `early` gives the first early refusal: those that a request's flags, its assignments and what its labels name
//! decide. `resolve` makes of a request that passes them what it asks for, with its labels looked up, `set_of` what one
//! assignment sets, and `named` gives the CRTCs that the request names. `late_refusal` gives the first late
//! refusal of a set of duplicated objects, and `full_check` that of the whole device.
#![tactic(auto)]

mod duplicated;
mod errors;
mod fences;
mod groups;
mod late;
mod laws;
mod lookups;
mod naming;
mod picking;
mod reaching;
mod refusals;
mod resolving;
mod sets;
mod spanning;
mod states;
mod targets;
mod whole;

pub use errors::RequestError;
pub use fences::out_fence_numbers;
pub use groups::{affected, crtcs_fenced, objects_set, only_crtcs, union};
pub use late::{Asked, late_refusal};
pub use laws::reach_of_accepted_is_touched;
pub use lookups::Looker;
pub use naming::named;
pub use reaching::{changed, reach};
pub use refusals::{count_of, early, exists};
pub use resolving::resolve;
pub use sets::{object_of, prop_of, set_of};
pub use spanning::spans;
pub use states::needs_modeset;
pub use whole::{full_check, named_in};

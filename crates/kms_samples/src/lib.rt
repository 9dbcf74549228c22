//! Modes, devices, ids, gamma tables and requests that tests are about, each with its exact value; texts of
//! scripts; numbers by chance; and files of cases, read.
//! Only tests, definitions for tests, and `kms_cases` call this crate.
#![tactic(auto)]

pub mod casebook;
mod chance;
mod devices;
mod gammas;
mod ids;
mod modes;
mod requests;
mod texts;

pub use chance::Chance;
pub use devices::{cloned, double, in_profile_2, pair, plane_of, single, split};
pub use gammas::{FLAT_GAMMA, mixed_gamma};
pub use ids::{CONN, CRTC, PLANE, SECOND_CRTC};
pub use modes::{full_hd, sized_mode, tiny};
pub use requests::{light, on_crtc, on_plane, request, set};

//! A device that is turned off and brought back: the two requests that do so, the script that has both behind its last
//! client's commands, and the machine whose history goes on with them.
//!
//! `suspend` and `resume` make the requests for a device as it is, and `sleep_and_wake` has both of them done behind a
//! history that is drained. (Kernel: `drm_mode_config_helper_suspend`, `drm_mode_config_helper_resume`.)
#![tactic(auto)]

mod closing;
mod laws;
mod longer;
mod parts;
mod requests;
mod sleeping;
mod using;

pub use laws::{devices_sleep_and_wake, longer_scripts_are_well_formed};
pub use requests::{ResumeError, resume, suspend};
pub use sleeping::sleep_and_wake;

//! What a CRTC shows, told by duplicated states; and that no plane of profile 1 is scaled.
#![tactic(auto)]

mod law;
mod pictures;

pub use law::profile_1_scales_nothing;
pub use pictures::{may_picture, picture};

//! Blobs, and the modes and gamma tables that their bytes hold.
//!
//! A `BlobStore` keeps the bytes of each open blob under its id, for the client that made it. A mode travels as
//! the 68 bytes of `struct drm_mode_modeinfo`: `decode_mode` reads a legal mode from them, and `encode_mode`
//! writes a mode. A gamma table travels as 256 `struct drm_color_lut`: `gamma_of_bytes` reads it.
#![tactic(auto)]

mod gammas;
mod modes;
mod store;

pub use gammas::{GAMMA_BYTES, gamma_of_bytes};
pub use kms_model::BadMode;
pub use modes::{MODE_BYTES, decode_mode, encode_mode, is_legal_mode, mode_of};
pub use store::BlobStore;

//! Frames: the bytes of a picture over the images of its framebuffers.
#![tactic(auto)]

mod areas;
mod changes;
mod channels;
mod drawing;
mod frames;
mod images;
mod parts;
mod recomposing;
mod rectangles;
mod rows;
mod sameness;
mod sources;
mod tables;
mod threads;

pub use frames::{Frame, frame, frame_rows};
pub use images::{FbImage, Images};
pub use recomposing::{recompose, recompose_kept, recompose_rows};
pub use sameness::{is_same_layer, is_same_size, is_same_table};
pub use threads::{SeveralDrawers, Share};

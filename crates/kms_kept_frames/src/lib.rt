//! What a CRTC showed last: two pictures, each with its frame and the frame's digest, of which the next ones are made; and how
//! two strands share out what it shows.
#![tactic(auto)]

mod digests;
mod fronts;
mod hands;
mod kept;
mod screen;
mod strands;

pub use digests::digest_of;
pub use fronts::Fronts;
pub use hands::{Hands, OneOfTwo, OneThread, Recomposes, SeveralThreads};
pub use kept::{Drawn, KeptFrame, is_same};
pub use screen::Screen;
pub use strands::{Strand, is_lit, next_other, strands_of};

//! The images of framebuffers.
ghost use Rattle.std.specs.Prelude.{◌≡◌};
ghost use Rattle.std.specs.Option.{option_map};
ghost use Rattle.kms_compose.specs.Images.{image_seen, seen_under};

use kms_model::{Image, Seq};

/// A framebuffer's id, and the image that it shows.
#[derive(Clone, Copy)]
pub struct FbImage<'a> {
    /// The framebuffer's id.
    pub fb: u32,
    /// The image of its buffer.
    pub image: Image<'a>,
}

/// The images of framebuffers, each under an id of its own; none of their words is copied.
pub type Images<'a> = Seq<FbImage<'a>>;

/// The image of the framebuffer with an id; none where it is not among these.
pub fn image_of<'a>(images: &[FbImage<'a>], fb: u32) -> Option<Image<'a>>
    ensures { option_map image_seen result ≡ seen_under images.now fb }
{
    for entry in images {
        if entry.fb == fb {
            return Some(entry.image);
        }
    }
    None
}

//! Rectangles of pixels that are drawn anew.
ghost use Rattle.std.specs.Prelude.{◌≡◌, ℕ, IfSome};
ghost use Rattle.kms_model.specs.declared.objects.Mode.{Mode};
ghost use Rattle.kms_model.specs.Device.States.{natural};
ghost use Rattle.kms_model.specs.Frames.FrameBytes.{is_covered};
ghost use Rattle.kms_model.specs.Frames.Images.{FitsMode};
ghost use Rattle.kms_compose.specs.Areas.{FitsIn, IsNatural, in_area};

use crate::sources::natural;
use kms_model::{Layer, Rect};

/// A rectangle of pixels of a mode.
#[derive(Clone, Copy)]
pub struct Area {
    pub left: usize,
    pub top: usize,
    pub width: usize,
    pub height: usize,
}

/// A rectangle of numbers that are not negative.
fn area_in(visible: &Rect) -> Area
    requires { IsNatural visible.now }
    ensures { result ≡ record {
      left = natural visible.now.x;
      top = natural visible.now.y;
      width = natural visible.now.w;
      height = natural visible.now.h;
    } }
{
    Area {
        left: natural(visible.x),
        top: natural(visible.y),
        width: natural(visible.w),
        height: natural(visible.h),
    }
}

/// The pixels that a layer covers; none where nothing of it is visible.
pub fn area_of(layer: &Layer) -> Option<Area>
    requires { (m : Mode) × FitsMode m layer.now }
    ensures covers { (x y : ℕ) → in_area result x y ≡ is_covered layer.now.visible x y }
    ensures within { (m : Mode) → FitsMode m layer.now
        → IfSome result (FitsIn m.hdisplay m.vdisplay) }
{
    let visible = layer.visible?;
    Some(area_in(&visible))
}

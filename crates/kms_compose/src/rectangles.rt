//! Rectangles of a frame, drawn in place.
ghost use Rattle.std.specs.Prelude.{◌≡◌, ◌<◌, ◌≤◌, ◌*◌, ◌+◌, ℕ, length, All};
ghost use Rattle.kms_model.specs.declared.pictures.Colour.{Colour};
ghost use Rattle.kms_model.specs.Frames.FrameBytes.{black, through};
ghost use Rattle.kms_compose.specs.Areas.{canvas, drawn, FitsIn, is_in};
ghost use Rattle.kms_compose.specs.Parts.{IsPart, parts_over};

use crate::areas::Area;
use crate::parts::VisiblePart;
use crate::threads::Drawer;
use kms_model::Gamma;

/// Draws the pixels of a rectangle, in a frame of a mode of this width.
pub fn draw_area<D: Drawer>(
    drawer: &D,
    parts: &[VisiblePart],
    gamma: &Option<Gamma>,
    width: usize,
    area: &Area,
    bytes: &mut [u8],
)
    requires drawer { D.can_draw drawer.now }
    requires parts { All IsPart parts.now }
    requires narrow { width < 65536 }
    requires across { area.now.left + area.now.width ≤ width }
    requires long { (area.now.top + area.now.height) * (width * 3) ≤ length bytes.old }
    requires low { area.now.top + area.now.height < 65536 }
    ensures { (height : ℕ) (before : ℕ → ℕ → Colour)
        → FitsIn width height area.now → bytes.old ≡ canvas width height before
        → bytes.new ≡ canvas width height
        (drawn (is_in area.now)
        (λ x y. through gamma.now (parts_over x y black parts.now)) before) }
{
    let start = 3 * (area.top * width);
    let rows = &mut bytes[start..start + 3 * (area.height * width)];
    drawer.draw(parts, gamma, width, area, rows);
}

/// Draws each pixel of a frame of a mode of this size.
pub fn draw_whole<D: Drawer>(
    drawer: &D,
    parts: &[VisiblePart],
    gamma: &Option<Gamma>,
    width: usize,
    height: usize,
    bytes: &mut [u8],
)
    requires drawer { D.can_draw drawer.now }
    requires parts { All IsPart parts.now }
    requires narrow { width < 65536 }
    requires low { height < 65536 }
    requires long { length bytes.old ≡ height * (width * 3) }
    ensures { (before : ℕ → ℕ → Colour) → bytes.old ≡ canvas width height before
        → bytes.new
        ≡ canvas width height (λ x y. through gamma.now (parts_over x y black parts.now)) }
{
    let whole = Area {
        left: 0,
        top: 0,
        width,
        height,
    };
    draw_area(drawer, parts, gamma, width, &whole, bytes);
}

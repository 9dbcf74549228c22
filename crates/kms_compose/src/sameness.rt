//! Whether layers, sizes of modes and gamma tables are the same.
ghost use Rattle.std.specs.Prelude.{◌≡◌, ◌↔◌, IsTrue};
ghost use Rattle.kms_compose.specs.Changes.{IsSameSize};

use kms_model::{Gamma, Layer, Mode, Rect};

/// Whether two rectangles are the same.
fn is_same_rect(one: &Rect, other: &Rect) -> bool
    ensures { IsTrue result ↔ (one.now ≡ other.now) }
{
    *one == *other
}

/// Whether two rectangles are the same, or both are missing.
pub fn is_same_part(one: &Option<Rect>, other: &Option<Rect>) -> bool
    ensures { IsTrue result ↔ (one.now ≡ other.now) }
{
    match (one, other) {
        (None, None) => true,
        (Some(one), Some(other)) => is_same_rect(one, other),
        _ => false,
    }
}

/// Whether two modes have one size.
pub fn is_same_size(one: &Mode, other: &Mode) -> bool
    ensures { IsTrue result ↔ IsSameSize one.now other.now }
{
    one.hdisplay == other.hdisplay && one.vdisplay == other.vdisplay
}

/// Whether two gamma tables are the same, or both are missing.
pub fn is_same_table(one: &Option<Gamma>, other: &Option<Gamma>) -> bool
    ensures { IsTrue result ↔ (one.now ≡ other.now) }
{
    one == other
}

/// Whether two layers are the same.
pub fn is_same_layer(one: &Layer, other: &Layer) -> bool
    ensures { IsTrue result ↔ (one.now ≡ other.now) }
{
    one.plane == other.plane
        && one.fb == other.fb
        && one.alpha == other.alpha
        && one.blend == other.blend
        && is_same_rect(&one.dst, &other.dst)
        && is_same_rect(&one.src, &other.src)
        && is_same_part(&one.visible, &other.visible)
}

//! What tests show: a framebuffer of two pixels, one above the other, at two places.
ghost use Rattle.std.specs.Prelude.{◌≡◌, IfOk};
ghost use Rattle.kms_model.specs.Frames.Images.{FitsMode};
ghost use Rattle.kms_compose.specs.Images.{HasImage};
ghost use Rattle.kms_text_tests.specs.Spots.{ShowsSpots, spot_fb};

use kms_compose::{FbImage, Images};
use kms_geom::clip;
use kms_model::{
    FbInfo, Format, Gamma, Image, Layer, Layers, Mode, NoMemory, Picture, Rect, Seq, Shown,
};
use kms_samples::{CONN, FLAT_GAMMA, PLANE, sized_mode};
use std::alloc::Global;

/// The column and the row at which the framebuffer is shown, and the number of its plane's alpha.
#[derive(Clone, Copy)]
pub struct Spot(pub i16, pub i16, pub u16);

/// The alpha of what is opaque.
pub const OPAQUE: u16 = 65535;

/// What a CRTC that is on shows.
#[derive(Clone, Copy)]
pub struct View {
    /// The columns and the rows of its mode.
    pub size: (u16, u16),
    /// From the lower one.
    pub spots: [Spot; 2],
    /// Whether all colours become one.
    pub is_flat: bool,
}

/// The framebuffer.
const SPOT: FbInfo = FbInfo {
    id: 1000,
    width: 1,
    height: 2,
    format: Format::Xr24,
};

/// Its pixels, whose channels are the bytes `abc` and `foo`.
pub const WORDS: [u32; 2] = [0x0061_6263, 0x0066_6f6f];

/// The image of the framebuffer.
pub fn images<'a>(alloc: Global, words: &'a [u32; 2]) -> Result<Images<'a>, NoMemory>
    ensures { IfOk result (λ images. HasImage images spot_fb) }
{
    let image = Image {
        width: 1,
        height: 2,
        format: Format::Xr24,
        words,
    };
    Ok(Seq::from_vec(Vec::from_array(alloc, [FbImage { fb: 1000, image }])?))
}

/// The layer of a spot, in a mode.
fn layer(mode: &Mode, spot: Spot) -> Layer
    ensures fits { FitsMode mode.now result }
    ensures fb { result.fb ≡ spot_fb }
{
    let dst = Rect {
        x: i64::from(spot.0),
        y: i64::from(spot.1),
        w: 1,
        h: 2,
    };
    let area = Rect {
        x: 0,
        y: 0,
        w: i64::from(mode.hdisplay),
        h: i64::from(mode.vdisplay),
    };
    Layer {
        plane: PLANE.0,
        fb: SPOT,
        dst,
        src: Rect {
            x: 0,
            y: 0,
            w: 65536,
            h: 131072,
        },
        visible: clip(dst, area),
        alpha: u32::from(spot.2),
        blend: 0,
    }
}

/// The table that shows all colours as one, where it is wanted.
fn table(is_wanted: bool) -> Option<Gamma> {
    if is_wanted { Some(FLAT_GAMMA) } else { None }
}

/// The picture of a view.
pub fn picture(view: &View) -> Picture
    ensures { ShowsSpots result }
{
    let mode = sized_mode(view.size.0, view.size.1);
    let mut layers = Layers::new();
    layers.push(layer(&mode, view.spots[0]));
    layers.push(layer(&mode, view.spots[1]));
    Picture::On(Shown {
        mode,
        conn: CONN.0,
        gamma: table(view.is_flat),
        layers,
    })
}

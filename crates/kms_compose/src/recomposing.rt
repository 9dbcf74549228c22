//! Frames made of earlier ones.
ghost use Rattle.std.specs.Prelude.{◌≡◌, ◌<◌, ◌≤◌, ◌*◌, ℕ, List, All, IfOk, OnErr, OnOk, false, length, take};
ghost use Rattle.kms_model.specs.declared.objects.Mode.{Mode};
ghost use Rattle.kms_model.specs.declared.pictures.Colour.{Colour};
ghost use Rattle.kms_model.specs.declared.pictures.Picture.TheVariants.{On};
ghost use Rattle.kms_model.specs.declared.worlds.Thing.{Thing};
ghost use Rattle.kms_model.specs.Frames.FrameBytes.{black, frame_bytes, frame_of, is_covered, through};
ghost use Rattle.kms_model.specs.Frames.Images.{FitsMode};
ghost use Rattle.kms_compose.specs.Areas.{canvas, drawn};
ghost use Rattle.kms_compose.specs.Changes.{IsSameSize, covered_by};
ghost use Rattle.kms_compose.specs.Images.{AreImagesIn, CanShow, IsShowable, word_under};
ghost use Rattle.kms_compose.specs.Parts.{IsPart, parts_over};

use crate::areas::area_of;
use crate::changes::changes;
use crate::frames::{Frame, frame_by, parts_of};
use crate::images::{FbImage, Images};
use crate::parts::VisiblePart;
use crate::rectangles::{draw_area, draw_whole};
use crate::sameness::{is_same_size, is_same_table};
use crate::threads::{Drawer, OneDrawer, SeveralDrawers};
use kms_model::{Gamma, Layer, Mode, NoMemory, Picture, Seq, Shown};
use std::alloc::Global;
use std::mem;
use std::thread::Threads;

/// Makes the frame of a picture of that of another one: what the layers cover that left, came, or changed in framebuffer,
/// source, destination, alpha, blend mode or place in the order is drawn anew, and the rest stays. Where the gamma table
/// differs, each pixel is drawn anew in the memory of the old frame. Where the size of the mode differs, and where the
/// CRTC was off or is, the whole frame is made in memory of its own, beside the old one.
///
/// Both pictures and the images are as [`frame`] asks, and the frame is that of the old picture.
///
/// The only error is want of memory, and then the frame is as it was. No memory is taken for the pixels where the modes have
/// one size.
pub fn recompose(
    alloc: Global,
    frame: &mut Frame,
    old: &Picture,
    new: &Picture,
    images: &Images,
) -> Result<(), NoMemory>
    requires old { CanShow images.now old.now }
    requires new { CanShow images.now new.now }
    requires frame { frame.old ≡ frame_of (word_under images.now) old.now }
    ensures exact { OnOk result (frame.new ≡ frame_of (word_under images.now) new.now) }

    // Where each image is that of a framebuffer among some things, the frame is theirs.
    ensures things { OnOk result ((things : List Thing)
        → AreImagesIn things images.now → frame.new ≡ frame_bytes things new.now) }
    ensures unchanged { OnErr result (frame.new ≡ frame.old) }
{
    recompose_kept(alloc, frame, old, new, images)?;
    Ok(())
}

/// Does what [`recompose`] does, and tells how many bytes at the front of the frame it left as they were, so that a digest of
/// them need not be made again.
///
/// They are those of the rows above each rectangle that was drawn: so a whole number of rows, the whole frame where nothing
/// was drawn, and none where each pixel was drawn or the whole frame made. No clause holds the number to be large, since it is
/// for speed alone.
pub fn recompose_kept(
    alloc: Global,
    frame: &mut Frame,
    old: &Picture,
    new: &Picture,
    images: &Images,
) -> Result<usize, NoMemory>
    requires old { CanShow images.now old.now }
    requires new { CanShow images.now new.now }
    requires frame { frame.old ≡ frame_of (word_under images.now) old.now }
    ensures exact { OnOk result (frame.new ≡ frame_of (word_under images.now) new.now) }

    // Where each image is that of a framebuffer among some things, the frame is theirs.
    ensures things { OnOk result ((things : List Thing)
        → AreImagesIn things images.now → frame.new ≡ frame_bytes things new.now) }
    ensures kept { IfOk result (λ count. take count frame.new ≡ take count frame.old) }
    ensures unchanged { OnErr result (frame.new ≡ frame.old) }
{
    recompose_by(&OneDrawer, alloc, frame, old, new, images)
}

/// Does what [`recompose_kept`] does, but `drawers` share the rows of each rectangle among threads, where there is enough to draw.
/// Each thread draws as many rows, the last one what is left.
pub fn recompose_rows<R: Threads + Sync>(
    drawers: &SeveralDrawers<'_, R>,
    alloc: Global,
    frame: &mut Frame,
    old: &Picture,
    new: &Picture,
    images: &Images,
) -> Result<usize, NoMemory>
    requires old { CanShow images.now old.now }
    requires new { CanShow images.now new.now }
    requires frame { frame.old ≡ frame_of (word_under images.now) old.now }
    ensures exact { OnOk result (frame.new ≡ frame_of (word_under images.now) new.now) }

    // Where each image is that of a framebuffer among some things, the frame is theirs.
    ensures things { OnOk result ((things : List Thing)
        → AreImagesIn things images.now → frame.new ≡ frame_bytes things new.now) }
    ensures kept { IfOk result (λ count. take count frame.new ≡ take count frame.old) }
    ensures unchanged { OnErr result (frame.new ≡ frame.old) }
{
    recompose_by(drawers, alloc, frame, old, new, images)
}

/// Makes the frame of a picture of that of another one, and tells how many bytes at its front stay.
fn recompose_by<D: Drawer>(
    drawer: &D,
    alloc: Global,
    frame: &mut Frame,
    old: &Picture,
    new: &Picture,
    images: &Images,
) -> Result<usize, NoMemory>
    requires drawer { D.can_draw drawer.now }
    requires old { CanShow images.now old.now }
    requires new { CanShow images.now new.now }
    requires frame { frame.old ≡ frame_of (word_under images.now) old.now }
    ensures exact { OnOk result (frame.new ≡ frame_of (word_under images.now) new.now) }
    ensures things { OnOk result ((things : List Thing)
        → AreImagesIn things images.now → frame.new ≡ frame_bytes things new.now) }
    ensures kept { IfOk result (λ count. take count frame.new ≡ take count frame.old) }
    ensures unchanged { OnErr result (frame.new ≡ frame.old) }
{
    match (old, new) {
        (Picture::On(before), Picture::On(after)) => {
            if is_same_size(&before.mode, &after.mode) {
                redraw(drawer, alloc, frame, before, after, images.as_slice())
            } else {
                remake(drawer, alloc, frame, new, images)
            }
        }
        _ => remake(drawer, alloc, frame, new, images),
    }
}

/// Makes the whole frame of a picture, which keeps no byte of another one.
fn remake<D: Drawer>(
    drawer: &D,
    alloc: Global,
    frame: &mut Frame,
    picture: &Picture,
    images: &Images,
) -> Result<usize, NoMemory>
    requires drawer { D.can_draw drawer.now }
    requires images { CanShow images.now picture.now }
    ensures exact { OnOk result (frame.new ≡ frame_of (word_under images.now) picture.now) }
    ensures kept { IfOk result (λ count. take count frame.new ≡ take count frame.old) }
    ensures unchanged { OnErr result (frame.new ≡ frame.old) }
{
    *frame = frame_by(drawer, alloc, picture, images)?;
    Ok(0)
}

/// Makes the frame of a picture of that of another one in a mode of the same size, and tells how many bytes at its front stay:
/// what changed layers cover is drawn anew, or each pixel where the gamma tables differ. All memory is taken before
/// a byte changes.
fn redraw<D: Drawer>(
    drawer: &D,
    alloc: Global,
    frame: &mut Frame,
    old: &Shown,
    new: &Shown,
    images: &[FbImage],
) -> Result<usize, NoMemory>
    requires drawer { D.can_draw drawer.now }
    requires size { IsSameSize old.now.mode new.now.mode }
    requires old { All (IsShowable old.now.mode images.now) old.now.layers }
    requires new { All (IsShowable new.now.mode images.now) new.now.layers }
    requires frame { frame.old ≡ frame_of (word_under images.now) (On old.now) }
    ensures exact { OnOk result (frame.new ≡ frame_of (word_under images.now) (On new.now)) }
    ensures kept { IfOk result (λ count. take count frame.new ≡ take count frame.old) }
    ensures unchanged { OnErr result (frame.new ≡ frame.old) }
{
    let width = usize::from(new.mode.hdisplay);
    let height = usize::from(new.mode.vdisplay);
    let parts = parts_of(alloc, new, images)?;
    if is_same_table(&old.gamma, &new.gamma) {
        let changed = changes(alloc, old.layers.as_slice(), new.layers.as_slice())?;
        draw_changed(drawer, alloc, frame, &parts, new, changed.as_slice());
        Ok(3 * width * first_row(changed.as_slice(), height))
    } else {
        draw_each(drawer, alloc, frame, &parts, new);
        Ok(0)
    }
}

/// Draws each pixel of a frame of a picture's mode.
fn draw_each<D: Drawer>(
    drawer: &D,
    alloc: Global,
    frame: &mut Frame,
    parts: &[VisiblePart],
    shown: &Shown,
)
    requires drawer { D.can_draw drawer.now }
    requires parts { All IsPart parts.now }
    requires long { length frame.old ≡ shown.now.mode.vdisplay * (shown.now.mode.hdisplay * 3) }
    ensures { (before : ℕ → ℕ → Colour)
        → frame.old ≡ canvas shown.now.mode.hdisplay shown.now.mode.vdisplay before
        → frame.new ≡ canvas shown.now.mode.hdisplay shown.now.mode.vdisplay
        (λ x y. through shown.now.gamma (parts_over x y black parts.now)) }
{
    let width = usize::from(shown.mode.hdisplay);
    let height = usize::from(shown.mode.vdisplay);
    let mut bytes = mem::replace(frame, Seq::new(alloc)).into_vec();
    draw_whole(
        drawer,
        parts,
        &shown.gamma,
        width,
        height,
        bytes.as_mut_slice(),
    );
    *frame = Seq::from_vec(bytes);
}

/// Draws the pixels that some layers cover, in a frame of a picture's mode.
fn draw_changed<D: Drawer>(
    drawer: &D,
    alloc: Global,
    frame: &mut Frame,
    parts: &[VisiblePart],
    shown: &Shown,
    changed: &[Layer],
)
    requires drawer { D.can_draw drawer.now }
    requires parts { All IsPart parts.now }
    requires changed { All (FitsMode shown.now.mode) changed.now }
    requires long { length frame.old ≡ shown.now.mode.vdisplay * (shown.now.mode.hdisplay * 3) }
    requires narrow { shown.now.mode.hdisplay < 65536 }
    requires low { shown.now.mode.vdisplay < 65536 }
    ensures { (before : ℕ → ℕ → Colour)
        → frame.old ≡ canvas shown.now.mode.hdisplay shown.now.mode.vdisplay before
        → frame.new ≡ canvas shown.now.mode.hdisplay shown.now.mode.vdisplay
        (drawn (covered_by changed.now)
        (λ x y. through shown.now.gamma (parts_over x y black parts.now)) before) }
{
    let mut bytes = mem::replace(frame, Seq::new(alloc)).into_vec();
    draw_layers(
        drawer,
        parts,
        &shown.gamma,
        &shown.mode,
        changed,
        bytes.as_mut_slice(),
    );
    *frame = Seq::from_vec(bytes);
}

/// Draws the pixels that some layers cover, in a frame of a mode.
fn draw_layers<D: Drawer>(
    drawer: &D,
    parts: &[VisiblePart],
    gamma: &Option<Gamma>,
    mode: &Mode,
    layers: &[Layer],
    bytes: &mut [u8],
)
    requires drawer { D.can_draw drawer.now }
    requires parts { All IsPart parts.now }
    requires layers { All (FitsMode mode.now) layers.now }
    requires narrow { mode.now.hdisplay < 65536 }
    requires low { mode.now.vdisplay < 65536 }
    requires long { length bytes.old ≡ mode.now.vdisplay * (mode.now.hdisplay * 3) }
    ensures { (before : ℕ → ℕ → Colour)
        → bytes.old ≡ canvas mode.now.hdisplay mode.now.vdisplay before
        → bytes.new ≡ canvas mode.now.hdisplay mode.now.vdisplay
        (drawn (covered_by layers.now)
        (λ x y. through gamma.now (parts_over x y black parts.now)) before) }
{
    for layer in layers {
        draw_layer(drawer, parts, gamma, mode, layer, bytes);
    }
}

/// Draws the pixels that a layer covers, in a frame of a mode.
fn draw_layer<D: Drawer>(
    drawer: &D,
    parts: &[VisiblePart],
    gamma: &Option<Gamma>,
    mode: &Mode,
    layer: &Layer,
    bytes: &mut [u8],
)
    requires drawer { D.can_draw drawer.now }
    requires parts { All IsPart parts.now }
    requires layer { FitsMode mode.now layer.now }
    requires narrow { mode.now.hdisplay < 65536 }
    requires low { mode.now.vdisplay < 65536 }
    requires long { length bytes.old ≡ mode.now.vdisplay * (mode.now.hdisplay * 3) }
    ensures { (before : ℕ → ℕ → Colour)
        → bytes.old ≡ canvas mode.now.hdisplay mode.now.vdisplay before
        → bytes.new ≡ canvas mode.now.hdisplay mode.now.vdisplay
        (drawn (is_covered layer.now.visible)
        (λ x y. through gamma.now (parts_over x y black parts.now)) before) }
{
    if let Some(area) = area_of(layer) {
        let width = usize::from(mode.hdisplay);
        draw_area(drawer, parts, gamma, width, &area, bytes);
    }
}

/// The first row that one of some layers covers, in a mode of so many rows; their number where none covers any.
fn first_row(layers: &[Layer], height: usize) -> usize
    requires { (m : Mode) × All (FitsMode m) layers.now }
    ensures within { result ≤ height }
    ensures above { (x y : ℕ) → y < result → covered_by layers.now x y ≡ false }
{
    let mut first = height;
    for layer in layers {
        first = least_row(first, layer);
    }
    first
}

/// The lesser of a row and the first one that a layer covers.
fn least_row(row: usize, layer: &Layer) -> usize
    requires { (m : Mode) × FitsMode m layer.now }
    ensures within { result ≤ row }
    ensures above { (x y : ℕ) → y < result → is_covered layer.now.visible x y ≡ false }
{
    match area_of(layer) {
        Some(area) => row.min(area.top),
        None => row,
    }
}

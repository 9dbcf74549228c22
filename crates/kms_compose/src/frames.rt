//! Frames.
ghost use Rattle.std.specs.Prelude.{◌≡◌, ◌<◌, ◌≤◌, ◌*◌, ◌++◌, ℕ, List, length, All, IfOk, OnOk, Option};
ghost use Rattle.std.specs.List.{flat_map, range_with_len};
ghost use Rattle.kms_model.specs.Firsts.{listed};
ghost use Rattle.kms_model.specs.declared.pictures.Picture.TheVariants.{On};
ghost use Rattle.kms_model.specs.declared.worlds.Thing.{Thing};
ghost use Rattle.kms_model.specs.Frames.FrameBytes.{black, composed, frame_bytes, frame_of, through};
ghost use Rattle.kms_compose.specs.Images.{AreImagesIn, CanShow, IsShowable, word_under};
ghost use Rattle.kms_compose.specs.Areas.{canvas};
ghost use Rattle.kms_compose.specs.Parts.{IsPart, parts_over};

use crate::images::{FbImage, Images};
use crate::parts::{VisiblePart, part_of};
use crate::rectangles::draw_whole;
use crate::threads::{Drawer, OneDrawer, SeveralDrawers};
use kms_model::{Gamma, NoMemory, Picture, Seq, Shown};
use std::alloc::Global;
use std::thread::Threads;

/// The bytes of a frame: red, green and blue of each pixel, row by row; none where the CRTC is off.
pub type Frame = Seq<u8>;

/// Makes the frame of a picture over the images of its framebuffers. (Kernel: "Plane Composition Properties".)
///
/// Each layer is as a check of the state lets it through: its alpha is from 0 to 65535 and its blend mode from 0 to 2,
/// its source begins and ends in its framebuffer and has sizes from 0 to 4294967295, its destination has sizes from 0 to
/// 2147483647, neither is more than four times as wide or high as the other, and what is visible of it is the destination
/// clipped to the mode. Each layer's framebuffer has an image in its size, with a word for each pixel.
///
/// The only error is want of memory. The frame's memory is taken at once, and besides it that of the list of what is visible
/// of each layer, and for each layer that is scaled from left to right eight bytes for each column of it that is visible.
pub fn frame(alloc: Global, picture: &Picture, images: &Images) -> Result<Frame, NoMemory>
    requires { CanShow images.now picture.now }
    ensures exact { IfOk result (λ bytes. bytes ≡ frame_of (word_under images.now) picture.now) }

    // Where each image is that of a framebuffer among some things, the frame is theirs.
    ensures things { IfOk result (λ bytes. (things : List Thing)
        → AreImagesIn things images.now → bytes ≡ frame_bytes things picture.now) }
{
    frame_by(&OneDrawer, alloc, picture, images)
}

/// Makes the same frame as [`frame`], and asks for the same, but `drawers` share the rows among threads, where there is enough to
/// draw. Each thread draws as many rows, the last one what is left.
///
/// The only error is want of memory.
pub fn frame_rows<R: Threads + Sync>(
    drawers: &SeveralDrawers<'_, R>,
    alloc: Global,
    picture: &Picture,
    images: &Images,
) -> Result<Frame, NoMemory>
    requires { CanShow images.now picture.now }
    ensures exact { IfOk result (λ bytes. bytes ≡ frame_of (word_under images.now) picture.now) }

    // Where each image is that of a framebuffer among some things, the frame is theirs.
    ensures things { IfOk result (λ bytes. (things : List Thing)
        → AreImagesIn things images.now → bytes ≡ frame_bytes things picture.now) }
{
    frame_by(drawers, alloc, picture, images)
}

/// Makes the frame of a picture.
pub fn frame_by<D: Drawer>(
    drawer: &D,
    alloc: Global,
    picture: &Picture,
    images: &Images,
) -> Result<Frame, NoMemory>
    requires drawer { D.can_draw drawer.now }
    requires images { CanShow images.now picture.now }
    ensures exact { IfOk result (λ bytes. bytes ≡ frame_of (word_under images.now) picture.now) }
    ensures things { IfOk result (λ bytes. (things : List Thing)
        → AreImagesIn things images.now → bytes ≡ frame_bytes things picture.now) }
{
    match picture {
        Picture::Off => Ok(Seq::new(alloc)),
        Picture::On(shown) => shown_bytes(drawer, alloc, shown, images.as_slice()),
    }
}

/// The frame of a CRTC that is on.
fn shown_bytes<D: Drawer>(
    drawer: &D,
    alloc: Global,
    shown: &Shown,
    images: &[FbImage],
) -> Result<Frame, NoMemory>
    requires drawer { D.can_draw drawer.now }
    requires images { All (IsShowable shown.now.mode images.now) shown.now.layers }
    ensures { IfOk result (λ bytes. bytes ≡ frame_of (word_under images.now) (On shown.now)) }
{
    let width = usize::from(shown.mode.hdisplay);
    let height = usize::from(shown.mode.vdisplay);
    let parts = parts_of(alloc, shown, images)?;
    let bytes = parts_bytes(drawer, alloc, &parts, &shown.gamma, width, height)?;
    Ok(Seq::from_vec(bytes))
}

/// The visible parts of all layers, from the lowest.
pub fn parts_of<'a>(
    alloc: Global,
    shown: &Shown,
    images: &[FbImage<'a>],
) -> Result<Vec<VisiblePart<'a>>, NoMemory>
    requires layers { All (IsShowable shown.now.mode images.now) shown.now.layers }
    requires narrow { shown.now.mode.hdisplay < 65536 }
    requires low { shown.now.mode.vdisplay < 65536 }
    ensures parts { IfOk result (λ parts. All IsPart parts.items) }
    ensures colours { IfOk result (λ parts. (x y : ℕ)
        → parts_over x y black parts.items
        ≡ composed (word_under images.now) x y black shown.now.layers) }
{
    let mut parts = Vec::new(alloc);
    for layer in shown.layers.as_slice() {
        push_part(&mut parts, part_of(alloc, layer, images)?)?;
    }
    Ok(parts)
}

/// Adds a part, where there is one.
fn push_part<'a>(
    parts: &mut Vec<VisiblePart<'a>>,
    part: Option<VisiblePart<'a>>,
) -> Result<(), NoMemory>
    ensures { OnOk result (parts.new.items ≡ parts.old.items ++ listed part.entry) }
{
    if let Some(part) = part {
        parts.push(part)?;
    }
    Ok(())
}

/// The bytes of parts over black, through a gamma table if there is one, in a mode of this size.
fn parts_bytes<D: Drawer>(
    drawer: &D,
    alloc: Global,
    parts: &[VisiblePart],
    gamma: &Option<Gamma>,
    width: usize,
    height: usize,
) -> Result<Vec<u8>, NoMemory>
    requires drawer { D.can_draw drawer.now }
    requires parts { All IsPart parts.now }
    requires narrow { width < 65536 }
    requires low { height < 65536 }
    ensures { IfOk result (λ bytes. bytes.items
        ≡ canvas width height (λ x y. through gamma.now (parts_over x y black parts.now))) }
{
    let mut bytes = blank(alloc, width, height)?;
    draw_whole(drawer, parts, gamma, width, height, bytes.as_mut_slice());
    Ok(bytes)
}

/// The bytes of black pixels, in a mode of this size.
fn blank(alloc: Global, width: usize, height: usize) -> Result<Vec<u8>, NoMemory>
    requires narrow { width < 65536 }
    requires low { height < 65536 }
    ensures { IfOk result (λ bytes. bytes.items ≡ canvas width height (λ x y. black)) }
{
    let bytes = vec![in alloc; 0u8; 3 * width * height]?;
    Ok(bytes)
}

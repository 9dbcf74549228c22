//! The frames of latches, made one of another.
ghost use Rattle.std.specs.Prelude.{All, IfOk, IfSome, OnOk};
ghost use Rattle.kms_compose.specs.Images.{AreImagesIn, CanShow};
ghost use Rattle.kms_model.specs.Frames.Shown.{EachCanBeShown};
ghost use Rattle.kms_report.specs.Images.{KeepsImages, ShowsKept, things_of};
ghost use Rattle.kms_kept_frames.specs.Screens.{Has, AreKeptFramesOf};

use crate::images::push_images;
use kms_compose::Images;
use kms_core::Core;
use kms_kept_frames::{Hands, Screen, next_other};
use kms_model::{Latch, NoMemory, Picture, Seq};
use std::alloc::Global;

/// Adds the images of a picture, where there is one.
fn push_next<'a>(
    images: &mut Images<'a>,
    core: &'a Core,
    next: Option<&Picture>,
) -> Result<(), NoMemory>
    requires next { IfSome next (λ p. EachCanBeShown (things_of core.now) p.now) }
    requires images { AreImagesIn (things_of core.now) images.old }
    ensures images { OnOk result (AreImagesIn (things_of core.now) images.new) }
    ensures shown { OnOk result (IfSome next.entry (λ p. CanShow images.new p.now)) }
    ensures kept { OnOk result (KeepsImages images.old images.new) }
{
    match next {
        Some(picture) => push_images(images, core, picture),
        None => Ok(()),
    }
}

/// The images of the framebuffers of what is kept of a CRTC.
fn kept_images<'a>(alloc: Global, core: &'a Core, screen: &Screen) -> Result<Images<'a>, NoMemory>
    requires { AreKeptFramesOf (things_of core.now) screen.now }
    ensures images { IfOk result (λ images. AreImagesIn (things_of core.now) images) }
    ensures kept { IfOk result (λ images. ShowsKept images screen.now) }
{
    let mut images = Seq::new(alloc);
    push_images(&mut images, core, &screen.first.drawn.picture)?;
    push_images(&mut images, core, &screen.second.drawn.picture)?;
    Ok(images)
}

/// The picture of a latch, with its frame, in the place of what is kept of the latch's CRTC; and so, in the same turn, the next
/// other picture that the CRTC latches, so that the digests of both are made together.
pub fn show_latch<H: Hands>(
    hands: &H,
    alloc: Global,
    core: &Core,
    screen: Screen,
    latch: &Latch,
    after: &[Latch],
) -> Result<Screen, NoMemory>
    requires hands { H.can_work hands.now }
    requires screen { AreKeptFramesOf (things_of core.now) screen }
    requires latch { EachCanBeShown (things_of core.now) latch.now.picture }
    requires after { All (λ l. EachCanBeShown (things_of core.now) l.picture) after.now }
    ensures { IfOk result (λ s. AreKeptFramesOf (things_of core.now) s × Has s latch.now.picture) }
{
    let picture = &latch.picture;
    if screen.has(picture) {
        return Ok(screen);
    }
    let next = next_other(after, latch.crtc, picture);
    let mut images = kept_images(alloc, core, &screen)?;
    push_images(&mut images, core, picture)?;
    push_next(&mut images, core, next)?;
    screen.showing(hands, alloc, picture, next, &images)
}

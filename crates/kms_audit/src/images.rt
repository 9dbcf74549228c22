//! The images of the framebuffers of a picture, among those of the device of one thread.
ghost use Rattle.std.specs.Prelude.{All, IfOk, OnOk};
ghost use Rattle.kms_compose.specs.Images.{AreImagesIn, AreSeen, CanShow, IsPushed};
ghost use Rattle.kms_model.specs.Frames.Shown.{EachCanBeShown, HasWords};

use kms_compose::{FbImage, Images};
use kms_model::{Layer, NoMemory, Picture, Seq};
use kms_serial::Serial;
use std::alloc::Global;

/// Adds the image of a layer's framebuffer.
fn push_image<'a>(
    images: &mut Images<'a>,
    serial: &'a Serial,
    layer: &Layer,
) -> Result<(), NoMemory>
    requires { HasWords serial.now.world.things layer.now.fb }
    ensures { OnOk result
        (IsPushed serial.now.world.things layer.now.fb.id images.old images.new) }
{
    let fb = layer.fb.id;
    match serial.image(fb) {
        Some(image) => Ok(images.push(FbImage { fb, image })?),
        None => unreachable!(),
    }
}

/// Adds the images of the framebuffers of layers.
fn push_layers<'a>(
    images: &mut Images<'a>,
    serial: &'a Serial,
    layers: &[Layer],
) -> Result<(), NoMemory>
    requires words { All (λ l. HasWords serial.now.world.things l.fb) layers.now }
    requires images { AreImagesIn serial.now.world.things images.old }
    ensures images { OnOk result (AreImagesIn serial.now.world.things images.new) }
    ensures seen { OnOk result (AreSeen serial.now.world.things images.new layers.now) }
{
    for layer in layers {
        push_image(images, serial, layer)?;
    }
    Ok(())
}

/// The images of a picture's framebuffers.
pub fn images_of<'a>(
    alloc: Global,
    serial: &'a Serial,
    picture: &Picture,
) -> Result<Images<'a>, NoMemory>
    requires { EachCanBeShown serial.now.world.things picture.now }
    ensures images { IfOk result (AreImagesIn serial.now.world.things) }
    ensures shown { IfOk result (λ images. CanShow images picture.now) }
{
    let mut images = Seq::new(alloc);
    let Picture::On(shown) = picture else {
        return Ok(images);
    };
    push_layers(&mut images, serial, shown.layers.as_slice())?;
    Ok(images)
}

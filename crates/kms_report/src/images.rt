//! The images of the framebuffers of pictures, among those of the machine.
ghost use Rattle.std.specs.Prelude.{All, OnOk};
ghost use Rattle.kms_compose.specs.Images.{AreImagesIn, AreSeen, CanShow, IsPushed};
ghost use Rattle.kms_model.specs.Frames.Shown.{EachCanBeShown, HasWords};
ghost use Rattle.kms_report.specs.Images.{KeepsImages, things_of};

use kms_compose::{FbImage, Images};
use kms_core::Core;
use kms_model::{Layer, NoMemory, Picture};

/// Adds the image of a layer's framebuffer.
fn push_image<'a>(images: &mut Images<'a>, core: &'a Core, layer: &Layer) -> Result<(), NoMemory>
    requires { HasWords (things_of core.now) layer.now.fb }
    ensures { OnOk result (IsPushed (things_of core.now) layer.now.fb.id images.old images.new) }
{
    let fb = layer.fb.id;
    match core.image(fb) {
        Some(image) => Ok(images.push(FbImage { fb, image })?),
        None => unreachable!(),
    }
}

/// Adds the images of the framebuffers of layers.
fn push_layers<'a>(
    images: &mut Images<'a>,
    core: &'a Core,
    layers: &[Layer],
) -> Result<(), NoMemory>
    requires words { All (λ l. HasWords (things_of core.now) l.fb) layers.now }
    requires images { AreImagesIn (things_of core.now) images.old }
    ensures images { OnOk result (AreImagesIn (things_of core.now) images.new) }
    ensures seen { OnOk result (AreSeen (things_of core.now) images.new layers.now) }
    ensures kept { OnOk result (KeepsImages images.old images.new) }
{
    for layer in layers {
        push_image(images, core, layer)?;
    }
    Ok(())
}

/// Adds the images of a picture's framebuffers. Pictures that could be shown over the images before can be shown over all.
pub fn push_images<'a>(
    images: &mut Images<'a>,
    core: &'a Core,
    picture: &Picture,
) -> Result<(), NoMemory>
    requires can { EachCanBeShown (things_of core.now) picture.now }
    requires images { AreImagesIn (things_of core.now) images.old }
    ensures images { OnOk result (AreImagesIn (things_of core.now) images.new) }
    ensures shown { OnOk result (CanShow images.new picture.now) }
    ensures kept { OnOk result (KeepsImages images.old images.new) }
{
    match picture {
        Picture::On(shown) => push_layers(images, core, shown.layers.as_slice()),
        Picture::Off => Ok(()),
    }
}

//! Which layers differ between two pictures.
ghost use Rattle.std.specs.Prelude.{◌≡◌, ◌∷◌, ◌↔◌, [], ℕ, true, Any, IsTrue, IfOk, OnOk};
ghost use Rattle.kms_model.specs.Frames.FrameBytes.{is_covered};
ghost use Rattle.kms_compose.specs.Changes.{DifferIn, Lists, covered_by};

use crate::sameness::{is_same_layer, is_same_part};
use kms_model::{Layer, NoMemory, Rect};
use std::alloc::Global;

/// Whether a layer is among others.
fn is_one_of(layer: &Layer, layers: &[Layer]) -> bool
    ensures { IsTrue result ↔ Any (λ l. layer.now ≡ l) layers.now }
{
    layers.iter().any(|other| is_same_layer(layer, other))
}

/// Whether a rectangle, or nothing, is what is visible of one of some layers.
fn is_listed(visible: &Option<Rect>, layers: &[Layer]) -> bool
    ensures { IsTrue result → (x y : ℕ)
        → is_covered visible.now x y ≡ true → covered_by layers.now x y ≡ true }
{
    for layer in layers {
        if is_same_part(&layer.visible, visible) {
            return true;
        }
    }
    false
}

/// Lists a layer, unless one is listed that covers the same rectangle: no pixel need be drawn twice for that.
fn list(listed: &mut Vec<Layer>, layer: &Layer) -> Result<(), NoMemory>
    ensures { OnOk result (Lists listed.old.items (layer.now ∷ []) listed.new.items) }
{
    if is_listed(&layer.visible, listed.as_slice()) {
        return Ok(());
    }
    listed.push(*layer)?;
    Ok(())
}

/// Lists layers, each as `list` does.
fn list_all(listed: &mut Vec<Layer>, layers: &[Layer]) -> Result<(), NoMemory>
    ensures { OnOk result (Lists listed.old.items layers.now listed.new.items) }
{
    for layer in layers {
        list(listed, layer)?;
    }
    Ok(())
}

/// The layers that left or came, where a picture's layers are these in place of those, each from the lowest: the layers of
/// both are put beside one another in their order. A layer that changed both leaves and comes, and is listed as it was and as it
/// is. One that stands lower among the others than before comes, and so is listed as well; what it passed stays. Of layers
/// that cover the same rectangle the first one alone is listed.
pub fn changes(alloc: Global, old: &[Layer], new: &[Layer]) -> Result<Vec<Layer>, NoMemory>
    ensures { IfOk result (λ changed. DifferIn changed.items old.now new.now) }
{
    let mut changed = Vec::new(alloc);
    let mut left = 0;
    let mut came = 0;
    while left < old.len() && came < new.len() {
        if is_same_layer(&old[left], &new[came]) {
            left += 1;
            came += 1;
        } else if is_one_of(&old[left], &new[came + 1..]) {
            list(&mut changed, &new[came])?;
            came += 1;
        } else {
            list(&mut changed, &old[left])?;
            left += 1;
        }
    }
    list_all(&mut changed, &old[left..])?;
    list_all(&mut changed, &new[came..])?;
    Ok(changed)
}

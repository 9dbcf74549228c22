//! The visible parts of layers.
ghost use Rattle.std.specs.Prelude.{◌≡◌, ◌<◌, ◌+◌, ℕ, length, IfOk, IfSome, option_copied};
ghost use Rattle.kms_model.specs.declared.objects.Mode.{Mode};
ghost use Rattle.kms_model.specs.Frames.FrameBytes.{layer_colour};
ghost use Rattle.kms_model.specs.Frames.Images.{FitsMode};
ghost use Rattle.kms_compose.specs.Images.{IsShown, word_under};
ghost use Rattle.kms_compose.specs.Parts.{HasColumns, HasCount, HasRows, IsCut, IsImageFor, IsPart, IsVisible, across, shown_at, down, on_row, part_colour, seen_colour};
ghost use Rattle.kms_compose.specs.Sources.{IsSeen, source_place};

use crate::images::{FbImage, image_of};
use crate::sources::{Reach, is_axis_unscaled, natural, places, source_place};
use kms_model::{Image, Layer, NoMemory, Rect};
use std::alloc::Global;

/// Which columns of an image a part shows, or which rows.
#[derive(Drop)]
pub enum Places {
    /// One behind the other, from this one on.
    From(usize),
    /// These, one for each column or row of the part.
    At(Vec<usize>),
}

/// The visible part of a layer, in pixels of the mode, with the words of its image.
#[derive(Drop)]
pub struct VisiblePart<'a> {
    pub layer: Layer,
    pub left: usize,
    pub top: usize,
    pub width: usize,
    pub height: usize,
    pub columns: Places,
    pub rows: Places,
    // How many words a row of the image has.
    pub stride: usize,
    pub words: &'a [u32],
}

/// What a layer shows from left to right.
fn across(layer: &Layer) -> Reach
    ensures { result ≡ across layer.now }
{
    Reach {
        src: layer.src.x,
        long: layer.src.w,
        dst: layer.dst.x,
        wide: layer.dst.w,
    }
}

/// What a layer shows from top to bottom.
fn down(layer: &Layer) -> Reach
    ensures { result ≡ down layer.now }
{
    Reach {
        src: layer.src.y,
        long: layer.src.h,
        dst: layer.dst.y,
        wide: layer.dst.h,
    }
}

/// The columns, or rows, of an image that so many columns, or rows, of the mode from `first` on show. Those of a scaled layer
/// are found here, once for a frame.
fn places_of(alloc: Global, reach: &Reach, first: usize, count: usize) -> Result<Places, NoMemory>
    requires seen { IsSeen reach.now first count }
    requires some { 0 < count }
    ensures count { IfOk result (λ found. HasCount found count) }
    ensures places { IfOk result (λ found. (k : ℕ) → k < count
        → shown_at found k ≡ source_place reach.now (first + k)) }
{
    if is_axis_unscaled(reach) {
        Ok(Places::From(source_place(reach, first)))
    } else {
        Ok(Places::At(places(alloc, reach, first, count)?))
    }
}

/// The visible part of a layer; none where nothing of it is visible.
pub fn part_of<'a>(
    alloc: Global,
    layer: &Layer,
    images: &[FbImage<'a>],
) -> Result<Option<VisiblePart<'a>>, NoMemory>
    requires { IsShown images.now layer.now }
    ensures colours { IfOk result (λ part. (x y : ℕ)
        → layer_colour (word_under images.now) x y layer.now ≡ seen_colour part x y) }
    ensures layer { IfOk result (λ part. IfSome part (λ p. p.layer ≡ layer.now)) }
    ensures part { IfOk result (λ part. IfSome part IsPart) }
{
    let Some(visible) = layer.visible else {
        return Ok(None);
    };
    let Some(image) = image_of(images, layer.fb.id) else {
        return Ok(None);
    };
    Ok(Some(cut(alloc, layer, &visible, image)?))
}

/// The part of an image that a layer shows, of which this is visible.
fn cut<'a>(
    alloc: Global,
    layer: &Layer,
    visible: &Rect,
    image: Image<'a>,
) -> Result<VisiblePart<'a>, NoMemory>
    requires visible { IsVisible layer.now visible.now }
    requires image { IsImageFor layer.now image }
    ensures { IfOk result (λ p. IsCut layer.now visible.now image.entry p) }
{
    let left = natural(visible.x);
    let width = natural(visible.w);
    let top = natural(visible.y);
    let height = natural(visible.h);
    let columns = places_of(alloc, &across(layer), left, width)?;
    let rows = places_of(alloc, &down(layer), top, height)?;
    Ok(VisiblePart {
        layer: *layer,
        left,
        top,
        width,
        height,
        columns,
        rows,
        stride: image.width as usize,
        words: image.words,
    })
}

/// The column, or row, of its image that a column, or row, of a part shows, by its place from the first on.
fn shown_at(places: &Places, k: usize) -> usize
    requires inside { (count : ℕ) × (HasCount places.now count × (k < count)) }
    requires fits { shown_at places.now k < 18446744073709551616 }
    ensures { result ≡ shown_at places.now k }
{
    match places {
        Places::From(first) => first + k,
        Places::At(all) => all[k],
    }
}

/// The words of the row of its image that a part shows on a row of the mode; none where the row is above or below the part.
pub fn row_on<'a>(part: &VisiblePart<'a>, y: usize) -> Option<&'a [u32]>
    requires rows { HasRows part.now }
    requires columns { HasColumns part.now }
    ensures colours { (x : ℕ)
        → part_colour part.now x y ≡ on_row part.now (option_copied result) x }
    ensures width { IfSome result (λ words. length words.now ≡ part.now.stride) }
{
    if y < part.top {
        return None;
    }
    let row = y - part.top;
    if row >= part.height {
        return None;
    }
    let start = shown_at(&part.rows, row) * part.stride;
    Some(&part.words[start..start + part.stride])
}

//! Frames that are kept.
ghost use Rattle.std.specs.Prelude.{◌≡◌, ◌⊎◌, ◌↔◌, IfOk, IsTrue, OnOk};
ghost use Rattle.std.specs.Thread.{IsSync};
ghost use Rattle.sha2.specs.Sha256.{sha256};
ghost use Rattle.kms_compose.specs.Images.{CanShow};
ghost use Rattle.kms_kept_frames.specs.Screens.{AreKeptFramesOver, AreOfOneSizeAndTable, IsDrawnOver, IsDrawnOf, IsRenewed};

use crate::digests::{WORTH_A_THREAD, digest_of_frame};
use crate::fronts::Fronts;
use crate::hands::{Hands, OneOfTwo, OneThread, Recomposes};
use crate::screen::Screen;
use kms_compose::{Frame, Images, is_same_layer, is_same_size, is_same_table};
use kms_model::{Layer, Mode, NoMemory, Picture, Seq, Shown};
use std::alloc::Global;
use std::thread::{Threads, join_mut};

/// A picture with its frame.
#[derive(Drop)]
pub struct Drawn {
    /// The picture.
    pub picture: Picture,
    /// Its frame: three bytes for each pixel, row by row; no byte where it is off.
    pub frame: Frame,
    /// States of the frame's digest at places within it: those that are known.
    pub fronts: Fronts,
}

/// A picture with its frame, and the frame's digest.
#[derive(Drop)]
pub struct KeptFrame {
    /// The picture with its frame.
    pub drawn: Drawn,
    /// The SHA-256 of the frame's bytes (FIPS 180-4).
    pub digest: [u8; 32],
}

/// Whether layers, in their order, are the same.
fn are_same_layers(one: &[Layer], other: &[Layer]) -> bool
    ensures { IsTrue result ↔ (one.now ≡ other.now) }
{
    if one.len() != other.len() {
        return false;
    }
    for (place, layer) in one.iter().enumerate() {
        if !is_same_layer(layer, &other[place]) {
            return false;
        }
    }
    true
}

/// Whether two modes are the same.
fn is_same_mode(one: &Mode, other: &Mode) -> bool
    ensures { IsTrue result ↔ (one.now ≡ other.now) }
{
    *one == *other
}

/// Whether two CRTCs that are on show the same.
fn is_same_shown(one: &Shown, other: &Shown) -> bool
    ensures { IsTrue result ↔ (one.now ≡ other.now) }
{
    one.conn == other.conn
        && is_same_mode(&one.mode, &other.mode)
        && is_same_table(&one.gamma, &other.gamma)
        && are_same_layers(one.layers.as_slice(), other.layers.as_slice())
}

/// Whether two pictures are the same.
pub fn is_same(one: &Picture, other: &Picture) -> bool
    ensures { IsTrue result ↔ (one.now ≡ other.now) }
{
    match (one, other) {
        (Picture::Off, Picture::Off) => true,
        (Picture::On(one), Picture::On(other)) => is_same_shown(one, other),
        _ => false,
    }
}

/// Whether two pictures are on, in modes of one size and with one gamma table, or none: then the frame of one is that
/// of the other but for what layers cover that differ.
pub fn is_same_size_and_table(one: &Picture, other: &Picture) -> bool
    ensures { IsTrue result ↔ AreOfOneSizeAndTable one.now other.now }
{
    match (one, other) {
        (Picture::On(one), Picture::On(other)) => {
            is_same_size(&one.mode, &other.mode) && is_same_table(&one.gamma, &other.gamma)
        }
        _ => false,
    }
}

/// Changes a frame to that of another picture where these differ. The states of its digest before the first change stay.
fn change<H: Recomposes>(
    hands: &H,
    alloc: Global,
    drawn: &mut Drawn,
    picture: &Picture,
    images: &Images,
) -> Result<(), NoMemory>
    requires hands { H.can_work hands.now }
    requires drawn { IsDrawnOver images.now drawn.old }
    requires can { CanShow images.now picture.now }
    ensures { OnOk result (IsDrawnOver images.now drawn.new × IsDrawnOf picture.now drawn.new) }
{
    let count = hands.recompose(alloc, &mut drawn.frame, &drawn.picture, picture, images)?;
    drawn.picture = *picture;
    drawn.fronts.keep(count);
    Ok(())
}

/// Changes a frame to that of another picture, and gives its digest.
fn renew_drawn<H: Recomposes>(
    hands: &H,
    alloc: Global,
    drawn: &mut Drawn,
    picture: &Picture,
    images: &Images,
) -> Result<[u8; 32], NoMemory>
    requires hands { H.can_work hands.now }
    requires drawn { IsDrawnOver images.now drawn.old }
    requires can { CanShow images.now picture.now }
    ensures { IfOk result (λ digest. IsDrawnOver images.now drawn.new
        × IsDrawnOf picture.now drawn.new × (digest ≡ sha256 drawn.new.frame)) }
{
    change(hands, alloc, drawn, picture, images)?;
    Ok(digest_of_frame(drawn.frame.as_slice(), &mut drawn.fronts))
}

/// Changes a frame to that of another picture, with its digest.
pub fn renew<H: Recomposes>(
    hands: &H,
    alloc: Global,
    kept: &mut KeptFrame,
    picture: &Picture,
    images: &Images,
) -> Result<(), NoMemory>
    requires hands { H.can_work hands.now }
    requires drawn { IsDrawnOver images.now kept.old.drawn }
    requires can { CanShow images.now picture.now }
    ensures { OnOk result (IsRenewed images.now picture.now kept.new) }
{
    kept.digest = renew_drawn(hands, alloc, &mut kept.drawn, picture, images)?;
    Ok(())
}

/// Changes the first frame of a screen to that of a picture, and the second to that of the next one, with their digests: side by
/// side where both are large, each with half of the threads for its rows.
pub fn renew_both<R: Threads + Sync>(
    rt: &R,
    alloc: Global,
    screen: Screen,
    picture: &Picture,
    next: &Picture,
    images: &Images,
) -> Result<Screen, NoMemory>
    requires hands { IsSync R.row }
    requires screen { AreKeptFramesOver images.now screen }
    requires picture { CanShow images.now picture.now }
    requires next { CanShow images.now next.now }
    ensures { IfOk result (λ s. IsRenewed images.now picture.now s.first
        × IsRenewed images.now next.now s.second) }
{
    let (one, other) = (&screen.first.drawn, &screen.second.drawn);
    if one.frame.len().min(other.frame.len()) < WORTH_A_THREAD {
        return OneThread.renew(alloc, screen, picture, next, images);
    }
    let Screen {
        mut first,
        mut second,
    } = screen;
    let mut change_first = || -> Result<(), NoMemory>
        requires { IsSync R.row × IsDrawnOver images.now first.drawn × CanShow images.now picture.now }
        ensures { OnOk result (IsRenewed images.entry.now picture.entry.now first.exit) }
    { renew(&OneOfTwo { rt }, alloc, &mut first, picture, images) };
    let mut change_second = || -> Result<(), NoMemory>
        requires { IsSync R.row × IsDrawnOver images.now second.drawn × CanShow images.now next.now }
        ensures { OnOk result (IsRenewed images.entry.now next.entry.now second.exit) }
    { renew(&OneOfTwo { rt }, alloc, &mut second, next, images) };
    let (of_first, of_second) = join_mut(rt, &mut change_first, &mut change_second);
    of_first?;
    of_second?;
    Ok(Screen { first, second })
}

/// Draws the frame of a picture anew.
fn draw<H: Hands>(
    hands: &H,
    alloc: Global,
    picture: &Picture,
    images: &Images,
) -> Result<Drawn, NoMemory>
    requires hands { H.can_work hands.now }
    requires picture { CanShow images.now picture.now }
    ensures { IfOk result (λ d. IsDrawnOver images.now d × IsDrawnOf picture.now d) }
{
    let frame = hands.frame(alloc, picture, images)?;
    Ok(Drawn {
        picture: *picture,
        fronts: Fronts::none(frame.len()),
        frame,
    })
}

/// Draws the frame of a picture. Where the frame given has its size and its gamma table, only what differs is drawn. Else
/// that one is given up first, and all is drawn.
pub fn redraw<H: Hands>(
    hands: &H,
    alloc: Global,
    mut drawn: Drawn,
    picture: &Picture,
    images: &Images,
) -> Result<Drawn, NoMemory>
    requires hands { H.can_work hands.now }
    requires drawn { IsDrawnOver images.now drawn }
    requires can { CanShow images.now picture.now }
    ensures { IfOk result (λ d. IsDrawnOver images.now d × IsDrawnOf picture.now d) }
{
    if is_same_size_and_table(&drawn.picture, picture) {
        change(hands, alloc, &mut drawn, picture, images)?;
        return Ok(drawn);
    }
    drop(drawn);
    draw(hands, alloc, picture, images)
}

/// A copy of bytes.
fn copy_of(alloc: Global, bytes: &[u8]) -> Result<Frame, NoMemory>
    ensures { IfOk result (λ f. f ≡ bytes.now) }
{
    let mut copy = Vec::with_capacity(alloc, bytes.len())?;
    copy.extend_from_slice(bytes)?;
    Ok(Seq::from_vec(copy))
}

/// The frame to change for a picture, beside another frame: where only the other one has the picture's size and gamma table, a
/// copy of it, with the states of its digest that are known.
pub fn at_hand(
    alloc: Global,
    drawn: Drawn,
    beside: &Drawn,
    picture: &Picture,
) -> Result<Drawn, NoMemory>
    ensures { IfOk result (λ d. (d ≡ drawn) ⊎ (d ≡ beside.now)) }
{
    if is_same_size_and_table(&drawn.picture, picture)
        || !is_same_size_and_table(&beside.picture, picture)
    {
        return Ok(drawn);
    }
    drop(drawn);
    Ok(Drawn {
        picture: beside.picture,
        frame: copy_of(alloc, beside.frame.as_slice())?,
        fronts: beside.fronts.copy()?,
    })
}

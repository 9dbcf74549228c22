//! The digests of a CRTC's frames, made in two strands side by side.
ghost use Rattle.std.specs.Prelude.{◌≡◌, ◌++◌, IfOk, List, OnOk, length, true};
ghost use Rattle.std.specs.Thread.{IsSync};
ghost use Rattle.kms_model.specs.declared.worlds.Thing.{Thing};
ghost use Rattle.kms_model.specs.Frames.Shown.{EachCanBeShown};
ghost use Rattle.kms_report.specs.Images.{things_of};
ghost use Rattle.kms_report.specs.Strands.{latch_digests};
ghost use Rattle.kms_report.specs.Told.{CanBeTold, told_digests};
ghost use Rattle.kms_kept_frames.specs.Screens.{AreKeptFramesOf};
ghost use Rattle.kms_kept_frames.specs.declared.strands.Strand.TheVariants as Strand;

use crate::showing::show_latch;
use crate::told::Told;
use kms_kept_frames::{Hands, OneOfTwo, Screen, Strand, is_lit};
use kms_model::{Latch, NoMemory};
use std::alloc::Global;
use std::mem;
use std::thread::{Threads, join_mut};

/// The digests of frames, in order.
type Digests = Vec<[u8; 32]>;

/// Adds the digest of a latch's frame, where the latch is one of a CRTC, and on. It is of the strand that keeps the screen.
fn push_digest<H: Hands>(
    hands: &H,
    alloc: Global,
    digests: &mut Digests,
    told: &Told,
    screen: Screen,
    latch: &Latch,
) -> Result<Screen, NoMemory>
    requires hands { H.can_work hands.now }
    requires screen { AreKeptFramesOf (things_of told.now.core.now) screen }
    requires latch { EachCanBeShown (things_of told.now.core.now) latch.now.picture }
    ensures digests { OnOk result (digests.new.items ≡ digests.old.items
        ++ latch_digests (things_of told.now.core.now) told.now.crtc true latch.now) }
    ensures screen { IfOk result (AreKeptFramesOf (things_of told.now.core.now)) }
{
    if !is_lit(latch, told.crtc) {
        return Ok(screen);
    }
    let screen = show_latch(hands, alloc, told.core, screen, latch, &[])?;
    digests.push(screen.frame_of(&latch.picture).digest)?;
    Ok(screen)
}

/// The digests of the frames of those latches of a CRTC that are on and of a strand, which takes what a
/// screen keeps and leaves it dark.
fn digests_of_strand<H: Hands>(
    hands: &H,
    alloc: Global,
    told: &Told,
    screen: &mut Screen,
    strands: &[Strand],
    strand: Strand,
) -> Result<Digests, NoMemory>
    requires hands { H.can_work hands.now }
    requires screen { AreKeptFramesOf (things_of told.now.core.now) screen.old }
    requires latches { CanBeTold told.now }
    requires strands { length strands.now ≡ length told.now.latches.now }
    ensures { IfOk result (λ digests. digests.items ≡ told_digests told.now strand strands.now) }
{
    let mut own = mem::replace(screen, Screen::dark(alloc));
    let mut digests = Vec::new(alloc);
    let latches = told.latches;
    for place in 0..latches.len() {
        let latch = &latches[place];
        if !strand.is(strands[place]) {
            continue;
        }
        own = push_digest(hands, alloc, &mut digests, told, own, latch)?;
    }
    Ok(digests)
}

/// Splits the two frames of a screen, each on a screen of its own.
fn split_screen(alloc: Global, screen: Screen) -> (Screen, Screen)
    ensures one { (things : List Thing) → AreKeptFramesOf things screen
        → AreKeptFramesOf things result.0 }
    ensures other { (things : List Thing) → AreKeptFramesOf things screen
        → AreKeptFramesOf things result.1 }
{
    let Screen { first, second } = screen;
    let mut one = Screen::dark(alloc);
    let mut other = Screen::dark(alloc);
    one.first = first;
    other.first = second;
    (one, other)
}

/// The digests of the frames of those latches of a CRTC that are on, by their strands, made side by side: each strand
/// begins with one of a screen's frames, and has half of the threads for the rows of its own. No other frame is kept or made
/// beside these two.
pub fn digests_by_strands<R: Threads + Sync>(
    rt: &R,
    alloc: Global,
    told: &Told,
    screen: Screen,
    strands: &[Strand],
) -> Result<(Digests, Digests), NoMemory>
    requires hands { IsSync R.row }
    requires screen { AreKeptFramesOf (things_of told.now.core.now) screen }
    requires latches { CanBeTold told.now }
    requires strands { length strands.now ≡ length told.now.latches.now }
    ensures first { IfOk result (λ both. both.0.items
        ≡ told_digests told.now Strand.First strands.now) }
    ensures second { IfOk result (λ both. both.1.items
        ≡ told_digests told.now Strand.Second strands.now) }
{
    let (mut one, mut other) = split_screen(alloc, screen);
    let mut first = || -> Result<Digests, NoMemory>
        requires { IsSync R.row × AreKeptFramesOf (things_of told.now.core.now) one × CanBeTold told.now
            × (length strands.now ≡ length told.now.latches.now) }
        ensures { IfOk result (λ digests. digests.items
            ≡ told_digests told.entry.now Strand.First strands.entry.now) }
    {
        digests_of_strand(
            &OneOfTwo { rt },
            alloc,
            told,
            &mut one,
            strands,
            Strand::First,
        )
    };
    let mut second = || -> Result<Digests, NoMemory>
        requires { IsSync R.row × AreKeptFramesOf (things_of told.now.core.now) other × CanBeTold told.now
            × (length strands.now ≡ length told.now.latches.now) }
        ensures { IfOk result (λ digests. digests.items
            ≡ told_digests told.entry.now Strand.Second strands.entry.now) }
    {
        digests_of_strand(
            &OneOfTwo { rt },
            alloc,
            told,
            &mut other,
            strands,
            Strand::Second,
        )
    };
    let (of_first, of_second) = join_mut(rt, &mut first, &mut second);
    Ok((of_first?, of_second?))
}

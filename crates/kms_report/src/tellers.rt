//! Who tells of latches: one thread, or several, of which two make frames side by side.
ghost use Rattle.std.specs.Prelude.{◌≡◌, ◌++◌, ◌∷◌, [], ℕ, List, false, length, ◌<◌, IfOk, IfSome, OnOk};
ghost use Rattle.std.specs.Thread.{IsSync};
ghost use Rattle.kms_core.specs.Run.{machine};
ghost use Rattle.kms_report.specs.Images.{things_of};
ghost use Rattle.kms_report.specs.Strands.{Begins};
ghost use Rattle.kms_report.specs.Telling.{latches_text};
ghost use Rattle.kms_report.specs.Told.{CanBeTold, told_digests, told_text};
ghost use Rattle.kms_kept_frames.specs.Screens.{AreKeptFramesOf};
ghost use Rattle.kms_kept_frames.specs.declared.strands.Strand.TheVariants as Strand;

use crate::latches::{front_of, push_after, push_digits, push_latches, push_off};
use crate::showing::show_latch;
use crate::strands::digests_by_strands;
use crate::told::Told;
use kms_core::Core;
use kms_kept_frames::{OneThread, Screen, SeveralThreads, Strand, is_lit, strands_of};
use kms_model::{Latch, NoMemory, Picture};
use std::alloc::Global;
use std::thread::Threads;

/// Adds the line of a latch, where it is of this CRTC: of a latch that is on with the first of some digests. Gives those
/// that are still to be told.
fn push_told<'a>(
    alloc: Global,
    text: &mut Vec<u8>,
    core: &Core,
    crtc: u32,
    latch: &Latch,
    digests: &'a [[u8; 32]],
) -> Result<&'a [[u8; 32]], NoMemory>
    requires { (others : List (List ℕ)) × Begins (things_of core.now) crtc latch.now digests.now others }
    ensures text { OnOk result (text.new.items
        ≡ text.old.items ++ latches_text (machine core.now) false (latch.now ∷ []) crtc) }
    ensures others { IfOk result (λ rest. (others : List (List ℕ))
        → Begins (things_of core.now) crtc latch.now digests.now others → rest.now ≡ others) }
{
    if latch.crtc != crtc {
        return Ok(digests);
    }
    text.extend_from_slice(front_of(alloc, latch)?.as_bytes())?;
    let Picture::On(_) = &latch.picture else {
        push_off(text)?;
        return Ok(digests);
    };
    let Some((digest, others)) = digests.split_first() else {
        unreachable!()
    };
    push_digits(alloc, text, digest)?;
    Ok(others)
}

/// Adds the lines of the latches of a CRTC, with the digests of their frames by strands.
fn push_all_told(
    alloc: Global,
    text: &mut Vec<u8>,
    told: &Told,
    strands: &[Strand],
    mut first: &[[u8; 32]],
    mut second: &[[u8; 32]],
) -> Result<(), NoMemory>
    requires strands { length strands.now ≡ length told.now.latches.now }
    requires first { first.now ≡ told_digests told.now Strand.First strands.now }
    requires second { second.now ≡ told_digests told.now Strand.Second strands.now }
    ensures { OnOk result (text.new.items ≡ text.old.items
        ++ latches_text (machine told.now.core.now) false told.now.latches.now told.now.crtc) }
{
    let Told {
        core,
        crtc,
        latches,
        ..
    } = *told;
    for place in 0..latches.len() {
        let latch = &latches[place];
        match strands[place] {
            Strand::First => first = push_told(alloc, text, core, crtc, latch, first)?,
            Strand::Second => second = push_told(alloc, text, core, crtc, latch, second)?,
        }
    }
    Ok(())
}

/// How many bytes of a frame are worth a strand of its own: a quarter of a MiB, whose digest takes about a millisecond.
const WORTH_A_STRAND: usize = 262_144;

/// Whether both frames of a screen are worth a strand.
fn are_large(screen: &Screen) -> bool {
    let (first, second) = (&screen.first.drawn.frame, &screen.second.drawn.frame);
    first.len().min(second.len()) >= WORTH_A_STRAND
}

/// The place of the first latch of a CRTC that is on.
fn first_lit(crtc: u32, latches: &[Latch]) -> Option<usize>
    ensures { IfSome result (λ place. place < length latches.now) }
{
    for (place, latch) in latches.iter().enumerate() {
        if is_lit(latch, crtc) {
            return Some(place);
        }
    }
    None
}

/// Adds the lines of the latches of a CRTC, of which a screen keeps one frame or two: with the digests of two strands
/// where both are large.
fn push_shown<R: Threads + Sync>(
    hands: &SeveralThreads<'_, R>,
    alloc: Global,
    text: &mut Vec<u8>,
    told: &Told,
    screen: Screen,
) -> Result<(), NoMemory>
    requires hands { IsSync R.row }
    requires screen { AreKeptFramesOf (things_of told.now.core.now) screen }
    requires can { CanBeTold told.now }
    requires pixmap { told.now.pixmap ≡ false }
    ensures { OnOk result (text.new.items ≡ text.old.items ++ told_text told.now) }
{
    if !are_large(&screen) {
        return push_after(hands, alloc, text, told, screen);
    }
    let strands = strands_of(alloc, told.crtc, told.latches)?;
    let strands = strands.as_slice();
    let digests = digests_by_strands(hands.rt, alloc, told, screen, strands)?;
    let (first, second) = (digests.0.as_slice(), digests.1.as_slice());
    push_all_told(alloc, text, told, strands, first, second)
}

/// Adds the lines of the latches of a CRTC. Its first frame is made by several threads, and so is the next other one,
/// of a copy of it; then two strands make the others side by side.
fn push_by_strands<R: Threads + Sync>(
    hands: &SeveralThreads<'_, R>,
    alloc: Global,
    text: &mut Vec<u8>,
    told: &Told,
) -> Result<(), NoMemory>
    requires hands { IsSync R.row }
    requires can { CanBeTold told.now }
    requires pixmap { told.now.pixmap ≡ false }
    ensures { OnOk result (text.new.items ≡ text.old.items ++ told_text told.now) }
{
    let latches = told.latches;
    let Some(place) = first_lit(told.crtc, latches) else {
        return push_latches(hands, alloc, text, told);
    };
    let dark = Screen::dark(alloc);
    let (latch, after) = (&latches[place], &latches[place + 1..]);
    let screen = show_latch(hands, alloc, told.core, dark, latch, after)?;
    push_shown(hands, alloc, text, told, screen)
}

/// Who tells of latches.
pub trait Tells {
    // They may be at work in several threads.
    ghost can_tell: { Self → Type 0 };

    /// Adds the lines of the latches of a CRTC, each with its frame as a pixmap behind it where that is wanted. The only error is
    /// want of memory.
    fn push(&self, alloc: Global, text: &mut Vec<u8>, told: &Told) -> Result<(), NoMemory>
        requires can { can_tell self.now }
        requires latches { CanBeTold told.now }
        ensures { OnOk result (text.new.items ≡ text.old.items ++ told_text told.now) };
}

impl Tells for OneThread {
    ghost use Rattle.std.specs.Prelude.{⊤};

    ghost can_tell = { λ _. ⊤ };

    fn push(&self, alloc: Global, text: &mut Vec<u8>, told: &Told) -> Result<(), NoMemory> {
        push_latches(self, alloc, text, told)
    }
}

impl<'a, R: Threads + Sync> Tells for SeveralThreads<'a, R> {
    ghost use Rattle.std.specs.Thread.{IsSync};

    ghost can_tell = { λ _. IsSync R.row };

    fn push(&self, alloc: Global, text: &mut Vec<u8>, told: &Told) -> Result<(), NoMemory> {
        if told.pixmap {
            push_latches(self, alloc, text, told)
        } else {
            push_by_strands(self, alloc, text, told)
        }
    }
}

//! How the latches of a CRTC are shared out between two strands.
ghost use Rattle.std.specs.Prelude.{◌≡◌, All, IfOk, IfSome, List, length};
ghost use Rattle.kms_model.specs.declared.worlds.Thing.{Thing};
ghost use Rattle.kms_model.specs.Frames.Shown.{EachCanBeShown};
ghost use Rattle.kms_kept_frames.specs.Strands.{is_lit, is_strand};

use crate::kept::is_same;
use kms_model::{Latch, NoMemory, Picture};
use std::alloc::Global;

/// Whether a latch is one of a CRTC, and on.
pub fn is_lit(latch: &Latch, crtc: u32) -> bool
    ensures { result ≡ is_lit crtc latch.now }
{
    latch.crtc == crtc && matches!(latch.picture, Picture::On(_))
}

/// Whether a latch shows another picture than this one on a CRTC, and is on.
fn is_other(latch: &Latch, crtc: u32, picture: &Picture) -> bool {
    is_lit(latch, crtc) && !is_same(&latch.picture, picture)
}

/// The picture of the first of these latches that shows another one than this on a CRTC, and is on.
pub fn next_other<'a>(latches: &'a [Latch], crtc: u32, picture: &Picture) -> Option<&'a Picture>
    ensures { (things : List Thing) → All (λ l. EachCanBeShown things l.picture) latches.now
        → IfSome result (λ p. EachCanBeShown things p.now) }
{
    for latch in latches {
        if is_other(latch, crtc, picture) {
            return Some(&latch.picture);
        }
    }
    None
}

/// One of two strands. Each keeps one frame, and makes of it the frames of the latches that are its own, one after the
/// other.
#[derive(Clone, Copy)]
pub enum Strand {
    /// That of the first picture.
    First,
    /// That of the next other picture.
    Second,
}

impl Strand {
    /// The other one.
    fn other(self) -> Strand {
        match self {
            Strand::First => Strand::Second,
            Strand::Second => Strand::First,
        }
    }

    /// Whether it is this one.
    pub fn is(self, strand: Strand) -> bool
        ensures { result ≡ is_strand self strand }
    {
        match (self, strand) {
            (Strand::First, Strand::First) | (Strand::Second, Strand::Second) => true,
            _ => false,
        }
    }
}

/// Whether a picture is this one, where there is one.
fn is_next(picture: &Picture, next: Option<&Picture>) -> bool {
    match next {
        Some(next) => is_same(picture, next),
        None => false,
    }
}

/// How far the latches of a CRTC are shared out: the last picture's strand, and the picture of which each strand keeps
/// the frame then.
#[derive(Drop)]
struct Sharing<'a> {
    strand: Strand,
    first: &'a Picture,
    second: &'a Picture,
}

impl<'a> Sharing<'a> {
    /// The picture of which a strand keeps the frame.
    fn picture_of(&self, strand: Strand) -> &'a Picture {
        match strand {
            Strand::First => self.first,
            Strand::Second => self.second,
        }
    }

    /// Gives this picture to the last picture's strand, which keeps its frame from now on.
    fn keep(&mut self, picture: &'a Picture) {
        match self.strand {
            Strand::First => self.first = picture,
            Strand::Second => self.second = picture,
        }
    }

    /// Gives the picture of a latch of a CRTC that is on, by the latches behind it: to the strand that keeps it, else to
    /// the one that did not get the last picture, but where that one keeps the next other picture.
    fn share(&mut self, crtc: u32, latch: &'a Latch, after: &[Latch]) {
        let picture = &latch.picture;
        if !is_lit(latch, crtc) || is_same(self.picture_of(self.strand), picture) {
            return;
        }
        let other = self.picture_of(self.strand.other());
        if is_same(other, picture) || !is_next(other, next_other(after, crtc, picture)) {
            self.strand = self.strand.other();
        }
        self.keep(picture);
    }
}

/// A strand for each latch. Those of a CRTC that are on change strands where the picture changes, so that a picture that
/// comes twice in a row, or by turns with one other, stays in its strand; and a strand whose picture comes next keeps it,
/// so that of three pictures by turns every second one is there.
pub fn strands_of(alloc: Global, crtc: u32, latches: &[Latch]) -> Result<Vec<Strand>, NoMemory>
    ensures { IfOk result (λ strands. length strands.items ≡ length latches.now) }
{
    let mut strands = Vec::with_capacity(alloc, latches.len())?;
    let mut sharing = Sharing {
        strand: Strand::Second,
        first: &Picture::Off,
        second: &Picture::Off,
    };
    for place in 0..latches.len() {
        sharing.share(crtc, &latches[place], &latches[place + 1..]);
        strands.push(sharing.strand)?;
    }
    Ok(strands)
}

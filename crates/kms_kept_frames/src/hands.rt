//! Who makes frames and digests: one thread, or several.
ghost use Rattle.std.specs.Prelude.{◌≡◌, IfOk, OnOk, take};
ghost use Rattle.sha2.specs.Sha256.{sha256};
ghost use Rattle.kms_model.specs.Frames.FrameBytes.{frame_of};
ghost use Rattle.kms_compose.specs.Images.{CanShow, word_under};
ghost use Rattle.kms_kept_frames.specs.Screens.{AreFronts, AreKeptFramesOver, IsRenewed};

use crate::digests::{both_digests, digest_of_frame};
use crate::fronts::Fronts;
use crate::kept::{renew, renew_both};
use crate::screen::Screen;
use kms_compose::{
    Frame, Images, SeveralDrawers, Share, frame, frame_rows, recompose_kept, recompose_rows,
};
use kms_model::{NoMemory, Picture};
use std::alloc::Global;
use std::thread::Threads;

/// Who changes frames.
pub trait Recomposes {
    // What is asked of who changes them: that its threads may share it.
    ghost can_work: { Self → Type 0 };

    /// Changes the frame of a picture to that of another one, and tells how many bytes at its front it left as they were. The only
    /// error is want of memory.
    fn recompose(
        &self,
        alloc: Global,
        frame: &mut Frame,
        old: &Picture,
        new: &Picture,
        images: &Images,
    ) -> Result<usize, NoMemory>
        requires hands { can_work self.now }
        requires old { CanShow images.now old.now }
        requires new { CanShow images.now new.now }
        requires frame { frame.old ≡ frame_of (word_under images.now) old.now }
        ensures exact { OnOk result (frame.new ≡ frame_of (word_under images.now) new.now) }
        ensures kept { IfOk result (λ count. take count frame.new ≡ take count frame.old) };
}

/// Who makes frames and digests.
pub trait Hands: Recomposes {
    /// The frame of a picture over the images of its framebuffers. The only error is want of memory.
    fn frame(&self, alloc: Global, picture: &Picture, images: &Images) -> Result<Frame, NoMemory>
        requires hands { Self.can_work self.now }
        requires picture { CanShow images.now picture.now }
        ensures { IfOk result (λ bytes. bytes ≡ frame_of (word_under images.now) picture.now) };

    /// The SHA-256 of each of two frames (FIPS 180-4). Each begins with the last of its own states that is there, and adds those
    /// that are not.
    fn digests(
        &self,
        one: &[u8],
        fronts: &mut Fronts,
        other: &[u8],
        others: &mut Fronts,
    ) -> ([u8; 32], [u8; 32])
        requires hands { Self.can_work self.now }
        requires one { AreFronts fronts.old one.now }
        requires other { AreFronts others.old other.now }
        ensures one { result.0 ≡ sha256 one.now }
        ensures fronts { AreFronts fronts.new one.now }
        ensures other { result.1 ≡ sha256 other.now }
        ensures others { AreFronts others.new other.now };

    /// Changes the first frame of a screen to that of a picture, and the second to that of the next one, with their digests. The
    /// only error is want of memory.
    fn renew(
        &self,
        alloc: Global,
        screen: Screen,
        picture: &Picture,
        next: &Picture,
        images: &Images,
    ) -> Result<Screen, NoMemory>
        requires hands { Self.can_work self.now }
        requires screen { AreKeptFramesOver images.now screen }
        requires picture { CanShow images.now picture.now }
        requires next { CanShow images.now next.now }
        ensures { IfOk result (λ s. IsRenewed images.now picture.now s.first
            × IsRenewed images.now next.now s.second) };
}

/// Changes one frame of a screen after the other.
fn renew_in_turn<H: Recomposes>(
    hands: &H,
    alloc: Global,
    screen: Screen,
    picture: &Picture,
    next: &Picture,
    images: &Images,
) -> Result<Screen, NoMemory>
    requires hands { H.can_work hands.now }
    requires screen { AreKeptFramesOver images.now screen }
    requires picture { CanShow images.now picture.now }
    requires next { CanShow images.now next.now }
    ensures { IfOk result (λ s. IsRenewed images.now picture.now s.first
        × IsRenewed images.now next.now s.second) }
{
    let Screen {
        mut first,
        mut second,
    } = screen;
    renew(hands, alloc, &mut first, picture, images)?;
    renew(hands, alloc, &mut second, next, images)?;
    Ok(Screen { first, second })
}

/// One thread, which does one thing after the other.
#[derive(Clone, Copy)]
pub struct OneThread;

impl Recomposes for OneThread {
    ghost use Rattle.std.specs.Prelude.{⊤};

    ghost can_work = { λ _. ⊤ };

    fn recompose(
        &self,
        alloc: Global,
        frame: &mut Frame,
        old: &Picture,
        new: &Picture,
        images: &Images,
    ) -> Result<usize, NoMemory> {
        recompose_kept(alloc, frame, old, new, images)
    }
}

impl Hands for OneThread {
    fn frame(&self, alloc: Global, picture: &Picture, images: &Images) -> Result<Frame, NoMemory> {
        frame(alloc, picture, images)
    }

    fn digests(
        &self,
        one: &[u8],
        fronts: &mut Fronts,
        other: &[u8],
        others: &mut Fronts,
    ) -> ([u8; 32], [u8; 32]) {
        let digest = digest_of_frame(one, fronts);
        (digest, digest_of_frame(other, others))
    }

    fn renew(
        &self,
        alloc: Global,
        screen: Screen,
        picture: &Picture,
        next: &Picture,
        images: &Images,
    ) -> Result<Screen, NoMemory> {
        renew_in_turn(self, alloc, screen, picture, next, images)
    }
}

/// One of two that work side by side, which does one thing after the other. It has half of the threads for the rows of a frame, and
/// one for all else. So both have no more threads than there are processors, where there are two or more.
#[derive(Drop)]
pub struct OneOfTwo<'a, R> {
    /// Where the threads come from.
    pub rt: &'a R,
}

impl<'a, R> OneOfTwo<'a, R> {
    /// Who draws the rows of a frame.
    fn drawers(&self) -> SeveralDrawers<'a, R> {
        SeveralDrawers {
            rt: self.rt,
            share: Share::Half,
        }
    }
}

impl<'a, R: Threads + Sync> Recomposes for OneOfTwo<'a, R> {
    ghost use Rattle.std.specs.Thread.{IsSync};

    ghost can_work = { λ _. IsSync R.row };

    fn recompose(
        &self,
        alloc: Global,
        frame: &mut Frame,
        old: &Picture,
        new: &Picture,
        images: &Images,
    ) -> Result<usize, NoMemory> {
        recompose_rows(&self.drawers(), alloc, frame, old, new, images)
    }
}

impl<'a, R: Threads + Sync> Hands for OneOfTwo<'a, R> {
    fn frame(&self, alloc: Global, picture: &Picture, images: &Images) -> Result<Frame, NoMemory> {
        frame_rows(&self.drawers(), alloc, picture, images)
    }

    fn digests(
        &self,
        one: &[u8],
        fronts: &mut Fronts,
        other: &[u8],
        others: &mut Fronts,
    ) -> ([u8; 32], [u8; 32]) {
        OneThread.digests(one, fronts, other, others)
    }

    fn renew(
        &self,
        alloc: Global,
        screen: Screen,
        picture: &Picture,
        next: &Picture,
        images: &Images,
    ) -> Result<Screen, NoMemory> {
        renew_in_turn(self, alloc, screen, picture, next, images)
    }
}

/// Several threads, one for each processor, which share the rows of a frame; two for two digests where both have much to take in.
/// Two frames that are changed, where both are large, are changed side by side, and each has half of the threads.
#[derive(Drop)]
pub struct SeveralThreads<'a, R> {
    /// Where the threads come from.
    pub rt: &'a R,
}

impl<'a, R> SeveralThreads<'a, R> {
    /// Who draws the rows of a frame.
    fn drawers(&self) -> SeveralDrawers<'a, R> {
        SeveralDrawers {
            rt: self.rt,
            share: Share::Whole,
        }
    }
}

impl<'a, R: Threads + Sync> Recomposes for SeveralThreads<'a, R> {
    ghost use Rattle.std.specs.Thread.{IsSync};

    ghost can_work = { λ _. IsSync R.row };

    fn recompose(
        &self,
        alloc: Global,
        frame: &mut Frame,
        old: &Picture,
        new: &Picture,
        images: &Images,
    ) -> Result<usize, NoMemory> {
        recompose_rows(&self.drawers(), alloc, frame, old, new, images)
    }
}

impl<'a, R: Threads + Sync> Hands for SeveralThreads<'a, R> {
    fn frame(&self, alloc: Global, picture: &Picture, images: &Images) -> Result<Frame, NoMemory> {
        frame_rows(&self.drawers(), alloc, picture, images)
    }

    fn digests(
        &self,
        one: &[u8],
        fronts: &mut Fronts,
        other: &[u8],
        others: &mut Fronts,
    ) -> ([u8; 32], [u8; 32]) {
        both_digests(self.rt, one, fronts, other, others)
    }

    fn renew(
        &self,
        alloc: Global,
        screen: Screen,
        picture: &Picture,
        next: &Picture,
        images: &Images,
    ) -> Result<Screen, NoMemory> {
        renew_both(self.rt, alloc, screen, picture, next, images)
    }
}

//! The two frames that are kept of a CRTC.
ghost use Rattle.std.specs.Prelude.{◌≡◌, ◌⊎◌, ◌↔◌, List, IfOk, IfSome, IsTrue};
ghost use Rattle.kms_model.specs.declared.worlds.Thing.{Thing};
ghost use Rattle.kms_compose.specs.Images.{CanShow};
ghost use Rattle.kms_compose.specs.declared.images.FbImage.{FbImage};
ghost use Rattle.kms_kept_frames.specs.Screens.{AreFronts, Has, IsDrawnOver, IsKeptFrameOf, IsKeptFrameOver, AreKeptFramesOf, AreKeptFramesOver};

use crate::digests::{digest_of, digest_of_frame};
use crate::fronts::Fronts;
use crate::hands::Hands;
use crate::kept::{Drawn, KeptFrame, at_hand, is_same, is_same_size_and_table, redraw};
use kms_compose::Images;
use kms_model::{NoMemory, Picture, Seq};
use std::alloc::Global;

/// Two pictures that a CRTC showed, or is about to show, each with its frame and the frame's digest.
#[derive(Drop)]
pub struct Screen {
    /// One of them.
    pub first: KeptFrame,
    /// The other.
    pub second: KeptFrame,
}

/// The picture that is off, which has no byte.
fn off(alloc: Global) -> KeptFrame
    ensures images { (images : List FbImage) → IsKeptFrameOver images result }
    ensures things { (things : List Thing) → IsKeptFrameOf things result }
{
    KeptFrame {
        drawn: Drawn {
            picture: Picture::Off,
            frame: Seq::new(alloc),
            fronts: Fronts::none(0),
        },
        digest: digest_of(&[]),
    }
}

/// Hashes a frame, which is kept with its digest.
fn hash(drawn: Drawn) -> KeptFrame
    requires { AreFronts drawn.fronts drawn.frame }
    ensures kept { (images : List FbImage) → IsDrawnOver images drawn
        → IsKeptFrameOver images result }
    ensures own { result.drawn.picture ≡ drawn.picture }
{
    let Drawn {
        picture,
        frame,
        mut fronts,
    } = drawn;
    let digest = digest_of_frame(frame.as_slice(), &mut fronts);
    KeptFrame {
        drawn: Drawn {
            picture,
            frame,
            fronts,
        },
        digest,
    }
}

/// Hashes two frames, which are kept with their digests.
fn hash_both<H: Hands>(hands: &H, mut one: Drawn, mut other: Drawn) -> Screen
    requires hands { H.can_work hands.now }
    requires one { AreFronts one.fronts one.frame }
    requires other { AreFronts other.fronts other.frame }
    ensures kept { (images : List FbImage) → IsDrawnOver images one → IsDrawnOver images other
        → AreKeptFramesOver images result }
    ensures first { result.first.drawn.picture ≡ one.picture }
    ensures second { result.second.drawn.picture ≡ other.picture }
{
    let (digest, digest_of_other) = hands.digests(
        one.frame.as_slice(),
        &mut one.fronts,
        other.frame.as_slice(),
        &mut other.fronts,
    );
    Screen {
        first: KeptFrame { drawn: one, digest },
        second: KeptFrame {
            drawn: other,
            digest: digest_of_other,
        },
    }
}

impl Screen {
    /// The screen of a CRTC that showed nothing yet.
    pub fn dark(alloc: Global) -> Screen
        ensures images { (images : List FbImage) → AreKeptFramesOver images result }
        ensures things { (things : List Thing) → AreKeptFramesOf things result }
    {
        Screen {
            first: off(alloc),
            second: off(alloc),
        }
    }

    /// Whether a picture is one of the two.
    pub fn has(&self, picture: &Picture) -> bool
        ensures { IsTrue result ↔ Has self.now picture.now }
    {
        is_same(&self.first.drawn.picture, picture) || is_same(&self.second.drawn.picture, picture)
    }

    /// What is kept of a picture that is one of the two.
    pub fn frame_of(&self, picture: &Picture) -> &KeptFrame
        requires { Has self.now picture.now }
        ensures among { (result.now ≡ self.now.first) ⊎ (result.now ≡ self.now.second) }
        ensures own { result.now.drawn.picture ≡ picture.now }
    {
        if is_same(&self.first.drawn.picture, picture) {
            &self.first
        } else {
            &self.second
        }
    }

    /// The same two, this picture in the second place.
    fn with_last(self, picture: &Picture) -> Screen
        requires { Has self picture.now }
        ensures own { result.second.drawn.picture ≡ picture.now }
        ensures same { ((result.first ≡ self.first) × (result.second ≡ self.second))
            ⊎ ((result.first ≡ self.second) × (result.second ≡ self.first)) }
    {
        if is_same(&self.second.drawn.picture, picture) {
            return self;
        }
        Screen {
            first: self.second,
            second: self.first,
        }
    }

    /// This picture in the place of the first one.
    fn with_one<H: Hands>(
        self,
        hands: &H,
        alloc: Global,
        picture: &Picture,
        images: &Images,
    ) -> Result<Screen, NoMemory>
        requires hands { H.can_work hands.now }
        requires screen { AreKeptFramesOver images.now self }
        requires picture { CanShow images.now picture.now }
        ensures { IfOk result (λ s. AreKeptFramesOver images.now s × Has s picture.now) }
    {
        let Screen { first, second } = self;
        let drawn = redraw(hands, alloc, first.drawn, picture, images)?;
        Ok(Screen {
            first: hash(drawn),
            second,
        })
    }

    /// These two pictures in the place of both. Where each frame is made of the kept one in its place, neither needs the other.
    fn with_both<H: Hands>(
        self,
        hands: &H,
        alloc: Global,
        picture: &Picture,
        next: &Picture,
        images: &Images,
    ) -> Result<Screen, NoMemory>
        requires hands { H.can_work hands.now }
        requires screen { AreKeptFramesOver images.now self }
        requires picture { CanShow images.now picture.now }
        requires next { CanShow images.now next.now }
        ensures stands { IfOk result (AreKeptFramesOver images.now) }
        ensures both { IfOk result (λ s. Has s picture.now × Has s next.now) }
    {
        if is_same_size_and_table(&self.first.drawn.picture, picture)
            && is_same_size_and_table(&self.second.drawn.picture, next)
        {
            return hands.renew(alloc, self, picture, next, images);
        }
        let Screen { first, second } = self;
        let one = redraw(hands, alloc, first.drawn, picture, images)?;
        let hand = at_hand(alloc, second.drawn, &one, next)?;
        let other = redraw(hands, alloc, hand, next, images)?;
        Ok(hash_both(hands, one, other))
    }

    /// A screen that has this picture; one that has it already stays as it is. Else its frame is made of the kept one that goes,
    /// where that has its size and its gamma table, and anew where it has not. Where the next picture is given and not
    /// kept, its frame is made too, likewise or of a copy of the first one, so that the digests of both are made together. There
    /// are two frames at a time, kept or being made, and none besides. The only error is want of memory.
    pub fn showing<H: Hands>(
        self,
        hands: &H,
        alloc: Global,
        picture: &Picture,
        next: Option<&Picture>,
        images: &Images,
    ) -> Result<Screen, NoMemory>
        requires hands { H.can_work hands.now }
        requires screen { AreKeptFramesOver images.now self }
        requires picture { CanShow images.now picture.now }
        requires next { IfSome next (λ p. CanShow images.now p.now) }
        ensures { IfOk result (λ s. AreKeptFramesOver images.now s × Has s picture.now) }
    {
        if self.has(picture) {
            return Ok(self);
        }
        let Some(next) = next else {
            return self.with_one(hands, alloc, picture, images);
        };
        if self.has(next) {
            return self.with_last(next).with_one(hands, alloc, picture, images);
        }
        self.with_both(hands, alloc, picture, next, images)
    }
}

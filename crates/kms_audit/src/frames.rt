//! The digests of frames, each made of a frame that is let go again.
ghost use Rattle.std.specs.Prelude.{◌≡◌, IfOk, List};
ghost use Rattle.kms_audit.specs.Framed.{AreKept, IsKept};
ghost use Rattle.kms_model.specs.declared.worlds.Thing.{Thing};
ghost use Rattle.kms_model.specs.Frames.FrameBytes.{frame_bytes};
ghost use Rattle.kms_model.specs.Frames.Shown.{EachCanBeShown};
ghost use Rattle.kms_model.specs.Report.SeenReport.{digest_shown};

use crate::images::images_of;
use kms_compose::frame;
use kms_kept_frames::{digest_of, is_same};
use kms_model::{NoMemory, Picture};
use kms_serial::Serial;
use std::alloc::Global;

/// A picture with the digest of its frame; no digest where it is off.
#[derive(Clone, Copy)]
pub struct KeptDigest {
    picture: Picture,
    digest: Option<[u8; 32]>,
}

/// The last two pictures of a CRTC that differ, with their digests: the later one first.
#[derive(Clone, Copy)]
pub struct LastTwo {
    later: KeptDigest,
    earlier: KeptDigest,
}

impl KeptDigest {
    /// That of a CRTC that is off.
    fn off() -> KeptDigest
        ensures { (things : List Thing) → IsKept things result }
    {
        KeptDigest {
            picture: Picture::Off,
            digest: None,
        }
    }
}

impl LastTwo {
    /// Those of a CRTC that showed nothing yet.
    pub fn dark() -> LastTwo
        ensures { (things : List Thing) → AreKept things result }
    {
        LastTwo {
            later: KeptDigest::off(),
            earlier: KeptDigest::off(),
        }
    }

    /// The digest of a picture's frame: that of the earlier one where it is this, or of a frame that is made for it.
    fn other_digest(
        &self,
        alloc: Global,
        serial: &Serial,
        picture: &Picture,
    ) -> Result<Option<[u8; 32]>, NoMemory>
        requires can { EachCanBeShown serial.now.world.things picture.now }
        requires kept { AreKept serial.now.world.things self.now }
        ensures { IfOk result (λ digest. digest
            ≡ digest_shown picture.now (frame_bytes serial.now.world.things picture.now)) }
    {
        if is_same(&self.earlier.picture, picture) {
            return Ok(self.earlier.digest);
        }
        digest_of_picture(alloc, serial, picture)
    }

    /// The digest of a picture's frame, over the things of the device, which is kept then. The frame is made only where the
    /// picture is none of the two.
    pub fn digest(
        &mut self,
        alloc: Global,
        serial: &Serial,
        picture: &Picture,
    ) -> Result<Option<[u8; 32]>, NoMemory>
        requires can { EachCanBeShown serial.now.world.things picture.now }
        requires kept { AreKept serial.now.world.things self.old }
        ensures digest { IfOk result (λ digest. digest
            ≡ digest_shown picture.now (frame_bytes serial.now.world.things picture.now)) }
        ensures kept { AreKept serial.now.world.things self.new }
    {
        if is_same(&self.later.picture, picture) {
            return Ok(self.later.digest);
        }
        let digest = self.other_digest(alloc, serial, picture)?;
        self.earlier = self.later;
        self.later = KeptDigest {
            picture: *picture,
            digest,
        };
        Ok(digest)
    }
}

/// The digest of a picture's frame, which is made for it.
fn digest_of_picture(
    alloc: Global,
    serial: &Serial,
    picture: &Picture,
) -> Result<Option<[u8; 32]>, NoMemory>
    requires { EachCanBeShown serial.now.world.things picture.now }
    ensures { IfOk result (λ digest. digest
        ≡ digest_shown picture.now (frame_bytes serial.now.world.things picture.now)) }
{
    let Picture::On(_) = picture else {
        return Ok(None);
    };
    let images = images_of(alloc, serial, picture)?;
    let bytes = frame(alloc, picture, &images)?;
    Ok(Some(digest_of(bytes.as_slice())))
}

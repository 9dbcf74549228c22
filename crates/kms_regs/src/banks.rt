//! The words of all planes and CRTCs: a bank of shadow words, and one of live words.
ghost use Rattle.std.specs.Prelude.{◌≡◌, ◌<◌, ◌≤◌, ◌==◌, ◌||◌, if◌then◌else◌, length};
ghost use Rattle.kms_model.specs.Device.Objects.{object_id};
ghost use Rattle.kms_model.specs.declared.objects.Kind.TheVariants.{Crtc, Plane};
ghost use Rattle.kms_model.specs.declared.objects.Topology.{Topology};
ghost use Rattle.kms_model.specs.Machine.Registers.{crtc_register, first_registers, is_copied, latched_registers, plane_register};
ghost use Rattle.kms_regs.specs.Rewritten.{rewrite_crtc, rewrite_plane};
ghost use Rattle.kms_regs.specs.Words.{ReadSame, latched_plane};

use crate::words::{CrtcWords, PlaneWords};
use kms_model::{Kind, ObjId};
use std::marker::Model;

/// The words of all planes and CRTCs of the largest device, by index. Contracts see them as the definitions' registers.
#[derive(Drop)]
pub struct Bank {
    planes: [PlaneWords; 16],
    crtcs: [CrtcWords; 4],
}

impl Model for Bank {
    ghost use Rattle.kms_model.specs.Machine.Registers.{Registers};

    ghost Value = { Registers };

    ghost use Rattle.kms_regs.specs.Words.{bank_of};

    ghost view = { λ s. bank_of s.planes s.crtcs };
}

impl Bank {
    /// The words at the start.
    pub fn first() -> Bank
        ensures { ReadSame first_registers result }
    {
        let mut planes = [PlaneWords::first(0); 16];
        for index in 0..16 {
            planes[index as usize] = PlaneWords::first(index);
        }
        Bank {
            planes,
            crtcs: [CrtcWords::first(); 4],
        }
    }

    /// The words of the plane with an index, from 0 to 15.
    pub fn plane(&self, index: u32) -> &PlaneWords
        requires { index < 16 }
        ensures { result.now ≡ plane_register self.now (object_id Plane index) }
    {
        &self.planes[index as usize]
    }

    /// The words of the CRTC with an index, from 0 to 3.
    pub fn crtc(&self, index: u32) -> &CrtcWords
        requires { index < 4 }
        ensures { result.now ≡ crtc_register self.now (object_id Crtc index) }
    {
        &self.crtcs[index as usize]
    }

    /// Writes, of the plane with an index, from 0 to 15, the new words that differ from the old ones, and no others.
    pub fn write_plane(&mut self, index: u32, old: &PlaneWords, new: &PlaneWords)
        requires { index < 16 }
        ensures { ReadSame
            (rewrite_plane self.old (object_id Plane index) old.now new.now) self.new }
    {
        self.planes[index as usize].write(old, new);
    }

    /// Writes, of the CRTC with an index, from 0 to 3, the new words that differ from the old ones, and no others.
    pub fn write_crtc(&mut self, index: u32, old: &CrtcWords, new: &CrtcWords)
        requires { index < 4 }
        ensures { ReadSame
            (rewrite_crtc self.old (object_id Crtc index) old.now new.now) self.new }
    {
        self.crtcs[index as usize].write(old, new);
    }

    /// Latches at the CRTC with an index, from 0 to 3: copies its words from the shadow, and of a device with so many
    /// planes the words of those that are on it here or there.
    pub fn latch(&mut self, shadow: &Bank, planes: u32, index: u32)
        requires planes { planes ≤ 16 }
        requires index { index < 4 }
        ensures { (t : Topology) → length t.planes ≡ planes
            → ReadSame (latched_registers t shadow.now self.old (object_id Crtc index)) self.new }
    {
        let crtc = ObjId::of(Kind::Crtc, index).0;
        for plane in 0..planes {
            self.latch_plane(shadow, plane, crtc);
        }
        self.crtcs[index as usize] = *shadow.crtc(index);
    }

    /// Copies the words of a plane from the shadow, if it is on a CRTC here or there.
    fn latch_plane(&mut self, shadow: &Bank, index: u32, crtc: u32)
        requires { index < 16 }
        ensures { ReadSame
            (latched_plane shadow.now self.old crtc (object_id Plane index)) self.new }
    {
        if self.is_copied(shadow, index, crtc) {
            self.planes[index as usize] = *shadow.plane(index);
        }
    }

    /// Whether a plane is on a CRTC here or in the shadow.
    fn is_copied(&self, shadow: &Bank, index: u32, crtc: u32) -> bool
        requires { index < 16 }
        ensures { result ≡ is_copied shadow.now self.now crtc (object_id Plane index) }
    {
        self.plane(index).crtc == crtc || shadow.plane(index).crtc == crtc
    }
}

//! The register file.
ghost use Rattle.std.specs.Prelude.{◌≡◌, ◌<◌, ◌≤◌, ◌↔◌, ℕ, length, is_some, IfSome, IsTrue};
ghost use Rattle.kms_model.specs.Device.Objects.{object_id};
ghost use Rattle.kms_model.specs.Device.Sound.{IsPlaneInRange};
ghost use Rattle.kms_model.specs.declared.objects.Kind.TheVariants.{Crtc, Plane};
ghost use Rattle.kms_model.specs.declared.objects.Topology.{Topology};
ghost use Rattle.kms_model.specs.Machine.Framebuffers.{picture_names};
ghost use Rattle.kms_model.specs.Machine.Registers.{crtc_register, crtc_words, decoded_picture, is_on_in, plane_register, plane_words};
ghost use Rattle.kms_model.specs.Machine.State.{DeviceState, count_at, first_machine, go_at};
ghost use Rattle.kms_regs.specs.File.{StandsForDevice, blanked_picture, blanking_count, flushed_picture, has_go, latched_picture};
ghost use Rattle.kms_regs.specs.Layers.{picture_layers};
ghost use Rattle.kms_regs.specs.StepLaws.{Blanks, Flushes, RewritesCrtc, RewritesPlane, WritesCrtc, WritesPlane};

use crate::banks::Bank;
use crate::pictures::{decoded_picture, is_shown, shown_layers};
use crate::words::{CrtcWords, PlaneWords};
use kms_model::{CrtcState, Layers, Picture, PlaneState, Topology};
use std::marker::Model;

/// The registers of a device: shadow and live words, which CRTCs go at their next vblank, and how many each
/// has had. It takes about nine kilobytes, in place.
///
/// Contracts tell for each state of a machine that the register file stands for, that it stands for the state after the
/// write, the flush or the vblank. It does not know which commit goes.
#[derive(Drop)]
pub struct RegFile {
    planes: u32,
    shadow: Bank,
    live: Bank,
    go: [bool; 4],
    counts: [u64; 4],
}

impl Model for RegFile {
    ghost use Rattle.std.specs.Prelude.{◌≤◌};
    ghost use Rattle.kms_regs.specs.File.{RegisterFile, file_of};

    ghost Value = { RegisterFile };

    ghost view = { λ s. file_of s.planes s.shadow s.live s.go s.counts };

    ghost invariant = { λ s. s.planes ≤ 16 };
}

impl RegFile {
    /// The registers before anything is written, of a device with at most 16 planes.
    pub fn new(topology: &Topology) -> RegFile
        requires { length topology.now.planes ≤ 16 }
        ensures { StandsForDevice topology.now (first_machine topology.now).device result }
    {
        RegFile {
            planes: topology.planes.as_slice().len() as u32,
            shadow: Bank::first(),
            live: Bank::first(),
            go: [false; 4],
            counts: [0; 4],
        }
    }

    /// Whether the shadow words of the plane with an index, from 0 to 15, are those of a state, whose numbers are in the
    /// ranges of their properties.
    pub fn has_plane(&self, index: u32, state: &PlaneState) -> bool
        requires index { index < 16 }
        requires range { IsPlaneInRange state.now }
        ensures { IsTrue result
            ↔ (plane_register self.now.shadow (object_id Plane index) ≡ plane_words state.now) }
    {
        *self.shadow.plane(index) == PlaneWords::of(state)
    }

    /// Whether the shadow words of the CRTC with an index, from 0 to 3, are those of a state, with any connector.
    pub fn has_crtc(&self, index: u32, state: &CrtcState) -> bool
        requires { index < 4 }
        ensures { IsTrue result ↔ (crtc_register self.now.shadow (object_id Crtc index)
            ≡ crtc_words (crtc_register self.now.shadow (object_id Crtc index)).conn state.now) }
    {
        let words = self.shadow.crtc(index);
        *words == CrtcWords::of(words.conn, state)
    }

    /// Writes, of the plane with an index, from 0 to 15, the shadow words that differ between the old state and the new
    /// one, and no others. Where its words are those of the old state, they are those of the new one then. The numbers of
    /// both states are in the ranges of their properties.
    pub fn write_plane(&mut self, index: u32, old: &PlaneState, new: &PlaneState)
        requires index { index < 16 }
        requires old_range { IsPlaneInRange old.now }
        requires new_range { IsPlaneInRange new.now }
        ensures rewrites { RewritesPlane self.old self.new index old.now new.now }
        ensures writes { plane_register self.old.shadow (object_id Plane index)
            ≡ plane_words old.now
            → WritesPlane self.old self.new index new.now }
    {
        self.shadow
            .write_plane(index, &PlaneWords::of(old), &PlaneWords::of(new));
    }

    /// Writes, of the CRTC with an index, from 0 to 3, the shadow words that differ between the old state with its
    /// connector and the new one with the id of the connector whose CRTC it is, or 0; and no others. Where its words are
    /// those of the old state, they are those of the new one then.
    pub fn write_crtc(&mut self, index: u32, conn: u32, old: &CrtcState, new: &CrtcState)
        requires { index < 4 }
        ensures rewrites { RewritesCrtc self.old self.new index
            (crtc_register self.old.shadow (object_id Crtc index)).conn conn old.now new.now }
        ensures writes { crtc_register self.old.shadow (object_id Crtc index)
            ≡ crtc_words (crtc_register self.old.shadow (object_id Crtc index)).conn old.now
            → WritesCrtc self.old self.new index conn new.now }
    {
        let old = CrtcWords::of(self.shadow.crtc(index).conn, old);
        self.shadow
            .write_crtc(index, &old, &CrtcWords::of(conn, new));
    }

    /// Flushes the shadow words of the CRTC with an index, from 0 to 3. One that is on there latches at its next
    /// vblank. One that is off latches at once: it shows nothing, and that is its picture.
    pub fn flush(&mut self, crtc: u32) -> Option<Picture>
        requires { crtc < 4 }
        ensures stands { Flushes self.old self.new crtc }
        ensures picture { (t : Topology) (d : DeviceState) → StandsForDevice t d self.old
            → result ≡ flushed_picture d (object_id Crtc crtc) }
        ensures latched { (t : Topology) (d : DeviceState) → StandsForDevice t d self.old
            → IfSome result (λ p. p ≡ latched_picture t d (object_id Crtc crtc)) }
    {
        if self.shadow.crtc(crtc).active != 0 {
            self.go[crtc as usize] = true;
            return None;
        }
        self.live.latch(&self.shadow, self.planes, crtc);
        Some(Picture::Off)
    }

    /// Counts a vblank of the CRTC with an index, from 0 to 3. One that goes latches, and this is its picture.
    /// The count is below 18446744073709551615.
    pub fn vblank(&mut self, crtc: u32) -> Option<Picture>
        requires crtc { crtc < 4 }
        requires count { blanking_count self.old (object_id Crtc crtc) < 18446744073709551615 }
        ensures stands { Blanks self.old self.new crtc }
        ensures picture { (t : Topology) (d : DeviceState) → StandsForDevice t d self.old
            → result ≡ blanked_picture t d (object_id Crtc crtc) }
    {
        self.counts[crtc as usize] += 1;
        if !self.go[crtc as usize] {
            return None;
        }
        self.go[crtc as usize] = false;
        self.live.latch(&self.shadow, self.planes, crtc);
        Some(decoded_picture(&self.live, self.planes, crtc))
    }

    /// What the live words of the CRTC with an index, from 0 to 3, show.
    pub fn decode_live(&self, crtc: u32) -> Picture
        requires { crtc < 4 }
        ensures { (t : Topology) (d : DeviceState) → StandsForDevice t d self.now
            → result ≡ decoded_picture t d.live (object_id Crtc crtc) }
    {
        decoded_picture(&self.live, self.planes, crtc)
    }

    /// The layers, from the lowest, of what the live words of the CRTC with an index, from 0 to 3, show: those of the
    /// picture that [`RegFile::decode_live`] gives, without its gamma table; none where the CRTC is off.
    pub fn live_layers(&self, crtc: u32) -> Layers
        requires { crtc < 4 }
        ensures { (t : Topology) (d : DeviceState) → StandsForDevice t d self.now
            → result ≡ picture_layers (decoded_picture t d.live (object_id Crtc crtc)) }
    {
        shown_layers(&self.live, self.planes, crtc)
    }

    /// Whether what the live words of the CRTC with an index, from 0 to 3, show names the framebuffer with an id: the
    /// answer that [`RegFile::decode_live`] gives, without its mode and its gamma table.
    pub fn shows(&self, crtc: u32, fb: u32) -> bool
        requires { crtc < 4 }
        ensures { (t : Topology) (d : DeviceState) → StandsForDevice t d self.now
            → result ≡ picture_names fb (decoded_picture t d.live (object_id Crtc crtc)) }
    {
        is_shown(&self.live, self.planes, crtc, fb)
    }

    /// Whether the CRTC with an index, from 0 to 3, is on in its shadow words: a flush there latches nothing yet.
    pub fn is_on_in_shadow(&self, crtc: u32) -> bool
        requires { crtc < 4 }
        ensures { (t : Topology) (d : DeviceState) → StandsForDevice t d self.now
            → result ≡ is_on_in d.shadow (object_id Crtc crtc) }
    {
        self.shadow.crtc(crtc).active != 0
    }

    /// Whether the CRTC with an index, from 0 to 3, is on in its live words: what it shows is no `Off`.
    pub fn is_on(&self, crtc: u32) -> bool
        requires { crtc < 4 }
        ensures { (t : Topology) (d : DeviceState) → StandsForDevice t d self.now
            → result ≡ is_on_in d.live (object_id Crtc crtc) }
    {
        self.live.crtc(crtc).active != 0
    }

    /// How many vblanks the CRTC with an index, from 0 to 3, has had.
    pub fn count(&self, crtc: u32) -> u64
        requires { crtc < 4 }
        ensures own { result ≡ blanking_count self.now (object_id Crtc crtc) }
        ensures device { (t : Topology) (d : DeviceState) → StandsForDevice t d self.now
            → result ≡ count_at d (object_id Crtc crtc) }
    {
        self.counts[crtc as usize]
    }

    /// Whether the CRTC with an index, from 0 to 3, latches at its next vblank.
    pub fn has_go(&self, crtc: u32) -> bool
        requires { crtc < 4 }
        ensures own { result ≡ has_go self.now (object_id Crtc crtc) }
        ensures device { (t : Topology) (d : DeviceState) → StandsForDevice t d self.now
            → result ≡ is_some (go_at d (object_id Crtc crtc)) }
    {
        self.go[crtc as usize]
    }
}

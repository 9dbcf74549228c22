//! What CRTCs show, compared with their L lines.
ghost use Rattle.std.specs.Prelude.{◌≡◌, ◌≢◌, ◌<◌, ◌≤◌, ℕ, List, IfOk, OnOk, false, length};
ghost use Rattle.std.specs.List.{list_all, range_with_len};
ghost use Rattle.kms_audit.specs.Framed.{AreAllKept, AreKept};
ghost use Rattle.kms_audit.specs.Latching.{AreWithin, ShowsAll, first_unmet, line_from, no_track, pictured_now, track_on, track_with, unmet};
ghost use Rattle.kms_audit.specs.Sections.{tells_picture};
ghost use Rattle.kms_model.specs.declared.worlds.Thing.{Thing};
ghost use Rattle.kms_model.specs.Device.Masks.{has_bit};
ghost use Rattle.kms_model.specs.Report.Right.{latch_from, same_digest};

use crate::frames::LastTwo;
use crate::lines::{LatchFields, earliest};
use kms_model::{MAX_CRTCS, NoMemory, Picture, has_bit};
use kms_serial::Serial;
use std::alloc::Global;

/// How far what a CRTC shows agrees with its L lines, in order.
#[derive(Clone, Copy, PartialEq, Eq)]
pub struct Track {
    /// The place of its first L line that is not met, or the number of all L lines where each one of its is. A line is met
    /// where its commit and its digest are those of what is shown.
    line: usize,
    /// Whether each picture so far met its line.
    agrees: bool,
}

/// What all CRTCs showed so far, at the CRTC's index.
#[derive(Clone, Copy)]
pub struct Showing {
    tracks: [Track; 4],
    kept: [LastTwo; 4],
}

/// The place of the first L line of a CRTC from a place on; the number of all lines where there is none. The places from which
/// it looks only rise, so that each CRTC passes each line once.
fn line_from(lines: &[LatchFields], crtc: u32, from: usize) -> usize
    requires { from ≤ length lines.now }
    ensures place { result ≡ line_from lines.now crtc from }
    ensures within { result ≤ length lines.now }
{
    for place in from..lines.len() {
        if lines[place].0 == crtc {
            return place;
        }
    }
    lines.len()
}

/// Whether two digests are the same, or both are missing.
fn same_digest(one: &Option<[u8; 32]>, other: &Option<[u8; 32]>) -> bool
    ensures { result ≡ same_digest one.now other.now }
{
    match (one, other) {
        (None, None) => true,
        (Some(one), Some(other)) => one.as_slice() == other.as_slice(),
        _ => false,
    }
}

impl Track {
    /// That of a CRTC that showed nothing yet.
    fn new(lines: &[LatchFields], crtc: u32) -> Track
        ensures track { result ≡ no_track lines.now crtc }
        ensures within { result.line ≤ length lines.now }
    {
        Track {
            line: line_from(lines, crtc, 0),
            agrees: true,
        }
    }

    /// Whether a CRTC that shows a picture behind a commit, as the device has it, meets this line. The frame is made only where
    /// the commit does.
    fn meets(
        alloc: Global,
        serial: &Serial,
        line: &LatchFields,
        crtc: u32,
        commit: u32,
        kept: &mut LastTwo,
    ) -> Result<bool, NoMemory>
        requires there { crtc < serial.now.topology.crtcs }
        requires kept { AreKept serial.now.world.things kept.old }
        ensures meets { IfOk result (λ meets. meets
            ≡ tells_picture (latch_from line.now) (Some (pictured_now serial.now crtc commit))) }
        ensures kept { AreKept serial.now.world.things kept.new }
    {
        let same = line.1 == commit;
        if !same {
            return Ok(false);
        }
        let picture: Picture = serial.picture(crtc);
        let digest = kept.digest(alloc, serial, &picture)?;
        Ok(same_digest(&line.3, &digest))
    }

    /// The track behind a picture more: what a CRTC shows behind a commit, as the device has it.
    fn behind(
        self,
        alloc: Global,
        serial: &Serial,
        lines: &[LatchFields],
        crtc: u32,
        commit: u32,
        kept: &mut LastTwo,
    ) -> Result<Track, NoMemory>
        requires there { crtc < serial.now.topology.crtcs }
        requires line { self.line ≤ length lines.now }
        requires kept { AreKept serial.now.world.things kept.old }
        ensures track { IfOk result (λ track. track
            ≡ track_with lines.now crtc (pictured_now serial.now crtc commit) self) }
        ensures within { IfOk result (λ track. track.line ≤ length lines.now) }
        ensures kept { AreKept serial.now.world.things kept.new }
    {
        let apart = Track {
            line: self.line,
            agrees: false,
        };
        if !self.agrees {
            return Ok(apart);
        }
        let Some(line) = lines.get(self.line) else {
            return Ok(apart);
        };
        let meets = Track::meets(alloc, serial, line, crtc, commit, kept)?;
        if !meets {
            return Ok(apart);
        }
        let next = line_from(lines, crtc, self.line + 1);
        Ok(Track {
            line: next,
            agrees: true,
        })
    }

    /// The place of the first line that is not met, of so many lines, where there is one.
    fn unmet(&self, lines: usize) -> Option<usize>
        ensures { result ≡ unmet lines self.now }
    {
        if self.line < lines {
            Some(self.line)
        } else {
            None
        }
    }
}

/// The track of a CRTC, by its index.
fn track_at(tracks: &[Track], crtc: u32) -> Track
    ensures { result ≡ track_on tracks.now crtc }
{
    tracks.get(crtc as usize).copied().unwrap_or(Track {
        line: 0,
        agrees: false,
    })
}

impl Showing {
    /// Nothing was shown yet.
    pub fn dark(lines: &[LatchFields]) -> Showing
        ensures tracks { (crtc : ℕ) → crtc < 4
            → track_on result.tracks crtc ≡ no_track lines.now crtc }
        ensures within { AreWithin (length lines.now) result }
        ensures kept { (things : List Thing) → AreAllKept things result }
    {
        let dark = LastTwo::dark();
        Showing {
            tracks: [
                Track::new(lines, 0),
                Track::new(lines, 1),
                Track::new(lines, 2),
                Track::new(lines, 3),
            ],
            kept: [dark; 4],
        }
    }

    /// Shows on one CRTC what it shows behind a commit.
    fn show_on(
        &mut self,
        alloc: Global,
        serial: &Serial,
        lines: &[LatchFields],
        crtc: u32,
        commit: u32,
    ) -> Result<(), NoMemory>
        requires there { crtc < serial.now.topology.crtcs }
        requires few { crtc < 4 }
        requires within { AreWithin (length lines.now) self.old }
        requires kept { AreAllKept serial.now.world.things self.old }
        ensures track { OnOk result (track_on self.new.tracks crtc
            ≡ track_with lines.now crtc (pictured_now serial.now crtc commit)
            (track_on self.old.tracks crtc)) }
        ensures others { (other : ℕ) → other < 4 → other ≢ crtc
            → track_on self.new.tracks other ≡ track_on self.old.tracks other }
        ensures within { OnOk result (AreWithin (length lines.now) self.new) }
        ensures kept { OnOk result (AreAllKept serial.now.world.things self.new) }
    {
        let at = crtc as usize;
        let track = track_at(self.tracks.as_slice(), crtc);
        let next = track.behind(alloc, serial, lines, crtc, commit, &mut self.kept[at])?;
        self.tracks[at] = next;
        Ok(())
    }

    /// Shows what a commit, by its number from 0, makes the CRTCs of a set show, which it names. The device stands behind it.
    pub fn show(
        &mut self,
        alloc: Global,
        serial: &Serial,
        lines: &[LatchFields],
        named: u32,
        commit: u32,
    ) -> Result<(), NoMemory>
        requires few { serial.now.topology.crtcs ≤ 4 }
        requires within { AreWithin (length lines.now) self.old }
        requires kept { AreAllKept serial.now.world.things self.old }
        requires named { (crtc : ℕ) → serial.now.topology.crtcs ≤ crtc
            → has_bit named crtc ≡ false }
        ensures tracks { OnOk result (ShowsAll lines.now serial.now named commit
            self.old.tracks self.new.tracks) }
        ensures within { OnOk result (AreWithin (length lines.now) self.new) }
        ensures kept { OnOk result (AreAllKept serial.now.world.things self.new) }
    {
        for crtc in 0..MAX_CRTCS {
            if !has_bit(named, crtc) {
                continue;
            }
            self.show_on(alloc, serial, lines, crtc, commit)?;
        }
        Ok(())
    }

    /// The place of the first L line, of the first CRTCs, of which there are so many, that is not met.
    pub fn first_unmet(&self, lines: usize, crtcs: u32) -> Option<usize>
        requires { crtcs ≤ 4 }
        ensures { result ≡ first_unmet lines self.now.tracks crtcs }
    {
        let mut first: Option<usize> = None;
        for crtc in 0..crtcs {
            let track = track_at(self.tracks.as_slice(), crtc);
            let own = track.unmet(lines);
            first = earliest(first, own);
        }
        first
    }

    /// Whether each picture that the first CRTCs showed, of which there are so many, met its line.
    pub fn is_all_told(&self, crtcs: u32) -> bool
        requires { crtcs ≤ 4 }
        ensures { result ≡ list_all (λ crtc. (track_on self.now.tracks crtc).agrees)
            (range_with_len 0 crtcs) }
    {
        for crtc in 0..crtcs {
            let track = track_at(self.tracks.as_slice(), crtc);
            if !track.agrees {
                return false;
            }
        }
        true
    }
}

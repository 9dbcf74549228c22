//! The report of a history: its text, with the digest of each frame and, where it is asked for, the frame itself as a portable
//! pixmap. Who reads reports has `parse_report` from here too.
#![tactic(auto)]

ghost use Rattle.std.specs.Prelude.{◌≡◌, ◌*◌, length, IfOk};
ghost use Rattle.kms_model.specs.Report.History.{digest_of};
ghost use Rattle.kms_model.specs.Frames.Ppm.{ppm};

mod answers;
mod ends;
mod histories;
mod images;
mod latches;
mod lines;
mod makers;
mod pixmaps;
mod replies;
mod right;
mod showing;
mod strands;
mod tellers;
mod told;

pub use histories::{Options, report, report_with};
use kms_compose::Frame;
use kms_kept_frames::digest_of;
pub use kms_kept_frames::{OneThread, SeveralThreads};
use kms_model::{NoMemory, Seq};
pub use kms_reading::{ReportError, parse_report};
pub use makers::MakesReports;
pub use replies::replies_text;
use std::alloc::Global;

/// The SHA-256 of a frame's bytes (FIPS 180-4), as 64 lower-case hexadecimal digits. The only error is want of memory.
pub fn digest(alloc: Global, frame: &Frame) -> Result<Seq<u8>, NoMemory>
    ensures exact { IfOk result (λ text. text ≡ digest_of frame.now) }
    ensures digits { IfOk result (λ text. length text ≡ 64) }
{
    let text = hex::encode(alloc, digest_of(frame.as_slice()).as_slice())?;
    Ok(Seq::from_vec(text.into_bytes()))
}

/// A frame of this size in pixels as a portable pixmap in its plain form: the lines `P3`, the width and the height,
/// `255`, and one for each row of pixels, with red, green and blue of each pixel as decimal numbers. Numbers are parted
/// by one blank. (Netpbm: "ppm".) The frame has three bytes for each pixel. The only error is want of memory.
pub fn ppm(alloc: Global, frame: &Frame, width: u32, height: u32) -> Result<Seq<u8>, NoMemory>
    requires { length frame.now ≡ 3 * (width * height) }
    ensures { IfOk result (λ text. text ≡ ppm frame.now width height) }
{
    let text = pixmaps::text_of(alloc, frame.as_slice(), width, height)?;
    Ok(Seq::from_vec(text))
}

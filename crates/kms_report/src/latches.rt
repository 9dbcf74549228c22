//! The lines of latches.
ghost use Rattle.std.specs.Prelude.{◌≡◌, ◌*◌, ◌++◌, ◌∷◌, [], codes, length, string_bytes, IfOk, OnOk};
ghost use Rattle.std.specs.Fmt.{decimal};
ghost use Rattle.hex.specs.Hex.{encode_lower};
ghost use Rattle.sha2.specs.Sha256.{sha256};
ghost use Rattle.kms_core.specs.Run.{machine};
ghost use Rattle.kms_model.specs.Frames.Shown.{EachCanBeShown};
ghost use Rattle.kms_model.specs.Report.History.{latch_line};
ghost use Rattle.kms_report.specs.Images.{things_of};
ghost use Rattle.kms_report.specs.Telling.{latch_front, latches_text, lit_line};
ghost use Rattle.kms_report.specs.Told.{CanBeTold, told_text};
ghost use Rattle.kms_kept_frames.specs.Screens.{AreKeptFramesOf};

use crate::pixmaps::push_pixmap;
use crate::showing::show_latch;
use crate::told::Told;
use kms_compose::Frame;
use kms_kept_frames::{Hands, Screen};
use kms_model::{Latch, Mode, NoMemory, Picture};
use std::alloc::{AllocError, Global};

/// `L CRTC COMMIT COUNT `
pub fn front_of(alloc: Global, latch: &Latch) -> Result<String, AllocError>
    ensures { IfOk result (λ text. string_bytes text ≡ latch_front latch.now) }
{
    let crtc = latch.crtc;
    let commit = latch.commit;
    let count = latch.count;
    format!(in alloc; "L {crtc} {commit} {count} ")
}

/// Adds the end of the line of a latch that is off.
pub fn push_off(text: &mut Vec<u8>) -> Result<(), NoMemory>
    ensures { OnOk result (text.new.items ≡ text.old.items ++ codes "off\n") }
{
    text.extend_from_slice(b"off\n")?;
    Ok(())
}

/// Adds the end of the line of a latch that is on, of its frame's digest.
pub fn push_digits(alloc: Global, text: &mut Vec<u8>, digest: &[u8; 32]) -> Result<(), NoMemory>
    ensures { OnOk result (text.new.items
        ≡ text.old.items ++ (encode_lower digest.now ++ 10 ∷ [])) }
{
    let digits = hex::encode(alloc, digest.as_slice())?;
    text.extend_from_slice(digits.as_bytes())?;
    text.push(b'\n')?;
    Ok(())
}

/// Adds the end of the line of a latch that is on, of its frame and the frame's SHA-256, and the frame as a pixmap where it is
/// wanted.
fn push_frame(
    alloc: Global,
    text: &mut Vec<u8>,
    frame: &Frame,
    digest: &[u8; 32],
    mode: &Mode,
    pixmap: bool,
) -> Result<(), NoMemory>
    requires digest { digest.now ≡ sha256 frame.now }
    requires size { length frame.now ≡ 3 * (mode.now.hdisplay * mode.now.vdisplay) }
    ensures { OnOk result (text.new.items
        ≡ text.old.items ++ lit_line pixmap mode.now frame.now) }
{
    push_digits(alloc, text, digest)?;
    if !pixmap {
        return Ok(());
    }
    let width = u32::from(mode.hdisplay);
    let height = u32::from(mode.vdisplay);
    push_pixmap(alloc, text, frame.as_slice(), width, height)
}

/// Adds the line of a latch of a CRTC, with its frame as a pixmap behind it where that is wanted. The latches after it may be
/// those of other CRTCs too. Gives what is kept of the CRTC's frames.
fn push_latch<H: Hands>(
    hands: &H,
    alloc: Global,
    text: &mut Vec<u8>,
    screen: Screen,
    latch: &Latch,
    after: &Told,
) -> Result<Screen, NoMemory>
    requires hands { H.can_work hands.now }
    requires screen { AreKeptFramesOf (things_of after.now.core.now) screen }
    requires latch { EachCanBeShown (things_of after.now.core.now) latch.now.picture }
    requires after { CanBeTold after.now }
    ensures text { OnOk result (text.new.items ≡ text.old.items
        ++ latch_line (machine after.now.core.now) after.now.pixmap latch.now) }
    ensures screen { IfOk result (AreKeptFramesOf (things_of after.now.core.now)) }
{
    text.extend_from_slice(front_of(alloc, latch)?.as_bytes())?;
    let Picture::On(shown) = &latch.picture else {
        push_off(text)?;
        return Ok(screen);
    };
    let screen = show_latch(hands, alloc, after.core, screen, latch, after.latches)?;
    let kept = screen.frame_of(&latch.picture);
    push_frame(
        alloc,
        text,
        &kept.drawn.frame,
        &kept.digest,
        &shown.mode,
        after.pixmap,
    )?;
    Ok(screen)
}

/// Adds the line of a latch, where it is of the CRTC of those after it.
fn push_if_on<H: Hands>(
    hands: &H,
    alloc: Global,
    text: &mut Vec<u8>,
    screen: Screen,
    latch: &Latch,
    after: &Told,
) -> Result<Screen, NoMemory>
    requires hands { H.can_work hands.now }
    requires screen { AreKeptFramesOf (things_of after.now.core.now) screen }
    requires latch { EachCanBeShown (things_of after.now.core.now) latch.now.picture }
    requires after { CanBeTold after.now }
    ensures text { OnOk result (text.new.items ≡ text.old.items ++ latches_text
        (machine after.now.core.now) after.now.pixmap (latch.now ∷ []) after.now.crtc) }
    ensures screen { IfOk result (AreKeptFramesOf (things_of after.now.core.now)) }
{
    if latch.crtc != after.crtc {
        return Ok(screen);
    }
    push_latch(hands, alloc, text, screen, latch, after)
}

/// Adds the lines of the latches of a CRTC. Each frame is made of one of the two before it, at first of those that are kept, where
/// that has its size and its gamma table, else anew.
pub fn push_after<H: Hands>(
    hands: &H,
    alloc: Global,
    text: &mut Vec<u8>,
    told: &Told,
    mut screen: Screen,
) -> Result<(), NoMemory>
    requires hands { H.can_work hands.now }
    requires screen { AreKeptFramesOf (things_of told.now.core.now) screen }
    requires can { CanBeTold told.now }
    ensures { OnOk result (text.new.items ≡ text.old.items ++ told_text told.now) }
{
    let Told {
        core,
        crtc,
        latches,
        pixmap,
    } = *told;
    for place in 0..latches.len() {
        let latch = &latches[place];
        let after = Told {
            core,
            crtc,
            latches: &latches[place + 1..],
            pixmap,
        };
        screen = push_if_on(hands, alloc, text, screen, latch, &after)?;
    }
    Ok(())
}

/// Adds the lines of the latches of a CRTC, with their frames as pixmaps where these are wanted. Each frame is made of one of the
/// two before it where that has its size and its gamma table, else anew.
pub fn push_latches<H: Hands>(
    hands: &H,
    alloc: Global,
    text: &mut Vec<u8>,
    told: &Told,
) -> Result<(), NoMemory>
    requires hands { H.can_work hands.now }
    requires can { CanBeTold told.now }
    ensures { OnOk result (text.new.items ≡ text.old.items ++ told_text told.now) }
{
    let screen = Screen::dark(alloc);
    push_after(hands, alloc, text, told, screen)
}

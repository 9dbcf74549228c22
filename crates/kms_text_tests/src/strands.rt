//! How latches are shared out between two strands.
use kms_kept_frames::{Strand, strands_of};
use kms_model::{Latch, Layers, Picture, Shown};
use kms_samples::{CONN, sized_mode};
use std::alloc::Global;
use std::process::Abort;
use std::test::Fail;

/// The picture that a letter stands for: a dot for the one that is off, and each other for one of a size of its own.
fn picture_of(letter: u8) -> Picture {
    if letter == b'.' {
        return Picture::Off;
    }
    Picture::On(Shown {
        mode: sized_mode(u16::from(letter), 1),
        conn: CONN.0,
        gamma: None,
        layers: Layers::new(),
    })
}

/// Ends the test where the latches that letters stand for are shared out in another way between the first strand and the second.
/// Small letters stand for latches of another CRTC.
fn assert_shared_out(
    rt: &impl Abort,
    alloc: Global,
    letters: &str,
    wanted: &str,
) -> Result<(), Fail> {
    let mut latches = Vec::new(alloc);
    for letter in letters.as_bytes() {
        latches.push(Latch {
            crtc: u32::from(*letter >= b'a'),
            commit: 0,
            count: 0,
            picture: picture_of(*letter),
        })?;
    }
    let mut told = String::new(alloc);
    for strand in strands_of(alloc, 0, latches.as_slice())?.as_slice() {
        told.push(if strand.is(Strand::First) { '1' } else { '2' })?;
    }
    assert!(rt; told.as_str() == wanted, "{letters} is {told}");
    Ok(())
}

#[test]
fn latches_are_shared_out_between_two_strands(rt: HostRuntime) -> Result<(), Fail> {
    for (letters, wanted) in [
        ("", ""),
        ("ABCD", "1212"),
        ("ABABA", "12121"),
        ("AABBCC", "112211"),
        ("ABCABCABC", "122112212"),
        (".A.aBbA.", "21112211"),
    ] {
        assert_shared_out(&rt, rt.alloc(), letters, wanted)?;
    }
    Ok(())
}

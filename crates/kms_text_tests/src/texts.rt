//! Digests and pixmaps, which a report does not show alone, and a report by one thread.
ghost use Rattle.std.specs.Prelude.{◌≡◌, ◌*◌, length};

use crate::spots::{OPAQUE, Spot, View, WORDS, images, picture};
use kms_compose::frame;
use kms_core::Core;
use kms_model::{Part, Seq};
use kms_one_thread::finish;
use kms_report::{Options, digest, ppm, report};
use kms_samples::script;
use kms_script::parse;
use std::alloc::Global;
use std::process::Abort;
use std::test::Fail;

/// The largest mode, with spots beside it.
const LARGEST: View = View {
    size: (4096, 4096),
    spots: [Spot(-1, 0, OPAQUE), Spot(4096, 0, OPAQUE)],
    is_flat: false,
};

/// Ends the test where the frame of these bytes has another digest.
fn assert_digest(rt: &impl Abort, alloc: Global, bytes: &[u8], wanted: &str) -> Result<(), Fail> {
    let text = digest(alloc, &Seq::from_vec(bytes.to_vec(alloc)?))?;
    assert!(rt; text.as_slice() == wanted.as_bytes(), "{wanted}");
    Ok(())
}

#[test]
fn a_digest_has_lower_case_digits(rt: HostRuntime) -> Result<(), Fail> {
    for (bytes, wanted) in [
        (
            b"".as_slice(),
            "e3b0c44298fc1c149afbf4c8996fb92427ae41e4649b934ca495991b7852b855",
        ),
        (
            b"abc",
            "ba7816bf8f01cfea414140de5dae2223b00361a396177a9cb410ff61f20015ad",
        ),
    ] {
        assert_digest(&rt, rt.alloc(), bytes, wanted)?;
    }
    Ok(())
}

/// Ends the test where the frame of these bytes is written in another way.
fn assert_pixmap(
    rt: &impl Abort,
    alloc: Global,
    bytes: &[u8],
    size: (u32, u32),
    wanted: &str,
) -> Result<(), Fail>
    requires { length bytes.now ≡ 3 * (size.0 * size.1) }
{
    let frame = Seq::from_vec(bytes.to_vec(alloc)?);
    let text = ppm(alloc, &frame, size.0, size.1)?;
    assert!(rt; text.as_slice() == wanted.as_bytes(), "{wanted}");
    Ok(())
}

#[test]
fn a_pixmap_has_a_line_for_each_row(rt: HostRuntime) -> Result<(), Fail> {
    let bytes = [0, 9, 10, 99, 100, 255, 1, 2, 3, 4, 5, 6];
    let two = "P3\n2 2\n255\n0 9 10 99 100 255\n1 2 3 4 5 6\n";
    let four = "P3\n1 4\n255\n0 9 10\n99 100 255\n1 2 3\n4 5 6\n";
    let none = "P3\n4294967295 0\n255\n";
    assert_pixmap(&rt, rt.alloc(), &bytes, (2, 2), two)?;
    assert_pixmap(&rt, rt.alloc(), &bytes, (1, 4), four)?;
    assert_pixmap(&rt, rt.alloc(), &[], (4294967295, 0), none)
}

// A frame of 3 bytes for each pixel; 17 bytes of first lines, and two for each number.
#[test]
fn the_largest_frame_is_made_and_written(rt: HostRuntime) -> Result<(), Fail> {
    let images = images(rt.alloc(), &WORDS)?;
    let frame = frame(rt.alloc(), &picture(&LARGEST), &images)?;
    assert!(rt; frame.len() == 50331648, "{} bytes", frame.len());
    let text = ppm(rt.alloc(), &frame, 4096, 4096)?;
    assert!(rt; text.len() == 17 + 2 * 50331648, "{} bytes", text.len());
    Ok(())
}

/// Ends the test where the machine has another report, with its steps and its frames.
fn assert_report(rt: &impl Abort, alloc: Global, core: &Core, wanted: &str) -> Result<(), Fail> {
    let options = Options {
        trace: true,
        ppm: true,
    };
    let text = report(alloc, core.script(), core, options)?;
    assert!(rt; text.as_slice() == wanted.as_bytes(), "{wanted}");
    Ok(())
}

/// A client lights a CRTC.
#[test]
fn one_thread_writes_a_report(rt: HostRuntime) -> Result<(), Fail> {
    let script = script!(single "client\n" made lights);
    let parsed = parse(rt.alloc(), script.as_bytes(), Part::Script)?;
    let mut core = Core::new(rt.alloc(), parsed.script)?;
    finish(rt.alloc(), &mut core)?;
    assert_report(&rt, rt.alloc(), &core, LIT)
}

const LIT: &str =
    "J 1 1\nJ 1 2\nJ 1 3\nJ 1 4\nR 1 1 0 made 1000\nR 1 2 1 made 1001\nR 1 3 2 made 1002\nR 1 4 3 commit 0\nL 0 0 1 ba7816bf8f01cfea414140de5dae2223b00361a396177a9cb410ff61f20015ad\nP3\n1 1\n255\n97 98 99\nD drained\nT make 1\nT make 1\nT make 1\nT begin 1\nT lock 1 crtc0\nT lock 1 plane0\nT lock 1 conn0\nT swap 1\nT claim 0\nT write 0 crtc0\nT write 0 plane0\nT flush 0 crtc0\nT hwdone 0\nT vblank crtc0\nT cleanup 0\nT return 1\n";

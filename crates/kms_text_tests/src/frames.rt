//! Frames that are made of earlier ones: how many bytes of them stay, and that threads make the same.
ghost use Rattle.std.specs.Prelude.{◌≡◌};
ghost use Rattle.kms_compose.specs.Images.{CanShow, HasImage};
ghost use Rattle.kms_text_tests.specs.Spots.{spot_fb};

use crate::spots::{OPAQUE, Spot, View, WORDS, images, picture};
use kms_compose::{
    Images, SeveralDrawers, Share, frame, frame_rows, recompose, recompose_kept, recompose_rows,
};
use kms_model::Picture;
use std::process::Abort;
use std::test::Fail;
use std::thread::Threads;

/// Ends the test where the frame of a picture, made of that of another one, keeps another number of bytes, or is another than
/// the one that threads make, or is not made back.
fn assert_kept<R: Abort + AllocGlobal + Threads + Sync>(
    rt: &R,
    images: &Images,
    old: &Picture,
    new: &Picture,
    wanted: usize,
    case: usize,
) -> Result<(), Fail>
    requires old { CanShow images.now old.now }
    requires new { CanShow images.now new.now }
{
    let alloc = rt.alloc();
    let first = frame(alloc, old, images)?;
    let mut bytes = frame(alloc, old, images)?;
    let count = recompose_kept(alloc, &mut bytes, old, new, images)?;
    let drawers = SeveralDrawers {
        rt,
        share: Share::Whole,
    };
    let whole = frame_rows(&drawers, alloc, new, images)?;
    let is_whole = bytes.as_slice() == whole.as_slice();
    recompose(alloc, &mut bytes, new, old, images)?;
    let is_back = bytes.as_slice() == first.as_slice();
    assert!(rt;
        count == wanted && is_whole && is_back,
        "case {case} keeps {count} bytes"
    );
    Ok(())
}

/// Half transparent.
const PALE: u16 = 32768;

/// Two spots, those that they become, and how many bytes stay.
type Case = ([Spot; 2], [Spot; 2], usize);

/// The lower spot of most cases, and the same half transparent.
const LEFT: Spot = Spot(0, 2, OPAQUE);

const PALE_LEFT: Spot = Spot(0, 2, PALE);

/// The upper spot of most cases, and the same half transparent.
const RIGHT: Spot = Spot(1, 3, OPAQUE);

const PALE_RIGHT: Spot = Spot(1, 3, PALE);

/// In a mode of 4x6, in which each row has 12 bytes.
const CASES: [Case; 11] = [
    ([LEFT, RIGHT], [LEFT, RIGHT], 72),
    ([LEFT, RIGHT], [PALE_LEFT, RIGHT], 24),
    ([LEFT, RIGHT], [LEFT, PALE_RIGHT], 36),
    ([LEFT, RIGHT], [PALE_LEFT, PALE_RIGHT], 24),
    ([LEFT, RIGHT], [RIGHT, LEFT], 36),
    ([LEFT, RIGHT], [LEFT, Spot(1, 1, OPAQUE)], 12),
    ([LEFT, Spot(1, 1, OPAQUE)], [LEFT, RIGHT], 12),
    ([LEFT, RIGHT], [LEFT, Spot(1, -1, OPAQUE)], 0),
    ([LEFT, Spot(1, 5, OPAQUE)], [LEFT, Spot(1, 5, PALE)], 60),
    ([LEFT, Spot(1, -1, OPAQUE)], [LEFT, Spot(1, -1, PALE)], 0),
    ([LEFT, Spot(1, 6, OPAQUE)], [LEFT, Spot(1, 6, PALE)], 72),
];

/// Spots in the mode of the cases.
fn view(spots: [Spot; 2]) -> View {
    View {
        size: (4, 6),
        spots,
        is_flat: false,
    }
}

/// Ends the test where a case is not as it is wanted.
fn assert_case<R: Abort + AllocGlobal + Threads + Sync>(
    rt: &R,
    images: &Images,
    case: &Case,
    place: usize,
) -> Result<(), Fail>
    requires { HasImage images.now spot_fb }
{
    let old = picture(&view(case.0));
    let new = picture(&view(case.1));
    assert_kept(rt, images, &old, &new, case.2, place)
}

#[test]
fn rows_above_all_that_is_drawn_are_kept(rt: HostRuntime) -> Result<(), Fail> {
    let images = images(rt.alloc(), &WORDS)?;
    for (place, case) in CASES.iter().enumerate() {
        assert_case(&rt, &images, case, place)?;
    }
    Ok(())
}

// The same spots in one colour, in a mode of another size, and off.
#[test]
fn no_row_is_kept_where_each_is_made_anew(rt: HostRuntime) -> Result<(), Fail> {
    let images = images(rt.alloc(), &WORDS)?;
    let plain = view([LEFT, RIGHT]);
    let old = picture(&plain);
    let flat = picture(&View {
        is_flat: true,
        ..plain
    });
    let longer = picture(&View {
        size: (4, 7),
        ..plain
    });
    assert_kept(&rt, &images, &old, &flat, 0, 0)?;
    assert_kept(&rt, &images, &old, &longer, 0, 1)?;
    assert_kept(&rt, &images, &old, &Picture::Off, 0, 2)?;
    assert_kept(&rt, &images, &Picture::Off, &old, 0, 3)
}

/// The size of a mode, and two spots in it.
type Large = ((u16, u16), [Spot; 2]);

/// Modes whose rows two threads share, and four where there are as many. The last thread has fewer rows than the others. The spots are
/// where two bands of rows meet, and at the ends.
const LARGE: [Large; 3] = [
    ((512, 131), [Spot(511, 65, OPAQUE), Spot(0, 129, OPAQUE)]),
    ((4096, 17), [Spot(4095, 8, OPAQUE), Spot(0, 16, OPAQUE)]),
    ((257, 513), [Spot(256, 128, OPAQUE), Spot(128, 256, OPAQUE)]),
];

/// Ends the test where threads make another frame than one does: as a whole, or of one that has other pixels everywhere.
fn assert_shared<R: Abort + AllocGlobal + Threads + Sync>(
    rt: &R,
    images: &Images,
    large: &Large,
    share: Share,
) -> Result<(), Fail>
    requires { HasImage images.now spot_fb }
{
    let alloc = rt.alloc();
    let plain = View {
        size: large.0,
        spots: large.1,
        is_flat: false,
    };
    let new = picture(&plain);
    let old = picture(&View {
        is_flat: true,
        ..plain
    });
    let wanted = frame(alloc, &new, images)?;
    let drawers = SeveralDrawers { rt, share };
    let whole = frame_rows(&drawers, alloc, &new, images)?;
    let mut bytes = frame(alloc, &old, images)?;
    recompose_rows(&drawers, alloc, &mut bytes, &old, &new, images)?;
    let is_whole = whole.as_slice() == wanted.as_slice();
    let is_made = bytes.as_slice() == wanted.as_slice();
    let (width, height) = large.0;
    assert!(rt;
        is_whole && is_made,
        "{width}x{height}: whole {is_whole}, made {is_made}"
    );
    Ok(())
}

#[test]
fn rows_that_threads_share_are_those_of_one(rt: HostRuntime) -> Result<(), Fail> {
    let images = images(rt.alloc(), &WORDS)?;
    for large in LARGE {
        assert_shared(&rt, &images, &large, Share::Whole)?;
        assert_shared(&rt, &images, &large, Share::Half)?;
    }
    Ok(())
}

//! What is kept of a CRTC: how many states of a digest stay where a frame changes, and large frames and digests, which threads make
//! side by side.
ghost use Rattle.std.specs.Prelude.{◌≡◌, IfOk};
ghost use Rattle.kms_compose.specs.Images.{HasImage};
ghost use Rattle.kms_text_tests.specs.Spots.{ShowsSpots, spot_fb};
ghost use Rattle.kms_kept_frames.specs.Screens.{AreKeptFramesOver};

use crate::spots::{OPAQUE, Spot, View, WORDS, images, picture};
use kms_compose::{Frame, Images};
use kms_kept_frames::{Fronts, Hands, OneThread, Recomposes, Screen, SeveralThreads};
use kms_model::{NoMemory, Picture};
use std::alloc::Global;
use std::cell::Cell;
use std::process::Abort;
use std::test::Fail;
use std::thread::Threads;

/// One thread, which counts the states with which two digests begin.
#[derive(Drop)]
struct Counting {
    of_one: Cell<usize>,
    of_other: Cell<usize>,
}

impl Recomposes for Counting {
    ghost use Rattle.std.specs.Prelude.{⊤};

    ghost can_work = { λ _. ⊤ };

    fn recompose(
        &self,
        alloc: Global,
        frame: &mut Frame,
        old: &Picture,
        new: &Picture,
        images: &Images,
    ) -> Result<usize, NoMemory> {
        OneThread.recompose(alloc, frame, old, new, images)
    }
}

impl Hands for Counting {
    fn frame(&self, alloc: Global, picture: &Picture, images: &Images) -> Result<Frame, NoMemory> {
        OneThread.frame(alloc, picture, images)
    }

    fn digests(
        &self,
        one: &[u8],
        fronts: &mut Fronts,
        other: &[u8],
        others: &mut Fronts,
    ) -> ([u8; 32], [u8; 32]) {
        self.of_one.set(fronts.states.len());
        self.of_other.set(others.states.len());
        OneThread.digests(one, fronts, other, others)
    }

    fn renew(
        &self,
        alloc: Global,
        screen: Screen,
        picture: &Picture,
        next: &Picture,
        images: &Images,
    ) -> Result<Screen, NoMemory> {
        OneThread.renew(alloc, screen, picture, next, images)
    }
}

/// The screen of a CRTC that showed nothing yet, over some images.
fn dark(alloc: Global, images: &Images) -> Screen
    ensures { AreKeptFramesOver images.now result }
{
    Screen::dark(alloc)
}

/// Two opaque spots in a mode of this size.
fn spots(size: (u16, u16), one: (i16, i16), other: (i16, i16)) -> View {
    View {
        size,
        spots: [Spot(one.0, one.1, OPAQUE), Spot(other.0, other.1, OPAQUE)],
        is_flat: false,
    }
}

// A row has 192 bytes and a frame 12,288, so that its places are 832 bytes from one another: 14 fit. The 13th ends at 10,816,
// before y = 60, which begins at 11,520; the 9th at 7,488, before y = 40, at 7,680.
#[test]
fn states_above_the_first_change_stay(rt: HostRuntime) -> Result<(), Fail> {
    let alloc = rt.alloc();
    let images = images(alloc, &WORDS)?;
    let hands = Counting {
        of_one: Cell::new(0),
        of_other: Cell::new(0),
    };
    let size = (64, 64);
    let old = picture(&spots(size, (3, 50), (5, 60)));
    let new = picture(&spots(size, (3, 50), (6, 60)));
    let last = picture(&spots(size, (4, 40), (6, 60)));
    let screen = dark(alloc, &images).showing(&hands, alloc, &old, None, &images)?;
    let all = screen.first.drawn.fronts.states.len();
    let _screen = screen.showing(&hands, alloc, &new, Some(&last), &images)?;
    let stay = (hands.of_one.get(), hands.of_other.get());
    assert!(rt;
        all == 14 && stay == (13, 9),
        "of {all} states {stay:?} stay"
    );
    Ok(())
}

/// Ends the test where a screen does not keep a picture with this digest.
fn assert_keeps(rt: &impl Abort, screen: &Screen, picture: &Picture, wanted: &[u8; 32]) {
    assert!(rt; screen.has(picture), "{wanted:?} is kept");
    let digest = &screen.frame_of(picture).digest;
    assert!(rt; digest == wanted, "{digest:?} is {wanted:?}");
}

/// The digests of the pictures of the first two columns, which were worked out by another program.
const FIRST: [[u8; 32]; 2] = [
    [
        0x21, 0x13, 0x49, 0xbc, 0x80, 0x3f, 0xd6, 0x99, 0xd6, 0x74, 0x0f, 0x28, 0x77, 0x91, 0x4b,
        0xaa, 0x9d, 0xd9, 0x00, 0x2f, 0x96, 0x6b, 0x21, 0x18, 0x9c, 0x0e, 0xeb, 0xc5, 0xff, 0xf8,
        0x98, 0x1c,
    ],
    [
        0xd6, 0x5d, 0x6a, 0x09, 0xef, 0x25, 0x45, 0xf7, 0x2c, 0x2f, 0xc9, 0x89, 0xb9, 0xc0, 0x6d,
        0x20, 0x1c, 0x71, 0x49, 0xf6, 0x5e, 0x63, 0x6e, 0xe9, 0x9f, 0xff, 0xb5, 0xb0, 0xfd, 0x3b,
        0xd6, 0xa1,
    ],
];

/// Those of the next two.
const SECOND: [[u8; 32]; 2] = [
    [
        0x23, 0xaf, 0x3b, 0xe7, 0x0e, 0xd8, 0xcc, 0x51, 0x4a, 0x25, 0xe7, 0x00, 0xae, 0xb9, 0x17,
        0xf7, 0xff, 0x01, 0x5b, 0x8f, 0xcb, 0x49, 0xaf, 0xe8, 0x5c, 0xc1, 0x9d, 0xef, 0xb9, 0xa3,
        0xf0, 0xa4,
    ],
    [
        0x27, 0x0e, 0x44, 0x02, 0xcd, 0x46, 0x2c, 0x8d, 0x00, 0x52, 0xfd, 0x38, 0x88, 0x70, 0x03,
        0x0a, 0x55, 0x86, 0xf9, 0x2a, 0x13, 0x22, 0x2e, 0xa0, 0x9e, 0xa8, 0x0e, 0x5d, 0x94, 0xa6,
        0x20, 0x24,
    ],
];

/// Two spots at a column of 512x200 pixels, whose frame has 307,200 bytes.
fn large(column: i16) -> Picture
    ensures { ShowsSpots result }
{
    picture(&spots((512, 200), (column, 100), (column, 198)))
}

/// What a screen keeps that is asked for the pictures of two columns; the test ends where they have other digests.
fn show_columns<R: Abort + Threads + Sync>(
    rt: &R,
    alloc: Global,
    screen: Screen,
    images: &Images,
    columns: (i16, i16),
    digests: &[[u8; 32]; 2],
) -> Result<Screen, NoMemory>
    requires images { HasImage images.now spot_fb }
    requires screen { AreKeptFramesOver images.now screen }
    ensures { IfOk result (AreKeptFramesOver images.now) }
{
    let hands = SeveralThreads { rt };
    let one = large(columns.0);
    let other = large(columns.1);
    let screen = screen.showing(&hands, alloc, &one, Some(&other), images)?;
    assert_keeps(rt, &screen, &one, &digests[0]);
    assert_keeps(rt, &screen, &other, &digests[1]);
    Ok(screen)
}

/// The frames of the second two are made of those of the first two.
#[test]
fn large_frames_are_made_side_by_side(rt: HostRuntime) -> Result<(), Fail> {
    let images = images(rt.alloc(), &WORDS)?;
    let screen = dark(rt.alloc(), &images);
    let screen = show_columns(&rt, rt.alloc(), screen, &images, (0, 1), &FIRST)?;
    let _last = show_columns(&rt, rt.alloc(), screen, &images, (2, 3), &SECOND)?;
    Ok(())
}

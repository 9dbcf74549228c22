//! Channels that are blended, worked by hand; and what no clause says: rows of lengths round those of the lanes, as two
//! compilers build them.
ghost use Rattle.std.specs.Prelude.{◌≡◌, ◌≤◌, length};

use kms_blend::{blend, blend_row};
use std::process::Abort;

/// The mode, the plane's alpha, the pixel's, the layer's channel, the lower one, what shows.
type Case = (u32, u32, u32, u32, u32, u32);

/// Asserts what shows where a layer's channel lies over a lower one.
fn assert_shows(rt: &impl Abort, case: Case) {
    let (mode, a, q, f, b, shown) = case;
    assert!(rt; mode <= 2 && a <= 65535 && q <= 255 && f <= 255 && b <= 255);
    assert!(rt;
        blend(mode, a, q, f, b) == shown,
        "mode {mode}, {a} {q} {f} {b}"
    );
}

#[test]
fn channels_blend_as_worked_by_hand(rt: HostRuntime) {
    let channels = [
        (0, 65535, 100, 200, 255, 255),
        (1, 65535, 0, 10, 200, 200),
        (0, 65535, 0, 10, 200, 210),
        (2, 65535, 0, 10, 200, 10),
        (1, 65535, 128, 255, 0, 128),
        (0, 32768, 255, 0, 255, 127),
        (0, 32768, 255, 255, 0, 128),
    ];
    for case in channels {
        assert_shows(&rt, case);
    }
}

// An opaque pixel of 255 over 0, and one of 0 over 255, at each plane's alpha: all modes agree there.
#[test]
fn a_plane_s_alpha_goes_from_0_to_65535(rt: HostRuntime) {
    let alphas = [
        (0, 0, 255),
        (1, 0, 255),
        (128, 0, 255),
        (129, 1, 254),
        (32767, 127, 128),
        (32768, 128, 127),
        (65534, 255, 0),
        (65535, 255, 0),
    ];
    for (a, over_black, over_white) in alphas {
        for mode in 0..3 {
            assert_shows(&rt, (mode, a, 255, 255, 0, over_black));
            assert_shows(&rt, (mode, a, 255, 0, 255, over_white));
        }
    }
}

/// The alphas of a row of pixels.
const ALPHAS: [u8; 17] = [
    0, 17, 34, 51, 68, 85, 102, 119, 136, 153, 170, 187, 204, 221, 238, 255, 128,
];

/// Their channels.
const CHANNELS: [u8; 17] = [
    255, 0, 16, 200, 3, 99, 100, 101, 254, 1, 77, 30, 150, 10, 250, 60, 255,
];

/// What lies below.
const BELOW: [u8; 17] = [
    0, 255, 8, 40, 3, 180, 20, 90, 255, 1, 128, 64, 32, 16, 2, 5, 0,
];

#[test]
fn rows_of_0_1_and_17_places_are_blended(rt: HostRuntime) {
    blend_row(0, 65535, &[], &[], &mut []);

    let mut one = [200];
    blend_row(0, 65535, &[0], &[10], &mut one);
    assert!(rt; one == [210], "one place");

    let rows: [(u32, [u8; 17]); 3] = [
        (
            0,
            [
                156, 245, 17, 157, 4, 204, 76, 126, 255, 1, 123, 54, 108, 14, 153, 39, 156,
            ],
        ),
        (
            1,
            [
                0, 245, 9, 60, 3, 164, 40, 93, 255, 1, 107, 49, 90, 13, 143, 39, 78,
            ],
        ),
        (
            2,
            [
                156, 99, 13, 138, 3, 131, 69, 97, 254, 1, 97, 43, 104, 12, 153, 39, 156,
            ],
        ),
    ];
    for (mode, shown) in rows {
        let mut row = BELOW;
        assert!(rt; mode <= 2);
        blend_row(mode, 40000, &ALPHAS, &CHANNELS, &mut row);
        assert!(rt; row == shown, "mode {mode}");
    }
}

/// Whether each place of a row is what shows where `f` lies over what was below.
fn is_blended(mode: u32, a: u32, q: &[u8], f: &[u8], below: &[u8], row: &[u8]) -> bool
    requires mode { mode ≤ 2 }
    requires a { a ≤ 65535 }
    requires q { length q.now ≡ length row.now }
    requires f { length f.now ≡ length row.now }
    requires below { length below.now ≡ length row.now }
{
    for (i, shown) in row.iter().enumerate() {
        let (q, f, below) = (u32::from(q[i]), u32::from(f[i]), u32::from(below[i]));
        if blend(mode, a, q, f, below) != u32::from(*shown) {
            return false;
        }
    }
    true
}

#[test]
fn rows_of_each_length_are_blended_place_by_place(rt: HostRuntime) {
    let mut q = [0; 4096];
    let mut f = [0; 4096];
    let mut below = [0; 4096];
    for i in 0..4096 {
        q[i] = (7 * i % 256) as u8;
        f[i] = (11 * i % 253) as u8;
        below[i] = (i / 16) as u8;
    }
    for length in [0, 1, 15, 16, 17, 64, 4096] {
        for a in [0, 40000, 65534, 65535] {
            for mode in 0..3 {
                assert!(rt; length <= 4096 && a <= 65535);
                let mut row = below;
                let (q, f, below) = (&q[..length], &f[..length], &below[..length]);
                blend_row(mode, a, q, f, &mut row[..length]);
                assert!(rt;
                    is_blended(mode, a, q, f, below, &row[..length]),
                    "mode {mode}, alpha {a}, {length} places"
                );
            }
        }
    }
}

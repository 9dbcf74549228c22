//! Rectangles and quotients, worked by hand.
ghost use Rattle.std.specs.Prelude.{◌≡◌, true};
ghost use Rattle.kms_model.specs.Frames.Rectangles.{IsNearRect};

use kms_geom::{clip, div_round, fits_source, is_scaled_little};
use kms_model::Rect;
use std::process::Abort;

/// The least and the greatest number of a rectangle.
const LEAST: i64 = -4294967295;

const MOST: i64 = 4294967295;

/// A pixel in 16.16 fixed point.
const PIXEL: i64 = 65536;

/// A rectangle of its left and upper edge, its width and its height.
fn rect(numbers: [i64; 4]) -> Rect {
    let [x, y, w, h] = numbers;
    Rect { x, y, w, h }
}

/// Whether the numbers of a rectangle are in their ranges.
fn is_near(r: &Rect) -> bool
    ensures { result ≡ true → IsNearRect r.now }
{
    if r.x < LEAST || r.y < LEAST {
        return false;
    }
    if r.w < LEAST || r.h < LEAST {
        return false;
    }
    if r.x > MOST || r.y > MOST {
        return false;
    }
    if r.w > MOST || r.h > MOST {
        return false;
    }
    true
}

/// Asserts what two rectangles have in common.
fn assert_common(rt: &impl Abort, case: &str, dst: Rect, area: Rect, common: Option<Rect>) {
    assert!(rt; is_near(&dst) && is_near(&area), "{case}");
    assert!(rt; clip(dst, area) == common, "{case}");
}

// The area is from (0, 0) to (10, 8) where it is not given.
#[test]
fn a_clipped_rectangle_is_what_both_have(rt: HostRuntime) {
    let area = rect([0, 0, 10, 8]);
    let some = [
        ("inside", [2, 3, 4, 5], [2, 3, 4, 5]),
        ("around", [-1, -1, 99, 99], [0, 0, 10, 8]),
        ("upper left", [-3, -2, 8, 8], [0, 0, 5, 6]),
        ("lower right", [7, 6, 5, 5], [7, 6, 3, 2]),
        ("last pixel", [9, 7, 1, 1], [9, 7, 1, 1]),
        ("one column", [4, -5, 1, 99], [4, 0, 1, 8]),
    ];
    for (case, dst, common) in some {
        assert_common(&rt, case, rect(dst), area, Some(rect(common)));
    }
    let none = [
        ("left", [-4, 0, 4, 8]),
        ("right", [10, 0, 4, 8]),
        ("above", [0, -4, 10, 4]),
        ("below", [0, 8, 10, 4]),
        ("outside", [20, 30, 1, 1]),
        ("no width", [3, 3, 0, 2]),
        ("no height", [3, 3, 2, 0]),
        ("a width below 0", [3, 3, -2, 2]),
    ];
    for (case, dst) in none {
        assert_common(&rt, case, rect(dst), area, None);
    }
    let other_areas = [
        ("two places", [0, 0, 9, 9], [5, 6, 9, 9], Some([5, 6, 4, 3])),
        ("a size below 0", [3, 3, -2, -2], [1, 1, 9, 9], None),
        ("far", [MOST; 4], [MOST; 4], Some([MOST; 4])),
        ("far apart", [LEAST, LEAST, MOST, MOST], [MOST; 4], None),
    ];
    for (case, dst, area, common) in other_areas {
        assert_common(&rt, case, rect(dst), rect(area), common.map(rect));
    }
}

/// Asserts whether a source fits a framebuffer.
fn assert_fits(rt: &impl Abort, src: Rect, width: u32, height: u32, fits: bool) {
    assert!(rt; is_near(&src));
    assert!(rt;
        fits_source(src, width, height) == fits,
        "{} {} {} {} in {width}x{height}",
        src.x,
        src.y,
        src.w,
        src.h
    );
}

#[test]
fn a_source_fits_up_to_its_last_edge(rt: HostRuntime) {
    let sources = [
        ([0, 0, PIXEL, PIXEL], 1, 1, true),
        ([0, 0, PIXEL + 1, PIXEL], 1, 1, false),
        ([0, 1, PIXEL, PIXEL], 1, 1, false),
        ([PIXEL, 0, PIXEL, PIXEL], 2, 1, true),
        ([PIXEL, 0, PIXEL, PIXEL], 1, 2, false),
    ];
    for (src, width, height, fits) in sources {
        assert_fits(&rt, rect(src), width, height, fits);
    }
}

/// Asserts whether a size of a source is near enough to that of its destination.
fn assert_scaled(rt: &impl Abort, long: i64, wide: i64, little: bool) {
    assert!(rt; 0 <= long && long <= 4294967295 && 0 <= wide && wide <= 2147483647);
    assert!(rt; is_scaled_little(long, wide) == little, "{long} in {wide}");
}

// A pixel of the framebuffer over four of the destination, and four over one: one number further is too far.
#[test]
fn a_size_is_at_most_four_times_the_other(rt: HostRuntime) {
    let sizes = [
        (PIXEL, 4, true),
        (PIXEL, 5, false),
        (PIXEL - 1, 4, false),
        (4 * PIXEL, 1, true),
        (4 * PIXEL + 1, 1, false),
        (PIXEL, 1, true),
        (0, 0, true),
        (1, 0, false),
        (0, 1, false),
        (4294967295, 16384, true),
        (4294967295, 2147483647, false),
    ];
    for (long, wide, little) in sizes {
        assert_scaled(&rt, long, wide, little);
    }
}

// The last two are the numerators of half a channel, next below and next above, by 65535 * 255.
#[test]
fn a_quotient_is_rounded_to_the_nearest(rt: HostRuntime) {
    let quotients = [
        (0, 1, 0),
        (1, 3, 0),
        (2, 3, 1),
        (7, 3, 2),
        (8, 3, 3),
        (18446744073709551612, 3, 6148914691236517204),
        (2130674175, 16711425, 127),
        (2130739200, 16711425, 128),
    ];
    for (n, d, quotient) in quotients {
        assert!(rt; d % 2 == 1 && n < u64::MAX - d + 1, "{n} and {d}");
        assert!(rt; div_round(n, d) == quotient, "{n} by {d}");
    }
}

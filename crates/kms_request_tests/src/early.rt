//! Early refusals, worked out by hand. A test lists requests, or makes their lines of a table.
use crate::courses::play;
use crate::devices::{ALL_MADE, MADE, SINGLE, SPLIT, SPLIT_2};
use std::alloc::Global;
use std::test::Fail;

#[test]
fn small_requests_on_the_smallest_device(rt: HostRuntime) -> Result<(), Fail> {
    let course = "SIGNAL_WHILE_OFF: atomic 0x1 0 crtc0.ACTIVE=0
TEST_WITH_EVENT: atomic 0x101 0 crtc0.ACTIVE=0
ASYNC_FLIP: atomic 0x2 0
UNKNOWN_FLAG: atomic 0x4 0
EVENT_WITHOUT_CRTC: atomic 0x1 0
commit 0: atomic 0x0 0
NO_OBJECT: atomic 0x0 0 crtc1.ACTIVE=0
NO_PROPERTY: atomic 0x0 0 crtc0.alpha=1
IMMUTABLE_PROPERTY: atomic 0x0 0 plane0.type=1
INVALID_VALUE: atomic 0x0 0 plane0.alpha=65536
";
    play(&rt, SINGLE, &[course])
}

#[test]
fn flags_are_refused_in_order(rt: HostRuntime) -> Result<(), Fail> {
    let course = "commit 0: atomic 0x0 0
TEST_WITH_EVENT: atomic 0x701 0
EVENT_WITHOUT_CRTC: atomic 0x601 0
UNKNOWN_FLAG: atomic 0x4 0
UNKNOWN_FLAG: atomic 0x800 0
UNKNOWN_FLAG: atomic 0x80000000 0
ASYNC_FLIP: atomic 0x2 0
TEST_WITH_EVENT: atomic 0x101 0
tested: atomic 0x100 0
EVENT_WITHOUT_CRTC: atomic 0x1 0
UNKNOWN_FLAG: atomic 0x806 0
ASYNC_FLIP: atomic 0x103 0
UNKNOWN_FLAG: atomic 0x105 0
TEST_WITH_EVENT: atomic 0x101 0 crtc9.ACTIVE=5
";
    play(&rt, SPLIT, &[course])
}

/// The plane's fence, which makes a second one of it wrong.
const FENCE: &str = "plane0.IN_FENCE_FD=@e";

/// Wrong flags, by the refusal that is due.
const FLAGS: &str = "UNKNOWN_FLAG 0x4\nASYNC_FLIP 0x2\nTEST_WITH_EVENT 0x101";

/// Wrong assignments, by the refusal that is due where a fence was named before.
const WRONG: &str = "NO_OBJECT plane2.alpha=0
NO_PROPERTY crtc0.alpha=1
IMMUTABLE_PROPERTY plane0.type=1
INVALID_VALUE plane0.alpha=65536
SECOND_IN_FENCE plane0.IN_FENCE_FD=@e";

/// The line of a request that sets two properties behind the plane's fence.
fn push_line(
    text: &mut String,
    want: &str,
    flags: &str,
    first: &str,
    second: &str,
) -> Result<(), Fail> {
    for piece in [
        want,
        ": atomic ",
        flags,
        " 0 ",
        FENCE,
        " ",
        first,
        " ",
        second,
        "\n",
    ] {
        text.push_str(piece)?;
    }
    Ok(())
}

/// Requests whose flags and assignments are wrong.
fn wrong_twice(alloc: Global) -> Result<String, Fail> {
    let mut text = String::new(alloc);
    for row in FLAGS.lines() {
        let (want, flags) = row.split_once(' ').ok_or(row)?;
        for wrong in WRONG.lines() {
            let (_, set) = wrong.split_once(' ').ok_or(wrong)?;
            push_line(&mut text, want, flags, "plane1.zpos=0", set)?;
        }
    }
    Ok(text)
}

/// Requests with two wrong assignments.
fn wrong_pairs(alloc: Global) -> Result<String, Fail> {
    let mut text = String::new(alloc);
    for row in WRONG.lines() {
        let (want, first) = row.split_once(' ').ok_or(row)?;
        for wrong in WRONG.lines() {
            let (_, second) = wrong.split_once(' ').ok_or(wrong)?;
            push_line(&mut text, want, "0x0", first, second)?;
        }
    }
    Ok(text)
}

#[test]
fn wrong_flags_are_told_before_wrong_assignments(rt: HostRuntime) -> Result<(), Fail> {
    let text = wrong_twice(rt.alloc())?;
    play(&rt, SPLIT, &[MADE, ALL_MADE, text.as_str()])
}

#[test]
fn the_first_of_two_wrong_assignments_is_told(rt: HostRuntime) -> Result<(), Fail> {
    let text = wrong_pairs(rt.alloc())?;
    play(&rt, SPLIT, &[MADE, ALL_MADE, text.as_str()])
}

/// What is wrong twice has the refusal with the lower number.
#[test]
fn an_assignment_is_refused_by_the_first_that_is_wrong(rt: HostRuntime) -> Result<(), Fail> {
    let course = "NO_OBJECT: atomic 0x0 0 plane0.IN_FENCE_FD=@e crtc2.alpha=1
NO_OBJECT: atomic 0x0 0 plane0.IN_FENCE_FD=@e plane2.type=1
NO_OBJECT: atomic 0x0 0 plane0.IN_FENCE_FD=@e plane2.alpha=65536
NO_PROPERTY: atomic 0x0 0 plane0.IN_FENCE_FD=@e conn0.type=1
NO_PROPERTY: atomic 0x0 0 plane0.IN_FENCE_FD=@e crtc0.alpha=65536
IMMUTABLE_PROPERTY: atomic 0x0 0 plane0.IN_FENCE_FD=@e plane0.type=3
INVALID_VALUE: atomic 0x0 0 plane0.IN_FENCE_FD=@e plane0.IN_FENCE_FD=@c
ACTIVE_WITHOUT_MODE: atomic 0x0 0 crtc1.ACTIVE=1
NO_OBJECT: atomic 0x0 0 crtc2.ACTIVE=1
NO_OBJECT: atomic 0x0 0 plane2.zpos=1
NO_OBJECT: atomic 0x0 0 conn1.CRTC_ID=0
NO_OBJECT: atomic 0x0 0 enc1.CRTC_ID=0
NO_PROPERTY: atomic 0x0 0 enc0.CRTC_ID=0
NO_OBJECT: atomic 0x0 0 crtc255.zpos=999
NO_PROPERTY: atomic 0x0 0 crtc0.CRTC_ID=0
NO_PROPERTY: atomic 0x0 0 conn0.ACTIVE=0
NO_PROPERTY: atomic 0x0 0 plane0.ACTIVE=9
NO_PROPERTY: atomic 0x0 0 plane1.colour=0
IMMUTABLE_PROPERTY: atomic 0x0 0 plane0.type=99
NO_PROPERTY: atomic 0x0 0 conn0.type=1
MODE_XOR_CONNECTOR: atomic 0x0 0 conn0.CRTC_ID=crtc1
INVALID_VALUE: atomic 0x0 0 conn0.CRTC_ID=crtc2
INVALID_VALUE: atomic 0x0 0 conn0.CRTC_ID=100
INVALID_VALUE: atomic 0x0 0 plane0.zpos=256 crtc9.ACTIVE=1
IMMUTABLE_PROPERTY: atomic 0x0 0 plane0.type=-1
IMMUTABLE_PROPERTY: atomic 0x0 0 plane0.type=0
IMMUTABLE_PROPERTY: atomic 0x0 0 plane0.type=1
IMMUTABLE_PROPERTY: atomic 0x0 0 plane0.type=2
IMMUTABLE_PROPERTY: atomic 0x0 0 plane0.type=3
";
    play(&rt, SPLIT, &[MADE, ALL_MADE, course])
}

/// A fence is a second one of its plane where an earlier assignment named one, whatever came between.
#[test]
fn a_plane_takes_one_fence(rt: HostRuntime) -> Result<(), Fail> {
    let course = "SECOND_IN_FENCE: atomic 0x100 0 plane0.IN_FENCE_FD=@e plane0.IN_FENCE_FD=@e
SECOND_IN_FENCE: atomic 0x100 0 plane0.IN_FENCE_FD=@e plane0.IN_FENCE_FD=-1
tested: atomic 0x100 0 plane0.IN_FENCE_FD=-1 plane0.IN_FENCE_FD=-1 plane0.IN_FENCE_FD=@e
SECOND_IN_FENCE: atomic 0x100 0 plane0.IN_FENCE_FD=-1 plane0.IN_FENCE_FD=@e plane0.zpos=1 plane0.IN_FENCE_FD=-1
INVALID_VALUE: atomic 0x100 0 plane0.IN_FENCE_FD=@e plane0.IN_FENCE_FD=@x
tested: atomic 0x100 0 plane0.IN_FENCE_FD=@e plane1.IN_FENCE_FD=@e
SECOND_IN_FENCE: atomic 0x100 0 plane0.IN_FENCE_FD=@e plane1.IN_FENCE_FD=@e plane0.IN_FENCE_FD=@e plane0.zpos=999
";
    play(&rt, SPLIT, &[MADE, ALL_MADE, course])
}

/// The lines of requests that set one property each, which are all answered alike. A row has the property and its values.
fn each_value(alloc: Global, want: &str, rows: &str) -> Result<String, Fail> {
    let mut text = String::new(alloc);
    for row in rows.lines() {
        let (property, values) = row.split_once(' ').ok_or(row)?;
        for value in values.split(' ') {
            for piece in [want, ": atomic 0x100 0 ", property, "=", value, "\n"] {
                text.push_str(piece)?;
            }
        }
    }
    Ok(text)
}

/// Values beside the bounds of each property; numbers that are 0, 1 or -1 in their lower 32 or 64 bits; labels of other
/// things; and CRTCs.
const NO_VALUES: &str =
    "plane0.FB_ID -1 1 4294967296 18446744073709551615 crtc0 +n0 @m @a @e @b @c @x
plane0.CRTC_ID -1 1 4294967296 crtc2 @f @m @a @e @b @c @x
plane0.CRTC_X -2147483649 2147483648 4294967296
plane0.CRTC_Y -2147483649 2147483648
plane0.CRTC_W -1 2147483648 4294967296
plane0.CRTC_H -1 2147483648
plane0.SRC_X -1 4294967296
plane0.SRC_Y -1 4294967296
plane0.SRC_W -1 4294967296
plane0.SRC_H -1 4294967296
plane0.IN_FENCE_FD -2 0 18446744073709551615 4294967295 +n1 @f @m @a @b @c @x
plane0.alpha -1 65536 4294967296
plane0.pixel_blend_mode -1 3 4294967296
plane0.zpos -1 256 4294967296 crtc0 @f @m @a @e @b @c @x
crtc0.ACTIVE -1 2 4294967296 +n2 @f @m @a @e @b @c @x
crtc0.MODE_ID -1 1 4294967296 +n3 @f @a @e @b @c @x
crtc0.OUT_FENCE_PTR -1 1 4294967296 @f @m @a @e @b @c @x
conn0.CRTC_ID -1 1 crtc2";

/// The bounds of each property, of a device that shows nothing.
const VALUES: &str = "plane0.FB_ID 0
plane0.CRTC_ID 0
plane0.CRTC_X -2147483648 2147483647
plane0.CRTC_Y -2147483648 2147483647
plane0.CRTC_W 0 2147483647
plane0.CRTC_H 0 2147483647
plane0.SRC_X 0 4294967295
plane0.SRC_Y 0 4294967295
plane0.SRC_W 0 4294967295
plane0.SRC_H 0 4294967295
plane0.IN_FENCE_FD -1 @e
plane0.alpha 0 65535
plane0.pixel_blend_mode 0 2
plane0.zpos 0 255
crtc0.ACTIVE 0
crtc0.MODE_ID 0
crtc0.OUT_FENCE_PTR 0
conn0.CRTC_ID 0";

/// What is taken, and refused for the state after it.
const LATE_VALUES: &str = "ACTIVE_WITHOUT_MODE: atomic 0x0 0 crtc0.ACTIVE=1
FRAMEBUFFER_XOR_CRTC: atomic 0x0 0 plane0.FB_ID=@f
MODE_XOR_CONNECTOR: atomic 0x0 0 crtc0.MODE_ID=@m
SIGNAL_WHILE_OFF: atomic 0x0 0 crtc0.OUT_FENCE_PTR=+n4
FRAMEBUFFER_XOR_CRTC: atomic 0x0 0 plane0.CRTC_ID=crtc0
FRAMEBUFFER_XOR_CRTC: atomic 0x0 0 plane0.CRTC_ID=crtc1
MODE_XOR_CONNECTOR: atomic 0x0 0 conn0.CRTC_ID=crtc0
MODE_XOR_CONNECTOR: atomic 0x0 0 conn0.CRTC_ID=crtc1
";

#[test]
fn a_property_takes_its_values_alone(rt: HostRuntime) -> Result<(), Fail> {
    let alloc = rt.alloc();
    let refused = each_value(alloc, "INVALID_VALUE", NO_VALUES)?;
    let taken = each_value(alloc, "tested", VALUES)?;
    play(
        &rt,
        SPLIT,
        &[
            MADE,
            ALL_MADE,
            refused.as_str(),
            taken.as_str(),
            LATE_VALUES,
        ],
    )
}

/// The line that makes a gamma table: each channel has one value, 71 to 73.
pub(crate) fn table_made(alloc: Global, front: &str) -> Result<String, Fail> {
    let mut text = String::from_str(alloc, front)?;
    for _entry in 0..256 {
        text.push_str("0047004800490000")?;
    }
    text.push('\n')?;
    Ok(text)
}

/// A table is set in profile 2 alone, to 0 or to an open blob of 2048 bytes.
#[test]
fn a_table_is_a_property_of_profile_2(rt: HostRuntime) -> Result<(), Fail> {
    let alloc = rt.alloc();
    let table = table_made(alloc, "made 1006: blob g ")?;
    let tables = "crtc0.GAMMA_LUT 1 @m @a @f @c @x +n crtc0\ncrtc0.MODE_ID @g";
    let refused = each_value(alloc, "INVALID_VALUE", tables)?;
    let taken = each_value(alloc, "tested", "crtc0.GAMMA_LUT 0 @g")?;
    let elsewhere = "NO_PROPERTY: atomic 0x0 0 plane0.GAMMA_LUT=0\n";
    play(
        &rt,
        SPLIT_2,
        &[
            MADE,
            ALL_MADE,
            table.as_str(),
            refused.as_str(),
            taken.as_str(),
            elsewhere,
        ],
    )?;
    let none = each_value(
        alloc,
        "NO_PROPERTY",
        "crtc0.GAMMA_LUT 0 @g 1 @m @a @f @c @x +n crtc0",
    )?;
    play(&rt, SPLIT, &[MADE, ALL_MADE, table.as_str(), none.as_str()])
}

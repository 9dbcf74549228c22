//! Late refusals, worked out by hand: of a device that shows nothing, of requests that light it but for one thing, and of a
//! lit one.
use crate::courses::play;
use crate::devices::{DOUBLE, DOUBLE_2, MADE, MORE_MADE};
use crate::early::table_made;
use kms_samples::script;
use std::test::Fail;

const DARK: &str = script!(
    "FRAMEBUFFER_XOR_CRTC: atomic 0x400 0 plane0.FB_ID=@f
ACTIVE_WITHOUT_MODE: atomic 0x400 0 crtc0.ACTIVE=1
MODE_XOR_CONNECTOR: atomic 0x400 0 crtc0.MODE_ID=@m
CONNECTOR_NOT_POSSIBLE: atomic 0x400 0 conn0.CRTC_ID=crtc1
SIGNAL_WHILE_OFF: atomic 0x1 0 crtc0.ACTIVE=0
EVENT_WITHOUT_CRTC: atomic 0x1 0
commit 0: atomic 0x0 0
CRTC_NOT_POSSIBLE: atomic 0x400 0 plane1.FB_ID=@f plane1.CRTC_ID=crtc1
CRTC_NOT_ENABLED: atomic 0x400 0 " plane(0, 0, "f") "\n"
);

const LIT_BUT: &str = script!(
    "FORMAT_NOT_SUPPORTED: atomic 0x400 0 " light " plane0.FB_ID=@s\n"
    "DESTINATION_TOO_FAR: atomic 0x400 0 " light " plane0.CRTC_X=2147483647\n"
    "SOURCE_OUTSIDE_FRAMEBUFFER: atomic 0x400 0 " light " plane0.SRC_W=65537\n"
    "CLONED_CONNECTORS: atomic 0x400 0 " light " conn1.CRTC_ID=crtc0\n"
    "SCALED: atomic 0x400 0 " light " plane0.CRTC_W=2\n"
    "FRACTIONAL_SOURCE: atomic 0x400 0 " light " plane0.FB_ID=@w plane0.SRC_X=32768\n"
    "MODESET_NOT_ALLOWED: atomic 0x0 0 " light "\n"
    "MODESET_NOT_ALLOWED: atomic 0x0 0 " light " plane0.alpha=1\n"
    "tested: atomic 0x500 0 " light " plane0.alpha=1\n"
);

/// A lit CRTC may be lit again, and an equal mode under another label is no modeset. A plane may not go from one CRTC
/// straight to another.
const LIT: &str = script!(
    "commit 1: atomic 0x400 0 " light "\n"
    "commit 2: atomic 0x0 0 " light "\n"
    "SWITCHES_CRTC: atomic 0x400 0 plane0.CRTC_ID=crtc1\n"
    "commit 3: atomic 0x0 0 crtc0.MODE_ID=@m2\n"
);

#[test]
fn a_request_is_refused_by_the_state_after_it(rt: HostRuntime) -> Result<(), Fail> {
    play(&rt, DOUBLE, &[MADE, MORE_MADE, DARK, LIT_BUT, LIT])
}

/// A framebuffer of two pixels, of which one is shown: at most four times as large or small, along each axis by itself, and
/// from any place on.
const SCALED: &str = script!(
    "tested: atomic 0x500 0 " light(0, "w", "m") " plane0.CRTC_W=4\n"
    "SCALED: atomic 0x500 0 " light(0, "w", "m") " plane0.CRTC_W=5\n"
    "SCALED: atomic 0x500 0 " light(0, "w", "m") " plane0.CRTC_W=0\n"
    "tested: atomic 0x500 0 " light(0, "w", "m") " plane0.CRTC_H=4\n"
    "SCALED: atomic 0x500 0 " light(0, "w", "m") " plane0.CRTC_H=5\n"
    "tested: atomic 0x500 0 " light(0, "w", "m") " plane0.SRC_W=16384\n"
    "SCALED: atomic 0x500 0 " light(0, "w", "m") " plane0.SRC_W=16383\n"
    "tested: atomic 0x500 0 " light(0, "w", "m") " plane0.SRC_H=16384\n"
    "SCALED: atomic 0x500 0 " light(0, "w", "m") " plane0.SRC_H=16383\n"
);

const SHIFTED: &str = script!(
    "tested: atomic 0x500 0 " light(0, "w", "m") " plane0.SRC_X=32768\n"
    "tested: atomic 0x500 0 " light(0, "w", "m") " plane0.SRC_X=1\n"
    "tested: atomic 0x500 0 " light(0, "w", "m") " plane0.SRC_X=65536\n"
    "SOURCE_OUTSIDE_FRAMEBUFFER: atomic 0x500 0 " light(0, "w", "m") " plane0.SRC_X=65537\n"
);

/// None of this is a modeset, and no changed table is one.
const SCALED_LIT: &str = script!(
    "commit 0: atomic 0x400 0 " light(0, "w", "m")
    "
commit 1: atomic 0x0 0 plane0.CRTC_W=4
commit 2: atomic 0x0 0 plane0.CRTC_H=4
commit 3: atomic 0x0 0 plane0.SRC_X=32768
commit 4: atomic 0x0 0 crtc0.GAMMA_LUT=0
commit 5: atomic 0x0 0 crtc0.GAMMA_LUT=@g
"
);

#[test]
fn a_plane_of_profile_2_scales_little(rt: HostRuntime) -> Result<(), Fail> {
    let table = table_made(rt.alloc(), "made 1008: blob g ")?;
    play(
        &rt,
        DOUBLE_2,
        &[MADE, MORE_MADE, table.as_str(), SCALED, SHIFTED, SCALED_LIT],
    )
}

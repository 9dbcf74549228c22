//! What a request names, touches and needs locked.
use crate::courses::play;
use crate::devices::{CROSSED, DOUBLE, MADE};
use kms_samples::script;
use std::test::Fail;

/// A request that lights a CRTC sets a CRTC, a plane and a connector, and asks for them in the order of their ids; one
/// that puts a plane on a CRTC asks for the plane, and then for the CRTC that it names.
const LIGHTING: &str = script!(
    "next none lock 100: atomic 0x400 0 " light "\n"
    "next crtcs lock 200: atomic 0x400 0 " light "\n"
    "next crtcs,planes lock 300: atomic 0x400 0 " light "\n"
    "next all accepted: atomic 0x400 0 " light
    "
next none lock 200: atomic 0x400 0 plane0.CRTC_ID=crtc0
next planes lock 100: atomic 0x400 0 plane0.CRTC_ID=crtc0
"
);

/// A request is refused by itself whatever is duplicated, and by the state after it once all that it touches is.
const REFUSED: &str = script!(
    "next none NO_OBJECT: atomic 0x0 0 crtc2.ACTIVE=0
next all NO_OBJECT: atomic 0x0 0 crtc2.ACTIVE=0
next crtcs,planes lock 300: atomic 0x0 0 " light "\n"
    "next all MODESET_NOT_ALLOWED: atomic 0x0 0 " light "\n"
);

#[test]
fn the_next_move_locks_the_least_object_or_decides(rt: HostRuntime) -> Result<(), Fail> {
    play(&rt, DOUBLE, &[MADE, LIGHTING, REFUSED])
}

/// The objects that a request sets come first, then the CRTCs that it names, then the planes and connectors of CRTCs
/// that need a modeset.
const GROUPS: &str = script!(
    "needs none 1/1/1: atomic 0x400 0 " light
    "
needs planes 1/0/0: atomic 0x400 0 plane0.alpha=7
needs crtcs 0/1/1: atomic 0x400 0 crtc0.ACTIVE=0
needs crtcs nothing: atomic 0x400 0 crtc1.ACTIVE=0
"
);

/// A request without a modeset touches what it sets and the CRTCs that it names; one that turns a CRTC off touches the
/// planes and connectors there too.
const SPANS: &str = "spans 1 1/1/1: atomic 0x400 0 crtc0.ACTIVE=0
spans 1 1/1/0: atomic 0x400 0 plane0.alpha=7
spans 1 1/1/0: atomic 0x0 0 plane0.alpha=7
spans 2 2/0/0: atomic 0x400 0 crtc1.ACTIVE=0
spans 2 2/0/0: atomic 0x0 0 crtc1.ACTIVE=0
spans 0 0/2/0: atomic 0x0 0 plane1.alpha=7
";

#[test]
fn objects_are_asked_for_in_three_groups(rt: HostRuntime) -> Result<(), Fail> {
    let lit = script!("commit 0: atomic 0x400 0 " light "\n");
    play(&rt, DOUBLE, &[MADE, lit, GROUPS, SPANS])
}

/// A CRTC is named where it is set, and where a plane or a connector that is set is on it before or after.
#[test]
fn a_request_names_the_crtcs_of_what_it_sets(rt: HostRuntime) -> Result<(), Fail> {
    let dark = "names 0: atomic 0x0 0 plane0.CRTC_ID=0
names 2: atomic 0x0 0 plane0.CRTC_ID=crtc1
names 1: atomic 0x0 0 crtc0.OUT_FENCE_PTR=0
";
    let first = "commit 0: atomic 0x400 0 crtc0.ACTIVE=1 crtc0.MODE_ID=@m conn1.CRTC_ID=crtc0 ";
    let second = script!(
        plane(0, 0, "f") " crtc1.ACTIVE=1 crtc1.MODE_ID=@m conn0.CRTC_ID=crtc1 " plane(1, 1, "f")
    );
    let lit = "
names 1: atomic 0x0 0 plane0.CRTC_ID=0
names 3: atomic 0x0 0 plane0.CRTC_ID=crtc1
names 2: atomic 0x0 0 plane1.zpos=3
names 2: atomic 0x0 0 conn0.CRTC_ID=0
";
    play(&rt, CROSSED, &[MADE, dark, first, second, lit])
}

//! Other commands than requests, and what requests make of them.
use crate::courses::play;
use crate::devices::{MADE, SINGLE};
use kms_samples::script;
use std::test::Fail;

/// What another client may not do, and a flat buffer.
#[test]
fn commands_of_other_clients_are_denied(rt: HostRuntime) -> Result<(), Fail> {
    let course = "then: client
NOT_FOUND: addfb g b
NOT_FOUND: closefb f
NOT_OWNER: destroy m
NOT_SIGNALLABLE: signal m
INVALID_SIZE: buffer z 0 1 XR24 solid 00000000
";
    play(&rt, SINGLE, &[MADE, course])
}

/// A fence that a command made is signalled by another client too, and an out-fence, which its commit made, is not.
#[test]
fn an_out_fence_is_not_signalled(rt: HostRuntime) -> Result<(), Fail> {
    let course = script!(
        "made 1003: fence n
SECOND_IN_FENCE: atomic 0x0 0 plane0.IN_FENCE_FD=@n plane0.IN_FENCE_FD=-1
commit 0: atomic 0x0 0 plane0.IN_FENCE_FD=-1 plane0.IN_FENCE_FD=@n
commit 1: atomic 0x400 0 " light " crtc0.OUT_FENCE_PTR=+o
then: client
done: signal n
NOT_SIGNALLABLE: signal o
"
    );
    play(&rt, SINGLE, &[MADE, course])
}

/// A CRTC keeps its mode after the blob was destroyed, and an equal mode under another label is no modeset.
#[test]
fn a_mode_is_told_by_its_content(rt: HostRuntime) -> Result<(), Fail> {
    let course = script!(
        "commit 0: atomic 0x400 0 " light
        "
done: destroy m
made 1003: mode m2 1 1 1 1 1 0 1 1 1 1 0 60 0 0 tiny
INVALID_VALUE: atomic 0x0 0 crtc0.MODE_ID=@m
commit 1: atomic 0x0 0 crtc0.MODE_ID=@m2
commit 2: atomic 0x0 0 plane0.alpha=7
"
    );
    play(&rt, SINGLE, &[MADE, course])
}

//! The scripts of the tests. Each has two clients.
use kms_samples::script;

/// Two clients of the second of two CRTCs. The first lights it, dims its plane in a commit that is waited for, and reads the event;
/// the second signals the fence that the commit waits for, once it has made a buffer.
pub(crate) const TWO: &str = script!(
    screens
    "client\n" made "fence n\n" lights(1, "f", "m")
    "atomic 0x1 7 plane1.alpha=9 plane1.IN_FENCE_FD=@n\nwait\n"
    "client\nbuffer c 1 1 XR24 solid 00616263\natomic 0x100 0 plane1.alpha=8\nsignal n\n"
);

/// A client that shows the framebuffer of another, which closes it.
pub(crate) const CLOSING: &str = script!(
    single "client\n" tiny("m") lights "client\n" pixel("b", "f", "00616263") "closefb f\n"
);

/// Two clients, each with a request that is a test. The second one asks for the second CRTC once it has locked the first, and the
/// first client, which is older, holds the second CRTC from its first lock on and takes three more.
pub(crate) const MEETING: &str = script!(
    screens
    "client\natomic 0x100 0 crtc1.ACTIVE=0 plane0.alpha=1 plane1.alpha=1 conn1.CRTC_ID=0\n"
    "client\natomic 0x100 0 crtc0.ACTIVE=0 crtc1.ACTIVE=0\n"
);

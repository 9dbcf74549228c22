//! The scripts of the tests.
use kms_samples::script;

/// A client that makes a framebuffer of one pixel and a mode, and lights the only CRTC with them.
pub(crate) const LIGHTING: &str = script!(single "client\n" made lights);

/// Two clients on that device, each with a request that is a test, of the plane and the CRTC.
pub(crate) const TESTING: &str = script!(
    single
    "client\natomic 0x100 0 plane0.alpha=1 crtc0.ACTIVE=0\n"
    "client\natomic 0x100 0 plane0.alpha=1 crtc0.ACTIVE=0\n"
);

/// Two clients on that device that make a fence each.
pub(crate) const MAKING: &str = script!(single "client\nfence a\nclient\nfence b\n");

/// Two CRTCs, and two clients of which each turns one off, without waiting for the commit.
pub(crate) const TURNING_OFF: &str = script!(
    sharing
    "client\natomic 0x200 0 crtc0.ACTIVE=0\n"
    "client\natomic 0x200 0 crtc1.ACTIVE=0\n"
);

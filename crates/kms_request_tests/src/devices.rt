//! The devices that courses start from, and what their first client makes there.
use kms_samples::script;

/// A device of one CRTC, one plane and one connector, of profile 1.
pub(crate) const SINGLE: &str = script!(single);

/// Two CRTCs, and two planes and a connector that go on each of them; the planes take every format.
pub(crate) const SPLIT: &str =
    "kms 1\ncrtcs 2\nplane primary 0,1 XR24,AR24,RG16\nplane primary 0,1 XR24,AR24,RG16\nconn 0,1\n";

/// The same device, of profile 2.
pub(crate) const SPLIT_2: &str =
    "kms 2\ncrtcs 2\nplane primary 0,1 XR24,AR24,RG16\nplane primary 0,1 XR24,AR24,RG16\nconn 0,1\n";

/// Two CRTCs, a plane of both, one of the first alone, and two connectors of the first alone.
pub(crate) const DOUBLE: &str =
    "kms 1\ncrtcs 2\nplane primary 0,1 XR24\nplane primary 0 XR24\nconn 0\nconn 0\n";

/// The same device, of profile 2.
pub(crate) const DOUBLE_2: &str =
    "kms 2\ncrtcs 2\nplane primary 0,1 XR24\nplane primary 0 XR24\nconn 0\nconn 0\n";

/// Two CRTCs, and two planes and two connectors that go on each of them.
pub(crate) const CROSSED: &str =
    "kms 1\ncrtcs 2\nplane primary 0,1 XR24\nplane primary 0,1 XR24\nconn 0,1\nconn 0,1\n";

/// A buffer, a framebuffer and a mode of one pixel.
pub(crate) const MADE: &str =
    "made 1000: buffer b 1 1 XR24 solid 00616263\nmade 1001: addfb f b\nmade 1002: mode m 1 1 1 1 1 0 1 1 1 1 0 60 0 0 tiny\n";

/// A framebuffer of another format and one of two pixels, and the same mode again.
pub(crate) const MORE_MADE: &str =
    "made 1003: buffer s0 1 1 RG16 solid 0000\nmade 1004: addfb s s0\nmade 1005: buffer w0 2 1 XR24 solid 00616263\nmade 1006: addfb w w0\nmade 1007: mode m2 1 1 1 1 1 0 1 1 1 1 0 60 0 0 tiny\n";

/// After [`MADE`], what else a label may name: a blob, a fence and a closed framebuffer. Nothing is made under `x`.
pub(crate) const ALL_MADE: &str =
    "made 1003: blob a 00\nmade 1004: fence e\nmade 1005: addfb c b\ndone: closefb c\n";

//! The scripts and the lines that tests are put together from.
use kms_samples::script;

/// A script whose client lights the CRTC.
pub(crate) const LIT: &str = script!(single "client\n" made lights);

/// What `one` and `run` write of it.
pub(crate) const LIT_REPORT: &str =
    "J 1 1\nJ 1 2\nJ 1 3\nJ 1 4\nR 1 1 0 made 1000\nR 1 2 1 made 1001\nR 1 3 2 made 1002\nR 1 4 3 commit 0\nL 0 0 1 ba7816bf8f01cfea414140de5dae2223b00361a396177a9cb410ff61f20015ad\nD drained\n";

/// What `suspend` writes of it.
pub(crate) const LIT_SLEPT: &str =
    "J 1 1\nJ 1 2\nJ 1 3\nJ 1 4\nJ 1 5\nJ 1 6\nR 1 1 0 made 1000\nR 1 2 1 made 1001\nR 1 3 2 made 1002\nR 1 4 3 commit 0\nR 1 5 4 commit 1\nR 1 6 5 commit 2\nL 0 0 1 ba7816bf8f01cfea414140de5dae2223b00361a396177a9cb410ff61f20015ad\nL 0 1 1 off\nL 0 2 2 ba7816bf8f01cfea414140de5dae2223b00361a396177a9cb410ff61f20015ad\nD drained\n";

/// A script whose client lights the CRTC by an older call.
pub(crate) const LEGACY: &str = script!(single "client\n" made "setcrtc 0 @f 0 0 @m 0\n");

/// What `legacy` writes of it.
pub(crate) const LEGACY_TRANSLATION: &str = script!(
    single "client\n" made
    "atomic 0x400 0 " screen(0, "m") " plane0.FB_ID=@f plane0.CRTC_ID=crtc0"
    " plane0.CRTC_X=0 plane0.CRTC_Y=0 plane0.CRTC_W=1 plane0.CRTC_H=1"
    " plane0.SRC_X=0 plane0.SRC_Y=0 plane0.SRC_W=65536 plane0.SRC_H=65536\n"
);

/// Commands of a client that has lit the CRTC: a commit waits for an out-fence, and the last one for a fence that nobody
/// signals.
pub(crate) const WAITING: &str =
    "atomic 0x200 0 plane0.alpha=65535 crtc0.OUT_FENCE_PTR=+o\natomic 0x0 0 plane0.alpha=65535 plane0.IN_FENCE_FD=@o\nfence n\natomic 0x0 0 plane0.alpha=65535 plane0.IN_FENCE_FD=@n\n";

/// Two clients, each of which lights a CRTC with its fourth command.
pub(crate) const TWO_SCREENS: &str = script!(
    screens
    "client\n" made lights(1, "f", "m")
    "client\n" pixel("b2", "f2", "00666f6f") tiny("m2") lights(0, "f2", "m2")
);

/// A script of profile 2 that shows each of two pixels twice.
pub(crate) const SCALED: &str = script!(
    single(2)
    "client\nbuffer b 2 1 XR24 pixels 00616263 00666f6f\naddfb f b\n"
    "mode m 1 4 4 4 4 0 1 1 1 1 0 60 0 0 wide\n"
    "atomic 0x400 0 " screen(0, "m")
    " plane0.FB_ID=@f plane0.CRTC_ID=crtc0 plane0.CRTC_H=1 plane0.SRC_H=65536"
    " plane0.CRTC_W=4 plane0.SRC_W=131072\n"
);

/// What is written of it.
pub(crate) const SCALED_REPORT: &str =
    "J 1 1\nJ 1 2\nJ 1 3\nJ 1 4\nR 1 1 0 made 1000\nR 1 2 1 made 1001\nR 1 3 2 made 1002\nR 1 4 3 commit 0\nL 0 0 1 de5a6fb237d38c1df9e3176502b0d071f240fcea9e0f7334b38016f536fe617f\nD drained\n";

/// A script of profile 2 up to the bytes of a table, and what follows them: it lights the CRTC with the table.
pub(crate) const BEFORE_TABLE: &str = script!(single(2) "client\n" made "blob g ");

pub(crate) const BEHIND_TABLE: &str = script!("\natomic 0x400 0 " light " crtc0.GAMMA_LUT=@g\n");

/// What is written of it where the table inverts each channel.
pub(crate) const TABLE_REPORT: &str =
    "J 1 1\nJ 1 2\nJ 1 3\nJ 1 4\nJ 1 5\nR 1 1 0 made 1000\nR 1 2 1 made 1001\nR 1 3 2 made 1002\nR 1 4 3 made 1003\nR 1 5 4 commit 0\nL 0 0 1 8d7a83ff31a8b084d7c69c1ae6366858716612eca969680c5e43618552d574df\nD drained\n";

//! Scripts in which older calls stand in place of atomic requests, as clients made them before there was atomic mode
//! setting. What each call asks for stands in `specs/Legacy`.
ghost use Rattle.std.specs.Prelude.{◌≡◌, find, map, option_map};
ghost use Rattle.kms_model.specs.Legacy.LegacyRules.{legacy_rule_rows};
ghost use Rattle.kms_model.specs.Report.Rules.{has_number};
ghost use Rattle.kms_model.specs.Report.RuleRows.{row_of};

use crate::list::Seq;
use crate::pictures::Rect;
use crate::refusals::{Rule, first_of};
use crate::scripts::{Command, Script};

/// An older call. Objects are named by their indices, which are those of objects of the device, and labels are indices
/// in the script's names, below 2^32. `SetCrtc`, `CrtcOff` and `PageFlip` are refused by `NO_PLANE` where the CRTC has no
/// primary plane, `Cursor`, `CursorMove` and `CursorOff` where it has no cursor plane; `PageFlip` then by `NOT_SHOWN` and
/// `FORMAT_CHANGES`. (Kernel: `drm_crtc.c`, `drm_plane.c`.)
#[derive(Clone, Copy, PartialEq, Eq)]
pub enum LegacyCall {
    /// Shows a framebuffer on a CRTC's primary plane, in a mode and on one connector. (Header: `drm_mode.h`,
    /// `struct drm_mode_crtc`; `drm_mode_setcrtc`.)
    SetCrtc {
        /// The CRTC.
        crtc: u32,
        /// The framebuffer's label.
        fb: u32,
        /// The column of the framebuffer that is shown first, in pixels, from 0 to 65535.
        x: u32,
        /// The row of the framebuffer that is shown first, from 0 to 65535.
        y: u32,
        /// The mode's label.
        mode: u32,
        /// The connector.
        conn: u32,
    },
    /// Turns a CRTC off. (`drm_mode_setcrtc`.)
    CrtcOff {
        /// The CRTC.
        crtc: u32,
    },
    /// Puts a plane on a CRTC. (Header: `drm_mode.h`, `struct drm_mode_set_plane`; `drm_mode_setplane`.)
    SetPlane {
        /// The plane.
        plane: u32,
        /// The CRTC.
        crtc: u32,
        /// The framebuffer's label.
        fb: u32,
        /// Where on the CRTC it is shown, in pixels.
        dst: Rect,
        /// Which part of the framebuffer is shown, in 16.16 fixed point.
        src: Rect,
    },
    /// Takes a plane away. (`drm_mode_setplane`.)
    PlaneOff {
        /// The plane.
        plane: u32,
    },
    /// Shows another framebuffer on a CRTC's primary plane. (Header: `drm_mode.h`, `struct drm_mode_crtc_page_flip`;
    /// `drm_mode_page_flip_ioctl`.)
    PageFlip {
        /// The CRTC.
        crtc: u32,
        /// The framebuffer's label.
        fb: u32,
        /// Whether an event is asked for.
        event: bool,
        /// A number that the event hands back.
        user_data: u64,
    },
    /// Shows a whole framebuffer on a CRTC's cursor plane. (Header: `drm_mode.h`, `struct drm_mode_cursor2`;
    /// `drm_mode_cursor_common`, `drm_mode_cursor_universal`.)
    Cursor {
        /// The CRTC.
        crtc: u32,
        /// The framebuffer's label.
        fb: u32,
        /// The left edge on the CRTC, in pixels, from -2147483648 to 2147483647.
        x: i64,
        /// The upper edge, in the range of `x`.
        y: i64,
    },
    /// Moves a CRTC's cursor plane. (Header: `drm_mode.h`, `DRM_MODE_CURSOR_MOVE`.)
    CursorMove {
        /// The CRTC.
        crtc: u32,
        /// The left edge on the CRTC, in pixels, from -2147483648 to 2147483647.
        x: i64,
        /// The upper edge, in the range of `x`.
        y: i64,
    },
    /// Takes a CRTC's cursor plane away. (`drm_mode_cursor_universal`, with no framebuffer.)
    CursorOff {
        /// The CRTC.
        crtc: u32,
    },
}

/// A command of a script with older calls.
#[derive(PartialEq, Eq, Drop)]
pub enum LegacyCommand {
    /// A command that such scripts share with others: any but an atomic request.
    Plain(Command),
    /// An older call.
    Call(LegacyCall),
}

/// A script with older calls, of at most one client.
#[derive(PartialEq, Eq, Drop)]
pub struct LegacyScript {
    /// Its version, its device and its names; it has no client.
    pub base: Script,
    /// Whether it has a client.
    pub client: bool,
    /// The client's commands, at most 4096; none without a client.
    pub commands: Seq<LegacyCommand>,
}

/// The number of the rule that refuses a call before it is translated: 43, 41 or 42, which are tried in this order. No reply
/// tells it, since the call then leaves no request.
#[derive(Clone, Copy, PartialEq, Eq)]
pub struct LegacyRefusal(pub u32);

/// The refusals of calls, by the names of `legacy_rule_of`.
impl LegacyRefusal {
    /// Refusal 43.
    pub const NO_PLANE: LegacyRefusal = LegacyRefusal(43);

    /// Refusal 41.
    pub const NOT_SHOWN: LegacyRefusal = LegacyRefusal(41);

    /// Refusal 42.
    pub const FORMAT_CHANGES: LegacyRefusal = LegacyRefusal(42);
}

/// How many rules of calls there are.
const LEGACY_RULE_COUNT: usize = 3;

/// The rules of calls, in the order in which they are tried.
const LEGACY_RULES: [Rule; LEGACY_RULE_COUNT] = [
    Rule {
        number: 43,
        name: "NO_PLANE",
        errno: "EINVAL",
        rule: "the call needs the CRTC's primary plane or its cursor plane, and there is none",
        source: "own",
    },
    Rule {
        number: 41,
        name: "NOT_SHOWN",
        errno: "EBUSY",
        rule: "the primary plane is not on the CRTC",
        source: "drm_mode_page_flip_ioctl",
    },
    Rule {
        number: 42,
        name: "FORMAT_CHANGES",
        errno: "EINVAL",
        rule: "the framebuffer has another format than the one that is shown",
        source: "drm_mode_page_flip_ioctl",
    },
];

/// The table of the rules of calls.
fn legacy_rules() -> [Rule; LEGACY_RULE_COUNT]
    ensures { map row_of result ≡ legacy_rule_rows }
{
    LEGACY_RULES
}

/// The rule of the number of a `LegacyRefusal`, none where no rule of calls has it.
pub fn legacy_rule_of(number: u32) -> Option<Rule>
    ensures { option_map row_of result ≡ find (has_number number) legacy_rule_rows }
{
    let rules = legacy_rules();
    first_of(&rules, number)
}

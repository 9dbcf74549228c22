//! The rules that refuse a command: their numbers, their names and where they come from.
//!
//! The numbers, their order and the error number of each are this device's own. A request is refused early, by 1 to 8,
//! for its flags, its assignments and what its labels name, which needs no state; late, by 9 to 24, for the states
//! after it; and once it is accepted, by 25 and 26. Other commands are refused by 31 to 35. What each rule says stands
//! in the table of `rule_of`.
ghost use Rattle.std.specs.Prelude.{◌≡◌, IfSome, Some, ◌++◌, ◌∷◌, find, is_some, map, option_map};
ghost use Rattle.kms_model.specs.Report.Replies.{refusal_text};
ghost use Rattle.kms_model.specs.Report.Rules.{errno_of, has_number, is_rule, rule_name, rule_rows, rule_source, rule_text};
ghost use Rattle.kms_model.specs.Report.RuleRows.{row_of};

use crate::replies::{Denied, Refusal};
use std::fmt;

/// The refusals of a request, by the names of `rule_of`.
impl Refusal {
    /// Refusal 1.
    pub const UNKNOWN_FLAG: Refusal = Refusal(1);

    /// Refusal 2.
    pub const ASYNC_FLIP: Refusal = Refusal(2);

    /// Refusal 3.
    pub const TEST_WITH_EVENT: Refusal = Refusal(3);

    /// Refusal 4.
    pub const NO_OBJECT: Refusal = Refusal(4);

    /// Refusal 5.
    pub const NO_PROPERTY: Refusal = Refusal(5);

    /// Refusal 6.
    pub const IMMUTABLE_PROPERTY: Refusal = Refusal(6);

    /// Refusal 7.
    pub const INVALID_VALUE: Refusal = Refusal(7);

    /// Refusal 8.
    pub const SECOND_IN_FENCE: Refusal = Refusal(8);

    /// Refusal 9.
    pub const EVENT_WITHOUT_CRTC: Refusal = Refusal(9);

    /// Refusal 10.
    pub const FRAMEBUFFER_XOR_CRTC: Refusal = Refusal(10);

    /// Refusal 11.
    pub const CRTC_NOT_POSSIBLE: Refusal = Refusal(11);

    /// Refusal 12.
    pub const FORMAT_NOT_SUPPORTED: Refusal = Refusal(12);

    /// Refusal 13.
    pub const DESTINATION_TOO_FAR: Refusal = Refusal(13);

    /// Refusal 14.
    pub const SOURCE_OUTSIDE_FRAMEBUFFER: Refusal = Refusal(14);

    /// Refusal 15.
    pub const SWITCHES_CRTC: Refusal = Refusal(15);

    /// Refusal 16.
    pub const ACTIVE_WITHOUT_MODE: Refusal = Refusal(16);

    /// Refusal 17.
    pub const SIGNAL_WHILE_OFF: Refusal = Refusal(17);

    /// Refusal 18.
    pub const CONNECTOR_NOT_POSSIBLE: Refusal = Refusal(18);

    /// Refusal 19.
    pub const CLONED_CONNECTORS: Refusal = Refusal(19);

    /// Refusal 20.
    pub const MODE_XOR_CONNECTOR: Refusal = Refusal(20);

    /// Refusal 21.
    pub const CRTC_NOT_ENABLED: Refusal = Refusal(21);

    /// Refusal 22.
    pub const SCALED: Refusal = Refusal(22);

    /// Refusal 23.
    pub const FRACTIONAL_SOURCE: Refusal = Refusal(23);

    /// Refusal 24.
    pub const MODESET_NOT_ALLOWED: Refusal = Refusal(24);

    /// Refusal 25.
    pub const NO_EVENT_SPACE: Refusal = Refusal(25);

    /// Refusal 26.
    pub const BUSY: Refusal = Refusal(26);
}

/// The refusals of other commands, by the names of `rule_of`.
impl Denied {
    /// Refusal 31.
    pub const INVALID_SIZE: Denied = Denied(31);

    /// Refusal 32.
    pub const NO_BUFFER_SPACE: Denied = Denied(32);

    /// Refusal 33.
    pub const NOT_FOUND: Denied = Denied(33);

    /// Refusal 34.
    pub const NOT_OWNER: Denied = Denied(34);

    /// Refusal 35.
    pub const NOT_SIGNALLABLE: Denied = Denied(35);
}

/// A rule that refuses a command.
#[derive(Clone, Copy)]
pub struct Rule {
    /// Its number, which is that of a `Refusal`, a `Denied` or a `LegacyRefusal`.
    pub number: u32,
    /// The name of that constant.
    pub name: &'static str,
    /// The name of its error number. (`errno.h`.)
    pub errno: &'static str,
    /// When it refuses, in one line.
    pub rule: &'static str,
    /// The kernel's function that refuses so, or `own` where the rule is this device's own.
    pub source: &'static str,
}

/// Rows: number, name, error number, rule and the kernel's function.
macro_rules! rules {
    ($($n:literal $name:ident $errno:literal $rule:literal $source:literal)*) => {
        [$(Rule {
            number: $n,
            name: stringify!($name),
            errno: $errno,
            rule: $rule,
            source: $source,
        }),*]
    };
}

/// How many rules there are.
const RULE_COUNT: usize = 31;

/// The rules, by their numbers.
const RULES: [Rule; RULE_COUNT] = rules! {
    1 UNKNOWN_FLAG "EINVAL" "a flag outside of those that there are is set"
        "drm_mode_atomic_ioctl"
    2 ASYNC_FLIP "EINVAL" "PAGE_FLIP_ASYNC is set" "drm_mode_atomic_ioctl"
    3 TEST_WITH_EVENT "EINVAL" "TEST_ONLY and PAGE_FLIP_EVENT are set" "drm_mode_atomic_ioctl"
    4 NO_OBJECT "ENOENT" "the object does not exist" "drm_mode_object_find"
    5 NO_PROPERTY "ENOENT" "the object does not have the property" "drm_mode_obj_find_prop_id"
    6 IMMUTABLE_PROPERTY "EINVAL" "the property is immutable" "drm_property_change_valid_get"
    7 INVALID_VALUE "EINVAL" "the value is not among those of the property"
        "drm_property_change_valid_get"
    8 SECOND_IN_FENCE "EINVAL" "an earlier assignment named a fence for this plane"
        "drm_atomic_plane_set_property"
    9 EVENT_WITHOUT_CRTC "EINVAL" "PAGE_FLIP_EVENT is set and no CRTC is named"
        "prepare_signaling"
    10 FRAMEBUFFER_XOR_CRTC "EINVAL"
        "a plane has a framebuffer without a CRTC, or a CRTC without a framebuffer"
        "drm_atomic_plane_check"
    11 CRTC_NOT_POSSIBLE "EINVAL" "the CRTC of a plane is not among its possible CRTCs"
        "drm_atomic_plane_check"
    12 FORMAT_NOT_SUPPORTED "EINVAL"
        "the format of the framebuffer is not among those of the plane"
        "drm_plane_has_format"
    13 DESTINATION_TOO_FAR "ERANGE" "the destination of a plane ends beyond 2147483647"
        "drm_atomic_plane_check"
    14 SOURCE_OUTSIDE_FRAMEBUFFER "ENOSPC"
        "the source of a plane ends outside of its framebuffer"
        "drm_framebuffer_check_src_coords"
    15 SWITCHES_CRTC "EINVAL" "a plane goes from one CRTC straight to another"
        "plane_switching_crtc"
    16 ACTIVE_WITHOUT_MODE "EINVAL" "a CRTC is active and has no mode" "drm_atomic_crtc_check"
    17 SIGNAL_WHILE_OFF "EINVAL"
        "an event or an out-fence is asked of a CRTC that was off and stays off"
        "drm_atomic_crtc_check"
    18 CONNECTOR_NOT_POSSIBLE "EINVAL" "the CRTC of a connector is not among its possible CRTCs"
        "update_connector_routing"
    19 CLONED_CONNECTORS "EINVAL" "two or more connectors have the same CRTC"
        "drm_atomic_helper_check_modeset"
    20 MODE_XOR_CONNECTOR "EINVAL"
        "a CRTC has a mode and no connector, or a connector and no mode"
        "drm_atomic_helper_check_modeset"
    21 CRTC_NOT_ENABLED "EINVAL" "the CRTC of a plane is not enabled"
        "drm_atomic_helper_check_plane_state"
    22 SCALED "ERANGE"
        "source and destination of a plane differ in size, in profile 2 by more than four times"
        "drm_atomic_helper_check_plane_state"
    23 FRACTIONAL_SOURCE "EINVAL" "in profile 1, the source of a plane begins between pixels"
        "own"
    24 MODESET_NOT_ALLOWED "EINVAL" "a CRTC needs a modeset and ALLOW_MODESET is not set"
        "drm_atomic_check_only"
    25 NO_EVENT_SPACE "ENOMEM" "there is no space for the events" "drm_event_reserve_init"
    26 BUSY "EBUSY" "NONBLOCK is set and the commit before has not flipped"
        "drm_atomic_helper_setup_commit"
    31 INVALID_SIZE "EINVAL" "a side of the buffer is 0 or above 4096 pixels"
        "drm_mode_create_dumb; the bound is own"
    32 NO_BUFFER_SPACE "ENOSPC" "all buffers would have more than 268435456 bytes"
        "own"
    33 NOT_FOUND "ENOENT" "the label is no open thing of this kind that the command may name"
        "drm_mode_addfb2, drm_mode_closefb_ioctl, drm_mode_destroyblob_ioctl"
    34 NOT_OWNER "EPERM" "the blob is the blob of another client" "drm_mode_destroyblob_ioctl"
    35 NOT_SIGNALLABLE "EINVAL" "the label is no fence that a `fence` command made"
        "own"
};

/// The table of rules, by their numbers.
fn rules() -> [Rule; RULE_COUNT]
    ensures { map row_of result ≡ rule_rows }
{
    RULES
}

/// The first rule of a number.
pub(crate) fn first_of(rules: &[Rule], number: u32) -> Option<Rule>
    ensures row { option_map row_of result ≡ find (has_number number) (map row_of rules.now) }
    ensures number { IfSome result (λ r. r.number ≡ number) }
{
    for rule in rules.iter() {
        match rule {
            rule if rule.number == number => return Some(*rule),
            _ => {}
        }
    }
    None
}

/// The rule of a number, none where no rule has it.
pub fn rule_of(number: u32) -> Option<Rule>
    ensures exists { is_some result ≡ is_rule number }
    ensures number { IfSome result (λ r. r.number ≡ number) }
    ensures errno { IfSome result (λ r. r.errno.now ≡ errno_of number) }
    ensures name { IfSome result (λ r. r.name.now ≡ rule_name number) }
    ensures rule { IfSome result (λ r. r.rule.now ≡ rule_text number) }
    ensures source { IfSome result (λ r. r.source.now ≡ rule_source number) }
{
    let rules = rules();
    first_of(&rules, number)
}

/// The name of the error number of a rule; `EINVAL` where no rule has the number.
pub(crate) fn errno_of(number: u32) -> &'static str
    ensures { result.now ≡ errno_of number }
{
    match rule_of(number) {
        Some(rule) => rule.errno,
        None => "EINVAL",
    }
}

/// The error number and the number, as `EINVAL 24`.
impl fmt::Display for Refusal {
    ghost output = { λ r. Some (refusal_text r.0) };

    fn fmt<W: fmt::Write>(&self, f: &mut fmt::Formatter<W>) -> fmt::Result {
        let number = self.0;
        let errno = errno_of(number);
        write!(f, "{errno} {number}")
    }
}

/// The error number and the number, as `ENOENT 33`.
impl fmt::Display for Denied {
    ghost output = { λ d. Some (refusal_text d.0) };

    fn fmt<W: fmt::Write>(&self, f: &mut fmt::Formatter<W>) -> fmt::Result {
        let number = self.0;
        let errno = errno_of(number);
        write!(f, "{errno} {number}")
    }
}

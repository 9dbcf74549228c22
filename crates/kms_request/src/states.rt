//! Refusals of the states of one object. (Kernel: `drm_atomic_plane_check`, `drm_atomic_crtc_check`,
//! `drm_atomic_helper_check_modeset`, `drm_atomic_helper_check_plane_state`.)
ghost use Rattle.std.specs.Prelude.{◌≡◌, ◌*◌, ◌+ℤ◌, ◌==◌, int_lt, pos, negsuc, Some};
ghost use Rattle.kms_model.specs.Request.Checks.{conn_refusal, crtc_refusal, has_crtc, has_sizes, has_start, switches_crtc, is_beyond, is_unscaled, is_whole, placed_refusal, plane_refusal, shown_refusal};
ghost use Rattle.kms_model.specs.Device.Modes.{same_mode};
ghost use Rattle.kms_model.specs.Device.States.{natural};
ghost use Rattle.kms_model.specs.Device.Sound.{IsBetween, IsPlaneInRange};
ghost use Rattle.kms_model.specs.Request.Late.{needs_modeset_between};
ghost use Rattle.kms_request.specs.Answers.{refusal_number};

use kms_geom::{fits_source, is_scaled_little};
use kms_model::{
    Both, CrtcState, FbInfo, Kind, Mode, PlaneInfo, PlaneState, Rect, Refusal, has_bit,
};

/// The greatest edge of a destination, in pixels.
const GREATEST_EDGE: i64 = 2147483647;

/// One pixel in 16.16 fixed point.
const PIXEL: i64 = 65536;

/// Whether a set of CRTCs has the CRTC with an id.
fn has_crtc(mask: u32, crtc: u32) -> bool
    ensures { result ≡ has_crtc mask crtc }
{
    has_bit(mask, crtc.saturating_sub(Kind::Crtc.first_id()))
}

/// Whether an edge of a destination is above 2147483647.
fn is_beyond(dst: Rect) -> bool
    requires x { IsBetween (negsuc 2147483647) (pos 2147483647) dst.x }
    requires y { IsBetween (negsuc 2147483647) (pos 2147483647) dst.y }
    requires w { IsBetween (pos 0) (pos 2147483647) dst.w }
    requires h { IsBetween (pos 0) (pos 2147483647) dst.h }
    ensures { result ≡ is_beyond dst }
{
    ends_beyond(dst.x, dst.w) || ends_beyond(dst.y, dst.h)
}

/// Whether `start + size` is above 2147483647.
fn ends_beyond(start: i64, size: i64) -> bool
    requires start { IsBetween (negsuc 2147483647) (pos 2147483647) start }
    requires size { IsBetween (pos 0) (pos 2147483647) size }
    ensures { result ≡ int_lt (pos 2147483647) (start +ℤ size) }
{
    start + size > GREATEST_EDGE
}

/// Whether a plane goes from one CRTC straight to another.
fn switches_crtc(old: u32, new: u32) -> bool
    ensures { result ≡ switches_crtc old new }
{
    old != 0 && new != 0 && old != new
}

/// What is wrong with a plane that has a framebuffer and a CRTC, from 11 to 15.
fn placed_refusal(
    info: &PlaneInfo,
    fb: FbInfo,
    old: &PlaneState,
    new: &PlaneState,
) -> Option<Refusal>
    requires { IsPlaneInRange new.now }
    ensures { refusal_number result ≡ placed_refusal info.now fb old.now new.now }
{
    if !has_crtc(info.crtcs, new.crtc) {
        return Some(Refusal::CRTC_NOT_POSSIBLE);
    }
    if !has_bit(info.formats, fb.format.bit()) {
        return Some(Refusal::FORMAT_NOT_SUPPORTED);
    }
    if is_beyond(new.dst) {
        return Some(Refusal::DESTINATION_TOO_FAR);
    }
    if !fits_source(new.src, fb.width, fb.height) {
        return Some(Refusal::SOURCE_OUTSIDE_FRAMEBUFFER);
    }
    if switches_crtc(old.crtc, new.crtc) {
        return Some(Refusal::SWITCHES_CRTC);
    }
    None
}

/// What is wrong with a plane that goes from one state to another: `FRAMEBUFFER_XOR_CRTC`, it has a framebuffer without
/// a CRTC, or a CRTC without a framebuffer; `CRTC_NOT_POSSIBLE`, the CRTC is not among its possible ones;
/// `FORMAT_NOT_SUPPORTED`, the format is not among its formats; `DESTINATION_TOO_FAR`, the destination ends beyond
/// 2147483647; `SOURCE_OUTSIDE_FRAMEBUFFER`, the source ends outside the framebuffer; `SWITCHES_CRTC`, it goes from one
/// CRTC straight to another. The numbers of the new state are in the ranges of their properties.
#[tactic(auto, unfolding(kms_model::specs::Request::Checks::plane_refusal))]
pub(crate) fn plane_refusal(info: &PlaneInfo, old: &PlaneState, new: &PlaneState) -> Option<Refusal>
    requires { IsPlaneInRange new.now }
    ensures { refusal_number result ≡ plane_refusal info.now old.now new.now }
{
    match (new.fb, new.crtc == 0) {
        (None, true) => None,
        (Some(fb), false) => placed_refusal(info, fb, old, new),
        _ => Some(Refusal::FRAMEBUFFER_XOR_CRTC),
    }
}

/// What is wrong with a CRTC: `ACTIVE_WITHOUT_MODE`, it is on without a mode; `SIGNAL_WHILE_OFF`, an event or an
/// out-fence is asked for it, and it was off and stays off.
pub(crate) fn crtc_refusal(
    asks: bool,
    was_on: bool,
    is_on: bool,
    mode: Option<Mode>,
) -> Option<Refusal>
    ensures { refusal_number result ≡ crtc_refusal asks was_on is_on mode }
{
    if is_on && mode.is_none() {
        return Some(Refusal::ACTIVE_WITHOUT_MODE);
    }
    if asks && !was_on && !is_on {
        return Some(Refusal::SIGNAL_WHILE_OFF);
    }
    None
}

/// What is wrong with a connector with the mask of its possible CRTCs, of the id of its CRTC or 0:
/// `CONNECTOR_NOT_POSSIBLE`, its CRTC is not among them.
pub(crate) fn conn_refusal(possible: u32, crtc: u32) -> Option<Refusal>
    ensures { refusal_number result ≡ conn_refusal possible crtc }
{
    if crtc != 0 && !has_crtc(possible, crtc) {
        return Some(Refusal::CONNECTOR_NOT_POSSIBLE);
    }
    None
}

/// Whether the sizes of source and destination are the same; the source is in 16.16 fixed point.
fn is_unscaled(src: Rect, dst: Rect) -> bool
    requires src_w { IsBetween (pos 0) (pos 4294967295) src.w }
    requires src_h { IsBetween (pos 0) (pos 4294967295) src.h }
    requires w { IsBetween (pos 0) (pos 2147483647) dst.w }
    requires h { IsBetween (pos 0) (pos 2147483647) dst.h }
    ensures { result ≡ is_unscaled src dst }
{
    is_same_size(src.w, dst.w) && is_same_size(src.h, dst.h)
}

/// Whether a size in 16.16 fixed point is one in pixels.
fn is_same_size(fixed: i64, pixels: i64) -> bool
    requires fixed { IsBetween (pos 0) (pos 4294967295) fixed }
    requires pixels { IsBetween (pos 0) (pos 2147483647) pixels }
    ensures { result ≡ (natural fixed == 65536 * natural pixels) }
{
    fixed == PIXEL * pixels
}

/// Whether a place in 16.16 fixed point is between no two pixels.
fn is_whole(place: i64) -> bool
    requires { IsBetween (pos 0) (pos 4294967295) place }
    ensures { result ≡ is_whole place }
{
    place % PIXEL == 0
}

/// Whether source and destination have sizes that a device of a profile shows: in profile 1 the same, in profile 2 sizes
/// of which neither is more than four times the other. (Kernel: `drm_atomic_helper_check_plane_state`, whose caller gives
/// the least and the greatest scale.)
fn has_sizes(profile: u32, src: Rect, dst: Rect) -> bool
    requires src_w { IsBetween (pos 0) (pos 4294967295) src.w }
    requires src_h { IsBetween (pos 0) (pos 4294967295) src.h }
    requires w { IsBetween (pos 0) (pos 2147483647) dst.w }
    requires h { IsBetween (pos 0) (pos 2147483647) dst.h }
    ensures { result ≡ has_sizes profile src dst }
{
    if profile == 1 {
        is_unscaled(src, dst)
    } else {
        is_scaled_little(src.w, dst.w) && is_scaled_little(src.h, dst.h)
    }
}

/// Whether a source begins where a device of a profile lets it: in profile 1 at a pixel, in profile 2 anywhere.
fn has_start(profile: u32, src: Rect) -> bool
    requires x { IsBetween (pos 0) (pos 4294967295) src.x }
    requires y { IsBetween (pos 0) (pos 4294967295) src.y }
    ensures { result ≡ has_start profile src }
{
    profile != 1 || (is_whole(src.x) && is_whole(src.y))
}

/// What is wrong with a plane on a CRTC of a mode, on a device of a profile, 1 or 2: `CRTC_NOT_ENABLED`, the CRTC is not
/// enabled; `SCALED`, the sizes of source and destination; `FRACTIONAL_SOURCE`, where the source begins. The numbers of
/// the state are in the ranges of their properties.
#[tactic(auto, unfolding(kms_model::specs::Request::Checks::shown_refusal))]
pub(crate) fn shown_refusal(profile: u32, mode: Option<Mode>, state: &PlaneState) -> Option<Refusal>
    requires { IsPlaneInRange state.now }
    ensures { refusal_number result ≡ shown_refusal profile mode state.now }
{
    if state.crtc == 0 {
        return None;
    }
    if mode.is_none() {
        return Some(Refusal::CRTC_NOT_ENABLED);
    }
    if !has_sizes(profile, state.src, state.dst) {
        return Some(Refusal::SCALED);
    }
    if !has_start(profile, state.src) {
        return Some(Refusal::FRACTIONAL_SOURCE);
    }
    None
}

/// Whether two modes, or none, are the same: all their contents are.
fn same_mode(a: Option<Mode>, b: Option<Mode>) -> bool
    ensures { result ≡ same_mode a b }
{
    a == b
}

/// Whether a CRTC that goes from one state to another needs a modeset: where its mode's contents, whether it is on, or
/// its set of connectors differs. (Kernel: `drm_atomic_crtc_needs_modeset`.)
pub fn needs_modeset(both: &Both<CrtcState>) -> bool
    ensures { result ≡ needs_modeset_between both.now }
{
    !same_mode(both.old.mode, both.new.mode)
        || both.old.active != both.new.active
        || both.old.conns != both.new.conns
}

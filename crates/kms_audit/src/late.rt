//! Requests that are accepted, and refused late: for want of space for their events, or as busy.
ghost use Rattle.std.specs.Prelude.{◌≡◌, ◌≤◌, ℕ, None, take};
ghost use Rattle.kms_audit.specs.Judged.{IsAt, count_in, may_be_busy_by, may_lack_space_by};
ghost use Rattle.kms_model.specs.declared.reports.Report.{Report};
ghost use Rattle.kms_model.specs.declared.scripts.Script.{Script};
ghost use Rattle.kms_model.specs.Firsts.{one_if};
ghost use Rattle.kms_model.specs.Report.RightAnswers.{entries_in, is_refused_late_at, may_be_refused_late};
ghost use Rattle.kms_model.specs.Request.Verdict.{verdict};

use crate::touches::{Touches, is_touched};
use kms_model::{Mask, ObjId, Reply, Request, has_bit};
use kms_props::{is_nonblock, is_test, wants_event};
use kms_serial::Serial;

/// How many bytes an event takes.
const EVENT_BYTES: u32 = 32;

/// How many bytes the events of a client may take.
const EVENT_SPACE: u32 = 4096;

fn one_if(b: bool) -> u32
    ensures one { result ≡ one_if b }
    ensures most { result ≤ 1 }
{
    if b { 1 } else { 0 }
}

/// How many CRTCs are in a set, by its mask.
fn count_in(mask: u32) -> u32
    ensures count { result ≡ count_in mask }
    ensures most { result ≤ 4 }
{
    one_if(has_bit(mask, 0))
        + (one_if(has_bit(mask, 1)) + (one_if(has_bit(mask, 2)) + one_if(has_bit(mask, 3))))
}

/// Whether a request with these flags, which names the CRTCs of a set, may lack space where others have used so many bytes.
fn may_lack_space(flags: u32, named: u32, used: u32) -> bool
    ensures { result ≡ may_lack_space_by flags named used }
{
    wants_event(flags)
        && used % EVENT_BYTES == 0
        && used <= EVENT_SPACE
        && EVENT_SPACE < used + EVENT_BYTES * count_in(named)
}

/// Whether a request with these flags, which touches the objects of a set, may be busy for an object and a commit.
fn may_be_busy(flags: u32, touched: &Mask, touches: &Touches, object: ObjId, commit: u32) -> bool
    ensures { result ≡ may_be_busy_by flags touched.now touches.now object.0 commit }
{
    is_nonblock(flags) && is_touched(touched, object) && touches.is_last(object, commit)
}

/// Whether a request that the verdict lets through may be refused with this reply.
fn may_be_refused(serial: &Serial, touches: &Touches, request: &Request, reply: &Reply) -> bool
    requires { verdict serial.now.topology serial.now.world request.now ≡ None }
    ensures { (s : Script) (r : Report) (place : ℕ) → IsAt s r place serial.now touches.now
        → result ≡ may_be_refused_late s (take place (entries_in r)) serial.now.world
        request.now reply.now }
{
    let (named, touched) = serial.spans(request);
    match reply {
        Reply::Space { used } => may_lack_space(request.flags, named, *used),
        Reply::Busy { object, commit } => {
            may_be_busy(request.flags, &touched, touches, *object, *commit)
        }
        _ => false,
    }
}

/// Whether a request may be refused late with this reply, behind the entries after which the device stands. (Kernel:
/// `drm_event_reserve_init`, `drm_atomic_helper_setup_commit`.)
pub fn is_refused_late(serial: &Serial, touches: &Touches, request: &Request, reply: &Reply) -> bool
    ensures { (s : Script) (r : Report) (place : ℕ) → IsAt s r place serial.now touches.now
        → result ≡ is_refused_late_at s (take place (entries_in r)) request.now reply.now }
{
    if is_test(request.flags) {
        return false;
    }
    if !serial.accepts(request) {
        return false;
    }
    may_be_refused(serial, touches, request, reply)
}

//! L lines by themselves: their order, and how their counts rise.
ghost use Rattle.std.specs.Prelude.{◌≡◌, ◌<◌, ◌≤◌, ◌&&◌, [], map, nat_le, nat_lt, slice_index_or, slice_set};
ghost use Rattle.kms_audit.specs.Sections.{is_placed, rises};
ghost use Rattle.kms_model.specs.declared.objects.Topology.{Topology};
ghost use Rattle.kms_model.specs.Report.Right.{latch_from};
ghost use Rattle.kms_model.specs.Report.RightAnswers.{first_off};

use crate::lines::LatchFields;

/// What stands before an L line: the last CRTC's index, and the last count of each CRTC, 0 where there is none.
#[derive(Clone, Copy)]
struct Before {
    crtc: u32,
    counts: [u64; 4],
}

/// Whether a count rises, where the line has a digest, or does not fall, where it has none.
fn rises(before: u64, line: &LatchFields) -> bool
    ensures { result ≡ rises before (latch_from line.now) }
{
    if line.3.is_some() {
        before < line.2
    } else {
        before <= line.2
    }
}

/// Whether a line stands where it may: of a CRTC of a device with so many, not below that of the line before, with a count that
/// may come behind that CRTC's last one.
fn is_placed(crtcs: u32, before: &Before, line: &LatchFields) -> bool
    requires { crtcs ≤ 4 }
    ensures { result ≡ (nat_lt line.now.0 crtcs && (nat_le before.now.crtc line.now.0
        && rises (slice_index_or before.now.counts line.now.0 0) (latch_from line.now))) }
{
    if line.0 >= crtcs {
        return false;
    }
    before.crtc <= line.0 && rises(before.counts[line.0 as usize], line)
}

/// What stands before the line behind a line of one of the first four CRTCs.
fn behind(before: &Before, line: &LatchFields) -> Before
    requires { line.now.0 < 4 }
    ensures crtc { result.crtc ≡ line.now.0 }
    ensures counts { result.counts ≡ slice_set before.now.counts line.now.0 line.now.2 }
{
    let mut counts = before.counts;
    counts[line.0 as usize] = line.2;
    Before {
        crtc: line.0,
        counts,
    }
}

/// The place of the first L line that stands where it may not, by the lines alone, on a device with so many CRTCs: on no CRTC
/// of it, below the CRTC of the line before, or with a count that does not rise, or falls where the CRTC is off.
pub fn placed_off(crtcs: u32, lines: &[LatchFields]) -> Option<usize>
    requires { crtcs ≤ 4 }
    ensures { (t : Topology) → t.crtcs ≡ crtcs
        → result ≡ first_off (is_placed t) [] (map latch_from lines.now) }
{
    let mut before = Before {
        crtc: 0,
        counts: [0; 4],
    };
    for (place, line) in lines.iter().enumerate() {
        if !is_placed(crtcs, &before, line) {
            return Some(place);
        }
        before = behind(&before, line);
    }
    None
}

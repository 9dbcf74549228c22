//! Where the R lines of a client end.
ghost use Rattle.std.specs.Prelude.{◌≡◌, [], map};
ghost use Rattle.kms_audit.specs.Indexed.{AreLacking};
ghost use Rattle.kms_audit.specs.Sections.{comes_behind, may_follow};
ghost use Rattle.kms_model.specs.declared.reports.Report.{Report};
ghost use Rattle.kms_model.specs.Report.RightAnswers.{answer_from, first_off};

use crate::index::Lacking;
use crate::lines::ReplyFields;

/// Whether a line of a client may stand behind one of a client, if any: behind the lines of another one that client is whole,
/// and none is silent.
fn may_follow(lacking: &Lacking, before: Option<u32>, client: u32) -> bool
    ensures { (r : Report) → AreLacking r lacking.now → result ≡ may_follow r before client }
{
    match before {
        Some(other) => other == client || lacking.may_end(other),
        None => true,
    }
}

/// The place of the first R line that may not stand behind the one before it: another client's, of which an entry has no R
/// line, or any where some client with an entry has none.
pub fn boundary_off(lacking: &Lacking, replies: &[ReplyFields]) -> Option<usize>
    ensures { (r : Report) → AreLacking r lacking.now
        → result ≡ first_off (comes_behind r) [] (map answer_from replies.now) }
{
    let mut before: Option<u32> = None;
    for (place, line) in replies.iter().enumerate() {
        if !may_follow(lacking, before, line.0) {
            return Some(place);
        }
        before = Some(line.0);
    }
    None
}

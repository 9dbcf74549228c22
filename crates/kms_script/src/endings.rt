//! The line that ends a script, where something may follow it.
ghost use Rattle.std.specs.Prelude.{◌≡◌};
ghost use Rattle.kms_model.specs.Script.Schedules.{ends_script, last_words, may_be_followed};
ghost use Rattle.kms_script.specs.Drafted.{draft_in, row_in};

use crate::draft::Draft;
use crate::rows::Row;
use kms_model::Part;

fn may_be_followed(part: Part) -> bool
    ensures { result ≡ may_be_followed part }
{
    match part {
        Part::Script => false,
        Part::Schedule | Part::Report => true,
    }
}

fn last_words(part: Part) -> &'static [u8]
    ensures { result.now ≡ last_words part }
{
    match part {
        Part::Script => b"",
        Part::Schedule => b"schedule",
        Part::Report => b"report",
    }
}

/// Whether a line ends the script that the lines before it spell: it comes behind the last connector.
pub fn ends_script(part: Part, draft: &Draft, row: &Row<'_>) -> bool
    ensures { result ≡ ends_script part (draft_in draft.now) (row_in row.now) }
{
    may_be_followed(part)
        && row.is_ended
        && row.text == last_words(part)
        && !draft.lacks_connectors()
}

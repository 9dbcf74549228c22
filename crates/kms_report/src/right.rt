//! No line of a report is wrong.
ghost use Rattle.std.specs.Prelude.{length, ◌<◌, ◌^◌};
ghost use Rattle.kms_report.specs.Right.{HasNoWrongLine};

use kms_core::Core;

/// A length is below 2^64.
fn is_length(length: usize)
    ensures { length < 2 ^ 64 }
{}

/// The text of a history's report without pixmaps has no line that is wrong.
pub(crate) fn has_no_wrong_line(core: &Core)
    ensures { HasNoWrongLine core.now.script core.now.steps }
{
    core.is_a_history();
    core.frees_each_once();
    kms_read_back::histories_have_no_wrong_line();
    is_length(core.history().len());
}

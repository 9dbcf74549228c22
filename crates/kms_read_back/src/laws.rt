//! Reports are read back.
ghost use Rattle.kms_read_back.specs.ReadBack.{HistoriesAreReadBack, HistoriesAreRight, ReportsAreReadBack};

/// The text of a report is read as that report, where its numbers are within the widths of their fields, its labels are
/// labels, and its refusals have the numbers that a line may have.
pub fn reports_are_read_back()
    ensures { ReportsAreReadBack }
{}

/// The text of a history's report without pixmaps is read as that report.
pub fn histories_are_read_back()
    ensures { HistoriesAreReadBack }
{}

/// No line of it is wrong: neither outside of the grammar, nor other than the device of one thread.
pub fn histories_have_no_wrong_line()
    ensures { HistoriesAreRight }
{}

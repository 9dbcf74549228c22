//! What is read of a text is written as this text.
ghost use Rattle.kms_reading.specs.Spelt.{ReadReportsAreTheirText, ReportsStandBehindScripts};

/// A text that is read is the text of what was read, where each busy reply in it names an object of an index below 100: from
/// there on ids of kinds would meet.
pub fn read_reports_are_their_text()
    ensures { ReadReportsAreTheirText }
{}

/// An input in which a report follows the script is the text of this script, the line `report`, and the bytes from the place on
/// that `kms_script::parse` tells.
pub fn reports_stand_behind_scripts()
    ensures { ReportsStandBehindScripts }
{}

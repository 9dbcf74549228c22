//! What a history's lists tell of one another.
ghost use Rattle.kms_told.specs.Told.{CommitsAreOfJournal, EventsFit, ReportsAreRight, TextsAreSeen};

/// The commits of a history are those of its journal's requests, with their clients, and the worlds before them.
pub fn commits_are_the_journals()
    ensures { CommitsAreOfJournal }
{}

/// Of the first events that a client read, those that are equal are at most as many as the latches that tell them.
pub fn events_fit()
    ensures { EventsFit }
{}

/// The report of a history, as a value without pixmaps, has no line that is wrong.
pub fn reports_are_right()
    ensures { ReportsAreRight }
{}

/// The text of a history's report without pixmaps is the text of the report as a value.
pub fn texts_are_seen()
    ensures { TextsAreSeen }
{}

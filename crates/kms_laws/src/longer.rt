//! Scripts with more commands.
ghost use Rattle.kms_laws.specs.Longer.{AddedIsLonger, HistoriesStay};

/// Each history of a script that was not ended is a history of each longer script of the same device, and leaves the same
/// machine. A script becomes longer by commands behind all of its last client's, or of a client where it has none, and by a
/// client more.
pub fn histories_stay()
    ensures stay { HistoriesStay }
    ensures added { AddedIsLonger }
{}

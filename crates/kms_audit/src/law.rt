//! What a yes implies.
ghost use Rattle.kms_audit.specs.Implied.{YesImplies};

/// Where each line of a report is right, its journal, its verdicts and its frames are those of the device of one thread,
/// whoever wrote it: each entry is accepted after those before it; what the L lines tell of each CRTC, commits and
/// digests, is a front of what that device shows there when it executes the journal, and all of it where the report ends
/// in `D drained`; and each reply to a request is that device's verdict at its place.
pub fn what_a_yes_implies()
    ensures { YesImplies }
{}

//! Locks and decisions.
ghost use Rattle.kms_model.specs.Promises.{CauseOfBusy, FrameLaw, InEachHistory, NoCycleOfWaits, TestChangesNothing};
ghost use Rattle.kms_model.specs.Machine.Histories.{at};
ghost use Rattle.kms_laws.specs.Laws.{ContextsStand, OldLookUpsAskWithinReach};

/// A request that is tested changes nothing but its reply, its locks and its client's place.
pub fn tests_change_nothing()
    ensures { TestChangesNothing }
{}

/// No client waits, along a chain of waits for locks, for itself.
pub fn waits_have_no_cycle()
    ensures { NoCycleOfWaits }
{}

/// A client that takes locks for a request may be answered busy, with an object and a commit, exactly where its context
/// holds what the request touches, the request is accepted, is no test and has space for its events, asks not to wait,
/// and the object is the first, by id, that the request touches and whose last commit has not flipped for it; and that
/// commit is the one.
pub fn busy_has_its_cause()
    ensures { CauseOfBusy }
{}

/// While a client holds an object's lock, no step but its own changes the object's present state: that of a CRTC has the
/// sets of its planes and connectors in it. From: "KMS Locking".
pub fn held_objects_are_framed()
    ensures { FrameLaw }
{}

/// Look-ups may be older than the states that are checked with them: a check of what a request asked for with what its
/// labels named earlier in the history answers what is right in some lawful world, and all that the request touches in
/// that world is in the reach of the request now. So the objects that the check still asks for are in
/// its reach.
pub fn old_look_ups_ask_within_reach()
    ensures { OldLookUpsAskWithinReach }
{}

/// Locks that are held are those of objects of the device; who holds one takes locks or must back off; no two contexts
/// have one ticket; a client that returns does so for a commit that is there.
pub fn contexts_stand()
    ensures { InEachHistory (λ s h. ContextsStand s (at s h)) }
{}

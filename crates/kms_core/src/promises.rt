//! The laws of the machine, of the history that a core has: each is the contract of a call that does nothing but cite it.
ghost use Rattle.kms_model.specs.Headline.{Headline};
ghost use Rattle.kms_model.specs.Promises.{FreesEachOnce};
ghost use Rattle.kms_laws.specs.Laws.{ContextsStand, HasSerialWorld};
ghost use Rattle.kms_core.specs.Promises.{AsksWithinItsReach, DeliversOnce, FramesWhatIsHeld, FreesOnce, CanGoOn, IsBusyWithCause, LatchesWhole, NamesItsFence, ReservesEach, ShowsAllOnceCleaned, ShowsTheLast, TestsAlone, WaitsInNoCycle};
ghost use Rattle.kms_core.specs.Run.{machine};

use crate::machine::Core;

impl Core {
    /// The pictures that each CRTC latched are, in order, a prefix of those that the device of one thread shows when it
    /// executes the journal's commands one by one, and all of them once the history is drained; every verdict on a request
    /// is that device's at its place in the journal.
    pub fn shows_its_journal(&self)
        ensures { Headline self.now.script self.now.steps }
    {
        self.is_a_history();
        kms_laws::headline_holds();
    }

    /// Where every commit is cleaned, each CRTC has latched all that the device of one thread shows for the journal, also
    /// where clients have commands left.
    pub fn shows_all_once_cleaned(&self)
        ensures { ShowsAllOnceCleaned self.now }
    {
        self.is_a_history();
        kms_laws::all_is_shown_once_cleaned();
    }

    /// Look-ups may grow old: a check of what a request asked for by its labels now, of states that are duplicated after
    /// more steps, is right in some lawful world, and asks for objects within the reach of the request then.
    pub fn asks_within_its_reach(&self)
        ensures { AsksWithinItsReach self.now }
    {
        self.is_a_history();
        kms_laws::old_look_ups_ask_within_reach();
    }

    /// The world is that of the device of one thread after the journal, and it is lawful.
    pub fn is_serial(&self)
        ensures { HasSerialWorld self.now.script self.now.steps }
    {
        self.is_a_history();
        kms_laws::world_is_serial();
    }

    /// The live picture of a CRTC is the last that it latched, Off before the first, and each that it latched is what it
    /// shows in the new values of one commit: no frame mixes two.
    pub fn shows_whole_pictures(&self)
        ensures live { ShowsTheLast self.now }
        ensures latched { LatchesWhole self.now }
    {
        self.is_a_history();
        kms_laws::pictures_are_whole();
    }

    /// What a client has read, and then its unread events, are one event for each latch of its commits that ask for
    /// events, in order of time; and one is reserved for each that is still to come.
    pub fn delivers_events_once(&self)
        ensures delivered { DeliversOnce self.now }
        ensures reserved { ReservesEach self.now }
    {
        self.is_a_history();
        kms_laws::events_come_once();
    }

    /// A framebuffer that was made and is not needed is not needed after any further steps.
    pub fn frees_framebuffers_once(&self)
        ensures { FreesOnce self.now }
    {
        self.is_a_history();
        kms_laws::framebuffers_are_freed_once();
    }

    /// What was freed so far: no framebuffer twice, and each that was made exactly where nothing needs it. A step frees
    /// those that were needed before it and are not needed after it.
    pub fn frees_each_once(&self)
        ensures { FreesEachOnce self.now.script self.now.steps }
    {
        self.is_a_history();
        crate::freeing::each_framebuffer_is_freed_once();
    }

    /// A request that is tested changes nothing but its reply, its locks and its client's place.
    pub fn tests_requests_alone(&self)
        ensures { TestsAlone self.now }
    {
        kms_laws::tests_change_nothing();
    }

    /// Busy is answered exactly where a request is accepted, is no test, has its locks and space for its events, asks not to
    /// wait, and the last commit of an object that it touches has not flipped for it; the first such object and that
    /// commit are told.
    pub fn is_busy_with_cause(&self)
        ensures { IsBusyWithCause self.now }
    {
        self.is_a_history();
        kms_laws::busy_has_its_cause();
    }

    /// No client waits, along a chain of waits for locks, for itself.
    pub fn waits_in_no_cycle(&self)
        ensures { WaitsInNoCycle self.now }
    {
        self.is_a_history();
        kms_laws::waits_have_no_cycle();
    }

    /// While a client holds an object's lock, no step but its own changes the object's present state, so the states that a
    /// context duplicated are the present ones until its own deciding step.
    pub fn frames_what_is_held(&self)
        ensures { FramesWhatIsHeld self.now }
    {
        self.is_a_history();
        kms_laws::held_objects_are_framed();
    }

    /// Locks that are held are those of objects of the device; who holds one takes locks or must back off; no two contexts
    /// have one ticket; a client that returns does so for a commit that is there.
    pub fn has_sound_contexts(&self)
        ensures { ContextsStand self.now.script (machine self.now) }
    {
        self.is_a_history();
        kms_laws::contexts_stand();
    }

    /// The history is drained, or a step other than `stall` and a vblank without GO may be done in it, or a commit
    /// waits for a fence whose label is told.
    pub fn never_sticks(&self)
        ensures { CanGoOn self.now }
    {
        self.is_a_history();
        kms_laws::histories_go_on();
    }

    /// Where the history is dead, the least commit that is not cleaned waits for a fence that a `fence` command made and that
    /// is not signalled, and the label told is that fence's.
    pub fn names_its_fence(&self)
        ensures { NamesItsFence self.now }
    {
        self.is_a_history();
        kms_laws::dead_histories_name_a_fence();
    }
}

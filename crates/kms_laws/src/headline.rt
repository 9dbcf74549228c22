//! The headline: every interleaving shows what one thread shows.
ghost use Rattle.kms_model.specs.Headline.{HeadlineHolds};
ghost use Rattle.kms_model.specs.Promises.{DeadNamesAFence, EventsOnce, FramebuffersOnce, InEachHistory, WholePictures};
ghost use Rattle.kms_laws.specs.Laws.{AllShownOnceCleaned, FramebuffersStayFree, HasSerialWorld, HistoriesGoOn};

/// For every script and every interleaving of clients, workers, fences and vblanks: the pictures that each CRTC
/// latches are, in order, a prefix of those that the device of one thread shows when it executes the journal's commands
/// one by one, and all of them once the run has drained; every verdict on a request is that device's at its place in
/// the journal.
pub fn headline_holds()
    ensures { HeadlineHolds }
{}

/// Where every commit is cleaned, each CRTC has latched all that the device of one thread shows for the journal, also where
/// clients have commands left.
pub fn all_is_shown_once_cleaned()
    ensures { AllShownOnceCleaned }
{}

/// The world of the machine is that of the device of one thread after the journal, and that device is lawful.
pub fn world_is_serial()
    ensures { InEachHistory HasSerialWorld }
{}

/// Pictures are whole: at each moment the live picture of a CRTC is the last that it latched, Off before the first, and each
/// that it latched is what it shows in the new values of one commit, which is there (`numbers_fit_their_types`).
pub fn pictures_are_whole()
    ensures { WholePictures }
{}

/// A framebuffer that was made and is not needed is not needed after the next step, nor after any further steps. That each
/// is freed at most once, by the step after which it is first not needed, follows.
pub fn framebuffers_are_freed_once()
    ensures next { FramebuffersOnce }
    ensures ever { FramebuffersStayFree }
{}

/// Events come once: what a client has read, and then its unread events, are those delivered, one for each latch of its
/// commits that ask for events; and one is reserved for each that is still to come.
pub fn events_come_once()
    ensures { EventsOnce }
{}

/// Each history is drained, or a step other than `stall` and a vblank without GO may be done in it; or else the least commit
/// that is not cleaned is not claimed and waits for a fence that a `fence` command made and that is not signalled, and
/// that fence's label is the one that a dead history tells.
pub fn histories_go_on()
    ensures { HistoriesGoOn }
{}

/// A dead history names a fence: the least commit that is not cleaned is not claimed and waits for a fence that a `fence`
/// command made and that is not signalled; the label told is that fence's.
pub fn dead_histories_name_a_fence()
    ensures { DeadNamesAFence }
{}

//! That a tracker follows a machine, and answers what the machine's conditions are.
ghost use Rattle.kms_track.specs.MachineLaws.{StandsAtFirst, StandsWithRoom, TellsAwaited, TellsClaim, TellsCleaned, TellsPending, TellsReady};
ghost use Rattle.kms_track.specs.StepLaws.{ChecksAreFollowed, DevicesAreFollowed, FewAreLeft, FollowsClaim, FollowsCleanup, FollowsFlush, FollowsFlushOff, FollowsHwDone, FollowsSwap, FollowsTheOthers, FollowsVblank, FollowsVblankWithGo, FollowsWrite, LatchIsLeft, LatchIsOff, LegalIsLeft, LegalIsSetUp, MarkTakesNone, MarkTakesOne, CleanupTakesAll, SetupAddsFew, TouchesAreFollowed};

/// A tracker that stands for a machine stands for it after each of its steps: after a swap once the commit is set up as it
/// was checked, after a step of a tail once it is told, after a flush of a CRTC that is off and a vblank with GO
/// once it is told of the latch, and after each other step as it is. The last four clauses tell that a commit whose step is
/// legal was set up, and of what a check gives, of the set of touched objects and of the device that they have what the
/// others ask for.
pub fn follows_the_machine()
    ensures first { StandsAtFirst }
    ensures make_room { StandsWithRoom }
    ensures swap { FollowsSwap }
    ensures claim { FollowsClaim }
    ensures write { FollowsWrite }
    ensures flush { FollowsFlush }
    ensures flush_off { FollowsFlushOff }
    ensures hw_done { FollowsHwDone }
    ensures vblank { FollowsVblank }
    ensures vblank_with_go { FollowsVblankWithGo }
    ensures cleanup { FollowsCleanup }
    ensures others { FollowsTheOthers }
    ensures legal { LegalIsSetUp }
    ensures checked { ChecksAreFollowed }
    ensures touched { TouchesAreFollowed }
    ensures device { DevicesAreFollowed }
{}

/// While a tracker stands for a machine, `ready` is the condition of a claim and `is_cleaned` that of a return, `busy` tells
/// the first object that is pending and its last commit, and `not_yet` the first CRTC that a request names and at which its
/// swap waits, with the commit that it waits for; none exactly where the swap is ready. (Kernel: `drm_atomic_helper.c`, `drm_atomic_helper_setup_commit`,
/// `drm_atomic_helper_wait_for_dependencies`.)
pub fn answers_as_the_machine()
    ensures ready { TellsClaim }
    ensures is_cleaned { TellsCleaned }
    ensures busy { TellsPending }
    ensures not_yet { TellsAwaited }
    ensures is_ready { TellsReady }
{}

/// What is left of tails is counted right: of each at most 31 steps, one at least. A step of a tail that is legal is left to
/// do, as is a latch at a CRTC that is on after the commit, and then takes one; a latch at one that is off takes none; a
/// cleanup takes what its commit has left, and a further commit adds at most 31.
pub fn legal_steps_are_left()
    ensures legal { LegalIsLeft }
    ensures latch { LatchIsLeft }
    ensures latch_off { LatchIsOff }
    ensures few { FewAreLeft }
    ensures one { MarkTakesOne }
    ensures none { MarkTakesNone }
    ensures cleanup { CleanupTakesAll }
    ensures setup { SetupAddsFew }
{}

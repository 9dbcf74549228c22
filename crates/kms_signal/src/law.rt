//! That each delivered event is read once, and that fences and queues stand for those of the machine.
ghost use Rattle.kms_signal.specs.MachineLaws.{StandAtFirst, StandWithAFence, StandAfterSignal, StandsAtFirst};
ghost use Rattle.kms_signal.specs.MachineLaws.{StandsAfterReserve, StandsAfterDelivery, StandsAfterRead, StandsBesideOthers};
ghost use Rattle.kms_signal.specs.Queues.{DeliveredIsReadThenUnread};
ghost use Rattle.kms_signal.specs.StepLaws.{FencesFollowSignal, FencesFollowRefusedSignal, FencesFollowTheOthers};
ghost use Rattle.kms_signal.specs.StepLaws.{QueuesFollowSwap, QueuesFollowOthersSwap, QueuesFollowRead, QueuesFollowOthersRead, QueuesFollowTheOthers};
ghost use Rattle.kms_signal.specs.StepLaws.{FollowFlush, FollowFlushOff, FollowVblank, FollowVblankWithGo};

/// After every list of calls on a queue, the events that were read and then those that are unread are those that were
/// delivered, in their order.
pub fn delivered_is_read_then_unread()
    ensures { DeliveredIsReadThenUnread }
{}

/// While fences and a client's queue are told of what a machine makes, signals, reserves, delivers and reads, they stand
/// for the machine's fences and for its events of that client. (Kernel: "DMA Fences"; `drm_file.c`,
/// `drm_event_reserve_init`, `drm_send_event` and `drm_read`.)
pub fn stands_for_the_machine()
    ensures no_fence { StandAtFirst }
    ensures make { StandWithAFence }
    ensures signal { StandAfterSignal }
    ensures no_event { StandsAtFirst }
    ensures reserve { StandsAfterReserve }
    ensures deliver { StandsAfterDelivery }
    ensures read { StandsAfterRead }
    ensures others { StandsBesideOthers }
{}

/// Fences and queues that stand for a machine's stand for them after each of its steps: fences once a signal is told,
/// queues once what a swap reserves and what is read is told, both once a latch is told, at a flush of a CRTC that is off
/// or at a vblank with GO, and after each other step as they are.
pub fn follow_the_machine()
    ensures signal { FencesFollowSignal }
    ensures refused_signal { FencesFollowRefusedSignal }
    ensures fences { FencesFollowTheOthers }
    ensures swap { QueuesFollowSwap }
    ensures others_swap { QueuesFollowOthersSwap }
    ensures read { QueuesFollowRead }
    ensures others_read { QueuesFollowOthersRead }
    ensures queues { QueuesFollowTheOthers }
    ensures flush { FollowFlush }
    ensures flush_off { FollowFlushOff }
    ensures vblank { FollowVblank }
    ensures vblank_with_go { FollowVblankWithGo }
{}

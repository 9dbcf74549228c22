//! The laws of the registers.
ghost use Rattle.std.specs.Prelude.{ℕ};
ghost use Rattle.kms_model.specs.declared.objects.Topology.{Topology};
ghost use Rattle.kms_model.specs.Machine.Registers.{Registers};
ghost use Rattle.kms_regs.specs.Latches.{LatchLeavesTheOthers, LatchShowsTheShadow, LatchShowsWhatWasWritten};
ghost use Rattle.kms_regs.specs.StepLaws.{FollowsCrtcWrite, FollowsFlush, FollowsPlaneWrite, FollowsTheOthers, FollowsVblank};
ghost use Rattle.kms_regs.specs.StepLaws.{FlushIsRecorded, HoldsOldCrtc, HoldsOldPlane, IsOnInWords, VblankIsRecorded};

/// A latch shows what was written for its CRTC: the picture of its shadow words, which is that of the states whose words
/// they are. It changes no other CRTC's live picture where no plane is live on one CRTC and in the shadow on another.
/// This function does nothing; its contract is the law.
pub fn latch_shows_what_was_written()
    ensures shows { LatchShowsTheShadow }
    ensures written { LatchShowsWhatWasWritten }
    ensures others { LatchLeavesTheOthers }
{}

/// A register file that stands for a machine's registers stands for them after each of its steps: after a write of the
/// new state of a plane or a CRTC that a commit touches, after a flush of a CRTC that the commit names and whose words
/// are written, after a vblank, and after each other step as it is. What the machine records of a latch has the
/// picture that the call gives. The last three clauses tell, of the machine's words, what a write and a flush rest on.
pub fn follows_the_machine()
    ensures write_plane { FollowsPlaneWrite }
    ensures write_crtc { FollowsCrtcWrite }
    ensures flush { FollowsFlush }
    ensures vblank { FollowsVblank }
    ensures others { FollowsTheOthers }
    ensures flush_recorded { FlushIsRecorded }
    ensures vblank_recorded { VblankIsRecorded }
    ensures old_plane { HoldsOldPlane }
    ensures old_crtc { HoldsOldCrtc }
    ensures is_on { IsOnInWords }
{}

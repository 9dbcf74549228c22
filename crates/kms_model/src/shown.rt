//! That what a sound world shows can be composed, as the contracts of functions that do nothing.
ghost use Rattle.std.specs.Prelude.{ℕ};
ghost use Rattle.kms_model.specs.declared.objects.Topology.{Topology};
ghost use Rattle.kms_model.specs.declared.scripts.Command.{Command};
ghost use Rattle.kms_model.specs.declared.worlds.World.{World};
ghost use Rattle.kms_model.specs.Device.Execution.{execute};
ghost use Rattle.kms_model.specs.Device.Sound.{IsLawful, IsSound};
ghost use Rattle.kms_model.specs.Device.World.{start};
ghost use Rattle.kms_model.specs.Frames.Pictures.{picture};
ghost use Rattle.kms_model.specs.Frames.Shown.{AreFramed, EachCanBeShown};

/// What a CRTC shows in a sound world, whose framebuffers have buffers of their sizes and formats, can be composed:
/// each layer has its place in the mode, and its framebuffer has a word for each pixel.
pub fn what_is_shown_can_be_composed()
    ensures { (t : Topology) (w : World) (crtc : ℕ) → IsSound t w → AreFramed w.things
        → EachCanBeShown w.things (picture t w.things w.values crtc) }
{}

/// Framebuffers have buffers of their sizes and formats before the first command, and each command leaves them so.
pub fn framebuffers_have_their_buffers()
    ensures start { (t : Topology) → AreFramed (start t).things }
    ensures kept { (t : Topology) (w : World) (client : ℕ) (c : Command)
        → IsLawful t w → AreFramed w.things → AreFramed (execute t w client c).world.things }
{}

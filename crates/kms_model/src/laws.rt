//! The laws of the definitions, each as the contract of a function that does nothing.
ghost use Rattle.std.specs.Prelude.{ℕ, ◌≡◌, ◌==◌, true, false, Option, None};
ghost use Rattle.kms_model.specs.declared.objects.Mode.{Mode};
ghost use Rattle.kms_model.specs.declared.objects.Topology.{Topology};
ghost use Rattle.kms_model.specs.declared.scripts.Command.{Command};
ghost use Rattle.kms_model.specs.declared.states.PlaneState.{PlaneState};
ghost use Rattle.kms_model.specs.declared.worlds.World.{World};
ghost use Rattle.kms_model.specs.Device.World.{start};
ghost use Rattle.kms_model.specs.Device.Sound.{IsDevice, IsPlaneInRange, IsLawful};
ghost use Rattle.kms_model.specs.Device.Execution.{execute};
ghost use Rattle.kms_model.specs.Frames.FrameBytes.{covers};
ghost use Rattle.kms_model.specs.Frames.Unscaled.{ShowsUnscaled};
ghost use Rattle.kms_model.specs.Request.Checks.{shown_refusal};

/// A device of one thread is lawful before the first command: its values are among those of their properties, a request
/// without assignments is accepted, and its things are numbered.
pub fn start_is_lawful()
    ensures { (t : Topology) → IsDevice t → IsLawful t (start t) }
{}

/// A plane that profile 1 accepts shows, at each pixel of its destination, the place of the framebuffer that it shows
/// unscaled: as far behind the source's first pixel as the pixel is behind the destination's.
pub fn accepted_in_profile_1_is_unscaled()
    ensures { (mode : Option Mode) (s : PlaneState) (x y : ℕ) → IsPlaneInRange s
        → (s.crtc == 0) ≡ false → shown_refusal 1 mode s ≡ None → covers s.dst x y ≡ true
        → ShowsUnscaled s x y }
{}

/// Each command leaves a lawful device lawful, whatever is answered to it.
pub fn execution_keeps_lawful()
    ensures { (t : Topology) (w : World) (client : ℕ) (c : Command) → IsLawful t w
        → IsLawful t (execute t w client c).world }
{}

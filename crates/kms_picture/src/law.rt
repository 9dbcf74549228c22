//! The law of profile 1, as the contract of a function that does nothing.
ghost use Rattle.std.specs.Prelude.{ℕ, ◌≡◌};
ghost use Rattle.kms_model.specs.declared.objects.Topology.{Topology};
ghost use Rattle.kms_model.specs.declared.scripts.Command.{Command};
ghost use Rattle.kms_model.specs.declared.worlds.World.{World};
ghost use Rattle.kms_model.specs.Device.Execution.{execute};
ghost use Rattle.kms_model.specs.Device.Sound.{IsLawful, IsSound};
ghost use Rattle.kms_picture.specs.Unscaled.{EachShowsUnscaled};

/// In a sound world of a device with profile 1 each plane that is on a CRTC shows, at each pixel of its destination, the
/// place of the framebuffer that it shows unscaled: as far behind the source's first pixel as the pixel is behind the
/// destination's. So it does after each command too, a request that is accepted among them.
pub fn profile_1_scales_nothing()
    ensures before { (t : Topology) (w : World) → t.profile ≡ 1 → IsSound t w
        → EachShowsUnscaled t w }
    ensures after { (t : Topology) (w : World) (client : ℕ) (c : Command)
        → t.profile ≡ 1 → IsLawful t w → EachShowsUnscaled t (execute t w client c).world }
{}

//! A law of the definitions, as the contract of a function that does nothing.
ghost use Rattle.std.specs.Prelude.{◌≡◌, ℕ, None};
ghost use Rattle.kms_model.specs.declared.objects.Topology.{Topology};
ghost use Rattle.kms_model.specs.declared.scripts.Request.{Request};
ghost use Rattle.kms_model.specs.declared.worlds.World.{World};
ghost use Rattle.kms_model.specs.Request.Reach.{reaches};
ghost use Rattle.kms_model.specs.Request.Touched.{touches};
ghost use Rattle.kms_model.specs.Request.Verdict.{early_in};

/// Where no early refusal is due, what a request reaches is what it touches.
pub fn reach_of_accepted_is_touched()
    ensures { (t : Topology) (w : World) (r : Request) (object : ℕ) → early_in t w r ≡ None
        → reaches t w r object ≡ touches t w r object }
{}

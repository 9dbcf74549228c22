//! What labels name.
ghost use Rattle.std.specs.Prelude.{◌≡◌, ℕ};
ghost use Rattle.kms_model.specs.declared.worlds.Look.{Look};
ghost use Rattle.kms_model.specs.Request.Sets.{look_in};

use kms_model::{Look, Lookups};

/// Tells what labels name.
pub trait Looker {
    /// What each label names.
    ghost meaning: { Self → ℕ → Look };

    /// What a label, by its number from 0, names.
    fn look(&self, label: u32) -> Look
        ensures { result ≡ meaning self.now label };
}

impl Looker for Lookups {
    ghost meaning = { look_in };

    #[tactic(auto, unfolding(kms_model::specs::Request::Sets::look_in))]
    fn look(&self, label: u32) -> Look {
        for (known, look) in self.as_slice() {
            if *known == label {
                return *look;
            }
        }
        Look::Missing
    }
}

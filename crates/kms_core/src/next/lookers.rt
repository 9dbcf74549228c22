//! What labels name, by the things that were made.
ghost use Rattle.kms_model.specs.Device.World.{thing_labelled};
ghost use Rattle.kms_model.specs.Request.Lookups.{look_of, look_of_any};

use kms_model::Look;
use kms_request::Looker;
use kms_things::Things;

/// What labels name now.
#[derive(Drop)]
pub(crate) struct Now<'a>(pub(crate) &'a Things);

impl<'a> Looker for Now<'a> {
    ghost meaning = { λ s label. look_of (thing_labelled s.0.now.things label) };

    fn look(&self, label: u32) -> Look {
        self.0.look(label)
    }
}

/// What labels name, where a closed thing counts as it was while it was open.
#[derive(Drop)]
pub(crate) struct Ever<'a>(pub(crate) &'a Things);

impl<'a> Looker for Ever<'a> {
    ghost meaning = { λ s label. look_of_any (thing_labelled s.0.now.things label) };

    fn look(&self, label: u32) -> Look {
        self.0.look_any(label)
    }
}

//! The values of the properties, which only proofs read.
ghost use Rattle.std.specs.Prelude.{◌≡◌, List};
ghost use Rattle.std.specs.Borrow.{ftrue};
ghost use Rattle.kms_model.specs.declared.worlds.Setting.{Setting};
ghost use Rattle.kms_model.specs.declared.worlds.World.{World};
ghost use Rattle.kms_model.specs.Device.World.{start};
ghost use Rattle.kms_model.specs.Request.Apply.{after};

use kms_model::{Request, Topology};
use kms_things::Things;
use std::marker::Model;

/// The values of a device's properties. It takes no bytes, and its functions do nothing when they run: what the device
/// knows of its values are the typed states of its objects, which agree with these.
#[derive(Drop)]
pub struct Values {
    pub ghost settings: { List Setting },
}

impl Model for Values {
    ghost also_owns = { λ _. ftrue };
}

impl Values {
    /// Those of a device before the first command.
    pub fn at_start(_topology: &Topology) -> Values
        ensures { result.settings ≡ (start _topology.now).values }
    {
        Values {}
    }

    /// Those after a request, whose labels name things.
    pub fn after(_before: &Values, _things: &Things, _request: &Request) -> Values
        ensures { (w : World) → w.values ≡ _before.now.settings
            → w.things ≡ _things.now.things → result.settings ≡ after w _request.now }
    {
        Values {}
    }
}

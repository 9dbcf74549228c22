//! Who sets properties in states. (Kernel: "Atomic Mode Setting", `drm_atomic_set_property`.)
ghost use Rattle.std.specs.Prelude.{IsTrue};
ghost use Rattle.kms_model.specs.Device.Objects.{kind_of};
ghost use Rattle.kms_model.specs.Device.Sound.{IsDevice};
ghost use Rattle.kms_model.specs.Request.SetRanges.{may_set};
ghost use Rattle.kms_props.specs.Setting.{AreAllDuplicated, IsOnDevice, IsSetIn};

use kms_model::{Duplicates, Set, Topology};

/// Sets properties in duplicated states. The crate of states has the one that there is; what is given it, need not stand on that
/// crate.
pub trait Setter {
    /// Sets a property of an object of a device, all objects of which are duplicated. The property is one of the object's kind
    /// that a request may set, and the value is among its values.
    fn set(&self, topology: &Topology, states: &mut Duplicates, set: &Set)
        requires device { IsDevice topology.now }
        requires all { AreAllDuplicated topology.now states.old }
        requires object { IsOnDevice topology.now set.now.object.0 }
        requires value { IsTrue (may_set (kind_of set.now.object.0) set.now.prop set.now.value) }
        ensures { IsSetIn topology.now states.old set.now states.new };
}

//! The labels that name open things.
ghost use Rattle.std.specs.Prelude.{◌≡◌, Some};
ghost use Rattle.kms_model.specs.Device.Modes.{same_mode};
ghost use Rattle.kms_model.specs.Device.Sound.{AreNumbered};
ghost use Rattle.kms_model.specs.Device.World.{thing_with_id};
ghost use Rattle.kms_model.specs.Order.Suspending.{names_mode, open_label, open_mode_label};
ghost use Rattle.kms_model.specs.Request.Sets.{mode_of_look};
ghost use Rattle.kms_things.specs.Labels.{label_if_open};

use crate::index::thing_with_id;
use crate::looks::look_of_content;
use crate::things::Things;
use kms_model::{Look, Mode, Thing};

/// Whether two modes are the same: all their contents are, the bytes behind the name's end among them.
fn is_same(one: Mode, other: Mode) -> bool
    ensures { result ≡ same_mode (Some one) (Some other) }
{
    Some(one) == Some(other)
}

/// Whether a look-up tells a legal mode, and it is this one.
fn tells_mode(look: Look, mode: Mode) -> bool
    ensures { result ≡ same_mode (mode_of_look look) (Some mode) }
{
    match look {
        Look::Mode(held, _) => is_same(held, mode),
        _ => false,
    }
}

/// Whether MODE_ID would take a thing's label as a mode: the thing is an open blob that holds it.
fn names_mode(thing: &Thing, mode: &Mode) -> bool
    ensures { result ≡ names_mode mode.now thing.now }
{
    thing.is_open && tells_mode(look_of_content(thing.id, &thing.content), *mode)
}

/// The label, by its number from 0, of the first of some things that MODE_ID would take as a mode.
#[tactic(auto, unfolding(kms_model::specs::Order::Suspending::open_mode_label))]
fn first_with_mode(things: &[Thing], mode: &Mode) -> Option<u32>
    ensures { result ≡ open_mode_label things.now mode.now }
{
    for thing in things {
        if names_mode(thing, mode) {
            return Some(thing.label);
        }
    }
    None
}

/// The label, by its number from 0, of the thing with an id, where there is one and it is open.
fn label_if_open(things: &[Thing], id: u32) -> Option<u32>
    requires { AreNumbered 1000 things.now }
    ensures { result ≡ label_if_open (thing_with_id things.now id) }
{
    let thing = thing_with_id(things, id)?;
    thing.is_open.then_some(thing.label)
}

/// The label, by its number from 0, of the open thing with an id; none exactly where no open thing has the id.
pub fn open_label(things: &[Thing], id: u32) -> Option<u32>
    requires { AreNumbered 1000 things.now }
    ensures { result ≡ open_label things.now id }
{
    label_if_open(things, id)
}

impl Things {
    /// The label, by its number from 0, of the open blob of least id that MODE_ID would take as a mode, which has all
    /// contents of this one; none exactly where there is none. It goes over the things from the first on.
    pub fn mode_label(&self, mode: &Mode) -> Option<u32>
        ensures { result ≡ open_mode_label self.now.things mode.now }
    {
        first_with_mode(self.made(), mode)
    }
}

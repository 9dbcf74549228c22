//! Looks at how long the history is.
ghost use Rattle.std.specs.Prelude.{◌≡◌};
ghost use Rattle.kms_players.specs.Players.{name_of_pass};
ghost use Rattle.kms_players.specs.Took.{Reads};

use kms_device::{Device, Pass};

/// How long the history of a device is, as far as one load tells. It is no turn, and waits for nobody.
pub(crate) fn look(device: &Device, pass: &mut Pass) -> u64
    requires own { pass.old.lock ≡ device.now.lock }
    ensures reads { Reads pass.old pass.new result }
    ensures own { pass.new.lock ≡ device.now.lock }
    ensures name { name_of_pass pass.new ≡ name_of_pass pass.old }
{
    device.history_len(pass)
}

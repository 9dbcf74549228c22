//! Who a player is.
use kms_device::Pass;
use std::marker::Model;

/// Who a player is: the lock of its device, and the rank of its pass there. No value of it is made: contracts alone speak of it.
#[derive(Drop)]
pub struct Name {
    pass: Pass,
}

impl Model for Name {
    ghost use Rattle.kms_players.specs.Players.{PlayerName, name_of_pass};

    ghost Value = { PlayerName };

    ghost view = { λ n. name_of_pass n.pass };
}

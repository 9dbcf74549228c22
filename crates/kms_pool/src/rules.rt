//! The rule of the queue: no player is lost, and none is there twice.
use crate::participant::Participant;
use crate::player::Player;
use crossbeam_queue::protocol::{Join, Lesson, Outcome, Protocol, Split};
use crossbeam_queue::{Pass, RuledArrayQueue};
use std::collections::LinkedList;

/// What a pass of the queue knows: its share of the whole, the names of the players that it put into the queue, and
/// of those that its thread holds. No value of it is made.
pub struct Hand<N> {
    pub parts: u64,
    pub brought: LinkedList<N>,
    pub held: LinkedList<N>,
}

/// The rule.
pub struct NoneLost;

impl<P: Player> Protocol<Participant<P>, Hand<P::Name>> for NoneLost {
    ghost use Rattle.std.specs.Prelude.{[]};
    ghost use Rattle.kms_pool.specs.Rules.{ALL_PARTS, hand, IsBalanced};

    ghost holds = { IsBalanced (λ x. P.name x.player.value) };

    ghost first = { hand ALL_PARTS [] [] };
}

/// The queue of the players that wait for their turns.
pub(crate) type Queue<P> = RuledArrayQueue<Participant<P>, Hand<<P as Player>::Name>, NoneLost>;

/// What a thread needs to use the queue.
pub(crate) type QueuePass<P> = Pass<Participant<P>, Hand<<P as Player>::Name>>;

/// Puts a new player into the queue.
pub(crate) struct Brings;

impl<P: Player> Outcome<Participant<P>, Hand<P::Name>> for Brings {
    ghost use Rattle.std.specs.Prelude.{◌≡◌, ◌∷◌};
    ghost use Rattle.kms_pool.specs.Rules.{hand};

    ghost then = { λ v x w. w ≡ hand v.parts (P.name x.player.value ∷ v.brought) v.held };
}

/// Takes a player out of the queue.
pub(crate) struct Takes;

impl<P: Player> Outcome<Participant<P>, Hand<P::Name>> for Takes {
    ghost use Rattle.std.specs.Prelude.{◌≡◌, ◌∷◌};
    ghost use Rattle.kms_pool.specs.Rules.{hand};

    ghost then = { λ v x w. w ≡ hand v.parts v.brought (P.name x.player.value ∷ v.held) };
}

impl<P: Player> Lesson<Participant<P>, Hand<P::Name>> for Takes {
    ghost use Rattle.kms_pool.specs.Rules.{Tells};

    ghost fact = { Tells (λ x. P.name x.player.value) };
}

/// Puts the one player that is held back.
pub(crate) struct PutsBack;

impl<P: Player> Outcome<Participant<P>, Hand<P::Name>> for PutsBack {
    ghost use Rattle.std.specs.Prelude.{◌≡◌, []};
    ghost use Rattle.kms_pool.specs.Rules.{hand};

    ghost then = { λ v x w. w ≡ hand v.parts v.brought [] };
}

/// Gives a share to a new pass, which has put nobody in.
pub(crate) struct OneMore;

impl<N> Split<Hand<N>> for OneMore {
    ghost use Rattle.std.specs.Prelude.{◌-◌, []};
    ghost use Rattle.kms_pool.specs.Rules.{hand};

    ghost left = { λ v. hand (v.parts - 1) v.brought v.held };

    ghost right = { λ v. hand 1 [] [] };
}

/// Takes in the share of a pass that holds nobody.
pub(crate) struct TakesIn;

impl<N> Join<Hand<N>> for TakesIn {
    ghost use Rattle.std.specs.Prelude.{◌+◌, []};
    ghost use Rattle.kms_pool.specs.Rules.{hand};

    ghost both = { λ v w. hand (v.parts + w.parts) v.brought v.held };

    ghost spent = { hand 0 [] [] };
}

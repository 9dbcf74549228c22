//! Players that found nothing to do.
ghost use Rattle.std.specs.Prelude.{◌≡◌};
ghost use Rattle.kms_players.specs.PlayerTurns.{told_at};

use kms_pool::Turn;

/// The answer of a worker or a vblank player that found nothing to do in a history of some length: it has ended where
/// the history is drained.
pub(crate) fn rest(length: u64, drained: bool) -> Turn
    ensures { result ≡ told_at length drained }
{
    if drained {
        Turn::Ended
    } else {
        Turn::NotYet { length }
    }
}

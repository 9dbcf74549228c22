//! How large the numbers of a history become, and how much of a commit is left to do.
ghost use Rattle.kms_laws.specs.Blankings.{CountsAreBlankings};
ghost use Rattle.kms_laws.specs.Numbers.{AllNumbersFit};
ghost use Rattle.kms_laws.specs.TailsLeft.{AllTailsGetShorter, CleanedTailsAreOver, TailsAreShort, TailsGetShorter};

/// The numbers of each history fit their types: there are at most 65536 commits, tickets, accepted commands and replies; ids
/// are at most 1000 + 4 * 65536; a CRTC's count is at most the number of steps, so it fits where that does; and a client
/// has at most 128 events that are reserved or unread.
pub fn numbers_fit_their_types()
    ensures { AllNumbersFit }
{}

/// After each history the count of each CRTC is the number of its vblanks in the history.
pub fn counts_are_blankings()
    ensures { CountsAreBlankings }
{}

/// At most 31 steps are left of the tail of a commit: a claim, 20 writes, 4 flushes, an hw_done, 4 latches and a cleanup.
pub fn tails_are_short()
    ensures { TailsAreShort }
{}

/// A step of a commit's tail, or the vblank of a CRTC that has GO for the commit, leaves fewer steps of that
/// tail to do, and no step makes more of any tail of a commit that is there.
pub fn tails_get_shorter()
    ensures { TailsGetShorter }
{}

/// Of what is left of all tails each step of a tail, and each vblank of a CRTC that has GO, leaves less; a swap
/// makes at most 31 steps more, and no other step makes more. Nothing is left of a commit that is cleaned.
pub fn all_tails_get_shorter()
    ensures all { AllTailsGetShorter }
    ensures cleaned { CleanedTailsAreOver }
{}

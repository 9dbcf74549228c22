//! How the order of one thread ends.
ghost use Rattle.kms_laws.specs.Ends.{
  FinishedIsOne,
  FinishedIsOver,
  GeneratedDrains,
  GeneratedNeverDead,
  MovesAreFew,
  OneIsOver,
  RoundsAreStill,
  RoundsEnd,
};

/// A round behind a history has no step exactly where the history is drained or dead.
pub fn rounds_are_still_at_ends()
    ensures { RoundsAreStill }
{}

/// Whatever the order of steps, no history has 2^53 steps but for vblanks without GO. So contexts do not back
/// off for ever.
pub fn histories_have_few_moves()
    ensures { MovesAreFew }
{}

/// Rounds end: behind each history, after 2^53 - 1 rounds, or any more, the next has no step.
pub fn rounds_end()
    ensures { RoundsEnd }
{}

/// A history that is continued to its end by rounds, and by `stall` where it is dead, is a history, and it is drained or
/// dead.
pub fn finished_histories_are_over()
    ensures { FinishedIsOver }
{}

/// A history is continued to its end in one way alone; so there is one history that one thread makes of a script.
pub fn histories_are_finished_once()
    ensures { FinishedIsOne }
{}

/// The history that one thread makes of a script is a history of the script, and it is drained or dead.
pub fn one_is_over()
    ensures { OneIsOver }
{}

/// No history of a generated script is dead: it has no `fence` command.
pub fn generated_scripts_never_stall()
    ensures { GeneratedNeverDead }
{}

/// The history that one thread makes of a generated script is drained.
pub fn generated_scripts_drain()
    ensures { GeneratedDrains }
{}

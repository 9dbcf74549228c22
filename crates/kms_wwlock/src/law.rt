//! That contexts never wait in a circle.
ghost use Rattle.kms_wwlock.specs.Waits.{NoCycleOfContexts, BackedOffHoldsNothing, HoldersAreOpen};

/// No list of calls leads to a cycle of waits. Context x waits for context y where x may take locks and is
/// told of some object that the younger y holds it, or where x has backed off and is told that y holds its
/// object.
///
/// Nor does any list of calls lead to a context that has backed off and holds an object, or to an object that
/// a context holds which is over.
pub fn no_cycle_of_waits()
    ensures no_cycle { NoCycleOfContexts }
    ensures backed_off_holds_nothing { BackedOffHoldsNothing }
    ensures holders_are_open { HoldersAreOpen }
{}

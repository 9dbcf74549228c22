//! Walks by seed, each on a machine of four clients, which a second machine does again.
use crate::crowds::crowd;
use crate::following::holds;
use crate::kinds::{BUT_STALL, STALL, kinds_in};
use crate::walks::{Walk, catch_up, end, go_on, walk_of};
use kms_core::Core;
use kms_course::start_machine;
use std::alloc::Global;
use std::test::Fail;

/// How far a walk goes.
#[derive(Clone, Copy)]
enum Way {
    /// 2,000 steps of one history.
    Far,
    /// Until nothing moves any more.
    ToTheEnd,
}

/// Walks on, and after every fiftieth step a second machine does the same.
fn go_far(core: &mut Core, again: &mut Core, alloc: Global, walk: &mut Walk) -> Result<(), Fail> {
    for _part in 0..40 {
        holds(go_on(core, alloc, walk, 50)?, "something moves")?;
        catch_up(core, again, alloc, walk)?;
    }
    holds(core.history().len() == 2000, "it is one history")
}

/// In a walk each kind of step is done, but for the end of a dead history, and each kind is refused.
fn go_all_ways(
    core: &mut Core,
    again: &mut Core,
    alloc: Global,
    walk: &mut Walk,
) -> Result<(), Fail> {
    go_far(core, again, alloc, walk)?;
    let done = kinds_in(core.history());
    holds(done == BUT_STALL, "each kind of step is done")?;
    let refused = walk.refused;
    holds(refused == BUT_STALL | STALL, "each kind is refused")
}

/// Walks until nothing moves any more, and does the same on a second machine.
fn go_to_the_end(
    core: &mut Core,
    again: &mut Core,
    alloc: Global,
    walk: &mut Walk,
) -> Result<(), Fail> {
    holds(!go_on(core, alloc, walk, 10000)?, "it comes to its end")?;
    end(core, alloc, walk)?;
    catch_up(core, again, alloc, walk)
}

/// A walk on both machines.
fn walk_both(
    core: &mut Core,
    again: &mut Core,
    alloc: Global,
    seed: u64,
    way: Way,
) -> Result<(), Fail> {
    let mut walk = walk_of(alloc, seed)?;
    match way {
        Way::Far => go_all_ways(core, again, alloc, &mut walk),
        Way::ToTheEnd => go_to_the_end(core, again, alloc, &mut walk),
    }
}

/// The same on one machine of a script, and on a second one. (A function owns one machine, since it drops it at each of its
/// ends.)
fn walk_beside(
    core: &mut Core,
    alloc: Global,
    text: &str,
    seed: u64,
    way: Way,
) -> Result<(), Fail> {
    let mut again = start_machine(alloc, text)?;
    walk_both(core, &mut again, alloc, seed, way)
}

/// The walk of a seed on machines of a script. It gives whether the history was ended as dead.
fn walk(alloc: Global, text: &str, seed: u64, way: Way) -> Result<bool, Fail> {
    let mut core = start_machine(alloc, text)?;
    walk_beside(&mut core, alloc, text, seed, way)?;
    Ok(core.is_stalled())
}

/// The walk of a seed over so many rounds of each client. `after` is what a client does with the fence that its commit waits
/// for: where nobody signals it, the history is dead.
fn walks(
    rt: &impl AllocGlobal,
    rounds: &str,
    after: &str,
    seed: u64,
    way: Way,
    is_dead: bool,
) -> Result<(), Fail> {
    let text = crowd(rt.alloc(), rounds, after)?;
    let was_dead = walk(rt.alloc(), text.as_str(), seed, way)?;
    holds(was_dead == is_dead, after)
}

#[test]
fn a_walk_can_be_done_again(rt: HostRuntime) -> Result<(), Fail> {
    walks(&rt, "abcde", "signal", 1, Way::Far, false)
}

#[test]
fn another_walk_can_be_done_again(rt: HostRuntime) -> Result<(), Fail> {
    walks(&rt, "abcde", "signal", 2, Way::Far, false)
}

#[test]
fn a_walk_drains(rt: HostRuntime) -> Result<(), Fail> {
    walks(&rt, "a", "signal", 3, Way::ToTheEnd, false)
}

#[test]
fn a_walk_stalls(rt: HostRuntime) -> Result<(), Fail> {
    walks(&rt, "a", "destroy", 4, Way::ToTheEnd, true)
}

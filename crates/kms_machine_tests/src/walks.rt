//! Random walks on a machine, which a second machine does again.
use crate::asking::{Commits, ask_all, objects};
use crate::dice::Dice;
use crate::following::holds;
use crate::turns::is_in_order;
use kms_core::Core;
use kms_course::{Object, do_step, goes, looks_same, tells_same};
use kms_model::{NoMemory, Step};
use kms_one_thread::replay;
use std::alloc::Global;
use std::test::Fail;

/// A walk: what chooses its steps, and what it met so far.
#[derive(Drop)]
pub(crate) struct Walk {
    dice: Dice,
    objects: Vec<Object>,
    commits: Commits,
    /// The steps that were legal when they were asked for last, of those of each kind.
    legal: Vec<Step>,
    /// The kinds of steps of which some was not legal when it was asked for.
    pub(crate) refused: u32,
}

/// The walk of a seed before its first step.
pub(crate) fn walk_of(alloc: Global, seed: u64) -> Result<Walk, NoMemory> {
    Ok(Walk {
        dice: Dice { state: seed },
        objects: objects(alloc)?,
        commits: Commits {
            count: 0,
            first: 0,
            cleaned: Vec::new(alloc),
        },
        legal: Vec::new(alloc),
        refused: 0,
    })
}

/// Whether a legal step is other than the end of a history and a vblank of a CRTC that does not go.
fn moves(core: &Core, step: &Step) -> bool {
    match *step {
        Step::Stall => false,
        Step::Vblank { index, .. } => goes(core, index),
        _ => true,
    }
}

/// Whether some legal step is such a step.
fn has_move(core: &Core, legal: &[Step]) -> bool {
    for step in legal {
        if moves(core, step) {
            return true;
        }
    }
    false
}

/// A legal step, by the dice. They are cast once more where nothing moves by it.
fn choose(core: &Core, dice: &mut Dice, legal: &[Step]) -> Option<Step> {
    let step = *legal.get(dice.roll(legal.len()))?;
    if moves(core, &step) {
        return Some(step);
    }
    legal.get(dice.roll(legal.len())).copied()
}

/// Asks which steps are legal next, of those of each kind.
fn ask(core: &Core, alloc: Global, walk: &mut Walk) -> Result<(), NoMemory> {
    let asked = ask_all(core, alloc, &walk.commits, walk.objects.as_slice())?;
    walk.refused |= asked.refused;
    walk.legal = asked.legal;
    Ok(())
}

/// Does a legal step, by the dice. False where nothing moves any more.
fn step_once(core: &mut Core, alloc: Global, walk: &mut Walk) -> Result<bool, Fail> {
    ask(core, alloc, walk)?;
    let is_enabled = has_move(core, walk.legal.as_slice());
    holds(core.enabled() == is_enabled, "it moves by a legal step")?;
    if is_enabled {
        do_one(core, alloc, walk)?;
    }
    Ok(is_enabled)
}

/// Does one of the steps that are legal, by the dice.
fn do_one(core: &mut Core, alloc: Global, walk: &mut Walk) -> Result<(), Fail> {
    let step = choose(core, &mut walk.dice, walk.legal.as_slice()).ok_or("a step is legal")?;
    holds(do_step(core, alloc, &step)?, "it is legal still")?;
    Ok(walk.commits.did(step)?)
}

/// Does so many legal steps, by the dice. False where nothing moves any more before.
pub(crate) fn go_on(
    core: &mut Core,
    alloc: Global,
    walk: &mut Walk,
    steps: usize,
) -> Result<bool, Fail> {
    for _step in 0..steps {
        if core.history().len() % 4 == 0 {
            let is = is_in_order(core, &walk.commits, walk.objects.as_slice());
            holds(is, "the next steps are told in order")?;
        }
        if !step_once(core, alloc, walk)? {
            return Ok(false);
        }
    }
    Ok(true)
}

/// Checks that a history in which nothing moves is drained, or is dead for a fence, and then ends it.
pub(crate) fn end(core: &mut Core, alloc: Global, walk: &mut Walk) -> Result<(), Fail> {
    let is_drained = core.drained();
    let is_dead = core.legal(&Step::Stall) && core.stalled_on().is_some();
    holds(is_dead != is_drained, "it is drained or dead")?;
    if is_drained {
        return holds(!core.legal(&Step::Stall), "it has its end");
    }
    holds(do_step(core, alloc, &Step::Stall)?, "it is ended")?;
    ask(core, alloc, walk)?;
    let is_over = walk.legal.is_empty() && !core.enabled();
    holds(is_over, "nothing is legal")
}

/// Whether two machines allow the same of all steps that are asked for.
fn allow_the_same(core: &Core, again: &Core, alloc: Global, walk: &Walk) -> Result<bool, NoMemory> {
    let objects = walk.objects.as_slice();
    let one = ask_all(core, alloc, &walk.commits, objects)?;
    let other = ask_all(again, alloc, &walk.commits, objects)?;
    Ok(one.legal == other.legal && one.refused == other.refused)
}

/// Does the steps on a second machine that it did not do yet. Then both answer each question in the same way.
pub(crate) fn catch_up(
    core: &Core,
    again: &mut Core,
    alloc: Global,
    walk: &Walk,
) -> Result<(), Fail> {
    let done = again.history().len();
    let steps = core.history().get(done..).ok_or("it is behind")?;
    holds(
        replay(alloc, again, steps).is_ok(),
        "its steps are done again",
    )?;
    holds(tells_same(core, again), "both tell the same")?;
    let looks = looks_same(core, again, alloc)?;
    holds(looks, "labels name the same on both")?;
    holds(
        allow_the_same(core, again, alloc, walk)?,
        "both allow the same",
    )
}

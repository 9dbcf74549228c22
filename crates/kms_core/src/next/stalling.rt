//! Dead histories: their end, and the fence that they wait for.
ghost use Rattle.std.specs.Prelude.{◌≡◌, ◌<◌, ◌∷◌, [], find, length};
ghost use Rattle.kms_model.specs.declared.replies.Step.TheVariants as step;
ghost use Rattle.kms_model.specs.Device.World.{thing_with_id};
ghost use Rattle.kms_model.specs.Firsts.{first_some};
ghost use Rattle.kms_model.specs.Machine.Histories.{awaited_by, commit_numbers, is_awaited, label_of_thing, stalled_on};
ghost use Rattle.kms_track.specs.Tails.{fence_ids};
ghost use Rattle.kms_core.specs.Next.{IsLegal, if_awaited};
ghost use Rattle.kms_core.specs.Run.{machine, gains, if_ok};

use crate::machine::Core;
use crate::stores::make_step_room;
use kms_model::{Content, NoMemory, Step};

impl Core {
    /// Ends a history that is dead: no step is legal any more. Want of memory leaves all as it was.
    pub fn stall(&mut self) -> Result<(), NoMemory>
        requires { IsLegal self.old step.Stall }
        ensures history { self.new ≡ gains self.old (if_ok result (λ u. step.Stall ∷ [])) }
    {
        let stores = &mut *self.stores;
        make_step_room(&mut stores.steps, &stores.tracker)?;
        stores.stalled = true;
        stores.steps.push(Step::Stall);
        Ok(())
    }

    /// The label, by its number from 0, of the fence that a dead history waits for: the first in order of planes, of the
    /// least commit that is not claimed and waits for one that a `fence` made and that is not signalled. None where there
    /// is none, and where the history is not dead.
    pub fn stalled_on(&self) -> Option<u32>
        ensures { result ≡ stalled_on self.now.script (machine self.now) }
    {
        if !self.is_dead() {
            return None;
        }
        match awaited_fence(self) {
            Some(fence) => label_of(self, fence),
            None => None,
        }
    }
}

/// The label of the thing with an id.
fn label_of(core: &Core, id: u32) -> Option<u32>
    ensures { result ≡ label_of_thing
        (thing_with_id (machine core.now).device.world.things id) }
{
    let stores = &*core.stores;
    Some(stores.things.with_id(id)?.label)
}

/// The first such fence of the least commit that has one.
fn awaited_fence(core: &Core) -> Option<u32>
    ensures { result ≡ first_some (awaited_by core.now.script.topology (machine core.now))
        (commit_numbers (machine core.now)) }
{
    let stores = &*core.stores;
    let mut from = 0;
    'seeking: while let Some(commit) = stores.tracker.first_from(from) {
        if let Some(fence) = fence_awaited_by(core, commit) {
            return Some(fence);
        }
        from = commit + 1;
    }
    None
}

/// The first such fence that a commit, which is not claimed, waits for.
fn fence_awaited_by(core: &Core, commit: u32) -> Option<u32>
    requires { commit < length (machine core.now).device.commits }
    ensures { result ≡ awaited_by core.now.script.topology (machine core.now) commit }
{
    let stores = &*core.stores;
    match stores.tracker.get(commit) {
        Some(tail) if !tail.progress.claimed => first_awaited(core, &tail.in_fences),
        _ => None,
    }
}

/// The first fence, of those at their places, that a `fence` made and that is not signalled.
fn first_awaited(core: &Core, fences: &[Option<u32>; 16]) -> Option<u32>
    ensures { result ≡ find (is_awaited (machine core.now)) (fence_ids fences.now) }
{
    for fence in fences {
        if let Some(id) = keep_if_awaited(core, *fence) {
            return Some(id);
        }
    }
    None
}

/// A fence, if any, that a `fence` made and that is not signalled.
fn keep_if_awaited(core: &Core, fence: Option<u32>) -> Option<u32>
    ensures { result ≡ if_awaited (machine core.now) fence }
{
    match fence {
        Some(id) if is_awaited(core, id) => Some(id),
        _ => None,
    }
}

/// Whether a `fence` made the fence with an id, and it is not signalled.
fn is_awaited(core: &Core, fence: u32) -> bool
    ensures { result ≡ is_awaited (machine core.now) fence }
{
    let stores = &*core.stores;
    let Some(thing) = stores.things.with_id(fence) else {
        return false;
    };
    matches!(thing.content, Content::Fence) && !stores.fences.is_signalled(fence)
}

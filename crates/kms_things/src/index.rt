//! Things in order of making, with an index of their labels.
ghost use Rattle.std.specs.Prelude.{◌≡◌, ◌<◌, ◌≤◌, ◌+◌, ℕ, [], ◌∷◌, ◌++◌, List, Some, length, nat_eq, option_copied, vec_len, vec_capacity, if◌then◌else◌};
ghost use Rattle.std.specs.HashMap.{spare};
ghost use Rattle.kms_model.specs.Device.World.{thing_labelled, thing_with_id};
ghost use Rattle.kms_model.specs.Device.Closing.{closed_in};
ghost use Rattle.kms_model.specs.Firsts.{or_else};
ghost use Rattle.kms_model.specs.Device.Sound.{AreNumbered};
ghost use Rattle.kms_model.specs.declared.things.Buffer.{Buffer};
ghost use Rattle.kms_model.specs.declared.things.Framebuffer.{Framebuffer};
ghost use Rattle.kms_model.specs.declared.tables.Slot.{Slot};
ghost use Rattle.kms_model.specs.declared.worlds.World.{World};
ghost use Rattle.kms_things.specs.Index.{AreKept, AreReferred, IsIndex, id_under, open_thing};
ghost use Rattle.kms_things.specs.OutFences.{fences_made};
ghost use Rattle.kms_model.specs.Device.Execution.{make_out_fence};

use kms_model::{Content, FIRST_THING_ID, Thing};
use std::collections::HashMap;

/// The thing with an id.
pub fn thing_with_id(things: &[Thing], id: u32) -> Option<&Thing>
    requires { AreNumbered 1000 things.now }
    ensures { option_copied result ≡ thing_with_id things.now id }
{
    if id < FIRST_THING_ID {
        return None;
    }
    things.get((id - FIRST_THING_ID) as usize)
}

/// The thing that was made under a label, by its number from 0. The index has the id of each label.
pub fn thing_labelled<'a>(
    things: &'a [Thing],
    ids: &HashMap<u32, u32>,
    label: u32,
) -> Option<&'a Thing>
    requires numbered { AreNumbered 1000 things.now }
    requires indexed { IsIndex ids.now things.now }
    ensures { option_copied result ≡ thing_labelled things.now label }
{
    match ids.get(&label) {
        Some(id) => thing_with_id(things, *id),
        None => None,
    }
}

/// Keeps the id of a label that has none yet.
fn note(ids: &mut HashMap<u32, u32>, label: u32, id: u32)
    requires { 0 < spare ids.old }
    ensures noted { (q : ℕ) → id_under ids.new q
        ≡ or_else (id_under ids.old q) (if nat_eq label q then Some id else None) }
    ensures spare { spare ids.old ≤ spare ids.new + 1 }
{
    if ids.contains_key(&label) {
        return;
    }
    let _ = ids.insert(label, id);
}

/// Puts an open thing behind the others, with its label, by its number from 0, its id and its client, by its number
/// from 1, where there is room for it.
pub fn put(
    things: &mut Vec<Thing>,
    ids: &mut HashMap<u32, u32>,
    label: u32,
    id: u32,
    owner: u32,
    content: Content,
)
    requires room { vec_len things.old < vec_capacity things.old }
    requires spare { 0 < spare ids.old }
    requires indexed { IsIndex ids.old things.old.items }
    ensures things { things.new.items
        ≡ things.old.items ++ open_thing label id owner content ∷ [] }
    ensures indexed { IsIndex ids.new things.new.items }
    ensures length { vec_len things.new ≡ vec_len things.old + 1 }
    ensures capacity { vec_capacity things.old ≤ vec_capacity things.new }
    ensures spare { spare ids.old ≤ spare ids.new + 1 }
{
    note(ids, label, id);
    let _ = things.push(Thing {
        label,
        id,
        owner,
        content,
        is_open: true,
    });
}

/// Closes the thing with an id.
pub fn close(things: &mut Vec<Thing>, id: u32)
    requires { AreNumbered 1000 things.old.items }
    ensures { things.new.items ≡ closed_in things.old.items id }
{
    if id < FIRST_THING_ID {
        return;
    }
    if let Some(thing) = things.get_mut((id - FIRST_THING_ID) as usize) {
        thing.is_open = false;
    }
}

/// Makes a client's out-fence with the next id under the label that is asked for, if any, where there is room for it.
/// Gives the id of the next thing.
fn put_fence(
    things: &mut Vec<Thing>,
    ids: &mut HashMap<u32, u32>,
    client: u32,
    next: u32,
    label: Option<u32>,
) -> u32
    requires small { next < 4294967290 }
    requires room { vec_len things.old < vec_capacity things.old }
    requires spare { 0 < spare ids.old }
    requires indexed { IsIndex ids.old things.old.items }
    ensures made { (w : World) → w.things ≡ things.old.items → w.next_id ≡ next
        → make_out_fence client w label ≡ record w { things = things.new.items; next_id = result } }
    ensures kept { (buffers : List (Slot Buffer)) → AreKept things.old.items next ids.old buffers
        → AreKept things.new.items result ids.new buffers }
    ensures referred { (fbs : List (Slot Framebuffer)) → AreReferred things.old.items next fbs
        → AreReferred things.new.items result fbs }
    ensures indexed { IsIndex ids.new things.new.items }
    ensures length { vec_len things.new ≤ vec_len things.old + 1 }
    ensures capacity { vec_capacity things.old ≤ vec_capacity things.new }
    ensures spare { spare ids.old ≤ spare ids.new + 1 }
    ensures next { result ≤ next + 1 }
{
    let Some(label) = label else {
        return next;
    };
    put(things, ids, label, next, client, Content::OutFence);
    next + 1
}

/// Makes the out-fences of a client, by its number from 1, with the next ids, of which the first is given, under the
/// labels that are asked for, by their numbers from 0, in order, where there is room for them. Gives the id of the next
/// thing.
pub fn put_fences(
    things: &mut Vec<Thing>,
    ids: &mut HashMap<u32, u32>,
    client: u32,
    first: u32,
    labels: &[Option<u32>],
) -> u32
    requires few { length labels.now ≤ 4 }
    requires ids { first ≤ 4294967000 }
    requires room { vec_len things.old + length labels.now ≤ vec_capacity things.old }
    requires spare { length labels.now ≤ spare ids.old }
    requires indexed { IsIndex ids.old things.old.items }
    ensures made { (w : World) → w.things ≡ things.old.items → w.next_id ≡ first
        → fences_made client w labels.now
        ≡ record w { things = things.new.items; next_id = result } }
    ensures kept { (buffers : List (Slot Buffer)) → AreKept things.old.items first ids.old buffers
        → AreKept things.new.items result ids.new buffers }
    ensures referred { (fbs : List (Slot Framebuffer)) → AreReferred things.old.items first fbs
        → AreReferred things.new.items result fbs }
{
    let mut next = first;
    for label in labels {
        next = put_fence(things, ids, client, next, *label);
    }
    next
}

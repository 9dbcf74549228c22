//! What a commit leaves in the stores.
ghost use Rattle.std.specs.Prelude.{ℕ, ◌≡◌, ◌<◌, ◌≤◌, ◌+◌, ◌*◌, ◌++◌, List, [], ◌∷◌, length, map, IfOk, IsSome, OnErr, OnOk, Some, true, false};
ghost use Rattle.kms_model.specs.declared.replies.Reply.TheVariants as reply;
ghost use Rattle.kms_model.specs.declared.replies.Step.TheVariants as step;
ghost use Rattle.kms_model.specs.declared.scripts.Assign.{Assign};
ghost use Rattle.kms_model.specs.declared.scripts.Request.{Request};
ghost use Rattle.kms_model.specs.declared.worlds.World.{World};
ghost use Rattle.kms_model.specs.Device.Execution.{make_out_fences};
ghost use Rattle.kms_model.specs.Device.Serial.{command_of};
ghost use Rattle.kms_model.specs.Machine.State.{Machine, request_in};
ghost use Rattle.kms_model.specs.Request.Flags.{is_nonblock};
ghost use Rattle.kms_model.specs.Request.Touched.{out_fence_label};
ghost use Rattle.kms_model.specs.Things.Tables.{AreBelow};
ghost use Rattle.kms_wwlock.specs.InStep.{AreClientsOf, IsTaking, after_decision, after_swap};
ghost use Rattle.kms_wwlock.specs.Standing.{IsClient, place_of};
ghost use Rattle.kms_signal.specs.Queues.{HasSpace};
ghost use Rattle.kms_things.specs.Made.{HasIds, with_made};
ghost use Rattle.kms_track.specs.Tracking.{IsSetUp};
ghost use Rattle.kms_core.specs.Calls.{answered, joined};
ghost use Rattle.kms_core.specs.Run.{gains, if_ok, machine};
ghost use Rattle.kms_core.specs.Room.{KeepsStored};
ghost use Rattle.kms_core.specs.Swaps.{MayCommit};
ghost use Rattle.kms_core.specs.SwappedIn.{events_asked_for, fences_for, fences_under, id_made_under, label_in, labels_in, next_after, signals_for};

use crate::deciding::present::present_after;
use crate::lists::Log;
use crate::stores::{Stores, answer, count_in, join, make_room, make_spare};
use kms_model::{
    Answered, Checked, FIRST_CRTC_ID, Latch, MAX_CRTCS, NoMemory, ObjId, Reply, Request, Resolved,
    Script, Seq, Step, request_of,
};
use kms_props::{is_nonblock, wants_event};
use kms_signal::{EventQueue, Fences};
use kms_things::Things;
use kms_track::{Signals, Tracker};
use kms_wwlock::Clients;
use std::alloc::Global;

/// Commits the request of a client, by its number from 1, whose swap nothing hinders, and gives the commit's number,
/// counted from 0. What was checked becomes present, the request's out-fences are made, its events are reserved, and its
/// tail is to do. Want of memory leaves all as it was. (Kernel: `drm_atomic_helper_commit`,
/// `drm_atomic_helper_swap_state`.)
pub fn commit(
    stores: &mut Stores,
    alloc: Global,
    client: u32,
    checked: &Checked,
    resolved: &Resolved,
) -> Result<u32, NoMemory>
    requires { MayCommit stores.old client checked.now resolved.now }
    ensures number { IfOk result (λ k. k ≡ length (machine stores.old).device.commits) }
    ensures history { stores.new ≡ gains stores.old (if_ok result (λ k. step.Swap client ∷ [])) }
{
    let events = events_asked_for(resolved.flags, checked.named);
    let labels = out_labels(resolved.out_fences.as_slice());
    make_record_room(
        &mut stores.steps,
        &mut stores.journal,
        &mut stores.replies,
        &mut stores.latches,
        &stores.tracker,
    )?;
    make_tail_room(
        alloc,
        &mut stores.fences,
        &mut stores.queues[(client - 1) as usize],
        &mut stores.tracker,
        events,
    )?;
    let asked = &labels[..stores.script.topology.crtcs as usize];
    make_out_fences(alloc, &mut stores.things, &mut stores.fences, client, asked)?;
    stores.present = present_after(&stores.present, &checked.states);
    reserve_events(alloc, &mut stores.queues[(client - 1) as usize], events);
    let number = stores.clients.place(client).command;
    let out_fences = made_fences(&stores.things, &labels);
    let signals = signals_of(&stores.script, client, number, out_fences);
    let commit = set_up(
        alloc,
        &mut stores.tracker,
        signals,
        checked,
        &resolved.in_fences,
    );
    reply_commit(
        &mut stores.journal,
        &mut stores.replies,
        client,
        number,
        commit,
    );
    leave(&mut stores.clients, client, resolved.flags, commit);
    stores.steps.push(Step::Swap { client });
    Ok(commit)
}

/// The id of the thing that was made under a label, where there is one.
fn made_fence(things: &Things, label: Option<u32>) -> Option<u32>
    ensures { result ≡ id_made_under things.now.things label }
{
    Some(things.thing_labelled(label?)?.id)
}

/// The ids of the out-fences that were made under labels, by place. (Kernel: "Explicit Fencing Properties",
/// `OUT_FENCE_PTR`.)
fn made_fences(things: &Things, labels: &[Option<u32>; 4]) -> [Option<u32>; 4]
    ensures { result ≡ fences_under things.now.things labels.now }
{
    [
        made_fence(things, labels[0]),
        made_fence(things, labels[1]),
        made_fence(things, labels[2]),
        made_fence(things, labels[3]),
    ]
}

/// What the commit of the request that is a client's command with a number signals, with the ids of the fences that it made
/// for its CRTCs, by index. (Kernel: `prepare_signaling`.)
fn signals_of(script: &Script, client: u32, number: u32, out_fences: [Option<u32>; 4]) -> Signals
    requires { IsSome (request_in
        (command_of script.now (record { client = client; command = number }))) }
    ensures { (r : Request)
        → request_in (command_of script.now (record { client = client; command = number })) ≡ Some r
        → result ≡ signals_for client r out_fences }
{
    let Some(request) = request_of(script, client, number) else {
        unreachable!();
    };
    Signals {
        client,
        user_data: request.user_data,
        wants_event: wants_event(request.flags),
        out_fences,
    }
}

/// The label that is asked for at a CRTC, given by its id, where there is one.
fn label_at(asked: &[(ObjId, u32)], crtc: u32) -> Option<u32>
    ensures { result ≡ label_in asked.now crtc }
{
    for (object, label) in asked {
        if object.0 == crtc {
            return Some(*label);
        }
    }
    None
}

/// The labels of the out-fences that are asked for, one place for each CRTC, in order. (Kernel: "Explicit Fencing
/// Properties", `OUT_FENCE_PTR`.)
fn out_labels(asked: &[(ObjId, u32)]) -> [Option<u32>; 4]
    ensures { result ≡ labels_in asked.now }
{
    [
        label_at(asked, FIRST_CRTC_ID),
        label_at(asked, FIRST_CRTC_ID + 1),
        label_at(asked, FIRST_CRTC_ID + 2),
        label_at(asked, FIRST_CRTC_ID + 3),
    ]
}

/// Makes the fence of an out-fence with the next id, for which there is room, where one is asked for. Gives the id of the
/// next thing.
fn make_one(alloc: Global, fences: &mut Fences, next: u32, label: Option<u32>) -> u32
    requires below { AreBelow next fences.old.slots }
    requires room { 0 < fences.old.room }
    requires small { next < 4294967295 }
    ensures made { fences.new.slots ≡ fences.old.slots ++ fences_for next (label ∷ []) }
    ensures next { result ≡ next_after next label }
    ensures most { result ≤ next + 1 }
    ensures below { AreBelow result fences.new.slots }
    ensures room { fences.old.room ≤ fences.new.room + 1 }
{
    if label.is_none() {
        return next;
    }
    let Ok(()) = fences.make(alloc, next) else {
        unreachable!();
    };
    next + 1
}

/// Makes the fences of a commit's out-fences with the next ids, for which there is room. (Kernel: "DMA Fences",
/// `dma_fence_init`.)
fn make_fences(alloc: Global, fences: &mut Fences, first: u32, labels: &[Option<u32>])
    requires below { AreBelow first fences.old.slots }
    requires few { length labels.now ≤ 4 }
    requires room { length labels.now ≤ fences.old.room }
    requires small { first < 4294967000 }
    ensures { fences.new.slots ≡ fences.old.slots ++ fences_for first labels.now }
{
    let mut next = first;
    for label in labels {
        next = make_one(alloc, fences, next, *label);
    }
}

/// Makes a client's out-fences with the next ids under the labels that its request asks for, one place for each CRTC of the
/// device, in order. There is room for the fences. Want of memory leaves all as it was. (Kernel: "Explicit Fencing
/// Properties", `OUT_FENCE_PTR`.)
fn make_out_fences(
    alloc: Global,
    things: &mut Things,
    fences: &mut Fences,
    client: u32,
    labels: &[Option<u32>],
) -> Result<(), NoMemory>
    requires few { length labels.now ≤ 4 }
    requires ids { HasIds things.old }
    requires below { AreBelow things.old.next_id fences.old.slots }
    requires room { length labels.now ≤ fences.old.room }
    ensures made { OnOk result ((w : World) (assigns : List Assign) (crtcs : List ℕ)
        → labels.now ≡ map (out_fence_label assigns) crtcs
        → make_out_fences client assigns (with_made w things.old) crtcs ≡ with_made w things.new) }
    ensures counted { things.new.fbs ≡ things.old.fbs }
    ensures fences { OnOk result (fences.new.slots
        ≡ fences.old.slots ++ fences_for things.old.next_id labels.now) }
    ensures same_things { OnErr result (things.new ≡ things.old) }
    ensures same_fences { OnErr result (fences.new ≡ fences.old) }
{
    let first = things.next_id();
    things.make_out_fences(client, labels)?;
    make_fences(alloc, fences, first, labels);
    Ok(())
}

/// Replies to a client that its command with a number became a commit, and puts the command into the journal.
fn reply_commit(
    journal: &mut Log<(u32, u32)>,
    replies: &mut Log<Answered>,
    client: u32,
    command: u32,
    commit: u32,
)
    requires journal { 0 < journal.old.room }
    requires replies { 0 < replies.old.room }
    ensures journal { journal.new.items ≡ joined journal.old.items true client command }
    ensures replies { replies.new.items ≡ replies.old.items
        ++ answered client command (length journal.old.items) (reply.Commit commit) ∷ [] }
{
    let reply = Reply::Commit { commit };
    answer(journal, replies, client, command, reply);
    join(journal, client, command, &reply);
}

/// How many events a request asks for: one for each CRTC that it names, or none.
fn events_asked_for(flags: u32, named: u32) -> u32
    ensures count { result ≡ events_asked_for flags named }
    ensures most { result ≤ 4 }
{
    if wants_event(flags) {
        count_in(named)
    } else {
        0
    }
}

/// Takes memory for what is recorded of a commit, and for the steps and the latches of its tail, beside those that are left
/// of all tails. What is recorded stays.
fn make_record_room(
    steps: &mut Log<Step>,
    journal: &mut Log<(u32, u32)>,
    replies: &mut Log<Answered>,
    latches: &mut Log<Latch>,
    tracker: &Tracker,
) -> Result<(), NoMemory>
    ensures steps { steps.new.items ≡ steps.old.items }
    ensures journal { journal.new.items ≡ journal.old.items }
    ensures replies { replies.new.items ≡ replies.old.items }
    ensures latches { latches.new.items ≡ latches.old.items }
    ensures steps_kept { steps.old.room ≤ steps.new.room }
    ensures latches_kept { latches.old.room ≤ latches.new.room }
    ensures journal_room { OnOk result (0 < journal.new.room) }
    ensures replies_room { OnOk result (0 < replies.new.room) }
    ensures steps_room { OnOk result (31 * length tracker.now.tails.slots + 32 ≤ steps.new.room) }
    ensures latches_room { OnOk result (31 * length tracker.now.tails.slots + 31 ≤ latches.new.room) }
{
    make_room(steps, journal, replies, tracker)?;
    make_spare(steps, latches, tracker)
}

/// Takes memory for the fences of a commit, for so many events, and for its tail. What is stored stays.
fn make_tail_room(
    alloc: Global,
    fences: &mut Fences,
    queue: &mut EventQueue,
    tracker: &mut Tracker,
    events: u32,
) -> Result<(), NoMemory>
    ensures kept { KeepsStored fences.old fences.new queue.old queue.new
        tracker.old tracker.new }
    ensures fences_room { OnOk result (4 ≤ fences.new.room) }
    ensures events_room { OnOk result (events ≤ queue.new.room) }
    ensures commit_room { OnOk result (0 < tracker.new.tails.room) }
{
    fences.make_room(alloc, MAX_CRTCS)?;
    queue.make_room(alloc, events)?;
    tracker.make_room(alloc)
}

/// Reserves events, for which there are space and room. (Kernel: `drm_event_reserve_init`.)
fn reserve_events(alloc: Global, queue: &mut EventQueue, events: u32)
    requires space { HasSpace queue.old events }
    requires room { events ≤ queue.old.room }
    ensures reserved { queue.new.reserved ≡ queue.old.reserved + events }
    ensures unread { queue.new.unread ≡ queue.old.unread }
{
    let Ok(()) = queue.reserve(alloc, events) else {
        unreachable!();
    };
}

/// Sets a commit up, for which there is room, and gives its number. (Kernel: `drm_atomic_helper_setup_commit`,
/// `drm_atomic_helper_swap_state`.)
fn set_up(
    alloc: Global,
    tracker: &mut Tracker,
    signals: Signals,
    checked: &Checked,
    in_fences: &Seq<(ObjId, u32)>,
) -> u32
    requires count { tracker.old.count < 4294967295 }
    requires fences { length in_fences.now ≤ 16 }
    requires room { 0 < tracker.old.tails.room }
    ensures number { result ≡ tracker.old.count }
    ensures set_up { IsSetUp tracker.old tracker.new signals checked.now
        (map (λ f. f.1) in_fences.now) }
{
    let Ok(commit) = tracker.setup_for(alloc, signals, checked, in_fences) else {
        unreachable!();
    };
    commit
}

/// A client whose request is committed drops its locks, and goes on, or waits for the commit. (Kernel:
/// `drm_atomic_helper_commit`.)
fn leave(clients: &mut Clients, client: u32, flags: u32, commit: u32)
    requires client { IsClient client }
    requires taking { IsTaking (place_of clients.old client).doing }
    requires command { (place_of clients.old client).command < 4294967295 }
    ensures goes { is_nonblock flags ≡ true → (m : Machine) → AreClientsOf m.contexts clients.old
        → AreClientsOf (after_decision m client) clients.new }
    ensures waits { is_nonblock flags ≡ false → (m : Machine) → AreClientsOf m.contexts clients.old
        → AreClientsOf (after_swap m client commit) clients.new }
{
    if is_nonblock(flags) {
        clients.decide(client);
    } else {
        clients.wait_for(client, commit);
    }
}

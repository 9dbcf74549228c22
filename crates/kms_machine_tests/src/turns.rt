//! The next steps in the order of one thread, beside the steps that are legal.
use crate::asking::Commits;
use kms_core::Core;
use kms_course::{Object, crtc, flush, goes, lock, next_of, vblank, write};
use kms_model::Step;

/// The steps of a client but for its locks and its return, as they come in one thread.
fn decisions(client: u32) -> [Step; 9] {
    [
        Step::Refuse { client },
        Step::Test { client },
        Step::Swap { client },
        Step::Begin { client },
        Step::Make { client },
        Step::Signal { client },
        Step::Read { client },
        Step::BackOff { client },
        Step::Relock { client },
    ]
}

/// The first of some steps that is legal.
fn first_legal(core: &Core, steps: &[Step]) -> Option<Step> {
    for step in steps {
        if core.legal(step) {
            return Some(*step);
        }
    }
    None
}

/// The first step of a commit that is legal, of those with these objects.
fn first_of_tail(core: &Core, commit: u32, objects: &[Object]) -> Option<Step> {
    let claim = Step::Claim { commit };
    if core.legal(&claim) {
        return Some(claim);
    }
    for object in objects {
        if core.legal(&write(commit, *object)) {
            return Some(write(commit, *object));
        }
    }
    for object in objects {
        if core.legal(&flush(commit, *object)) {
            return Some(flush(commit, *object));
        }
    }
    first_legal(core, &[Step::HwDone { commit }, Step::Cleanup { commit }])
}

/// The first step of a tail that is legal, of these commits, or else the first CRTC that goes.
fn first_of_tails(core: &Core, commits: &Commits, objects: &[Object]) -> Option<Step> {
    for commit in commits.first..commits.count {
        if let Some(step) = first_of_tail(core, commit, objects) {
            return Some(step);
        }
    }
    for index in 0..core.script().topology.crtcs {
        if goes(core, index) {
            return first_legal(core, &[vblank(crtc(index))]);
        }
    }
    None
}

/// Whether a client may ask for some of these objects.
fn locks(core: &Core, client: u32, objects: &[Object]) -> bool {
    for object in objects {
        if core.legal(&lock(client, *object)) {
            return true;
        }
    }
    false
}

/// Whether a client's next step is its decision, or else a lock that is legal, and none where no lock is.
fn is_next(core: &Core, client: u32, objects: &[Object]) -> bool {
    let next = next_of(core, client);
    let decision = first_legal(core, &decisions(client));
    if decision.is_some() {
        return next == decision;
    }
    match next {
        Some(step) => matches!(step, Step::Lock { .. }) && core.legal(&step),
        None => !locks(core, client, objects),
    }
}

/// Whether the machine tells the next steps in the order of one thread, where the device has these objects and there were
/// these commits.
pub(crate) fn is_in_order(core: &Core, commits: &Commits, objects: &[Object]) -> bool {
    // A script has at most 16 clients.
    core.is_a_history();
    for client in 0..core.script().clients.len() as u32 {
        if !is_next(core, client.saturating_add(1), objects) {
            return false;
        }
    }
    core.tail_step() == first_of_tails(core, commits, objects)
}

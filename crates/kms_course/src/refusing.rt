//! Lines of a course on steps that are not legal.
use crate::courses::step_of;
use crate::steps::{crtc, flush, lock, plane, write};
use kms_core::Core;
use kms_model::Step;

/// The steps of a client that is idle at a command.
fn idle_steps(client: u32) -> [Step; 4] {
    [
        Step::Begin { client },
        Step::Make { client },
        Step::Signal { client },
        Step::Read { client },
    ]
}

/// The steps of a context that takes locks, on the device with one CRTC.
fn taking_steps(client: u32) -> [Step; 5] {
    [
        lock(client, crtc(0)),
        lock(client, plane(0)),
        Step::Refuse { client },
        Step::Test { client },
        Step::Swap { client },
    ]
}

/// The steps of a context that met an older one, and of a commit's client.
fn waiting_steps(client: u32) -> [Step; 3] {
    [
        Step::BackOff { client },
        Step::Relock { client },
        Step::Return { client },
    ]
}

/// The steps of a commit's tail, on the device with one CRTC.
fn tail_steps(commit: u32) -> [Step; 5] {
    [
        Step::Claim { commit },
        write(commit, crtc(0)),
        flush(commit, crtc(0)),
        Step::HwDone { commit },
        Step::Cleanup { commit },
    ]
}

/// Whether none of some steps is legal.
fn none_is_legal(core: &Core, steps: &[Step]) -> bool {
    for step in steps {
        if core.legal(step) {
            return false;
        }
    }
    true
}

/// Whether no step of a kind is legal that has a number.
fn is_kind_refused(core: &Core, kind: &str, number: u32) -> bool {
    match kind {
        "idle" => none_is_legal(core, &idle_steps(number)),
        "taking" => none_is_legal(core, &taking_steps(number)),
        "waiting" => none_is_legal(core, &waiting_steps(number)),
        "tail" => none_is_legal(core, &tail_steps(number)),
        _ => false,
    }
}

/// Whether a step is not legal, if it is one.
fn is_step_refused(core: &Core, line: &str) -> bool {
    match step_of(line) {
        Some(step) => !core.legal(&step),
        None => false,
    }
}

/// Whether what a line names is not legal. It has its reason behind a colon.
pub(crate) fn is_refused(core: &Core, line: &str) -> bool {
    let Some((what, _reason)) = line.split_once(": ") else {
        return false;
    };
    match what.split_once(' ') {
        Some(("T", _step)) => is_step_refused(core, what),
        Some((kind, number)) => match number.parse() {
            Ok(number) => is_kind_refused(core, kind, number),
            Err(_) => false,
        },
        None => false,
    }
}

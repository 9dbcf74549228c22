//! The order in which one thread does the steps of a client. It takes no memory.
ghost use Rattle.std.specs.Prelude.{◌≡◌, ◌≤◌, None, Some, false, length};
ghost use Rattle.kms_model.specs.Order.Turns.{client_step};
ghost use Rattle.kms_core.specs.Judging.{request_taken};
ghost use Rattle.kms_core.specs.Run.{machine};

use crate::machine::Core;
use crate::next::client_steps::{
    may_back_off, may_begin, may_make, may_read, may_relock, may_signal,
};
use crate::next::judging::{judge, request_taken};
use crate::next::lacking::lock_step;
use kms_model::{Request, Step};
use kms_props::is_test;

impl Core {
    /// The next step of a client, given by its number from 1 to that of the clients, in the order of one thread: what decides
    /// its request where that is legal, what its command is, or else the next lock that it takes. None where it can do none,
    /// and where the history was ended. The next lock is the first that is legal of the objects that are missing of the first
    /// group that the client does not hold whole: those that the request sets, the CRTCs that it names, and the planes and
    /// connectors of the CRTCs that need a modeset; or else the first legal one of all.
    pub fn client_step(&self, client: u32) -> Option<Step>
        requires low { 1 ≤ client }
        requires high { client ≤ length self.now.script.clients }
        ensures { result ≡ client_step self.now.script (machine self.now) client }
    {
        let stores = &*self.stores;
        if stores.stalled {
            return None;
        }
        match request_taken(self, client) {
            Some(request) => taking_step(self, client, request),
            None => other_step(self, client),
        }
    }
}

/// The next step of a client that takes no locks: what its command is, or what is next of its context.
fn other_step(core: &Core, client: u32) -> Option<Step>
    requires going { (machine core.now).stalled ≡ false }
    requires none { request_taken core.now.script (machine core.now) client ≡ None }
    ensures { result ≡ client_step core.now.script (machine core.now) client }
{
    if may_begin(core, client) {
        Some(Step::Begin { client })
    } else if may_make(core, client) {
        Some(Step::Make { client })
    } else if may_signal(core, client) {
        Some(Step::Signal { client })
    } else if may_read(core, client) {
        Some(Step::Read { client })
    } else if may_back_off(core, client) {
        Some(Step::BackOff { client })
    } else if may_relock(core, client) {
        Some(Step::Relock { client })
    } else {
        None
    }
}

/// The next step of a client that takes locks for a request. The request is judged once.
fn taking_step(core: &Core, client: u32, request: &Request) -> Option<Step>
    requires going { (machine core.now).stalled ≡ false }
    requires taken { Some request.now
        ≡ request_taken core.now.script (machine core.now) client }
    ensures { result ≡ client_step core.now.script (machine core.now) client }
{
    let Some(judged) = judge(core, client, request) else {
        return Some(Step::Refuse { client });
    };
    let is_test = is_test(request.flags);
    if judged.is_refused(is_test) {
        Some(Step::Refuse { client })
    } else if judged.is_accepted(is_test) {
        Some(Step::Test { client })
    } else if judged.is_committed(is_test) {
        Some(Step::Swap { client })
    } else {
        lock_step(core, client, request)
    }
}

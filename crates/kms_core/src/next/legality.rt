//! Which steps are legal next. None of these calls takes memory, and none takes longer for the steps that are over.
ghost use Rattle.std.specs.Prelude.{◌≡◌};
ghost use Rattle.std.specs.List.{list_all};
ghost use Rattle.kms_model.specs.Machine.Histories.{client_numbers, is_at_end, is_dead, is_drained, is_enabled, legal};
ghost use Rattle.kms_model.specs.Machine.Steps.{may};
ghost use Rattle.kms_core.specs.Run.{machine};

use crate::machine::Core;
use crate::next::client_steps::{
    may_back_off, may_begin, may_make, may_read, may_relock, may_return, may_signal,
};
use crate::next::judging::{may_lock, may_refuse, may_swap, may_test};
use crate::next::moving::can_move;
use crate::next::tail_steps::{
    may_be_done, may_blank, may_claim, may_clean_up, may_flush, may_write,
};
use kms_model::Step;

impl Core {
    /// Whether a step is legal next: its conditions hold, and the history was not ended.
    pub fn legal(&self, step: &Step) -> bool
        ensures { result ≡ legal self.now.script (machine self.now) step.now }
    {
        let stores = &*self.stores;
        match *step {
            Step::Stall => !stores.stalled && self.is_dead(),
            _ => !stores.stalled && may(self, step),
        }
    }

    /// Whether a step is legal next, other than the end of a dead history and a vblank of a CRTC that does not
    /// go.
    pub fn enabled(&self) -> bool
        ensures { result ≡ is_enabled self.now.script (machine self.now) }
    {
        let stores = &*self.stores;
        !stores.stalled && can_move(self)
    }

    /// Whether every client is at its end, with no command left, and every commit is cleaned.
    pub fn drained(&self) -> bool
        ensures { result ≡ is_drained self.now.script (machine self.now) }
    {
        let stores = &*self.stores;
        are_at_end(self) && stores.tracker.first_from(0).is_none()
    }

    /// Whether the history is dead: not drained, and no step is legal but vblanks of CRTCs that do not go; also
    /// where it was ended.
    pub fn is_dead(&self) -> bool
        ensures { result ≡ is_dead self.now.script (machine self.now) }
    {
        let stores = &*self.stores;
        stores.stalled || (!self.drained() && !self.enabled())
    }
}

/// Whether every client is at its end.
fn are_at_end(core: &Core) -> bool
    ensures { result ≡ list_all (is_at_end core.now.script (machine core.now))
        (client_numbers core.now.script) }
{
    core.is_a_history();
    for client in 0..core.script().clients.len() as u32 {
        if !core.is_at_end(client + 1) {
            return false;
        }
    }
    true
}

/// Whether a step is legal while the history goes on; its end is not.
fn may(core: &Core, step: &Step) -> bool
    ensures { result ≡ may core.now.script (machine core.now) step.now }
{
    match *step {
        Step::Begin { client } => may_begin(core, client),
        Step::Lock {
            client,
            kind,
            index,
        } => may_lock(core, client, kind, index),
        Step::BackOff { client } => may_back_off(core, client),
        Step::Relock { client } => may_relock(core, client),
        Step::Refuse { client } => may_refuse(core, client),
        Step::Test { client } => may_test(core, client),
        Step::Swap { client } => may_swap(core, client),
        Step::Make { client } => may_make(core, client),
        Step::Signal { client } => may_signal(core, client),
        Step::Claim { commit } => may_claim(core, commit),
        Step::Write {
            commit,
            kind,
            index,
        } => may_write(core, commit, kind, index),
        Step::Flush {
            commit,
            kind,
            index,
        } => may_flush(core, commit, kind, index),
        Step::HwDone { commit } => may_be_done(core, commit),
        Step::Vblank { kind, index } => may_blank(core, kind, index),
        Step::Cleanup { commit } => may_clean_up(core, commit),
        Step::Read { client } => may_read(core, client),
        Step::Return { client } => may_return(core, client),
        Step::Stall => false,
    }
}

//! The parts of an attempt, by where the client stands.
ghost use Rattle.std.specs.Prelude.{◌≡◌, Some, None, IfOk, IfSome, OnErr, is_some, true, false};
ghost use Rattle.kms_model.specs.declared.runs.Doing.TheVariants as doing;
ghost use Rattle.kms_model.specs.Machine.State.{doing_at, request_at};
ghost use Rattle.kms_model.specs.Request.Flags.{is_test};
ghost use Rattle.kms_check.specs.Moves.{AcceptedAs, AsksFor, RefusedBy};
ghost use Rattle.kms_core.specs.Run.{machine};
ghost use Rattle.kms_device.specs.Attempts.{MayAttempt, Serves, StandsAt, gives_reply, taken_in};
ghost use Rattle.kms_device.specs.Trying.{Concludes, IsReady, IsToldOrKnown, LooksInVain, StandsAfter, TakesLocksFor, Tried, Works, attempted_of, doing_of, kept_in, kept_of, place_behind};
ghost use Rattle.kms_device.specs.Turns.{run_seen};

use crate::attempt::{Attempt, Attempted, Findings};
use crate::decisions::Accepted;
use crate::device::Device;
use crate::kernel::Pass;
use kms_check::{Move, have_places, next_move};
use kms_core::{Decided, Locked};
use kms_io::{Gate, Point};
use kms_model::{
    Doing, Duplicates, Lookups, NoMemory, ObjId, ObjState, Place, Refusal, Request, Ticket,
    request_of,
};
use kms_props::is_test;
use kms_state::Duplicating;
use std::alloc::Global;
use std::sync::Wait;

impl Device {
    /// The step that comes next by where the client stands. `work` has what is kept then, and where it stands, unless that is not known.
    pub(crate) fn try_step<W: Wait, G: Gate>(
        &self,
        rt: &W,
        alloc: Global,
        pass: &mut Pass,
        client: u32,
        gate: &G,
        work: &mut Attempt,
    ) -> Result<Attempted, NoMemory>
        requires own { pass.old.lock ≡ self.now.lock }
        requires whose { pass.old.rank ≡ client }
        requires may { MayAttempt (run_seen self.now.script pass.old) client }
        requires serves { Serves (run_seen self.now.script pass.old) client work.old.kept }
        requires stands { IfSome work.old.place
            (StandsAt (run_seen self.now.script pass.old) client) }
        ensures tried { Tried self.now.script pass.old work.old.kept pass.new work.new.kept result }
        ensures stands { IfSome work.new.place
            (StandsAt (run_seen self.now.script pass.new) client) }
        ensures keeps { IfOk result (λ did. gives_reply did ≡ false
            → is_some work.new.place ≡ true) }
        ensures ends { IfOk result (λ did. gives_reply did ≡ true → work.new.place ≡ None) }
    {
        let mut here = self.stand(rt, pass, client, work.place.take());
        let did = self.step_at(rt, alloc, pass, gate, &mut work.kept, &mut here)?;
        work.place = place_behind(did, here);
        Ok(did)
    }

    /// Where a client stands: no turn is taken where that is known.
    fn stand<W: Wait>(&self, rt: &W, pass: &mut Pass, client: u32, known: Option<Place>) -> Place
        requires own { pass.old.lock ≡ self.now.lock }
        requires may { MayAttempt (run_seen self.now.script pass.old) client }
        ensures { IsToldOrKnown self.now.script client known pass.old pass.new result }
    {
        match known {
            Some(here) => here,
            None => self.place(rt, pass, client),
        }
    }

    /// The step that comes next of the client of the pass, which stands at a place, and where it stands then.
    fn step_at<W: Wait, G: Gate>(
        &self,
        rt: &W,
        alloc: Global,
        pass: &mut Pass,
        gate: &G,
        kept: &mut Findings,
        here: &mut Place,
    ) -> Result<Attempted, NoMemory>
        requires own { pass.old.lock ≡ self.now.lock }
        requires ready { IsReady self.now.script pass.old kept.old }
        requires stands { StandsAt (run_seen self.now.script pass.old) pass.old.rank here.old }
        ensures tried { Tried self.now.script pass.old kept.old pass.new kept.new result }
        ensures stands { StandsAfter (run_seen self.now.script pass.new) pass.old.rank result
            here.new }
    {
        let client = pass.rank();
        match here.doing {
            Doing::Idle => self.enter(rt, alloc, pass, client, kept, here),
            Doing::MustBackOff(t, object) => self.give_way(rt, pass, t, object, kept, here),
            Doing::BackedOff(t, object) => self.take_first(rt, pass, t, object, kept, here),
            Doing::Taking(t) => {
                let Some(request) = request_of(self.script(), client, here.command) else {
                    unreachable!();
                };
                gate.at(rt, Point::Check, client, here.command);
                self.move_on(rt, alloc, pass, Taking { t, request }, kept, here)
            }
            Doing::Returning(_commit) => unreachable!(),
        }
    }

    /// The context of a client begins.
    fn enter<W: Wait>(
        &self,
        rt: &W,
        alloc: Global,
        pass: &mut Pass,
        client: u32,
        kept: &mut Findings,
        here: &mut Place,
    ) -> Result<Attempted, NoMemory>
        requires own { pass.old.lock ≡ self.now.lock }
        requires whose { pass.old.rank ≡ client }
        requires ready { IsReady self.now.script pass.old kept.old }
        requires idle { doing_at (machine (run_seen self.now.script pass.old)) pass.old.rank
            ≡ doing.Idle }
        requires stands { StandsAt (run_seen self.now.script pass.old) pass.old.rank here.old }
        ensures tried { Tried self.now.script pass.old kept.old pass.new kept.new result }
        ensures stands { StandsAfter (run_seen self.now.script pass.new) pass.old.rank result
            here.new }
    {
        let t = self.begin(rt, alloc, pass, client)?;
        *kept = Findings::new();
        here.doing = Doing::Taking(t);
        Ok(Attempted::Did)
    }

    /// A context that must back off drops its locks; what they gave is kept no longer.
    fn give_way<W: Wait>(
        &self,
        rt: &W,
        pass: &mut Pass,
        t: Ticket,
        object: ObjId,
        kept: &mut Findings,
        here: &mut Place,
    ) -> Result<Attempted, NoMemory>
        requires own { pass.old.lock ≡ self.now.lock }
        requires ready { IsReady self.now.script pass.old kept.old }
        requires must { doing_at (machine (run_seen self.now.script pass.old)) pass.old.rank
            ≡ doing.MustBackOff t object }
        requires stands { StandsAt (run_seen self.now.script pass.old) pass.old.rank here.old }
        ensures tried { Tried self.now.script pass.old kept.old pass.new kept.new result }
        ensures stands { StandsAfter (run_seen self.now.script pass.new) pass.old.rank result
            here.new }
    {
        self.backoff(rt, pass, t)?;
        kept.states = Duplicates::empty();
        here.doing = Doing::BackedOff(t, object);
        Ok(Attempted::Did)
    }

    /// A context that backed off asks for the object that it backed off for.
    fn take_first<W: Wait>(
        &self,
        rt: &W,
        pass: &mut Pass,
        t: Ticket,
        object: ObjId,
        kept: &mut Findings,
        here: &mut Place,
    ) -> Result<Attempted, NoMemory>
        requires own { pass.old.lock ≡ self.now.lock }
        requires ready { IsReady self.now.script pass.old kept.old }
        requires off { doing_at (machine (run_seen self.now.script pass.old)) pass.old.rank
            ≡ doing.BackedOff t object }
        requires stands { StandsAt (run_seen self.now.script pass.old) pass.old.rank here.old }
        ensures tried { Tried self.now.script pass.old kept.old pass.new kept.new result }
        ensures stands { StandsAfter (run_seen self.now.script pass.new) pass.old.rank result
            here.new }
    {
        let answer = self.relock(rt, pass, t)?;
        here.doing = doing_after(t, object, answer, here.doing);
        Ok(after_lock(pass.seen_len(), object, answer, kept))
    }

    /// A client that takes locks for a request in the context of a ticket goes on with the look-ups that it kept, or makes them.
    fn move_on<W: Wait>(
        &self,
        rt: &W,
        alloc: Global,
        pass: &mut Pass,
        taking: Taking,
        kept: &mut Findings,
        here: &mut Place,
    ) -> Result<Attempted, NoMemory>
        requires own { pass.old.lock ≡ self.now.lock }
        requires ready { IsReady self.now.script pass.old kept.old }
        requires takes { TakesLocksFor self.now.script pass.old taking.t taking.request.now }
        requires stands { StandsAt (run_seen self.now.script pass.old) pass.old.rank here.old }
        ensures tried { Tried self.now.script pass.old kept.old pass.new kept.new result }
        ensures stands { StandsAfter (run_seen self.now.script pass.new) pass.old.rank result
            here.new }
    {
        match kept.looks.take() {
            Some(looks) => self.move_with(rt, alloc, pass, Work { taking, looks }, kept, here),
            None => {
                let looks = self.lookups(rt, alloc, pass, taking.request)?;
                self.move_with(rt, alloc, pass, Work { taking, looks }, kept, here)
            }
        }
    }

    /// The call that resolving the request with the look-ups and a check of the states ask for.
    fn move_with<W: Wait>(
        &self,
        rt: &W,
        alloc: Global,
        pass: &mut Pass,
        work: Work,
        kept: &mut Findings,
        here: &mut Place,
    ) -> Result<Attempted, NoMemory>
        requires own { pass.old.lock ≡ self.now.lock }
        requires works { Works self.now.script pass.old work kept.old.states }
        requires stands { StandsAt (run_seen self.now.script pass.old) pass.old.rank here.old }
        ensures tried { Tried self.now.script pass.old (kept_in work.entry kept.old.states) pass.new
            kept.new result }
        ensures stands { StandsAfter (run_seen self.now.script pass.new) pass.old.rank result
            here.new }
    {
        let topology = &self.script().topology;
        match next_move(
            alloc,
            topology,
            work.taking.request,
            &work.looks,
            &kept.states,
        )? {
            Move::Lock(id) => self.ask_for(rt, pass, id, work, kept, here),
            Move::Refuse(why) => self.turn_down(rt, alloc, pass, why, work, kept),
            Move::Accept(checked, resolved) => {
                let accepted = Accepted { checked, resolved };
                self.accept(rt, alloc, pass, &accepted, work, kept)
            }
        }
    }

    /// Asks for an object.
    fn ask_for<W: Wait>(
        &self,
        rt: &W,
        pass: &mut Pass,
        id: ObjId,
        work: Work,
        kept: &mut Findings,
        here: &mut Place,
    ) -> Result<Attempted, NoMemory>
        requires own { pass.old.lock ≡ self.now.lock }
        requires works { Works self.now.script pass.old work kept.old.states }
        requires asks { AsksFor self.now.script.topology work.taking.request.now work.looks
            kept.old.states id }
        requires stands { StandsAt (run_seen self.now.script pass.old) pass.old.rank here.old }
        ensures tried { Tried self.now.script pass.old (kept_in work.entry kept.old.states) pass.new
            kept.new result }
        ensures stands { StandsAfter (run_seen self.now.script pass.new) pass.old.rank result
            here.new }
    {
        have_places(kept.states);
        let answer = self.lock(rt, pass, work.taking.t, id)?;
        here.doing = doing_after(work.taking.t, id, answer, here.doing);
        kept.looks = Some(work.looks);
        Ok(after_lock(pass.seen_len(), id, answer, kept))
    }

    /// Refuses the request.
    fn turn_down<W: Wait>(
        &self,
        rt: &W,
        alloc: Global,
        pass: &mut Pass,
        why: Refusal,
        work: Work,
        kept: &mut Findings,
    ) -> Result<Attempted, NoMemory>
        requires own { pass.old.lock ≡ self.now.lock }
        requires works { Works self.now.script pass.old work kept.old.states }
        requires refused { RefusedBy self.now.script.topology work.taking.request.now work.looks
            kept.old.states why }
        ensures tried { Tried self.now.script pass.old (kept_in work.entry kept.old.states) pass.new
            kept.new result }
        ensures stands { (place : Place) → StandsAt (run_seen self.now.script pass.old) pass.old.rank place
            → StandsAfter (run_seen self.now.script pass.new) pass.old.rank result place }
    {
        let answer = self.refuse(rt, pass, work.taking.t, &work.looks, why)?;
        self.conclude(rt, alloc, pass, answer, work, kept)
    }

    /// Tells that the request would be accepted, or commits it.
    fn accept<W: Wait>(
        &self,
        rt: &W,
        alloc: Global,
        pass: &mut Pass,
        accepted: &Accepted,
        work: Work,
        kept: &mut Findings,
    ) -> Result<Attempted, NoMemory>
        requires own { pass.old.lock ≡ self.now.lock }
        requires works { Works self.now.script pass.old work kept.old.states }
        requires accepted { AcceptedAs self.now.script.topology work.taking.request.now work.looks
            kept.old.states accepted.now.checked.value accepted.now.resolved }
        ensures tried { Tried self.now.script pass.old (kept_in work.entry kept.old.states) pass.new
            kept.new result }
        ensures stands { (place : Place) → StandsAt (run_seen self.now.script pass.old) pass.old.rank place
            → StandsAfter (run_seen self.now.script pass.new) pass.old.rank result place }
    {
        let t = work.taking.t;
        if is_test(work.taking.request.flags) {
            let checked = &*accepted.checked;
            let answer = self.test(rt, pass, t, &work.looks, checked)?;
            return self.conclude(rt, alloc, pass, answer, work, kept);
        }
        let answer = self.swap(rt, alloc, pass, t, &work.looks, accepted)?;
        self.conclude(rt, alloc, pass, answer, work, kept)
    }

    /// What comes of an answer to a call that decides the request. Look-ups that grew old are made anew.
    fn conclude<W: Wait>(
        &self,
        rt: &W,
        alloc: Global,
        pass: &mut Pass,
        answer: Decided,
        work: Work,
        kept: &mut Findings,
    ) -> Result<Attempted, NoMemory>
        requires own { pass.old.lock ≡ self.now.lock }
        ensures did { IfOk result (λ did. Concludes self.now.script work.entry.taking.request.now
            (kept_in work.entry kept.old.states) pass.old answer pass.new did kept.new) }
        ensures vain { OnErr result (LooksInVain self.now.script answer pass.old pass.new) }
    {
        match answer {
            Decided::Done { reply } | Decided::Refused { reply } => {
                *kept = Findings::new();
                Ok(Attempted::Answered(reply))
            }
            Decided::NotYet { .. } => {
                kept.looks = Some(work.looks);
                Ok(Attempted::NotYet {
                    length: pass.seen_len(),
                })
            }
            Decided::Again { .. } => {
                kept.looks = Some(self.lookups(rt, alloc, pass, work.taking.request)?);
                Ok(Attempted::Did)
            }
        }
    }
}

/// The request for which a client takes locks, and the ticket of its context.
#[derive(Clone, Copy)]
pub(crate) struct Taking<'a> {
    t: Ticket,
    request: &'a Request,
}

/// What a client works with that takes locks, beside the states that these gave: what its request's labels named.
#[derive(Drop)]
pub(crate) struct Work<'a> {
    taking: Taking<'a>,
    looks: Lookups,
}

/// What comes of an answer to a lock of an object that was asked for, in a history of some length. A state that it gave is
/// kept.
fn after_lock(length: u64, id: ObjId, answer: Locked, kept: &mut Findings) -> Attempted
    ensures did { result ≡ attempted_of length answer }
    ensures keeps { kept.new ≡ kept_of id answer kept.old }
{
    match answer {
        Locked::Got { state } | Locked::Own { state } => {
            take_in(&mut kept.states, id, state);
            Attempted::Did
        }
        Locked::Older { .. } => Attempted::Did,
        Locked::Younger { .. } | Locked::Held { .. } => Attempted::NotYet { length },
    }
}

/// What a client does after an answer to a lock of an object that its context asked for.
fn doing_after(t: Ticket, id: ObjId, answer: Locked, doing: Doing) -> Doing
    ensures { result ≡ doing_of t id answer doing }
{
    match answer {
        Locked::Got { .. } => Doing::Taking(t),
        Locked::Older { .. } => Doing::MustBackOff(t, id),
        Locked::Own { .. } | Locked::Younger { .. } | Locked::Held { .. } => doing,
    }
}

/// Where a client stands after an attempt that left it at a place. Where it goes on behind a reply is not told.
fn place_behind(did: Attempted, here: Place) -> Option<Place>
    ensures { result ≡ place_behind did here }
{
    match did {
        Attempted::Did | Attempted::NotYet { .. } => Some(here),
        Attempted::Answered(_reply) => None,
    }
}

/// Takes the state of an object in, where it is not among the states yet.
fn take_in(states: &mut Duplicates, id: ObjId, state: ObjState)
    ensures { states.new ≡ taken_in states.old id.0 state }
{
    if states.may_duplicate(id, &state) {
        states.duplicate(id, state);
    }
}

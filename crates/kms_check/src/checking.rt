//! The check of a request over duplicated states. (Kernel: `drm_atomic_check_only`.)
ghost use Rattle.std.specs.Prelude.{◌≡◌, None, IfOk};
ghost use Rattle.kms_model.specs.declared.scripts.Request.{Request};
ghost use Rattle.kms_model.specs.declared.worlds.World.{World};
ghost use Rattle.kms_model.specs.Device.Sound.{IsDevice};
ghost use Rattle.kms_model.specs.Request.Deciding.{AreFresh, AreOfSoundWorld, IsAskedFor, IsChecked, IsOfRequest};
ghost use Rattle.kms_model.specs.Request.Verdict.{late_in};
ghost use Rattle.kms_check.specs.Answers.{locks_of, refusal_of};
ghost use Rattle.kms_check.specs.Lacking.{first_lacking};
ghost use Rattle.kms_state.specs.Places.{old_states};

use crate::applying::apply;
use crate::lacking::{have_places, lacking};
use kms_model::{Checked, Duplicates, Mask, Refusal, Resolved, Topology};
use kms_props::AtomicFlags;
use kms_request::{
    Asked, affected, crtcs_fenced, late_refusal, named, objects_set, only_crtcs, union,
};

/// Why a request is not accepted.
#[derive(Clone, Copy, PartialEq, Eq)]
pub enum Refused {
    /// A late refusal.
    Of(Refusal),
    /// More objects have to be locked, and their states duplicated.
    MoreLocks {
        /// The objects.
        locks: Mask,
    },
}

/// Checks what an accepted request makes of duplicated states.
///
/// Where the duplicates do not cover what the request touches, it asks for more: there are three groups, first the
/// objects that the request sets, then the CRTCs that it names, then the planes and connectors of CRTCs that need a
/// modeset, and `MoreLocks` has the objects that are not duplicated of the first group of which one is not. Otherwise
/// it applies what the request sets, and gives the first late refusal over the whole device, or the states before
/// and after with the CRTCs that are named and the objects that are touched. It looks at touched objects alone.
///
/// `resolved` is what a request asks for over this device, with what its labels named when they were looked up. The old
/// states are those of a device that holds what is accepted, which may have made and closed things since then, and each
/// new state is the old one. The answers are those of each such device where the request's labels name what they named.
/// It takes no memory.
pub fn check(
    topology: &Topology,
    states: &Duplicates,
    resolved: &Resolved,
) -> Result<Checked, Refused>
    requires device { IsDevice topology.now }
    requires asked { IsAskedFor topology.now resolved.now }
    requires held { AreOfSoundWorld topology.now states.now }
    requires fresh { AreFresh states.now }

    // Which objects are still to be duplicated; none of them is asked for twice.
    ensures locks { (w : World) (r : Request) → IsOfRequest topology.now w r resolved.now states.now
        → locks_of result ≡ first_lacking topology.now w r states.now }

    // The second part of the verdict, over the whole device.
    ensures refusal { (w : World) (r : Request) → IsOfRequest topology.now w r resolved.now states.now
        → first_lacking topology.now w r states.now ≡ None
        → refusal_of result ≡ late_in topology.now w r }
    ensures checked { (w : World) (r : Request) → IsOfRequest topology.now w r resolved.now states.now
        → IfOk result (IsChecked topology.now w r) }

    // No state is lost: the same objects are duplicated, with the same old states.
    ensures kept { IfOk result (λ c. old_states c.states ≡ old_states states.now) }
{
    have_places(*states);
    let sets = resolved.sets.as_slice();
    let set = objects_set(sets);
    if let Some(locks) = lacking(states, &set) {
        return Err(Refused::MoreLocks { locks });
    }
    let named = named(resolved, states);
    if let Some(locks) = lacking(states, &only_crtcs(named)) {
        return Err(Refused::MoreLocks { locks });
    }
    let mut states = *states;
    apply(&mut states, sets);
    let affected = affected(&states, named);
    if let Some(locks) = lacking(&states, &affected) {
        return Err(Refused::MoreLocks { locks });
    }
    let touched = union(&union(&set, &only_crtcs(named)), &affected);
    let asked = Asked {
        flags: AtomicFlags::of_request(resolved.flags),
        named,
        fenced: crtcs_fenced(resolved.out_fences.as_slice()),
    };
    match late_refusal(topology, &states, &touched, asked) {
        Some(refusal) => Err(Refused::Of(refusal)),
        None => Ok(Checked {
            states,
            named,
            touched,
        }),
    }
}

//! The tail of one commit.
ghost use Rattle.std.specs.Prelude.{◌≡◌, ◌<◌, ◌≤◌, ℕ, is_none, length, IfSome, IsSome, IsTrue, slice_index_or, None, Some, true};
ghost use Rattle.std.specs.Option.{option_map};
ghost use Rattle.kms_model.specs.declared.objects.Kind.TheVariants.{Crtc, Plane};
ghost use Rattle.kms_model.specs.Device.Masks.{has_bit};
ghost use Rattle.kms_model.specs.Device.Objects.{object_id};
ghost use Rattle.kms_model.specs.Machine.Commits.{commit_touches, is_all_flushed, is_all_latched, is_all_written, new_connector, out_fence_of};
ghost use Rattle.kms_model.specs.Machine.Steps.{next_flush, next_write};
ghost use Rattle.kms_track.specs.InStep.{AreCrtcStates, ArePlaneStates, WhereverOf};
ghost use Rattle.kms_track.specs.Tails.{connector_in, connector_of, count_below, first_tail, flipped_at, no_signals, is_latch_left, next_flush_of, next_latch_of, next_write_of, on_after, steps_left};

use crate::places::sides_at;
use crate::progress::{Progress, count_left, first_left, is_left, one_if};
use kms_model::{
    Both, Checked, CrtcState, Kind, MAX_CONNECTORS, MAX_CRTCS, MAX_PLANES, ObjId, PlaneState,
    has_bit,
};

/// What a commit signals where it latches, and the client that it tells. (Kernel: `prepare_signaling`,
/// `struct drm_pending_vblank_event`; "Explicit Fencing Properties", OUT_FENCE_PTR.)
#[derive(Clone, Copy)]
pub struct Signals {
    /// The client that committed, counted from 1: its events are delivered there; 0 where no client did.
    pub client: u32,
    /// The number that its events hand back.
    pub user_data: u64,
    /// Whether it asks for an event at each CRTC that it names.
    pub wants_event: bool,
    /// The ids of the fences that it signals; the place is the CRTC's index.
    pub out_fences: [Option<u32>; 4],
}

impl Signals {
    /// Those of a commit that no client made.
    pub(crate) fn none() -> Signals
        ensures { result ≡ no_signals }
    {
        Signals {
            client: 0,
            user_data: 0,
            wants_event: false,
            out_fences: [None; 4],
        }
    }
}

/// A commit that is set up and not cleaned: what its tail needs, how far that has come, and what it waits for. It takes a
/// few kilobytes, in place. (Kernel: `struct drm_atomic_state`, `struct drm_crtc_commit`.)
#[derive(Clone, Copy)]
pub struct Tail {
    /// What it signals where it latches.
    pub signals: Signals,
    /// The objects that it touches, with their states before and after it, and the CRTCs that it names.
    pub checked: Checked,
    /// The number of the last commit before it, counted from 0, of each object, which stands at its place in the order of
    /// ids.
    pub previous: [Option<u32>; 28],
    /// The ids of the fences that it waits for, from the first place on.
    pub in_fences: [Option<u32>; 16],
    /// How far it has come.
    pub progress: Progress,
}

impl Tail {
    /// The tail of a commit as it was checked, of which nothing was done, that waits for the last commits of the objects
    /// before it and for fences.
    pub(crate) fn new(
        signals: Signals,
        checked: &Checked,
        previous: [Option<u32>; 28],
        in_fences: [Option<u32>; 16],
    ) -> Tail
        ensures { result ≡ first_tail signals checked.now previous in_fences }
    {
        Tail {
            signals,
            checked: *checked,
            previous,
            in_fences,
            progress: Progress::none(),
        }
    }

    /// Whether it has flipped for the object at a place, from 0 to 27, which it touches: has latched at each CRTC of the
    /// object, before it or after it.
    pub(crate) fn has_flipped(&self, place: u32) -> bool
        requires { place < 28 }
        ensures { result ≡ flipped_at self.now place }
    {
        let sides = sides_at(&self.checked.states, place);
        (0..MAX_CRTCS).all(|index| !sides.has(index) || has_bit(self.progress.latched, index))
    }

    /// The object whose registers are written next: the least, by id, of the CRTCs and planes that it touches and that
    /// are not written yet. (Kernel: `drm_atomic_helper_commit_planes`; that they go by id is this device's own.)
    pub fn next_write(&self) -> Option<ObjId>
        ensures id { option_map (λ id. id.0) result ≡ next_write_of self.now }
        ensures machine { WhereverOf self.now (λ t d latches k.
            option_map (λ id. id.0) result ≡ next_write t d k) }
    {
        let touched = &self.checked.touched;
        if let Some(crtc) = first_left(touched.crtcs, self.progress.crtcs, MAX_CRTCS) {
            return Some(ObjId::of(Kind::Crtc, crtc));
        }
        let plane = first_left(touched.planes, self.progress.planes, MAX_PLANES)?;
        Some(ObjId::of(Kind::Plane, plane))
    }

    /// The CRTC, by its index from 0 to 3, that is flushed next: the least that it names and that is not flushed yet.
    /// (Kernel: `drm_atomic_helper_commit_planes`, `atomic_flush`.)
    pub fn next_flush(&self) -> Option<u32>
        ensures index { result ≡ next_flush_of self.now }
        ensures bound { IfSome result (λ i. i < 4) }
        ensures machine { WhereverOf self.now (λ t d latches k.
            option_map (object_id Crtc) result ≡ next_flush t d k) }
    {
        first_left(self.checked.named, self.progress.flushed, MAX_CRTCS)
    }

    /// Whether the registers of all CRTCs and planes that it touches are written.
    pub fn is_written(&self) -> bool
        ensures left { result ≡ is_none (next_write_of self.now) }
        ensures machine { WhereverOf self.now (λ t d latches k. result ≡ is_all_written t d k) }
    {
        self.next_write().is_none()
    }

    /// Whether all CRTCs that it names are flushed.
    pub fn is_flushed(&self) -> bool
        ensures left { result ≡ is_none (next_flush_of self.now) }
        ensures machine { WhereverOf self.now (λ t d latches k. result ≡ is_all_flushed t d k) }
    {
        self.next_flush().is_none()
    }

    /// Whether it has latched at all CRTCs that it names. (Kernel: `drm_atomic_helper_wait_for_flip_done`.)
    pub fn is_latched(&self) -> bool
        ensures left { result ≡ is_none (next_latch_of self.now) }
        ensures machine { WhereverOf self.now (λ t d latches k.
            result ≡ is_all_latched t d latches k) }
    {
        first_left(self.checked.named, self.progress.latched, MAX_CRTCS).is_none()
    }

    /// How many steps of its tail are left, at most 31: a cleanup, a claim and the end of writing, a write of each CRTC and
    /// plane that it touches, a flush of each CRTC that it names, and a latch at each of these that is on after it.
    pub fn left(&self) -> u32
        ensures number { result ≡ steps_left self.now }
        ensures bound { result ≤ 31 }
    {
        let touched = &self.checked.touched;
        let progress = &self.progress;
        1 + one_if(!progress.claimed)
            + one_if(!progress.done)
            + count_left(touched.crtcs, progress.crtcs, MAX_CRTCS)
            + count_left(touched.planes, progress.planes, MAX_PLANES)
            + count_left(self.checked.named, progress.flushed, MAX_CRTCS)
            + self.latches_left()
    }

    /// At how many CRTCs that are on after it it has still to latch.
    fn latches_left(&self) -> u32
        ensures number { result ≡ count_below (is_latch_left self.now) 4 }
        ensures bound { result ≤ 4 }
    {
        let mut left = 0;
        for index in 0..MAX_CRTCS {
            left += one_if(self.is_latch_left(index));
        }
        left
    }

    /// Whether it names the CRTC with an index, from 0 to 3, has not latched there, and the CRTC is on after it.
    fn is_latch_left(&self, index: u32) -> bool
        requires { index < 4 }
        ensures { result ≡ is_latch_left self.now index }
    {
        is_left(self.checked.named, self.progress.latched, index) && self.is_on(index)
    }

    /// Whether the CRTC with an index, from 0 to 3, is on after it, where it has the CRTC's states.
    fn is_on(&self, index: u32) -> bool
        requires { index < 4 }
        ensures { result ≡ on_after self.now index }
    {
        match self.checked.states.crtcs[index as usize] {
            Some(both) => both.new.active,
            None => false,
        }
    }

    /// The states before and after it of the plane with an index, from 0 to 15: there where it touches the plane.
    pub fn plane(&self, index: u32) -> Option<Both<PlaneState>>
        requires { index < 16 }
        ensures state { result ≡ slice_index_or self.now.checked.states.planes index None }
        ensures there { has_bit self.now.checked.touched.planes index ≡ true
            → WhereverOf self.now (λ t d latches k. IsSome result) }
        ensures machine { WhereverOf self.now (λ t d latches k.
            IfSome result (ArePlaneStates t d k index)) }
    {
        self.checked.states.planes[index as usize]
    }

    /// The states before and after it of the CRTC with an index, from 0 to 3: there where it touches the CRTC.
    pub fn crtc(&self, index: u32) -> Option<Both<CrtcState>>
        requires { index < 4 }
        ensures state { result ≡ slice_index_or self.now.checked.states.crtcs index None }
        ensures there { has_bit self.now.checked.touched.crtcs index ≡ true
            → WhereverOf self.now (λ t d latches k. IsSome result) }
        ensures machine { WhereverOf self.now (λ t d latches k.
            IfSome result (AreCrtcStates t d k index)) }
    {
        self.checked.states.crtcs[index as usize]
    }

    /// The id of the connector that the CRTC with an index, from 0 to 3, has after it, or 0: where it touches the CRTC.
    /// (Kernel: `struct drm_crtc_state`, `connector_mask`.)
    pub fn connector(&self, index: u32) -> u32
        requires { index < 4 }
        ensures id { result
            ≡ connector_of (slice_index_or self.now.checked.states.crtcs index None) }
        ensures machine { has_bit self.now.checked.touched.crtcs index ≡ true
            → WhereverOf self.now (λ t d latches k.
            result ≡ new_connector t d.commits k (object_id Crtc index)) }
    {
        match self.checked.states.crtcs[index as usize] {
            Some(both) => first_connector(both.new.conns),
            None => 0,
        }
    }

    /// The id of the fence that it signals where it latches at the CRTC with an index, from 0 to 3, if any.
    /// (Kernel: "Explicit Fencing Properties", OUT_FENCE_PTR.)
    pub fn out_fence(&self, index: u32) -> Option<u32>
        requires { index < 4 }
        ensures id { result ≡ slice_index_or self.now.signals.out_fences index None }
        ensures machine { WhereverOf self.now (λ t d latches k.
            result ≡ out_fence_of t d.commits k (object_id Crtc index)) }
    {
        self.signals.out_fences[index as usize]
    }
}

/// The id of the first connector of a mask, or 0.
fn first_connector(conns: u32) -> u32
    ensures { result ≡ connector_in conns }
{
    match first_left(conns, 0, MAX_CONNECTORS) {
        Some(index) => ObjId::of(Kind::Conn, index).0,
        None => 0,
    }
}

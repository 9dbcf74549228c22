//! The tracker of commits.
ghost use Rattle.std.specs.Prelude.{◌≡◌, ℕ, ◌<◌, ◌≤◌, ◌+◌, ◌*◌, map, OnOk, OnErr, IfOk, IfSome, IfNone, IsOk, length, option_copied};
ghost use Rattle.kms_model.specs.Things.Tables.{without_id};
ghost use Rattle.kms_track.specs.declared.progress.Mark.TheVariants as mark;
ghost use Rattle.kms_track.specs.MachineLaws.{FindsFirst};
ghost use Rattle.kms_track.specs.Tails.{HasRegisters, IsMark, all_left, first_from, no_signals, wrote_mark};

use crate::lasts::{Last, raise};
use crate::places::{has_object, object_at_place};
use crate::progress::Mark;
use crate::tail::{Signals, Tail};
use crate::tails::Tails;
use crate::waits::{all_fences, are_signalled};
use kms_model::{Checked, MAX_CRTCS, MAX_LOCKABLE, Mask, NoMemory, ObjId, Seq, has_bit};
use kms_signal::Fences;
use std::alloc::Global;
use std::marker::Model;

/// The commits that were set up. Contracts see how many, the last two of each object, and the tails of those that are not
/// cleaned, with the room that there is for further ones.
#[derive(Drop)]
pub struct Tracker {
    count: u32,
    last: [Last; 28],
    tails: Tails,
}

impl Model for Tracker {
    ghost use Rattle.kms_model.specs.Things.Tables.{AreBelow};
    ghost use Rattle.kms_track.specs.Tracking.{Tracking};

    ghost Value = { Tracking };

    ghost view = { λ s. record { count = s.count; lasts = s.last; tails = s.tails } };

    ghost invariant = { λ s. AreBelow s.count s.tails.slots };
}

impl Tracker {
    ghost use Rattle.kms_track.specs.Tracking.{IsSetUp, all_settled, awaited, busy_at, busy_of, cleaned_of, done_of, flipped_of, is_settled, marked, no_tracking, not_yet_at, not_yet_of, ready_of, tail_of, uncleaned, undone};

    /// The tracker of no commit. It takes no memory.
    pub fn new(alloc: Global) -> Tracker
        ensures { result ≡ no_tracking }
    {
        Tracker {
            count: 0,
            last: [Last::none(); 28],
            tails: Tails::new(alloc),
        }
    }

    /// How many commits were set up, which is the number of the next one.
    pub fn count(&self) -> u32
        ensures { result ≡ self.now.count }
    {
        self.count
    }

    /// Takes the memory that the next commit needs, and changes nothing else. Want of memory leaves all as it was, and comes
    /// only where that room was missing.
    pub fn make_room(&mut self, _alloc: Global) -> Result<(), NoMemory>
        ensures count { self.new.count ≡ self.old.count }
        ensures lasts { self.new.lasts ≡ self.old.lasts }
        ensures tails { self.new.tails.slots ≡ self.old.tails.slots }
        ensures room { OnOk result (1 ≤ self.new.tails.room) }
        ensures kept { self.old.tails.room ≤ self.new.tails.room }
        ensures there { 1 ≤ self.old.tails.room → IsOk result }
        ensures err { OnErr result (self.new ≡ self.old) }
    {
        self.tails.make_room()
    }

    /// Sets a commit up that signals nothing, and gives its number: see `setup_for`.
    pub fn setup(
        &mut self,
        alloc: Global,
        checked: &Checked,
        in_fences: &Seq<(ObjId, u32)>,
    ) -> Result<u32, NoMemory>
        requires count { self.old.count < 4294967295 }
        requires fences { length in_fences.now ≤ 16 }
        ensures number { IfOk result (λ k. k ≡ self.old.count) }
        ensures set_up { OnOk result
            (IsSetUp self.old self.new no_signals checked.now (map (λ f. f.1) in_fences.now)) }
        ensures room { OnOk result (self.old.tails.room ≤ self.new.tails.room + 1) }
        ensures there { 0 < self.old.tails.room → IsOk result }
        ensures err { OnErr result (self.new ≡ self.old) }
    {
        self.setup_for(alloc, Signals::none(), checked, in_fences)
    }

    /// Sets a commit up with what it signals, and gives its number, which counts the commits before it. It touches the
    /// objects that were checked, and waits for the in-fences, at most one for each plane, each given by its plane's id and
    /// its own. Fewer than 4294967295 commits were set up. Want of memory leaves all as it was, and comes only where there
    /// was no room; no other call needs memory for the commit. (Kernel: `drm_atomic_helper_setup_commit`,
    /// `drm_atomic_helper_swap_state`.)
    pub fn setup_for(
        &mut self,
        _alloc: Global,
        signals: Signals,
        checked: &Checked,
        in_fences: &Seq<(ObjId, u32)>,
    ) -> Result<u32, NoMemory>
        requires count { self.old.count < 4294967295 }
        requires fences { length in_fences.now ≤ 16 }
        ensures number { IfOk result (λ k. k ≡ self.old.count) }
        ensures set_up { OnOk result
            (IsSetUp self.old self.new signals checked.now (map (λ f. f.1) in_fences.now)) }
        ensures room { OnOk result (self.old.tails.room ≤ self.new.tails.room + 1) }
        ensures there { 0 < self.old.tails.room → IsOk result }
        ensures err { OnErr result (self.new ≡ self.old) }
    {
        let commit = self.count;
        let previous = self.last.map(|last| last.commit);
        let fences = all_fences(in_fences.as_slice());
        self.tails
            .push(commit, Tail::new(signals, checked, previous, fences))?;
        raise(&mut self.last, &checked.touched, commit);
        self.count += 1;
        Ok(commit)
    }

    /// The tail of a commit, by its number from 0, that is set up and not cleaned; none of any other.
    pub fn get(&self, commit: u32) -> Option<&Tail>
        ensures { option_copied result ≡ tail_of self.now commit }
    {
        self.tails.get(commit)
    }

    /// The least number, from a given one on, of a commit that is not cleaned.
    pub fn first_from(&self, from: u32) -> Option<u32>
        ensures number { result ≡ first_from self.now.tails.slots from }
        ensures machine { FindsFirst self.now from result }
    {
        self.tails.first_from(from)
    }

    /// At most how many steps are left of all commits that are not cleaned, a count: 31 of each. None where a `usize` has no
    /// place for that number.
    pub fn most_left(&self) -> Option<usize>
        ensures bound { IfSome result (λ n. all_left self.now.tails.slots ≤ n) }
        ensures number { IfSome result (λ n. n ≡ 31 * length self.now.tails.slots) }
        ensures none { IfNone result
            (18446744073709551615 < 31 * length self.now.tails.slots) }
    {
        self.tails.most_left()
    }

    /// Whether a commit, by its number from 0, may be claimed: it is set up and not claimed, the fences that it waits for
    /// are signalled, and the commit before it on each object that it touches is done and has flipped for that object.
    /// (Kernel: `drm_atomic_helper_wait_for_fences`, `drm_atomic_helper_wait_for_dependencies`.)
    pub fn ready(&self, commit: u32, fences: &Fences) -> bool
        ensures { result ≡ ready_of self.now fences.now commit }
    {
        match self.tails.get(commit) {
            None => false,
            Some(tail) => {
                !tail.progress.claimed
                    && are_signalled(&tail.in_fences, fences)
                    && self.are_settled(tail)
            }
        }
    }

    /// A worker claims a commit, by its number from 0, if it is set up and not cleaned. (Kernel: `commit_work`.)
    pub fn claim(&mut self, commit: u32)
        ensures { self.new ≡ marked self.old commit mark.Claimed }
    {
        self.mark(commit, Mark::Claimed);
    }

    /// The registers of a CRTC or a plane are written for a commit, by its number from 0, if it is set up and not cleaned.
    /// (Kernel: `drm_atomic_helper_commit_modeset_enables`, `drm_atomic_helper_commit_planes`.)
    pub fn mark_written(&mut self, commit: u32, id: ObjId)
        requires { HasRegisters id.0 }
        ensures { self.new ≡ marked self.old commit (wrote_mark id.0) }
    {
        let index = id.index();
        if id.is_crtc() {
            self.mark(commit, Mark::WroteCrtc(index));
        } else {
            self.mark(commit, Mark::WrotePlane(index));
        }
    }

    /// The CRTC with an index, from 0 to 3, is flushed for a commit, by its number from 0, if it is set up and not cleaned.
    /// (Kernel: `atomic_flush`.)
    pub fn mark_flushed(&mut self, commit: u32, crtc: u32)
        requires { crtc < 4 }
        ensures { self.new ≡ marked self.old commit (mark.Flushed crtc) }
    {
        self.mark(commit, Mark::Flushed(crtc));
    }

    /// All registers of a commit, by its number from 0, are written and flushed, if it is set up and not cleaned. (Kernel:
    /// `drm_atomic_helper_commit_hw_done`.)
    pub fn hw_done(&mut self, commit: u32)
        ensures { self.new ≡ marked self.old commit mark.Done }
    {
        self.mark(commit, Mark::Done);
    }

    /// A commit, by its number from 0, latches at the CRTC with an index, from 0 to 3, if it is set up and not cleaned.
    /// (Kernel: `drm_crtc_send_vblank_event`, which completes `flip_done`.)
    pub fn flip_done(&mut self, commit: u32, crtc: u32)
        requires { crtc < 4 }
        ensures { self.new ≡ marked self.old commit (mark.Latched crtc) }
    {
        self.mark(commit, Mark::Latched(crtc));
    }

    /// Forgets a commit, by its number from 0, that is done and has flipped for all its objects, and is over now. The room
    /// does not shrink. (Kernel: `drm_atomic_helper_commit_cleanup_done`, `drm_atomic_state_put`.)
    pub fn cleanup(&mut self, commit: u32)
        ensures count { self.new.count ≡ self.old.count }
        ensures lasts { self.new.lasts ≡ self.old.lasts }
        ensures tails { self.new.tails.slots ≡ without_id self.old.tails.slots commit }
        ensures room { self.old.tails.room ≤ self.new.tails.room }
    {
        self.tails.remove(commit);
    }

    /// Whether a commit, by its number from 0, was set up and is cleaned.
    pub fn is_cleaned(&self, commit: u32) -> bool
        ensures { result ≡ cleaned_of self.now commit }
    {
        commit < self.count && self.tails.get(commit).is_none()
    }

    /// The first of these objects, by id, whose last commit has not flipped for it, with the number of that commit,
    /// counted from 0. (Kernel: `drm_atomic_helper_setup_commit`, which refuses a nonblocking commit then.)
    pub fn busy(&self, objects: &Mask) -> Option<(ObjId, u32)>
        ensures { result ≡ busy_of self.now objects.now }
    {
        for place in 0..MAX_LOCKABLE {
            if let Some(commit) = self.busy_at(objects, place) {
                return Some((object_at_place(place), commit));
            }
        }
        None
    }

    /// The first of these CRTCs, a mask, whose last commit is not done or whose last but one is not cleaned, with the
    /// number of that commit, counted from 0; of both the last one. (Kernel: `drm_atomic_helper_setup_commit`,
    /// `drm_atomic_helper_swap_state`.)
    pub fn not_yet(&self, crtcs: u32) -> Option<(ObjId, u32)>
        ensures { result ≡ not_yet_of self.now crtcs }
    {
        for index in 0..MAX_CRTCS {
            if let Some(commit) = self.not_yet_at(crtcs, index) {
                return Some((object_at_place(index), commit));
            }
        }
        None
    }

    // Marks a step of a commit, if it is set up and not cleaned.
    fn mark(&mut self, commit: u32, mark: Mark)
        requires { IsMark mark }
        ensures { self.new ≡ marked self.old commit mark }
    {
        self.tails.mark(commit, mark);
    }

    // The last commit of the object at a place, where the object is one of these and the commit has not flipped for it.
    fn busy_at(&self, objects: &Mask, place: u32) -> Option<u32>
        requires { place < 28 }
        ensures { result ≡ busy_at self.now objects.now place }
    {
        if !has_object(objects, place) {
            return None;
        }
        let commit = self.last[place as usize].commit?;
        if self.has_flipped(commit, place) {
            None
        } else {
            Some(commit)
        }
    }

    // The commit that a new one waits for on a CRTC, given by its index, where that is one of these.
    fn not_yet_at(&self, crtcs: u32, index: u32) -> Option<u32>
        requires { index < 4 }
        ensures { result ≡ not_yet_at self.now crtcs index }
    {
        if has_bit(crtcs, index) {
            self.commit_to_await(self.last[index as usize])
        } else {
            None
        }
    }

    // The last commit, if it is not done, or else the last but one, if it is not cleaned.
    fn commit_to_await(&self, last: Last) -> Option<u32>
        ensures { result ≡ awaited self.now last }
    {
        match self.unless_done(last.commit) {
            Some(commit) => Some(commit),
            None => self.unless_cleaned(last.before),
        }
    }

    // A commit, if any, that is not done.
    fn unless_done(&self, commit: Option<u32>) -> Option<u32>
        ensures { result ≡ undone self.now commit }
    {
        let commit = commit?;
        if self.is_done(commit) {
            None
        } else {
            Some(commit)
        }
    }

    // A commit, if any, that is not cleaned.
    fn unless_cleaned(&self, commit: Option<u32>) -> Option<u32>
        ensures { result ≡ uncleaned self.now commit }
    {
        let commit = commit?;
        match self.tails.get(commit) {
            None => None,
            Some(_) => Some(commit),
        }
    }

    // Whether a commit is done, as one that is cleaned is.
    fn is_done(&self, commit: u32) -> bool
        ensures { result ≡ done_of (tail_of self.now commit) }
    {
        match self.tails.get(commit) {
            None => true,
            Some(tail) => tail.progress.done,
        }
    }

    // Whether a commit has flipped for the object at a place, as one that is cleaned has.
    fn has_flipped(&self, commit: u32, place: u32) -> bool
        requires { place < 28 }
        ensures { result ≡ flipped_of (tail_of self.now commit) place }
    {
        match self.tails.get(commit) {
            None => true,
            Some(tail) => tail.has_flipped(place),
        }
    }

    // Whether the commit before on each object that a commit touches is done and has flipped for it.
    fn are_settled(&self, tail: &Tail) -> bool
        ensures { result ≡ all_settled self.now tail.now }
    {
        for place in 0..MAX_LOCKABLE {
            if !self.is_settled(tail, place) {
                return false;
            }
        }
        true
    }

    // Whether it is so of the object at a place, or the commit does not touch that.
    fn is_settled(&self, tail: &Tail, place: u32) -> bool
        requires { place < 28 }
        ensures { result ≡ is_settled self.now tail.now place }
    {
        if !has_object(&tail.checked.touched, place) {
            return true;
        }
        match tail.previous[place as usize] {
            None => true,
            Some(commit) => self.is_done(commit) && self.has_flipped(commit, place),
        }
    }
}

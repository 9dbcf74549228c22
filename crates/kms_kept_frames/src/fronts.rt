//! The states of a digest at places within a frame.
ghost use Rattle.std.specs.Prelude.{◌≡◌, ◌<◌, ◌-◌, ◌*◌, ◌++◌, ◌∷◌, [], List, ℕ, IfOk, length, take};
ghost use Rattle.arrayvec.specs.ArrayVec.{array_vec_len};
ghost use Rattle.sha2.specs.Hashers.{Holds256};
ghost use Rattle.kms_kept_frames.specs.Screens.{AreFronts};

use arrayvec::ArrayVec;
use sha2::{Digest, Sha256};
use std::alloc::AllocError;

/// How many bytes SHA-256 takes in at a time.
const BLOCK: usize = 64;

/// At how many places at most states are kept, so that a frame is cut into 16 pieces at most.
pub const PLACES: usize = 15;

/// The states of the digest of a frame at places within it, from the first on, each one step behind the one before it. Where the
/// bytes before a place stay, the digest of the changed frame begins there.
#[derive(Drop)]
pub struct Fronts {
    /// How many bytes lie between two places: whole blocks, so that no state has taken in a part of a block and each place is
    /// reached by whole blocks alone.
    pub step: usize,
    /// The states that are there.
    pub states: ArrayVec<Sha256, 15>,
}

impl Fronts {
    /// No state yet, of a frame of so many bytes, which its places cut into pieces of one size but for the last.
    pub fn none(length: usize) -> Fronts
        ensures { (frame : List ℕ) → AreFronts result frame }
    {
        Fronts {
            step: BLOCK * (length / (BLOCK * (PLACES + 1)) + 1),
            states: ArrayVec::new(),
        }
    }

    /// Keeps the states at the places within the first bytes of a frame, so many, which are all that is known to stay where it
    /// changes, and gives up the others.
    pub fn keep(&mut self, count: usize)
        requires { 0 < self.old.step }
        ensures { (before after : List ℕ) → AreFronts self.old before
            → take count after ≡ take count before → AreFronts self.new after }
    {
        self.states.truncate(count / self.step);
    }

    /// A copy.
    pub fn copy(&self) -> Result<Fronts, AllocError>
        ensures { IfOk result (λ f. f ≡ self.now) }
    {
        Ok(Fronts {
            step: self.step,
            states: self.states.clone()?,
        })
    }

    /// How many bytes of a frame lie behind the last place that has a state: those that its digest has still to take in.
    pub fn left(&self, frame: &[u8]) -> usize
        requires { AreFronts self.now frame.now }
        ensures { result ≡ length frame.now - length self.now.states.items * self.now.step }
    {
        frame.len() - self.states.len() * self.step
    }

    /// The last state that is there, or that of no bytes.
    pub fn last(&self, frame: &[u8]) -> Sha256
        requires { AreFronts self.now frame.now }
        ensures { Holds256 result (take (length self.now.states.items * self.now.step) frame.now) }
    {
        match self.states.as_slice().last() {
            Some(state) => state.clone().unwrap(),
            None => Sha256::new(),
        }
    }

    /// Adds the state at the next place.
    pub fn add(&mut self, state: &Sha256)
        requires { array_vec_len self.old.states < 15 }
        ensures states { self.new.states.items ≡ self.old.states.items ++ state.now ∷ [] }
        ensures step { self.new.step ≡ self.old.step }
    {
        self.states.push(state.clone().unwrap());
    }
}

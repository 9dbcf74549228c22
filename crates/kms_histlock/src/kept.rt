//! What may lie under the lock.
ghost use Rattle.std.specs.Prelude.{◌≡◌, ℕ, ◌≤◌, List, ◌++◌, length};

/// A value with a history that only grows: a list of entries, each with an owner, and numbers that are
/// counted of that list. Beside the history it has a part that never changes, and it is sound at all times.
pub trait Kept: Drop {
    /// An entry of the history.
    type Entry;
    /// What of the value never changes. No value of it is made.
    type Fixed;

    // The history of the value, the oldest entry first.
    ghost entries: { Self → List Self.Entry };

    // Whose entry it is; 0 for nobody's.
    ghost owner: { Self.Entry → ℕ };

    // The numbers that are counted of a history.
    ghost counted: { ℕ → List Self.Entry → ℕ };

    // What of the value never changes, as the script that a device runs.
    ghost fixed: { Self → Self.Fixed };

    // What holds of each value of the type, as that its history is a legal one. A call under the lock may rest on
    // it: the type's invariant itself is hidden from a call that is given in.
    ghost sound: { Self → Type 0 };

    /// It does nothing. It shows that the value is sound.
    fn shows(&self)
        ensures { sound self.now };

    /// How many entries the value's history has.
    fn length(&self) -> u64
        ensures { result ≡ length (entries self.now) };

    /// The `k`-th number that is counted of the value's history, `k` from 0 to 3.
    fn count(&self, k: u32) -> u64
        ensures { result ≡ counted k (entries self.now) };

    // A longer history has no smaller numbers.
    ghost grows: { (k : ℕ) (xs ys : List Self.Entry) → counted k xs ≤ counted k (xs ++ ys) };
}

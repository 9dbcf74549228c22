//! What a source and a sink of bytes promise.
ghost use Rattle.std.specs.Prelude.{◌≡◌, ◌<◌, ℕ, List, length, Option};
ghost use Rattle.std.specs.Io.{ReadsAtMost};
ghost use Rattle.std.specs.Io.KnownBytes.{ReadConsumes, WriteAppends};
ghost use Rattle.kms_io.specs.Causes.{HasCause};
ghost use Rattle.kms_io.specs.Bytes.{EndsExactly, WritesSome};

/// A read or a write failed.
#[derive(Clone, Copy, Debug, PartialEq, Eq)]
pub struct Failed;

/// Where bytes come from.
pub trait Source {
    /// The bytes that are left, if they are known.
    ghost left: { Self → Option (List ℕ) };

    /// How many reads have failed. It never falls, and a source may let it stay at 2^64 - 1.
    ghost faults: { Self → ℕ };

    /// Moves bytes of what is left to the front of `into`, which is not empty, and answers how many.
    /// 0 is the end of the input: it comes exactly where nothing is left. [`Failed`] comes only where
    /// the count of faults rose, and takes nothing; all else leaves the count as it was. What stands in
    /// `into` behind the bytes that were moved is left open.
    fn read(&mut self, into: &mut [u8]) -> Result<usize, Failed>
        requires { 0 < length into.old }
        ensures bound { ReadsAtMost result into.new }
        ensures bytes { ReadConsumes (left self.old) (left self.new) result into.new }
        ensures end { EndsExactly (left self.old) result }
        ensures cause { HasCause (faults self.old) (faults self.new) result };
}

/// Where bytes go to.
pub trait Sink {
    /// The bytes that were written, if they are known.
    ghost written: { Self → Option (List ℕ) };

    /// How many writes have failed. It never falls, and a sink may let it stay at 2^64 - 1.
    ghost faults: { Self → ℕ };

    /// Writes bytes from the front of `piece`, which is not empty, behind what was written, and answers
    /// how many: from 1 to the piece's length. [`Failed`] comes only where the count of faults rose, and
    /// writes nothing; all else leaves the count as it was. A sink that can take nothing of a piece fails.
    fn write(&mut self, piece: &[u8]) -> Result<usize, Failed>
        requires { 0 < length piece.now }
        ensures bound { WritesSome result piece.now }
        ensures bytes { WriteAppends (written self.old) (written self.new) result piece.now }
        ensures cause { HasCause (faults self.old) (faults self.new) result };
}

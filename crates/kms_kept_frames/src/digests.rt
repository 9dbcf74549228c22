//! Digests, two at a time.
ghost use Rattle.std.specs.Prelude.{◌≡◌};
ghost use Rattle.sha2.specs.Sha256.{sha256};
ghost use Rattle.kms_kept_frames.specs.Screens.{AreFronts};

use crate::fronts::{Fronts, PLACES};
use sha2::{Digest, Sha256};
use std::thread::{Threads, join_mut};

/// How many bytes are worth a thread of their own: a quarter of a MiB, whose digest takes about a millisecond.
pub const WORTH_A_THREAD: usize = 262_144;

/// The SHA-256 of bytes (FIPS 180-4).
pub fn digest_of(bytes: &[u8]) -> [u8; 32]
    ensures { result ≡ sha256 bytes.now }
{
    Sha256::digest(bytes)
}

/// The SHA-256 of a frame (FIPS 180-4). It begins with the last state that is there, and adds those at the places behind it.
pub fn digest_of_frame(frame: &[u8], fronts: &mut Fronts) -> [u8; 32]
    requires { AreFronts fronts.old frame.now }
    ensures digest { result ≡ sha256 frame.now }
    ensures fronts { AreFronts fronts.new frame.now }
{
    let mut hasher = fronts.last(frame);
    let (_, mut rest) = frame.split_at(frame.len() - fronts.left(frame));
    for _place in fronts.states.len()..PLACES {
        if rest.len() < fronts.step {
            break;
        }
        let (piece, behind) = rest.split_at(fronts.step);
        hasher.update(piece);
        fronts.add(&hasher);
        rest = behind;
    }
    hasher.update(rest);
    hasher.finalize()
}

/// The SHA-256 of each of two frames, side by side where both have much left to take in.
pub fn both_digests<R: Threads>(
    rt: &R,
    one: &[u8],
    fronts: &mut Fronts,
    other: &[u8],
    others: &mut Fronts,
) -> ([u8; 32], [u8; 32])
    requires one { AreFronts fronts.old one.now }
    requires other { AreFronts others.old other.now }
    ensures one { result.0 ≡ sha256 one.now }
    ensures fronts { AreFronts fronts.new one.now }
    ensures other { result.1 ≡ sha256 other.now }
    ensures others { AreFronts others.new other.now }
{
    if fronts.left(one).min(others.left(other)) < WORTH_A_THREAD {
        return (digest_of_frame(one, fronts), digest_of_frame(other, others));
    }
    let mut first = || -> [u8; 32]
        requires { AreFronts fronts.now one.now }
        ensures { (result ≡ sha256 one.entry.now) × AreFronts fronts.exit.now one.entry.now }
    { digest_of_frame(one, fronts) };
    let mut second = || -> [u8; 32]
        requires { AreFronts others.now other.now }
        ensures { (result ≡ sha256 other.entry.now) × AreFronts others.exit.now other.entry.now }
    { digest_of_frame(other, others) };
    join_mut(rt, &mut first, &mut second)
}

//! Labels as numbers, which are cheap to compare.
ghost use Rattle.std.specs.Prelude.{◌≡◌, ◌≤◌, ◌<◌, ◌^◌, ◌++◌, OnOk, length};
ghost use Rattle.kms_words.specs.Packed.{packed, packed_alone};

use crate::words::is_label;
use kms_model::NoMemory;

/// A word of at most 16 bytes as a number, whose digits to the base 256 are its bytes, the lowest first.
fn pack(word: &[u8]) -> u128
    requires { length word.now ≤ 16 }
    ensures value { result ≡ packed word.now }
    ensures small { result < 256 ^ length word.now }
{
    match word {
        [first, rest @ ..] => u128::from(*first) + 256 * pack(rest),
        [] => 0,
    }
}

/// Adds the number of a word that is a label.
pub fn push_packed(numbers: &mut Vec<u128>, word: &[u8]) -> Result<(), NoMemory>
    ensures { OnOk result (numbers.new.items ≡ numbers.old.items ++ packed_alone word.now) }
{
    if is_label(word) {
        numbers.push(pack(word))?;
    }
    Ok(())
}

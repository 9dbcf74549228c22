//! Words of a line.
ghost use Rattle.std.specs.Prelude.{◌≡◌, ◌<◌, ◌≤◌, ◌+◌, ℕ, List, [], Some, IsTrue, option_map, option_copied, length, IfSome};
ghost use Rattle.std.specs.Str.{bytes_eq};
ghost use Rattle.std.specs.List.{list_all};
ghost use Rattle.kms_model.specs.Firsts.{number_if};
ghost use Rattle.kms_model.specs.Script.Words.{strip};
ghost use Rattle.kms_model.specs.Script.Words.{until, from, dec, is_digit, is_label, is_label_rest, is_hex, hex_value, hex_from, strip, field_at, dec_at, label_at, end_at};

/// The largest number of 32 bits.
pub const MOST: u64 = 4_294_967_295;

/// The bytes before the first separator, and those from it on.
pub fn split_at_byte(bytes: &[u8], separator: u8) -> (&[u8], &[u8])
    ensures front { result.0.now ≡ until separator bytes.now }
    ensures back { result.1.now ≡ from separator bytes.now }
    ensures whole { length result.0.now + length result.1.now ≡ length bytes.now }
{
    let mut count = 0;
    let mut rest = bytes;
    'seeking: while let [b, after @ ..] = rest {
        if *b == separator {
            return (&bytes[..count], rest);
        }
        count += 1;
        rest = after;
    }
    (bytes, rest)
}

/// The bytes behind a given front.
pub fn strip<'a>(front: &[u8], bytes: &'a [u8]) -> Option<&'a [u8]>
    ensures { option_copied result ≡ strip front.now bytes.now }
{
    let mut left = front;
    let mut rest = bytes;
    'matching: while let [wanted, more @ ..] = left {
        let [found, after @ ..] = rest else {
            return None;
        };
        if wanted != found {
            return None;
        }
        left = more;
        rest = after;
    }
    Some(rest)
}

/// The number that a word spells in decimal digits, where it is at most `most`. Each number has one spelling:
/// `0`, or digits of which the first is not 0.
#[tactic(auto, unfolding(kms_model::specs::Script::Words::dec))]
pub fn read_dec(word: &[u8], most: u64) -> Option<u64>
    ensures value { result ≡ dec most word.now }
    ensures most { IfSome result (λ n. n ≤ most) }
{
    let [first, others @ ..] = word else {
        return None;
    };
    if *first == b'0' {
        return if others.is_empty() { Some(0) } else { None };
    }
    let mut number = 0u64;
    let mut rest = word;
    'reading: while let [b, after @ ..] = rest {
        if !b.is_ascii_digit() {
            return None;
        }
        let next = u128::from(number) * 10 + u128::from(*b - b'0');
        if next > u128::from(most) {
            return None;
        }
        number = next as u64;
        rest = after;
    }
    Some(number)
}

/// Whether a word is a label: a letter from `a` to `z`, and at most 15 such letters, digits and `_` behind it.
#[tactic(auto, unfolding(kms_model::specs::Script::Words::is_label))]
pub fn is_label(word: &[u8]) -> bool
    ensures { result ≡ is_label word.now }
{
    match word {
        [first, rest @ ..] => {
            if first.is_ascii_lowercase() && rest.len() <= 15 {
                all_label_rest(rest)
            } else {
                false
            }
        }
        [] => false,
    }
}

fn all_label_rest(word: &[u8]) -> bool
    ensures { result ≡ list_all is_label_rest word.now }
{
    word.iter().all(|b| is_label_rest(*b))
}

fn is_label_rest(b: u8) -> bool
    ensures { result ≡ is_label_rest b }
{
    b.is_ascii_lowercase() || b.is_ascii_digit() || b == b'_'
}

/// Whether a byte is a hexadecimal digit, `0` to `9` or `a` to `f`.
pub fn is_hex(b: u8) -> bool
    ensures { result ≡ is_hex b }
{
    b.is_ascii_digit() || (b >= b'a' && b <= b'f')
}

/// The number of a hexadecimal digit.
pub fn hex_value(b: u8) -> u32
    requires { IsTrue (is_hex b) }
    ensures value { result ≡ hex_value b }
    ensures small { result < 16 }
{
    if b.is_ascii_digit() {
        u32::from(b - b'0')
    } else {
        u32::from(b - b'a') + 10
    }
}

/// The number of at most eight hexadecimal digits, `0` to `9` and `a` to `f`.
pub fn read_digits(word: &[u8]) -> Option<u32>
    requires { length word.now ≤ 8 }
    ensures { result ≡ number_if (hex_from 0 word.now) (list_all is_hex word.now) }
{
    let mut number = 0u32;
    let mut rest = word;
    'reading: while let [b, after @ ..] = rest {
        if !is_hex(*b) {
            return None;
        }
        let digit = hex_value(*b);
        number = number * 16 + digit;
        rest = after;
    }
    Some(number)
}

/// A field is a blank and the word behind it: the word at the front of a line's bytes, and the bytes from the
/// next blank on.
#[tactic(auto, unfolding(kms_model::specs::Script::Words::field_at))]
pub fn take_field(bytes: &[u8]) -> Option<(&[u8], &[u8])>
    ensures shorter { IfSome result (λ x. length x.0.now + length x.1.now + 1 ≡ length bytes.now) }
    ensures value { option_map (λ x. (x.0.now, x.1.now)) result ≡ field_at bytes.now }
{
    match bytes {
        [b, rest @ ..] => {
            if *b == b' ' {
                Some(split_at_byte(rest, b' '))
            } else {
                None
            }
        }
        [] => None,
    }
}

/// A number at most `most`, and the bytes behind it.
#[tactic(auto, unfolding(kms_model::specs::Script::Words::dec_at))]
pub fn take_dec(bytes: &[u8], most: u64) -> Option<(u64, &[u8])>
    ensures value { option_map (λ x. (x.0, x.1.now)) result ≡ dec_at most bytes.now }
    ensures most { IfSome result (λ x. x.0 ≤ most) }
    ensures shorter { IfSome result (λ x. length x.1.now ≤ length bytes.now) }
{
    let (word, rest) = take_field(bytes)?;
    let number = read_dec(word, most)?;
    Some((number, rest))
}

/// A label, and the bytes behind it.
#[tactic(auto, unfolding(kms_model::specs::Script::Words::label_at))]
pub fn take_label(bytes: &[u8]) -> Option<(&[u8], &[u8])>
    ensures { option_map (λ x. (x.0.now, x.1.now)) result ≡ label_at bytes.now }
{
    let (word, rest) = take_field(bytes)?;
    if is_label(word) {
        Some((word, rest))
    } else {
        None
    }
}

/// The end of the line.
pub fn take_end(bytes: &[u8]) -> Option<()>
    ensures { result ≡ end_at bytes.now }
{
    match bytes {
        [] => Some(()),
        [_, ..] => None,
    }
}

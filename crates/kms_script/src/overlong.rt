//! Atomic lines with more assignments than a request may have. Of such a line no name is kept: its fault depends on
//! its form and on the labels that it makes alone.
ghost use Rattle.std.specs.Prelude.{◌≡◌, ◌≤◌, ◌<◌, ◌+◌, ◌^◌, ◌++◌, [], ℕ, Bool, false, true, Err, IfOk, OnOk, IsTrue, length, option_map};
ghost use Rattle.std.specs.Bool.{Decides, nat_eq};
ghost use Rattle.std.specs.List.{IsDistinct};
ghost use Rattle.kms_model.specs.Script.CommandLines.{atomic_read};
ghost use Rattle.kms_script.specs.Lines.{checked};
ghost use Rattle.kms_words.specs.Named.{HasRoomForNames};
ghost use Rattle.kms_words.specs.Packed.{made_words};
ghost use Rattle.kms_script.specs.Overlong.{AddsLabels, assign_label, atomic_labels, blank_count, has_many, labels_at, label_word, are_rising, value_label};

use kms_model::{NoMemory, Why};
use kms_words::{
    MAX_ASSIGNS, Names, is_label, push_packed, read_assign_words, read_dec, read_int, strip,
    take_dec, take_field, take_hex,
};
use std::alloc::Global;

/// The fewest bytes of an assignment that makes a label, as `enc0.p=+l`, with the blank before it.
const SHORTEST: usize = 10;

/// How many blanks bytes have.
fn count_blanks(bytes: &[u8]) -> usize
    ensures { result ≡ blank_count bytes.now }
{
    let mut count = 0usize;
    let mut rest = bytes;
    'counting: while let [b, after @ ..] = rest {
        count += usize::from(*b == b' ');
        rest = after;
    }
    count
}

/// Whether a line has more fields than an atomic line with 256 assignments.
pub fn has_many(fields: &[u8]) -> bool
    ensures { result ≡ has_many fields.now }
{
    count_blanks(fields) > MAX_ASSIGNS + 2
}

/// The label that a value makes, empty where it makes none; none for a word that is no value.
#[tactic(auto, unfolding(crate::specs::Overlong::value_label))]
fn value_label(word: &[u8]) -> Option<&[u8]>
    ensures { option_map (λ x. x.now) result ≡ option_map label_word (value_label word.now) }
{
    if let Some(label) = strip(b"@", word) {
        return if is_label(label) { Some(&[]) } else { None };
    }
    if let Some(label) = strip(b"+", word) {
        return if is_label(label) { Some(label) } else { None };
    }
    if let Some(digits) = strip(b"crtc", word) {
        return match read_dec(digits, 255) {
            Some(_) => Some(&[]),
            None => None,
        };
    }
    match read_int(word) {
        Some(_) => Some(&[]),
        None => None,
    }
}

/// The label that an assignment makes, empty where it makes none; none for a word that is no assignment.
#[tactic(auto, unfolding(crate::specs::Overlong::assign_label))]
fn assign_label(word: &[u8]) -> Option<&[u8]>
    ensures { option_map (λ x. x.now) result ≡ option_map label_word (assign_label word.now) }
{
    let words = read_assign_words(word)?;
    value_label(words.value)
}

/// Adds the numbers of the labels that the assignments of all fields make: false where a field is no assignment.
fn push_labels(numbers: &mut Vec<u128>, fields: &[u8]) -> Result<bool, NoMemory>
    ensures { IfOk result (λ formed.
        AddsLabels formed (labels_at fields.now) numbers.old.items numbers.new.items) }
{
    let mut rest = fields;
    'reading: while !rest.is_empty() {
        let Some((word, after)) = take_field(rest) else {
            return Ok(false);
        };
        let Some(label) = assign_label(word) else {
            return Ok(false);
        };
        push_packed(numbers, label)?;
        rest = after;
    }
    Ok(true)
}

/// Whether each number differs from the next.
fn are_rising(sorted: &[u128]) -> bool
    ensures { result ≡ are_rising sorted.now }
{
    let mut rest = sorted;
    'comparing: while let [first, others @ ..] = rest {
        if let [second, ..] = others
            && second == first
        {
            return false;
        }
        rest = others;
    }
    true
}

/// Whether numbers differ.
fn are_distinct(mut numbers: Vec<u128>) -> bool
    ensures { Decides result (IsDistinct nat_eq numbers.items) }
{
    numbers.sort_unstable();
    are_rising(numbers.as_slice())
}

/// The fault of an atomic line with more than 256 assignments, by the bytes behind its first word.
pub fn fault_of_many(names: &Names, alloc: Global, fields: &[u8]) -> Result<Why, NoMemory>
    requires once { names.now.names.is_twice ≡ false }
    requires many { IsTrue (has_many fields.now) }
    requires room { HasRoomForNames names.now.names (length fields.now) }
    ensures { IfOk result (λ why. checked (atomic_read names.now.names fields.now) ≡ Err why) }
{
    let Some((_, rest)) = take_hex(fields) else {
        return Ok(Why::Form);
    };
    let Some((_, rest)) = take_dec(rest, u64::MAX) else {
        return Ok(Why::Form);
    };
    let most = names.made() as usize + rest.len() / SHORTEST;
    let mut numbers = Vec::with_capacity(alloc, most)?;
    names.push_made(&mut numbers)?;
    if !push_labels(&mut numbers, rest)? {
        return Ok(Why::Form);
    }
    if are_distinct(numbers) {
        Ok(Why::Limit)
    } else {
        Ok(Why::Label)
    }
}

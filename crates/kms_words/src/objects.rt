//! The objects, properties and words of an assignment.
ghost use Rattle.std.specs.Prelude.{◌≡◌, ◌≤◌, IfSome, length, option_map};
ghost use Rattle.std.specs.List.{list_all};
ghost use Rattle.kms_model.specs.Script.CommandLines.{assign_words};
ghost use Rattle.kms_model.specs.Script.Grammar.{indexed, object, is_property_byte, is_property_word, known_property};

use crate::words::{read_dec, split_at_byte, strip};
use kms_model::Kind;
use kms_props::lookup;

fn with_index(kind: Kind, digits: &[u8]) -> Option<(Kind, u32)>
    ensures { result ≡ indexed kind digits.now }
{
    Some((kind, read_dec(digits, 255)? as u32))
}

/// The kind and the index of an object: `crtc`, `plane`, `conn` or `enc` with an index to 255.
#[tactic(auto, unfolding(kms_model::specs::Script::Grammar::object))]
pub fn read_object(word: &[u8]) -> Option<(Kind, u32)>
    ensures { result ≡ object word.now }
{
    if let Some(digits) = strip(b"crtc", word) {
        return with_index(Kind::Crtc, digits);
    }
    if let Some(digits) = strip(b"plane", word) {
        return with_index(Kind::Plane, digits);
    }
    if let Some(digits) = strip(b"conn", word) {
        return with_index(Kind::Conn, digits);
    }
    with_index(Kind::Enc, strip(b"enc", word)?)
}

fn is_property_byte(b: u8) -> bool
    ensures { result ≡ is_property_byte b }
{
    b.is_ascii_lowercase() || b.is_ascii_uppercase() || b.is_ascii_digit() || b == b'_'
}

fn all_property_bytes(word: &[u8]) -> bool
    ensures { result ≡ list_all is_property_byte word.now }
{
    word.iter().all(|b| is_property_byte(*b))
}

/// Whether a word may be the name of a property: 1 to 32 letters, digits and `_`.
fn is_property_word(word: &[u8]) -> bool
    ensures { result ≡ is_property_word word.now }
{
    !word.is_empty() && word.len() <= 32 && all_property_bytes(word)
}

/// The id of the property of a name, which some kind of object has in a profile.
pub fn known_property(profile: u32, name: &[u8]) -> Option<u32>
    ensures { result ≡ known_property profile name.now }
{
    if let Some(id) = lookup(profile, Kind::Plane, name) {
        return Some(id);
    }
    if let Some(id) = lookup(profile, Kind::Crtc, name) {
        return Some(id);
    }
    lookup(profile, Kind::Conn, name)
}

/// The words of an assignment.
#[derive(Clone, Copy)]
pub struct AssignWords<'a> {
    /// The kind of the object.
    pub kind: Kind,
    /// Its index, to 255.
    pub index: u32,
    /// The property's name.
    pub prop: &'a [u8],
    /// The value's word.
    pub value: &'a [u8],
}

/// The words of `OBJ.PROP=VALUE`.
#[tactic(auto, unfolding(kms_model::specs::Script::CommandLines::assign_words))]
pub fn read_assign_words(word: &[u8]) -> Option<AssignWords<'_>>
    ensures value { option_map (λ w. (w.kind, w.index, w.prop.now, w.value.now)) result
        ≡ assign_words word.now }
    ensures some { IfSome result (λ _. 1 ≤ length word.now) }
{
    let (object, tail) = split_at_byte(word, b'.');
    let (kind, index) = read_object(object)?;
    let (prop, given) = split_at_byte(strip(b".", tail)?, b'=');
    let value = strip(b"=", given)?;
    if !is_property_word(prop) {
        return None;
    }
    Some(AssignWords {
        kind,
        index,
        prop,
        value,
    })
}

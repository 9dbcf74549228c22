//! Atomic requests.
ghost use Rattle.std.specs.Prelude.{◌≡◌, ◌≤◌, ◌+◌, ℕ, Some, IfOk, IfSome, OnOk, length, option_map};
ghost use Rattle.kms_model.specs.Script.CommandLines.{property_read, value_read, assign_read, atomic_read};
ghost use Rattle.kms_words.specs.Fitting.{HasFilled};
ghost use Rattle.kms_words.specs.Named.{HasRoomForNames, NamesGrow, assigns_at};

use crate::names::Names;
use crate::numbers::{read_int, take_hex};
use crate::objects::{known_property, read_assign_words};
use crate::words::{is_label, read_dec, strip, take_dec, take_field};
use kms_model::{Assign, Command, NoMemory, PropRef, Request, Seq, Value};
use std::alloc::Global;

/// The property of a name.
#[tactic(auto, unfolding(kms_model::specs::Script::CommandLines::property_read))]
fn read_property(names: &mut Names, alloc: Global, word: &[u8]) -> Result<PropRef, NoMemory>
    requires { HasRoomForNames names.old.names 1 }
    ensures value { IfOk result (λ p. (p, names.new.names)
        ≡ property_read names.old.names word.now) }
    ensures grows { OnOk result (NamesGrow names.old.names names.new.names 1) }
    ensures before { names.new.before ≡ names.old.before }
{
    match known_property(names.profile(), word) {
        Some(id) => Ok(PropRef::Known(id)),
        None => Ok(PropRef::Unknown(names.say(alloc, word)?)),
    }
}

/// The value of a word: `@LABEL`, `+LABEL`, `crtc` with an index to 255, or a number.
#[tactic(auto, unfolding(kms_model::specs::Script::CommandLines::value_read))]
fn read_value(names: &mut Names, alloc: Global, word: &[u8]) -> Result<Option<Value>, NoMemory>
    requires { HasRoomForNames names.old.names 1 }
    ensures value { IfOk result (λ o. option_map (λ v. (v, names.new.names)) o
        ≡ value_read names.old.names word.now) }
    ensures grows { OnOk result (NamesGrow names.old.names names.new.names 1) }
    ensures before { names.new.before ≡ names.old.before }
{
    if let Some(label) = strip(b"@", word) {
        if !is_label(label) {
            return Ok(None);
        }
        return Ok(Some(Value::Named(names.say(alloc, label)?)));
    }
    if let Some(label) = strip(b"+", word) {
        if !is_label(label) {
            return Ok(None);
        }
        return Ok(Some(Value::New(names.make(alloc, label)?)));
    }
    if let Some(digits) = strip(b"crtc", word) {
        let Some(index) = read_dec(digits, 255) else {
            return Ok(None);
        };
        return Ok(Some(Value::Crtc(index as u32)));
    }
    let Some(number) = read_int(word) else {
        return Ok(None);
    };
    Ok(Some(Value::Num(number)))
}

/// The assignment of a word.
#[tactic(auto, unfolding(kms_model::specs::Script::CommandLines::assign_read))]
fn read_assign(names: &mut Names, alloc: Global, word: &[u8]) -> Result<Option<Assign>, NoMemory>
    requires { HasRoomForNames names.old.names 2 }
    ensures value { IfOk result (λ o. option_map (λ a. (a, names.new.names)) o
        ≡ assign_read names.old.names word.now) }
    ensures grows { OnOk result (NamesGrow names.old.names names.new.names 2) }
    ensures before { names.new.before ≡ names.old.before }
    ensures some { IfOk result (λ o. IfSome o (λ _. 1 ≤ length word.now)) }
{
    let Some(words) = read_assign_words(word) else {
        return Ok(None);
    };
    let prop = read_property(names, alloc, words.prop)?;
    let Some(value) = read_value(names, alloc, words.value)? else {
        return Ok(None);
    };
    Ok(Some(Assign {
        kind: words.kind,
        index: words.index,
        prop,
        value,
    }))
}

/// The assignments of all fields of a line's bytes.
fn read_assigns(
    names: &mut Names,
    alloc: Global,
    fields: &[u8],
) -> Result<Option<Seq<Assign>>, NoMemory>
    requires { HasRoomForNames names.old.names (length fields.now + 2) }
    ensures value { IfOk result (λ o. option_map (λ a. (a, names.new.names)) o
        ≡ assigns_at names.old.names fields.now) }
    ensures grows { OnOk result
        (NamesGrow names.old.names names.new.names (length fields.now + 2)) }
    ensures before { names.new.before ≡ names.old.before }
{
    let mut assigns = Seq::new(alloc);
    let mut rest = fields;
    'reading: while !rest.is_empty() {
        let Some((word, after)) = take_field(rest) else {
            return Ok(None);
        };
        let Some(assign) = read_assign(names, alloc, word)? else {
            return Ok(None);
        };
        assigns.push(assign)?;
        rest = after;
    }
    Ok(Some(assigns))
}

/// `FLAGS USERDATA` and 0 or more assignments.
#[tactic(auto, unfolding(kms_model::specs::Script::CommandLines::atomic_read))]
pub fn read_atomic(
    names: &mut Names,
    alloc: Global,
    bytes: &[u8],
) -> Result<Option<Command>, NoMemory>
    requires { HasRoomForNames names.old.names (length bytes.now + 2) }
    ensures value { IfOk result (λ o. option_map (λ c. (c, names.new.names)) o
        ≡ atomic_read names.old.names bytes.now) }
    ensures grows { OnOk result (NamesGrow names.old.names names.new.names (length bytes.now + 2)) }
    ensures before { names.new.before ≡ names.old.before }
    ensures filled { IfOk result (λ o. IfSome o HasFilled) }
{
    let Some((flags, rest)) = take_hex(bytes) else {
        return Ok(None);
    };
    let Some((user_data, rest)) = take_dec(rest, u64::MAX) else {
        return Ok(None);
    };
    let Some(assigns) = read_assigns(names, alloc, rest)? else {
        return Ok(None);
    };
    Ok(Some(Command::Atomic(Request {
        flags,
        user_data,
        assigns,
    })))
}

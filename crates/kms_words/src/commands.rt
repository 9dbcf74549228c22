//! Commands of one line.
ghost use Rattle.std.specs.Prelude.{◌≡◌, ◌≤◌, ◌+◌, ℕ, Some, IfOk, OnOk, IfSome, length, option_map};
ghost use Rattle.kms_model.specs.Script.CommandLines.{buffer_read, label_alone, addfb_read, mode_read, blob_read, thing_read, label_read, command_read, is_over};
ghost use Rattle.kms_words.specs.Fitting.{HasFilled};
ghost use Rattle.kms_words.specs.Named.{HasRoomForNames, NamesGrow, made_alone, said_alone};

use crate::lists::take_format;
use crate::modes::take_mode;
use crate::names::Names;
use crate::numbers::read_blob;
use crate::patterns::take_pattern;
use crate::requests::read_atomic;
use crate::words::{MOST, split_at_byte, take_dec, take_end, take_field, take_label};
use kms_model::{Command, Mode, NoMemory};
use std::alloc::Global;

/// One label.
#[tactic(auto, unfolding(kms_model::specs::Script::CommandLines::label_alone))]
fn label_alone(bytes: &[u8]) -> Option<&[u8]>
    ensures { option_map (λ x. x.now) result ≡ label_alone bytes.now }
{
    let (label, rest) = take_label(bytes)?;
    take_end(rest)?;
    Some(label)
}

/// `LABEL W H FMT PATTERN`.
#[tactic(auto, unfolding(kms_model::specs::Script::CommandLines::buffer_read))]
fn read_buffer(names: &mut Names, alloc: Global, bytes: &[u8]) -> Result<Option<Command>, NoMemory>
    requires { HasRoomForNames names.old.names 1 }
    ensures value { IfOk result (λ o. option_map (λ c. (c, names.new.names)) o
        ≡ buffer_read names.old.names bytes.now) }
    ensures grows { OnOk result (NamesGrow names.old.names names.new.names 1) }
    ensures before { names.new.before ≡ names.old.before }
    ensures filled { IfOk result (λ o. IfSome o HasFilled) }
{
    let Some((label, rest)) = take_label(bytes) else {
        return Ok(None);
    };
    let Some((width, rest)) = take_dec(rest, MOST) else {
        return Ok(None);
    };
    let Some((height, rest)) = take_dec(rest, MOST) else {
        return Ok(None);
    };
    let Some((format, rest)) = take_format(rest) else {
        return Ok(None);
    };
    let (width, height) = (width as u32, height as u32);
    let Some(pattern) = take_pattern(alloc, width, height, format, rest)? else {
        return Ok(None);
    };
    Ok(Some(Command::Buffer {
        label: names.make(alloc, label)?,
        width,
        height,
        format,
        pattern,
    }))
}

/// `LABEL BUFFERLABEL`.
#[tactic(auto, unfolding(kms_model::specs::Script::CommandLines::addfb_read))]
fn read_addfb(names: &mut Names, alloc: Global, bytes: &[u8]) -> Result<Option<Command>, NoMemory>
    requires { HasRoomForNames names.old.names 2 }
    ensures value { IfOk result (λ o. option_map (λ c. (c, names.new.names)) o
        ≡ addfb_read names.old.names bytes.now) }
    ensures grows { OnOk result (NamesGrow names.old.names names.new.names 2) }
    ensures before { names.new.before ≡ names.old.before }
    ensures filled { IfOk result (λ o. IfSome o HasFilled) }
{
    let Some((label, rest)) = take_label(bytes) else {
        return Ok(None);
    };
    let Some(buffer) = label_alone(rest) else {
        return Ok(None);
    };
    let label = names.make(alloc, label)?;
    let buffer = names.say(alloc, buffer)?;
    Ok(Some(Command::AddFb { label, buffer }))
}

/// `LABEL` and the 15 words of a mode.
#[tactic(auto, unfolding(kms_model::specs::Script::CommandLines::mode_read))]
fn read_mode(names: &mut Names, alloc: Global, bytes: &[u8]) -> Result<Option<Command>, NoMemory>
    requires { HasRoomForNames names.old.names 1 }
    ensures value { IfOk result (λ o. option_map (λ c. (c, names.new.names)) o
        ≡ mode_read names.old.names bytes.now) }
    ensures grows { OnOk result (NamesGrow names.old.names names.new.names 1) }
    ensures before { names.new.before ≡ names.old.before }
    ensures filled { IfOk result (λ o. IfSome o HasFilled) }
{
    let Some((label, rest)) = take_label(bytes) else {
        return Ok(None);
    };
    let Some((mode, rest)) = take_mode(rest) else {
        return Ok(None);
    };
    let Some(()) = take_end(rest) else {
        return Ok(None);
    };
    let label = names.make(alloc, label)?;
    Ok(Some(Command::Mode { label, mode }))
}

/// `LABEL BYTES`.
#[tactic(auto, unfolding(kms_model::specs::Script::CommandLines::blob_read))]
fn read_blob_words(
    names: &mut Names,
    alloc: Global,
    bytes: &[u8],
) -> Result<Option<Command>, NoMemory>
    requires { HasRoomForNames names.old.names 1 }
    ensures value { IfOk result (λ o. option_map (λ c. (c, names.new.names)) o
        ≡ blob_read names.old.names bytes.now) }
    ensures grows { OnOk result (NamesGrow names.old.names names.new.names 1) }
    ensures before { names.new.before ≡ names.old.before }
    ensures filled { IfOk result (λ o. IfSome o HasFilled) }
{
    let Some((label, rest)) = take_label(bytes) else {
        return Ok(None);
    };
    let Some((word, rest)) = take_field(rest) else {
        return Ok(None);
    };
    let Some(()) = take_end(rest) else {
        return Ok(None);
    };
    let Some(bytes) = read_blob(alloc, word)? else {
        return Ok(None);
    };
    let label = names.make(alloc, label)?;
    Ok(Some(Command::Blob { label, bytes }))
}

/// `LABEL` of a thing that the command makes.
fn make_alone(names: &mut Names, alloc: Global, bytes: &[u8]) -> Result<Option<u32>, NoMemory>
    requires { HasRoomForNames names.old.names 1 }
    ensures value { IfOk result (λ o. option_map (λ n. (n, names.new.names)) o
        ≡ made_alone names.old.names bytes.now) }
    ensures grows { OnOk result (NamesGrow names.old.names names.new.names 1) }
    ensures before { names.new.before ≡ names.old.before }
{
    match label_alone(bytes) {
        Some(label) => Ok(Some(names.make(alloc, label)?)),
        None => Ok(None),
    }
}

/// `LABEL` of a thing that the command names.
fn say_alone(names: &mut Names, alloc: Global, bytes: &[u8]) -> Result<Option<u32>, NoMemory>
    requires { HasRoomForNames names.old.names 1 }
    ensures value { IfOk result (λ o. option_map (λ n. (n, names.new.names)) o
        ≡ said_alone names.old.names bytes.now) }
    ensures grows { OnOk result (NamesGrow names.old.names names.new.names 1) }
    ensures before { names.new.before ≡ names.old.before }
{
    match label_alone(bytes) {
        Some(label) => Ok(Some(names.say(alloc, label)?)),
        None => Ok(None),
    }
}

/// A command that makes a thing, but no fence.
#[tactic(auto, unfolding(kms_model::specs::Script::CommandLines::thing_read))]
fn read_thing(
    names: &mut Names,
    alloc: Global,
    keyword: &[u8],
    fields: &[u8],
) -> Result<Option<Command>, NoMemory>
    requires { HasRoomForNames names.old.names 2 }
    ensures value { IfOk result (λ o. option_map (λ c. (c, names.new.names)) o
        ≡ thing_read names.old.names keyword.now fields.now) }
    ensures grows { OnOk result (NamesGrow names.old.names names.new.names 2) }
    ensures before { names.new.before ≡ names.old.before }
    ensures filled { IfOk result (λ o. IfSome o HasFilled) }
{
    if keyword == b"buffer".as_slice() {
        read_buffer(names, alloc, fields)
    } else if keyword == b"addfb".as_slice() {
        read_addfb(names, alloc, fields)
    } else if keyword == b"mode".as_slice() {
        read_mode(names, alloc, fields)
    } else if keyword == b"blob".as_slice() {
        read_blob_words(names, alloc, fields)
    } else {
        Ok(None)
    }
}

/// A command with one label alone, or one that makes a thing.
#[tactic(auto, unfolding(kms_model::specs::Script::CommandLines::label_read, kms_model::specs::Script::CommandLines::making_read, kms_model::specs::Script::CommandLines::naming_read))]
fn read_labelled(
    names: &mut Names,
    alloc: Global,
    keyword: &[u8],
    fields: &[u8],
) -> Result<Option<Command>, NoMemory>
    requires { HasRoomForNames names.old.names 2 }
    ensures value { IfOk result (λ o. option_map (λ c. (c, names.new.names)) o
        ≡ label_read names.old.names keyword.now fields.now) }
    ensures grows { OnOk result (NamesGrow names.old.names names.new.names 2) }
    ensures before { names.new.before ≡ names.old.before }
    ensures filled { IfOk result (λ o. IfSome o HasFilled) }
{
    if keyword == b"destroy".as_slice() {
        let label = say_alone(names, alloc, fields)?;
        return Ok(label.map(|label| Command::Destroy { label }));
    }
    if keyword == b"closefb".as_slice() {
        let label = say_alone(names, alloc, fields)?;
        return Ok(label.map(|label| Command::CloseFb { label }));
    }
    if keyword == b"fence".as_slice() {
        let label = make_alone(names, alloc, fields)?;
        return Ok(label.map(|label| Command::Fence { label }));
    }
    if keyword == b"signal".as_slice() {
        let label = say_alone(names, alloc, fields)?;
        return Ok(label.map(|label| Command::Signal { label }));
    }
    read_thing(names, alloc, keyword, fields)
}

/// The command that a line spells: its first word says which.
#[tactic(auto, unfolding(kms_model::specs::Script::CommandLines::command_read))]
pub fn command_of(
    names: &mut Names,
    alloc: Global,
    line: &[u8],
) -> Result<Option<Command>, NoMemory>
    requires { HasRoomForNames names.old.names (length line.now + 2) }
    ensures value { IfOk result (λ o. option_map (λ c. (c, names.new.names)) o
        ≡ command_read names.old.names line.now) }
    ensures grows { OnOk result (NamesGrow names.old.names names.new.names (length line.now + 2)) }
    ensures before { names.new.before ≡ names.old.before }
    ensures filled { IfOk result (λ o. IfSome o HasFilled) }
{
    let (keyword, fields) = split_at_byte(line, b' ');
    if keyword == b"atomic".as_slice() {
        return read_atomic(names, alloc, fields);
    }
    if keyword == b"wait".as_slice() {
        return Ok(match take_end(fields) {
            Some(()) => Some(Command::Wait),
            None => None,
        });
    }
    read_labelled(names, alloc, keyword, fields)
}

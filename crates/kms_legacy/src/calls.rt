//! Lines of older calls, and the other lines of a client in such scripts.
ghost use Rattle.std.specs.Prelude.{◌≡◌, ◌+◌, IfOk, OnOk, length, option_map};
ghost use Rattle.kms_model.specs.Legacy.LegacyCalls.{call_read, cursor_fields, cursor_read, is_call_word, legacy_command_read, pageflip_read, setcrtc_fields, setcrtc_read, setplane_fields, setplane_read};
ghost use Rattle.kms_words.specs.Named.{HasRoomForNames, NamesGrow};

use crate::fields::{
    is_off, take_corner, take_destination, take_event, take_index, take_named, take_part,
};
use kms_model::{Kind, LegacyCall, LegacyCommand, NoMemory, Topology};
use kms_words::{Names, command_of, split_at_byte, strip, take_dec, take_end};
use std::alloc::Global;

/// The most pixels of an edge of a framebuffer that stand before what `setcrtc` shows.
const MOST_PIXELS: u64 = 65535;

/// `@FB X Y @MODE CONN`, which shows a framebuffer on a CRTC.
#[tactic(auto, unfolding(kms_model::specs::Legacy::LegacyCalls::setcrtc_fields))]
fn read_setcrtc_fields(
    topology: &Topology,
    names: &mut Names,
    alloc: Global,
    crtc: u32,
    bytes: &[u8],
) -> Result<Option<LegacyCall>, NoMemory>
    requires { HasRoomForNames names.old.names 2 }
    ensures value { IfOk result (λ o. option_map (λ c. (c, names.new.names)) o
        ≡ setcrtc_fields topology.now names.old.names crtc bytes.now) }
    ensures grows { OnOk result (NamesGrow names.old.names names.new.names 2) }
    ensures before { names.new.before ≡ names.old.before }
{
    let Some((fb, rest)) = take_named(bytes) else {
        return Ok(None);
    };
    let Some((x, rest)) = take_dec(rest, MOST_PIXELS) else {
        return Ok(None);
    };
    let Some((y, rest)) = take_dec(rest, MOST_PIXELS) else {
        return Ok(None);
    };
    let Some((mode, rest)) = take_named(rest) else {
        return Ok(None);
    };
    let Some((conn, rest)) = take_index(topology, Kind::Conn, rest) else {
        return Ok(None);
    };
    let Some(()) = take_end(rest) else {
        return Ok(None);
    };
    let fb = names.say(alloc, fb)?;
    let mode = names.say(alloc, mode)?;
    Ok(Some(LegacyCall::SetCrtc {
        crtc,
        fb,
        x: x as u32,
        y: y as u32,
        mode,
        conn,
    }))
}

/// `CRTC off`, or `CRTC` and the fields of a framebuffer that it shows.
#[tactic(auto, unfolding(kms_model::specs::Legacy::LegacyCalls::setcrtc_read))]
fn read_setcrtc(
    topology: &Topology,
    names: &mut Names,
    alloc: Global,
    bytes: &[u8],
) -> Result<Option<LegacyCall>, NoMemory>
    requires { HasRoomForNames names.old.names 2 }
    ensures value { IfOk result (λ o. option_map (λ c. (c, names.new.names)) o
        ≡ setcrtc_read topology.now names.old.names bytes.now) }
    ensures grows { OnOk result (NamesGrow names.old.names names.new.names 2) }
    ensures before { names.new.before ≡ names.old.before }
{
    let Some((crtc, rest)) = take_index(topology, Kind::Crtc, bytes) else {
        return Ok(None);
    };
    if is_off(rest) {
        return Ok(Some(LegacyCall::CrtcOff { crtc }));
    }
    read_setcrtc_fields(topology, names, alloc, crtc, rest)
}

/// `CRTC @FB CX CY CW CH SX SY SW SH`, which puts a plane on a CRTC.
#[tactic(auto, unfolding(kms_model::specs::Legacy::LegacyCalls::setplane_fields))]
fn read_setplane_fields(
    topology: &Topology,
    names: &mut Names,
    alloc: Global,
    plane: u32,
    bytes: &[u8],
) -> Result<Option<LegacyCall>, NoMemory>
    requires { HasRoomForNames names.old.names 1 }
    ensures value { IfOk result (λ o. option_map (λ c. (c, names.new.names)) o
        ≡ setplane_fields topology.now names.old.names plane bytes.now) }
    ensures grows { OnOk result (NamesGrow names.old.names names.new.names 1) }
    ensures before { names.new.before ≡ names.old.before }
{
    let Some((crtc, rest)) = take_index(topology, Kind::Crtc, bytes) else {
        return Ok(None);
    };
    let Some((fb, rest)) = take_named(rest) else {
        return Ok(None);
    };
    let Some((dst, rest)) = take_destination(rest) else {
        return Ok(None);
    };
    let Some((src, rest)) = take_part(rest) else {
        return Ok(None);
    };
    let Some(()) = take_end(rest) else {
        return Ok(None);
    };
    let fb = names.say(alloc, fb)?;
    Ok(Some(LegacyCall::SetPlane {
        plane,
        crtc,
        fb,
        dst,
        src,
    }))
}

/// `PLANE off`, or `PLANE` and the fields of what it shows.
#[tactic(auto, unfolding(kms_model::specs::Legacy::LegacyCalls::setplane_read))]
fn read_setplane(
    topology: &Topology,
    names: &mut Names,
    alloc: Global,
    bytes: &[u8],
) -> Result<Option<LegacyCall>, NoMemory>
    requires { HasRoomForNames names.old.names 1 }
    ensures value { IfOk result (λ o. option_map (λ c. (c, names.new.names)) o
        ≡ setplane_read topology.now names.old.names bytes.now) }
    ensures grows { OnOk result (NamesGrow names.old.names names.new.names 1) }
    ensures before { names.new.before ≡ names.old.before }
{
    let Some((plane, rest)) = take_index(topology, Kind::Plane, bytes) else {
        return Ok(None);
    };
    if is_off(rest) {
        return Ok(Some(LegacyCall::PlaneOff { plane }));
    }
    read_setplane_fields(topology, names, alloc, plane, rest)
}

/// `CRTC @FB FLAGS USERDATA`, which shows another framebuffer.
#[tactic(auto, unfolding(kms_model::specs::Legacy::LegacyCalls::pageflip_read))]
fn read_pageflip(
    topology: &Topology,
    names: &mut Names,
    alloc: Global,
    bytes: &[u8],
) -> Result<Option<LegacyCall>, NoMemory>
    requires { HasRoomForNames names.old.names 1 }
    ensures value { IfOk result (λ o. option_map (λ c. (c, names.new.names)) o
        ≡ pageflip_read topology.now names.old.names bytes.now) }
    ensures grows { OnOk result (NamesGrow names.old.names names.new.names 1) }
    ensures before { names.new.before ≡ names.old.before }
{
    let Some((crtc, rest)) = take_index(topology, Kind::Crtc, bytes) else {
        return Ok(None);
    };
    let Some((fb, rest)) = take_named(rest) else {
        return Ok(None);
    };
    let Some((event, rest)) = take_event(rest) else {
        return Ok(None);
    };
    let Some((user_data, rest)) = take_dec(rest, u64::MAX) else {
        return Ok(None);
    };
    let Some(()) = take_end(rest) else {
        return Ok(None);
    };
    let fb = names.say(alloc, fb)?;
    Ok(Some(LegacyCall::PageFlip {
        crtc,
        fb,
        event,
        user_data,
    }))
}

/// `@FB X Y`, which shows a framebuffer on the cursor plane of a CRTC.
#[tactic(auto, unfolding(kms_model::specs::Legacy::LegacyCalls::cursor_fields))]
fn read_cursor_fields(
    names: &mut Names,
    alloc: Global,
    crtc: u32,
    bytes: &[u8],
) -> Result<Option<LegacyCall>, NoMemory>
    requires { HasRoomForNames names.old.names 1 }
    ensures value { IfOk result (λ o. option_map (λ c. (c, names.new.names)) o
        ≡ cursor_fields names.old.names crtc bytes.now) }
    ensures grows { OnOk result (NamesGrow names.old.names names.new.names 1) }
    ensures before { names.new.before ≡ names.old.before }
{
    let Some((fb, rest)) = take_named(bytes) else {
        return Ok(None);
    };
    let Some((x, y)) = take_corner(rest) else {
        return Ok(None);
    };
    let fb = names.say(alloc, fb)?;
    Ok(Some(LegacyCall::Cursor { crtc, fb, x, y }))
}

/// `CRTC off`, `CRTC move X Y`, or `CRTC` and the fields of a framebuffer.
#[tactic(auto, unfolding(kms_model::specs::Legacy::LegacyCalls::cursor_read))]
fn read_cursor(
    topology: &Topology,
    names: &mut Names,
    alloc: Global,
    bytes: &[u8],
) -> Result<Option<LegacyCall>, NoMemory>
    requires { HasRoomForNames names.old.names 1 }
    ensures value { IfOk result (λ o. option_map (λ c. (c, names.new.names)) o
        ≡ cursor_read topology.now names.old.names bytes.now) }
    ensures grows { OnOk result (NamesGrow names.old.names names.new.names 1) }
    ensures before { names.new.before ≡ names.old.before }
{
    let Some((crtc, rest)) = take_index(topology, Kind::Crtc, bytes) else {
        return Ok(None);
    };
    if is_off(rest) {
        return Ok(Some(LegacyCall::CursorOff { crtc }));
    }
    let Some(corner) = strip(b" move", rest) else {
        return read_cursor_fields(names, alloc, crtc, rest);
    };
    let Some((x, y)) = take_corner(corner) else {
        return Ok(None);
    };
    Ok(Some(LegacyCall::CursorMove { crtc, x, y }))
}

/// Whether a line's first word is that of a call.
fn is_call_word(word: &[u8]) -> bool
    ensures { result ≡ is_call_word word.now }
{
    word == b"setcrtc".as_slice()
        || word == b"setplane".as_slice()
        || word == b"pageflip".as_slice()
        || word == b"cursor".as_slice()
}

/// The call that a line spells, on a device: its first word says which.
#[tactic(auto, unfolding(kms_model::specs::Legacy::LegacyCalls::call_read))]
fn call_of(
    topology: &Topology,
    names: &mut Names,
    alloc: Global,
    line: &[u8],
) -> Result<Option<LegacyCall>, NoMemory>
    requires { HasRoomForNames names.old.names 2 }
    ensures value { IfOk result (λ o. option_map (λ c. (c, names.new.names)) o
        ≡ call_read topology.now names.old.names line.now) }
    ensures grows { OnOk result (NamesGrow names.old.names names.new.names 2) }
    ensures before { names.new.before ≡ names.old.before }
{
    let (keyword, fields) = split_at_byte(line, b' ');
    if keyword == b"setcrtc".as_slice() {
        read_setcrtc(topology, names, alloc, fields)
    } else if keyword == b"setplane".as_slice() {
        read_setplane(topology, names, alloc, fields)
    } else if keyword == b"pageflip".as_slice() {
        read_pageflip(topology, names, alloc, fields)
    } else if keyword == b"cursor".as_slice() {
        read_cursor(topology, names, alloc, fields)
    } else {
        Ok(None)
    }
}

/// The command that a line of a client spells, on a device: a call, or one of scripts that is no request.
#[tactic(auto, unfolding(kms_model::specs::Legacy::LegacyCalls::legacy_command_read))]
pub fn legacy_command_of(
    topology: &Topology,
    names: &mut Names,
    alloc: Global,
    line: &[u8],
) -> Result<Option<LegacyCommand>, NoMemory>
    requires { HasRoomForNames names.old.names (length line.now + 2) }
    ensures value { IfOk result (λ o. option_map (λ c. (c, names.new.names)) o
        ≡ legacy_command_read topology.now names.old.names line.now) }
    ensures grows { OnOk result (NamesGrow names.old.names names.new.names (length line.now + 2)) }
    ensures before { names.new.before ≡ names.old.before }
{
    let (keyword, _) = split_at_byte(line, b' ');
    if is_call_word(keyword) {
        let call = call_of(topology, names, alloc, line)?;
        return Ok(call.map(|call| LegacyCommand::Call(call)));
    }
    if keyword == b"atomic".as_slice() {
        return Ok(None);
    }
    let command = command_of(names, alloc, line)?;
    Ok(command.map(|command| LegacyCommand::Plain(command)))
}

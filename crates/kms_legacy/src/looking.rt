//! What the labels of a call name now: they are labels of the old script, and things were made under labels of the new one.
ghost use Rattle.std.specs.Prelude.{◌≡◌};
ghost use Rattle.kms_model.specs.Legacy.Translated.{fb_of_call, look_anew, mode_of_call};
ghost use Rattle.kms_model.specs.Request.Sets.{fb_of_look, mode_of_look};
ghost use Rattle.kms_model.specs.Script.CommandLines.{words_in};
ghost use Rattle.kms_words.specs.Named.{HasRoomForNames};
ghost use Rattle.kms_legacy.specs.Asked.{HasFbSize, HasModeSize};

use kms_model::{FbInfo, LegacyCall, Look, Mode, Seq};
use kms_serial::Serial;
use kms_words::{Names, name_word};

/// The legal mode that a label names.
fn mode_of(look: Look) -> Option<Mode>
    ensures is { result ≡ mode_of_look look }
    ensures size { HasModeSize result }
{
    match look {
        Look::Mode(mode, _) => {
            let (_width, _height) = (mode.hdisplay, mode.vdisplay);
            Some(mode)
        }
        _ => None,
    }
}

/// The framebuffer that a label names.
fn fb_of(look: Look) -> Option<FbInfo>
    ensures is { result ≡ fb_of_look look }
    ensures size { HasFbSize result }
{
    match look {
        Look::Fb(info) => {
            let (_width, _height) = (info.width, info.height);
            Some(info)
        }
        _ => None,
    }
}

/// What a label of the old script, by its number there, names on the device: its word has another number in the new script,
/// or none yet.
fn look_anew(old: &[Seq<u8>], names: &Names, serial: &Serial, label: u32) -> Look
    requires { HasRoomForNames names.now.names 1 }
    ensures { result ≡ look_anew old.now (words_in names.now.names) serial.now.world label }
{
    serial.look(names.number_of(name_word(old, label)))
}

/// The mode that a call names, where its label names an open one that is legal.
pub fn mode_of_call(
    old: &[Seq<u8>],
    names: &Names,
    serial: &Serial,
    call: &LegacyCall,
) -> Option<Mode>
    requires { HasRoomForNames names.now.names 1 }
    ensures is { result
        ≡ mode_of_call (look_anew old.now (words_in names.now.names) serial.now.world) call.now }
    ensures size { HasModeSize result }
{
    match *call {
        LegacyCall::SetCrtc { mode, .. } => mode_of(look_anew(old, names, serial, mode)),
        _ => None,
    }
}

/// The framebuffer that a call names, where its label names an open one.
pub fn fb_of_call(
    old: &[Seq<u8>],
    names: &Names,
    serial: &Serial,
    call: &LegacyCall,
) -> Option<FbInfo>
    requires { HasRoomForNames names.now.names 1 }
    ensures is { result
        ≡ fb_of_call (look_anew old.now (words_in names.now.names) serial.now.world) call.now }
    ensures size { HasFbSize result }
{
    match *call {
        LegacyCall::SetCrtc { fb, .. } => fb_of(look_anew(old, names, serial, fb)),
        LegacyCall::SetPlane { fb, .. } => fb_of(look_anew(old, names, serial, fb)),
        LegacyCall::PageFlip { fb, .. } => fb_of(look_anew(old, names, serial, fb)),
        LegacyCall::Cursor { fb, .. } => fb_of(look_anew(old, names, serial, fb)),
        _ => None,
    }
}

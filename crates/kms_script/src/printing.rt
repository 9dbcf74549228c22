//! The text of a script.
ghost use Rattle.std.specs.Prelude.{◌≡◌, ◌≤◌, ◌++◌, ◌∷◌, ℕ, List, [], Ok, codes, length, IfOk, OnOk};
ghost use Rattle.std.specs.Fmt.{decimal};
ghost use Rattle.std.specs.List.{flat_map};
ghost use Rattle.kms_model.specs.Report.TextLines.{line};
ghost use Rattle.kms_model.specs.Script.WholeInput.{input, script_limit};
ghost use Rattle.kms_model.specs.Script.Spelling.{Spells, client_lines, conn_words, device_lines, spelt_plane, spelling, text_of};
ghost use Rattle.kms_script.specs.ReadAnew.{IsLineOf};

use kms_model::{Command, NoMemory, PlaneInfo, Script, Seq, Topology};
use kms_words::{
    push_command, push_command_words, push_crtcs, push_formats, push_number, push_word, type_word,
};
use std::alloc::Global;

/// Adds a line of a word and a number.
fn push_numbered(text: &mut Vec<u8>, word: &[u8], number: u32) -> Result<(), NoMemory>
    ensures { OnOk result (text.new.items
        ≡ text.old.items ++ line (word.now ∷ decimal number ∷ [])) }
{
    text.extend_from_slice(word)?;
    push_number(text, u64::from(number))?;
    text.push(b'\n')?;
    Ok(())
}

/// Adds `plane TYPE LIST FMTS`.
fn push_plane(text: &mut Vec<u8>, plane: &PlaneInfo) -> Result<(), NoMemory>
    ensures { OnOk result (text.new.items ≡ text.old.items ++ line (spelt_plane plane.now)) }
{
    text.extend_from_slice(b"plane")?;
    push_word(text, type_word(plane.kind))?;
    text.push(b' ')?;
    push_crtcs(text, plane.crtcs)?;
    text.push(b' ')?;
    push_formats(text, plane.formats)?;
    text.push(b'\n')?;
    Ok(())
}

/// Adds `conn LIST`.
fn push_conn(text: &mut Vec<u8>, crtcs: u32) -> Result<(), NoMemory>
    ensures { OnOk result (text.new.items ≡ text.old.items ++ line (conn_words crtcs)) }
{
    text.extend_from_slice(b"conn ")?;
    push_crtcs(text, crtcs)?;
    text.push(b'\n')?;
    Ok(())
}

fn push_planes(text: &mut Vec<u8>, planes: &[PlaneInfo]) -> Result<(), NoMemory>
    ensures { OnOk result (text.new.items
        ≡ text.old.items ++ flat_map (λ p. line (spelt_plane p)) planes.now) }
{
    for plane in planes {
        push_plane(text, plane)?;
    }
    Ok(())
}

fn push_conns(text: &mut Vec<u8>, conns: &[u32]) -> Result<(), NoMemory>
    ensures { OnOk result (text.new.items
        ≡ text.old.items ++ flat_map (λ mask. line (conn_words mask)) conns.now) }
{
    for crtcs in conns {
        push_conn(text, *crtcs)?;
    }
    Ok(())
}

/// Adds the lines of a device.
fn push_device(text: &mut Vec<u8>, device: &Topology) -> Result<(), NoMemory>
    ensures { OnOk result (text.new.items ≡ text.old.items ++ text_of (device_lines device.now)) }
{
    push_numbered(text, b"crtcs", device.crtcs)?;
    push_planes(text, device.planes.as_slice())?;
    push_conns(text, device.conns.as_slice())
}

/// Adds the lines of a client.
fn push_client(
    alloc: Global,
    text: &mut Vec<u8>,
    names: &[Seq<u8>],
    commands: &[Command],
) -> Result<(), NoMemory>
    ensures { OnOk result (text.new.items
        ≡ text.old.items ++ text_of (client_lines names.now commands.now)) }
{
    text.extend_from_slice(b"client\n")?;
    for command in commands {
        push_command(alloc, text, names, command)?;
    }
    Ok(())
}

fn push_clients(
    alloc: Global,
    text: &mut Vec<u8>,
    names: &[Seq<u8>],
    clients: &[Seq<Command>],
) -> Result<(), NoMemory>
    ensures { OnOk result (text.new.items ≡ text.old.items
        ++ flat_map (λ commands. text_of (client_lines names.now commands)) clients.now) }
{
    for commands in clients {
        push_client(alloc, text, names, commands.as_slice())?;
    }
    Ok(())
}

/// The text that spells a script, in the grammar that `parse` reads. A script that no text spells is printed too: the
/// name with a number beyond the script's names is empty, and so is that of a property with an id beyond the device's
/// table; a list has those of its CRTCs 0 to 3 and of the three formats that are in its mask; a pixel has its format's
/// last digits, a mode's name ends before its first zero, and a plane of a type above 2 is a cursor. The only error is
/// want of memory.
pub fn print(alloc: Global, script: &Script) -> Result<Seq<u8>, NoMemory>
    ensures text { IfOk result (λ t. t ≡ spelling script.now) }

    // Each script has one spelling, and `parse` reads it as the same script, where it is no longer than a script may be.
    ensures one { IfOk result (λ t. (bytes : List ℕ) → Spells bytes script.now → t ≡ bytes) }
    ensures again { IfOk result (λ t. (bytes : List ℕ) → Spells bytes script.now
        → length t ≤ script_limit → input t ≡ Ok script.now) }
{
    let mut text = Vec::new(alloc);
    push_numbered(&mut text, b"kms", script.version)?;
    push_device(&mut text, &script.topology)?;
    push_clients(
        alloc,
        &mut text,
        script.names.as_slice(),
        script.clients.as_slice(),
    )?;
    Ok(Seq::from_vec(text))
}

/// The line of a command, without its line feed, in the words of a script's names; those that a script does not have are
/// written as `print` writes them. The only error is want of memory.
pub fn print_command(
    alloc: Global,
    names: &[Seq<u8>],
    command: &Command,
) -> Result<Seq<u8>, NoMemory>
    ensures { IfOk result (λ text. IsLineOf names.now command.now text) }
{
    let mut text = Vec::new(alloc);
    push_command_words(alloc, &mut text, names, command)?;
    Ok(Seq::from_vec(text))
}

//! Scripts with older calls, read.
ghost use Rattle.std.specs.Prelude.{◌≡◌, ◌<◌, ◌≤◌, ◌+◌, ℕ, false, true, IfOk, OnOk, length};
ghost use Rattle.kms_model.specs.Legacy.LegacyLines.{blank_legacy_draft, legacy_command_line, legacy_drafted, legacy_input, legacy_line_after, legacy_lines_after, legacy_script_in, SpellsLegacy};
ghost use Rattle.kms_model.specs.Script.InputLines.{rows_of};
ghost use Rattle.kms_model.specs.Script.WholeInput.{is_conn_of, is_nil, script_limit};
ghost use Rattle.kms_words.specs.Named.{HasRoomForNames};
ghost use Rattle.kms_script.specs.Drafted.{row_in};
ghost use Rattle.kms_script.specs.Stated.{Gives};
ghost use Rattle.kms_legacy.specs.Reading.{AreSoundLines, Becomes, BeginsClient, HasDevice, IsOfDevice, KeepsLines, device_draft, is_full, line_behind, lines_in};
ghost use Rattle.kms_legacy.specs.Translating.{IsWellFormedLegacy};

use crate::calls::legacy_command_of;
use kms_model::{LegacyCommand, LegacyScript, Script, Seq, Topology, Why};
use kms_script::{
    MAX_COMMANDS, MAX_INPUT, MAX_LABELS, MAX_SCRIPT, ParseError, Row, Stop, all_printable,
    read_topology, split_line,
};
use kms_words::Names;
use std::alloc::Global;

/// What the lines so far spell, the line `client` among them.
#[derive(Drop)]
pub struct Lines {
    topology: Topology,
    names: Names,
    commands: Seq<LegacyCommand>,
    /// The bytes of the lines, their line feeds among them.
    size: usize,
}

/// The line behind the lines of a device, which have so many bytes, and which is no connector's: it may be `client` alone.
/// Gives the bytes of the lines with it.
fn client_row(_topology: &Topology, size: usize, row: &Row<'_>) -> Result<usize, Stop>
    requires size { size ≤ script_limit }
    requires some { is_nil _topology.now.conns ≡ false }
    requires other { is_conn_of _topology.now.crtcs (row_in row.now) ≡ false }
    ensures value { BeginsClient _topology.now result
        (legacy_line_after (device_draft _topology.now false size) (row_in row.now)) }
    ensures within { IfOk result (λ n. n ≤ script_limit) }
{
    if !all_printable(row.text) {
        return Err(Stop::Fault(Why::Bytes));
    }
    if !row.is_ended {
        return Err(Stop::Fault(Why::Cut));
    }
    if row.text != b"client".as_slice() {
        return Err(Stop::Fault(Why::Form));
    }
    if row.text.len() >= MAX_SCRIPT - size {
        return Err(Stop::Fault(Why::Limit));
    }
    Ok(size + row.text.len() + 1)
}

impl Lines {
    /// The lines of a device, and `client` behind them, in so many bytes.
    fn new(alloc: Global, topology: Topology, size: usize) -> Lines
        requires { size ≤ script_limit }
        ensures value { lines_in result ≡ device_draft topology true size }
        ensures sound { AreSoundLines result }
        ensures topology { result.topology ≡ topology }
    {
        let names = Names::new(alloc, topology.profile);
        Lines {
            topology,
            names,
            commands: Seq::new(alloc),
            size,
        }
    }

    /// Whether the client has too many commands with one more, or the script makes too many labels.
    fn is_full(&self) -> bool
        ensures { result ≡ is_full self.now }
    {
        self.commands.len() >= MAX_COMMANDS || self.names.made() > MAX_LABELS
    }

    /// A command, or a call.
    #[tactic(auto, unfolding(kms_model::specs::Legacy::LegacyLines::legacy_command_line))]
    fn command_line(&mut self, alloc: Global, text: &[u8]) -> Result<(), Stop>
        requires sound { AreSoundLines self.old }
        requires room { HasRoomForNames self.old.names.names (length text.now + 2) }
        ensures value { Becomes result (legacy_command_line (lines_in self.old) text.now)
            (lines_in self.new) }
        ensures keeps { OnOk result (KeepsLines self.old self.new (length text.now + 2)) }
    {
        let read = legacy_command_of(&self.topology, &mut self.names, alloc, text)?;
        let Some(command) = read else {
            return Err(Stop::Fault(Why::Form));
        };
        if self.names.is_twice() {
            return Err(Stop::Fault(Why::Label));
        }
        if self.is_full() {
            return Err(Stop::Fault(Why::Limit));
        }
        self.commands.push(command)?;
        Ok(())
    }

    /// A line, or its first fault in the order Bytes, Cut, Form, Label, Limit. After a fault the lines are of no more use.
    #[tactic(auto, unfolding(kms_model::specs::Legacy::LegacyLines::legacy_line_after, kms_model::specs::Legacy::LegacyLines::legacy_line))]
    fn line(&mut self, alloc: Global, row: &Row<'_>) -> Result<(), Stop>
        requires sound { AreSoundLines self.old }
        requires short { length (row_in row.now).text ≤ 67108864 }
        ensures value { Becomes result (legacy_line_after (lines_in self.old) (row_in row.now))
            (lines_in self.new) }
        ensures sound { OnOk result (AreSoundLines self.new) }
        ensures topology { OnOk result (self.new.topology ≡ self.old.topology) }
        ensures longer { OnOk result (self.old.size < self.new.size) }
    {
        if !all_printable(row.text) {
            return Err(Stop::Fault(Why::Bytes));
        }
        if !row.is_ended {
            return Err(Stop::Fault(Why::Cut));
        }
        self.command_line(alloc, row.text)?;
        if row.text.len() >= MAX_SCRIPT - self.size {
            return Err(Stop::Fault(Why::Limit));
        }
        self.size += row.text.len() + 1;
        Ok(())
    }

    /// The script that all lines spell.
    fn into_script(self, alloc: Global) -> LegacyScript
        requires { AreSoundLines self }
        ensures value { result ≡ legacy_script_in (lines_in self) }
        ensures device { IsOfDevice self.topology result }
    {
        let version = self.topology.profile;
        LegacyScript {
            base: Script {
                version,
                topology: self.topology,
                names: self.names.into_words(),
                clients: Seq::new(alloc),
            },
            client: true,
            commands: self.commands,
        }
    }
}

/// A script without a client.
fn without_client(alloc: Global, topology: Topology) -> LegacyScript
    ensures value { (size : ℕ) → result ≡ legacy_script_in (device_draft topology false size) }
    ensures device { IsOfDevice topology result }
{
    let version = topology.profile;
    LegacyScript {
        base: Script {
            version,
            topology,
            names: Seq::new(alloc),
            clients: Seq::new(alloc),
        },
        client: false,
        commands: Seq::new(alloc),
    }
}

/// Reads the lines behind `client`, of which the first has a number, where the lines before have so many bytes.
fn behind_client(
    alloc: Global,
    topology: Topology,
    size: usize,
    first: u32,
    bytes: &[u8],
) -> Result<LegacyScript, ParseError>
    requires size { size ≤ script_limit }
    requires some { is_nil topology.conns ≡ false }
    requires room { first + length bytes.now ≤ 4294967295 }
    requires short { length bytes.now ≤ 67108864 }
    ensures value { Gives (λ s. s) result (legacy_drafted
        (legacy_lines_after (device_draft topology true size) first (rows_of bytes.now))) }
    ensures device { IfOk result (IsOfDevice topology) }
{
    let mut lines = Lines::new(alloc, topology, size);
    let mut line = first;
    let mut rest = bytes;
    'lines: while !rest.is_empty() {
        let (row, after) = split_line(rest);
        if let Err(stop) = lines.line(alloc, &row) {
            return Err(stop.at(line));
        }
        line += 1;
        rest = after;
    }
    Ok(lines.into_script(alloc))
}

/// The number of the line behind the lines of a device.
fn line_behind(topology: &Topology) -> u32
    requires planes { length topology.now.planes ≤ 16 }
    requires conns { length topology.now.conns ≤ 8 }
    ensures { result ≡ line_behind topology.now }
{
    3 + topology.planes.len() as u32 + topology.conns.len() as u32
}

/// Reads the lines behind a device that was read up to a place.
fn behind_device(
    alloc: Global,
    topology: Topology,
    place: usize,
    bytes: &[u8],
) -> Result<LegacyScript, ParseError>
    requires device { HasDevice bytes.now topology place }
    requires short { length bytes.now ≤ 67108864 }
    ensures value { Gives (λ s. s) result (legacy_drafted
        (legacy_lines_after blank_legacy_draft 1 (rows_of bytes.now))) }
    ensures device { IfOk result (IsOfDevice topology) }
{
    let rest = &bytes[place..];
    if rest.is_empty() {
        return Ok(without_client(alloc, topology));
    }
    let line = line_behind(&topology);
    let (row, after) = split_line(rest);
    match client_row(&topology, place, &row) {
        Ok(size) => behind_client(alloc, topology, size, line + 1, after),
        Err(stop) => Err(stop.at(line)),
    }
}

/// The script with older calls that the bytes spell, or their first fault.
///
/// The lines are those of a script (see `kms_script::parse`), but there is at most one `client`; in place of `atomic`, which
/// is `Form` as a second `client` is, its commands have these lines, in which CRTC, PLANE and CONN are indices of objects
/// of the device:
///
/// | line | what it does |
/// |---|---|
/// | `setcrtc CRTC @FB X Y @MODE CONN` | shows a framebuffer, from a pixel on, on a CRTC's primary plane, in a mode and on one connector; X and Y are from 0 to 65535 |
/// | `setcrtc CRTC off` | turns the CRTC off |
/// | `setplane PLANE CRTC @FB CX CY CW CH SX SY SW SH` | puts a plane on a CRTC; the numbers are those of `CRTC_X` to `SRC_H` |
/// | `setplane PLANE off` | takes the plane away |
/// | `pageflip CRTC @FB FLAGS USERDATA` | shows another framebuffer on the primary plane; FLAGS is `0x0`, or `0x1`, which asks for an event |
/// | `cursor CRTC @FB X Y` | shows a whole framebuffer on the cursor plane |
/// | `cursor CRTC move X Y` | moves the cursor plane |
/// | `cursor CRTC off` | takes the cursor plane away |
///
/// Calls count among the 4096 commands, and the other limits and all faults are those of a script.
#[tactic(auto, unfolding(kms_model::specs::Legacy::LegacyLines::legacy_input))]
pub fn parse_legacy(alloc: Global, bytes: &[u8]) -> Result<LegacyScript, ParseError>
    ensures value { Gives (λ s. s) result (legacy_input bytes.now) }
    ensures spells { IfOk result (SpellsLegacy bytes.now) }
    ensures formed { IfOk result IsWellFormedLegacy }
{
    if bytes.len() > MAX_INPUT {
        return Err(ParseError::Fault {
            line: 0,
            why: Why::Limit,
        });
    }
    match read_topology(alloc, bytes) {
        Ok(read) => behind_device(alloc, read.topology, read.rest, bytes),
        Err(error) => Err(error),
    }
}

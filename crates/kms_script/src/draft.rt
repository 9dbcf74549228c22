//! What the lines so far spell.
ghost use Rattle.std.specs.Prelude.{◌≡◌, ◌<◌, ◌≤◌, ◌+◌, ◌*◌, ℕ, Some, true, false, IfOk, IfSome, OnOk, length, option_map};
ghost use Rattle.std.specs.List.{list_all};
ghost use Rattle.kms_model.specs.Script.FewerCommands.{within};
ghost use Rattle.kms_model.specs.Script.Grammar.{is_printable};
ghost use Rattle.kms_model.specs.Script.WholeInput.{blank_draft, is_nil, crtcs_at, plane_type, plane_fields, conn_at, first_line, crtcs_line, plane_line, conn_line, client_line, command_line, later_line, script_line, clients_in, line_after, topology_in, script_in, is_conn_of, is_done, version_read};
ghost use Rattle.kms_words.specs.Fitting.{KeepsLimits, IsFitCount, IsFitPlane, IsFitMask, IsFitProfile, HasFitClients};
ghost use Rattle.kms_script.specs.Drafted.{draft_in, row_in, IsSoundDraft, HasRoomFor, StaysWithinLimits, Becomes, ended, is_full};

use crate::lines::read_line;
use crate::rows::Row;
use crate::stop::Stop;
use kms_model::{
    Command, MAX_CLIENTS, MAX_CONNECTORS, MAX_CRTCS, MAX_PLANES, NoMemory, PlaneInfo, Script, Seq,
    Topology, Why,
};
use kms_words::{
    MAX_COMMANDS, MAX_LABELS, MAX_SCRIPT, Names, read_crtcs, read_formats, split_at_byte, take_dec,
    take_end, take_field,
};
use std::alloc::Global;
use std::mem::replace;

/// `kms V`: the version, 1 or 2, which is the profile of the device.
fn read_version(text: &[u8]) -> Option<u32>
    ensures value { result ≡ version_read text.now }
    ensures fit { IfSome result IsFitProfile }
{
    if text == b"kms 1".as_slice() {
        Some(1)
    } else if text == b"kms 2".as_slice() {
        Some(2)
    } else {
        None
    }
}

/// `crtcs N`: the number of CRTCs, from 1 to 4.
#[tactic(auto, unfolding(kms_model::specs::Script::WholeInput::crtcs_at))]
fn take_count(bytes: &[u8]) -> Option<u32>
    ensures value { result ≡ crtcs_at bytes.now }
    ensures fit { IfSome result IsFitCount }
{
    let (count, rest) = take_dec(bytes, u64::from(MAX_CRTCS))?;
    take_end(rest)?;
    if count == 0 { None } else { Some(count as u32) }
}

/// The value of the property `type` that a word stands for.
fn plane_type(word: &[u8]) -> Option<u32>
    ensures value { result ≡ plane_type word.now }
    ensures most { IfSome result (λ kind. kind ≤ 2) }
{
    if word == b"overlay".as_slice() {
        Some(0)
    } else if word == b"primary".as_slice() {
        Some(1)
    } else if word == b"cursor".as_slice() {
        Some(2)
    } else {
        None
    }
}

/// `TYPE LIST FMTS`, of a device with 1 to 4 CRTCs.
#[tactic(auto, unfolding(kms_model::specs::Script::WholeInput::plane_fields))]
fn take_plane(crtcs: u32, bytes: &[u8]) -> Option<PlaneInfo>
    requires { IsFitCount crtcs }
    ensures value { result ≡ plane_fields crtcs bytes.now }
    ensures fit { IfSome result (IsFitPlane crtcs) }
{
    let (kind, rest) = take_field(bytes)?;
    let (list, rest) = take_field(rest)?;
    let (formats, rest) = take_field(rest)?;
    take_end(rest)?;
    Some(PlaneInfo {
        kind: plane_type(kind)?,
        crtcs: read_crtcs(crtcs, list)?,
        formats: read_formats(formats)?,
    })
}

/// `LIST`, of a device with 1 to 4 CRTCs.
#[tactic(auto, unfolding(kms_model::specs::Script::WholeInput::conn_at))]
fn take_conn(crtcs: u32, bytes: &[u8]) -> Option<u32>
    requires { IsFitCount crtcs }
    ensures value { result ≡ conn_at crtcs bytes.now }
    ensures fit { IfSome result (IsFitMask crtcs) }
{
    let (list, rest) = take_field(bytes)?;
    take_end(rest)?;
    read_crtcs(crtcs, list)
}

/// Whether all bytes of a line are from 0x20 to 0x7e.
pub fn all_printable(text: &[u8]) -> bool
    ensures { result ≡ list_all is_printable text.now }
{
    text.iter().all(|b| *b >= 0x20 && *b <= 0x7e)
}

/// Whether a line is that of a connector, of a device with 1 to 4 CRTCs.
fn is_conn(crtcs: u32, row: &Row<'_>) -> bool
    requires { IsFitCount crtcs }
    ensures { result ≡ is_conn_of crtcs (row_in row.now) }
{
    if !row.is_ended || !all_printable(row.text) {
        return false;
    }
    let (keyword, fields) = split_at_byte(row.text, b' ');
    keyword == b"conn".as_slice() && take_conn(crtcs, fields).is_some()
}

/// What the lines so far spell.
#[derive(Drop)]
pub struct Draft {
    /// How many of the first two lines there were.
    head: u8,
    /// The number of CRTCs, 0 before the second line.
    crtcs: u32,
    planes: Seq<PlaneInfo>,
    conns: Seq<u32>,
    names: Names,
    /// The commands of each client before the present one.
    clients: Seq<Seq<Command>>,
    /// Whether there is a present client, and its commands.
    has_client: bool,
    commands: Seq<Command>,
    /// The bytes of the lines, their line feeds among them.
    size: usize,
}

impl Draft {
    /// What no line spells.
    pub fn new(alloc: Global) -> Draft
        ensures value { draft_in result ≡ blank_draft }
        ensures sound { IsSoundDraft (draft_in result) }
    {
        Draft {
            head: 0,
            crtcs: 0,
            planes: Seq::new(alloc),
            conns: Seq::new(alloc),
            names: Names::new(alloc, 1),
            clients: Seq::new(alloc),
            has_client: false,
            commands: Seq::new(alloc),
            size: 0,
        }
    }

    /// Whether there is no connector yet.
    pub fn lacks_connectors(&self) -> bool
        ensures { result ≡ is_nil (draft_in self.now).conns }
    {
        self.conns.is_empty()
    }

    /// How many bytes the lines have, their line feeds among them.
    pub fn size(&self) -> usize
        ensures { result ≡ (draft_in self.now).size }
    {
        self.size
    }

    #[tactic(auto, unfolding(kms_model::specs::Script::WholeInput::first_line))]
    fn first_line(&mut self, text: &[u8]) -> Result<(), Stop>
        requires sound { IsSoundDraft (draft_in self.old) }
        requires first { (draft_in self.old).head ≡ 0 }
        ensures value { Becomes result (first_line (draft_in self.old) text.now)
            (draft_in self.new) }
        ensures keeps { OnOk result (StaysWithinLimits (draft_in self.old) (draft_in self.new) 0) }
    {
        let Some(version) = read_version(text) else {
            return Err(Stop::Fault(Why::Form));
        };
        self.head = 1;
        self.names.set_profile(version);
        Ok(())
    }

    #[tactic(auto, unfolding(kms_model::specs::Script::WholeInput::crtcs_line))]
    fn crtcs_line(&mut self, text: &[u8]) -> Result<(), Stop>
        requires sound { IsSoundDraft (draft_in self.old) }
        requires second { (draft_in self.old).head ≡ 1 }
        ensures value { Becomes result (crtcs_line (draft_in self.old) text.now)
            (draft_in self.new) }
        ensures keeps { OnOk result (StaysWithinLimits (draft_in self.old) (draft_in self.new) 0) }
    {
        let (keyword, fields) = split_at_byte(text, b' ');
        if keyword != b"crtcs".as_slice() {
            return Err(Stop::Fault(Why::Form));
        }
        let Some(count) = take_count(fields) else {
            return Err(Stop::Fault(Why::Form));
        };
        self.head = 2;
        self.crtcs = count;
        Ok(())
    }

    /// A plane, before the first connector.
    #[tactic(auto, unfolding(kms_model::specs::Script::WholeInput::plane_line))]
    fn plane_line(&mut self, fields: &[u8]) -> Result<(), Stop>
        requires sound { IsSoundDraft (draft_in self.old) }
        requires later { 2 ≤ (draft_in self.old).head }
        ensures value { Becomes result (plane_line (draft_in self.old) fields.now)
            (draft_in self.new) }
        ensures keeps { OnOk result (StaysWithinLimits (draft_in self.old) (draft_in self.new) 0) }
    {
        let Some(plane) = take_plane(self.crtcs, fields) else {
            return Err(Stop::Fault(Why::Form));
        };
        if !self.conns.is_empty() {
            return Err(Stop::Fault(Why::Form));
        }
        if self.planes.len() >= MAX_PLANES as usize {
            return Err(Stop::Fault(Why::Limit));
        }
        self.planes.push(plane)?;
        Ok(())
    }

    /// A connector, behind the planes and before the first client.
    #[tactic(auto, unfolding(kms_model::specs::Script::WholeInput::conn_line))]
    fn conn_line(&mut self, fields: &[u8]) -> Result<(), Stop>
        requires sound { IsSoundDraft (draft_in self.old) }
        requires later { 2 ≤ (draft_in self.old).head }
        ensures value { Becomes result (conn_line (draft_in self.old) fields.now)
            (draft_in self.new) }
        ensures keeps { OnOk result (StaysWithinLimits (draft_in self.old) (draft_in self.new) 0) }
    {
        let Some(mask) = take_conn(self.crtcs, fields) else {
            return Err(Stop::Fault(Why::Form));
        };
        if self.planes.is_empty() {
            return Err(Stop::Fault(Why::Form));
        }
        if self.has_client {
            return Err(Stop::Fault(Why::Form));
        }
        if self.conns.len() >= MAX_CONNECTORS as usize {
            return Err(Stop::Fault(Why::Limit));
        }
        self.conns.push(mask)?;
        Ok(())
    }

    /// How many clients there are.
    fn client_count(&self) -> usize
        requires { IsSoundDraft (draft_in self.now) }
        ensures { result ≡ length (clients_in (draft_in self.now)) }
    {
        if self.has_client {
            self.clients.len() + 1
        } else {
            self.clients.len()
        }
    }

    /// Ends the present client, where there is one.
    fn end_client(&mut self, alloc: Global) -> Result<(), NoMemory>
        requires { HasFitClients (draft_in self.old) }
        ensures value { OnOk result (draft_in self.new ≡ ended (draft_in self.old)) }
        ensures fit { OnOk result (HasFitClients (draft_in self.new)) }
    {
        let commands = replace(&mut self.commands, Seq::new(alloc));
        if self.has_client {
            self.clients.push(commands)?;
        }
        self.has_client = false;
        Ok(())
    }

    /// A client, behind the connectors.
    #[tactic(auto, unfolding(kms_model::specs::Script::WholeInput::client_line))]
    fn client_line(&mut self, alloc: Global, fields: &[u8]) -> Result<(), Stop>
        requires { IsSoundDraft (draft_in self.old) }
        ensures value { Becomes result (client_line (draft_in self.old) fields.now)
            (draft_in self.new) }
        ensures keeps { OnOk result (StaysWithinLimits (draft_in self.old) (draft_in self.new) 0) }
    {
        let Some(()) = take_end(fields) else {
            return Err(Stop::Fault(Why::Form));
        };
        if self.conns.is_empty() {
            return Err(Stop::Fault(Why::Form));
        }
        if self.client_count() >= MAX_CLIENTS as usize {
            return Err(Stop::Fault(Why::Limit));
        }
        self.end_client(alloc)?;
        self.has_client = true;
        Ok(())
    }

    /// Whether a client has too many commands with one more, or the script makes too many labels.
    fn is_full(&self) -> bool
        ensures { result ≡ is_full (draft_in self.now) }
    {
        self.commands.len() >= MAX_COMMANDS || self.names.made() > MAX_LABELS
    }

    /// A command of the present client.
    #[tactic(auto, unfolding(kms_model::specs::Script::WholeInput::command_line))]
    fn command_line(&mut self, alloc: Global, text: &[u8]) -> Result<(), Stop>
        requires sound { IsSoundDraft (draft_in self.old) }
        requires room { HasRoomFor (draft_in self.old) text.now }
        ensures value { Becomes result (command_line (draft_in self.old) text.now)
            (draft_in self.new) }
        ensures keeps { OnOk result (StaysWithinLimits (draft_in self.old)
            (draft_in self.new) (length text.now + 2)) }
    {
        if !self.has_client {
            return Err(Stop::Fault(Why::Form));
        }
        let command = read_line(&mut self.names, alloc, text)?;
        if self.is_full() {
            return Err(Stop::Fault(Why::Limit));
        }
        self.commands.push(command)?;
        Ok(())
    }

    /// A line behind the first two.
    #[tactic(auto, unfolding(kms_model::specs::Script::WholeInput::later_line))]
    fn later_line(&mut self, alloc: Global, text: &[u8]) -> Result<(), Stop>
        requires sound { IsSoundDraft (draft_in self.old) }
        requires later { 2 ≤ (draft_in self.old).head }
        requires room { HasRoomFor (draft_in self.old) text.now }
        ensures value { Becomes result (later_line (draft_in self.old) text.now)
            (draft_in self.new) }
        ensures keeps { OnOk result (StaysWithinLimits (draft_in self.old)
            (draft_in self.new) (length text.now + 2)) }
    {
        let (keyword, fields) = split_at_byte(text, b' ');
        if keyword == b"plane".as_slice() {
            self.plane_line(fields)
        } else if keyword == b"conn".as_slice() {
            self.conn_line(fields)
        } else if keyword == b"client".as_slice() {
            self.client_line(alloc, fields)
        } else {
            self.command_line(alloc, text)
        }
    }

    #[tactic(auto, unfolding(kms_model::specs::Script::WholeInput::script_line))]
    fn script_line(&mut self, alloc: Global, text: &[u8]) -> Result<(), Stop>
        requires sound { IsSoundDraft (draft_in self.old) }
        requires room { HasRoomFor (draft_in self.old) text.now }
        ensures value { Becomes result (script_line (draft_in self.old) text.now)
            (draft_in self.new) }
        ensures keeps { OnOk result (StaysWithinLimits (draft_in self.old)
            (draft_in self.new) (length text.now + 2)) }
    {
        match self.head {
            0 => self.first_line(text),
            1 => self.crtcs_line(text),
            _ => self.later_line(alloc, text),
        }
    }

    /// A line, or its first fault in the order Bytes, Cut, Form, Label, Limit. After a fault the draft is of no
    /// more use.
    #[tactic(auto, unfolding(kms_model::specs::Script::WholeInput::line_after))]
    pub fn line(&mut self, alloc: Global, row: &Row<'_>) -> Result<(), Stop>
        requires sound { IsSoundDraft (draft_in self.old) }
        requires room { HasRoomFor (draft_in self.old) (row_in row.now).text }
        ensures value { Becomes result (line_after (draft_in self.old) (row_in row.now))
            (draft_in self.new) }
        ensures sound { OnOk result (IsSoundDraft (draft_in self.new)) }
        ensures longer { OnOk result ((draft_in self.old).size < (draft_in self.new).size) }
    {
        if !all_printable(row.text) {
            return Err(Stop::Fault(Why::Bytes));
        }
        if !row.is_ended {
            return Err(Stop::Fault(Why::Cut));
        }
        self.script_line(alloc, row.text)?;
        if row.text.len() >= MAX_SCRIPT - self.size {
            return Err(Stop::Fault(Why::Limit));
        }
        self.size += row.text.len() + 1;
        Ok(())
    }

    /// A line, or its first fault, where a client has at most so many commands: any other fault of the line comes before that
    /// limit. After a fault the draft is of no more use.
    pub fn line_within(&mut self, alloc: Global, row: &Row<'_>, most: usize) -> Result<(), Stop>
        requires sound { IsSoundDraft (draft_in self.old) }
        requires room { HasRoomFor (draft_in self.old) (row_in row.now).text }
        ensures value { Becomes result
            (within most (line_after (draft_in self.old) (row_in row.now))) (draft_in self.new) }
        ensures sound { OnOk result (IsSoundDraft (draft_in self.new)) }
        ensures longer { OnOk result ((draft_in self.old).size < (draft_in self.new).size) }
    {
        self.line(alloc, row)?;
        if self.commands.len() > most {
            return Err(Stop::Fault(Why::Limit));
        }
        Ok(())
    }

    /// Whether the device is whole before a line: there are connectors, and the line is none.
    pub fn is_done(&self, row: &Row<'_>) -> bool
        requires { IsSoundDraft (draft_in self.now) }
        ensures { result ≡ is_done (draft_in self.now) (row_in row.now) }
    {
        !self.conns.is_empty() && !is_conn(self.crtcs, row)
    }

    /// The device that the lines spell, and the place behind them.
    pub fn into_device(self) -> (Topology, usize)
        ensures device { result.0 ≡ topology_in (draft_in self) }
        ensures place { result.1 ≡ (draft_in self).size }
    {
        let topology = Topology {
            profile: self.names.profile(),
            crtcs: self.crtcs,
            planes: self.planes,
            conns: self.conns,
        };
        (topology, self.size)
    }

    /// The script that all lines spell.
    pub fn into_script(mut self, alloc: Global) -> Result<Script, NoMemory>
        requires sound { IsSoundDraft (draft_in self) }
        requires whole { 0 < length (draft_in self).conns }
        ensures value { IfOk result (λ script. script ≡ script_in (draft_in self)) }
        ensures limits { IfOk result KeepsLimits }
    {
        self.end_client(alloc)?;
        let profile = self.names.profile();
        Ok(Script {
            version: profile,
            topology: Topology {
                profile,
                crtcs: self.crtcs,
                planes: self.planes,
                conns: self.conns,
            },
            names: self.names.into_words(),
            clients: self.clients,
        })
    }
}

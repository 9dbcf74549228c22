//! How far R lines stand in their order, by the lines alone.
ghost use Rattle.std.specs.Prelude.{◌≡◌, ◌<◌, ◌≤◌, ◌&&◌, if◌then◌else◌, length, nat_le, nat_lt};
ghost use Rattle.kms_audit.specs.Indexed.{IsIndexOf};
ghost use Rattle.kms_audit.specs.Ordered.{IsOrdered, block_with, with_line};
ghost use Rattle.kms_audit.specs.Sections.{has_command};
ghost use Rattle.kms_model.specs.declared.reports.Report.{Report};
ghost use Rattle.kms_model.specs.Report.RightAnswers.{has_place, is_in_turn, is_to_entry};
ghost use Rattle.kms_model.specs.Script.WellFormed.{IsWellFormed};

use crate::index::Index;
use crate::lines::answer_of;
use kms_model::{Answered, Report, Script, command_of};

/// R lines of a client that stand behind one another: the places of the first one and behind the last one.
#[derive(Clone, Copy, PartialEq, Eq)]
pub struct Block {
    /// The place of the first line.
    pub next: usize,
    /// The place behind the last one.
    pub end: usize,
}

impl Block {
    /// No line.
    pub const NONE: Block = Block { next: 0, end: 0 };

    /// The block with the line at a place behind its others.
    fn with(self, place: usize) -> Block
        requires { place < 67108864 }
        ensures { result ≡ block_with self place }
    {
        if self.end == 0 {
            Block {
                next: place,
                end: place + 1,
            }
        } else {
            Block {
                next: self.next,
                end: place + 1,
            }
        }
    }
}

/// The R lines of each client, the first client's at place 0.
pub type Blocks = [Block; 16];

/// How far R lines stand in their order.
#[derive(Clone, Copy)]
pub struct Ordered {
    /// The place of the first line that does not, if any.
    pub cut: Option<usize>,
    /// The lines before it, by client.
    pub blocks: Blocks,
}

/// Whether the place of a reply is as high as that of the one before it, of the same client: higher, behind an entry.
fn is_later(index: &Index, b: &Answered, a: &Answered) -> bool
    ensures { (r : Report) → IsIndexOf r index.now
        → result ≡ (if is_to_entry r b.now then nat_lt b.now.place a.now.place
        else nat_le b.now.place a.now.place) }
{
    if index.is_to_entry(b) {
        b.place < a.place
    } else {
        b.place <= a.place
    }
}

/// Whether a reply stands in the order of clients and commands behind the one before it, if any.
fn is_in_turn(index: &Index, before: Option<Answered>, a: &Answered) -> bool
    ensures { (r : Report) → IsIndexOf r index.now → result ≡ is_in_turn r before a.now }
{
    let Some(b) = before else {
        return a.command == 1;
    };
    if b.client == a.client {
        u64::from(a.command) == u64::from(b.command) + 1 && is_later(index, &b, a)
    } else {
        b.client < a.client && a.command == 1
    }
}

/// Whether the place of a reply is one in a journal of so many entries, and that of an entry is the entry's.
fn has_place(index: &Index, entries: usize, a: &Answered) -> bool
    ensures { (r : Report) → IsIndexOf r index.now → length r.journal ≡ entries
        → result ≡ has_place r a.now }
{
    if a.place > entries as u64 {
        return false;
    }
    match index.entry_place(a) {
        Some(place) => a.place == u64::from(place),
        None => true,
    }
}

/// Whether a reply stands where it may, to a command of the script.
fn stands(
    script: &Script,
    index: &Index,
    entries: usize,
    before: Option<Answered>,
    a: &Answered,
) -> bool
    ensures { (r : Report) → IsIndexOf r index.now → length r.journal ≡ entries
        → result ≡ (is_in_turn r before a.now
        && (has_place r a.now && has_command script.now a.now)) }
{
    is_in_turn(index, before, a)
        && has_place(index, entries, a)
        && command_of(script, a.client, a.command).is_some()
}

/// Notes that the line at a place is of a client.
fn note_line(blocks: &mut Blocks, client: u32, place: usize)
    requires some { 1 ≤ client }
    requires few { client ≤ 16 }
    requires among { place < 67108864 }
    ensures { blocks.new ≡ with_line blocks.old client place }
{
    let at = (client - 1) as usize;
    blocks[at] = blocks[at].with(place);
}

/// How far the R lines of a report stand in their order: that of clients and commands, at places that rise; each to a command
/// of the script.
pub fn order_of(script: &Script, index: &Index, report: &Report) -> Ordered
    requires formed { IsWellFormed script.now }
    requires index { IsIndexOf report.now index.now }
    requires few { length report.now.replies ≤ 67108864 }
    ensures { IsOrdered script.now report.now result }
{
    let entries = report.journal.len();
    let mut blocks = [Block::NONE; 16];
    let mut before: Option<Answered> = None;
    for (place, line) in report.replies.as_slice().iter().enumerate() {
        let a = answer_of(line);
        if !stands(script, index, entries, before, &a) {
            return Ordered {
                cut: Some(place),
                blocks,
            };
        }
        note_line(&mut blocks, a.client, place);
        before = Some(a);
    }
    Ordered { cut: None, blocks }
}

//! E lines: the events that replies tell, and the latches that they are of.
ghost use Rattle.std.specs.Prelude.{◌≡◌, ◌≤◌, ◌<◌, ◌+◌, ℕ, [], IfOk, IfSome, OnOk, length};
ghost use Rattle.kms_audit.specs.Eventing.{AreClientsFew, AreOwed, AreShort, IsTaken, block_of, is_owed, next_event, next_reader, owed_at, reader_behind, owed_by, tells_event, told_count, turned};
ghost use Rattle.kms_audit.specs.Ordered.{AreBlocksWithin};
ghost use Rattle.kms_audit.specs.Eventing.{AreRightBefore};
ghost use Rattle.kms_model.specs.declared.scripts.Script.{Script};
ghost use Rattle.kms_model.specs.Report.Right.{event_in, event_is_right, events_are_whole};
ghost use Rattle.kms_model.specs.Report.RightAnswers.{first_off};

use crate::lines::{EventFields, LatchFields, ReplyFields};
use crate::order::{Block, Blocks};
use crate::owners::Owner;
use crate::replies::same_event;
use kms_model::{Event, Kind, NoMemory, ObjId, Reply, Report};
use std::alloc::Global;
use std::collections::BTreeMap;

/// An event by its numbers: client, user data, sequence, and the CRTC's id.
type EventKey = (u32, u64, u32, u32);

/// How many L lines are left for each event.
type Owed = BTreeMap<EventKey, u32>;

/// The event of an L line, where its commit asks for one: the sequence is the count modulo 2^32.
fn owed_by(owners: &[Owner], line: &LatchFields) -> Option<EventKey>
    requires { line.now.0 ≤ 255 }
    ensures { result ≡ owed_by owners.now line.now }
{
    let owner = owners.get(line.1 as usize)?;
    if !owner.wants_event {
        return None;
    }
    let crtc = ObjId::of(Kind::Crtc, line.0).0;
    Some((
        owner.client,
        owner.user_data,
        (line.2 % 0x1_0000_0000) as u32,
        crtc,
    ))
}

/// How many L lines there are for an event so far.
fn count_of(owed: &Owed, key: &EventKey) -> u32
    ensures { result ≡ owed_at owed.now key.now }
{
    match owed.get(key) {
        Some(count) => *count,
        None => 0,
    }
}

/// One L line more.
fn note_line(owed: &mut Owed, owners: &[Owner], line: &LatchFields) -> Result<(), NoMemory>
    requires crtc { line.now.0 ≤ 255 }
    requires few { (key : ℕ × ℕ × ℕ × ℕ) → owed_at owed.old key < 67108864 }
    ensures { OnOk result ((key : ℕ × ℕ × ℕ × ℕ)
        → owed_at owed.new key ≡ owed_at owed.old key + is_owed (owed_by owners.now line.now) key) }
{
    let Some(key) = owed_by(owners, line) else {
        return Ok(());
    };
    let count = count_of(owed, &key);
    owed.insert(key, count + 1)?;
    Ok(())
}

/// How many L lines there are for each event.
fn owed_of(alloc: Global, owners: &[Owner], lines: &[LatchFields]) -> Result<Owed, NoMemory>
    requires crtcs { AreShort lines.now }
    requires few { length lines.now ≤ 67108864 }
    ensures { IfOk result (AreOwed owners.now lines.now) }
{
    let mut owed = BTreeMap::new(alloc);
    for line in lines {
        note_line(&mut owed, owners, line)?;
    }
    Ok(owed)
}

/// Takes one of the L lines that are left for an event of a client. Gives whether there was one.
fn take_line(owed: &mut Owed, line: &EventFields) -> Result<bool, NoMemory>
    ensures { IfOk result (IsTaken line.now owed.old owed.new) }
{
    let event = &line.1;
    let key = (line.0, event.user_data, event.sequence, event.crtc);
    let count = count_of(owed, &key);
    if count == 0 {
        return Ok(false);
    }
    owed.insert(key, count - 1)?;
    Ok(true)
}

/// Where the R lines of the client of the last E line are read on.
#[derive(Clone, Copy)]
struct Reader {
    /// The client, 0 before the first line.
    client: u32,
    /// Its R lines that are still to be read.
    block: Block,
}

/// The block of a client, by its number from 1; no line of any other number.
fn block_of(blocks: &Blocks, client: u32) -> Block
    ensures { result ≡ block_of blocks.now client }
{
    match client.checked_sub(1) {
        Some(at) => blocks.get(at as usize).copied().unwrap_or(Block::NONE),
        None => Block::NONE,
    }
}

impl Reader {
    /// The reader of an E line of a client: none where its client is below that of the line before.
    fn turn_to(self, blocks: &Blocks, client: u32) -> Option<Reader>
        ensures { result ≡ turned self blocks.now client }
    {
        if client == self.client {
            return Some(self);
        }
        if client < self.client {
            return None;
        }
        Some(Reader {
            client,
            block: block_of(blocks, client),
        })
    }

    /// The reader behind the R line at a place.
    fn behind(self, place: usize) -> Reader
        requires { place < 67108864 }
        ensures { result ≡ reader_behind self place }
    {
        Reader {
            client: self.client,
            block: Block {
                next: place + 1,
                end: self.block.end,
            },
        }
    }

    /// The next event of its R lines, with the reader behind it; none where there is no further one.
    fn next_event(self, replies: &[ReplyFields]) -> Option<(Event, Reader)>
        requires within { self.block.end ≤ length replies.now }
        requires few { length replies.now ≤ 67108864 }
        ensures { result ≡ next_event self replies.now }
    {
        for place in self.block.next..self.block.end {
            let Some(event) = event_of(&replies[place]) else {
                continue;
            };
            return Some((event, self.behind(place)));
        }
        None
    }
}

/// The event that an R line tells, if it tells one.
fn event_of(line: &ReplyFields) -> Option<Event>
    ensures { result ≡ event_in line.now.3 }
{
    match line.3 {
        Reply::Event(event) => Some(event),
        _ => None,
    }
}

/// The reader behind an E line that is the next event of its client's R lines; none where it is not.
fn next_reader(
    reader: Reader,
    blocks: &Blocks,
    replies: &[ReplyFields],
    line: &EventFields,
) -> Option<Reader>
    requires blocks { AreBlocksWithin (length replies.now) blocks.now }
    requires own { reader.block.end ≤ length replies.now }
    requires few { length replies.now ≤ 67108864 }
    ensures value { result ≡ next_reader reader blocks.now replies.now line.now }
    ensures within { IfSome result (λ r. r.block.end ≤ length replies.now) }
{
    let Some(turned) = reader.turn_to(blocks, line.0) else {
        return None;
    };
    let Some((event, next)) = turned.next_event(replies) else {
        return None;
    };
    if same_event(&line.1, &event) {
        Some(next)
    } else {
        None
    }
}

/// The place of the first E line that is not right, behind J, R and L lines that are: it is the next event that the replies
/// tell its client, and one L line is left for it. Each E line takes one of those that are of its numbers; which of them it is
/// makes no difference.
pub fn events_off(
    alloc: Global,
    report: &Report,
    blocks: &Blocks,
    owners: &[Owner],
) -> Result<Option<usize>, NoMemory>
    requires blocks { AreBlocksWithin (length report.now.replies) blocks.now }
    requires crtcs { AreShort report.now.latches }
    requires few { length report.now.latches ≤ 67108864 }
    requires replies { length report.now.replies ≤ 67108864 }
    ensures { IfOk result (λ off. (s : Script) → AreRightBefore s report.now blocks.now owners.now
        → off ≡ first_off (event_is_right s report.now) [] report.now.events) }
{
    let replies = report.replies.as_slice();
    let mut owed = owed_of(alloc, owners, report.latches.as_slice())?;
    let mut reader = Reader {
        client: 0,
        block: Block::NONE,
    };
    for (place, line) in report.events.as_slice().iter().enumerate() {
        let Some(next) = next_reader(reader, blocks, replies, line) else {
            return Ok(Some(place));
        };
        let taken = take_line(&mut owed, line)?;
        if !taken {
            return Ok(Some(place));
        }
        reader = next;
    }
    Ok(None)
}

/// Whether an R line tells an event.
fn tells_event(line: &ReplyFields) -> bool
    ensures { result ≡ tells_event line.now }
{
    event_of(line).is_some()
}

/// How many R lines tell an event.
fn told_count(replies: &[ReplyFields]) -> usize
    ensures { result ≡ told_count replies.now }
{
    replies.iter().filter(|line| tells_event(line)).count()
}

/// Whether no event that a reply tells is left out, where each E line is right: then there are as many.
pub fn events_are_whole(report: &Report) -> bool
    ensures { (s : Script) → first_off (event_is_right s report.now) [] report.now.events ≡ None
        → AreClientsFew report.now → result ≡ events_are_whole report.now }
{
    told_count(report.replies.as_slice()) == report.events.len()
}

//! R lines, compared at their places.
ghost use Rattle.std.specs.Prelude.{◌≡◌, ◌≤◌, ◌+◌, None, length};
ghost use Rattle.kms_audit.specs.Compared.{AreCompared, BlockIsCompared, differing_with};
ghost use Rattle.kms_audit.specs.Indexed.{IsIndexOf};
ghost use Rattle.kms_audit.specs.Judged.{IsAt};
ghost use Rattle.kms_model.specs.declared.reports.Report.{Report};
ghost use Rattle.kms_model.specs.Report.RightAnswers.{answer_from};

use crate::index::Index;
use crate::lines::{ReplyFields, answer_of, earliest};
use crate::order::{Block, Blocks};
use crate::replies::reply_is_right;
use crate::touches::Touches;
use kms_model::{Report, Script};
use kms_serial::Serial;

/// How far R lines are compared.
#[derive(Clone, Copy)]
pub struct Compared {
    /// The lines of each client that are still to be compared.
    blocks: Blocks,
    /// The place of the first line among those before whose reply is not right, if any.
    pub differing: Option<usize>,
}

impl Compared {
    /// No line is compared yet of these.
    pub fn none(blocks: &Blocks) -> Compared
        ensures blocks { result.blocks ≡ blocks.now }
        ensures differing { result.differing ≡ None }
    {
        Compared {
            blocks: *blocks,
            differing: None,
        }
    }

    /// Compares all lines of a place, at which the device stands.
    pub fn compare(
        &mut self,
        script: &Script,
        index: &Index,
        report: &Report,
        serial: &Serial,
        touches: &Touches,
        place: u32,
    )
        requires index { IsIndexOf report.now index.now }
        requires at { IsAt script.now report.now place serial.now touches.now }
        requires compared { AreCompared script.now report.now place self.old }
        ensures { AreCompared script.now report.now (place + 1) self.new }
    {
        let standing = Standing {
            script,
            index,
            serial,
            touches,
        };
        let replies = report.replies.as_slice();
        for client in 0..16usize {
            let mut block = self.blocks[client];
            let differing = self.differing;
            self.differing = compare_block(&standing, replies, place, &mut block, differing);
            self.blocks[client] = block;
        }
    }
}

/// What a reply is judged by where the device stands.
#[derive(Clone, Copy)]
struct Standing<'a> {
    /// The script whose commands are answered.
    script: &'a Script,
    /// What the report's lines are found by.
    index: &'a Index,
    /// The device of one thread, as it stands there.
    serial: &'a Serial,
    /// The commits that touched each object last.
    touches: &'a Touches,
}

/// The place of the first line whose reply is not right, with one more line, at this place among them.
fn with_line(
    standing: &Standing,
    line: &ReplyFields,
    at: usize,
    differing: Option<usize>,
) -> Option<usize>
    ensures { (r : Report) → IsIndexOf r standing.now.index.now
        → IsAt standing.now.script.now r (answer_from line.now).place standing.now.serial.now
        standing.now.touches.now
        → result ≡ differing_with standing.now.script.now r (answer_from line.now) at differing }
{
    let Standing {
        script,
        index,
        serial,
        touches,
    } = *standing;
    if reply_is_right(script, index, serial, touches, &answer_of(line)) {
        differing
    } else {
        earliest(differing, Some(at))
    }
}

/// Compares the lines of a client at a place, at which the device stands. Gives the place of the first line whose reply is not
/// right, of those before and of these.
fn compare_block(
    standing: &Standing,
    replies: &[ReplyFields],
    place: u32,
    block: &mut Block,
    differing: Option<usize>,
) -> Option<usize>
    requires within { block.old.end ≤ length replies.now }
    ensures { (r : Report) → IsIndexOf r standing.now.index.now → r.replies ≡ replies.now
        → IsAt standing.now.script.now r place standing.now.serial.now standing.now.touches.now
        → BlockIsCompared standing.now.script.now r place block.old block.new differing result }
{
    let mut first = differing;
    'lines: while block.next < block.end && replies[block.next].2 == place {
        let at = block.next;
        first = with_line(standing, &replies[at], at, first);
        block.next = at + 1;
    }
    first
}

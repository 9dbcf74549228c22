//! The first line of a report that is not right, section by section.
ghost use Rattle.std.specs.Prelude.{◌≡◌, ◌≤◌, [], IfOk, None};
ghost use Rattle.kms_audit.specs.Told.{IsAuditedBy, IsSpelt, told};
ghost use Rattle.kms_audit.specs.Sections.{AreRight, AreRightToLatches, answers_wrong, behind_answers, behind_events, behind_latches};
ghost use Rattle.kms_audit.specs.Walked.{IsWalk, IsWalked};
ghost use Rattle.kms_model.specs.declared.scripts.Script.{Script};
ghost use Rattle.kms_model.specs.Report.Right.{first_wrong, latch_is_right, latches_in};
ghost use Rattle.kms_model.specs.Report.RightAnswers.{answer_is_right, answers_in, entries_in, entry_is_right, first_off};
ghost use Rattle.kms_model.specs.Script.WellFormed.{IsWellFormed};

use crate::boundaries::boundary_off;
use crate::ends::end_is_right;
use crate::events::{events_are_whole, events_off};
use crate::freed::freed_off;
use crate::index::{Index, Lacking};
use crate::lines::earliest;
use crate::order::{Ordered, order_of};
use crate::placed::placed_off;
use crate::verdicts::Audit;
use crate::walk::Walk;
use kms_model::{NoMemory, Report, Script};
use std::alloc::Global;

/// What a report and its script are compared by.
#[derive(Drop)]
struct LineFacts {
    /// The commands that lines name.
    index: Index,
    /// What entries lack.
    lacking: Lacking,
    /// How far R lines stand in their order.
    ordered: Ordered,
}

/// The place of the first R line that is not right, where J lines are: the earliest that does not stand in its order, that may
/// not stand behind another client's, or whose reply is not the device's.
fn answers_off(of: &LineFacts, report: &Report, walk: &Walk) -> Option<usize>
    ensures { (s : Script) → IsAuditedBy s report.now of.now → IsWalked s report.now walk.now
        → result ≡ first_off (answer_is_right s report.now) [] (answers_in report.now) }
{
    let replies = report.replies.as_slice();
    let boundary = boundary_off(&of.lacking, replies);
    let later = earliest(boundary, walk.compared.differing);
    earliest(of.ordered.cut, later)
}

/// The place of the first L line that is not right, where J lines are: the earliest that may not stand there by the lines alone,
/// or that tells of no picture that its CRTC shows next.
fn latches_off(script: &Script, report: &Report, walk: &Walk) -> Option<usize>
    requires formed { IsWellFormed script.now }
    requires walked { IsWalked script.now report.now walk.now }
    ensures { result ≡ first_off (latch_is_right script.now report.now) [] (latches_in report.now) }
{
    let crtcs = script.topology.crtcs;
    let lines = report.latches.as_slice();
    let unmet = walk.showing.first_unmet(lines.len(), crtcs);
    let placed = placed_off(crtcs, lines);
    earliest(placed, unmet)
}

/// The number of the first line behind the E lines that is not right, where those before are.
fn behind_events(
    alloc: Global,
    script: &Script,
    report: &Report,
    of: &LineFacts,
    walk: &Walk,
    first: usize,
) -> Result<Option<usize>, NoMemory>
    requires formed { IsWellFormed script.now }
    requires audited { IsAuditedBy script.now report.now of.now }
    requires walked { IsWalked script.now report.now walk.now }
    requires spelt { IsSpelt report.now }
    requires few { first ≤ 536870912 }
    requires right { AreRight script.now report.now }
    ensures { IfOk result (λ line. line ≡ behind_events script.now report.now first) }
{
    if !events_are_whole(report) {
        return Ok(Some(first));
    }
    let freed = report.freed.as_slice();
    let off = freed_off(alloc, script, &walk.serial, freed)?;
    match off {
        Some(place) => {
            let line = first + place;
            Ok(Some(line))
        }
        None => {
            let blocks = &of.ordered.blocks;
            if end_is_right(script, report, &walk.serial, blocks, &walk.showing) {
                Ok(None)
            } else {
                let last = first + freed.len();
                Ok(Some(last))
            }
        }
    }
}

/// The number of the first line behind the L lines that is not right, where those before are.
fn behind_latches(
    alloc: Global,
    script: &Script,
    report: &Report,
    of: &LineFacts,
    walk: &Walk,
    first: usize,
) -> Result<Option<usize>, NoMemory>
    requires formed { IsWellFormed script.now }
    requires audited { IsAuditedBy script.now report.now of.now }
    requires walked { IsWalked script.now report.now walk.now }
    requires spelt { IsSpelt report.now }
    requires few { first ≤ 402653184 }
    requires right { AreRightToLatches script.now report.now }
    ensures { IfOk result (λ line. line ≡ behind_latches script.now report.now first) }
{
    let owners = walk.owners.as_slice();
    let off = events_off(alloc, report, &of.ordered.blocks, owners)?;
    match off {
        Some(place) => {
            let line = first + place;
            Ok(Some(line))
        }
        None => {
            let after = first + report.events.len();
            behind_events(alloc, script, report, of, walk, after)
        }
    }
}

/// The number of the first line behind the R lines that is not right, where those before are.
fn behind_answers(
    alloc: Global,
    script: &Script,
    report: &Report,
    of: &LineFacts,
    walk: &Walk,
    first: usize,
) -> Result<Option<usize>, NoMemory>
    requires formed { IsWellFormed script.now }
    requires audited { IsAuditedBy script.now report.now of.now }
    requires walked { IsWalked script.now report.now walk.now }
    requires spelt { IsSpelt report.now }
    requires few { first ≤ 268435456 }
    requires entries { first_off (entry_is_right script.now) [] (entries_in report.now) ≡ None }
    requires right { answers_wrong script.now report.now ≡ None }
    ensures { IfOk result (λ line. line ≡ behind_answers script.now report.now first) }
{
    if !of.lacking.is_nothing() {
        return Ok(Some(first));
    }
    let latch = latches_off(script, report, walk);
    match latch {
        Some(place) => {
            let line = first + place;
            Ok(Some(line))
        }
        None => {
            let after = first + report.latches.len();
            behind_latches(alloc, script, report, of, walk, after)
        }
    }
}

/// The number of the first line behind the J lines that is not right, where those are.
fn behind_entries(
    alloc: Global,
    script: &Script,
    report: &Report,
    of: &LineFacts,
    walk: &Walk,
) -> Result<Option<usize>, NoMemory>
    requires formed { IsWellFormed script.now }
    requires spelt { IsSpelt report.now }
    requires audited { IsAuditedBy script.now report.now of.now }
    requires walked { IsWalked script.now report.now walk.now }
    requires right { first_off (entry_is_right script.now) [] (entries_in report.now) ≡ None }
    ensures { IfOk result (λ line. line ≡ first_wrong script.now report.now) }
{
    let first = 1 + report.journal.len();
    let off = answers_off(of, report, walk);
    match off {
        Some(place) => {
            let line = first + place;
            Ok(Some(line))
        }
        None => {
            let after = first + report.replies.len();
            behind_answers(alloc, script, report, of, walk, after)
        }
    }
}

/// The number, from 1, of the first line that is not right.
fn first_wrong(
    alloc: Global,
    script: &Script,
    report: &Report,
    of: &LineFacts,
    walk: &mut Walk,
) -> Result<Option<usize>, NoMemory>
    requires formed { IsWellFormed script.now }
    requires spelt { IsSpelt report.now }
    requires audited { IsAuditedBy script.now report.now of.now }
    requires walk { IsWalk script.now report.now 0 walk.old }
    ensures { IfOk result (λ line. line ≡ first_wrong script.now report.now) }
{
    let off = walk.through(alloc, script, &of.index, report)?;
    match off {
        Some(place) => {
            let line = 1 + place;
            Ok(Some(line))
        }
        None => behind_entries(alloc, script, report, of, walk),
    }
}

/// What the lines alone tell.
fn facts_of_lines(alloc: Global, script: &Script, report: &Report) -> Result<LineFacts, NoMemory>
    requires formed { IsWellFormed script.now }
    requires spelt { IsSpelt report.now }
    ensures { IfOk result (IsAuditedBy script.now report.now) }
{
    let index = Index::of(alloc, report)?;
    let lacking = index.lacks(alloc, report.journal.as_slice())?;
    let ordered = order_of(script, &index, report);
    Ok(LineFacts {
        index,
        lacking,
        ordered,
    })
}

/// Whether each line of a report of a script is right, or which is the first that is not, by the device of one thread alone.
///
/// Lines are tried section by section, in their order: J, R, L, E, X and D; T lines say nothing. A line that is left out is told
/// by the line that stands in its place. What each line is held to is told in docs/SCRIPTS.md. Some text within the limit of an
/// input spells the report, so that numbers of lines and of things fit their types. The only error is want of memory.
pub fn audit(alloc: Global, script: &Script, report: &Report) -> Result<Audit, NoMemory>
    requires formed { IsWellFormed script.now }
    requires spelt { IsSpelt report.now }
    ensures { IfOk result (λ a. told a ≡ first_wrong script.now report.now) }
{
    let of = facts_of_lines(alloc, script, report)?;
    let mut walk = Walk::new(alloc, script, report, &of.ordered)?;
    let wrong = first_wrong(alloc, script, report, &of, &mut walk)?;
    match wrong {
        Some(line) => Ok(Audit::No { line: line as u32 }),
        None => Ok(Audit::Yes),
    }
}

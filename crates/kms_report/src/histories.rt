//! The report of a history.
ghost use Rattle.std.specs.Prelude.{◌≡◌, ◌++◌, All, IfOk, OnOk};
ghost use Rattle.std.specs.List.{flat_map, range_with_len};
ghost use Rattle.kms_core.specs.Run.{machine};
ghost use Rattle.kms_model.specs.Frames.Shown.{EachCanBeShown};
ghost use Rattle.kms_model.specs.Report.History as history;
ghost use Rattle.kms_report.specs.Images.{things_of};
ghost use Rattle.kms_report.specs.Right.{IsRight};
ghost use Rattle.kms_report.specs.Telling.{HasSmallIndex, history_options, entry_text, freed_text, latches_text};

use crate::answers::{Section, push_sections};
use crate::ends::push_end;
use crate::lines::{push_entry, push_freed, push_step};
use crate::right::has_no_wrong_line;
use crate::tellers::Tells;
use crate::told::Told;
use kms_core::Core;
use kms_kept_frames::{OneThread, SeveralThreads};
use kms_model::{Latch, NoMemory, Script, Seq, Step};
use std::alloc::Global;
use std::thread::Threads;

/// What a report has besides its lines.
#[derive(Clone, Copy, PartialEq, Eq)]
pub struct Options {
    /// The steps, in order of time.
    pub trace: bool,
    /// Each frame as a portable pixmap, behind the line of its latch.
    pub ppm: bool,
}

/// Adds the journal: a line for each accepted command.
fn push_journal(alloc: Global, text: &mut Vec<u8>, journal: &[(u32, u32)]) -> Result<(), NoMemory>
    ensures { OnOk result (text.new.items
        ≡ text.old.items ++ flat_map entry_text journal.now) }
{
    for entry in journal {
        push_entry(alloc, text, entry.0, entry.1)?;
    }
    Ok(())
}

/// Adds the latches of all CRTCs.
fn push_all_latches<T: Tells>(
    teller: &T,
    alloc: Global,
    text: &mut Vec<u8>,
    core: &Core,
    latches: &[Latch],
    pixmap: bool,
) -> Result<(), NoMemory>
    requires teller { T.can_tell teller.now }
    requires can { All (λ l. EachCanBeShown (things_of core.now) l.picture) latches.now }
    ensures { OnOk result (text.new.items ≡ text.old.items
        ++ flat_map (latches_text (machine core.now) pixmap latches.now)
        (range_with_len 0 core.now.script.topology.crtcs)) }
{
    let crtcs = core.script().topology.crtcs;
    for crtc in 0..crtcs {
        let told = Told {
            core,
            crtc,
            latches,
            pixmap,
        };
        teller.push(alloc, text, &told)?;
    }
    Ok(())
}

/// Adds the framebuffers freed, each by its label and its id.
fn push_all_freed(
    alloc: Global,
    text: &mut Vec<u8>,
    names: &Seq<Seq<u8>>,
    freed: &[(u32, u32)],
) -> Result<(), NoMemory>
    ensures { OnOk result (text.new.items
        ≡ text.old.items ++ flat_map (freed_text names.now) freed.now) }
{
    for framebuffer in freed {
        push_freed(alloc, text, names, framebuffer.0, framebuffer.1)?;
    }
    Ok(())
}

/// Adds the steps.
fn push_steps(alloc: Global, text: &mut Vec<u8>, steps: &[Step]) -> Result<(), NoMemory>
    requires { All HasSmallIndex steps.now }
    ensures { OnOk result (text.new.items
        ≡ text.old.items ++ flat_map history.step_line steps.now) }
{
    for step in steps {
        push_step(alloc, text, step)?;
    }
    Ok(())
}

/// Adds the steps where they are wanted.
fn push_trace(alloc: Global, text: &mut Vec<u8>, core: &Core, wanted: bool) -> Result<(), NoMemory>
    ensures { OnOk result (text.new.items ≡ text.old.items
        ++ history.if_wanted wanted (flat_map history.step_line core.now.steps)) }
{
    core.is_a_history();
    if !wanted {
        return Ok(());
    }
    push_steps(alloc, text, core.history())
}

/// The report, by one who tells of latches.
fn report_by<T: Tells>(
    teller: &T,
    alloc: Global,
    script: &Script,
    core: &Core,
    options: Options,
) -> Result<Seq<u8>, NoMemory>
    requires teller { T.can_tell teller.now }
    requires script { script.now ≡ core.now.script }
    ensures { IfOk result (λ text. text
        ≡ history.text core.now.script core.now.steps (history_options options)) }
{
    core.is_a_history();
    kms_laws::what_was_latched_can_be_composed();
    kms_laws::events_read_are_replies();
    let clients = script.clients.len() as u32;
    let mut text = Vec::new(alloc);
    push_journal(alloc, &mut text, core.journal())?;
    push_sections(alloc, &mut text, Section::Replies, clients, core.replies())?;
    push_all_latches(teller, alloc, &mut text, core, core.latched(), options.ppm)?;
    push_sections(alloc, &mut text, Section::Events, clients, core.replies())?;
    push_all_freed(alloc, &mut text, &script.names, core.freed())?;
    push_end(alloc, &mut text, &script.names, core)?;
    push_trace(alloc, &mut text, core, options.trace)?;
    Ok(Seq::from_vec(text))
}

/// The report of the history of a script: the journal, the replies by client, the latches by CRTC with the digest of each
/// frame, the events read by client, the framebuffers freed, how the history ended, and what the options ask for besides.
/// Lines of one kind are in order of time, but for their clients and CRTCs. Without pixmaps, no line is wrong: each is one of
/// a report's, and says what the device of one thread does.
///
/// The only error is want of memory. The time is linear in the history, the frames and the text. Besides the text there are two
/// frames at a time, kept or being made, and no other. A picture that is one of the two that its CRTC showed last has its frame
/// and its digest there; else what differs from one of these is drawn, and digested
/// from the last kept place before the first row drawn.
pub fn report(
    alloc: Global,
    script: &Script,
    core: &Core,
    options: Options,
) -> Result<Seq<u8>, NoMemory>
    requires { script.now ≡ core.now.script }
    ensures exact { IfOk result (λ text. text
        ≡ history.text core.now.script core.now.steps (history_options options)) }
    ensures right { IfOk result (IsRight core.now.script options) }
{
    has_no_wrong_line(core);
    report_by(&OneThread, alloc, script, core, options)
}

/// The same report, made by several threads that only compute: one for each processor shares the rows of a frame. Where the first two
/// frames of a CRTC have a quarter of a MiB or more, and none is wanted as a pixmap, two strands share out its pictures. Each makes
/// its own frames side by side with the other, each of the one before it, and has half of the threads for their rows.
/// Else two digests are made at a time.
pub fn report_with<R: Threads + Sync>(
    rt: &R,
    alloc: Global,
    script: &Script,
    core: &Core,
    options: Options,
) -> Result<Seq<u8>, NoMemory>
    requires { script.now ≡ core.now.script }
    ensures exact { IfOk result (λ text. text
        ≡ history.text core.now.script core.now.steps (history_options options)) }
    ensures right { IfOk result (IsRight core.now.script options) }
{
    has_no_wrong_line(core);
    report_by(&SeveralThreads { rt }, alloc, script, core, options)
}

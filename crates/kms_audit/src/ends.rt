//! The D line: how the history ended.
ghost use Rattle.std.specs.Prelude.{◌≡◌};
ghost use Rattle.std.specs.List.{position};
ghost use Rattle.std.specs.Str.{bytes_eq};
ghost use Rattle.kms_audit.specs.Ended.{AllIsTold};
ghost use Rattle.kms_audit.specs.Judged.{IsBehind};
ghost use Rattle.kms_audit.specs.Ordered.{IsWholeOrder};
ghost use Rattle.kms_model.specs.declared.reports.Report.{Report};
ghost use Rattle.kms_model.specs.Machine.Histories.{is_made_by_command};
ghost use Rattle.kms_model.specs.Device.World.{thing_labelled};
ghost use Rattle.kms_model.specs.Report.Right.{all_is_answered, end_is_right, label_is_of_fence};
ghost use Rattle.kms_model.specs.Script.WellFormed.{IsWellFormed};

use crate::latches::Showing;
use crate::order::{Block, Blocks};
use kms_model::{Command, End, Reply, Report, Script, Seq};
use kms_serial::Serial;

/// Whether each command of the script has an R line, where all R lines are right: a client's are those of its first commands.
fn all_is_answered(script: &Script, blocks: &Blocks) -> bool
    requires { IsWellFormed script.now }
    ensures { (r : Report) → IsWholeOrder script.now r blocks.now
        → result ≡ all_is_answered script.now r }
{
    for (at, commands) in script.clients.as_slice().iter().enumerate() {
        let block = blocks.get(at).copied().unwrap_or(Block::NONE);
        let lines = block.end.saturating_sub(block.next);
        let same = lines == commands.len();
        if !same {
            return false;
        }
    }
    true
}

/// The number of a label among the names, if it is one of them.
fn number_of(names: &[Seq<u8>], label: &[u8]) -> Option<usize>
    ensures { result ≡ position (bytes_eq label.now) names.now }
{
    for (number, name) in names.iter().enumerate() {
        let same = label == name.as_slice();
        if same {
            return Some(number);
        }
    }
    None
}

/// Whether a label, by its number from 0, is that of a fence that a command made: the device would signal it.
fn is_fence(serial: &Serial, number: u32) -> bool
    ensures { result ≡ is_made_by_command (thing_labelled serial.now.world.things number) }
{
    let signal = Command::Signal { label: number };
    matches!(serial.preview(1, &signal), Reply::Done)
}

/// Whether a label is that of a fence that a command of the journal made.
fn label_is_of_fence(script: &Script, serial: &Serial, label: &[u8]) -> bool
    requires { IsWellFormed script.now }
    ensures { (r : Report) → IsBehind script.now r serial.now
        → result ≡ label_is_of_fence script.now r label.now }
{
    match number_of(script.names.as_slice(), label) {
        Some(number) => is_fence(serial, number as u32),
        None => false,
    }
}

/// Whether the D line is right, behind lines that are: drained where each command has an R line and each CRTC an L line for all
/// that it shows; stalled with the label of a fence; open always.
pub fn end_is_right(
    script: &Script,
    report: &Report,
    serial: &Serial,
    blocks: &Blocks,
    showing: &Showing,
) -> bool
    requires { IsWellFormed script.now }
    ensures { IsBehind script.now report.now serial.now
        → IsWholeOrder script.now report.now blocks.now
        → AllIsTold script.now report.now showing.now
        → result ≡ end_is_right script.now report.now }
{
    match &report.end {
        End::Drained => {
            let answered = all_is_answered(script, blocks);
            let told = showing.is_all_told(script.topology.crtcs);
            answered & told
        }
        End::Stalled(label) => label_is_of_fence(script, serial, label.as_slice()),
        End::Open(_) => true,
    }
}

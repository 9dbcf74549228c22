//! X lines: framebuffers that were freed.
ghost use Rattle.std.specs.Prelude.{◌≡◌, [], IfOk};
ghost use Rattle.kms_audit.specs.Judged.{IsBehind};
ghost use Rattle.kms_model.specs.declared.reports.Report.{Report};
ghost use Rattle.kms_model.specs.Device.World.{thing_with_id};
ghost use Rattle.kms_model.specs.Report.Right.{freed_is_right, is_closed_framebuffer};
ghost use Rattle.kms_model.specs.Report.RightAnswers.{first_off};

use crate::lines::FreedFields;
use kms_model::{NoMemory, Script};
use kms_serial::Serial;
use kms_words::name_word;
use std::alloc::Global;
use std::collections::BTreeSet;

/// Whether the thing with an id is a closed framebuffer, made under a label.
fn is_closed_framebuffer(script: &Script, serial: &Serial, label: &[u8], id: u32) -> bool
    ensures { result ≡ is_closed_framebuffer script.now.names label.now
        (thing_with_id serial.now.world.things id) }
{
    let Some((number, is_open)) = serial.framebuffer(id) else {
        return false;
    };
    if is_open {
        return false;
    }
    label == name_word(script.names.as_slice(), number)
}

/// The place of the first X line that is not right: it names a framebuffer by its id and its label that is closed behind the
/// journal, where the device stands, and that no line before names.
pub fn freed_off(
    alloc: Global,
    script: &Script,
    serial: &Serial,
    lines: &[FreedFields],
) -> Result<Option<usize>, NoMemory>
    ensures { IfOk result (λ off. (r : Report) → IsBehind script.now r serial.now
        → r.freed ≡ lines.now → off ≡ first_off (freed_is_right script.now r) [] r.freed) }
{
    let mut named = BTreeSet::new(alloc);
    for (place, line) in lines.iter().enumerate() {
        let added = named.insert(line.1)?;
        if !added {
            return Ok(Some(place));
        }
        let closed = is_closed_framebuffer(script, serial, line.0.as_slice(), line.1);
        if !closed {
            return Ok(Some(place));
        }
    }
    Ok(None)
}

//! How a history ended.
ghost use Rattle.std.specs.Prelude.{◌≡◌, ◌++◌, ◌∷◌, [], OnOk, codes, length};
ghost use Rattle.std.specs.Fmt.{decimal};
ghost use Rattle.kms_core.specs.Run.{machine};
ghost use Rattle.kms_model.specs.Machine.Histories.{stalled_on};
ghost use Rattle.kms_model.specs.Report.History.{end_words, stalled_name};
ghost use Rattle.kms_model.specs.Report.TextLines.{line};

use crate::lines::name_of;
use kms_core::Core;
use kms_model::{NoMemory, Seq};
use std::alloc::Global;

/// The name of the fence that a dead history waits for; no byte where it waits for none.
fn awaited_name<'a>(names: &'a Seq<Seq<u8>>, core: &Core) -> &'a [u8]
    ensures { result.now
        ≡ stalled_name names.now (stalled_on core.now.script (machine core.now)) }
{
    match core.stalled_on() {
        Some(label) => name_of(names, label),
        None => &[],
    }
}

/// Adds that a history is dead, with this fence.
fn push_stalled(text: &mut Vec<u8>, fence: &[u8]) -> Result<(), NoMemory>
    ensures { OnOk result (text.new.items ≡ text.old.items
        ++ line (codes "D" ∷ codes "stalled" ∷ fence.now ∷ [])) }
{
    text.extend_from_slice(b"D stalled ")?;
    text.extend_from_slice(fence)?;
    Ok(text.push(b'\n')?)
}

/// Adds that a history is open after so many steps.
fn push_open(alloc: Global, text: &mut Vec<u8>, count: usize) -> Result<(), NoMemory>
    ensures { OnOk result (text.new.items ≡ text.old.items
        ++ line (codes "D" ∷ codes "open" ∷ decimal count ∷ [])) }
{
    let line = format!(in alloc; "D open {count}\n")?;
    Ok(text.extend_from_slice(line.as_bytes())?)
}

/// Adds how the history ended: drained, dead with the fence that it waits for, or open after so many steps.
pub fn push_end(
    alloc: Global,
    text: &mut Vec<u8>,
    names: &Seq<Seq<u8>>,
    core: &Core,
) -> Result<(), NoMemory>
    requires { names.now ≡ core.now.script.names }
    ensures { OnOk result (text.new.items ≡ text.old.items ++ line (codes "D"
        ∷ end_words core.now.script (machine core.now) (length core.now.steps))) }
{
    if core.drained() {
        return Ok(text.extend_from_slice(b"D drained\n")?);
    }
    if core.is_dead() {
        return push_stalled(text, awaited_name(names, core));
    }
    push_open(alloc, text, core.history().len())
}

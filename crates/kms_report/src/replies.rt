//! The replies alone.
ghost use Rattle.std.specs.Prelude.{◌≡◌, IfOk};
ghost use Rattle.kms_core.specs.Run.{machine};
ghost use Rattle.kms_report.specs.Telling.{all_replies};

use crate::answers::{Section, push_sections};
use kms_core::Core;
use kms_model::{NoMemory, Script, Seq};
use std::alloc::Global;

/// The replies of a history, by client: the lines of the report that begin with `R`, as they stand there. No frame is made.
/// The only error is want of memory.
pub fn replies_text(alloc: Global, script: &Script, core: &Core) -> Result<Seq<u8>, NoMemory>
    requires { script.now ≡ core.now.script }
    ensures { IfOk result (λ text. text ≡ all_replies core.now.script (machine core.now)) }
{
    core.is_a_history();
    let clients = script.clients.len() as u32;
    let mut text = Vec::new(alloc);
    push_sections(alloc, &mut text, Section::Replies, clients, core.replies())?;
    Ok(Seq::from_vec(text))
}

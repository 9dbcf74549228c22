//! The sections of a report that stand by client: what replies tell.
ghost use Rattle.std.specs.Prelude.{◌≡◌, ◌≤◌, ◌++◌, ◌∷◌, [], OnOk};
ghost use Rattle.std.specs.List.{flat_map, range_with_len};
ghost use Rattle.kms_model.specs.declared.objects.TheConstants.{MAX_CLIENTS};
ghost use Rattle.kms_report.specs.Telling.{section_text};

use crate::lines::{push_event, push_reply};
use kms_model::{Answered, NoMemory};
use std::alloc::Global;

/// A section that stands by client.
#[derive(Clone, Copy, PartialEq, Eq)]
pub enum Section {
    /// The replies; the commands of a client are answered in order.
    Replies,
    /// The events read, which replies tell.
    Events,
}

/// Adds what a reply tells in a section, where it is to this client.
fn push_answer(
    alloc: Global,
    text: &mut Vec<u8>,
    section: Section,
    client: u32,
    answer: &Answered,
) -> Result<(), NoMemory>
    ensures { OnOk result (text.new.items
        ≡ text.old.items ++ section_text section (answer.now ∷ []) client) }
{
    if answer.client != client {
        return Ok(());
    }
    match section {
        Section::Replies => push_reply(alloc, text, answer),
        Section::Events => push_event(alloc, text, client, &answer.reply),
    }
}

/// Adds what the replies to a client tell in a section.
fn push_section(
    alloc: Global,
    text: &mut Vec<u8>,
    section: Section,
    client: u32,
    answers: &[Answered],
) -> Result<(), NoMemory>
    ensures { OnOk result (text.new.items
        ≡ text.old.items ++ section_text section answers.now client) }
{
    for answer in answers {
        push_answer(alloc, text, section, client, answer)?;
    }
    Ok(())
}

/// Adds a section for each client, of which there are so many.
pub fn push_sections(
    alloc: Global,
    text: &mut Vec<u8>,
    section: Section,
    clients: u32,
    answers: &[Answered],
) -> Result<(), NoMemory>
    requires { clients ≤ MAX_CLIENTS }
    ensures { OnOk result (text.new.items ≡ text.old.items
        ++ flat_map (section_text section answers.now) (range_with_len 1 clients)) }
{
    for client in 1..clients + 1 {
        push_section(alloc, text, section, client, answers)?;
    }
    Ok(())
}

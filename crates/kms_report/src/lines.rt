//! The lines of a report, but for those of latches.
ghost use Rattle.std.specs.Prelude.{◌≡◌, ◌++◌, ◌∷◌, [], codes, slice_index_or, string_bytes, IfOk, OnOk};
ghost use Rattle.std.specs.Fmt.{decimal};
ghost use Rattle.std.specs.List.{filter_map, flat_map};
ghost use Rattle.kms_model.specs.Report.History.{answer_line, event_line, step_line};
ghost use Rattle.kms_model.specs.Report.TextLines.{line};
ghost use Rattle.kms_model.specs.Report.Right.{event_in};
ghost use Rattle.kms_report.specs.Telling.{HasSmallIndex, freed_text};

use kms_model::{Answered, Event, NoMemory, Reply, Seq, Step};
use kms_script::print_step;
use std::alloc::{AllocError, Global};

/// Adds `J CLIENT COMMAND`, of the numbers of a client and its command, both counted from 1.
pub fn push_entry(
    alloc: Global,
    text: &mut Vec<u8>,
    client: u32,
    command: u32,
) -> Result<(), NoMemory>
    ensures { OnOk result (text.new.items ≡ text.old.items
        ++ line (codes "J" ∷ decimal client ∷ decimal command ∷ [])) }
{
    let line = format!(in alloc; "J {client} {command}\n")?;
    Ok(text.extend_from_slice(line.as_bytes())?)
}

/// `R CLIENT COMMAND PLACE REPLY`
fn reply_line(alloc: Global, answer: &Answered) -> Result<String, AllocError>
    ensures { IfOk result (λ text. string_bytes text ≡ answer_line answer.now) }
{
    let Answered {
        client,
        command,
        place,
        reply,
    } = *answer;
    format!(in alloc; "R {client} {command} {place} {reply}\n")
}

/// Adds the line of a reply.
pub fn push_reply(alloc: Global, text: &mut Vec<u8>, answer: &Answered) -> Result<(), NoMemory>
    ensures { OnOk result (text.new.items ≡ text.old.items ++ answer_line answer.now) }
{
    Ok(text.extend_from_slice(reply_line(alloc, answer)?.as_bytes())?)
}

/// `E CLIENT USERDATA SEQUENCE CRTCID`
fn event_line(alloc: Global, client: u32, event: &Event) -> Result<String, AllocError>
    ensures { IfOk result (λ text. string_bytes text ≡ event_line client event.now) }
{
    let Event {
        user_data,
        sequence,
        crtc,
    } = *event;
    format!(in alloc; "E {client} {user_data} {sequence} {crtc}\n")
}

/// Adds the line of the event that a reply tells a client, by its number from 1, where it tells one.
pub fn push_event(
    alloc: Global,
    text: &mut Vec<u8>,
    client: u32,
    reply: &Reply,
) -> Result<(), NoMemory>
    ensures { OnOk result (text.new.items ≡ text.old.items
        ++ flat_map (event_line client) (filter_map event_in (reply.now ∷ []))) }
{
    let Reply::Event(event) = reply else {
        return Ok(());
    };
    Ok(text.extend_from_slice(event_line(alloc, client, event)?.as_bytes())?)
}

/// A name by its place among the names, from 0; no byte where they are fewer.
pub fn name_of(names: &Seq<Seq<u8>>, place: u32) -> &[u8]
    ensures { result.now ≡ slice_index_or names.now place [] }
{
    match names.get(place as usize) {
        Some(name) => name.as_slice(),
        None => &[],
    }
}

/// ` ID`, the end of the line of a framebuffer that was freed.
fn id_end(alloc: Global, id: u32) -> Result<String, AllocError>
    ensures { IfOk result (λ text. string_bytes text ≡ 32 ∷ line (decimal id ∷ [])) }
{
    format!(in alloc; " {id}\n")
}

/// Adds `X LABEL ID`, of a label by its number from 0 and the id of its framebuffer.
pub fn push_freed(
    alloc: Global,
    text: &mut Vec<u8>,
    names: &Seq<Seq<u8>>,
    label: u32,
    id: u32,
) -> Result<(), NoMemory>
    ensures { OnOk result (text.new.items ≡ text.old.items ++ freed_text names.now (label, id)) }
{
    text.extend_from_slice(b"X ")?;
    text.extend_from_slice(name_of(names, label))?;
    Ok(text.extend_from_slice(id_end(alloc, id)?.as_bytes())?)
}

/// Adds `T` and the words of a step.
pub fn push_step(alloc: Global, text: &mut Vec<u8>, step: &Step) -> Result<(), NoMemory>
    requires { HasSmallIndex step.now }
    ensures { OnOk result (text.new.items ≡ text.old.items ++ step_line step.now) }
{
    let line = print_step(alloc, step)?;
    text.extend_from_slice(line.as_slice())?;
    Ok(text.push(b'\n')?)
}

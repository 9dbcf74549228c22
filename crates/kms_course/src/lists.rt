//! Lines of a course on what a machine tells in lists: replies, the journal, latches, and framebuffers that were freed.
use kms_core::Core;
use kms_model::{NoMemory, Picture, Shown};
use std::alloc::Global;

/// How much of each list had its line, or needs none.
#[derive(Clone, Copy, Default)]
pub(crate) struct Told {
    replies: usize,
    journal: usize,
    latches: usize,
    freed: usize,
}

/// Whether a reply is what a line says, as a report has it.
fn is_reply(core: &Core, alloc: Global, index: usize, rest: &str) -> Result<bool, NoMemory> {
    let Some(told) = core.replies().get(index) else {
        return Ok(false);
    };
    let text = format!(in alloc;
        "{} {} {} {}",
        told.client, told.command, told.place, told.reply
    )?;
    Ok(text.as_str() == rest)
}

/// Whether an entry of the journal is what a line says.
fn is_entry(core: &Core, alloc: Global, index: usize, rest: &str) -> Result<bool, NoMemory> {
    let Some((client, command)) = core.journal().get(index) else {
        return Ok(false);
    };
    let text = format!(in alloc; "{client} {command}")?;
    Ok(text.as_str() == rest)
}

/// Whether a framebuffer that was freed is what a line says.
fn is_freed(core: &Core, alloc: Global, index: usize, rest: &str) -> Result<bool, NoMemory> {
    let Some((label, id)) = core.freed().get(index) else {
        return Ok(false);
    };
    let text = format!(in alloc; "{label} {id}")?;
    Ok(text.as_str() == rest)
}

/// Writes a picture of layers behind a text.
fn write_shown(alloc: Global, text: &mut String, shown: &Shown) -> Result<(), NoMemory> {
    let (width, height) = (shown.mode.hdisplay, shown.mode.vdisplay);
    text.push_str(format!(in alloc; "{width}x{height}")?.as_str())?;
    for layer in shown.layers.as_slice() {
        let id = layer.fb.id;
        text.push_str(format!(in alloc; " {id}")?.as_str())?;
    }
    Ok(())
}

/// Writes a picture behind a text.
fn write_picture(alloc: Global, text: &mut String, picture: &Picture) -> Result<(), NoMemory> {
    match picture {
        Picture::Off => Ok(text.push_str("off")?),
        Picture::On(shown) => write_shown(alloc, text, shown),
    }
}

/// Whether a latch is what a line says.
fn is_latch(core: &Core, alloc: Global, index: usize, rest: &str) -> Result<bool, NoMemory> {
    let Some(latch) = core.latched().get(index) else {
        return Ok(false);
    };
    let (crtc, commit, count) = (latch.crtc, latch.commit, latch.count);
    let mut text = format!(in alloc; "{crtc} {commit} {count} ")?;
    write_picture(alloc, &mut text, &latch.picture)?;
    Ok(text.as_str() == rest)
}

/// The place that is next, which then had its line.
fn next(place: &mut usize) -> usize {
    let index = *place;
    *place = index.saturating_add(1);
    index
}

/// Whether the next item of a list is what a line says, by its first word and the rest.
pub(crate) fn is_told(
    core: &Core,
    alloc: Global,
    told: &mut Told,
    word: &str,
    rest: &str,
) -> Result<bool, NoMemory> {
    match word {
        "R" => is_reply(core, alloc, next(&mut told.replies), rest),
        "J" => is_entry(core, alloc, next(&mut told.journal), rest),
        "L" => is_latch(core, alloc, next(&mut told.latches), rest),
        "freed" => is_freed(core, alloc, next(&mut told.freed), rest),
        _ => Ok(word == "after" && skips(told, rest)),
    }
}

/// Passes over replies.
fn skips(told: &mut Told, rest: &str) -> bool {
    let Some(Ok(count)) = rest.strip_prefix("R ").map(|count| count.parse()) else {
        return false;
    };
    told.replies = count;
    true
}

/// Whether a list is so long.
pub(crate) fn counts(core: &Core, rest: &str) -> bool {
    match rest.split_once(' ') {
        Some((word, count)) => length(core, word).is_some_and(|n| count.parse() == Ok(n)),
        None => false,
    }
}

/// How long a list is.
fn length(core: &Core, word: &str) -> Option<usize> {
    match word {
        "R" => Some(core.replies().len()),
        "J" => Some(core.journal().len()),
        "L" => Some(core.latched().len()),
        "freed" => Some(core.freed().len()),
        "T" => Some(core.history().len()),
        _ => None,
    }
}

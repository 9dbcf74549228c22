//! Lines of a course on where clients stand.
use crate::moves::place_of;
use kms_core::Core;
use kms_model::{Doing, NoMemory, Place};
use std::alloc::Global;

/// A number, and what stands behind it.
pub(crate) fn split_number(rest: &str) -> Option<(u32, &str)> {
    let (number, rest) = rest.split_once(' ')?;
    Some((number.parse().ok()?, rest))
}

/// A place, as a line tells it.
fn place_text(alloc: Global, at: Place) -> Result<String, NoMemory> {
    let command = at.command;
    Ok(match at.doing {
        Doing::Idle => format!(in alloc; "{command} idle")?,
        Doing::Taking(ticket) => format!(in alloc; "{command} takes {}", ticket.0)?,
        Doing::MustBackOff(ticket, id) => {
            format!(in alloc; "{command} backs off {} {}", ticket.0, id.0)?
        }
        Doing::BackedOff(ticket, id) => {
            format!(in alloc; "{command} backed off {} {}", ticket.0, id.0)?
        }
        Doing::Returning(commit) => format!(in alloc; "{command} returns {commit}")?,
    })
}

/// Whether a client stands at a place.
pub(crate) fn stands(core: &Core, alloc: Global, rest: &str) -> Result<bool, NoMemory> {
    let Some((client, place)) = split_number(rest) else {
        return Ok(false);
    };
    match place_of(core, client) {
        Some(at) => Ok(place_text(alloc, at)?.as_str() == place),
        None => Ok(place == "none" && core.idle_command(client).is_none()),
    }
}

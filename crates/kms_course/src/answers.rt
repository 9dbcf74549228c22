//! Lines of a course on what single calls answer that take locks and decide requests. A call whose answer is a step has done it.
use crate::calls::call_decision;
use crate::places::split_number;
use crate::single::{call_lock, call_relock};
use kms_core::{Core, Decided, Locked};
use kms_model::{NoMemory, ObjId};
use std::alloc::Global;

/// Whether an answer is this word and this number.
fn is_word(alloc: Global, answer: &str, word: &str, number: u32) -> Result<bool, NoMemory> {
    let text = format!(in alloc; "{word} {number}")?;
    Ok(text.as_str() == answer)
}

/// Whether the answer to a lock is what a line says.
fn is_locked(alloc: Global, locked: Option<Locked>, answer: &str) -> Result<bool, NoMemory> {
    match locked {
        Some(Locked::Got { .. }) => Ok(answer == "got"),
        Some(Locked::Own { .. }) => Ok(answer == "own"),
        Some(Locked::Older { holder }) => is_word(alloc, answer, "older", holder.0),
        Some(Locked::Younger { holder }) => is_word(alloc, answer, "younger", holder.0),
        Some(Locked::Held { holder }) => is_word(alloc, answer, "held", holder.0),
        None => Ok(answer == "none"),
    }
}

/// A client asks for the object with an id.
pub(crate) fn asks(core: &mut Core, alloc: Global, rest: &str) -> Result<bool, NoMemory> {
    let Some((client, rest)) = split_number(rest) else {
        return Ok(false);
    };
    let Some((id, answer)) = split_number(rest) else {
        return Ok(false);
    };
    let locked = call_lock(core, client, ObjId(id))?;
    is_locked(alloc, locked, answer)
}

/// A client asks again for the object that it backed off for.
pub(crate) fn asks_again(core: &mut Core, alloc: Global, rest: &str) -> Result<bool, NoMemory> {
    let Some((client, answer)) = split_number(rest) else {
        return Ok(false);
    };
    let locked = call_relock(core, client)?;
    is_locked(alloc, locked, answer)
}

/// What a decision is, as a line tells it.
fn decision_text(alloc: Global, decided: Option<Decided>) -> Result<String, NoMemory> {
    Ok(match decided {
        Some(Decided::Done { reply }) => format!(in alloc; "done {reply}")?,
        Some(Decided::Refused { reply }) => format!(in alloc; "refused {reply}")?,
        Some(Decided::NotYet { object, commit }) => {
            format!(in alloc; "waits {} {commit}", object.0)?
        }
        Some(Decided::Again { label, .. }) => format!(in alloc; "again {label}")?,
        None => String::from_str(alloc, "none")?,
    })
}

/// The request of a client is decided.
pub(crate) fn decides(core: &mut Core, alloc: Global, rest: &str) -> Result<bool, NoMemory> {
    let Some((client, answer)) = split_number(rest) else {
        return Ok(false);
    };
    let decided = call_decision(core, alloc, client)?;
    Ok(decision_text(alloc, decided)?.as_str() == answer)
}

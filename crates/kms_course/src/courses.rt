//! Courses: what is done on a machine, and what it tells meanwhile, as text of a line for each. A test is a script with its
//! course, so that nothing of it needs a proof. A line that cannot be read is not met.
//!
//! | line | what it says |
//! |---|---|
//! | `T make 1` | the step of a schedule's line is legal, and is done |
//! | `may T swap 1` | it is legal |
//! | `no T swap 1: it is busy` | it is not legal, for this reason |
//! | `no idle 1: it takes locks` | no step is legal of a client that is idle at a command |
//! | `no taking 1: it backed off` | nor one of a client that takes locks |
//! | `no waiting 1: it takes locks` | nor one of a client that waits for a context or a commit |
//! | `no tail 0: it is cleaned` | nor one of a commit's tail |
//! | `R 1 4 3 commit 0`, `J 1 4` | the next reply; the next entry of the journal, as in a report |
//! | `L 0 0 1 1x1 1001`, `L 0 1 1 off` | the next latch, with the size of its mode and its layers' framebuffers |
//! | `freed 1 1001` | the next framebuffer that was freed, by its label and its id |
//! | `after R 4` | so many replies need no line |
//! | `count R 4` | there are so many replies, or `J`, `L` and `freed`, or steps by `T` |
//! | `client 1 4 returns 0` | where a client stands: at its fourth command, whose commit it waits for |
//! | `client 2 1 backs off 1 200` | it has to drop its locks in the context of a ticket, for an object |
//! | `client 2 1 backed off 1 200`, `client 2 1 takes 1`, `client 1 1 idle` | it did; it takes locks; it is idle |
//! | `client 2 none` | there is no such client |
//! | `goes 0`, `rests 0` | whether a CRTC latches at its next vblank |
//! | `image 1001 [6382179]` | the words of a framebuffer |
//! | `framebuffer 1001 1x1`, `framebuffer 1001 none` | a framebuffer that something needs, by its size; nothing needs it |
//! | `next 1 T begin 1`, `tail T claim 0` | what is next in the order of one thread is this step, which is done |
//! | `next 1 none`, `tail none` | nothing is next |
//! | `asks 1 200 got` | the single call by which a client asks for an object's lock, by its id, is answered so |
//! | `asks 2 200 older 0` | or by the ticket of an `older` context that has it, or a `younger` one |
//! | `again 2 held 0`, `again 2 got` | a client asks again for what it backed off for |
//! | `decides 1 waits 100 0` | the single call that decides a request: the commit waits for another on an object |
//! | `decides 1 done commit 1` | it is `done` with a reply, or `refused` as full or busy |
//! | `finish` | one thread continues the history to its end |
//! | `one thread` | the history is what one thread makes of the script, to its end |
//! | `D open`, `D drained`, `D stalled n`, `D ended n` | how the history ends, before and after a dead one is ended |
use crate::answers::{asks, asks_again, decides};
use crate::ends::{ends, is_of_one_thread};
use crate::lists::{Told, counts, is_told};
use crate::moves::{do_step, goes, next_of};
use crate::places::{split_number, stands};
use crate::refusing::is_refused;
use kms_core::Core;
use kms_model::{NoMemory, Step};
use kms_one_thread::finish;
use kms_script::read_step;
use std::alloc::Global;

/// The step of a line of a schedule.
pub fn step_of(line: &str) -> Option<Step> {
    read_step(line.as_bytes())
}

/// Does the step of a line.
fn do_line(core: &mut Core, alloc: Global, line: &str) -> Result<bool, NoMemory> {
    match step_of(line) {
        Some(step) => do_step(core, alloc, &step),
        None => Ok(false),
    }
}

/// Whether a step is legal.
fn may(core: &Core, line: &str) -> bool {
    match step_of(line) {
        Some(step) => core.legal(&step),
        None => false,
    }
}

/// Does what is next, if a line spells it, or says that nothing is.
fn do_next(
    core: &mut Core,
    alloc: Global,
    next: Option<Step>,
    line: &str,
) -> Result<bool, NoMemory> {
    match next {
        Some(step) if step_of(line) == next => do_step(core, alloc, &step),
        Some(_) => Ok(false),
        None => Ok(line == "none"),
    }
}

/// Does what is next for a client.
fn next_line(core: &mut Core, alloc: Global, rest: &str) -> Result<bool, NoMemory> {
    match split_number(rest) {
        Some((client, line)) => {
            let next = next_of(core, client);
            do_next(core, alloc, next, line)
        }
        None => Ok(false),
    }
}

/// Whether a CRTC latches at its next vblank, if it is a number.
fn goes_at(core: &Core, crtc: &str) -> Option<bool> {
    Some(goes(core, crtc.parse().ok()?))
}

/// Whether a framebuffer has these words.
fn has_words(core: &Core, alloc: Global, rest: &str) -> Result<bool, NoMemory> {
    let Some((id, words)) = split_number(rest) else {
        return Ok(false);
    };
    match core.image(id) {
        Some(image) => {
            let text = format!(in alloc; "{:?}", image.words)?;
            Ok(text.as_str() == words)
        }
        None => Ok(false),
    }
}

/// Whether a machine has a framebuffer, in this size, or has none with its id.
fn has_framebuffer(core: &Core, alloc: Global, rest: &str) -> Result<bool, NoMemory> {
    let Some((id, size)) = split_number(rest) else {
        return Ok(false);
    };
    match core.framebuffer(id) {
        Some(fb) => {
            let text = format!(in alloc; "{}x{}", fb.width, fb.height)?;
            Ok(text.as_str() == size)
        }
        None => Ok(size == "none"),
    }
}

/// Whether a machine tells what a line says, by its first word and the rest.
fn tells(
    core: &Core,
    alloc: Global,
    told: &mut Told,
    word: &str,
    rest: &str,
) -> Result<bool, NoMemory> {
    match word {
        "no" => Ok(is_refused(core, rest)),
        "may" => Ok(may(core, rest)),
        "client" => stands(core, alloc, rest),
        "goes" => Ok(goes_at(core, rest) == Some(true)),
        "rests" => Ok(goes_at(core, rest) == Some(false)),
        "image" => has_words(core, alloc, rest),
        "framebuffer" => has_framebuffer(core, alloc, rest),
        "D" => Ok(ends(core, rest)),
        "count" => Ok(counts(core, rest)),
        "one" => Ok(rest == "thread" && is_of_one_thread(core, alloc)?),
        _ => is_told(core, alloc, told, word, rest),
    }
}

/// Does what a line says, or tells whether it is so.
fn is_met(core: &mut Core, alloc: Global, told: &mut Told, line: &str) -> Result<bool, NoMemory> {
    if line == "finish" {
        finish(alloc, core)?;
        return Ok(true);
    }
    let Some((word, rest)) = line.split_once(' ') else {
        return Ok(false);
    };
    match word {
        "T" => do_line(core, alloc, line),
        "next" => next_line(core, alloc, rest),
        "asks" => asks(core, alloc, rest),
        "again" => asks_again(core, alloc, rest),
        "decides" => decides(core, alloc, rest),
        "tail" => {
            let next = core.tail_step();
            do_next(core, alloc, next, rest)
        }
        _ => tells(core, alloc, told, word, rest),
    }
}

/// Follows a course on a machine, up to the first line that is not met, which it gives.
pub fn follow<'a>(
    core: &mut Core,
    alloc: Global,
    course: &'a str,
) -> Result<Option<&'a str>, NoMemory> {
    let mut told = Told::default();
    for line in course.lines() {
        if !is_met(core, alloc, &mut told, line)? {
            return Ok(Some(line));
        }
    }
    Ok(None)
}

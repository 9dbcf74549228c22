//! `kms_courses`: plays the cases of its standard input, and prints a line for each: that it is `alike`, or what differs.
//!
//! A case is a script and a course, as text. The lines of both stand behind two spaces, and `kms_course` tells what each line
//! of a course says. All other lines begin with a mark:
//!
//! | line | what follows it |
//! |---|---|
//! | `case NAME` | the script of a case |
//! | `course` | its course |
//! | `piece NAME` | lines that scripts and courses may share |
//! | `put NAME` | that piece, and what follows it |
//! | `repeat COUNT NAME` | the same so often, with the number of the time, from 1, in place of each `%` |
//! | `# REMARK` | what was there before |
#![tactic(auto)]

mod book;

use book::{Kind, Text, read_all};
use kms_course::{Played, play};
use kms_model::NoMemory;
use std::io;
use std::process::ExitCode;

/// Why the program does not come to its end.
#[derive(Clone, Copy)]
enum Stop {
    /// Memory ran out.
    NoMemory,
    /// Its input is not read, or its output not written.
    Failed,
}

impl From<NoMemory> for Stop {
    fn from(_e: NoMemory) -> Stop {
        Stop::NoMemory
    }
}

impl From<io::Error> for Stop {
    fn from(_e: io::Error) -> Stop {
        Stop::Failed
    }
}

/// Prints what became of a case.
fn print_played(rt: &impl Print, name: &str, played: Played<'_>) -> io::Result<()> {
    match played {
        Played::Alike => println!(rt; "{name}: alike"),
        Played::NoScript => println!(rt; "{name}: it has no script"),
        Played::Unmet(line) => println!(rt; "{name}: not so: {line}"),
        Played::Called => println!(rt; "{name}: single calls make something else"),
        Played::Replayed => println!(rt; "{name}: a schedule makes something else"),
    }
}

/// Plays a case, whose course is the text behind its script, if that is one.
fn print_case<R: Print + AllocGlobal>(
    rt: &R,
    script: &Text<'_>,
    next: Option<&Text<'_>>,
) -> Result<(), Stop> {
    match next {
        Some(course) if course.kind == Kind::Course => {
            let played = play(rt.alloc(), script.lines.as_str(), course.lines.as_str())?;
            print_played(rt, script.name, played)?;
        }
        _ => println!(rt; "{}: it has no course", script.name)?,
    }
    Ok(())
}

/// Plays each case.
fn print_cases<R: Print + AllocGlobal>(rt: &R, texts: &[Text<'_>]) -> Result<(), Stop> {
    for (place, text) in texts.iter().enumerate() {
        if text.kind == Kind::Script {
            print_case(rt, text, texts.get(place.saturating_add(1)))?;
        }
    }
    Ok(())
}

/// Reads the cases of a text and plays them, if all its lines can be read.
fn play_all<R: Print + AllocGlobal>(rt: &R, text: &str) -> Result<(), Stop> {
    let mut texts = Vec::new(rt.alloc());
    match read_all(&mut texts, rt.alloc(), text)? {
        Some(line) => Ok(println!(rt; "this line cannot be read: {line}")?),
        None => print_cases(rt, texts.as_slice()),
    }
}

/// Reads the input, and plays its cases.
fn run(rt: &HostRuntime) -> Result<(), Stop> {
    let text = io::read_to_string(rt.alloc(), rt.reader())?;
    play_all(rt, text.as_str())
}

fn main(rt: HostRuntime) -> ExitCode {
    match run(&rt) {
        Ok(()) => ExitCode::SUCCESS,
        Err(_) => ExitCode::FAILURE,
    }
}

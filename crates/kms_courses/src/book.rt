//! The texts of an input.
use kms_model::NoMemory;
use std::alloc::Global;

/// What a text is.
#[derive(Clone, Copy, PartialEq, Eq)]
pub(crate) enum Kind {
    /// Lines that others may share.
    Piece,
    /// The script of a case.
    Script,
    /// The course of the case whose script is before it.
    Course,
}

/// A text by its name.
#[derive(Drop)]
pub(crate) struct Text<'a> {
    pub(crate) kind: Kind,
    pub(crate) name: &'a str,
    pub(crate) lines: String,
}

/// Begins a text.
fn begin<'a>(
    texts: &mut Vec<Text<'a>>,
    alloc: Global,
    kind: Kind,
    name: &'a str,
) -> Result<bool, NoMemory> {
    let lines = String::new(alloc);
    texts.push(Text { kind, name, lines })?;
    Ok(true)
}

/// Begins the course of a case whose script was just read.
fn begin_course<'a>(texts: &mut Vec<Text<'a>>, alloc: Global) -> Result<bool, NoMemory> {
    match texts.last() {
        Some(script) if script.kind == Kind::Script => {
            let name = script.name;
            begin(texts, alloc, Kind::Course, name)
        }
        _ => Ok(false),
    }
}

/// Writes a line at the end of the last text.
fn write_line(texts: &mut [Text<'_>], line: &str) -> Result<bool, NoMemory> {
    let Some(last) = texts.last_mut() else {
        return Ok(false);
    };
    last.lines.push_str(line)?;
    last.lines.push('\n')?;
    Ok(true)
}

/// The lines of a piece.
fn piece<'b>(texts: &'b [Text<'_>], name: &str) -> Option<&'b str> {
    for text in texts {
        if text.kind == Kind::Piece && text.name == name {
            return Some(text.lines.as_str());
        }
    }
    None
}

/// Puts a piece at the end of the last text.
fn put(texts: &mut [Text<'_>], name: &str) -> Result<bool, NoMemory> {
    let Some((last, others)) = texts.split_last_mut() else {
        return Ok(false);
    };
    match piece(others, name) {
        Some(lines) => {
            last.lines.push_str(lines)?;
            Ok(true)
        }
        None => Ok(false),
    }
}

/// Writes lines behind a text, with a number in place of each `%`.
fn write_time(alloc: Global, text: &mut String, lines: &str, number: u32) -> Result<(), NoMemory> {
    let number = format!(in alloc; "{number}")?;
    for sign in lines.chars() {
        if sign == '%' {
            text.push_str(number.as_str())?;
        } else {
            text.push(sign)?;
        }
    }
    Ok(())
}

/// Writes lines behind a text so often.
fn write_times(alloc: Global, text: &mut String, lines: &str, count: u32) -> Result<(), NoMemory> {
    for number in 0..count {
        write_time(alloc, text, lines, number.saturating_add(1))?;
    }
    Ok(())
}

/// Puts a piece so often at the end of the last text.
fn repeat(texts: &mut [Text<'_>], alloc: Global, count: u32, name: &str) -> Result<bool, NoMemory> {
    let Some((last, others)) = texts.split_last_mut() else {
        return Ok(false);
    };
    match piece(others, name) {
        Some(lines) => {
            write_times(alloc, &mut last.lines, lines, count)?;
            Ok(true)
        }
        None => Ok(false),
    }
}

/// How often a piece stands, and its name.
fn times(rest: &str) -> Option<(u32, &str)> {
    let (count, name) = rest.split_once(' ')?;
    Some((count.parse().ok()?, name))
}

/// Reads a line that has a mark. Tells whether it can be read.
fn read_mark<'a>(
    texts: &mut Vec<Text<'a>>,
    alloc: Global,
    mark: &str,
    rest: &'a str,
) -> Result<bool, NoMemory> {
    match mark {
        "case" => begin(texts, alloc, Kind::Script, rest),
        "piece" => begin(texts, alloc, Kind::Piece, rest),
        "put" => put(texts, rest),
        "repeat" => match times(rest) {
            Some((count, name)) => repeat(texts, alloc, count, name),
            None => Ok(false),
        },
        _ => Ok(mark == "#"),
    }
}

/// Reads a line. Tells whether it can be read.
fn read_line<'a>(
    texts: &mut Vec<Text<'a>>,
    alloc: Global,
    line: &'a str,
) -> Result<bool, NoMemory> {
    if let Some(line) = line.strip_prefix("  ") {
        return write_line(texts, line);
    }
    match line.split_once(' ') {
        Some((mark, rest)) => read_mark(texts, alloc, mark, rest),
        None if line == "course" => begin_course(texts, alloc),
        None => Ok(line.is_empty()),
    }
}

/// Reads all lines of an input, up to the first that cannot be read, which it gives.
pub(crate) fn read_all<'a>(
    texts: &mut Vec<Text<'a>>,
    alloc: Global,
    input: &'a str,
) -> Result<Option<&'a str>, NoMemory> {
    for line in input.lines() {
        if !read_line(texts, alloc, line)? {
            return Ok(Some(line));
        }
    }
    Ok(None)
}

//! Files of cases: the first line that may not stand, and what lines say.
use kms_samples::casebook::{Case, FileError, read_cases, show};
use std::alloc::{AllocError, Global};
use std::test::Fail;

/// What is told of a file: how many cases it has, or its first fault.
fn told(alloc: Global, text: &[u8]) -> Result<String, AllocError> {
    match read_cases(alloc, text) {
        Ok(cases) => format!(in alloc; "{} cases", cases.len()),
        Err(FileError::Fault { line, why }) => format!(in alloc; "line {line}: {why}"),
        Err(FileError::NoMemory) => Err(AllocError),
    }
}

#[test]
fn the_first_line_that_may_not_stand_is_told(rt: HostRuntime) -> Result<(), Fail> {
    let rows: [(&[u8], &str); 22] = [
        (b"", "0 cases"),
        (b"# a comment\n\ncase a:\ncase b: one", "2 cases"),
        (b"\n< kms 1\n", "line 2: no case stands before it"),
        (b"case a\n", "line 1: a case has a name, a colon and words"),
        (
            b"case a:\n\ncase a: one\n",
            "line 3: a case of this name stands before it",
        ),
        (
            b"case a:\nas a\n",
            "line 2: no case of this name stands before it",
        ),
        (b"case a:\n= x\n", "line 2: no such mark"),
        (b"case a:\n x\n", "line 2: no such mark"),
        (b"case a:\n<0 x\n", "line 2: no such mark"),
        (b"case a:\n<65537 x\n", "line 2: no such mark"),
        (b"case a:\ncase2 b:\n", "line 2: no such mark"),
        (b"case a:\n~2 x\n", "line 2: no such mark"),
        (b"case a:\n< \\q\n", "line 2: the text spells no bytes"),
        (b"case a:\n< \\xA0\n", "line 2: the text spells no bytes"),
        (b"case a:\n< \\x0\n", "line 2: the text spells no bytes"),
        (b"case a: one\\\n", "line 1: the text spells no bytes"),
        (b"case a: \\xff\n", "line 1: no text"),
        (b"case a:\n< \xff\n", "line 2: no text"),
        (
            b"case a:\nstatus 256 x\n",
            "line 2: a case has one status, a number and a text",
        ),
        (
            b"case a:\nstatus 1 x\nstatus 1 x\n",
            "line 3: a case has one status, a number and a text",
        ),
        (
            b"case a:\n> x\n~ x\n",
            "line 3: a case has lines of all that is written, or of parts of it",
        ),
        (
            b"case a:\n~ x\n> x\n",
            "line 3: a case has lines of all that is written, or of parts of it",
        ),
    ];
    for (text, want) in &rows {
        assert!(rt; told(rt.alloc(), text)?.as_str() == *want, "{want}");
    }
    Ok(())
}

/// The input of the last case of a file.
fn last_input(alloc: Global, text: &str) -> Result<Vec<u8>, AllocError> {
    match read_cases(alloc, text.as_bytes()) {
        Ok(cases) => match cases.last() {
            Some(case) => Vec::from_slice(alloc, case.input.as_slice()),
            None => Err(AllocError),
        },
        Err(_) => Err(AllocError),
    }
}

#[test]
fn lines_spell_an_input(rt: HostRuntime) -> Result<(), Fail> {
    let rows: [(&str, &[u8]); 7] = [
        ("case a:", b""),
        ("case a:\n<", b"\n"),
        ("case a:\n< a  b\n", b"a  b\n"),
        ("case a:\n<2 ab\n", b"ab\nab\n"),
        ("case a:\n<3 ab\\\n< c", b"abababc\n"),
        ("case a:\n< \\\\\\x00\\xffx\n", b"\\\0\xffx\n"),
        ("case a:\n< x\n\ncase b:\n< w\nas a\n< y\n", b"w\nx\ny\n"),
    ];
    for (text, want) in &rows {
        let found = last_input(rt.alloc(), text)?;
        assert!(rt; found.as_slice() == *want, "{text:?}");
    }
    Ok(())
}

/// Whether a case has these words, output and end.
fn has(case: &Case, words: &[&str], output: &[u8], number: u8, says: &str) -> bool {
    let are_words = case.words.len() == words.len()
        && case
            .words
            .iter()
            .zip(words)
            .all(|(word, want)| word.as_str() == *want);
    let is_end = case.ending.as_ref().is_some_and(|ending| ending.number == number
        && ending.text.as_str() == says);
    are_words && is_end && case.output.as_slice() == output
}

#[test]
fn a_case_has_words_an_output_and_an_end(rt: HostRuntime) -> Result<(), Fail> {
    let text = b"case a: gen \\x20 1\nstatus 3 kms: a: b\n> x\n>2 y\n";
    let Ok(cases) = read_cases(rt.alloc(), text) else {
        return Err(Fail::from(AllocError));
    };
    let [case] = cases.as_slice() else {
        return Err(Fail::from(AllocError));
    };
    assert!(rt; case.name.as_str() == "a" && case.parts.is_empty());
    assert!(rt; has(case, &["gen", " ", "1"], b"x\ny\ny\n", 3, "kms: a: b"));
    Ok(())
}

#[test]
fn bytes_are_shown_as_they_are_spelled(rt: HostRuntime) -> Result<(), Fail> {
    let text = show(rt.alloc(), b"a \\\0~\x7f\xff\n")?;
    assert!(rt; text.as_str() == "a \\\\\\x00~\\x7f\\xff\\x0a");
    Ok(())
}

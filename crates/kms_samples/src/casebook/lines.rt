//! A line taken apart.

/// The greatest number of times that a line says a text.
const MOST_TIMES: u32 = 65536;

/// A line: a mark, how many times it says its text, and the text.
#[derive(Clone, Copy, Drop)]
pub(crate) struct Marked<'a> {
    pub mark: &'a str,
    pub times: u32,
    pub text: &'a str,
}

/// Takes a line apart at its first space, or at its end. Digits behind the mark say how many times the text is said; where
/// there are none, it is said once. None where they are no number from 1 to [`MOST_TIMES`].
pub(crate) fn read_marked(line: &str) -> Option<Marked<'_>> {
    let (front, text) = match line.split_once(' ') {
        Some(parts) => parts,
        None => (line, ""),
    };
    let mark = front.trim_end_matches(|c: char| c.is_ascii_digit());
    let digits = front.strip_prefix(mark)?;
    let times = if digits.is_empty() {
        1
    } else {
        digits.parse::<u32>().ok()?
    };
    if times == 0 || times > MOST_TIMES {
        return None;
    }
    Some(Marked { mark, times, text })
}

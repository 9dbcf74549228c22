//! Lines of an input.
ghost use Rattle.std.specs.Prelude.{◌≡◌, ◌<◌, ◌≤◌, ◌∷◌, length};
ghost use Rattle.kms_model.specs.Script.InputLines.{rows_of};
ghost use Rattle.kms_script.specs.Drafted.{row_in};

use kms_words::split_at_byte;

/// A line of an input.
#[derive(Clone, Copy)]
pub struct Row<'a> {
    /// The line without its line feed.
    pub text: &'a [u8],
    /// Whether a line feed ends it.
    pub is_ended: bool,
}

/// The first line of an input that is not empty, and the bytes behind it.
pub fn split_line(bytes: &[u8]) -> (Row<'_>, &[u8])
    requires { 0 < length bytes.now }
    ensures rows { rows_of bytes.now ≡ row_in result.0 ∷ rows_of result.1.now }
    ensures text { length (row_in result.0).text ≤ length bytes.now }
    ensures shorter { length result.1.now < length bytes.now }
{
    let (text, after) = split_at_byte(bytes, b'\n');
    match after {
        [_, rest @ ..] => (
            Row {
                text,
                is_ended: true,
            },
            rest,
        ),
        [] => (
            Row {
                text: bytes,
                is_ended: false,
            },
            after,
        ),
    }
}

//! What is said of a report.

/// What is said of a report.
#[derive(Clone, Copy, Debug, PartialEq, Eq)]
pub enum Audit {
    /// Each line is right.
    Yes,
    /// This line, counted from 1, is the first that is not.
    No {
        /// Its number.
        line: u32,
    },
}

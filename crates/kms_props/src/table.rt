//! Tables, and how they are read.

/// A table of `N` rows. A key that several rows have stands for the first of them.
#[derive(Clone, Copy, PartialEq, Eq)]
pub struct Table<R, const N: usize> {
    /// The rows, in order.
    pub rows: [R; N],
}

/// Reads a table as the body of a look-up: matches its rows in order, and returns `Some` of the value at the first
/// row that fits, or else is `None`. In the test and in the value the row is a reference.
#[macro_export]
macro_rules! first_row {
    ($table:expr, $row:ident if $fits:expr => $value:expr) => {{
        let table = $table;
        for row in table.rows.iter() {
            match row {
                $row if $fits => return Some($value),
                _ => {}
            }
        }
        None
    }};
}

//! The assertions of all tables.
use std::process::Abort;

/// Asserts that a row of a table holds, by the table's name and the row's place, counted from 0.
pub(crate) fn assert_row(rt: &impl Abort, holds: bool, table: &str, row: usize) {
    assert!(rt; holds, "{table}, row {row}");
}

/// Asserts that all rows of a table hold.
pub(crate) fn assert_rows(rt: &impl Abort, holds: &[bool], table: &str) {
    for (row, is) in holds.iter().enumerate() {
        assert_row(rt, *is, table, row);
    }
}

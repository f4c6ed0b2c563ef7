//! How a test ends where something doesn't hold. The text of a failure is proved here once, and not in each test.
use std::alloc::Global;
use std::process::Abort;

/// Ends the test where this doesn't hold, and tells what was tried.
pub(crate) fn check<R: Abort>(rt: &R, holds: bool, tried: &str) {
    assert!(rt; holds, "at {tried}");
}

/// Ends the test where something doesn't hold that was tried, and tells what.
pub(crate) fn check_none<R: Abort>(rt: &R, other: Option<&str>) {
    assert!(rt; other.is_none(), "at {}", other.unwrap_or(""));
}

/// A row of a table.
pub(crate) trait Row {
    /// Whether it is as it says.
    fn holds(&self, alloc: Global) -> bool;
}

/// Whether all rows of a table are as they say. There is one loop over rows for all tables, since each costs its proof.
pub(crate) fn all_hold<R: Row>(alloc: Global, rows: &[R]) -> bool {
    for row in rows {
        if !row.holds(alloc) {
            return false;
        }
    }
    true
}

/// A table whose rows are one text, which costs less to prove than a list of them. A `^` stands between two rows.
pub(crate) trait Rows {
    /// The text.
    fn rows(&self) -> &'static str;

    /// Whether a row holds; `None` says that it isn't well written, or that there was no memory.
    fn holds(&self, alloc: Global, row: &str) -> Option<bool>;
}

// The first row of this table that doesn't hold.
fn first_in<T: Rows>(alloc: Global, table: &T) -> Option<&'static str> {
    for row in table.rows().split('^') {
        if table.holds(alloc, row) != Some(true) {
            return Some(row);
        }
    }
    None
}

/// The first row of these tables that doesn't hold.
pub(crate) fn first_other<T: Rows>(alloc: Global, tables: &[T]) -> Option<&'static str> {
    for table in tables {
        let other = first_in(alloc, table);
        if other.is_some() {
            return other;
        }
    }
    None
}

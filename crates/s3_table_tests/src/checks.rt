//! How a test ends where something doesn't hold. The text of a failure is proved here once, and not in each test.
use std::alloc::Global;
use std::process::Abort;

/// Ends the test where this doesn't hold, and tells what was tried.
pub(crate) fn check<R: Abort>(rt: &R, holds: bool, tried: &str) {
    assert!(rt; holds, "at {tried}");
}

/// A row of a table.
pub(crate) trait Row {
    /// Whether it is as it says.
    fn holds(&self, alloc: Global) -> bool;
}

/// Whether all rows of a table are as they say. There is one loop over rows for all tables, since each costs its proof.
pub(crate) fn all_hold<R: Row>(alloc: Global, rows: &[R]) -> bool {
    for row in rows {
        if !row.holds(alloc) {
            return false;
        }
    }
    true
}

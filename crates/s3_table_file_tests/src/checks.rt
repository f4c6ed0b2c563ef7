//! How a test ends where something doesn't hold. The text of a failure is proved here once, and not in each test.
use std::process::Abort;

/// Ends the test where this doesn't hold, and tells what was tried.
pub(crate) fn check<R: Abort>(rt: &R, holds: bool, tried: &str) {
    assert!(rt; holds, "at {tried}");
}

/// Ends the test where something doesn't hold that was tried, and tells what.
pub(crate) fn check_none<R: Abort>(rt: &R, other: Option<&str>) {
    assert!(rt; other.is_none(), "at {}", other.unwrap_or(""));
}

//! A request of a scenario, as its file tells it.

use crate::body::body;
use s3_calendar::Stamp;
use s3_signer::signed_request;
use s3_test_servers::{ID, SECRET};
use std::alloc::Global;

/// The request of a text, as a client sends it, signed by the key of the tests: a line with the method and the target, its
/// header lines, and behind an empty line its body, as `body` reads it. `None` says that the text is none, that it can't be
/// signed, or that memory ran out.
pub(crate) fn signed(alloc: Global, region: &[u8], stamp: Stamp, text: &str) -> Option<Vec<u8>> {
    let (head, told) = text.split_once("\n\n").unwrap_or((text, ""));
    let (first, lines) = head.split_once("\n").unwrap_or((head, ""));
    let (method, target) = first.split_once(" ")?;
    let headers = headers(alloc, lines)?;
    let body = body(alloc, told)?;
    signed_request(
        alloc,
        ID,
        SECRET,
        region,
        method.as_bytes(),
        target.as_bytes(),
        headers.as_slice(),
        body.as_slice(),
        stamp,
    )
    .ok()
}

// The host, and the header lines of a text.
fn headers<'a>(alloc: Global, lines: &'a str) -> Option<Vec<(&'a [u8], &'a [u8])>> {
    let mut headers: Vec<(&'a [u8], &'a [u8])> = Vec::new(alloc);
    headers.push((b"host", b"localhost")).ok()?;
    for line in lines.split('\n') {
        if let Some((name, value)) = line.split_once(": ") {
            headers.push((name.as_bytes(), value.as_bytes())).ok()?;
        }
    }
    Some(headers)
}

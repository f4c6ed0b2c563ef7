//! UriEncode: what a signature keeps of a byte as it is, and what it escapes.

ghost use Rattle.std.specs.Prelude.{◌≡◌, ◌++◌, IfOk, OnOk};
ghost use Rattle.std.specs.String.{string_bytes};
ghost use Rattle.percent_encoding.specs.Percent.{percent_encode};
ghost use Rattle.s3_canonical.specs.Encoding.{encode_path, encode_query};

use percent_encoding::{AsciiSet, NON_ALPHANUMERIC, ascii_set, percent_encode};
use std::alloc::{AllocError, Global};

// The ASCII bytes that are escaped in a name or a value of the query.
const QUERY_ESCAPES: AsciiSet = ascii_set!(
    NON_ALPHANUMERIC
        .remove(b'-')
        .remove(b'.')
        .remove(b'_')
        .remove(b'~')
);

// The ASCII bytes that are escaped in a path.
const PATH_ESCAPES: AsciiSet = ascii_set!(QUERY_ESCAPES.remove(b'/'));

// The bytes, escaped by the set.
fn encode(alloc: Global, bytes: &[u8], escapes: AsciiSet) -> Result<Vec<u8>, AllocError>
    ensures { IfOk result (λ text. text.items ≡ percent_encode escapes bytes.now) }
{
    let mut text = String::new(alloc);
    percent_encode(bytes, escapes).append_to(&mut text)?;
    Ok(text.into_bytes())
}

// A path, encoded.
pub(crate) fn encode_path(alloc: Global, path: &[u8]) -> Result<Vec<u8>, AllocError>
    ensures { IfOk result (λ text. text.items ≡ encode_path path.now) }
{
    encode(alloc, path, PATH_ESCAPES)
}

/// Appends a path, encoded: as `encode_query` does, but with its slashes as they are. Takes time and memory by its length.
pub fn append_path(text: &mut String, path: &[u8]) -> Result<(), AllocError>
    ensures { OnOk result (string_bytes text.new ≡ string_bytes text.old ++ encode_path path.now) }
{
    percent_encode(path, PATH_ESCAPES).append_to(text)
}

/// A name or a value of the query, encoded: letters, digits, `-`, `.`, `_` and `~` as they are, and each other byte as `%`
/// and two upper-case digits (AWS Signature Version 4, "Create a canonical request", UriEncode). Takes time and memory by
/// its length.
pub fn encode_query(alloc: Global, part: &[u8]) -> Result<Vec<u8>, AllocError>
    ensures { IfOk result (λ text. text.items ≡ encode_query part.now) }
{
    encode(alloc, part, QUERY_ESCAPES)
}

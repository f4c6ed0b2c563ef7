//! A signed request whose body is sent as it is.

ghost use Rattle.std.specs.Prelude.{◌≡◌, ◌≤◌, length, IfOk, OnOk, IsErrOf};
ghost use Rattle.s3_http_heads.specs.Head.{line_limit};
ghost use Rattle.s3_signer.specs.Request.{IsSignable, given_lines, request_text};
ghost use Rattle.s3_signer.specs.Verified.{IsVerifiedRequest};

use crate::signed::{signed_lines, signed_text};
use crate::telling::{Telling, hash_text, tells_length};
use crate::unsigned::Unsigned;
use s3_calendar::Stamp;
use s3_http_heads::LINE_LIMIT;
use std::alloc::Global;

/// A whole request, signed by the access key `id` with its `secret` for the `region` (AWS Signature
/// Version 4, "Add the signature to the request"), as the bytes that a client sends: the request line,
/// the header lines, the empty line and the body.
///
/// The lines are those of `headers`, which has the `host`, and those that are added: the body's hash
/// (`x-amz-content-sha256`), the stamp (`x-amz-date`), the body's size (`content-length`) where the
/// method is PUT or POST or the body isn't empty, and the `authorization`, which signs all others. Names
/// are written in lower case, the lines in the order of their names with the authorization as the last,
/// and lines of one name as they were given; each value is written as it was given.
///
/// Every server that has the key and stands in the region verifies what is written, while its clock is
/// within 900 seconds of the stamp and unless the target carries a signature of its own.
///
/// Hashes the body once, copies it once and looks at it once more. Each line is compared with those before
/// its place; more than 64 given lines are refused before that.
///
/// # Errors
///
/// `NotSignable` where what would be written is no message that says what was asked for, or has a line
/// under one of the signer's names that the signer did not add. So a request can be signed if
///
/// - the method is a token, and the target is UTF-8 without spaces and control bytes that begins with
///   `/` and has two hexadecimal digits after each `%` (RFC 9110, section 5.6.2; RFC 9112, section 3.2);
/// - each given header is a token and a value without control bytes but the tab, none is named
///   `authorization`, `content-length`, `x-amz-content-sha256` or `x-amz-date`, and one is named `host`,
///   the case aside;
/// - no control bytes but the tab stand in the key's id or in the region;
/// - with the lines that are added the head has at most 64 lines and 16,384 bytes, and the body has
///   fewer than 10 to the 18th bytes.
pub fn signed_request(
    alloc: Global,
    id: &[u8],
    secret: &[u8],
    region: &[u8],
    method: &[u8],
    target: &[u8],
    headers: &[(&[u8], &[u8])],
    body: &[u8],
    stamp: Stamp,
) -> Result<Vec<u8>, Unsigned>
    ensures text { IfOk result (λ text. text.items
        ≡ request_text id.now secret.now region.now method.now target.now (given_lines headers.now) body.now stamp) }
    ensures signable { OnOk result
        (IsSignable id.now secret.now region.now method.now target.now (given_lines headers.now) body.now stamp) }
    ensures refused { IsErrOf result Unsigned.NotSignable
        → ¬ (IsSignable id.now secret.now region.now method.now target.now (given_lines headers.now) body.now stamp) }

    // Memory runs out only where the given lines are no more than a head may have.
    ensures memory { IsErrOf result Unsigned.OutOfMemory → length headers.now ≤ line_limit }

    // What is written is verified, by every server that knows the signer.
    ensures verified { IfOk result (λ text. IsVerifiedRequest id.now secret.now region.now
        method.now target.now (given_lines headers.now) body.now stamp text.items) }
{
    if headers.len() > LINE_LIMIT {
        return Err(Unsigned::NotSignable);
    }
    let hash = hash_text(body);
    let telling = Telling {
        word: &hash,
        size: body.len(),
        sized: tells_length(method, body),
        more: &[],
    };
    let signed = signed_lines(
        alloc, id, secret, region, method, target, headers, &telling, stamp,
    )?;
    signed_text(alloc, method, target, &signed, body)
}

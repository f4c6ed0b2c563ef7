//! A signed request whose body is sent in signed chunks.

ghost use Rattle.std.specs.Prelude.{◌≡◌, ◌≤◌, ◌-◌, List, ℕ, length, drop, IfOk, OnOk, IsErrOf};
ghost use Rattle.s3_http_heads.specs.Head.{line_limit};
ghost use Rattle.s3_signing.specs.Chain.{seed_with};
ghost use Rattle.s3_aws_chunked.specs.Write.{Writes, written_length};
ghost use Rattle.s3_signer.specs.Chunked.{IsChunkedText, IsSignableInChunks, IsVerifiedChunkedRequest, chunked};
ghost use Rattle.s3_signer.specs.Line.{AreLinesOf};
ghost use Rattle.s3_signer.specs.Request.{CanBeSent, given_lines};

use crate::chunk_size::ChunkSize;
use crate::signed::{SignedLines, signed_lines, signed_text};
use crate::telling::Telling;
use crate::unsigned::Unsigned;
use itoa::Buffer;
use s3_aws_chunked::{write_chunks, writings_are_accepted, written_length};
use s3_calendar::Stamp;
use s3_http_heads::LINE_LIMIT;
use s3_signing::{ChunkChain, REGION_MAX};
use s3_terms::NoMemory;
use std::alloc::Global;

// The word of a body that is sent in signed chunks (AWS Signature Version 4).
const SIGNED_CHUNKS: &[u8] = b"STREAMING-AWS4-HMAC-SHA256-PAYLOAD";

// The longest secret of an access key, in bytes.
const SECRET_MAX: usize = 128;

// The digits of a signature.
const DIGITS: usize = 64;

// The last 64 bytes of a value.
fn last_digits(value: &[u8]) -> [u8; 64]
    requires { DIGITS ≤ length value.now }
    ensures { result ≡ drop (length value.now - DIGITS) value.now }
{
    let mut digits = [0; DIGITS];
    digits.copy_from_slice(&value[value.len() - DIGITS..]);
    digits
}

// The lines of a request whose body is these bytes, of which so many are sent in signed chunks.
fn chunked_lines(
    alloc: Global,
    id: &[u8],
    secret: &[u8],
    region: &[u8],
    method: &[u8],
    target: &[u8],
    headers: &[(&[u8], &[u8])],
    body: &[u8],
    size: ChunkSize,
    sent: usize,
    stamp: Stamp,
) -> Result<SignedLines, Unsigned>
    requires { sent ≡ written_length (length body.now) size }
    ensures signed { IfOk result (AreLinesOf id.now secret.now region.now
        method.now target.now (given_lines headers.now) (chunked body.now size) stamp) }
    ensures refused { IsErrOf result Unsigned.NotSignable → (text : List ℕ)
        → ¬ (CanBeSent id.now secret.now region.now method.now target.now (given_lines headers.now) (chunked body.now size) stamp text) }
{
    let mut digits = Buffer::new();
    let decoded = digits.format(body.len()).as_bytes();
    let more = [
        (b"content-encoding".as_slice(), b"aws-chunked".as_slice()),
        (b"x-amz-decoded-content-length".as_slice(), decoded),
    ];
    let telling = Telling {
        word: SIGNED_CHUNKS,
        size: sent,
        sized: true,
        more: &more,
    };
    signed_lines(
        alloc, id, secret, region, method, target, headers, &telling, stamp,
    )
}

// These bytes in signed chunks, whose chain begins at the signature of these lines, the end of its value.
fn chunked_body(
    alloc: Global,
    secret: &[u8],
    region: &[u8],
    stamp: Stamp,
    signed: &SignedLines,
    body: &[u8],
    size: ChunkSize,
) -> Result<Vec<u8>, NoMemory>
    requires secret { length secret.now ≤ SECRET_MAX }
    requires region { length region.now ≤ REGION_MAX }
    requires value { DIGITS ≤ length signed.now.value.items }
    ensures { IfOk result (λ text. Writes
        (seed_with secret.now region.now stamp (drop (length signed.now.value.items - DIGITS) signed.now.value.items))
        body.now size text.items) }
{
    let first = last_digits(&signed.value);
    let chain = ChunkChain::from_secret(secret, region, stamp, first);
    write_chunks(alloc, chain, body, size.bytes())
}

/// The request of [`signed_request`](crate::signed_request), with its body sent in signed chunks of `size` bytes,
/// the last one smaller where the body doesn't come out even, and the empty chunk (Amazon S3 API Reference,
/// "Transferring payload in multiple chunks").
///
/// Its `x-amz-content-sha256` is `STREAMING-AWS4-HMAC-SHA256-PAYLOAD`, and two more lines are added:
/// `content-encoding`, which is `aws-chunked`, and `x-amz-decoded-content-length`, the size of `body`;
/// `content-length` is the size of all that is sent, and always told. The chain of the chunks' signatures begins at
/// that of the head.
///
/// Every server that has the key and stands in the region verifies what is written, while its clock is
/// within 900 seconds of the stamp and unless the target carries a signature of its own; and a reader of signed
/// chunks accepts the body as `body`.
///
/// Hashes and copies the body once, and copies its chunks once more; some 450 bytes are hashed for each chunk.
///
/// # Errors
///
/// `NotSignable` where [`signed_request`](crate::signed_request) has it, and
///
/// - where a given header is named `content-encoding` or `x-amz-decoded-content-length`;
/// - where the secret has more than 128 bytes, or the region's name more than 64: no server has such ones;
/// - where 10 to the 18th bytes or more would be sent.
pub fn chunked_request(
    alloc: Global,
    id: &[u8],
    secret: &[u8],
    region: &[u8],
    method: &[u8],
    target: &[u8],
    headers: &[(&[u8], &[u8])],
    body: &[u8],
    size: ChunkSize,
    stamp: Stamp,
) -> Result<Vec<u8>, Unsigned>
    ensures text { IfOk result (λ text. IsChunkedText id.now secret.now region.now
        method.now target.now (given_lines headers.now) body.now size stamp text.items) }
    ensures signable { OnOk result (IsSignableInChunks id.now secret.now region.now
        method.now target.now (given_lines headers.now) body.now size stamp) }
    ensures refused { IsErrOf result Unsigned.NotSignable → ¬ (IsSignableInChunks id.now secret.now region.now
        method.now target.now (given_lines headers.now) body.now size stamp) }

    // Memory runs out only where the given lines, the secret and the region are no more than there may be.
    ensures memory { IsErrOf result Unsigned.OutOfMemory
        → (length headers.now ≤ line_limit) × (length secret.now ≤ 128) × (length region.now ≤ 64) }

    // What is written is verified, by every server that knows the signer, and its chunks are accepted.
    ensures verified { IfOk result (λ text. IsVerifiedChunkedRequest id.now secret.now region.now
        method.now target.now (given_lines headers.now) body.now size stamp text.items) }
{
    if headers.len() > LINE_LIMIT || secret.len() > SECRET_MAX || region.len() > REGION_MAX {
        return Err(Unsigned::NotSignable);
    }
    let Some(sent) = written_length(body.len(), size.bytes()) else {
        return Err(Unsigned::NotSignable);
    };
    let signed = chunked_lines(
        alloc, id, secret, region, method, target, headers, body, size, sent, stamp,
    )?;
    let text = chunked_body(alloc, secret, region, stamp, &signed, body, size)?;
    writings_are_accepted();
    signed_text(alloc, method, target, &signed, &text)
}

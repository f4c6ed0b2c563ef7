//! A presigned target, and a whole request that has it.

ghost use Rattle.std.specs.Prelude.{◌≡◌, ◌≤◌, ◌++◌, length, IfOk, OnOk, IsErrOf};
ghost use Rattle.httparse.specs.Grammar.{print_request};
ghost use Rattle.s3_http_heads.specs.Head.{line_limit};
ghost use Rattle.s3_signer.specs.Line.{IsMessageOf};
ghost use Rattle.s3_signer.specs.Presigned.{CanBePresigned, IsPresignable, IsPresignableWith, IsVerifiedPresigned, IsVerifiedTarget, presigned_head, presigned_request_text, presigned_target_text, target_text};
ghost use Rattle.s3_signer.specs.Request.{given_lines};

use crate::asked::Asked;
use crate::lines::sized_lines;
use crate::message::message;
use crate::presigning::presigned;
use crate::telling::told_size;
use crate::unsigned::Unsigned;
use s3_authorization::Expires;
use s3_calendar::Stamp;
use s3_http_heads::LINE_LIMIT;
use s3_signing::presigned_heads_are_verified;
use std::alloc::Global;

/// A target that is presigned by the access key `id` with its `secret` for the `region` (Amazon S3 API Reference,
/// "Authenticating requests: using query parameters"): whoever sends a request of this method with it, and with the lines
/// of `headers`, which has the `host`, needs no key.
///
/// It is `target` with its own query, and behind that the six parameters of the signing: the algorithm, the credential,
/// the stamp, for how many seconds from that it holds, the names that are signed, which are those of all given lines, and
/// the signature. Their values are encoded, and they are joined to the target by `?` where it has none, and else by `&`.
///
/// Every server that has the key and stands in the region verifies each request that uses it, from 900 seconds before the
/// stamp to `expires` behind it, and refuses it at any other moment. A request uses it that has the method, the target and
/// the same given lines, no authorization, and no other of Amazon's header lines; its body is free.
///
/// Each line is compared with those before its place; more than 64 given lines are refused before that.
///
/// # Errors
///
/// `NotSignable` where the head of the method, that target and the given lines isn't one, or says something else. So a
/// target can be presigned if
///
/// - the method is a token, and the target is UTF-8 without spaces and control bytes that begins with `/`, has two
///   hexadecimal digits after each `%`, and names none of the six parameters;
/// - each given header is a token and a value without control bytes but the tab, none is named `authorization` or
///   `content-length`, exactly one is named `host`, and `x-amz-content-sha256` is `UNSIGNED-PAYLOAD` where it is given,
///   the case of names aside;
/// - the key's id isn't empty, has no control byte but the tab and, like the region, no slash and no comma;
/// - the head has at most 64 lines and 16,384 bytes.
#[tactic(auto, using(crate::proofs::LineLemmas::given_alone))]
pub fn presigned_target(
    alloc: Global,
    id: &[u8],
    secret: &[u8],
    region: &[u8],
    method: &[u8],
    target: &[u8],
    headers: &[(&[u8], &[u8])],
    stamp: Stamp,
    expires: Expires,
) -> Result<Vec<u8>, Unsigned>
    ensures text { IfOk result (λ text. text.items ≡ presigned_target_text id.now secret.now region.now
        method.now target.now (given_lines headers.now) stamp expires) }
    ensures signable { OnOk result (IsPresignable id.now secret.now region.now
        method.now target.now (given_lines headers.now) stamp expires) }
    ensures refused { IsErrOf result Unsigned.NotSignable → ¬ (IsPresignable id.now secret.now region.now
        method.now target.now (given_lines headers.now) stamp expires) }

    // Memory runs out only where the given lines are no more than a head may have.
    ensures memory { IsErrOf result Unsigned.OutOfMemory → length headers.now ≤ line_limit }

    // Whoever uses what is written is verified while it is current, by every server that knows the signer.
    ensures verified { IfOk result (λ text. IsVerifiedTarget id.now secret.now region.now
        method.now target.now (given_lines headers.now) stamp expires text.items) }
{
    if headers.len() > LINE_LIMIT {
        return Err(Unsigned::NotSignable);
    }
    let asked = Asked {
        id,
        secret,
        region,
        method,
        target,
        headers,
        size: None,
        stamp,
        expires,
    };
    presigned_heads_are_verified();
    presigned(alloc, &asked)
}

// The message of a presigned target, with this body: it is written and read back.
fn message_of(alloc: Global, asked: &Asked, target: &[u8], body: &[u8]) -> Result<Vec<u8>, Unsigned>
    requires { target.now ≡ target_text asked.now }
    ensures text { IfOk result (λ text. text.items ≡ print_request (presigned_head asked.now) ++ body.now) }
    ensures message { OnOk result (IsMessageOf (presigned_head asked.now) body.now) }
    ensures refused { IsErrOf result Unsigned.NotSignable → ¬ (IsMessageOf (presigned_head asked.now) body.now) }
{
    let lines = sized_lines(alloc, asked.headers, asked.size)?;
    let (text, _head) = message(alloc, asked.method, target, &lines, body)?;
    Ok(text)
}

// The presigned request that is asked for, with this body.
fn request_of(alloc: Global, asked: &Asked, body: &[u8]) -> Result<Vec<u8>, Unsigned>
    ensures text { IfOk result (λ text. text.items ≡ print_request (presigned_head asked.now) ++ body.now) }
    ensures presigned { OnOk result (CanBePresigned asked.now) }
    ensures message { OnOk result (IsMessageOf (presigned_head asked.now) body.now) }
    ensures refused { IsErrOf result Unsigned.NotSignable
        → CanBePresigned asked.now → ¬ (IsMessageOf (presigned_head asked.now) body.now) }
{
    let target = presigned(alloc, asked)?;
    message_of(alloc, asked, &target, body)
}

/// A whole request with the target of [`presigned_target`], as the bytes that a client sends who has no key: the request
/// line, the header lines, the empty line and the body.
///
/// The lines are those of `headers`, and the body's size (`content-length`) where the method is PUT or POST or the body
/// isn't empty; all are signed. Names are written in lower case, the lines in the order of their names, and lines of one
/// name as they were given; each value is written as it was given.
///
/// Every server that has the key and stands in the region verifies what is written, from 900 seconds before the stamp to
/// `expires` behind it, and refuses it at any other moment.
///
/// Copies the body once and looks at it once more.
///
/// # Errors
///
/// `NotSignable` where [`presigned_target`] has it for the given lines, where the head is too long with the size of the
/// body, and where the body has 10 to the 18th bytes or more.
pub fn presigned_request(
    alloc: Global,
    id: &[u8],
    secret: &[u8],
    region: &[u8],
    method: &[u8],
    target: &[u8],
    headers: &[(&[u8], &[u8])],
    body: &[u8],
    stamp: Stamp,
    expires: Expires,
) -> Result<Vec<u8>, Unsigned>
    ensures text { IfOk result (λ text. text.items ≡ presigned_request_text id.now secret.now region.now
        method.now target.now (given_lines headers.now) body.now stamp expires) }
    ensures signable { OnOk result (IsPresignableWith id.now secret.now region.now
        method.now target.now (given_lines headers.now) body.now stamp expires) }
    ensures refused { IsErrOf result Unsigned.NotSignable → ¬ (IsPresignableWith id.now secret.now region.now
        method.now target.now (given_lines headers.now) body.now stamp expires) }

    // Memory runs out only where the given lines are no more than a head may have.
    ensures memory { IsErrOf result Unsigned.OutOfMemory → length headers.now ≤ line_limit }

    // What is written is verified while it is current, by every server that knows the signer.
    ensures verified { IfOk result (λ text. IsVerifiedPresigned id.now secret.now region.now
        method.now target.now (given_lines headers.now) body.now stamp expires text.items) }
{
    if headers.len() > LINE_LIMIT {
        return Err(Unsigned::NotSignable);
    }
    let asked = Asked {
        id,
        secret,
        region,
        method,
        target,
        headers,
        size: told_size(method, body),
        stamp,
        expires,
    };
    presigned_heads_are_verified();
    request_of(alloc, &asked, body)
}

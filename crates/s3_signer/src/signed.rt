//! The lines of a request and the one that signs them, and the message that they make.

ghost use Rattle.std.specs.Prelude.{◌≡◌, ◌∷◌, ◌++◌, List, ℕ, [], codes, IfOk, OnOk, IsErrOf};
ghost use Rattle.httparse.specs.Grammar.{print_request};
ghost use Rattle.s3_http_heads.specs.Head.{parts_of};
ghost use Rattle.s3_signing.specs.Accepted.{IsVerifiedWith};
ghost use Rattle.s3_signing.specs.Authorize.{authorization_text};
ghost use Rattle.s3_signer.specs.Line.{AreLinesOf, IsMessageOf, head_with, pairs, told_by};
ghost use Rattle.s3_signer.specs.Request.{CanBeSent, HasOne, IsReadyFor, ReadsBack, authorization_of, given_lines};

use crate::line::Line;
use crate::lines::unsigned_lines;
use crate::message::{head, message};
use crate::ready::{has_one, is_ready};
use crate::telling::Telling;
use crate::unsigned::Unsigned;
use s3_calendar::Stamp;
use s3_http_heads::Head;
use s3_signing::sign_head;
use std::alloc::{AllocError, Global};

// All lines of a request, that of the authorization the last.
#[derive(Drop)]
pub(crate) struct SignedLines {
    // All of them.
    pub(crate) lines: Vec<Line>,
    // The value of the last one.
    pub(crate) value: Vec<u8>,
}

// The value that signs a head, if it is ready for it.
fn value_for(
    alloc: Global,
    id: &[u8],
    secret: &[u8],
    region: &[u8],
    head: &Head,
    telling: &Telling,
    stamp: Stamp,
) -> Result<Vec<u8>, Unsigned>
    ensures text { IfOk result (λ value. value.items ≡ authorization_text id.now secret.now region.now head.now stamp) }
    ensures verified { IfOk result (λ value. IsVerifiedWith id.now secret.now region.now head.now stamp value.items) }
    ensures ready { OnOk result (IsReadyFor (told_by telling.now) stamp head.now) }
    ensures refused { IsErrOf result Unsigned.NotSignable → ¬ (IsReadyFor (told_by telling.now) stamp head.now) }
{
    if !is_ready(head, telling, stamp.text()) {
        return Err(Unsigned::NotSignable);
    }
    Ok(sign_head(alloc, id, secret, region, head, stamp)?)
}

// The value that signs the head of these lines.
fn authorization(
    alloc: Global,
    id: &[u8],
    secret: &[u8],
    region: &[u8],
    method: &[u8],
    target: &[u8],
    lines: &[Line],
    telling: &Telling,
    stamp: Stamp,
) -> Result<Vec<u8>, Unsigned>
    ensures text { IfOk result (λ value. value.items
        ≡ authorization_of id.now secret.now region.now (head_with method.now target.now lines.now) stamp) }
    ensures verified { IfOk result (λ value. IsVerifiedWith id.now secret.now region.now
        (parts_of (head_with method.now target.now lines.now)) stamp value.items) }
    ensures ready { OnOk result (IsReadyFor (told_by telling.now) stamp (parts_of (head_with method.now target.now lines.now))) }
    ensures says { OnOk result (ReadsBack (head_with method.now target.now lines.now)) }
    ensures refused { IsErrOf result Unsigned.NotSignable
        → ReadsBack (head_with method.now target.now lines.now)
        → ¬ (IsReadyFor (told_by telling.now) stamp (parts_of (head_with method.now target.now lines.now))) }
{
    let head = head(alloc, method, target, lines)?;
    value_for(alloc, id, secret, region, &head, telling, stamp)
}

// The lines and that of the authorization, which is the last.
#[tactic(auto, using(crate::proofs::LineLemmas::pairs_more))]
fn authorized(alloc: Global, mut lines: Vec<Line>, value: &[u8]) -> Result<Vec<Line>, AllocError>
    ensures { IfOk result (λ all. pairs all.items ≡ pairs lines.items ++ (codes "authorization", value.now) ∷ []) }
{
    lines.push(Line::new(alloc, b"authorization", value)?)?;
    Ok(lines)
}

// All lines of a request that tells its body so.
pub(crate) fn signed_lines(
    alloc: Global,
    id: &[u8],
    secret: &[u8],
    region: &[u8],
    method: &[u8],
    target: &[u8],
    headers: &[(&[u8], &[u8])],
    telling: &Telling,
    stamp: Stamp,
) -> Result<SignedLines, Unsigned>
    ensures signed { IfOk result (AreLinesOf id.now secret.now region.now
        method.now target.now (given_lines headers.now) (told_by telling.now) stamp) }
    ensures refused { IsErrOf result Unsigned.NotSignable → (body : List ℕ)
        → ¬ (CanBeSent id.now secret.now region.now method.now target.now (given_lines headers.now) (told_by telling.now) stamp body) }
{
    let lines = unsigned_lines(alloc, headers, telling, stamp.text())?;
    let value = authorization(
        alloc, id, secret, region, method, target, &lines, telling, stamp,
    )?;
    let lines = authorized(alloc, lines, &value)?;
    Ok(SignedLines { lines, value })
}

// The message of these lines, of which one is an authorization, of this value.
pub(crate) fn signed_text(
    alloc: Global,
    method: &[u8],
    target: &[u8],
    signed: &SignedLines,
    body: &[u8],
) -> Result<Vec<u8>, Unsigned>
    ensures text { IfOk result
        (λ text. text.items ≡ print_request (head_with method.now target.now signed.now.lines.items) ++ body.now) }
    ensures message { OnOk result (IsMessageOf (head_with method.now target.now signed.now.lines.items) body.now) }
    ensures own { OnOk result (HasOne (parts_of (head_with method.now target.now signed.now.lines.items))
        (codes "authorization", signed.now.value.items)) }
    ensures refused { IsErrOf result Unsigned.NotSignable
        → IsMessageOf (head_with method.now target.now signed.now.lines.items) body.now
        → ¬ (HasOne (parts_of (head_with method.now target.now signed.now.lines.items))
        (codes "authorization", signed.now.value.items)) }
{
    let (text, head) = message(alloc, method, target, &signed.lines, body)?;
    if !has_one(&head, b"authorization", &signed.value) {
        return Err(Unsigned::NotSignable);
    }
    Ok(text)
}

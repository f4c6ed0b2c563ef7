//! A target that is presigned: written, read back, and asked whether it says so.

ghost use Rattle.std.specs.Prelude.{◌≡◌, ◌≤◌, ◌++◌, List, ℕ, true, length, codes, IfOk, OnOk, IsErrOf};
ghost use Rattle.httparse.specs.Grammar.{print_request};
ghost use Rattle.s3_http_heads.specs.Head.{parts_of};
ghost use Rattle.s3_http_heads.specs.Target.{is_unreadable};
ghost use Rattle.s3_signing.specs.Names.{cover_of};
ghost use Rattle.s3_signing.specs.Presigning.{presigned_signature};
ghost use Rattle.s3_signer.specs.Line.{head_with, pairs};
ghost use Rattle.s3_signer.specs.Presigned.{CanBePresigned, IsReadyPresigned, head_to_sign, lines_of, target_text, target_to_sign};
ghost use Rattle.s3_signer.specs.Request.{ReadsBack};

use crate::asked::{Asked, target_to_sign};
use crate::head_text::head_text;
use crate::line::Line;
use crate::lines::sized_lines;
use crate::message::{head, read_head};
use crate::ready::{has_own_lines, is_plain, is_readable};
use crate::unsigned::Unsigned;
use s3_http_heads::{HEAD_LIMIT, Head};
use s3_signing::{presigned_signature, says_presigned, signed_names};
use std::alloc::{AllocError, Global};

// The names of these lines that are signed, whichever target has them.
fn names(alloc: Global, method: &[u8], lines: &[Line]) -> Result<Vec<u8>, Unsigned>
    ensures value { IfOk result (λ names. (target : List ℕ)
        → names.items ≡ cover_of (parts_of (head_with method.now target lines.now))) }
    ensures refused { IsErrOf result Unsigned.NotSignable → (target : List ℕ)
        → ¬ (ReadsBack (head_with method.now target lines.now)) }
{
    let head = head(alloc, method, b"/", lines)?;
    Ok(signed_names(alloc, &head)?)
}

// The target that is signed.
fn unsigned_target(alloc: Global, asked: &Asked, lines: &[Line]) -> Result<Vec<u8>, Unsigned>
    requires { pairs lines.now ≡ lines_of asked.now.headers }
    ensures value { IfOk result (λ text. text.items ≡ target_to_sign asked.now) }
    ensures refused { IsErrOf result Unsigned.NotSignable → ¬ (ReadsBack (head_to_sign asked.now)) }
{
    let names = names(alloc, asked.method, lines)?;
    Ok(target_to_sign(alloc, asked, &names)?)
}

// The signature that presigns a head, if its target can be read.
fn signature_for(alloc: Global, asked: &Asked, head: &Head) -> Result<[u8; 64], Unsigned>
    ensures value { IfOk result (λ digits. digits
        ≡ presigned_signature asked.now.secret asked.now.region head.now asked.now.stamp) }
    ensures refused { IsErrOf result Unsigned.NotSignable → is_unreadable head.now.target ≡ true }
{
    if !is_readable(head) {
        return Err(Unsigned::NotSignable);
    }
    Ok(presigned_signature(alloc, asked.secret, asked.region, head, &asked.stamp)?)
}

// The signature of the head of these lines at a target.
fn signature_at(
    alloc: Global,
    asked: &Asked,
    target: &[u8],
    lines: &[Line],
) -> Result<[u8; 64], Unsigned>
    ensures value { IfOk result (λ digits. digits ≡ presigned_signature asked.now.secret asked.now.region
        (parts_of (head_with asked.now.method target.now lines.now)) asked.now.stamp) }
    ensures says { OnOk result (ReadsBack (head_with asked.now.method target.now lines.now)) }
    ensures refused { IsErrOf result Unsigned.NotSignable
        → ReadsBack (head_with asked.now.method target.now lines.now) → is_unreadable target.now ≡ true }
{
    let head = head(alloc, asked.method, target, lines)?;
    signature_for(alloc, asked, &head)
}

// The target with its signature.
fn with_signature(mut target: Vec<u8>, signature: &[u8; 64]) -> Result<Vec<u8>, AllocError>
    ensures { IfOk result (λ text. text.items ≡ target.items ++ codes "&X-Amz-Signature=" ++ signature.now) }
{
    target.extend_from_slice(b"&X-Amz-Signature=")?;
    target.extend_from_slice(signature)?;
    Ok(target)
}

// The presigned target, which isn't read back yet.
#[tactic(auto, unfolding(crate::specs::Presigned::target_text))]
fn signed_target(alloc: Global, asked: &Asked, lines: &[Line]) -> Result<Vec<u8>, Unsigned>
    requires { pairs lines.now ≡ lines_of asked.now.headers }
    ensures value { IfOk result (λ text. text.items ≡ target_text asked.now) }
    ensures signed { OnOk result (ReadsBack (head_to_sign asked.now)) }
    ensures refused { IsErrOf result Unsigned.NotSignable → ¬ (CanBePresigned asked.now) }
{
    let target = unsigned_target(alloc, asked, lines)?;
    let signature = signature_at(alloc, asked, &target, lines)?;
    Ok(with_signature(target, &signature)?)
}

// Whether a head says what the signer presigns: it is refused where it doesn't.
fn judged(alloc: Global, asked: &Asked, head: &Head) -> Result<(), Unsigned>
    ensures ready { OnOk result (IsReadyPresigned asked.now head.now) }
    ensures refused { IsErrOf result Unsigned.NotSignable → ¬ (IsReadyPresigned asked.now head.now) }
{
    if !is_plain(asked.id) || !has_own_lines(head, asked.size.is_some()) {
        return Err(Unsigned::NotSignable);
    }
    if !says_presigned(
        alloc,
        asked.id,
        asked.secret,
        asked.region,
        head,
        asked.stamp,
        asked.expires,
    )? {
        return Err(Unsigned::NotSignable);
    }
    Ok(())
}

// Reads the head of these lines at a target back: it is refused where it is too long for a head, or doesn't say what the
// signer presigns.
fn read_back(alloc: Global, asked: &Asked, target: &[u8], lines: &[Line]) -> Result<(), Unsigned>
    ensures fits { OnOk result (length (print_request (head_with asked.now.method target.now lines.now)) ≤ HEAD_LIMIT) }
    ensures reads { OnOk result (ReadsBack (head_with asked.now.method target.now lines.now)) }
    ensures ready { OnOk result (IsReadyPresigned asked.now (parts_of (head_with asked.now.method target.now lines.now))) }
    ensures refused { IsErrOf result Unsigned.NotSignable
        → length (print_request (head_with asked.now.method target.now lines.now)) ≤ HEAD_LIMIT
        → ReadsBack (head_with asked.now.method target.now lines.now)
        → ¬ (IsReadyPresigned asked.now (parts_of (head_with asked.now.method target.now lines.now))) }
{
    let text = head_text(alloc, asked.method, target, lines)?;
    if text.len() > HEAD_LIMIT {
        return Err(Unsigned::NotSignable);
    }
    let head = read_head(alloc, &text, asked.method, target, lines)?;
    judged(alloc, asked, &head)
}

// The presigned target of these lines.
fn presigned_with(alloc: Global, asked: &Asked, lines: &[Line]) -> Result<Vec<u8>, Unsigned>
    requires { pairs lines.now ≡ lines_of asked.now.headers }
    ensures target { IfOk result (λ text. text.items ≡ target_text asked.now) }
    ensures signable { OnOk result (CanBePresigned asked.now) }
    ensures refused { IsErrOf result Unsigned.NotSignable → ¬ (CanBePresigned asked.now) }
{
    let target = signed_target(alloc, asked, lines)?;
    read_back(alloc, asked, &target, lines)?;
    Ok(target)
}

// The presigned target.
pub(crate) fn presigned(alloc: Global, asked: &Asked) -> Result<Vec<u8>, Unsigned>
    ensures target { IfOk result (λ text. text.items ≡ target_text asked.now) }
    ensures signable { OnOk result (CanBePresigned asked.now) }
    ensures refused { IsErrOf result Unsigned.NotSignable → ¬ (CanBePresigned asked.now) }
{
    let lines = sized_lines(alloc, asked.headers, asked.size)?;
    presigned_with(alloc, asked, &lines)
}

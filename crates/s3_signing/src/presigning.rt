//! What a signer presigns: the names that it covers, the signature, and whether a head says so.

ghost use Rattle.std.specs.Prelude.{◌≡◌, ◌↔◌, true, false, Ok, IfOk, codes};
ghost use Rattle.s3_text.specs.Digest.{is_hex_digest};
ghost use Rattle.s3_http_heads.specs.Target.{is_unreadable};
ghost use Rattle.s3_signing.specs.Names.{cover_of};
ghost use Rattle.s3_signing.specs.Presigned.{is_presigned};
ghost use Rattle.s3_signing.specs.Presigned as rules;
ghost use Rattle.s3_signing.specs.Presigning.{IsSound, PresignedIsVerified, SaysPresigned, presigned_signature, written_by};
ghost use Rattle.s3_signing.specs.Signature.{signature_of};
ghost use Rattle.s3_signing.specs.Word.{unsigned_payload};

use crate::compare::same_digits;
use crate::cover::covers_enough;
use crate::lines::names_other_word;
use crate::names::cover_of;
use crate::presigned::{Presigned, is_presigned, presigned_at};
use crate::signature::signature_of;
use crate::word::Word;
use s3_authorization::{Authorization, Expires};
use s3_calendar::Stamp;
use s3_http_heads::{Head, Target};
use s3_terms::NoMemory;
use std::alloc::Global;

/// The names of the headers that a signer of this head covers: those of all lines but Authorization, in lower case and
/// in their order, each once, joined by semicolons (AWS Signature Version 4, "Create a canonical request").
///
/// Takes memory by the length of the names, and time by it and a sort.
pub fn signed_names(alloc: Global, head: &Head) -> Result<Vec<u8>, NoMemory>
    ensures { IfOk result (λ names. names.items ≡ cover_of head.now) }
{
    Ok(cover_of(alloc, head)?)
}

// The signature of a head that covers these names, and whose body isn't signed.
fn unsigned_body_signature(
    alloc: Global,
    secret: &[u8],
    region: &[u8],
    head: &Head,
    stamp: &Stamp,
    signed: &[u8],
) -> Result<[u8; 64], NoMemory>
    ensures value { IfOk result (λ digits. digits
        ≡ signature_of secret.now stamp.now region.now head.now signed.now unsigned_payload) }
    ensures form { IfOk result (λ digits. is_hex_digest digits ≡ true) }
{
    let word = Word::Unsigned;
    signature_of(alloc, secret, stamp, region, head, signed, word.text())
}

/// The signature that presigns a head (Amazon S3 API Reference, "Authenticating requests: using query parameters"): it
/// covers all names that the head has but `authorization`, and all parameters of the query but `X-Amz-Signature`; the
/// word for the body is `UNSIGNED-PAYLOAD`. 64 lower-case hexadecimal digits.
///
/// Takes memory and time as the canonical request does, and a sort of the names.
pub fn presigned_signature(
    alloc: Global,
    secret: &[u8],
    region: &[u8],
    head: &Head,
    stamp: &Stamp,
) -> Result<[u8; 64], NoMemory>
    requires readable { is_unreadable head.now.target ≡ false }
    ensures value { IfOk result (λ digits. digits ≡ presigned_signature secret.now region.now head.now stamp.now) }
    ensures form { IfOk result (λ digits. is_hex_digest digits ≡ true) }
{
    let signed = cover_of(alloc, head)?;
    unsigned_body_signature(alloc, secret, region, head, stamp, &signed)
}

// Whether nothing in the lines of a head speaks against a presigned query that covers these names.
fn is_sound(head: &Head, signed: &[u8]) -> bool
    ensures { (result ≡ true) ↔ IsSound head.now signed.now }
{
    !head.is_sent(b"authorization") && !names_other_word(head) && covers_enough(head, signed)
}

// Whether the parts of an authorization are these, of the service that there is.
fn parts_are(
    sent: &Authorization,
    id: &[u8],
    date: &[u8],
    region: &[u8],
    signed: &[u8],
    signature: &[u8; 64],
) -> bool
    ensures { (result ≡ true) ↔ (sent.now ≡ record {
      id = id.now;
      date = date.now;
      region = region.now;
      service = codes "s3";
      signed = signed.now;
      signature = signature.now;
    }) }
{
    sent.id() == id
        && sent.date() == date
        && sent.region() == region
        && sent.service() == b"s3".as_slice()
        && sent.signed() == signed
        && same_digits(&sent.signature(), signature)
}

// Whether a query says what this signer writes for these names and with this signature.
fn says_written(
    asked: &Presigned,
    id: &[u8],
    region: &[u8],
    stamp: &Stamp,
    expires: Expires,
    signed: &[u8],
    signature: &[u8; 64],
) -> bool
    ensures { (result ≡ true) ↔ (asked.now ≡ written_by id.now region.now stamp.now expires signed.now signature.now) }
{
    asked.stamp.text() == stamp.text()
        && asked.expires == expires
        && parts_are(&asked.sent, id, stamp.date(), region, signed, signature)
}

// Whether a query is presigned, and says that.
fn is_written(
    target: &Target,
    id: &[u8],
    region: &[u8],
    stamp: &Stamp,
    expires: Expires,
    signed: &[u8],
    signature: &[u8; 64],
) -> bool
    ensures { (result ≡ true) ↔ (is_presigned target.now ≡ true)
        × (rules.presigned_at target.now ≡ Ok (written_by id.now region.now stamp.now expires signed.now signature.now)) }
{
    if !is_presigned(target) {
        return false;
    }
    match presigned_at(target) {
        Ok(asked) => says_written(&asked, id, region, stamp, expires, signed, signature),
        Err(_) => false,
    }
}

/// Whether a head says what the signer presigns who has the access key `id` with its `secret`: its target can be read,
/// and has a query with all that such a one has, for this region and this stamp, for so many seconds, with the names of
/// the head's own lines and with the signature that they give; enough is covered, and no line speaks against it.
///
/// Takes memory and time as the canonical request does, and a sort of the names.
pub fn says_presigned(
    alloc: Global,
    id: &[u8],
    secret: &[u8],
    region: &[u8],
    head: &Head,
    stamp: Stamp,
    expires: Expires,
) -> Result<bool, NoMemory>
    ensures { IfOk result (λ says. (says ≡ true)
        ↔ SaysPresigned id.now secret.now region.now head.now stamp expires) }
{
    let Ok(target) = head.decoded_target() else {
        return Ok(false);
    };
    let names = cover_of(alloc, head)?;
    let signed = names.as_slice();
    if !is_sound(head, signed) {
        return Ok(false);
    }
    let signature = unsigned_body_signature(alloc, secret, region, head, &stamp, signed)?;
    Ok(is_written(target, id, region, &stamp, expires, signed, &signature))
}

/// What says that it is presigned holds: every head that uses it is verified by each server that knows the signer, from
/// 900 seconds before the stamp to so many seconds behind it, and at any other moment it is refused as `AccessDenied`.
#[tactic(auto, using(crate::proofs::PresigningLemmas::presigned_is_verified))]
pub fn presigned_heads_are_verified()
    ensures { PresignedIsVerified }
{}

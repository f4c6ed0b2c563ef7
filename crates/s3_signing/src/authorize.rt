//! The authorization that a signer writes.

ghost use Rattle.std.specs.Prelude.{◌≡◌, ◌++◌, ◌∷◌, true, false, codes, length, IfOk, IfErr};
ghost use Rattle.std.specs.List.{flat_map};
ghost use Rattle.s3_text.specs.Digest.{is_hex_digest};
ghost use Rattle.s3_http_heads.specs.Target.{is_unreadable};
ghost use Rattle.s3_calendar.specs.Moment.{stamp_date};
ghost use Rattle.s3_signing.specs.Signature.{scope_text, signature_of};
ghost use Rattle.s3_signing.specs.Accepted.{IsVerifiedWith};
ghost use Rattle.s3_signing.specs.Authorize.{authorization_text, credential_text, signature_to_write};
ghost use Rattle.s3_signing.specs.Names.{cover_of};
ghost use Rattle.s3_signing.specs.Verdict.{sent_word, word_lines};

use crate::names::cover_of;
use crate::signature::signature_of;
use s3_authorization::{authorizations_are_spelled, signed_names_are_cut};
use s3_calendar::Stamp;
use s3_http_heads::Head;
use s3_terms::NoMemory;
use std::alloc::{AllocError, Global};

// The texts, one after the other.
fn joined(alloc: Global, texts: &[&[u8]]) -> Result<Vec<u8>, AllocError>
    ensures { IfOk result (λ text. text.items ≡ flat_map (λ t. t.now) texts.now) }
{
    texts.concat(alloc)
}

// The value with its three parts, of which the first is `id/date/region/s3/aws4_request`.
fn authorization(
    alloc: Global,
    id: &[u8],
    stamp: &Stamp,
    region: &[u8],
    signed: &[u8],
    signature: &[u8; 64],
) -> Result<Vec<u8>, AllocError>
    ensures { IfOk result (λ text. text.items
        ≡ codes "AWS4-HMAC-SHA256 Credential=" ++ credential_text id.now stamp.now region.now
        ++ codes ", SignedHeaders=" ++ signed.now ++ codes ", Signature=" ++ signature.now) }
{
    joined(
        alloc,
        &[
            b"AWS4-HMAC-SHA256 Credential=",
            id,
            b"/",
            stamp.date(),
            b"/",
            region,
            b"/s3/aws4_request, SignedHeaders=",
            signed,
            b", Signature=",
            signature,
        ],
    )
}

// The signature of a head that covers these names.
fn head_signature(
    alloc: Global,
    secret: &[u8],
    region: &[u8],
    head: &Head,
    stamp: &Stamp,
    signed: &[u8],
) -> Result<[u8; 64], NoMemory>
    requires { length (word_lines head.now) ≡ 1 }
    ensures value { IfOk result (λ digits. digits
        ≡ signature_of secret.now stamp.now region.now head.now signed.now (sent_word head.now)) }
    ensures form { IfOk result (λ digits. is_hex_digest digits ≡ true) }
{
    let word = head.first(b"x-amz-content-sha256").unwrap();
    signature_of(alloc, secret, stamp, region, head, signed, word)
}

/// The value of the Authorization header that signs a head (AWS Signature Version 4, "Add the
/// signature to the request"): for the access key `id` with its `secret`, the `region`, and the
/// `stamp` that the head's `x-amz-date` line has.
///
/// It signs every name that the head has but `authorization`, and writes one space after the scheme
/// and after each comma. Takes memory and time as the canonical request does, and a sort of the names.
///
/// A head with no other fault that carries this line is verified by every server that has the key and
/// stands in the region, while its clock is within 900 seconds of the stamp.
#[tactic(auto, unfolding(crate::specs::Authorize::authorization_text))]
pub fn sign_head(
    alloc: Global,
    id: &[u8],
    secret: &[u8],
    region: &[u8],
    head: &Head,
    stamp: Stamp,
) -> Result<Vec<u8>, NoMemory>
    requires readable { is_unreadable head.now.target ≡ false }
    requires word { length (word_lines head.now) ≡ 1 }
    ensures text { IfOk result (λ text. text.items
        ≡ authorization_text id.now secret.now region.now head.now stamp) }

    // What is signed is verified, by every server that knows the signer.
    ensures verified { IfOk result
        (λ value. IsVerifiedWith id.now secret.now region.now head.now stamp value.items) }
{
    authorizations_are_spelled();
    signed_names_are_cut();
    let signed = cover_of(alloc, head)?;
    let signature = head_signature(alloc, secret, region, head, &stamp, &signed)?;
    Ok(authorization(alloc, id, &stamp, region, &signed, &signature)?)
}

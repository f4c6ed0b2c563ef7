//! The signature of a request whose canonical text has a known hash.

ghost use Rattle.std.specs.Prelude.{◌≡◌, true, IfOk};
ghost use Rattle.hex.specs.Hex.{encode_lower};
ghost use Rattle.s3_text.specs.Digest.{is_hex_digest};
ghost use Rattle.s3_hmac.specs.Hmac.{hmac};
ghost use Rattle.s3_signing.specs.Signature.{signature_of, signing_text};

use crate::key::SigningKey;
use s3_calendar::Stamp;
use s3_canonical::request_hash;
use s3_http_heads::Head;
use s3_terms::NoMemory;
use s3_text::hex_digest;
use std::alloc::Global;

// The signature that this key gives to a canonical request with this hash, which was stamped so and
// sent to this region: 64 lower-case hexadecimal digits. The string to sign is fed part by part.
pub(crate) fn signature(key: &SigningKey, stamp: &Stamp, region: &[u8], hash: &[u8; 32]) -> [u8; 64]
    ensures value { result ≡ encode_lower (hmac key.now (signing_text stamp.now region.now hash.now)) }
    ensures form { is_hex_digest result ≡ true }
{
    let mut mac = key.begin();
    mac.update(b"AWS4-HMAC-SHA256\n");
    mac.update(stamp.text());
    mac.update(b"\n");
    mac.update(stamp.date());
    mac.update(b"/");
    mac.update(region);
    mac.update(b"/s3/aws4_request\n");
    mac.update(&hex_digest(hash));
    hex_digest(&mac.finish())
}

// The signature of a head, by the secret of its signer: these are the signed names, and this word stands for the body.
#[tactic(auto, unfolding(crate::specs::Signature::signature_of))]
pub(crate) fn signature_of(
    alloc: Global,
    secret: &[u8],
    stamp: &Stamp,
    region: &[u8],
    head: &Head,
    signed: &[u8],
    word: &[u8],
) -> Result<[u8; 64], NoMemory>
    ensures value { IfOk result (λ digits. digits
        ≡ signature_of secret.now stamp.now region.now head.now signed.now word.now) }
    ensures form { IfOk result (λ digits. is_hex_digest digits ≡ true) }
{
    let key = SigningKey::new(secret, stamp.date(), region);
    match request_hash(alloc, head, signed, word) {
        Ok(hash) => Ok(signature(&key, stamp, region, &hash)),
        Err(_) => Err(NoMemory),
    }
}

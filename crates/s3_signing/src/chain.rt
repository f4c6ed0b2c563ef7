//! The signatures of a body's chunks, each over the one before it.

ghost use Rattle.std.specs.Prelude.{◌≡◌, ◌≤◌, true, length};
ghost use Rattle.std.specs.Str.{bytes_eq};
ghost use Rattle.hex.specs.Hex.{encode_lower};
ghost use Rattle.s3_hmac.specs.Hmac.{hmac};
ghost use Rattle.s3_text.specs.Digest.{is_hex_digest};
ghost use Rattle.s3_signing.specs.Chain.{chunk_signing_text, linked, next_signature, seed_of, seed_with, trailer_signature};

use crate::compare::same_digits;
use crate::key::{SECRET_MAX, signing_key};
use crate::region::{REGION_MAX, Region};
use crate::verdict::Verified;
use s3_calendar::Stamp;
use s3_hmac::Mac;
use s3_text::hex_digest;
use sha2::{Digest, Sha256};
use std::marker::Model;

/// The chain of the signatures of a body's chunks (AWS Signature Version 4, "Transferring payload in
/// multiple chunks"): it knows the signature before, and gives the one of the next chunk.
///
/// It takes no memory.
#[derive(Drop)]
pub struct ChunkChain {
    stamp: Stamp,
    region: Region,
    key: [u8; 32],
    previous: [u8; 64],
}

impl Model for ChunkChain {
    ghost use Rattle.s3_signing.specs.Chain.{Link};

    ghost Value = { Link };

    ghost view = { λ c. record {
      stamp = c.stamp;
      region = c.region;
      key = c.key;
      previous = c.previous;
    } };
}

impl ChunkChain {
    /// The chain of a verified request's chunks, which begins at the signature of its head.
    pub fn start(verified: &Verified) -> ChunkChain
        ensures { result ≡ seed_of verified.now }
    {
        ChunkChain {
            stamp: verified.stamp(),
            region: Region::copy(verified.region()),
            key: verified.key(),
            previous: verified.seed(),
        }
    }

    /// The chain that a signer with this secret writes, behind a head with the signature `first`: for a
    /// secret of at most 128 bytes, and the name of a region of at most 64.
    pub fn from_secret(secret: &[u8], region: &[u8], stamp: Stamp, first: [u8; 64]) -> ChunkChain
        requires secret { length secret.now ≤ SECRET_MAX }
        requires region { length region.now ≤ REGION_MAX }
        ensures { result ≡ seed_with secret.now region.now stamp first }
    {
        ChunkChain {
            stamp,
            region: Region::copy(region),
            key: signing_key(secret, stamp.date(), region),
            previous: first,
        }
    }

    /// The signature of the next chunk, whose data has this SHA-256, in lower-case hexadecimal. The
    /// chain goes on from it. Takes the time of a code over some 350 bytes.
    pub fn next(&mut self, hash: [u8; 32]) -> [u8; 64]
        ensures signature { result ≡ next_signature self.old hash }
        ensures form { is_hex_digest result ≡ true }
        ensures linked { self.new ≡ linked self.old result }
    {
        let signature = signature_of(
            &self.key,
            &self.stamp,
            self.region.as_bytes(),
            &self.previous,
            &hash,
        );
        self.previous = signature;
        signature
    }

    /// Whether `sent` is the signature of the next chunk, whose data has this SHA-256. The chain goes on
    /// from the signature that it has to be. All digits are compared, so that the time does not tell
    /// where they differ; that is not proved.
    pub fn is_next(&mut self, hash: [u8; 32], sent: &[u8; 64]) -> bool
        ensures same { result ≡ bytes_eq sent.now (next_signature self.old hash) }
        ensures linked { self.new ≡ linked self.old (next_signature self.old hash) }
    {
        let expected = self.next(hash);
        same_digits(sent, &expected)
    }

    /// Whether `sent` is the signature of the trailer behind the chunks, whose lines have this SHA-256. All digits are
    /// compared, so that the time does not tell where they differ; that is not proved.
    pub fn is_trailer(&self, hash: [u8; 32], sent: &[u8; 64]) -> bool
        ensures { result ≡ bytes_eq sent.now (trailer_signature self.now hash) }
    {
        let expected = trailer_signature_of(
            &self.key,
            &self.stamp,
            self.region.as_bytes(),
            &self.previous,
            &hash,
        );
        same_digits(sent, &expected)
    }
}

// The signature that this key gives to a trailer whose lines have this hash. The string to sign is fed part by part.
fn trailer_signature_of(
    key: &[u8; 32],
    stamp: &Stamp,
    region: &[u8],
    previous: &[u8; 64],
    hash: &[u8; 32],
) -> [u8; 64]
    ensures { result ≡ trailer_signature (record {
      stamp = stamp.now;
      region = region.now;
      key = key.now;
      previous = previous.now;
    }) hash.now }
{
    let mut mac = Mac::new(key);
    mac.update(b"AWS4-HMAC-SHA256-TRAILER\n");
    mac.update(stamp.text());
    mac.update(b"\n");
    mac.update(stamp.date());
    mac.update(b"/");
    mac.update(region);
    mac.update(b"/s3/aws4_request\n");
    mac.update(previous);
    mac.update(b"\n");
    mac.update(&hex_digest(hash));
    hex_digest(&mac.finish())
}

// The signature that this key gives to a chunk whose data has this hash. The string to sign is fed part
// by part.
fn signature_of(
    key: &[u8; 32],
    stamp: &Stamp,
    region: &[u8],
    previous: &[u8; 64],
    hash: &[u8; 32],
) -> [u8; 64]
    ensures value { result ≡ next_signature (record {
      stamp = stamp.now;
      region = region.now;
      key = key.now;
      previous = previous.now;
    }) hash.now }
    ensures form { is_hex_digest result ≡ true }
{
    let mut mac = Mac::new(key);
    mac.update(b"AWS4-HMAC-SHA256-PAYLOAD\n");
    mac.update(stamp.text());
    mac.update(b"\n");
    mac.update(stamp.date());
    mac.update(b"/");
    mac.update(region);
    mac.update(b"/s3/aws4_request\n");
    mac.update(previous);
    mac.update(b"\n");
    mac.update(&hex_digest(&Sha256::digest([])));
    mac.update(b"\n");
    mac.update(&hex_digest(hash));
    hex_digest(&mac.finish())
}

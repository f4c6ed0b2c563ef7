//! The key that signs what is sent on one day to one region.

ghost use Rattle.std.specs.Prelude.{◌≡◌, [], ◌++◌, codes};
ghost use Rattle.s3_hmac.specs.Hmac.{hmac};
ghost use Rattle.s3_hmac.specs.Mac.{Runs};
ghost use Rattle.s3_signing.specs.Key.{signing_key};

use s3_hmac::{Mac, hmac, long_keys_are_hashed};
use sha2::{Digest, Sha256};
use std::marker::Model;

// The length in bytes of the blocks that SHA-256 reads.
const BLOCK_LEN: usize = 64;

/// The longest secret of an access key, in bytes.
pub(crate) const SECRET_MAX: usize = 128;

// What stands before the secret in the first key.
const PREFIX: &[u8; 4] = b"AWS4";

// The tag of the date under the secret. A key of more than a block stands for its digest, so the
// secret may have any length.
fn day_key(secret: &[u8], date: &[u8]) -> [u8; 32]
    ensures { result ≡ hmac (codes "AWS4" ++ secret.now) date.now }
{
    let length = PREFIX.len() + secret.len();
    if length > BLOCK_LEN {
        long_keys_are_hashed();
        let digest = Sha256::new_with_prefix(PREFIX)
            .chain_update(secret)
            .finalize();
        return hmac(&digest, date);
    }
    let mut key = [0; BLOCK_LEN];
    key[..PREFIX.len()].copy_from_slice(PREFIX);
    key[PREFIX.len()..length].copy_from_slice(secret);
    hmac(&key[..length], date)
}

/// The key that signs requests and chunks with this secret on this date, given as `20130524`, to this
/// region (AWS Signature Version 4, "Calculate the signature"): 32 bytes.
///
/// It hashes a fixed number of blocks, and those of a longer argument. It takes no memory.
#[tactic(auto, unfolding(crate::specs::Key::signing_key))]
pub fn signing_key(secret: &[u8], date: &[u8], region: &[u8]) -> [u8; 32]
    ensures { result ≡ signing_key secret.now date.now region.now }
{
    let day = day_key(secret, date);
    let place = hmac(&day, region);
    let service = hmac(&place, b"s3");
    hmac(&service, b"aws4_request")
}

// A signing key, with a code that was begun under it, of which a copy hashes nothing. A contract sees it as its bytes.
#[derive(Drop)]
pub(crate) struct SigningKey {
    bytes: [u8; 32],
    begun: Mac,
}

impl Model for SigningKey {
    ghost use Rattle.std.specs.Prelude.{ℕ, List, []};
    ghost use Rattle.s3_hmac.specs.Mac.{Runs};

    ghost Value = { List ℕ };

    ghost view = { λ k. k.bytes };

    ghost invariant = { λ k. Runs k.begun k.bytes [] };
}

impl SigningKey {
    // The key of a secret, a date and a region.
    pub(crate) fn new(secret: &[u8], date: &[u8], region: &[u8]) -> SigningKey
        ensures { result ≡ signing_key secret.now date.now region.now }
    {
        let bytes = signing_key(secret, date, region);
        SigningKey {
            bytes,
            begun: Mac::new(&bytes),
        }
    }

    // The same key.
    pub(crate) fn copy(&self) -> SigningKey
        ensures { result ≡ self.now }
    {
        SigningKey {
            bytes: self.bytes,
            begun: self.begun.copy(),
        }
    }

    // Its bytes.
    pub(crate) fn bytes(&self) -> [u8; 32]
        ensures { result ≡ self.now }
    {
        self.bytes
    }

    // A code under it, of no message yet.
    pub(crate) fn begin(&self) -> Mac
        ensures { Runs result self.now [] }
    {
        self.begun.copy()
    }
}

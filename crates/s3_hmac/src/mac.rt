//! A MAC over a running hash.

ghost use Rattle.std.specs.Prelude.{◌≡◌, ℕ, List, [], ◌++◌};
ghost use Rattle.s3_hmac.specs.Hmac.{LongKeysAreHashed, hmac, padded_key, xor_each};

use sha2::{Digest, Sha256};

// The length in bytes of the blocks that SHA-256 reads.
const BLOCK_LEN: usize = 64;

// The byte that RFC 2104 mixes into the key before the message.
const INNER_PAD: u8 = 0x36;

// The byte that it mixes into the key before the digest of that.
const OUTER_PAD: u8 = 0x5c;

// The key as one block: hashed first where it is longer, and followed by zeros.
#[tactic(auto, using(crate::proofs::HmacLemmas::long_keys))]
fn padded_key(key: &[u8]) -> [u8; BLOCK_LEN]
    ensures { result ≡ padded_key key.now }
{
    let mut block = [0u8; BLOCK_LEN];
    if key.len() > BLOCK_LEN {
        let digest = Sha256::digest(key);
        block[..digest.len()].copy_from_slice(&digest);
    } else {
        block[..key.len()].copy_from_slice(key);
    }
    block
}

// The block with `pad` mixed into each of its bytes.
fn xor_each(mut block: [u8; BLOCK_LEN], pad: u8) -> [u8; BLOCK_LEN]
    ensures { result ≡ xor_each block pad }
{
    'bytes: for byte in block.iter_mut() {
        *byte ^= pad;
    }
    block
}

/// HMAC-SHA-256 of a message that comes in pieces.
///
/// However the message is cut, [`Mac::finish`] answers the MAC of the whole.
#[derive(Drop)]
pub struct Mac {
    // Holds the key with the inner pad, and then the message so far.
    inner: Sha256,
    // Holds the key with the outer pad.
    outer: Sha256,
}

impl Mac {
    ghost use Rattle.s3_hmac.specs.Mac.{Runs};

    /// Begins the MAC of a message under `key`, which may have any length. This hashes two blocks,
    /// and a key of more than 64 bytes besides.
    pub fn new(key: &[u8]) -> Mac
        ensures { Runs result key.now [] }
    {
        let block = padded_key(key);
        Mac {
            inner: Sha256::new_with_prefix(xor_each(block, INNER_PAD)),
            outer: Sha256::new_with_prefix(xor_each(block, OUTER_PAD)),
        }
    }

    /// A copy, which stands where this one stands. It hashes nothing, so that who has many messages for one
    /// key keeps a MAC of which nothing was fed, and begins each of them with a copy.
    pub fn copy(&self) -> Mac
        ensures { result ≡ self.now }
    {
        Mac {
            inner: self.inner.clone().unwrap(),
            outer: self.outer.clone().unwrap(),
        }
    }

    /// Adds `data` to the end of the message, and hashes each block that it fills.
    pub fn update(&mut self, data: &[u8])
        ensures { (key m : List ℕ) → Runs self.old key m → Runs self.new key (m ++ «data».now) }
    {
        self.inner.update(data);
    }

    /// The MAC of all that was fed: 32 bytes.
    #[tactic(auto, unfolding(crate::specs::Hmac::hmac))]
    pub fn finish(self) -> [u8; 32]
        ensures { (key m : List ℕ) → Runs self key m → result ≡ hmac key m }
    {
        let digest = self.inner.finalize();
        self.outer.chain_update(digest).finalize()
    }
}

/// HMAC-SHA-256 of `message` under `key`: 32 bytes.
pub fn hmac(key: &[u8], message: &[u8]) -> [u8; 32]
    ensures { result ≡ hmac key.now message.now }
{
    let mut mac = Mac::new(key);
    mac.update(message);
    mac.finish()
}

/// A key of more than 64 bytes gives what its SHA-256 gives as a key: a law, with nothing to run.
pub fn long_keys_are_hashed()
    ensures { LongKeysAreHashed }
{}

//! Tests of `s3_hmac`: MACs that RFC 4231 publishes, and keys of a block and above.

use crate::checks::{Row, all_hold};
use s3_hmac::{Mac, hmac, long_keys_are_hashed};
use sha2::{Digest, Sha256};
use std::alloc::Global;

// The MAC of "what do ya want for nothing?" under the key "Jefe", by RFC 4231.
const QUESTION_MAC: &[u8; 64] = b"5bdcc146bf60754e6a042426089575c75a003f089d2739839dec58b964ec3843";

// Whether these hexadecimal digits write the MAC.
fn is_written(mac: [u8; 32], digits: &[u8; 64]) -> bool {
    let mut written = [0u8; 64];
    let _fits = hex::encode_to_slice(mac, &mut written);
    written == *digits
}

// A key, a message and its MAC.
struct Case(&'static [u8], &'static [u8], &'static [u8; 64]);

// The first two are test cases of RFC 4231, with SHA-256. A key of a block is used as it is, and one of
// 65 bytes is hashed: these two MACs are those of Python's `hmac`.
static CASES: [Case; 4] = [
    Case(
        &[0x0b; 20],
        b"Hi There",
        b"b0344c61d8db38535ca8afceaf0bf12b881dc200c9833da726e9376c2e32cff7",
    ),
    Case(b"Jefe", b"what do ya want for nothing?", QUESTION_MAC),
    Case(
        &[0xaa; 64],
        b"however the message is cut",
        b"d51625c32649ef6a2ce23b581c896bbb21767a3603446888578c26b6120b357a",
    ),
    Case(
        &[0xaa; 65],
        b"however the message is cut",
        b"af51c5cc0cf0b40a7a6f88807ea6713f1f0fc2f4f8a68451b2ffd9bbbc658c1a",
    ),
];

// Whether a key of 65 bytes gives what its digest gives.
fn is_hashed() -> bool {
    let digest = Sha256::digest(&[0xaa; 65]);
    hmac(&[0xaa; 65], b"message") == hmac(&digest, b"message")
}

// The MAC of the question, in three pieces.
fn in_pieces() -> [u8; 32] {
    let mut mac = Mac::new(b"Jefe");
    mac.update(b"what do ya ");
    mac.update(b"want for ");
    mac.update(b"nothing?");
    mac.finish()
}

impl Row for Case {
    fn holds(&self, _alloc: Global) -> bool {
        is_written(hmac(self.0, self.1), self.2)
    }
}

/// Whether messages have their MACs, a long key is hashed, and a message in three pieces has the MAC of the whole.
pub(crate) fn hold(alloc: Global) -> bool {
    long_keys_are_hashed();
    all_hold(alloc, &CASES) && is_hashed() && is_written(in_pieces(), QUESTION_MAC)
}

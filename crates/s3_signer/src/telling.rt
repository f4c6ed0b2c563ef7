//! How a request tells its body.

ghost use Rattle.std.specs.Prelude.{◌≡◌, ◌||◌, true, nat_lt, length};
ghost use Rattle.hex.specs.Hex.{encode_lower};
ghost use Rattle.sha2.specs.Sha256.{sha256};
ghost use Rattle.s3_text.specs.Digest.{is_hex_digest};
ghost use Rattle.s3_signer.specs.Presigned.{told_size};
ghost use Rattle.s3_signer.specs.Request.{tells_length};

use s3_text::hex_digest;
use sha2::{Digest, Sha256};

// How a request tells its body.
#[derive(Clone, Copy)]
pub(crate) struct Telling<'a> {
    // The word that stands for it.
    pub(crate) word: &'a [u8],
    // How many bytes are sent.
    pub(crate) size: usize,
    // Whether a line says so.
    pub(crate) sized: bool,
    // The further lines on it, each a name in lower case and a value.
    pub(crate) more: &'a [(&'a [u8], &'a [u8])],
}

// The SHA-256 of a body, in lower-case hexadecimal.
pub(crate) fn hash_text(body: &[u8]) -> [u8; 64]
    ensures value { result ≡ encode_lower (sha256 body.now) }
    ensures form { is_hex_digest result ≡ true }
{
    hex_digest(&Sha256::digest(body))
}

// Whether a request of this method tells the size of this body.
pub(crate) fn tells_length(method: &[u8], body: &[u8]) -> bool
    ensures { result ≡ tells_length method.now body.now }
{
    method == b"PUT".as_slice() || method == b"POST".as_slice() || !body.is_empty()
}

// The size of this body, where a request of this method tells it.
pub(crate) fn told_size(method: &[u8], body: &[u8]) -> Option<usize>
    ensures { result ≡ told_size method.now body.now }
{
    if tells_length(method, body) {
        Some(body.len())
    } else {
        None
    }
}

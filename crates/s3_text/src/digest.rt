//! A digest of 32 bytes as a text.

ghost use Rattle.std.specs.Prelude.{◌≡◌, true, Some, None, if◌then◌else◌};
ghost use Rattle.std.specs.List.{list_all};
ghost use Rattle.hex.specs.Hex.{encode_lower};
ghost use Rattle.s3_text.specs.Characters.{is_lower_hex};
ghost use Rattle.s3_text.specs.Digest.{is_hex_digest};

/// The digest in 64 lower-case hexadecimal digits.
pub fn hex_digest(digest: &[u8; 32]) -> [u8; 64]
    ensures value { result ≡ encode_lower digest.now }
    ensures form { is_hex_digest result ≡ true }
{
    let mut text = [0; 64];
    hex::encode_to_slice(digest.as_slice(), &mut text).unwrap();
    text
}

// Whether all bytes are lower-case hexadecimal digits.
fn are_lower_hex(text: &[u8]) -> bool
    ensures { result ≡ list_all is_lower_hex text.now }
{
    text.iter().all(|b| matches!(*b, b'0'..=b'9' | b'a'..=b'f'))
}

/// The text as a digest of 64 lower-case hexadecimal digits, if it is one.
pub fn read_hex_digest(text: &[u8]) -> Option<[u8; 64]>
    ensures { result ≡ (if is_hex_digest text.now then Some text.now else None) }
{
    if text.len() != 64 || !are_lower_hex(text) {
        return None;
    }
    text.try_into().ok()
}

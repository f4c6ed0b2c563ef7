ghost use Rattle.std.specs.Prelude.{◌≡◌};
ghost use Rattle.std.specs.Str.{is_utf8};
ghost use Rattle.s3_text.specs.Characters.{is_letter_or_digit};

use std::str;

/// Whether the bytes are UTF-8.
pub fn is_text(bytes: &[u8]) -> bool
    ensures { result ≡ is_utf8 bytes.now }
{
    str::from_utf8(bytes).is_ok()
}

/// A lower-case letter or a digit.
pub fn is_letter_or_digit(byte: u8) -> bool
    ensures { result ≡ is_letter_or_digit byte }
{
    byte.is_ascii_lowercase() || byte.is_ascii_digit()
}

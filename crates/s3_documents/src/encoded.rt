//! Texts that are told UriEncoded, which are written byte by byte.
ghost use Rattle.std.specs.Prelude.{◌≡◌, ◌<◌, ◌==◌, ◌||◌, true, [], ◌∷◌, ◌++◌, length, OnOk};
ghost use Rattle.std.specs.Fmt.{digit_glyph};
ghost use Rattle.s3_canonical.specs.Encoding.{encode_path, is_unreserved};
ghost use Rattle.s3_text.specs.Characters.{slash};
ghost use Rattle.s3_xml.specs.Writer.{TakesBytes};

use s3_xml::Writer;
use std::alloc::AllocError;

/// Writes a text UriEncoded, with its slashes as they are: nothing of what is written is to be escaped.
pub(crate) fn put_encoded(writer: &mut Writer, text: &[u8]) -> Result<(), AllocError>
    ensures told { OnOk result (writer.new.bytes ≡ writer.old.bytes ++ encode_path text.now) }
    ensures room { TakesBytes result writer.old.spare writer.new.spare (length (encode_path text.now)) }
{
    for b in text {
        put_byte(writer, *b)?;
    }
    Ok(())
}

// The same of a byte.
#[tactic(auto, using(crate::proofs::EncodedLemmas::kept_byte, crate::proofs::EncodedLemmas::other_byte))]
fn put_byte(writer: &mut Writer, b: u8) -> Result<(), AllocError>
    ensures told { OnOk result (writer.new.bytes ≡ writer.old.bytes ++ encode_path (b ∷ [])) }
    ensures room { TakesBytes result writer.old.spare writer.new.spare (length (encode_path (b ∷ []))) }
{
    if is_kept(b) {
        writer.text(&[b])
    } else {
        writer.text(&[b'%', digit(b / 16), digit(b % 16)])
    }
}

// Whether a byte stays as it is.
fn is_kept(b: u8) -> bool
    ensures { result ≡ (is_unreserved b || b == slash) }
{
    b.is_ascii_alphanumeric() || b == b'-' || b == b'.' || b == b'_' || b == b'~' || b == b'/'
}

// An upper-case hexadecimal digit.
fn digit(number: u8) -> u8
    requires { number < 16 }
    ensures { result ≡ digit_glyph true number }
{
    if number < 10 {
        b'0' + number
    } else {
        b'A' + (number - 10)
    }
}

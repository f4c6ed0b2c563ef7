//! The bytes of an XML text, as far as they tell its characters apart.

ghost use Rattle.std.specs.Prelude.{◌≡◌};
ghost use Rattle.std.specs.List.{list_all, list_any};
ghost use Rattle.s3_xml.specs.Characters.{is_white, is_control, is_name_start, is_name_byte, has_noncharacter, is_text};
ghost use Rattle.s3_xml_reader.specs.Characters.{begins_with_noncharacter};

/// A space, a tab, a line feed or a carriage return.
pub(crate) fn is_white(byte: u8) -> bool
    ensures { result ≡ is_white byte }
{
    matches!(byte, b' ' | b'\t' | b'\n' | b'\r')
}

/// Whether all bytes are white space.
pub(crate) fn is_all_white(bytes: &[u8]) -> bool
    ensures { result ≡ list_all is_white bytes.now }
{
    bytes.iter().all(|b| is_white(*b))
}

// A control byte that XML has no character for.
fn is_control(byte: u8) -> bool
    ensures { result ≡ is_control byte }
{
    byte < 32 && !is_white(byte)
}

/// A byte that may begin a name.
pub(crate) fn is_name_start(byte: u8) -> bool
    ensures { result ≡ is_name_start byte }
{
    byte.is_ascii_lowercase()
        || byte.is_ascii_uppercase()
        || byte == b'_'
        || byte == b':'
        || byte >= 128
}

/// A byte that may stand in a name.
pub(crate) fn is_name_byte(byte: u8) -> bool
    ensures { result ≡ is_name_byte byte }
{
    is_name_start(byte) || byte.is_ascii_digit() || byte == b'-' || byte == b'.'
}

// Whether the bytes begin with those of U+FFFE or U+FFFF.
fn begins_with_noncharacter(bytes: &[u8]) -> bool
    ensures { result ≡ begins_with_noncharacter bytes.now }
{
    match bytes {
        [a, b, c, ..] => *a == 239 && *b == 191 && (*c == 190 || *c == 191),
        _ => false,
    }
}

#[tactic(auto, using(crate::proofs::CharacterLemmas::noncharacters))]
fn has_noncharacter(bytes: &[u8]) -> bool
    ensures { result ≡ has_noncharacter bytes.now }
{
    for at in 0..bytes.len() {
        if begins_with_noncharacter(&bytes[at..]) {
            return true;
        }
    }
    false
}

// Whether a control byte stands somewhere that XML has no character for.
fn has_control(bytes: &[u8]) -> bool
    ensures { result ≡ list_any is_control bytes.now }
{
    bytes.iter().any(|b| is_control(*b))
}

/// Whether the bytes are UTF-8, of characters that XML has.
#[tactic(auto, unfolding(s3_xml::specs::Characters::is_text))]
pub(crate) fn is_text(bytes: &[u8]) -> bool
    ensures { result ≡ is_text bytes.now }
{
    if !s3_text::is_text(bytes) || has_control(bytes) {
        return false;
    }
    !has_noncharacter(bytes)
}

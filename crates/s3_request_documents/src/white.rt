//! The white space around the texts of a document.
ghost use Rattle.std.specs.Prelude.{◌≡◌, ◌≤◌, length};
ghost use Rattle.std.specs.List.{prefix_len, suffix_len};
ghost use Rattle.s3_xml.specs.Characters.{is_white};
ghost use Rattle.s3_request_documents.specs.Xml.{trimmed};

// Whether a byte is white space.
fn is_white(byte: u8) -> bool
    ensures { result ≡ is_white byte }
{
    matches!(byte, b' ' | b'\t' | b'\n' | b'\r')
}

// How many bytes of white space stand at the front.
fn white_front(text: &[u8]) -> usize
    ensures value { result ≡ prefix_len is_white text.now }
    ensures within { result ≤ length text.now }
{
    text.iter().take_while(|byte| is_white(**byte)).count()
}

// And at the end.
fn white_end(text: &[u8]) -> usize
    ensures value { result ≡ suffix_len is_white text.now }
    ensures within { result ≤ length text.now }
{
    text.iter()
        .rev()
        .take_while(|byte| is_white(**byte))
        .count()
}

/// A text without white space at its ends.
pub(crate) fn trimmed(text: &[u8]) -> &[u8]
    ensures { result.now ≡ trimmed text.now }
{
    let behind = &text[white_front(text)..];
    &behind[..behind.len() - white_end(behind)]
}

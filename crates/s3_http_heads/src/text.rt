//! Small readings of bytes: names without their case, words between commas.
ghost use Rattle.std.specs.Prelude.{◌≡◌, reverse};
ghost use Rattle.std.specs.List.{list_any};
ghost use Rattle.std.specs.Str.{bytes_eq, str_to_ascii_lowercase};
ghost use Rattle.httparse.specs.Grammar.{skip_ows, trim_ows};
ghost use Rattle.s3_http_heads.specs.Head.{words_of};

use httparse::is_space_or_tab;

/// Whether a header name that was sent is the given one, which is in lower case: the case of a header
/// name doesn't count (RFC 9110, section 5.1).
pub fn is_named(sent: &[u8], name: &[u8]) -> bool
    ensures { result ≡ bytes_eq (str_to_ascii_lowercase sent.now) name.now }
{
    if sent.len() != name.len() {
        return false;
    }
    for (index, byte) in sent.iter().enumerate() {
        if byte.to_ascii_lowercase() != name[index] {
            return false;
        }
    }
    true
}

/// Whether the word, which is given in lower case, is among those between the commas.
pub(crate) fn has_word(value: &[u8], word: &[u8]) -> bool
    ensures { result ≡ list_any (λ w. bytes_eq w word.now) (words_of value.now) }
{
    value
        .split(|byte| *byte == b',')
        .any(|part| is_named(trimmed(part), word))
}

/// The bytes without the spaces and tabs at both ends.
pub fn trimmed(bytes: &[u8]) -> &[u8]
    ensures { result.now ≡ trim_ows bytes.now }
{
    trimmed_end(trimmed_start(bytes))
}

fn trimmed_start(bytes: &[u8]) -> &[u8]
    ensures { result.now ≡ skip_ows bytes.now }
{
    let mut start = 0;
    while start < bytes.len() && is_space_or_tab(bytes[start]) {
        start += 1;
    }
    &bytes[start..]
}

fn trimmed_end(bytes: &[u8]) -> &[u8]
    ensures { result.now ≡ reverse (skip_ows (reverse bytes.now)) }
{
    let mut end = bytes.len();
    while end > 0 && is_space_or_tab(bytes[end - 1]) {
        end -= 1;
    }
    &bytes[..end]
}

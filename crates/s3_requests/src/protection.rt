//! Whether a body is protected against a change on its way.
ghost use Rattle.std.specs.Prelude.{◌≡◌};
ghost use Rattle.std.specs.Option.{option_copied};
ghost use Rattle.s3_requests.specs.Protection as rules;

use s3_http_heads::Head;

// Whether a head says what its body has to be: by Content-MD5, or by the word for the body.
pub(crate) fn is_protected(head: &Head) -> bool
    ensures { result ≡ rules.is_protected head.now }
{
    head.is_sent(b"content-md5") || word_protects(head.first(b"x-amz-content-sha256"))
}

// Whether the word for the body is sent and says something of it.
fn word_protects(word: Option<&[u8]>) -> bool
    ensures { result ≡ rules.word_protects (option_copied word.entry) }
{
    match word {
        Some(word) => word != b"UNSIGNED-PAYLOAD".as_slice(),
        None => false,
    }
}

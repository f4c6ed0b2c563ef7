//! Whether the signed names cover the headers that they have to.

ghost use Rattle.std.specs.Prelude.{◌≡◌};
ghost use Rattle.std.specs.Str.{str_to_ascii_lowercase};
ghost use Rattle.s3_signing.specs.Cover.{covers, covers_amz, covers_enough, is_amz_name, stands_in};

use s3_http_heads::{Head, is_named};
use s3_text::cut_once;

// Whether the header name stands among the signed ones, which semicolons join.
fn stands_in(signed: &[u8], sent: &[u8]) -> bool
    ensures { result ≡ stands_in signed.now (str_to_ascii_lowercase sent.now) }
{
    let mut rest = signed;
    while let Some((name, behind)) = cut_once(rest, b';') {
        if is_named(sent, name) {
            return true;
        }
        rest = behind;
    }
    is_named(sent, rest)
}

// Whether the header name is one of Amazon's, its case aside.
fn is_amz_name(sent: &[u8]) -> bool
    ensures { result ≡ is_amz_name (str_to_ascii_lowercase sent.now) }
{
    sent.len() >= 6 && is_named(&sent[..6], b"x-amz-")
}

// Whether the header name is covered, or need not be.
fn covers(signed: &[u8], sent: &[u8]) -> bool
    ensures { result ≡ covers signed.now (str_to_ascii_lowercase sent.now) }
{
    !is_amz_name(sent) || stands_in(signed, sent)
}

// Whether each of Amazon's headers that was sent is covered.
#[tactic(auto, using(crate::proofs::CoverLemmas::all_covered_more))]
fn covers_amz(head: &Head, signed: &[u8]) -> bool
    ensures { result ≡ covers_amz head.now signed.now }
{
    for index in 0..head.header_count() {
        let (sent, _) = head.header(index);
        if !covers(signed, sent) {
            return false;
        }
    }
    true
}

// Whether `host` and each of Amazon's headers that was sent is covered.
pub(crate) fn covers_enough(head: &Head, signed: &[u8]) -> bool
    ensures { result ≡ covers_enough head.now signed.now }
{
    stands_in(signed, b"host") && covers_amz(head, signed)
}

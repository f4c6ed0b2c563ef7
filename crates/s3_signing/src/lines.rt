//! The header lines that a signed request has to have: what they say, or what is wrong with them.

ghost use Rattle.std.specs.Prelude.{◌≡◌, ◌&&◌, not, codes, Ok, Err, IfOk, IfErr};
ghost use Rattle.std.specs.Option.{option_copied};
ghost use Rattle.std.specs.Str.{bytes_eq, str_to_ascii_lowercase};
ghost use Rattle.s3_http_heads.specs.Head.{only, values_of};
ghost use Rattle.s3_signing.specs.Verdict as rules;
ghost use Rattle.s3_signing.specs.Word.{unsigned_payload, word_text};

use crate::word::Word;
use s3_authorization::Authorization;
use s3_calendar::Stamp;
use s3_http_heads::{Head, is_named};
use s3_terms::{Code, Dialect};

const WORD_NAME: &[u8] = b"x-amz-content-sha256";

// The value of a header that was sent once.
fn only<'a>(head: &'a Head, name: &[u8]) -> Option<&'a [u8]>
    ensures { option_copied result ≡ only (values_of name.now head.now) }
{
    if head.count(name) != 1 {
        return None;
    }
    head.first(name)
}

// The parts of the one Authorization line.
#[tactic(auto, unfolding(crate::specs::Verdict::authorization_at))]
pub(crate) fn authorization_at(head: &Head) -> Result<Authorization<'_>, Code>
    ensures { result ≡ rules.authorization_at head.now }
{
    if !head.is_sent(b"authorization") {
        return Err(Code::AccessDenied);
    }
    match only(head, b"authorization") {
        Some(text) => Authorization::read(text),
        None => Err(Code::AuthorizationHeaderMalformed),
    }
}

// The stamp of the one x-amz-date line.
#[tactic(auto, unfolding(crate::specs::Verdict::stamp_at))]
pub(crate) fn stamp_at(head: &Head) -> Result<Stamp, Code>
    ensures { result ≡ rules.stamp_at head.now }
{
    match only(head, b"x-amz-date") {
        Some(text) => Stamp::read(text).ok_or(Code::AccessDenied),
        None => Err(Code::AccessDenied),
    }
}

// The value of the one line that says what stands for the body.
#[tactic(auto, unfolding(crate::specs::Verdict::word_line))]
fn word_line(head: &Head) -> Result<&[u8], Code>
    ensures ok { IfOk result (λ text. rules.word_line head.now ≡ Ok text.now) }
    ensures err { IfErr result (λ code. rules.word_line head.now ≡ Err code) }
{
    let text = head.first(WORD_NAME).ok_or(Code::InvalidRequest)?;
    if head.count(WORD_NAME) != 1 {
        return Err(Code::InvalidArgument);
    }
    Ok(text)
}

// The word that a text is in a dialect.
#[tactic(auto, unfolding(crate::specs::Verdict::word_of))]
fn word_of(dialect: Dialect, text: &[u8]) -> Result<Word, Code>
    ensures ok { IfOk result (λ word. rules.word_of dialect text.now ≡ Ok (word_text word)) }
    ensures err { IfErr result (λ code. rules.word_of dialect text.now ≡ Err code) }
{
    match Word::read_in(dialect, text) {
        Some(word) => Ok(word),
        None if text.starts_with(b"STREAMING-") => Err(Code::NotImplemented),
        None => Err(Code::InvalidArgument),
    }
}

// The word that stands for the body.
#[tactic(auto, unfolding(crate::specs::Verdict::word_at))]
pub(crate) fn word_at(dialect: Dialect, head: &Head) -> Result<Word, Code>
    ensures ok { IfOk result (λ word. rules.word_at dialect head.now ≡ Ok (word_text word)) }
    ensures err { IfErr result (λ code. rules.word_at dialect head.now ≡ Err code) }
{
    let text = word_line(head)?;
    word_of(dialect, text)
}

// Whether the line names another word than that of a body that is not signed.
fn is_other_word_line(sent: &[u8], value: &[u8]) -> bool
    ensures { result ≡ (bytes_eq (str_to_ascii_lowercase sent.now) (codes "x-amz-content-sha256")
        && not (bytes_eq value.now unsigned_payload)) }
{
    is_named(sent, WORD_NAME) && value != Word::Unsigned.text()
}

// Whether a line does.
pub(crate) fn names_other_word(head: &Head) -> bool
    ensures { result ≡ rules.names_other_word head.now }
{
    for index in 0..head.header_count() {
        let (sent, value) = head.header(index);
        if is_other_word_line(sent, value) {
            return true;
        }
    }
    false
}

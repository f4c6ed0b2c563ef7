//! Where the body of a message ends, and what is wrong with that.
ghost use Rattle.std.specs.Prelude.{◌≡◌, ◌≤◌, ◌==◌, ◌&&◌, not, nat_lt, Some, IfOk, List, ℕ, length, codes, option_copied};
ghost use Rattle.std.specs.List.{after_first};
ghost use Rattle.s3_text.specs.Characters.{slash};
ghost use Rattle.s3_http_heads.specs.Message.{IsMessage};
ghost use Rattle.s3_http_heads.specs.Head.{HeadParts, is_sent, only, values_of};
ghost use Rattle.s3_http_heads.specs.BodyLength as rules;
ghost use Rattle.s3_http_heads.specs.BodyLength.{announced, length_lines, names_key, needs_length};

use crate::{Head, Method, is_named};
use s3_terms::{Code, Dialect};
use s3_text::{after_first, decimal_number};

/// How the end of a body is told.
#[derive(Clone, Copy)]
pub enum BodyFraming {
    /// By its length in bytes, as it is sent.
    Sized(u64),
    /// By the chunked transfer coding (RFC 9112, 7.1): at most `limit` bytes of data are accepted in it, and the head says that
    /// the body has `decoded` bytes of data.
    Coded { limit: u64, decoded: u64 },
}

/// How the end of the body is told that follows this head, where at most `limit` bytes are accepted; a length of 0 where neither
/// Content-Length nor Transfer-Encoding was sent.
///
/// # Errors
///
/// Where Transfer-Encoding was sent: `NotImplemented` in a dialect other than S3's. There the first of these: `InvalidRequest`
/// where the head isn't one of HTTP/1.1, the coding isn't `chunked` alone, or Content-Length was sent too; `NotImplemented`
/// without `x-amz-decoded-content-length`; `InvalidRequest` where that was sent several times or is not 1 to 18 decimal
/// digits; `EntityTooLarge` where it is over the limit.
///
/// Else the first of these: `InvalidRequest` where Content-Length was sent several times or is not 1 to 18 decimal digits;
/// `MissingContentLength` for a PUT of an object's bytes that has none; `EntityTooLarge` where it is over the limit.
#[tactic(auto, unfolding(crate::specs::BodyLength::framing_of))]
pub fn framing(dialect: Dialect, head: &Head, limit: u64) -> Result<BodyFraming, Code>
    ensures { result ≡ rules.framing_of dialect head.now limit }
{
    if !head.is_sent(b"transfer-encoding") {
        return sized_framing(head, limit);
    }
    match dialect {
        Dialect::Json => Err(Code::NotImplemented),
        Dialect::S3 => coded_framing(head, limit),
    }
}

// How the end of a body is told whose length is said.
#[tactic(auto, unfolding(crate::specs::BodyLength::sized_framing))]
fn sized_framing(head: &Head, limit: u64) -> Result<BodyFraming, Code>
    ensures { result ≡ rules.sized_framing head.now limit }
{
    let length = announced_length(head).ok_or(Code::InvalidRequest)?;
    if lacks_length(head) {
        return Err(Code::MissingContentLength);
    }
    if limit < length {
        return Err(Code::EntityTooLarge);
    }
    Ok(BodyFraming::Sized(length))
}

// How the end of a body is told that is sent in a transfer coding.
#[tactic(auto, unfolding(crate::specs::BodyLength::coded_framing))]
fn coded_framing(head: &Head, limit: u64) -> Result<BodyFraming, Code>
    ensures { result ≡ rules.coded_framing head.now limit }
{
    if !may_be_coded(head) {
        return Err(Code::InvalidRequest);
    }
    if !head.is_sent(b"x-amz-decoded-content-length") {
        return Err(Code::NotImplemented);
    }
    let decoded = decoded_length(head).ok_or(Code::InvalidRequest)?;
    if limit < decoded {
        return Err(Code::EntityTooLarge);
    }
    Ok(BodyFraming::Coded { limit, decoded })
}

// Whether the chunked transfer coding tells where the body ends.
fn may_be_coded(head: &Head) -> bool
    ensures { result ≡ rules.may_be_coded head.now }
{
    head.minor() == 1 && names_chunked(head) && !head.is_sent(b"content-length")
}

// Whether the chunked coding is the only one that is named.
fn names_chunked(head: &Head) -> bool
    ensures { result ≡ rules.is_chunked (only (values_of (codes "transfer-encoding") head.now)) }
{
    match only_value(head, b"transfer-encoding") {
        Some(value) => is_named(value, b"chunked"),
        None => false,
    }
}

// The value of the header of this name, in lower case, where it was sent once.
fn only_value<'a>(head: &'a Head, name: &[u8]) -> Option<&'a [u8]>
    ensures { option_copied result ≡ only (values_of name.now head.now) }
{
    if head.count(name) > 1 {
        return None;
    }
    head.first(name)
}

/// How many bytes of data a body has as `x-amz-decoded-content-length` says it: nothing where that was not sent once, or is not
/// 1 to 18 decimal digits.
pub fn decoded_length(head: &Head) -> Option<u64>
    ensures { result ≡ rules.decoded_length head.now }
{
    decimal_number(only_value(head, b"x-amz-decoded-content-length")?, 18)
}

/// What Content-Length says: 0 where it was not sent, nothing where it is no single count of 1 to 18
/// decimal digits.
pub fn announced_length(head: &Head) -> Option<u64>
    ensures { result ≡ announced (length_lines head.now) }
{
    if head.count(b"content-length") > 1 {
        return None;
    }
    match head.first(b"content-length") {
        Some(value) => decimal_number(value, 18),
        None => Some(0),
    }
}

// Whether no length is told where one is needed.
fn lacks_length(head: &Head) -> bool
    ensures { result ≡ needs_length head.now && not (is_sent (codes "content-length") head.now) }
{
    needs_length(head) && !head.is_sent(b"content-length")
}

// Whether the head begins a put of an object's bytes, which has to say how many there are.
fn needs_length(head: &Head) -> bool
    ensures { result ≡ needs_length head.now }
{
    matches!(head.method(), Method::Put)
        && names_key(head.path())
        && !head.is_sent(b"x-amz-copy-source")
}

// Whether a byte follows the second slash of the path.
fn names_key(path: &[u8]) -> bool
    ensures { result ≡ nat_lt 0 (length (after_first (λ b. b == slash) (after_first (λ b. b == slash) path.now))) }
{
    !after_first(after_first(path, b'/'), b'/').is_empty()
}

/// A law: the bytes of a connection have at most one message at their front.
pub fn messages_are_cut_once()
    ensures head { (bytes : List ℕ) (a b : HeadParts) (body other rest more : List ℕ)
        → IsMessage bytes a body rest → IsMessage bytes b other more → a ≡ b }
    ensures body { (bytes : List ℕ) (a b : HeadParts) (body other rest more : List ℕ)
        → IsMessage bytes a body rest → IsMessage bytes b other more → body ≡ other }
    ensures rest { (bytes : List ℕ) (a b : HeadParts) (body other rest more : List ℕ)
        → IsMessage bytes a body rest → IsMessage bytes b other more → rest ≡ more }
{}

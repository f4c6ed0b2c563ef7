//! What a head says of its body.

ghost use Rattle.std.specs.Prelude.{◌≡◌, ◌≤◌, codes, option_and_then, take};
ghost use Rattle.std.specs.List.{list_any};
ghost use Rattle.s3_http_heads.specs.Head.{is_sent, only, values_of};
ghost use Rattle.s3_integrity.specs.Algorithm.{header_of, named};
ghost use Rattle.s3_signing.specs.Word.{unsigned_payload, word_text};
ghost use Rattle.s3_payloads.specs.Form as rules;

use base64::engine::general_purpose::STANDARD;
use s3_config::Config;
use s3_http_heads::{Head, Method, decoded_length};
use s3_integrity::{Checksum, ChecksumAlgorithm};
use s3_signing::Word;
use s3_terms::{Code, Dialect};

// How long the base64 of an MD5 is.
const DIGEST_TEXT_LEN: usize = 24;

// The bytes of room that the decoder asks for.
const DIGEST_ROOM: usize = 18;

// All kinds of checksums.
const ALGORITHMS: [ChecksumAlgorithm; 5] = [
    ChecksumAlgorithm::Crc32,
    ChecksumAlgorithm::Crc32c,
    ChecksumAlgorithm::Crc64Nvme,
    ChecksumAlgorithm::Sha1,
    ChecksumAlgorithm::Sha256,
];

/// What the head of a message says of the bytes of its body beside their hash, each where it says one.
#[derive(Clone, Copy, Drop)]
pub struct Digests {
    /// Their MD5, by Content-MD5 (RFC 1864).
    pub md5: Option<[u8; 16]>,
    /// Their checksum, by a header of its kind (Amazon S3 User Guide, "Checking object integrity").
    pub checksum: Option<Checksum>,
}

/// How the body of a message is sent, and what has to be found of it.
#[derive(Clone, Copy, Drop)]
pub enum Form {
    /// As it is: `hash` is its SHA-256 in hexadecimal digits, where the head says one.
    Whole {
        hash: Option<[u8; 64]>,
        digests: Digests,
    },
    /// In chunks, each with its own signature, that hold so many bytes of data together.
    Chunks {
        decoded: u64,
    },
    /// In chunks that hold so many bytes of data together, with a checksum of this kind behind them: `signed` says whether
    /// each has its own signature, and the checksum too.
    TrailedChunks {
        decoded: u64,
        algorithm: ChecksumAlgorithm,
        signed: bool,
    },
}

// The 16 bytes whose base64 the text is.

fn digest_of(text: &[u8]) -> Option<[u8; 16]>
    ensures { result ≡ rules.digest_of text.now }
{
    if text.len() != DIGEST_TEXT_LEN {
        return None;
    }
    let mut bytes = [0u8; DIGEST_ROOM];
    match STANDARD.decode_slice_unchecked(text, &mut bytes) {
        Ok(len) => as_digest(&bytes, len),
        Err(_) => None,
    }
}

// The first bytes, if they are as many as an MD5 has.
#[tactic(auto, using(crate::proofs::DigestLemmas::short_digest))]
fn as_digest(bytes: &[u8; DIGEST_ROOM], len: usize) -> Option<[u8; 16]>
    requires { len ≤ 18 }
    ensures { result ≡ rules.as_digest (take len bytes.now) }
{
    if len != 16 {
        return None;
    }
    let mut digest = [0u8; 16];
    digest.copy_from_slice(&bytes[..16]);
    Some(digest)
}

// The MD5 that Content-MD5 says, where it is sent.
#[tactic(auto, unfolding(crate::specs::Form::content_digest))]
fn content_digest(head: &Head) -> Result<Option<[u8; 16]>, Code>
    ensures { result ≡ rules.content_digest head.now }
{
    if head.count(b"content-md5") > 1 {
        return Err(Code::InvalidDigest);
    }
    match head.first(b"content-md5") {
        Some(value) => match digest_of(value) {
            Some(digest) => Ok(Some(digest)),
            None => Err(Code::InvalidDigest),
        },
        None => Ok(None),
    }
}

// What the lines of one kind of checksum say, where there is one.
fn checksum_in(head: &Head, algorithm: ChecksumAlgorithm) -> Result<Option<Checksum>, Code>
    ensures { result ≡ rules.checksum_in algorithm (values_of (header_of algorithm) head.now) }
{
    let name = algorithm.header();
    if head.count(name) > 1 {
        return Err(Code::InvalidRequest);
    }
    match head.first(name) {
        Some(value) => match Checksum::read(algorithm, value) {
            Some(sum) => Ok(Some(sum)),
            None => Err(Code::InvalidRequest),
        },
        None => Ok(None),
    }
}

// One of two checksums that may be said: both are one too many.
fn one_said(said: Option<Checksum>, other: Option<Checksum>) -> Result<Option<Checksum>, Code>
    ensures { result ≡ rules.one_said said other }
{
    match (said, other) {
        (None, other) => Ok(other),
        (Some(sum), None) => Ok(Some(sum)),
        (Some(_), Some(_)) => Err(Code::InvalidRequest),
    }
}

// The checksum that the lines of these kinds say.
fn checksum_among(head: &Head, algorithms: &[ChecksumAlgorithm]) -> Result<Option<Checksum>, Code>
    ensures { result ≡ rules.checksum_among head.now algorithms.now }
{
    match algorithms {
        [] => Ok(None),
        [algorithm, others @ ..] => {
            let said = checksum_in(head, *algorithm)?;
            let other = checksum_among(head, others)?;
            one_said(said, other)
        }
    }
}

// The checksum that is said of the body.
#[tactic(auto, unfolding(crate::specs::Form::content_checksum))]
fn content_checksum(dialect: Dialect, head: &Head) -> Result<Option<Checksum>, Code>
    ensures { result ≡ rules.content_checksum dialect head.now }
{
    match (dialect, head.method()) {
        (Dialect::S3, Method::Put) => checksum_among(head, &ALGORITHMS),
        _ => Ok(None),
    }
}

// What is said of the body's bytes beside their hash.
#[tactic(auto, unfolding(crate::specs::Form::digests_said))]
fn digests_said(dialect: Dialect, head: &Head) -> Result<Digests, Code>
    ensures { result ≡ rules.digests_said dialect head.now }
{
    let md5 = content_digest(head)?;
    let checksum = content_checksum(dialect, head)?;
    Ok(Digests { md5, checksum })
}

// Whether one of these kinds of lines is sent.
fn sends_one(head: &Head, algorithms: &[ChecksumAlgorithm]) -> bool
    ensures { result ≡ list_any (λ algorithm. is_sent (header_of algorithm) head.now) algorithms.now }
{
    match algorithms {
        [] => false,
        [algorithm, others @ ..] => { head.is_sent(algorithm.header()) || sends_one(head, others) }
    }
}

// Whether the head says a checksum by a line.
fn says_checksum(dialect: Dialect, head: &Head) -> bool
    ensures { result ≡ rules.says_checksum dialect head.now }
{
    match dialect {
        Dialect::Json => false,
        Dialect::S3 => sends_one(head, &ALGORITHMS),
    }
}

// Chunks, past what is wrong with the number of bytes that they hold together.
#[tactic(auto, unfolding(crate::specs::Form::chunks_form))]
fn chunks_form(config: &Config, head: &Head) -> Result<Form, Code>
    ensures { result ≡ rules.chunks_form config.now head.now }
{
    let decoded = decoded_length(head).ok_or(Code::InvalidRequest)?;
    if config.body_limit() < decoded {
        return Err(Code::EntityTooLarge);
    }
    if says_checksum(config.dialect(), head) {
        return Err(Code::NotImplemented);
    }
    Ok(Form::Chunks { decoded })
}

// The kind of checksum that one line names.
fn trailer_named(head: &Head) -> Option<ChecksumAlgorithm>
    ensures { result ≡ option_and_then named (only (values_of (codes "x-amz-trailer") head.now)) }
{
    if head.count(b"x-amz-trailer") != 1 {
        return None;
    }
    match head.first(b"x-amz-trailer") {
        Some(name) => ChecksumAlgorithm::named(name),
        None => None,
    }
}

// The same, past what is wrong with it.
#[tactic(auto, unfolding(crate::specs::Form::trailer_announced))]
fn trailer_announced(head: &Head) -> Result<ChecksumAlgorithm, Code>
    ensures { result ≡ rules.trailer_announced head.now }
{
    trailer_named(head).ok_or(Code::InvalidRequest)
}

// A body in chunks with a trailer, past what is wrong with what the head says of it.
#[tactic(auto, unfolding(crate::specs::Form::trailed_chunks_form))]
fn trailed_chunks_form(config: &Config, head: &Head, signed: bool) -> Result<Form, Code>
    ensures { result ≡ rules.trailed_chunks_form config.now head.now signed }
{
    let decoded = decoded_length(head).ok_or(Code::InvalidRequest)?;
    if config.body_limit() < decoded {
        return Err(Code::EntityTooLarge);
    }
    let algorithm = trailer_announced(head)?;
    if says_checksum(config.dialect(), head) {
        return Err(Code::InvalidRequest);
    }
    Ok(Form::TrailedChunks {
        decoded,
        algorithm,
        signed,
    })
}

// A body that is sent as it is, past what is wrong with its Content-MD5 and its checksum: the word is no other than that
// of an unsigned body, or a hash.
#[tactic(auto, unfolding(crate::specs::Form::whole_form))]
fn unsigned_form(config: &Config, head: &Head) -> Result<Form, Code>
    ensures { result ≡ rules.whole_form config.now head.now unsigned_payload }
{
    let digests = digests_said(config.dialect(), head)?;
    Ok(Form::Whole {
        hash: None,
        digests,
    })
}

// The same for a body whose hash the word is.
#[tactic(auto, unfolding(crate::specs::Form::form_of, crate::specs::Form::whole_form), using(crate::proofs::WordLemmas::hash_in_hash, crate::proofs::WordLemmas::no_chunks_hash, crate::proofs::WordLemmas::no_unsigned_chunks_hash, crate::proofs::WordLemmas::no_trailed_chunks_hash))]
fn hashed_form(config: &Config, head: &Head, digits: [u8; 64]) -> Result<Form, Code>
    ensures { result ≡ rules.form_of config.now head.now digits }
{
    let digests = digests_said(config.dialect(), head)?;
    Ok(Form::Whole {
        hash: Some(digits),
        digests,
    })
}

/// How the body is sent behind this head, whose payload word this is, or what is wrong with what the head
/// says of it. Takes no memory, and time by the length of the head.
///
/// # Errors
///
/// For chunks: `InvalidRequest` where `x-amz-decoded-content-length` was not sent once, or is not 1 to 18
/// decimal digits, and `EntityTooLarge` where it is over the limit of the settings; where they have a trailer,
/// then `InvalidRequest` where `x-amz-trailer` was not sent once, or names no checksum's header, or a header says
/// a checksum too. Otherwise `InvalidDigest` where Content-MD5 was sent several times, or is not the base64 of 16 bytes. In S3's dialect then,
/// of a PUT, `InvalidRequest` where headers say more than one checksum, or one that is no base64 of as many bytes as
/// its kind has; for signed chunks without a trailer `NotImplemented` where they say one.
#[tactic(auto, unfolding(crate::specs::Form::form_of))]
pub fn form_of(config: &Config, head: &Head, word: &Word) -> Result<Form, Code>
    ensures { result ≡ rules.form_of config.now head.now (word_text word.now) }
{
    match word {
        Word::Chunks => chunks_form(config, head),
        Word::UnsignedChunks => trailed_chunks_form(config, head, false),
        Word::TrailedChunks => trailed_chunks_form(config, head, true),
        Word::Unsigned => unsigned_form(config, head),
        Word::Hash(digits) => hashed_form(config, head, *digits),
    }
}

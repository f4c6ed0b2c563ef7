//! The trailer behind the chunks of a body: as its bytes come, and what it says once it is whole.

ghost use Rattle.std.specs.Prelude.{◌≡◌, ◌+◌, ◌-◌, ◌<◌, ◌≤◌, ◌^◌, ◌⊎◌, false, nat_lt, if◌then◌else◌, [], ◌∷◌, ◌++◌, length, take, min};
ghost use Rattle.std.specs.Char.{is_ascii_graphic};
ghost use Rattle.std.specs.List.{list_all};
ghost use Rattle.sha2.specs.Sha256.{sha256};
ghost use Rattle.s3_unsigned_chunks.specs.Body.{is_value};
ghost use Rattle.s3_aws_chunked.specs.Trailer as trailers;

use crate::phase::Fault;
use s3_signing::ChunkChain;
use s3_text::read_hex_digest;
use sha2::{Digest, Sha256};
use std::marker::Model;

// The most bytes that a trailer has: the longest name has 24, and its value 64.
const TRAILER_MAX: usize = 192;

// The bytes of the line of a signature, and of the end of a line behind it.
const TRAILER_END: usize = 92;

// How long the line of a signature is.
const SIGNATURE_LINE: usize = 90;

// What ends a name, and a line.
const COLON: &[u8] = b":";

const LINE_END: &[u8] = b"\r\n";

// What may stand behind a value.
const LINE_FEED: &[u8] = b"\n";

// The name of that line.
const SIGNATURE_NAME: &[u8] = b"x-amz-trailer-signature";

/// The bytes of a trailer so far, of so many, behind so many bytes of the body.
#[derive(Drop)]
pub(crate) struct Trailer {
    bytes: [u8; 192],
    count: u8,
    size: u8,
    front: u64,
}

impl Model for Trailer {
    ghost use Rattle.std.specs.Prelude.{ℕ, ◌+◌, ◌≤◌, ◌<◌, ◌^◌, List, take};
    ghost use Rattle.s3_aws_chunked.specs.Trailer.{TrailerState};

    ghost Value = { TrailerState };

    ghost view = { λ t. record { bytes = take t.count t.bytes; size = t.size; front = t.front } };

    ghost invariant = { λ t. (t.count ≤ t.size) × (t.size ≤ 192) × (t.front + t.size < 2 ^ 64) };
}

impl Trailer {
    // No byte yet, of so many, behind so many of the body.
    pub(crate) fn new(size: u8, front: u64) -> Trailer
        requires most { size ≤ 192 }
        requires room { front + size < 2 ^ 64 }
        ensures { result ≡ record { bytes = []; size = size; front = front } }
    {
        Trailer {
            bytes: [0; TRAILER_MAX],
            count: 0,
            size,
            front,
        }
    }

    // How many bytes of a body were taken, of which so many stand before the trailer where it has not begun.
    pub(crate) fn taken(&self, before: u64) -> u64
        ensures { result ≡ trailers.taken_with self.now.size (if nat_lt 0 self.now.size then self.now.front else before) self.now.bytes }
    {
        if self.size > 0 {
            self.front + u64::from(self.count)
        } else {
            before
        }
    }

    // Whether some are to come at all.
    pub(crate) fn has_begun(&self) -> bool
        ensures { result ≡ nat_lt 0 self.now.size }
    {
        self.size > 0
    }

    // Whether some are still to come.
    pub(crate) fn is_open(&self) -> bool
        ensures { result ≡ nat_lt (length self.now.bytes) self.now.size }
    {
        self.count < self.size
    }

    // Those that have come.
    pub(crate) fn bytes(&self) -> &[u8]
        ensures { «result».now ≡ self.now.bytes }
    {
        &self.bytes[..self.count as usize]
    }

    // Takes one more byte.
    fn push(&mut self, byte: u8)
        requires { length self.old.bytes < self.old.size }
        ensures { self.new ≡ record self.old { bytes = self.old.bytes ++ byte ∷ [] } }
    {
        self.bytes[self.count as usize] = byte;
        self.count += 1;
    }

    // Takes the front of a piece, as much as is to come, and says how much that is.
    pub(crate) fn take(&mut self, piece: &[u8]) -> usize
        ensures count { result ≡ min (self.old.size - length self.old.bytes) (length piece.now) }
        ensures within { result ≤ length piece.now }
        ensures all { (result ≡ length piece.now) ⊎ (nat_lt (length self.new.bytes) self.new.size ≡ false) }
        ensures value { self.new ≡ record self.old { bytes = self.old.bytes ++ take result piece.now } }
    {
        let mut taken = 0;
        while taken < piece.len() && self.is_open() {
            self.push(piece[taken]);
            taken += 1;
        }
        taken
    }
}

// Whether a text has the form of a line of this name.
fn is_line(name: &[u8], line: &[u8]) -> bool
    requires { length name.now + 3 ≤ length line.now }
    ensures { result ≡ trailers.is_line name.now line.now }
{
    let (spelled, behind) = line.split_at(name.len());
    let (first, rest) = behind.split_at(1);
    let (_, end) = rest.split_at(rest.len() - 2);
    spelled.eq_ignore_ascii_case(name) && first == COLON && end == LINE_END
}

// The value in a line of this name.
fn value_in<'a>(name: &[u8], line: &'a [u8]) -> &'a [u8]
    requires { length name.now + 3 ≤ length line.now }
    ensures { result.now ≡ trailers.value_in name.now line.now }
{
    &line[name.len() + 1..line.len() - 2]
}

// A text without one line feed at its end.
#[tactic(auto, unfolding(crate::specs::Trailer::without_gap))]
fn without_gap(text: &[u8]) -> &[u8]
    ensures { result.now ≡ trailers.without_gap text.now }
{
    let (front, last) = text.split_at(text.len().saturating_sub(1));
    if last == LINE_FEED { front } else { text }
}

// The value that the line of a checksum of this name tells.
fn told_in<'a>(name: &[u8], line: &'a [u8]) -> &'a [u8]
    requires { length name.now + 3 ≤ length line.now }
    ensures { result.now ≡ trailers.told_in name.now line.now }
{
    without_gap(value_in(name, line))
}

// Whether all bytes are visible.
fn are_visible(text: &[u8]) -> bool
    ensures { result ≡ list_all is_ascii_graphic text.now }
{
    text.iter().all(|byte| byte.is_ascii_graphic())
}

// Whether a text may be the value of a checksum.
fn is_value(text: &[u8]) -> bool
    ensures { result ≡ is_value text.now }
{
    1 <= text.len() && text.len() <= 64 && are_visible(text)
}

// The line of the checksum.
fn checksum_line(text: &[u8]) -> &[u8]
    requires { 92 ≤ length text.now }
    ensures { result.now ≡ trailers.checksum_line text.now }
{
    &text[..text.len() - TRAILER_END]
}

// The signature, where the line of one and the end of a line stand at the end of a trailer.
fn signature(text: &[u8]) -> Option<[u8; 64]>
    requires { 92 ≤ length text.now }
    ensures { result ≡ trailers.signature_at text.now }
{
    let (_, behind) = text.split_at(text.len() - TRAILER_END);
    let (line, end) = behind.split_at(SIGNATURE_LINE);
    if !is_line(SIGNATURE_NAME, line) || end != LINE_END {
        return None;
    }
    read_hex_digest(value_in(SIGNATURE_NAME, line))
}

// The SHA-256 of what is signed of a trailer: its line, as it is spelled for that.
fn line_hash(name: &[u8], value: &[u8]) -> [u8; 32]
    ensures { result ≡ sha256 (trailers.signed_line name.now value.now) }
{
    let mut hash = Sha256::new();
    hash.update(name);
    hash.update(b":");
    hash.update(value);
    hash.update(b"\n");
    hash.finalize()
}

/// What is wrong with a whole trailer behind chunks with this chain: its form, or its signature.
#[tactic(auto, unfolding(crate::specs::Trailer::trailer_fault))]
pub(crate) fn trailer_fault(chain: &ChunkChain, name: &[u8], text: &[u8]) -> Option<Fault>
    requires { length name.now ≤ 32 }
    ensures { result ≡ trailers.trailer_fault chain.now name.now text.now }
{
    if text.len() < name.len() + 96 {
        return Some(Fault::Invalid);
    }
    let line = checksum_line(text);
    if !is_line(name, line) {
        return Some(Fault::Invalid);
    }
    let value = told_in(name, line);
    if !is_value(value) {
        return Some(Fault::Invalid);
    }
    let Some(signature) = signature(text) else {
        return Some(Fault::Invalid);
    };
    if chain.is_trailer(line_hash(name, value), &signature) {
        None
    } else {
        Some(Fault::Forged)
    }
}

/// The value of a trailer, where it has come.
pub(crate) fn value_of_trailer<'a>(name: &[u8], text: &'a [u8]) -> &'a [u8]
    requires { length name.now ≤ 32 }
    ensures { result.now ≡ trailers.value_of_trailer name.now text.now }
{
    if text.len() < name.len() + 96 {
        return &[];
    }
    told_in(name, checksum_line(text))
}

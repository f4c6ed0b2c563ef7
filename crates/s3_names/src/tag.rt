//! The entity tag of an object.
ghost use Rattle.std.specs.Prelude.{◌≡◌, ◌≤◌, ℕ, true, length};
ghost use Rattle.std.specs.List.{list_all};
ghost use Rattle.hex.specs.Hex.{encode_lower};
ghost use Rattle.s3_names.specs.Tags.{joined_text, is_tag_character};

use itoa::Buffer;
use std::marker::Model;

/// The digits of a digest.
const DIGITS: usize = 32;

/// The digits of a digest, a hyphen and the five digits of the greatest count.
const TEXT_MAX: usize = 38;

/// The entity tag of an object (Amazon S3 API Reference, "Common response headers", ETag). Contracts see it as the tag's
/// text, without the double quotes that a header puts round it: the MD5 of an object that was put whole in 32
/// lower-case hexadecimal digits; of one that was joined of parts an MD5 of theirs, a hyphen and how many there were.
#[derive(Drop)]
pub struct Tag {
    md5: [u8; 16],
    /// How many parts were joined, if the object was joined of parts.
    parts: Option<u16>,
}

impl Model for Tag {
    ghost use Rattle.std.specs.Prelude.{ℕ, List};
    ghost use Rattle.s3_names.specs.Tags.{tag_text};

    ghost Value = { List ℕ };

    ghost view = { λ tag. tag_text tag.md5 tag.parts };
}

impl Tag {
    /// The tag of bytes with this MD5, which were put whole.
    pub fn of_digest(md5: [u8; 16]) -> Tag
        ensures { result ≡ encode_lower md5 }
    {
        Tag { md5, parts: None }
    }

    /// The tag of bytes that were joined of so many parts, whose digests have this MD5 together.
    pub fn joined(md5: [u8; 16], parts: u16) -> Tag
        ensures { result ≡ joined_text md5 parts }
    {
        Tag {
            md5,
            parts: Some(parts),
        }
    }

    /// The tag's text.
    pub fn text(&self) -> TagText
        ensures value { result ≡ self.now }
        ensures characters { list_all is_tag_character self.now ≡ true }
    {
        match self.parts {
            None => TagText::whole(&self.md5),
            Some(parts) => TagText::joined(&self.md5, parts),
        }
    }

    /// A law of the tag: its text has at most 38 bytes, each a digit or a hyphen. It takes no time.
    pub fn check(&self)
        ensures bound { length self.now ≤ 38 }
        ensures characters { list_all is_tag_character self.now ≡ true }
    {
        match self.parts {
            None => check_whole(&self.md5),
            Some(parts) => check_joined(&self.md5, parts),
        }
    }

    /// A tag with the same text.
    pub fn copy(&self) -> Tag
        ensures { result ≡ self.now }
    {
        Tag {
            md5: self.md5,
            parts: self.parts,
        }
    }
}

/// The text of a tag, at most 38 bytes, kept in place.
#[derive(Drop)]
pub struct TagText {
    bytes: [u8; TEXT_MAX],
    len: usize,
}

impl Model for TagText {
    ghost use Rattle.std.specs.Prelude.{ℕ, ◌≤◌, List, take};

    ghost Value = { List ℕ };

    ghost view = { λ text. take text.len text.bytes };

    ghost invariant = { λ text. text.len ≤ 38 };
}

impl TagText {
    // The text of a digest.
    #[tactic(auto, using(crate::proofs::TagLemmas::digest_placed))]
    fn whole(md5: &[u8; 16]) -> TagText
        ensures value { result ≡ encode_lower md5.now }
        ensures characters { list_all is_tag_character (encode_lower md5.now) ≡ true }
    {
        let mut bytes = [b'-'; TEXT_MAX];
        bytes[..DIGITS].copy_from_slice(&hex_text(md5));
        TagText { bytes, len: DIGITS }
    }

    // The text of a digest and a count.
    #[tactic(auto, using(crate::proofs::TagLemmas::count_placed, crate::proofs::TagLemmas::joined_characters), unfolding(crate::specs::Tags::joined_text))]
    fn joined(md5: &[u8; 16], parts: u16) -> TagText
        ensures value { result ≡ joined_text md5.now parts }
        ensures characters { list_all is_tag_character (joined_text md5.now parts) ≡ true }
    {
        let mut bytes = [b'-'; TEXT_MAX];
        let mut buffer = Buffer::new();
        let count = buffer.format(parts).as_bytes();
        let len = DIGITS + 1 + count.len();
        bytes[..DIGITS].copy_from_slice(&hex_text(md5));
        bytes[DIGITS + 1..len].copy_from_slice(count);
        TagText { bytes, len }
    }

    /// The bytes of the tag.
    pub fn as_bytes(&self) -> &[u8]
        ensures value { result.now ≡ self.now }
        ensures bound { length self.now ≤ 38 }
    {
        &self.bytes[..self.len]
    }
}

// The law of a digest.
fn check_whole(md5: &[u8])
    requires { length md5.now ≡ 16 }
    ensures bound { length (encode_lower md5.now) ≤ 38 }
    ensures characters { list_all is_tag_character (encode_lower md5.now) ≡ true }
{
    let _ = md5.first();
}

// The law of a digest with a count.
#[tactic(auto, using(crate::proofs::TagLemmas::joined_characters, crate::proofs::TagLemmas::joined_length))]
fn check_joined(md5: &[u8; 16], parts: u16)
    ensures bound { length (joined_text md5.now parts) ≤ 38 }
    ensures characters { list_all is_tag_character (joined_text md5.now parts) ≡ true }
{
    check_whole(md5);
}

// The digits of an MD5.
fn hex_text(md5: &[u8]) -> [u8; DIGITS]
    requires { length md5.now ≡ 16 }
    ensures value { result ≡ encode_lower md5.now }
    ensures characters { list_all is_tag_character (encode_lower md5.now) ≡ true }
{
    let mut text = [0u8; DIGITS];
    let _fits = hex::encode_to_slice(md5, &mut text);
    text
}

//! The ids of versions and uploads, and the numbers of parts.
ghost use Rattle.std.specs.Prelude.{◌≡◌, ℕ, ◌<◌, ◌≤◌, ◌^◌, ◌∷◌, Some, IfSome, IsTrue, drop, length, codes};
ghost use Rattle.std.specs.List.{list_all};
ghost use Rattle.s3_names.specs.Ids.{numbered_id, is_numbered_id, number_of_id, upload_id_text, upload_id, version_id_text, version_id, HasSmallNumber, as_part_number, part_number};
ghost use Rattle.s3_text.specs.Characters.{is_lower_hex};

use s3_text::{decimal_number, number_digits, number_from};
use std::marker::Model;

/// The greatest number of a part.
const PART_MAX: u64 = 10_000;

/// The most decimal digits that spell a part's number.
const PART_DIGITS: usize = 5;

/// The letter and the sixteen digits of an id with a number.
const ID_LEN: usize = 17;

/// The number of an upload's part, from 1 to 10,000.
#[derive(Clone, Copy, PartialEq, Eq, PartialOrd, Ord)]
pub struct PartNumber(u16);

impl Model for PartNumber {
    ghost use Rattle.std.specs.Prelude.{ℕ, ◌≤◌};

    ghost Value = { ℕ };

    ghost view = { λ part. part.0 };

    ghost invariant = { λ part. (1 ≤ part.0) × (part.0 ≤ 10_000) };

    ghost inverse = { λ n. record { 0 = n } };
}

impl PartNumber {
    /// Reads one to five decimal digits, leading zeros among them; `None` where the text is anything
    /// else, or the number out of range.
    #[tactic(auto, unfolding(crate::specs::Ids::part_number))]
    pub fn read(text: &[u8]) -> Option<PartNumber>
        ensures { result ≡ part_number text.now }
    {
        let number = decimal_number(text, PART_DIGITS)?;
        PartNumber::of(number)
    }

    /// The part's number that this number is; `None` where it is out of range.
    pub fn of(number: u64) -> Option<PartNumber>
        ensures { result ≡ as_part_number number }
    {
        if number < 1 || number > PART_MAX {
            return None;
        }
        Some(PartNumber(number as u16))
    }

    /// The number.
    pub fn get(self) -> u16
        ensures value { result ≡ self }
        ensures lower_bound { 1 ≤ result }
        ensures upper_bound { result ≤ 10_000 }
    {
        self.0
    }
}

/// The id of an object's version.
#[derive(Clone, Copy, PartialEq, Eq, PartialOrd, Ord)]
pub enum VersionId {
    /// `null`: the version that was made while its bucket was unversioned or suspended.
    Null,
    /// `v` and the number of the entry that made the version.
    Numbered(u64),
}

impl VersionId {
    /// The id of the version that the entry of this number makes.
    pub fn of(number: u64) -> VersionId
        ensures { result ≡ VersionId.Numbered number }
    {
        Self::Numbered(number)
    }

    /// Reads `null`, or `v` and sixteen lower-case hexadecimal digits; `None` for any other text.
    pub fn read(text: &[u8]) -> Option<VersionId>
        ensures value { result ≡ version_id text.now }
        ensures spelled { IfSome result (λ id. text.now ≡ version_id_text id) }
        ensures found { (id : VersionId) → HasSmallNumber id → text.now ≡ version_id_text id → result ≡ Some id }
    {
        read_version(text)
    }

    /// The id as a request and a reply write it.
    pub fn text(self) -> IdText
        ensures value { result ≡ version_id_text self }
        ensures bound { HasSmallNumber self }
    {
        match self {
            VersionId::Null => IdText::null(),
            VersionId::Numbered(number) => IdText::numbered(b'v', number),
        }
    }
}

/// The id of a multipart upload: the number of the entry that made it.
#[derive(Clone, Copy, PartialEq, Eq, PartialOrd, Ord)]
pub struct UploadId {
    number: u64,
}

impl Model for UploadId {
    ghost use Rattle.std.specs.Prelude.{ℕ};

    ghost Value = { ℕ };

    ghost view = { λ id. id.number };

    ghost inverse = { λ n. record { number = n } };
}

impl UploadId {
    /// The id of the upload that the entry of this number makes.
    pub fn of(number: u64) -> UploadId
        ensures { result ≡ number }
    {
        Self { number }
    }

    /// Reads `u` and sixteen lower-case hexadecimal digits; `None` for any other text.
    #[tactic(auto, using(crate::proofs::IdLemmas::number_back))]
    pub fn read(text: &[u8]) -> Option<UploadId>
        ensures value { result ≡ upload_id text.now }
        ensures spelled { IfSome result (λ id. text.now ≡ upload_id_text id) }
        ensures found { (number : ℕ) → number < 2 ^ 64 → text.now ≡ upload_id_text number → result ≡ Some number }
    {
        let number = read_number(b'u', text)?;
        Some(UploadId { number })
    }

    /// The number of the entry that made the upload.
    pub fn number(self) -> u64
        ensures value { result ≡ self }
        ensures bound { self < 2 ^ 64 }
    {
        self.number
    }

    /// The id as a request and a reply write it.
    pub fn text(self) -> IdText
        ensures value { result ≡ upload_id_text self }
        ensures bound { self < 2 ^ 64 }
    {
        let UploadId { number } = self;
        IdText::numbered(b'u', number)
    }
}

/// The text of an id, at most 17 bytes, kept in place.
#[derive(Drop)]
pub struct IdText {
    bytes: [u8; ID_LEN],
    len: usize,
}

impl Model for IdText {
    ghost use Rattle.std.specs.Prelude.{ℕ, ◌≤◌, List, take};

    ghost Value = { List ℕ };

    ghost view = { λ text. take text.len text.bytes };

    ghost invariant = { λ text. text.len ≤ 17 };
}

impl IdText {
    // The text of the id of a version without a number.
    fn null() -> IdText
        ensures { result ≡ codes "null" }
    {
        let mut bytes = [0; ID_LEN];
        bytes[..4].copy_from_slice(b"null");
        IdText { bytes, len: 4 }
    }

    // The text of the id that this letter and this number make.
    #[tactic(auto, unfolding(crate::specs::Ids::numbered_id))]
    fn numbered(letter: u8, number: u64) -> IdText
        ensures { result ≡ numbered_id letter number }
    {
        let mut bytes = [letter; ID_LEN];
        bytes[1..].copy_from_slice(&number_digits(number));
        IdText { bytes, len: ID_LEN }
    }

    /// The bytes of the id.
    pub fn as_bytes(&self) -> &[u8]
        ensures value { result.now ≡ self.now }
        ensures bound { length self.now ≤ 17 }
    {
        &self.bytes[..self.len]
    }
}

// The version whose id a text is.
#[tactic(auto, unfolding(crate::specs::Ids::version_id))]
fn read_version(text: &[u8]) -> Option<VersionId>
    ensures value { result ≡ version_id text.now }
    ensures spelled { IfSome result (λ id. text.now ≡ version_id_text id) }
{
    if text == b"null".as_slice() {
        return Some(VersionId::Null);
    }
    read_number(b'v', text).map(VersionId::Numbered)
}

// The number that the id with this letter was made of.
#[tactic(auto, using(s3_text::proofs::DigitLemmas::hex_all_digits, s3_text::proofs::DigitLemmas::hex_room, crate::proofs::IdLemmas::id_spelled), unfolding(crate::specs::Ids::number_of_id))]
fn read_number(letter: u8, text: &[u8]) -> Option<u64>
    ensures value { result ≡ number_of_id letter text.now }
    ensures spelled { IfSome result (λ number. text.now ≡ numbered_id letter number) }
{
    if !has_id_form(letter, text) {
        return None;
    }
    let (_, digits) = text.split_at(1);
    Some(number_from(16, digits))
}

// Whether the text is this letter and sixteen digits.
#[tactic(auto, unfolding(crate::specs::Ids::is_numbered_id))]
fn has_id_form(letter: u8, text: &[u8]) -> bool
    ensures value { result ≡ is_numbered_id letter text.now }
    ensures len { IsTrue result → length (drop 1 text.now) ≡ 16 }
    ensures digits { IsTrue result → IsTrue (list_all is_lower_hex (drop 1 text.now)) }
{
    if text.len() != ID_LEN {
        return false;
    }
    let (_, digits) = text.split_at(1);
    text[0] == letter && has_lower_hex_alone(digits)
}

// Whether the text has lower-case hexadecimal digits and nothing else.
fn has_lower_hex_alone(digits: &[u8]) -> bool
    ensures { result ≡ list_all is_lower_hex digits.now }
{
    digits.iter().all(|byte| has_lower_hex(*byte))
}

// Whether the byte is such a digit.
fn has_lower_hex(byte: u8) -> bool
    ensures { result ≡ is_lower_hex byte }
{
    matches!(byte, b'0'..=b'9' | b'a'..=b'f')
}

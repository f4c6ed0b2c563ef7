//! The text of an entity tag.
ghost use Rattle.std.specs.Prelude.{◌≡◌, ◌<◌, ◌↔◌, ℕ, ◌^◌, ◌++◌, List, Option, IfSome, IsSome, IsTrue};
ghost use Rattle.std.specs.Fmt.{decimal};
ghost use Rattle.hex.specs.Hex.{encode_lower};
ghost use Rattle.s3_names.specs.Tags.{tag_text};
ghost use Rattle.s3_columns.specs.Tags.{IsDigest, AreParts, tail_text};

use itoa::Buffer;
use s3_names::Tag;
use s3_text::decimal_number;

/// The digits of an MD5.
const DIGITS: usize = 32;

/// The greatest count, and its digits.
const COUNT_MAX: u64 = 65_535;

const COUNT_DIGITS: usize = 5;

/// The entity tag with this text: 32 lower-case hexadecimal digits, or these, a hyphen and a decimal number below 65,536 without
/// leading zeros. `None` where the text is anything else. It takes no memory.
pub fn read_tag(text: &[u8]) -> Option<Tag>
    // What is read has this text.
    ensures spelled { IfSome result (λ tag. text.now ≡ tag) }
    // The text of a tag is read.
    ensures found { (md5 : List ℕ) (parts : Option ℕ) → IsDigest md5 → AreParts parts → text.now ≡ tag_text md5 parts
        → result ≡ Some text.now }
{
    let (digits, tail) = text.split_first_chunk::<DIGITS>()?;
    tag_with(read_digest(digits)?, tail)
}

// The tag of this MD5, whose text goes on so behind its digits.
#[tactic(auto, unfolding(s3_names::specs::Tags::joined_text))]
fn tag_with(md5: [u8; 16], tail: &[u8]) -> Option<Tag>
    ensures spelled { IfSome result (λ tag. tag ≡ encode_lower md5 ++ tail.now) }
    ensures found { (parts : Option ℕ) → AreParts parts → tail.now ≡ tail_text parts → IsSome result }
{
    match tail {
        [] => Some(Tag::of_digest(md5)),
        [b'-', count @ ..] => {
            let parts = read_count(count)?;
            Some(Tag::joined(md5, parts))
        }
        _ => None,
    }
}

// The MD5 whose lower-case hexadecimal digits these are; `None` where other characters are among them. What can't be decoded
// leaves an MD5 with other digits.
fn read_digest(digits: &[u8; DIGITS]) -> Option<[u8; 16]>
    ensures spelled { IfSome result (λ md5. digits.now ≡ encode_lower md5) }
    ensures found { (md5 : List ℕ) → IsDigest md5 → digits.now ≡ encode_lower md5 → result ≡ Some md5 }
{
    let mut md5 = [0u8; 16];
    let _decoded = hex::decode_to_slice(digits.as_slice(), &mut md5);
    if !is_digest_in(&md5, digits) {
        return None;
    }
    Some(md5)
}

// Whether these are the digits of the MD5.
fn is_digest_in(md5: &[u8; 16], digits: &[u8; DIGITS]) -> bool
    ensures { IsTrue result ↔ (digits.now ≡ encode_lower md5.now) }
{
    let mut text = [0u8; DIGITS];
    let _encoded = hex::encode_to_slice(md5.as_slice(), &mut text);
    text.as_slice() == digits.as_slice()
}

// The count that this text is in decimal, without leading zeros; `None` for any other text.
fn read_count(text: &[u8]) -> Option<u16>
    ensures spelled { IfSome result (λ count. text.now ≡ decimal count) }
    ensures found { (count : ℕ) → count < 2 ^ 16 → text.now ≡ decimal count → result ≡ Some count }
{
    let number = decimal_number(text, COUNT_DIGITS)?;
    if number > COUNT_MAX {
        return None;
    }
    let count = number as u16;
    if !is_count_in(count, text) {
        return None;
    }
    Some(count)
}

// Whether the text is this count in decimal.
fn is_count_in(count: u16, text: &[u8]) -> bool
    ensures { IsTrue result ↔ (text.now ≡ decimal count) }
{
    let mut buffer = Buffer::new();
    buffer.format(count).as_bytes() == text
}

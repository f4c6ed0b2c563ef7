//! The values of header lines that are made of parts or may be absent: the id of a
//! version, a date, a part, and the place of a bucket.

ghost use Rattle.std.specs.Prelude.{◌≡◌, ◌+◌, ◌≤◌, ◌++◌, length, codes, decimal};
ghost use Rattle.arrayvec.specs.ArrayVec.{array_vec_len};
ghost use Rattle.s3_replies.specs.Lines.{value_of, value_length};
ghost use Rattle.s3_replies.specs.Replies.{content_range, range_told, shown_text};

use crate::date::DateText;
use crate::room::Room;
use arrayvec::ArrayVec;
use itoa::Buffer;
use s3_names::{BucketName, IdText, VersionId};
use s3_terms::Dialect;
use std::marker::Model;

/// A slash and the longest name of a bucket.
const LOCATION_MAX: usize = 64;

/// The text of a version's id, where one is shown.
pub(crate) fn id_text(shown: Option<VersionId>) -> Option<IdText>
    ensures { result ≡ shown_text shown }
{
    match shown {
        Some(id) => Some(id.text()),
        None => None,
    }
}

/// The bytes of that text.
pub(crate) fn id_bytes(text: &Option<IdText>) -> Option<&[u8]>
    ensures value { value_of result ≡ text.now }
    ensures bound { value_length (value_of result) ≤ 17 }
{
    match text {
        Some(text) => Some(text.as_bytes()),
        None => None,
    }
}

/// The bytes of a date, where one is shown.
pub(crate) fn date_bytes(date: &Option<DateText>) -> Option<&[u8]>
    ensures value { value_of result ≡ date.now }
    ensures bound { value_length (value_of result) ≤ 29 }
{
    match date {
        Some(date) => Some(date.as_bytes()),
        None => None,
    }
}

/// The longest text: `bytes `, three numbers of 64 bits, and what stands between them.
const RANGE_MAX: usize = 68;

/// The text that says which part of an object is sent, or how many bytes it has. Contracts see its bytes.
#[derive(Drop)]
pub(crate) struct RangeText {
    text: ArrayVec<u8, RANGE_MAX>,
}

impl Model for RangeText {
    ghost use Rattle.std.specs.Prelude.{ℕ, List};

    ghost Value = { List ℕ };

    ghost view = { λ range. range.text.items };
}

impl RangeText {
    /// Which bytes of so many these are.
    pub(crate) fn of(first: u64, last: u64, size: u64) -> RangeText
        ensures { result ≡ content_range first last size }
    {
        let mut text: ArrayVec<u8, RANGE_MAX> = ArrayVec::new();
        text.write(b"bytes ");
        write_decimal(&mut text, first);
        text.write(b"-");
        write_decimal(&mut text, last);
        text.write(b"/");
        write_decimal(&mut text, size);
        RangeText { text }
    }

    /// None of so many bytes.
    fn none_of(size: u64) -> RangeText
        ensures { result ≡ codes "bytes */" ++ decimal size }
    {
        let mut text: ArrayVec<u8, RANGE_MAX> = ArrayVec::new();
        text.write(b"bytes */");
        write_decimal(&mut text, size);
        RangeText { text }
    }

    /// Its bytes.
    pub(crate) fn as_bytes(&self) -> &[u8]
        ensures value { result.now ≡ self.now }
        ensures bound { length self.now ≤ 68 }
    {
        self.text.as_slice()
    }
}

/// Appends the number in decimal digits, of which there are 20 at most.
fn write_decimal(text: &mut ArrayVec<u8, RANGE_MAX>, number: u64)
    requires { array_vec_len text.old + 20 ≤ RANGE_MAX }
    ensures items { text.new.items ≡ text.old.items ++ decimal number }
    ensures bound { array_vec_len text.new ≤ array_vec_len text.old + 20 }
{
    let mut digits = Buffer::new();
    text.write(digits.format(number).as_bytes());
}

/// What is told of a range that has no byte of an object of this size.
pub(crate) fn range_told(dialect: Dialect, size: u64) -> Option<RangeText>
    ensures { result ≡ range_told dialect size }
{
    match dialect {
        Dialect::Json => None,
        Dialect::S3 => Some(RangeText::none_of(size)),
    }
}

/// The bytes of that text, if there is one.
pub(crate) fn range_bytes(range: &Option<RangeText>) -> Option<&[u8]>
    ensures value { value_of result ≡ range.now }
    ensures bound { value_length (value_of result) ≤ 68 }
{
    match range {
        Some(range) => Some(range.as_bytes()),
        None => None,
    }
}

/// Where a bucket is: behind a slash, its name.
pub(crate) fn location_of(name: &BucketName) -> ArrayVec<u8, LOCATION_MAX>
    ensures { result.items ≡ codes "/" ++ name.now }
{
    let mut location: ArrayVec<u8, LOCATION_MAX> = ArrayVec::new();
    location.write(b"/");
    location.write(name.as_bytes());
    location
}

//! Tests of `s3_conditions`: dates of HTTP, ranges, and lists of tags.

use crate::checks::{Row, all_hold};
use s3_calendar::Moment;
use s3_conditions::{ByteRange, Conditions, Selection, TagList, judge, read_date, unquoted};
use s3_names::Tag;
use s3_terms::Code;
use std::alloc::Global;

fn seconds_of(text: &[u8]) -> Option<u64> {
    match read_date(text) {
        Some(moment) => Some(moment.seconds()),
        None => None,
    }
}

// A text, and the seconds of the date that it shows, if it shows one: those of Python's `calendar.timegm`.
struct Date(&'static [u8], Option<u64>);

static DATES: [Date; 10] = [
    Date(b"Sun, 06 Nov 1994 08:49:37 GMT", Some(784_111_777)),
    Date(b"Sunday, 06-Nov-94 08:49:37 GMT", Some(784_111_777)),
    Date(b"Sun Nov  6 08:49:37 1994", Some(784_111_777)),
    Date(b"Thu, 01 Jan 1970 00:00:00 GMT", Some(0)),
    Date(b"Fri, 31 Dec 9999 23:59:59 GMT", Some(253_402_300_799)),
    Date(b"Mon, 06 Nov 1994 08:49:37 GMT", None),
    Date(b"Wed, 31 Dec 1969 23:59:59 GMT", None),
    Date(b"Sun, 06 Nov 1994 08:49:60 GMT", None),
    Date(b" Sun, 06 Nov 1994 08:49:37 GMT", None),
    Date(b"", None),
];

// The tag of `hello`.
const HELLO: [u8; 16] = [
    0x5d, 0x41, 0x40, 0x2a, 0xbc, 0x4b, 0x2a, 0x76, 0xb9, 0x71, 0x9d, 0x91, 0x10, 0x17, 0xc5, 0x92,
];

// The first and the last position of the part that is shown, if one is.
fn part_in(shown: Result<Selection, Code>) -> Option<(u64, u64)> {
    match shown {
        Ok(Selection::Part { first, last }) => Some((first, last)),
        Ok(Selection::Whole) | Ok(Selection::Unchanged) | Ok(Selection::Outside) | Err(_) => None,
    }
}

// Whether no byte is in the range.
fn is_outside(shown: Result<Selection, Code>) -> bool {
    matches!(shown, Ok(Selection::Outside))
}

// What a range shows of so many bytes.
fn shown_of(range: &[u8], size: u64) -> Result<Selection, Code> {
    let mut asked = Conditions::plain();
    asked.range = ByteRange::read(range);
    let moment = Moment::new(0).ok_or(Code::InvalidArgument)?;
    judge(&asked, moment, &Tag::of_digest(HELLO), size)
}

// Values of a Range line that have no byte of so many: a first position behind the last byte, and a suffix of no byte (RFC 9110,
// section 14.1.2).
struct Outside(&'static [u8], u64);

static OUTSIDE: [Outside; 4] = [
    Outside(b"bytes=5-", 5),
    Outside(b"bytes=47022-47030", 47_022),
    Outside(b"bytes=-0", 5),
    Outside(b"bytes=0-", 0),
];

// The value of a Range line, how many bytes there are, and the part that is shown; where none is, all is shown or no byte is in the
// range.
struct Range(&'static [u8], u64, Option<(u64, u64)>);

static RANGES: [Range; 12] = [
    Range(b"bytes=0-499", 10_000, Some((0, 499))),
    Range(b"bytes=500-999", 10_000, Some((500, 999))),
    Range(b"bytes=-500", 10_000, Some((9_500, 9_999))),
    Range(b"bytes=9500-", 10_000, Some((9_500, 9_999))),
    Range(b"bytes=1-9", 5, Some((1, 4))),
    Range(b"bytes=-6", 5, Some((0, 4))),
    Range(b"bytes=4-4", 5, Some((4, 4))),
    Range(b"bytes=5-", 5, None),
    Range(b"bytes=-0", 5, None),
    Range(b"bytes=2-1", 5, None),
    Range(b"bytes=0-", 0, None),
    Range(b"bytes=0-0,-1", 10_000, None),
];

// Whether a list of tags has that of `hello`.
fn has_hello(alloc: Global, line: &[u8]) -> bool {
    match TagList::read(alloc, line) {
        Ok(tags) => tags.matches(&Tag::of_digest(HELLO)),
        Err(_) => false,
    }
}

// The value of an If-Match line, and whether the tag of `hello` is in it.
struct Listed(&'static [u8], bool);

static TAGS: [Listed; 8] = [
    Listed(b"*", true),
    Listed(b"\"*\"", true),
    Listed(b"5d41402abc4b2a76b9719d911017c592", true),
    Listed(b"W/\"5d41402abc4b2a76b9719d911017c592\"", true),
    Listed(b"\"a\" ,\t\"5d41402abc4b2a76b9719d911017c592\" ", true),
    Listed(b"\"a\", \"b\"", false),
    Listed(b"w/\"5d41402abc4b2a76b9719d911017c592\"", false),
    Listed(b"", false),
];

impl Row for Date {
    fn holds(&self, _alloc: Global) -> bool {
        seconds_of(self.0) == self.1
    }
}

impl Row for Range {
    fn holds(&self, _alloc: Global) -> bool {
        part_in(shown_of(self.0, self.1)) == self.2
    }
}

impl Row for Outside {
    fn holds(&self, _alloc: Global) -> bool {
        is_outside(shown_of(self.0, self.1))
    }
}

impl Row for Listed {
    fn holds(&self, alloc: Global) -> bool {
        has_hello(alloc, self.0) == self.1
    }
}

/// Whether dates, ranges and lists of tags are read so, and a quote within quotes stays.
pub(crate) fn hold(alloc: Global) -> bool {
    all_hold(alloc, &DATES)
        && all_hold(alloc, &RANGES)
        && all_hold(alloc, &OUTSIDE)
        && all_hold(alloc, &TAGS)
        && unquoted(b"\"\"a\"") == b"a".as_slice()
}

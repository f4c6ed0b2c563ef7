//! Tests of `s3_names`: part numbers, the ids of versions and uploads, and entity tags.

use crate::checks::{Row, all_hold};
use s3_names::{PartNumber, Tag, UploadId, VersionId};
use std::alloc::Global;

// What a text names, or does not.
#[derive(Clone, Copy)]
enum Named {
    Part(u16),
    NoPart,
    NullVersion,
    Version(u64),
    NoVersion,
    Upload(u64),
    NoUpload,
}

struct Case(&'static [u8], Named);

static TEXTS: [Case; 22] = [
    Case(b"1", Named::Part(1)),
    Case(b"00001", Named::Part(1)),
    Case(b"10000", Named::Part(10_000)),
    Case(b"10001", Named::NoPart),
    Case(b"0", Named::NoPart),
    Case(b"000001", Named::NoPart),
    Case(b"+1", Named::NoPart),
    Case(b"1 ", Named::NoPart),
    Case(b"", Named::NoPart),
    Case(b"v0123456789abcdef", Named::Version(0x0123_4567_89ab_cdef)),
    Case(b"vffffffffffffffff", Named::Version(u64::MAX)),
    Case(b"null", Named::NullVersion),
    Case(b"v0123456789ABCDEF", Named::NoVersion),
    Case(b"v0123456789abcde", Named::NoVersion),
    Case(b"v0123456789abcdef0", Named::NoVersion),
    Case(b"u0123456789abcdef", Named::NoVersion),
    Case(b"Null", Named::NoVersion),
    Case(b"", Named::NoVersion),
    Case(b"u0000000000000000", Named::Upload(0)),
    Case(b"u00000000000003e8", Named::Upload(1_000)),
    Case(b"u000000000000000g", Named::NoUpload),
    Case(b"null", Named::NoUpload),
];

fn is_part(number: u16, text: &[u8]) -> bool {
    match PartNumber::read(text) {
        Some(part) => part.get() == number,
        None => false,
    }
}

// Whether the version's id is written as this text, and read from it.
fn is_version(id: VersionId, text: &[u8]) -> bool {
    id.text().as_bytes() == text && VersionId::read(text) == Some(id)
}

// Whether the upload's id is written as this text, and read from it.
fn is_upload(number: u64, text: &[u8]) -> bool {
    let id = UploadId::of(number);
    id.number() == number && id.text().as_bytes() == text && UploadId::read(text) == Some(id)
}

impl Row for Case {
    fn holds(&self, _alloc: Global) -> bool {
        match self.1 {
            Named::Part(number) => is_part(number, self.0),
            Named::NoPart => PartNumber::read(self.0).is_none(),
            Named::NullVersion => is_version(VersionId::Null, self.0),
            Named::Version(number) => is_version(VersionId::of(number), self.0),
            Named::NoVersion => VersionId::read(self.0).is_none(),
            Named::Upload(number) => is_upload(number, self.0),
            Named::NoUpload => UploadId::read(self.0).is_none(),
        }
    }
}

/// The MD5 of `hello`.
const MD5: [u8; 16] = *b"\x5d\x41\x40\x2a\xbc\x4b\x2a\x76\xb9\x71\x9d\x91\x10\x17\xc5\x92";

// Whether a tag has this text, and its copy too.
fn is_tag(tag: &Tag, text: &[u8]) -> bool {
    tag.text().as_bytes() == text && tag.copy().text().as_bytes() == text
}

/// Whether texts name parts, versions and uploads, and tags have their texts.
pub(crate) fn hold(alloc: Global) -> bool {
    all_hold(alloc, &TEXTS)
        && is_tag(&Tag::of_digest(MD5), b"5d41402abc4b2a76b9719d911017c592")
        && is_tag(
            &Tag::joined(MD5, 10_000),
            b"5d41402abc4b2a76b9719d911017c592-10000",
        )
}

//! Tests of `s3_columns`: how the columns of rows are spelled, and read back.

use crate::checks::{Row, all_hold};
use s3_columns::{
    Kept, read_kept, read_mode, read_numbers, read_tag, write_id, write_kept, write_mode,
    write_numbers,
};
use s3_names::VersionId;
use s3_versions::{Metadata, Versioning};
use std::alloc::Global;

// The name of an entry of metadata, and its value.
type Entry = (&'static [u8], &'static [u8]);

// A media type and entries of metadata.
type Attributes = (&'static [u8], &'static [Entry]);

// Bytes, and what they are kept of, if they are kept of anything. The bytes are those of Python's `struct.pack`: for each pair
// `pack('>H', len(name)) + name + pack('>I', len(value)) + value`.
struct Written(&'static [u8], Option<Attributes>);

static KEPT: [Written; 15] = [
    Written(b"\x00\x0ccontent-type\x00\x00\x00\x00", Some((b"", &[]))),
    Written(
        b"\x00\x0ccontent-type\x00\x00\x00\x0atext/plain",
        Some((b"text/plain", &[])),
    ),
    Written(
        b"\x00\x0ccontent-type\x00\x00\x00\x0atext/plain\x00\x11x-amz-meta-colour\x00\x00\x00\x03red\x00\x0fx-amz-meta-size\x00\x00\x00\x02\x00\xff",
        Some((
            b"text/plain",
            &[
                (b"x-amz-meta-colour", b"red"),
                (b"x-amz-meta-size", b"\x00\xff"),
            ],
        )),
    ),
    Written(
        b"\x00\x0ccontent-type\x00\x00\x00\x01t\x00\x0bx-amz-meta-\x00\x00\x00\x00",
        Some((b"t", &[(b"x-amz-meta-", b"")])),
    ),
    // Nothing at all.
    Written(b"", None),
    // One byte too few, and one too many.
    Written(
        b"\x00\x0ccontent-type\x00\x00\x00\x0atext/plain\x00\x11x-amz-meta-colour\x00\x00\x00\x03red\x00\x0fx-amz-meta-size\x00\x00\x00\x02\x00",
        None,
    ),
    Written(
        b"\x00\x0ccontent-type\x00\x00\x00\x0atext/plain\x00\x11x-amz-meta-colour\x00\x00\x00\x03red\x00\x0fx-amz-meta-size\x00\x00\x00\x02\x00\xff\x00",
        None,
    ),
    // No media type in front.
    Written(b"\x00\x11x-amz-meta-colour\x00\x00\x00\x03red", None),
    Written(
        b"\x00\x11x-amz-meta-colour\x00\x00\x00\x03red\x00\x0ccontent-type\x00\x00\x00\x0atext/plain",
        None,
    ),
    Written(b"\x00\x0cContent-Type\x00\x00\x00\x01t", None),
    // An entry has any name.
    Written(
        b"\x00\x0ccontent-type\x00\x00\x00\x01t\x00\x0dcache-control\x00\x00\x00\x08no-store\x00\x0cx-amz-meta-a\x00\x00\x00\x011",
        Some((
            b"t",
            &[(b"cache-control", b"no-store"), (b"x-amz-meta-a", b"1")],
        )),
    ),
    Written(
        b"\x00\x0ccontent-type\x00\x00\x00\x01t\x00\x0ccontent-type\x00\x00\x00\x01u",
        Some((b"t", &[(b"content-type", b"u")])),
    ),
    // A control byte in a value that isn't user-defined.
    Written(
        b"\x00\x0ccontent-type\x00\x00\x00\x01t\x00\x0dcache-control\x00\x00\x00\x01\x0a",
        None,
    ),
    // Names that do not rise.
    Written(
        b"\x00\x0ccontent-type\x00\x00\x00\x01t\x00\x0cx-amz-meta-b\x00\x00\x00\x00\x00\x0cx-amz-meta-a\x00\x00\x00\x00",
        None,
    ),
    Written(
        b"\x00\x0ccontent-type\x00\x00\x00\x01t\x00\x0cx-amz-meta-a\x00\x00\x00\x011\x00\x0cx-amz-meta-a\x00\x00\x00\x012",
        None,
    ),
];

// Whether these are the entries of the metadata.
fn has_entries(metadata: &Metadata, entries: &[Entry]) -> bool {
    let found = metadata.entries();
    for (entry, wanted) in found.iter().zip(entries) {
        if entry.name() != wanted.0 || entry.value() != wanted.1 {
            return false;
        }
    }
    found.len() == entries.len()
}

// Whether these bytes are kept of it.
fn is_written(alloc: Global, kept: &Kept, bytes: &[u8]) -> bool {
    match write_kept(alloc, &kept.content_type, &kept.metadata) {
        Ok(written) => written.as_slice() == bytes,
        Err(_) => false,
    }
}

// Whether this media type and these entries are kept.
fn is_of(kept: &Kept, wanted: &Attributes) -> bool {
    kept.content_type.as_bytes() == wanted.0 && has_entries(&kept.metadata, wanted.1)
}

// Whether the bytes are kept of this, or of nothing.
impl Row for Written {
    fn holds(&self, alloc: Global) -> bool {
        match (read_kept(alloc, self.0), &self.1) {
            (Ok(Some(kept)), Some(wanted)) => {
                is_of(&kept, wanted) & is_written(alloc, &kept, self.0)
            }
            (Ok(None), None) => true,
            _ => false,
        }
    }
}

// Numbers, and their bytes: those of Python's `struct.pack('>Q', number)`, one behind another.
struct Numbers(&'static [u64], &'static [u8]);

static NUMBERS: [Numbers; 4] = [
    Numbers(&[], b""),
    Numbers(&[0], b"\x00\x00\x00\x00\x00\x00\x00\x00"),
    Numbers(
        &[u64::MAX, 1],
        b"\xff\xff\xff\xff\xff\xff\xff\xff\x00\x00\x00\x00\x00\x00\x00\x01",
    ),
    Numbers(
        &[81_985_529_216_486_895, 1 << 63, 1 << 63],
        b"\x01#Eg\x89\xab\xcd\xef\x80\x00\x00\x00\x00\x00\x00\x00\x80\x00\x00\x00\x00\x00\x00\x00",
    ),
];

// Whether the numbers are written as these bytes.
fn are_written(alloc: Global, numbers: &[u64], bytes: &[u8]) -> bool {
    match write_numbers(alloc, numbers) {
        Ok(written) => written.as_slice() == bytes,
        Err(_) => false,
    }
}

// Whether these numbers are read from the bytes.
fn are_read(alloc: Global, bytes: &[u8], numbers: &[u64]) -> bool {
    match read_numbers(alloc, bytes) {
        Ok(read) => read.as_slice() == numbers,
        Err(_) => false,
    }
}

// Whether the numbers are written and read so, and none are read where the last byte lacks.
impl Row for Numbers {
    fn holds(&self, alloc: Global) -> bool {
        let Numbers(numbers, bytes) = self;
        let cut = &bytes[..bytes.len().saturating_sub(1)];
        are_written(alloc, numbers, bytes)
            & are_read(alloc, bytes, numbers)
            & are_read(alloc, cut, &[])
    }
}

// Texts, and whether they are of tags: of the MD5 of `hello`, as `md5sum` tells it, alone or with a count.
struct Text(&'static [u8], bool);

static TAGS: [Text; 19] = [
    Text(b"5d41402abc4b2a76b9719d911017c592", true),
    Text(b"5d41402abc4b2a76b9719d911017c592-1", true),
    Text(b"5d41402abc4b2a76b9719d911017c592-10000", true),
    Text(b"5d41402abc4b2a76b9719d911017c592-65535", true),
    Text(b"5d41402abc4b2a76b9719d911017c592-0", true),
    Text(b"ffffffffffffffffffffffffffffffff", true),
    Text(b"00000000000000000000000000000000-2", true),
    Text(b"", false),
    Text(b"5d41402abc4b2a76b9719d911017c59", false),
    Text(b"5d41402abc4b2a76b9719d911017c5920", false),
    Text(b"5D41402ABC4B2A76B9719D911017C592", false),
    Text(b"5d41402abc4b2a76b9719d911017c59g", false),
    Text(b"5d41402abc4b2a76b9719d911017c592-", false),
    Text(b"5d41402abc4b2a76b9719d911017c592-01", false),
    Text(b"5d41402abc4b2a76b9719d911017c592-00", false),
    Text(b"5d41402abc4b2a76b9719d911017c592-65536", false),
    Text(b"5d41402abc4b2a76b9719d911017c592-100000", false),
    Text(b"5d41402abc4b2a76b9719d911017c592-+1", false),
    Text(b"5d41402abc4b2a76b9719d911017c592+1", false),
];

// Whether the text is that of a tag, or of none.
impl Row for Text {
    fn holds(&self, _alloc: Global) -> bool {
        match read_tag(self.0) {
            Some(tag) => self.1 && tag.text().as_bytes() == self.0,
            None => !self.1,
        }
    }
}

// Ids, and the numbers that stand for them.
struct Id(VersionId, Option<i64>);

static IDS: [Id; 6] = [
    Id(VersionId::Null, Some(-1)),
    Id(VersionId::Numbered(0), Some(0)),
    Id(VersionId::Numbered(7), Some(7)),
    Id(VersionId::Numbered((1 << 63) - 1), Some(i64::MAX)),
    Id(VersionId::Numbered(1 << 63), None),
    Id(VersionId::Numbered(u64::MAX), None),
];

impl Row for Id {
    fn holds(&self, _alloc: Global) -> bool {
        write_id(self.0) == self.1
    }
}

// Numbers, and the versioning that they stand for, if they stand for any.
struct Mode(i64, Option<Versioning>);

static MODES: [Mode; 7] = [
    Mode(0, Some(Versioning::Unversioned)),
    Mode(1, Some(Versioning::Enabled)),
    Mode(2, Some(Versioning::Suspended)),
    Mode(3, None),
    Mode(-1, None),
    Mode(i64::MAX, None),
    Mode(i64::MIN, None),
];

// Whether both are one versioning.
fn is_same(read: Option<Versioning>, wanted: Option<Versioning>) -> bool {
    matches!(
        (read, wanted),
        (Some(Versioning::Unversioned), Some(Versioning::Unversioned))
            | (Some(Versioning::Enabled), Some(Versioning::Enabled))
            | (Some(Versioning::Suspended), Some(Versioning::Suspended))
    )
}

// Whether the number stands for this versioning, and is written for it.
impl Row for Mode {
    fn holds(&self, _alloc: Global) -> bool {
        match self.1 {
            Some(versioning) => {
                is_same(read_mode(self.0), self.1) && write_mode(versioning) == self.0
            }
            None => read_mode(self.0).is_none(),
        }
    }
}

/// Whether what is kept of objects, numbers of bodies, texts of tags, ids and versioning are spelled so, and read back.
pub(crate) fn hold(alloc: Global) -> bool {
    all_hold(alloc, &KEPT)
        && all_hold(alloc, &NUMBERS)
        && all_hold(alloc, &TAGS)
        && all_hold(alloc, &IDS)
        && all_hold(alloc, &MODES)
}

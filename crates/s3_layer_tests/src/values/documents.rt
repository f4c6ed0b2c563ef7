//! Documents, printed. The expected texts are what Python's `json.dumps` prints, compact and without ASCII escapes.

use crate::checks::{Row, all_hold};
use s3_calendar::Moment;
use s3_documents::{Document, Field, Leaf, Printer, copied_document};
use s3_names::{BucketName, Tag};
use s3_records::ListedBucket;
use s3_terms::{Dialect, NoMemory};
use std::alloc::Global;

/// The seconds of a bucket's moment, and its name.
type Bucket = (u64, &'static [u8]);

/// Buckets, and their document.
struct Case(&'static [Bucket], &'static [u8]);

static CASES: [Case; 3] = [
    Case(&[], b"{\"Buckets\":[]}"),
    Case(
        &[(0, b"pail")],
        b"{\"Buckets\":[{\"CreationDate\":\"1970-01-01T00:00:00.000Z\",\"Name\":\"pail\"}]}",
    ),
    Case(
        &[(1_369_439_999, b"a.b-1"), (253_402_300_799, b"vat")],
        b"{\"Buckets\":[{\"CreationDate\":\"2013-05-24T23:59:59.000Z\",\"Name\":\"a.b-1\"},{\"CreationDate\":\"9999-12-31T23:59:59.000Z\",\"Name\":\"vat\"}]}",
    ),
];

/// What a document of each kind of leaf tells: rows, a text, a number and a truth.
struct Told(&'static [Bucket], &'static str, u64, bool);

/// The same, and its text.
struct Tree(Told, &'static str);

static TREES: [Tree; 4] = [
    Tree(
        Told(&[], "", 0, false),
        "{\"Buckets\":[],\"IsLatest\":false,\"Key\":\"\",\"Size\":0}",
    ),
    Tree(
        Told(&[(946_684_799, b"pail")], "a\"b\\c/d", u64::MAX, true),
        "{\"Buckets\":[{\"CreationDate\":\"1999-12-31T23:59:59.000Z\",\"Name\":\"pail\"}],\"IsLatest\":true,\"Key\":\"a\\\"b\\\\c/d\",\"Size\":18446744073709551615}",
    ),
    Tree(
        Told(
            &[(951_827_696, b"a.b-1"), (4_107_542_400, b"vat")],
            "\x00\x01\x08\x09\x0a\x0b\x0c\x0d\x1f \x7f",
            10,
            true,
        ),
        "{\"Buckets\":[{\"CreationDate\":\"2000-02-29T12:34:56.000Z\",\"Name\":\"a.b-1\"},{\"CreationDate\":\"2100-03-01T00:00:00.000Z\",\"Name\":\"vat\"}],\"IsLatest\":true,\"Key\":\"\\u0000\\u0001\\b\\t\\n\\u000b\\f\\r\\u001f \x7f\",\"Size\":10}",
    ),
    Tree(
        Told(&[], "\u{df}\u{20ac}\u{1d11e}\u{2028}", 1_000, false),
        "{\"Buckets\":[],\"IsLatest\":false,\"Key\":\"\u{df}\u{20ac}\u{1d11e}\u{2028}\",\"Size\":1000}",
    ),
];

fn bucket_of(alloc: Global, row: &Bucket) -> Option<ListedBucket> {
    let made = Moment::new(row.0)?;
    match BucketName::read(alloc, row.1) {
        Ok(name) => Some(ListedBucket { name, made }),
        Err(_) => None,
    }
}

fn buckets_of(alloc: Global, rows: &[Bucket]) -> Result<Vec<ListedBucket>, NoMemory> {
    let mut buckets = Vec::new(alloc);
    for row in rows {
        if let Some(bucket) = bucket_of(alloc, row) {
            buckets.push(bucket)?;
        }
    }
    Ok(buckets)
}

fn printed(alloc: Global, rows: &[Bucket]) -> Result<Vec<u8>, NoMemory> {
    let document = Document::of_buckets(alloc, buckets_of(alloc, rows)?)?;
    Ok(document.into_body(Dialect::Json).to_vec(alloc)?)
}

impl Row for Case {
    fn holds(&self, alloc: Global) -> bool {
        match printed(alloc, self.0) {
            Ok(document) => document.as_slice() == self.1,
            Err(_) => false,
        }
    }
}

fn printed_tree(alloc: Global, told: &Told) -> Result<Vec<u8>, NoMemory> {
    let buckets = buckets_of(alloc, told.0)?;
    tree_of(alloc, buckets.as_slice(), told)
}

fn tree_of(alloc: Global, buckets: &[ListedBucket], told: &Told) -> Result<Vec<u8>, NoMemory> {
    let mut printer = Printer::new(alloc, 0)?;
    printer.rows("Buckets", buckets)?;
    printer.fields(&fields_of(told))?;
    Ok(printer.finish()?)
}

// The fields behind the buckets, one of which tells nothing.
fn fields_of(told: &Told) -> [Field<'_>; 4] {
    [
        Field {
            name: "IsLatest",
            value: Leaf::Truth(told.3),
        },
        Field {
            name: "Key",
            value: Leaf::Text(told.1),
        },
        Field {
            name: "Marker",
            value: Leaf::Absent,
        },
        Field {
            name: "Size",
            value: Leaf::Number(told.2),
        },
    ]
}

impl Row for Tree {
    fn holds(&self, alloc: Global) -> bool {
        match printed_tree(alloc, &self.0) {
            Ok(document) => document.as_slice() == self.1.as_bytes(),
            Err(_) => false,
        }
    }
}

/// Seconds, and the document of a copy of `hello` that was made at them.
struct Copied(u64, &'static str);

static COPIES: [Copied; 2] = [
    Copied(
        0,
        "{\"ETag\":\"\\\"5d41402abc4b2a76b9719d911017c592\\\"\",\"LastModified\":\"1970-01-01T00:00:00.000Z\"}",
    ),
    Copied(
        1_369_439_999,
        "{\"ETag\":\"\\\"5d41402abc4b2a76b9719d911017c592\\\"\",\"LastModified\":\"2013-05-24T23:59:59.000Z\"}",
    ),
];

impl Row for Copied {
    fn holds(&self, _alloc: Global) -> bool {
        let tag = Tag::of_digest(
            *b"\x5d\x41\x40\x2a\xbc\x4b\x2a\x76\xb9\x71\x9d\x91\x10\x17\xc5\x92",
        );
        match Moment::new(self.0) {
            Some(moment) => copied_document(&tag, moment, Dialect::Json).as_slice()
                == self.1.as_bytes(),
            None => false,
        }
    }
}

/// Whether lists of buckets, trees, and documents of copies are printed so.
pub(crate) fn hold(alloc: Global) -> bool {
    all_hold(alloc, &CASES) && all_hold(alloc, &TREES) && all_hold(alloc, &COPIES)
}

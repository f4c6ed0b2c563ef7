//! Canonical paths, queries and lines, and the hash of the published example.
use crate::checks;
use crate::requests::asked::{Question, Table};
use crate::texts::{add, add_code, add_told, is_same};
use s3_canonical::{headers, query, request_hash, uri};
use s3_http_heads::Head;
use std::alloc::Global;

/// Adds the canonical URI of a head's target.
pub(crate) fn add_uri(alloc: Global, out: &mut Vec<u8>, head: &Head) {
    match head.decoded_target() {
        Ok(target) => add_told(out, uri(alloc, target)),
        Err(code) => add_code(out, code),
    }
}

/// Adds the canonical query of a head's target.
pub(crate) fn add_query(alloc: Global, out: &mut Vec<u8>, head: &Head) {
    match head.decoded_target() {
        Ok(target) => add_told(out, query(alloc, target)),
        Err(code) => add_code(out, code),
    }
}

/// Adds the canonical lines of a name that is not there and of one that is.
pub(crate) fn add_joined(alloc: Global, out: &mut Vec<u8>, head: &Head) {
    add_told(out, headers(alloc, head, b"absent;x-amz-meta-a"));
}

const NAMES: &[u8] = b"host;range;x-amz-content-sha256;x-amz-date";

const WORD: &[u8] = b"e3b0c44298fc1c149afbf4c8996fb92427ae41e4649b934ca495991b7852b855";

static HASH: [u8; 32] = [
    0x73, 0x44, 0xae, 0x5b, 0x7e, 0xe6, 0xc3, 0xe7, 0xe6, 0xb0, 0xfe, 0x06, 0x40, 0x41, 0x2a, 0x37,
    0x62, 0x5d, 0x1f, 0xbf, 0xff, 0x95, 0xc4, 0x8b, 0xbb, 0x2d, 0xc4, 0x39, 0x64, 0x94, 0x69, 0x72,
];

/// Adds whether the head's canonical request has the hash of the published example.
pub(crate) fn add_hash(alloc: Global, out: &mut Vec<u8>, head: &Head) {
    match request_hash(alloc, head, NAMES, WORD) {
        Ok(hash) if is_same(&hash, &HASH) => add(out, b"published"),
        Ok(_) => add(out, b"other"),
        Err(code) => add_code(out, code),
    }
}

const PATHS: Table = Table {
    question: Question::Uri,
    front: "GET ",
    rows: "\
        /pail/a%2fb/../c%20d+?x=1|/pail/a/b/../c%20d%2B^\
        /pail/%4|InvalidURI^\
        /pail/%4a|/pail/J^\
        pail|InvalidURI",
    end: " HTTP/1.1\r\n\r\n",
};

const QUERIES: Table = Table {
    question: Question::Query,
    front: "GET ",
    rows: "\
        /pail?a=%4g|InvalidURI^\
        /?b=2&a=1&&c&a=0%2f|a=0%2F&a=1&b=2&c=^\
        /?z=1&%c3%a9=2|%C3%A9=2&z=1^\
        /?a-=1&a=2&q=x+y|a=2&a-=1&q=x%2By^\
        /?a=2&a-=1|a=2&a-=1^\
        /?=|=^\
        /pail|",
    end: " HTTP/1.1\r\n\r\n",
};

// The example of a GET in "Signature Calculations for the Authorization Header" of the Amazon S3 API
// Reference.
const PUBLISHED: Table = Table {
    question: Question::Hash,
    front: "GET /test.txt HTTP/1.1\r\nHost: examplebucket.s3.amazonaws.com\r\nRange: bytes=0-9\r\n",
    rows: "x-amz-content-sha256: e3b0c44298fc1c149afbf4c8996fb92427ae41e4649b934ca495991b7852b855\r\nx-amz-date: 20130524T000000Z|published",
    end: "\r\n\r\n",
};

// Values of one name.
const VALUES: Table = Table {
    question: Question::Joined,
    front: "GET / HTTP/1.1\r\n",
    rows: "x-amz-meta-a: 1  2\r\nX-Amz-Meta-A:  3 \r\nhost: a|absent:\nx-amz-meta-a:1 2,3\n",
    end: "\r\n\r\n",
};

static TABLES: [Table; 4] = [PATHS, QUERIES, PUBLISHED, VALUES];

/// The first row that doesn't hold.
pub(crate) fn first_other(alloc: Global) -> Option<&'static str> {
    checks::first_other(alloc, &TABLES)
}

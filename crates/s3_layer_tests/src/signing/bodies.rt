//! Bodies and what comes of them, whole and in pieces: the worked examples of bodies that are sent as they are, and the
//! example of AWS in signed chunks ("Signature calculations for the authorization header: transferring payload in multiple
//! chunks"), and what is wrong with it where it is changed; and bodies in the transfer coding (RFC 9112, 7.1). The hashes are
//! those of Python's `hashlib`, and the other signatures of chunks those of its `hmac`. The places are counted by hand.
use crate::checks::{self, Rows};
use crate::signing::server::reader;
use crate::texts::joined;
use s3_framed_bodies::BodyReader;
use s3_terms::{Code, Dialect};
use std::alloc::Global;

// Feeds the bytes in pieces of so many, and ends the input.
fn feed_all(reader: &mut BodyReader, bytes: &[u8], size: usize) -> Result<(), Code> {
    if bytes.is_empty() {
        reader.feed(bytes)?;
    }
    for piece in bytes.chunks(size.max(1)) {
        reader.feed(piece)?;
    }
    reader.end()
}

// Feeds the bytes in two pieces, of which the first has so many, and ends the input.
fn feed_cut(reader: &mut BodyReader, bytes: &[u8], at: usize) -> Result<(), Code> {
    let (front, behind) = bytes.split_at(at.min(bytes.len()));
    reader.feed(front)?;
    reader.feed(behind)?;
    reader.end()
}

/// Whether this word and this number are told.
pub(crate) fn is_outcome(word: &[u8], taken: u64, wanted: &str) -> bool {
    match wanted.split_once(' ') {
        Some((first, count)) => {
            first.as_bytes() == word && count.parse::<u64>().ok() == Some(taken)
        }
        None => false,
    }
}

// Whether this is the refusal.
fn is_refusal(code: Code, taken: u64, wanted: &str) -> bool {
    is_outcome(code.name().as_bytes(), taken, wanted)
}

// Whether the reader has a payload of this tag, or refuses so.
fn is_finished(reader: BodyReader, taken: u64, wanted: &str) -> bool {
    match reader.finish() {
        Ok(payload) => match wanted.strip_prefix("payload ") {
            Some(tag) => is_outcome(payload.tag().text().as_bytes(), taken, tag),
            None => false,
        },
        Err(code) => is_refusal(code, taken, wanted),
    }
}

// Whether that comes of a body that was fed so.
fn is_told(reader: BodyReader, fed: Result<(), Code>, wanted: &str) -> bool {
    let taken = reader.taken();
    match fed {
        Ok(()) => is_finished(reader, taken, wanted),
        Err(code) => is_refusal(code, taken, wanted),
    }
}

// Whether that comes of a body, in pieces of so many bytes.
fn is_read(mut reader: BodyReader, body: &[u8], size: usize, wanted: &str) -> bool {
    let fed = feed_all(&mut reader, body, size);
    is_told(reader, fed, wanted)
}

// Whether that comes of a body that is cut once, behind so many bytes.
fn is_read_cut(mut reader: BodyReader, body: &[u8], at: usize, wanted: &str) -> bool {
    let fed = feed_cut(&mut reader, body, at);
    is_told(reader, fed, wanted)
}

// Whether the reader says of the body that it is whole where it comes to a payload, once the bytes have come and before the
// input has ended.
fn is_told_whole(mut reader: BodyReader, body: &[u8], wanted: &str) -> bool {
    let _fed = reader.feed(body);
    reader.is_whole() == wanted.starts_with("payload ")
}

/// Bodies and what comes of them, on a server that takes bodies of at most so many bytes. A row has the lines of the head
/// in names of `texts`, a bar, the body, a bar, and what comes of it: the entity tag, or the refusal, and how many bytes
/// were taken. A `^` stands between two rows. Each body comes in pieces of some sizes, or in two pieces that are cut at each
/// of its bytes in turn.
struct Table {
    dialect: Dialect,
    is_cut: bool,
    limit: u64,
    rows: &'static str,
}

// The sizes of pieces; 0 stands for all bytes before the input ends.
static PIECES: [usize; 6] = [0, 1, 2, 1_000, 4_096, 100_000];

// Whether that comes of the body behind the head of these lines, in pieces of so many bytes.
fn is_so(
    alloc: Global,
    table: &Table,
    lines: &[u8],
    body: &[u8],
    size: usize,
    wanted: &str,
) -> bool {
    match reader(alloc, table.dialect, lines, table.limit) {
        Ok(reader) if size == 0 => is_told_whole(reader, body, wanted),
        Ok(reader) => is_read(reader, body, size, wanted),
        Err(code) => is_refusal(code, 0, wanted),
    }
}

// Whether that comes of it in pieces of each size.
fn is_so_in_pieces(alloc: Global, table: &Table, lines: &[u8], body: &[u8], wanted: &str) -> bool {
    for size in &PIECES {
        if !is_so(alloc, table, lines, body, *size, wanted) {
            return false;
        }
    }
    true
}

// Whether that comes of the body behind the head of these lines, where it is cut once, behind so many bytes.
fn is_cut_so(
    alloc: Global,
    table: &Table,
    lines: &[u8],
    body: &[u8],
    at: usize,
    wanted: &str,
) -> bool {
    match reader(alloc, table.dialect, lines, table.limit) {
        Ok(reader) => is_read_cut(reader, body, at, wanted),
        Err(code) => is_refusal(code, 0, wanted),
    }
}

// Whether that comes of it wherever it is cut.
fn is_so_at_each_cut(
    alloc: Global,
    table: &Table,
    lines: &[u8],
    body: &[u8],
    wanted: &str,
) -> bool {
    for at in 0..body.len() {
        if !is_cut_so(alloc, table, lines, body, at, wanted) {
            return false;
        }
    }
    true
}

// Whether that comes of the body behind the head of these lines, however it is cut in this table.
fn comes(alloc: Global, table: &Table, lines: &[u8], body: Option<Vec<u8>>, wanted: &str) -> bool {
    match body {
        Some(body) if table.is_cut => is_so_at_each_cut(alloc, table, lines, &body, wanted),
        Some(body) => is_so_in_pieces(alloc, table, lines, &body, wanted),
        None => false,
    }
}

impl Rows for Table {
    fn rows(&self) -> &'static str {
        self.rows
    }

    fn holds(&self, alloc: Global, row: &str) -> Option<bool> {
        let (names, row) = row.split_once('|')?;
        let (body, wanted) = row.split_once('|')?;
        let lines = joined(alloc, names)?;
        Some(comes(alloc, self, &lines, joined(alloc, body), wanted))
    }
}

const BODIES: Table = Table {
    dialect: Dialect::Json,
    is_cut: false,
    limit: 1_024,
    rows: "\
        PUT_KEY+FIVE+HASH|hello|payload 5d41402abc4b2a76b9719d911017c592 5^\
        PUT_KEY+FIVE+HASH+MD5|hello|payload 5d41402abc4b2a76b9719d911017c592 5^\
        PUT_KEY+FIVE+UNSIGNED|hello|payload 5d41402abc4b2a76b9719d911017c592 5^\
        PUT_KEY+FIVE+UNSIGNED+MD5|hello, more|payload 5d41402abc4b2a76b9719d911017c592 5^\
        PUT_KEY+ZERO+UNSIGNED||payload d41d8cd98f00b204e9800998ecf8427e 0^\
        PUT_KEY+ZERO+UNSIGNED|GET|payload d41d8cd98f00b204e9800998ecf8427e 0^\
        PUT_KEY+FIVE+HASH|hellp|XAmzContentSHA256Mismatch 5^\
        PUT_KEY+FIVE+HASH+MD5|hellp|XAmzContentSHA256Mismatch 5^\
        PUT_KEY+FIVE+UNSIGNED+MD5|hellp|BadDigest 5^\
        PUT_KEY+ZERO+HASH||XAmzContentSHA256Mismatch 0^\
        PUT_KEY+ZERO+UNSIGNED+MD5||BadDigest 0^\
        PUT_KEY+FIVE+HASH|hell|IncompleteBody 4",
};

// What is announced and can't be.
const HEADS: Table = Table {
    dialect: Dialect::Json,
    is_cut: false,
    limit: 1_024,
    rows: "\
        PUT_KEY+FIVE+UNSIGNED+UNPADDED|hello|InvalidDigest 0^\
        PUT_KEY+FIVE+UNSIGNED+SHORT|hello|InvalidDigest 0^\
        PUT_KEY+FIVE+HASH+MD5+MD5|hello|InvalidDigest 0^\
        PUT_KEY+FIVE+HASH+Content-MD5:\r\n|hello|InvalidDigest 0^\
        PUT_KEY+FIVE+STREAMING|hello|InvalidRequest 0^\
        PUT_KEY+FIVE+STREAMING+x-amz-decoded-content-length: 5x\r\n|hello|InvalidRequest 0^\
        PUT_KEY+FIVE+STREAMING+x-amz-decoded-content-length: 0000000000000000005\r\n|hello|InvalidRequest 0^\
        PUT_KEY+FIVE+STREAMING+x-amz-decoded-content-length: 5\r\nx-amz-decoded-content-length: 5\r\n|hello|InvalidRequest 0^\
        PUT_KEY+FIVE+STREAMING+x-amz-decoded-content-length: 1025\r\n|hello|EntityTooLarge 0^\
        PUT_KEY+FIVE+STREAMING+UNPADDED+x-amz-decoded-content-length: 1024\r\n|hello|InvalidRequest 1^\
        PUT_KEY+FIVE+x-amz-content-sha256: STREAMING-UNSIGNED-PAYLOAD-TRAILER\r\n|hello|NotImplemented 0^\
        PUT_KEY+CODED+HASH|5\r\nhello+NO_MORE|NotImplemented 0",
};

// The example, the same before another message, with its last letter changed, without its empty chunk, and cut after one
// byte less.
const PUBLISHED: Table = Table {
    dialect: Dialect::Json,
    is_cut: false,
    limit: 67_108_864,
    rows: "\
        PUT_LETTERS|FIRST+{a*65536}+SECOND+{a*1024}+LAST|payload da0d2e17cd5a8f14633c6b4aebad7e02 66824^\
        PUT_LETTERS|FIRST+{a*65536}+SECOND+{a*1024}+LAST+GET / HTTP/1.1\r\n|payload da0d2e17cd5a8f14633c6b4aebad7e02 66824^\
        PUT_LETTERS|FIRST+{a*65536}+SECOND+{a*1023}b+LAST|SignatureDoesNotMatch 66738^\
        PUT_LETTERS|FIRST+{a*65536}+SECOND+{a*1024}+\r\n|IncompleteBody 66738^\
        PUT_LETTERS|RECUT_FIRST+{a*65535}+RECUT_SECOND+{a*1025}+LAST|SignatureDoesNotMatch 65625",
};

// Bodies in the transfer coding: their data as it is, in chunks that are signed, and in both kinds that a trailer follows.
const CODED: Table = Table {
    dialect: Dialect::S3,
    is_cut: false,
    limit: 1_024,
    rows: "\
        PUT_KEY+CODED+HASH|5\r\nhello+NO_MORE|payload 5d41402abc4b2a76b9719d911017c592 15^\
        PUT_KEY+CODED+HASH+MD5|5\r\nhello+NO_MORE|payload 5d41402abc4b2a76b9719d911017c592 15^\
        PUT_KEY+CODED+UNSIGNED|2;a=b\r\nhe\r\n0003\r\nllo+NO_MORE+GET / HTTP/1.1\r\n|payload 5d41402abc4b2a76b9719d911017c592 27^\
        PUT_KEY+transfer-encoding: chunked\r\nx-amz-decoded-content-length: 0\r\n+UNSIGNED|0\r\n\r\n|payload d41d8cd98f00b204e9800998ecf8427e 5^\
        PUT_KEY+CODED+STREAMING|b1\r\n+SIGNED+NO_MORE|payload 5d41402abc4b2a76b9719d911017c592 188^\
        PUT_KEY+CODED+TRAILER+CRC32_BEHIND|2e\r\n+TRAILED+NO_MORE|payload 5d41402abc4b2a76b9719d911017c592 57^\
        PUT_KEY+CODED+SEALED_TRAILER+CRC32_BEHIND|12a\r\n+SEALED+NO_MORE|payload 5d41402abc4b2a76b9719d911017c592 310",
};

// What is wrong with the data is told once the coding has ended; what is wrong with the coding, at its byte.
const CODED_BADLY: Table = Table {
    dialect: Dialect::S3,
    is_cut: false,
    limit: 1_024,
    rows: "\
        PUT_KEY+CODED+FIVE+UNSIGNED|5\r\nhello+NO_MORE|InvalidRequest 0^\
        PUT_KEY+CODED+HASH|5\r\nhellp+NO_MORE|XAmzContentSHA256Mismatch 15^\
        PUT_KEY+CODED+UNSIGNED+MD5|5\r\nhellp+NO_MORE|BadDigest 15^\
        PUT_KEY+CODED+UNSIGNED|4\r\nhell+NO_MORE|IncompleteBody 14^\
        PUT_KEY+CODED+HASH|6\r\nhello!+NO_MORE|IncompleteBody 16^\
        PUT_KEY+CODED+STREAMING|5\r\nhello+NO_MORE|InvalidRequest 15^\
        PUT_KEY+CODED+TRAILER+CRC32_BEHIND|2d\r\n+5\r\nhello\r\n0\r\nx-amz-checksum-crc32:NhCmhg==\r\n\r+NO_MORE|IncompleteBody 56^\
        PUT_KEY+CODED+TRAILER+CRC32_BEHIND|2e\r\n5\r\nhellp\r\n0\r\nx-amz-checksum-crc32:NhCmhg==\r\n\r\n+NO_MORE|BadDigest 57^\
        PUT_KEY+CODED+TRAILER+CRC32_BEHIND|TRAILED|InvalidRequest 14^\
        PUT_KEY+CODED+UNSIGNED|5\r\nhello!\r\n|InvalidRequest 9^\
        PUT_KEY+CODED+UNSIGNED|5\r\nhello\r\n0\r\n\r|IncompleteBody 14^\
        PUT_KEY+CODED+UNSIGNED|401\r\n|EntityTooLarge 4",
};

// What clients send of which they don't know the length.
const CUT: Table = Table {
    dialect: Dialect::S3,
    is_cut: true,
    limit: 1_024,
    rows: "\
        PUT_KEY+CODED+TRAILER+CRC32_BEHIND|2e\r\n+TRAILED+NO_MORE|payload 5d41402abc4b2a76b9719d911017c592 57",
};

static TABLES: [Table; 6] = [BODIES, HEADS, PUBLISHED, CODED, CODED_BADLY, CUT];

/// The first row that doesn't hold.
pub(crate) fn first_other(alloc: Global) -> Option<&'static str> {
    checks::first_other(alloc, &TABLES)
}

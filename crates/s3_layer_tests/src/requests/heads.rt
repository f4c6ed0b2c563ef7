//! Heads and their verdicts at the limits, each with the answer that the standard or docs/DECISIONS.md gives.
use crate::checks::{self, Row, all_hold};
use crate::requests::asked::{Question, Table};
use crate::requests::texts::repeated;
use crate::texts::{add, add_code, add_number, is_same};
use s3_http_heads::{BodyFraming, Found, Head, find_head, framing, skipped};
use s3_terms::Dialect;
use std::alloc::Global;

// A number of letters, the bytes behind them, and what is found in both.
struct Bytes(usize, &'static [u8], Found);

static FOUND: [Bytes; 8] = [
    Bytes(16_383, b"", Found::NeedMore),
    Bytes(16_384, b"", Found::TooLarge),
    Bytes(16_380, b"\r\n\r\nrest", Found::Head { len: 16_384 }),
    Bytes(16_381, b"\r\n\r\n", Found::TooLarge),
    Bytes(
        0,
        b"\r\n\r\nGET / HTTP/1.1\r\n\r\n",
        Found::Head { len: 18 },
    ),
    Bytes(0, b"\r\n\r", Found::NeedMore),
    Bytes(0, b"a\r\r\n\r\r\n\r\n", Found::Head { len: 9 }),
    Bytes(0, b"a\r\n\n\r\n", Found::NeedMore),
];

impl Row for Bytes {
    fn holds(&self, alloc: Global) -> bool {
        match repeated(alloc, b"", b"A", self.0, self.1) {
            Ok(text) => find_head(&text) == self.2,
            Err(_) => false,
        }
    }
}

// Adds how the end of a body is told: its length, or how much data its head says, and how much is accepted.
fn add_told(out: &mut Vec<u8>, told: BodyFraming) {
    match told {
        BodyFraming::Sized(length) => add_number(out, length),
        BodyFraming::Coded { limit, decoded } => {
            add(out, b"coded ");
            add_number(out, decoded);
            add(out, b" of ");
            add_number(out, limit);
        }
    }
}

/// Adds how the end of the head's body is told in a dialect, where a body may have 100 bytes.
pub(crate) fn add_framing(out: &mut Vec<u8>, dialect: Dialect, head: &Head) {
    match framing(dialect, head, 100) {
        Ok(told) => add_told(out, told),
        Err(code) => add_code(out, code),
    }
}

// Whether the first line is cut into its parts.
fn has_first_line(head: &Head) -> bool {
    is_same(head.method_name(), b"HEAD")
        && head.asks_head_only()
        && is_same(head.target(), b"/pail/k?a=b?c")
        && head.minor() == 1
}

// Whether this is a header line, or the value of the first of one name.
fn is_line(line: (&[u8], &[u8]), first: Option<&[u8]>) -> bool {
    is_same(line.0, b"Host") && is_same(line.1, b"h") && is_same(first.unwrap_or(b""), b"1")
}

// Whether the header lines stand at their places, and are found by their names.
fn has_lines(head: &Head) -> bool {
    head.header_count() == 3
        && is_line(head.header(0), head.first(b"x-a"))
        && head.count(b"x-a") == 2
        && head.first(b"x-b").is_none()
        && head.is_sent(b"host")
}

/// Whether the first line of a head is right, and its header lines are.
pub(crate) fn has_parts(head: &Head) -> bool {
    has_first_line(head) && has_lines(head)
}

const LINES: Table = Table {
    question: Question::Lines,
    front: "GET /pail/k HTTP/1.1\r\n",
    rows: "{a: b\r\n*64}|64^{a: b\r\n*65}|MalformedHead",
    end: "\r\n",
};

const PARTS: Table = Table {
    question: Question::Parts,
    front: "HEAD /pail/k?a=b?c HTTP/1.1\r\n",
    rows: "Host:  h \r\nX-A: 1\r\nx-a: 2\r\n|yes",
    end: "\r\n",
};

const LENGTHS: Table = Table {
    question: Question::Length,
    front: "GET / HTTP/1.1\r\n",
    rows: "\
        |0^\
        content-LENGTH:5\r\n|5^\
        Content-Length:  5 \r\n|5^\
        Content-Length: +5\r\n|InvalidRequest^\
        Content-Length:\r\n|InvalidRequest^\
        Content-Length: 5\r\nContent-Length: 5\r\n|InvalidRequest^\
        Content-Length: 000000000000000005\r\n|5^\
        Content-Length: 0000000000000000005\r\n|InvalidRequest^\
        Content-Length: 100\r\n|100^\
        Content-Length: 101\r\n|EntityTooLarge^\
        Content-Length: 999999999999999999\r\n|EntityTooLarge",
    end: "\r\n",
};

const LENGTHS_OF_PUTS: Table = Table {
    question: Question::Length,
    front: "PUT ",
    rows: "\
        /pail/k HTTP/1.1\r\nTransfer-Encoding: chunked\r\nContent-Length: x|NotImplemented^\
        /pail/k?a HTTP/1.1|MissingContentLength^\
        a//b HTTP/1.1|MissingContentLength^\
        /pail/?/k HTTP/1.1|0^\
        /pail/k HTTP/1.1\r\nx-amz-copy-source: /pail/l|0^\
        /pail/k HTTP/1.1\r\nContent-Length: 0|0",
    end: "\r\n\r\n",
};

// In S3's dialect a body may be in the transfer coding.
const CODINGS: Table = Table {
    question: Question::LengthInXml,
    front: "PUT /pail/k HTTP/1.",
    rows: "\
        1\r\nTransfer-Encoding: chunked\r\nx-amz-decoded-content-length: 5|coded 5 of 100^\
        1\r\nx-amz-decoded-content-length: 0\r\ntransfer-ENCODING: \t ChunKED \t|coded 0 of 100^\
        1\r\nTransfer-Encoding: chunked\r\nx-amz-decoded-content-length: 000000000000000100|coded 100 of 100^\
        1\r\nTransfer-Encoding: chunked\r\nx-amz-decoded-content-length: 101|EntityTooLarge^\
        1\r\nTransfer-Encoding: chunked\r\nx-amz-decoded-content-length: 999999999999999999|EntityTooLarge^\
        1\r\nTransfer-Encoding: chunked|NotImplemented^\
        1\r\nTransfer-Encoding: chunked\r\nx-amz-decoded-content-length: 5\r\nx-amz-decoded-content-length: 5|InvalidRequest^\
        1\r\nTransfer-Encoding: chunked\r\nx-amz-decoded-content-length: 5x|InvalidRequest^\
        1\r\nTransfer-Encoding: chunked\r\nx-amz-decoded-content-length:|InvalidRequest^\
        1\r\nTransfer-Encoding: chunked\r\nx-amz-decoded-content-length: 0000000000000000005|InvalidRequest^\
        1\r\nTransfer-Encoding: chunked\r\nContent-Length: 5\r\nx-amz-decoded-content-length: 5|InvalidRequest^\
        1\r\nTransfer-Encoding: chunked\r\nContent-Length: 0|InvalidRequest^\
        0\r\nTransfer-Encoding: chunked\r\nx-amz-decoded-content-length: 5|InvalidRequest^\
        0\r\nTransfer-Encoding: chunked|InvalidRequest^\
        1|MissingContentLength^\
        1\r\nx-amz-decoded-content-length: 5|MissingContentLength^\
        1\r\nContent-Length: 5|5^\
        1\r\nContent-Length: 101|EntityTooLarge",
    end: "\r\n\r\n",
};

// It is the only coding that a body may be in.
const OTHER_CODINGS: Table = Table {
    question: Question::LengthInXml,
    front: "PUT /pail/k HTTP/1.1\r\nx-amz-decoded-content-length: 5\r\nTransfer-Encoding:",
    rows: "\
        chunked|coded 5 of 100^\
        chunked\r\nTransfer-Encoding: chunked|InvalidRequest^\
        |InvalidRequest^\
        gzip|InvalidRequest^\
        gzip, chunked|InvalidRequest^\
        chunked, gzip|InvalidRequest^\
        chunked, chunked|InvalidRequest^\
        chunked,|InvalidRequest^\
        chunked;a=b|InvalidRequest^\
        \"chunked\"|InvalidRequest^\
        identity|InvalidRequest^\
        gzip\r\nTransfer-Encoding: chunked|InvalidRequest",
    end: "\r\n\r\n",
};

const CONNECTIONS: Table = Table {
    question: Question::Closes,
    front: "GET / ",
    rows: "\
        HTTP/1.0|yes^\
        HTTP/1.1|no^\
        HTTP/1.1\r\nConnection: keep-alive, Close|yes^\
        HTTP/1.1\r\nConnection: a\r\nConnection:\tclose\t,|yes^\
        HTTP/1.1\r\nConnection: closed, not close|no^\
        HTTP/1.1\r\nClose: close|no^\
        HTTP/1.1\r\nBad Name: x|MalformedHead^\
        HTTP/1.1\r\n\r\nGET / HTTP/1.1|MalformedHead",
    end: "\r\n\r\n",
};

// Of two lines the first one counts.
const EXPECTATIONS: Table = Table {
    question: Question::Expects,
    front: "PUT /pail/k ",
    rows: "\
        HTTP/1.1\r\nExpect: 100-Continue |yes^\
        HTTP/1.0\r\nExpect: 100-continue|no^\
        HTTP/1.1\r\nA: 100-continue|no^\
        HTTP/1.1\r\nExpect: 100|no^\
        HTTP/1.1\r\nExpect:|no^\
        HTTP/1.1\r\nexpect: 100-CONTINUE\r\nExpect: b|yes^\
        HTTP/1.1\r\nExpect: b\r\nExpect: 100-continue|no",
    end: "\r\n\r\n",
};

static TABLES: [Table; 8] = [
    LINES,
    PARTS,
    LENGTHS,
    LENGTHS_OF_PUTS,
    CODINGS,
    OTHER_CODINGS,
    CONNECTIONS,
    EXPECTATIONS,
];

/// The first row that doesn't hold. Leading pairs are skipped.
pub(crate) fn first_other(alloc: Global) -> Option<&'static str> {
    if !all_hold(alloc, &FOUND) || skipped(b"\r\n\r\nGET / HTTP/1.1\r\n\r\n") != 4 {
        return Some("heads that are found");
    }
    checks::first_other(alloc, &TABLES)
}

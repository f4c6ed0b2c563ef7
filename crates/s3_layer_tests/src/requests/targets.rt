//! What targets say, with their escapes read once.
use crate::checks;
use crate::requests::asked::{Question, Table, is_so};
use crate::texts::{add, add_code, add_number};
use s3_http_heads::{Head, Target};
use std::alloc::Global;

/// Adds a line with the name, a colon and the value.
pub(crate) fn add_line(out: &mut Vec<u8>, name: &[u8], value: &[u8]) {
    for part in [b"\n".as_slice(), name, b":", value] {
        add(out, part);
    }
}

// Adds the path, the bucket, the key and the parameters.
fn add_whole(out: &mut Vec<u8>, target: &Target) {
    for part in [target.path(), target.bucket(), target.key()] {
        add(out, part);
        add(out, b"\n");
    }
    for index in 0..target.parameter_count() {
        let (name, value) = target.parameter(index);
        add_line(out, name, value);
    }
}

/// Adds what the target of a head says.
pub(crate) fn add_target(out: &mut Vec<u8>, head: &Head) {
    match head.decoded_target() {
        Ok(target) => add_whole(out, target),
        Err(code) => add_code(out, code),
    }
}

/// Adds how many parameters the target of a head has, or `b` where one of them is called so.
pub(crate) fn add_parameters(out: &mut Vec<u8>, head: &Head) {
    match head.decoded_target() {
        Ok(target) if target.has_parameter(b"b") => add(out, b"b"),
        Ok(target) => add_number(out, target.parameter_count() as u64),
        Err(code) => add_code(out, code),
    }
}

const TARGETS: Table = Table {
    question: Question::Target,
    front: "GET ",
    rows: "\
        /|/\n\n\n^\
        /pail|/pail\npail\n\n^\
        /pail/|/pail/\npail\n\n^\
        //k|//k\n\nk\n^\
        /pail/a/../b//?|/pail/a/../b//\npail\na/../b//\n^\
        /pa%2fil/k|/pa/il/k\npa/il\nk\n^\
        /pail%2fk|/pail/k\npail/k\n\n^\
        /pail/k?&|/pail/k\npail\nk\n^\
        /pail?b=%2B+&a=%253d?&&c|/pail\npail\n\n\nb:++\na:%3d?\nc:^\
        /?=v&a=1=2&%3d%26=&a|/\n\n\n\n:v\na:1=2\n=&:\na:",
    end: " HTTP/1.1\r\n\r\n",
};

// A head may have 8,180 parameters.
const MOST: Table = Table {
    question: Question::Parameters,
    front: "GET /?",
    rows: "{a&*8180}|8180",
    end: " HTTP/1.1\r\n\r\n",
};

static TABLES: [Table; 2] = [TARGETS, MOST];

// A target with a byte beyond ASCII.
fn is_decoded(alloc: Global) -> bool {
    is_so(
        alloc,
        &Question::Target,
        b"GET /pail/%2541+%C3 HTTP/1.1\r\n\r\n",
        b"/pail/%41+\xC3\npail\n%41+\xC3\n",
    )
}

/// The first row that doesn't hold.
pub(crate) fn first_other(alloc: Global) -> Option<&'static str> {
    if !is_decoded(alloc) {
        return Some("a decoded target");
    }
    checks::first_other(alloc, &TABLES)
}

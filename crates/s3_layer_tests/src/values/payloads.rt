//! Tests of `s3_bodies`: the payloads that have the tags of their bodies.

use crate::checks::{Row, all_hold};
use s3_bodies::{Body, Payload, PayloadBuilder, Sink};
use s3_terms::NoMemory;
use std::alloc::Global;

// Gives these bytes to a builder in two pieces.
fn take_both(builder: &mut PayloadBuilder, bytes: &[u8]) -> Result<(), NoMemory> {
    let (front, back) = bytes.split_at(bytes.len() / 2);
    builder.take(front)?;
    builder.take(back)
}

// The payload of these bytes, which come in two pieces.
fn payload_of(alloc: Global, bytes: &[u8], size: u64) -> Result<Payload, NoMemory> {
    let mut builder = PayloadBuilder::new(alloc, size);
    match take_both(&mut builder, bytes) {
        Ok(()) => Ok(builder.finish()),
        Err(refusal) => Err(refusal),
    }
}

// Whether a body has these bytes.
fn has_bytes(alloc: Global, body: &Body, bytes: &[u8]) -> bool {
    match body.to_vec(alloc) {
        Ok(copy) => copy.as_slice() == bytes,
        Err(_) => false,
    }
}

// Whether the body that is left of a payload has these bytes.
fn leaves(alloc: Global, body: Result<Body, NoMemory>, bytes: &[u8]) -> bool {
    match body {
        Ok(body) => has_bytes(alloc, &body, bytes),
        Err(_) => false,
    }
}

// A text, its size, and its MD5: the first is that of RFC 1321's test suite, the second is `md5sum`'s.
struct Case(&'static [u8], u64, &'static [u8; 32]);

static CASES: [Case; 2] = [
    Case(b"abc", 3, b"900150983cd24fb0d6963f7d28e17f72"),
    Case(b"hello", 5, b"5d41402abc4b2a76b9719d911017c592"),
];

// Whether the payload of the text has that size, that tag, and the text for its body.
impl Row for Case {
    fn holds(&self, alloc: Global) -> bool {
        match payload_of(alloc, self.0, self.1) {
            Ok(payload) => {
                let is_tagged = payload.tag().text().as_bytes() == self.2.as_slice();
                let has_size = self.0.len() as u64 == self.1;
                is_tagged & has_size & leaves(alloc, payload.into_body(), self.0)
            }
            Err(_) => false,
        }
    }
}

/// Whether payloads have their tags and bodies.
pub(crate) fn hold(alloc: Global) -> bool {
    all_hold(alloc, &CASES)
}

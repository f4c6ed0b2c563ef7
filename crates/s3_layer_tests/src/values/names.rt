//! Tests of `s3_names`: the names of buckets and the keys of objects, alone and in maps.

use crate::checks::{Row, all_hold};
use s3_names::{BucketName, Key};
use s3_terms::{Code, NoMemory};
use std::alloc::Global;
use std::collections::BTreeMap;
use std::mem::drop;

// Why the bytes name no bucket.
fn fault_of_name(alloc: Global, name: &[u8]) -> Option<Code> {
    BucketName::read(alloc, name).err()
}

const INVALID: Option<Code> = Some(Code::InvalidBucketName);

// Texts, and why they name no bucket, if they don't.
struct Name(&'static [u8], Option<Code>);

static NAMES: [Name; 21] = [
    Name(b"pail", None),
    Name(b"a.b.c", None),
    Name(b"a-.b", None),
    Name(b"a.-b", None),
    Name(b"1234.5.6", None),
    Name(b"1.2.3.4.5", None),
    Name(b"1.2.3.x", None),
    Name(b"abc", None),
    Name(&[b'a'; 63], None),
    Name(b"", INVALID),
    Name(b"ab", INVALID),
    Name(b"Pail", INVALID),
    Name(b"p_il", INVALID),
    Name(b"-ab", INVALID),
    Name(b"ab-", INVALID),
    Name(b".ab", INVALID),
    Name(b"ab.", INVALID),
    Name(b"a..b", INVALID),
    Name(b"192.168.0.1", INVALID),
    Name(b"1234.5.6.7890", INVALID),
    Name(&[b'a'; 64], INVALID),
];

impl Row for Name {
    fn holds(&self, alloc: Global) -> bool {
        fault_of_name(alloc, self.0) == self.1
    }
}

// A byte, how many of it are read, and why they are no key, if they are none.
struct Repeated(u8, usize, Option<Code>);

impl Row for Repeated {
    fn holds(&self, alloc: Global) -> bool {
        match vec![in alloc; self.0; self.1] {
            Ok(key) => Key::read(alloc, key.as_slice()).err() == self.2,
            Err(_) => false,
        }
    }
}

static KEYS: [Repeated; 4] = [
    Repeated(b'k', 1_024, None),
    Repeated(b'k', 1_025, Some(Code::KeyTooLongError)),
    Repeated(0xff, 1_025, Some(Code::InvalidURI)),
    Repeated(b'k', 0, Some(Code::InvalidURI)),
];

// Whether a copy of the name of these bytes has them, and is the same name.
fn copies_name(alloc: Global, bytes: &[u8]) -> bool {
    match BucketName::read(alloc, bytes) {
        Ok(name) => match name.copy() {
            Ok(copied) => (copied.as_bytes(), &copied) == (bytes, &name),
            Err(_) => false,
        },
        Err(_) => false,
    }
}

// Whether a copy of the key of these bytes has them.
fn copies_key(alloc: Global, bytes: &[u8]) -> bool {
    match Key::read(alloc, bytes) {
        Ok(key) => match key.copy() {
            Ok(copied) => copied.as_bytes() == bytes,
            Err(_) => false,
        },
        Err(_) => false,
    }
}

// Whether the first is below the second, and a map that has a value at a copy of the first alone answers it there, and none at the
// second.
fn are_in_order<K: Ord + Drop>(
    alloc: Global,
    copied: Result<K, NoMemory>,
    low: &K,
    high: &K,
) -> bool {
    let Ok(copy) = copied else {
        return false;
    };
    let mut values = BTreeMap::new(alloc);
    drop(values.insert(copy, 7_u8));
    let found = (values.get(low), values.get(high), *low < *high);
    found == (Some(&7), None, true)
}

fn are_keys_in_order(alloc: Global, low: &[u8], high: &[u8]) -> bool {
    match Key::read(alloc, high) {
        Ok(high) => match Key::read(alloc, low) {
            Ok(low) => are_in_order(alloc, low.copy(), &low, &high),
            Err(_) => false,
        },
        Err(_) => false,
    }
}

fn are_names_in_order(alloc: Global, low: &[u8], high: &[u8]) -> bool {
    match BucketName::read(alloc, high) {
        Ok(high) => match BucketName::read(alloc, low) {
            Ok(low) => are_in_order(alloc, low.copy(), &low, &high),
            Err(_) => false,
        },
        Err(_) => false,
    }
}

/// Whether names of buckets and keys are read so, and copied, and stand in byte order in maps: `/` is below `0`.
pub(crate) fn hold(alloc: Global) -> bool {
    all_hold(alloc, &NAMES)
        && all_hold(alloc, &KEYS)
        && copies_name(alloc, b"pail")
        && copies_key(alloc, b"k\xc3\xa9")
        && are_keys_in_order(alloc, b"a/b", b"a0")
        && are_names_in_order(alloc, b"pail", b"tub")
}

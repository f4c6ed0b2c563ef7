//! Tests of `s3_config`: access keys, and the settings of a server.

use crate::checks::{Row, all_hold};
use s3_config::{Config, Credential};
use s3_names::BucketName;
use s3_terms::{Code, Dialect};
use std::alloc::Global;
use std::mem::drop;

fn key(alloc: Global, id: &[u8], secret: &[u8]) -> Result<Option<Credential>, Code> {
    let id = Vec::from_slice(alloc, id)?;
    match Vec::from_slice(alloc, secret) {
        Ok(secret) => Ok(Credential::new(id, secret)),
        Err(_) => Err(Code::InternalError),
    }
}

// An id, a secret, and whether they are an access key.
struct Case(&'static [u8], &'static [u8], bool);

static CREDENTIALS: [Case; 8] = [
    Case(b"one", b"any byte, / and \n", true),
    Case(&[b'a'; 128], b"s", true),
    Case(&[b'a'; 129], b"s", false),
    Case(b"a,b", b"s", false),
    Case(b"a b", b"s", false),
    Case(b"a/b", b"s", false),
    Case(b"a", b"", false),
    Case(b"", b"s", false),
];

// Whether its parts are an access key that tells its id and its secret, or none, as it says.
impl Row for Case {
    fn holds(&self, alloc: Global) -> bool {
        match key(alloc, self.0, self.1) {
            Ok(Some(key)) => (self.2, key.id(), key.secret()) == (true, self.0, self.1),
            Ok(None) => !self.2,
            Err(_) => false,
        }
    }
}

// The keys of these ids, all with one secret, as far as they are any.
fn keys(alloc: Global, ids: &[&[u8]]) -> Vec<Credential> {
    let mut keys = Vec::new(alloc);
    for id in ids {
        if let Ok(Some(key)) = key(alloc, id, b"secret") {
            drop(keys.push(key));
        }
    }
    keys
}

// The names of buckets, as far as they are any.
fn buckets(alloc: Global, names: &[&[u8]]) -> Vec<BucketName> {
    let mut buckets = Vec::new(alloc);
    for name in names {
        if let Ok(name) = BucketName::read(alloc, name) {
            drop(buckets.push(name));
        }
    }
    buckets
}

// A region, the ids of keys, the greatest body, the names of buckets, and the dialect.
type Parts = (
    &'static [u8],
    &'static [&'static [u8]],
    u64,
    &'static [&'static [u8]],
    Dialect,
);

// The settings of these parts, if they are any; `InternalError` where not each part could be made.
fn config(alloc: Global, parts: &Parts) -> Result<Option<Config>, Code> {
    let keys = keys(alloc, parts.1);
    let buckets = buckets(alloc, parts.3);
    let are_made = keys.len() == parts.1.len() && buckets.len() == parts.3.len();
    match Vec::from_slice(alloc, parts.0) {
        Ok(region) if are_made => { Ok(Config::new(region, keys, 5, parts.2, buckets, parts.4)) }
        _ => Err(Code::InternalError),
    }
}

const ONE: &[&[u8]] = &[b"one"];

const PAIL: &[&[u8]] = &[b"pail"];

// Parts, and whether they are settings.
struct Limit(Parts, bool);

static LIMITS: [Limit; 9] = [
    Limit((b"r", ONE, 0, &[], Dialect::Json), true),
    Limit((b"us-east-1", ONE, 67_108_865, PAIL, Dialect::Json), false),
    Limit((b"us-east-1", ONE, 5_368_709_120, PAIL, Dialect::S3), true),
    Limit((b"us-east-1", ONE, 5_368_709_121, PAIL, Dialect::S3), false),
    Limit(
        (b"us-east-1", &[b"one", b"one"], 5, PAIL, Dialect::Json),
        false,
    ),
    Limit(
        (b"us-east-1", ONE, 5, &[b"pail", b"pail"], Dialect::Json),
        false,
    ),
    Limit((b"us-east-1", &[], 5, PAIL, Dialect::Json), false),
    Limit((b"", ONE, 5, PAIL, Dialect::Json), false),
    Limit((b"us_east", ONE, 5, PAIL, Dialect::Json), false),
];

// Whether the parts are settings, or are none, as it says.
impl Row for Limit {
    fn holds(&self, alloc: Global) -> bool {
        match config(alloc, &self.0) {
            Ok(made) => made.is_some() == self.1,
            Err(_) => false,
        }
    }
}

static GREATEST: Parts = (
    b"us-east-1",
    &[b"one", b"two"],
    67_108_864,
    &[b"pail", b"tub"],
    Dialect::Json,
);

fn tells_its_parts(made: &Config) -> bool {
    let limits = (made.min_part(), made.body_limit(), made.buckets().len());
    let secrets = (made.secret_of(b"two"), made.secret_of(b"three"));
    made.region() == b"us-east-1".as_slice()
        && limits == (5, 67_108_864, 2)
        && secrets == (Some(b"secret".as_slice()), None)
}

// Whether those parts are settings that tell them.
fn tells_settings(alloc: Global) -> bool {
    match config(alloc, &GREATEST) {
        Ok(Some(made)) => tells_its_parts(&made),
        _ => false,
    }
}

/// Whether access keys and settings are made where they may be, and tell their parts.
pub(crate) fn hold(alloc: Global) -> bool {
    all_hold(alloc, &CREDENTIALS) && all_hold(alloc, &LIMITS) && tells_settings(alloc)
}

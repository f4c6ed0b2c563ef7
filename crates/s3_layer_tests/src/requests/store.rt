//! What a store answers to commands, step by step.
use crate::requests::commands::{command_of, cut};
use crate::requests::entries::{
    ABSENT, BUCKETS, COMPLETED_ABSENT, ENABLED, SUSPENDED, UNVERSIONED,
};
use crate::requests::operations::add_outcome;
use crate::texts::is_same;
use s3_calendar::Moment;
use s3_machine::{Answer, Command, Outcome, Rules};
use s3_names::BucketName;
use s3_records::MapRecords;
use s3_store::Store;
use s3_terms::{Code, Dialect, NoMemory};
use s3_test_servers::config;
use std::alloc::Global;
use std::mem::drop;

/// The least size of a part, which is Amazon's: 5 MiB.
const LEAST_PART: u64 = 5_242_880;

/// A store in memory.
pub(crate) type Stored = Store<MapRecords>;

// What stays the same of all entries.
fn rules(alloc: Global) -> Option<Rules> {
    let config = config(alloc, b"us-east-1", LEAST_PART, 67_108_864, &[])?;
    Some(Rules::of(&config))
}

// The answer to this command at that moment.
fn answered(
    alloc: Global,
    store: &mut Stored,
    command: Command,
    moment: Moment,
) -> Result<Answer, Code> {
    let Some(rules) = rules(alloc) else {
        drop(command);
        return Err(Code::InternalError);
    };
    match store.apply(alloc, &rules, command, moment) {
        Ok(answer) => Ok(answer),
        Err(_) => Err(Code::InternalError),
    }
}

/// The answer to this request at that second.
pub(crate) fn answer_to(
    alloc: Global,
    store: &mut Stored,
    asked: &str,
    seconds: u64,
) -> Result<Answer, Code> {
    let (line, body) = cut(asked);
    let moment = Moment::new(seconds).ok_or(Code::InvalidArgument)?;
    match command_of(alloc, Dialect::Json, line, body.as_bytes()) {
        Ok(command) => answered(alloc, store, command, moment),
        Err(code) => Err(code),
    }
}

// Whether that is told of an outcome.
fn is_outcome(alloc: Global, outcome: Outcome, told: &str) -> bool {
    let mut out = Vec::new(alloc);
    add_outcome(alloc, &mut out, outcome);
    is_same(&out, told.as_bytes())
}

// Whether the answer has this number and tells this.
fn is_answer(alloc: Global, answer: Answer, number: u64, told: &str) -> bool {
    let Answer {
        number: given,
        outcome,
    } = answer;
    is_outcome(alloc, outcome, told) & (given == number)
}

// Whether a row holds, as the entry of this number; `None` says that it has no bar.
fn holds(alloc: Global, store: &mut Stored, number: u64, row: &str) -> Option<bool> {
    let (asked, told) = row.split_once('|')?;
    match answer_to(alloc, store, asked, number) {
        Ok(answer) => Some(is_answer(alloc, answer, number, told)),
        Err(_) => Some(false),
    }
}

// The first of these rows that is answered otherwise by the store.
fn first_in(alloc: Global, store: &mut Stored, rows: &'static str) -> Option<&'static str> {
    let mut number = 0_u64;
    for row in rows.split(';') {
        if holds(alloc, store, number, row) != Some(true) {
            return Some(row);
        }
        number = number.saturating_add(1);
    }
    None
}

// Adds the name of these bytes.
fn add_name(alloc: Global, names: &mut Vec<BucketName>, bytes: &[u8]) {
    if let Ok(name) = BucketName::read(alloc, bytes) {
        drop(names.push(name));
    }
}

/// A store with the buckets `pail` and `vat`, one of which is named twice.
pub(crate) fn opened(alloc: Global) -> Result<Stored, NoMemory> {
    let mut names = Vec::new(alloc);
    for name in [b"pail".as_slice(), b"vat", b"pail"] {
        add_name(alloc, &mut names, name);
    }
    let store = Store::open(alloc, names.as_slice());
    drop(names);
    store
}

// The first of these rows that is answered otherwise by a store with nothing in its buckets.
fn first_other(alloc: Global, rows: &'static str) -> Option<&'static str> {
    match opened(alloc) {
        Ok(mut store) => first_in(alloc, &mut store, rows),
        Err(_) => Some("no store"),
    }
}

/// The first row of all that doesn't hold.
pub(crate) fn first_of_all(alloc: Global) -> Option<&'static str> {
    for rows in [
        UNVERSIONED,
        ENABLED,
        SUSPENDED,
        BUCKETS,
        ABSENT,
        COMPLETED_ABSENT,
    ] {
        let other = first_other(alloc, rows);
        if other.is_some() {
            return other;
        }
    }
    None
}

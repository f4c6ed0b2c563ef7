//! A recorded store with a bucket, and four turns of two seats.
use crate::workers::asked::{is_body, turn};
use crate::workers::served::recorded_store;
use s3_config::Config;
use s3_journal::RecordedStore;
use s3_machine::Outcome;
use s3_records::MapRecords;
use std::alloc::Global;
use std::mem::drop;

/// The MD5 of `hello`.
const TAG_OF_HELLO: &[u8] = b"5d41402abc4b2a76b9719d911017c592";

// What came of a command, in a word; none where it isn't what `hello` gives.
fn word_of(alloc: Global, outcome: &Outcome) -> Option<&'static str> {
    match outcome {
        Outcome::Put { tag, shown: None } if tag.text().as_bytes() == TAG_OF_HELLO => {
            Some("stored")
        }
        Outcome::Got { found, .. } if is_body(alloc, &found.stored.body, b"hello") => Some("hello"),
        Outcome::Refused {
            code,
            is_delete_marker: false,
        } => Some(code.name()),
        _ => None,
    }
}

/// A turn: its seat, its key, what it stores if it doesn't read, which it does only where the key has no object, its number, and
/// what comes of it.
type Row = (
    u64,
    &'static [u8],
    Option<&'static [u8]>,
    u64,
    Option<&'static str>,
);

// One seat stores `hello`, another reads it and doesn't replace it, and the first finds nothing under another key.
static TURNS: [Row; 4] = [
    (0, b"a", Some(b"hello"), 0, Some("stored")),
    (1, b"a", None, 1, Some("hello")),
    (1, b"a", Some(b"hello"), 2, Some("PreconditionFailed")),
    (0, b"b", None, 3, Some("NoSuchKey")),
];

// Whether a turn has its number, and what has to come of it does.
fn is_answered(alloc: Global, recorded_store: &mut RecordedStore<MapRecords>, row: &Row) -> bool {
    match turn(alloc, row.1, row.2, true) {
        Some(turn) => match recorded_store.enter(row.0, turn) {
            Ok(answer) => {
                let came = (answer.number, word_of(alloc, &answer.outcome));
                drop(answer);
                came == (row.3, row.4)
            }
            Err(_) => false,
        },
        None => false,
    }
}

// Whether all are answered so, with a fold before each where `folds` says so. At the end the history has these entries after so many
// others, all of which the number of the store's next entry counts.
fn are_answered(
    alloc: Global,
    recorded_store: &mut RecordedStore<MapRecords>,
    folds: bool,
    counts: (u64, u64),
) -> bool {
    for row in &TURNS {
        if folds && recorded_store.fold().is_err() {
            return false;
        }
        if !is_answered(alloc, recorded_store, row) {
            return false;
        }
    }
    (recorded_store.first(), recorded_store.entries()) == counts
        && recorded_store.store().number() == 4
}

/// Whether two seats of a new recorded store are answered as they have to be, without a fold and with a fold before each turn.
pub(crate) fn two_seats_are_answered(alloc: Global, config: &Config) -> bool {
    are_answered_anew(alloc, config, false, (0, 4))
        && are_answered_anew(alloc, config, true, (3, 1))
}

// Whether they are so at a recorded store of their own.
fn are_answered_anew(alloc: Global, config: &Config, folds: bool, counts: (u64, u64)) -> bool {
    match recorded_store(alloc, config) {
        Some(mut recorded_store) => {
            let are_answered = are_answered(alloc, &mut recorded_store, folds, counts);
            drop(recorded_store);
            are_answered
        }
        None => false,
    }
}

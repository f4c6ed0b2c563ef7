//! The entries of a recorded store, and what stands in its history.

use s3_history::Describes;
use s3_machine::{Answer, Turn};
use std::marker::Model;
use std::snapshot::Snapshot;

/// An entry of a recorded store: who asked, the turn, and the answer. It has the bytes of the seat's number alone.
#[derive(Drop)]
pub struct Entry {
    pub seat: u64,
    pub turn: Snapshot<Turn>,
    pub answer: Snapshot<Answer>,
}

impl Model for Entry {
    ghost use Rattle.s3_journal.specs.Recorded.{Recorded, recorded};

    ghost Value = { Recorded };

    ghost view = { λ e. recorded e.seat e.turn.value e.answer.value };
}

/// What stands in the history of a recorded store: an entry, or that all entries before it were committed. No value of it is made:
/// a history consists of them.
pub enum Note {
    Entry(Entry),
    Commit,
}

// An entry is noted.
pub(crate) struct AsEntry;

impl Describes<Entry, Note> for AsEntry {
    ghost use Rattle.s3_journal.specs.declared.entry.Note.TheVariants as notes;

    ghost entry = { λ entry. notes.Entry entry };
}

// It is noted that all entries so far were committed.
pub(crate) struct AsCommit;

impl Describes<(), Note> for AsCommit {
    ghost use Rattle.s3_journal.specs.declared.entry.Note.TheVariants as notes;

    ghost entry = { λ nothing. notes.Commit };
}

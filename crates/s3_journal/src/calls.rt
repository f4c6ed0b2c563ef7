//! The entries of one seat.
ghost use Rattle.std.specs.Prelude.{◌≡◌, ◌++◌, ◌∷◌, [], IfSome};

use crate::entry::Entry;
use s3_history::{AsItself, Recorder};
use std::marker::Model;

/// The entries that a seat was given, which no memory holds. It has a word of its own.
#[derive(Drop)]
pub struct Calls {
    recorder: Recorder<Entry>,
}

impl Model for Calls {
    ghost use Rattle.std.specs.Prelude.{List};
    ghost use Rattle.s3_machine.specs.History.{Entry};
    ghost use Rattle.s3_journal.specs.Recorded.{history_of};

    ghost Value = { List Entry };

    ghost view = { λ c. history_of c.recorder.entries };
}

impl Calls {
    /// No entries. `None` never comes, though no contract can say so.
    pub(crate) fn new() -> Option<Calls>
        ensures { IfSome result (λ calls. calls ≡ []) }
    {
        let Some(recorder) = Recorder::new() else {
            return None;
        };
        Some(Calls { recorder })
    }

    /// One entry more.
    pub(crate) fn add(&mut self, entry: &Entry)
        ensures { self.new ≡ self.old ++ entry.now.entry ∷ [] }
    {
        self.recorder.record::<Entry, AsItself>(entry);
    }
}

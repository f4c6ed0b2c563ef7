//! What is known of a recorded store's history.
ghost use Rattle.std.specs.Prelude.{◌≡◌, ◌⊎◌};
ghost use mathlib.Core.List.{IsPrefix};
ghost use Rattle.s3_journal.specs.Noted.{known_of};

use crate::entry::Note;
use std::marker::Model;

/// What is known of a recorded store's history: a beginning of it, with its commits. It has no bytes. Contracts see which history it
/// is, the entries of that beginning, and those of them that were committed by its end.
#[derive(Drop)]
pub struct Prefix {
    notes: s3_history::Prefix<Note>,
}

impl Model for Prefix {
    ghost use Rattle.s3_journal.specs.Noted.{Known, known_of};

    ghost Value = { Known };

    ghost view = { λ p. known_of p.notes };
}

impl Prefix {
    // What these notes tell.
    pub(crate) fn new(notes: s3_history::Prefix<Note>) -> Prefix
        ensures { result ≡ known_of notes }
    {
        Prefix { notes }
    }

    // The notes that tell it.
    pub(crate) fn notes(&self) -> &s3_history::Prefix<Note>
        ensures { known_of result.now ≡ self.now }
    {
        &self.notes
    }

    /// The same once more.
    pub fn again(&self) -> Prefix
        ensures { result ≡ self.now }
    {
        Prefix {
            notes: self.notes.again(),
        }
    }

    /// Takes in what another knows of the same history.
    pub fn learn(&mut self, other: &Prefix)
        requires { other.now.origin ≡ self.old.origin }
        ensures origin { self.new.origin ≡ self.old.origin }
        ensures kept { IsPrefix self.old.entries self.new.entries }
        ensures learned { IsPrefix other.now.entries self.new.entries }
        ensures committed { IsPrefix self.old.committed self.new.committed }
        ensures more_committed { IsPrefix other.now.committed self.new.committed }
    {
        self.notes.learn(&other.notes);
    }

    /// Of two beginnings of one history one begins the other.
    pub fn meet(&self, other: &Prefix)
        requires { other.now.origin ≡ self.now.origin }
        ensures { IsPrefix self.now.entries other.now.entries ⊎ IsPrefix other.now.entries self.now.entries }
    {
        self.notes.meet(&other.notes);
    }
}

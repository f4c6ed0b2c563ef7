//! What a connection does next.

ghost use Rattle.std.specs.Prelude.{◌≡◌};
ghost use Rattle.s3_connection.specs.Connection.{has_turn_at, is_reading_at, wants_at};

use s3_machine::Turn;
use std::mem;
use std::snapshot::Snapshot;

// What a connection does next.
#[derive(Drop)]
pub(crate) enum Stage {
    // It reads: all that came was taken.
    Reading,
    // This turn waits until somebody takes it.
    Waiting(Turn),
    // This turn was taken, and is to be answered. It has no bytes here.
    HandedOut(Snapshot<Turn>),
    // A turn was answered: it takes what is kept, and hears of the end if that has come.
    Answered,
    // Nothing: no more is read.
    Done,
}

/// What a connection wants, once all that it wrote is out.
#[derive(Clone, Copy)]
pub enum Wants {
    /// More bytes, or the end.
    Input,
    /// That its turn is taken and answered.
    Answer,
    /// That it goes on after an answer.
    ToGoOn,
    /// Nothing: no more is read.
    Nothing,
}

impl Stage {
    // Goes on to what comes next. What the one before holds is dropped here, which costs the proof of each function that does it.
    pub(crate) fn become_next(&mut self, next: Stage)
        ensures { self.new ≡ next }
    {
        drop(mem::replace(self, next));
    }

    // What it wants.
    pub(crate) fn wants(&self) -> Wants
        ensures { result ≡ wants_at self.now }
    {
        match self {
            Stage::Reading => Wants::Input,
            Stage::Waiting(_) | Stage::HandedOut(_) => Wants::Answer,
            Stage::Answered => Wants::ToGoOn,
            Stage::Done => Wants::Nothing,
        }
    }

    // Whether a turn waits until somebody takes it.
    pub(crate) fn has_turn(&self) -> bool
        ensures { result ≡ has_turn_at self.now }
    {
        matches!(self, Stage::Waiting(_))
    }

    // Whether more bytes are read.
    pub(crate) fn is_reading(&self) -> bool
        ensures { result ≡ is_reading_at self.now }
    {
        matches!(self, Stage::Reading)
    }
}

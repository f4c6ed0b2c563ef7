//! That a history was committed.
ghost use Rattle.std.specs.Prelude.{◌≡◌, ◌+◌, length};

use crate::ground::Ground;
use crate::prefix::Prefix;
use std::marker::{Model, PhantomData};

/// That a shared store has committed its history so far, which a commit alone can tell. It has the bytes of a number. Contracts see
/// the entries that were committed.
#[derive(Drop)]
pub struct Committed<J: Ground> {
    known: Prefix,
    // That of the entry after these.
    number: u64,
    of: PhantomData<J>,
}

impl<J: Ground> Model for Committed<J> {
    ghost use Rattle.std.specs.Prelude.{List};
    ghost use Rattle.s3_journal.specs.Recorded.{Recorded};
    ghost use Rattle.s3_journal.specs.SharedStore.{IsCommitted};

    ghost Value = { List Recorded };

    ghost view = { λ c. c.known.entries };

    ghost invariant = { λ c. IsCommitted J.base c.known c.number };
}

impl<J: Ground> Committed<J> {
    // That this history was committed, whose next entry has this number.
    pub(crate) fn new(known: Prefix, number: u64) -> Committed<J>
        requires origin { known.origin ≡ J.base.origin }
        requires committed { known.committed ≡ known.entries }
        requires number { number ≡ J.base.store.number + length known.entries }
        ensures { result ≡ known.entries }
    {
        Committed {
            known,
            number,
            of: PhantomData,
        }
    }

    // What is known of the history, all of which was committed.
    pub(crate) fn known(&self) -> &Prefix
        ensures { result.now ≡ record { origin = J.base.origin; entries = self.now; committed = self.now } }
    {
        &self.known
    }

    /// The number of the entry after those that were committed.
    pub fn number(&self) -> u64
        ensures { result ≡ J.base.store.number + length self.now }
    {
        self.number
    }
}

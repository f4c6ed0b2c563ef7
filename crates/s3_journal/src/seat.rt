//! Who may submit turns to a shared store.
ghost use Rattle.std.specs.Prelude.{◌≡◌, ◌++◌, ◌∷◌, [], ◌+◌, ◌⊎◌, List, length, true, false};
ghost use mathlib.Core.List.{IsPrefix};
ghost use Rattle.s3_journal.specs.Recorded.{Recorded, entries_of_seat, entry_of, recorded};
ghost use Rattle.s3_journal.specs.SharedStore.{IsAmong, IsSeat};

use crate::calls::Calls;
use crate::committed::Committed;
use crate::entry::Entry;
use crate::ground::Ground;
use crate::prefix::Prefix;
use s3_machine::{Answer, Turn};
use std::marker::Model;
use std::snapshot::Snapshot;
use std::sync::ledger::{Book, Share};

/// Who may submit turns to a shared store. It has its number and a word, however much it submits. Contracts see its number, the
/// entries that it was given, the history as far as it has seen it, and those of its entries that it knows to be committed.
#[derive(Drop)]
pub struct Seat<J: Ground> {
    number: u64,
    calls: Calls,
    known: Prefix,
    share: Share<J>,
    // Those of its entries of which it knows that they were committed, and what it knows that by.
    committed: Snapshot<Calls>,
    front: Prefix,
}

impl<J: Ground> Model for Seat<J> {
    ghost use Rattle.s3_journal.specs.SharedStore.{Seated, IsSeat};

    ghost Value = { Seated };

    ghost view = { λ s. record { number = s.number; mine = s.calls; seen = s.known.entries; committed = s.committed.value } };

    ghost invariant = { λ s. IsSeat J.base (record { number = s.number; mine = s.calls; seen = s.known.entries; committed = s.committed.value })
        s.known.origin s.front s.share.parts s.share.amount };
}

impl<J: Ground> Seat<J> {
    // A new seat, which has seen this.
    pub(crate) fn new(number: u64, calls: Calls, known: Prefix, share: Share<J>) -> Seat<J>
        requires origin { known.origin ≡ J.base.origin }
        requires none { calls ≡ [] }
        requires share { (share.parts ≡ 1) × (share.amount ≡ 0) }
        ensures { result ≡ record { number = number; mine = []; seen = known.entries; committed = [] } }
    {
        let committed = Snapshot::of(&calls);
        let front = known.again();
        Seat {
            number,
            calls,
            known,
            share,
            committed,
            front,
        }
    }

    /// Its number. No two seats of a shared store have one.
    pub fn number(&self) -> u64
        ensures { result ≡ self.now.number }
    {
        self.number
    }

    /// Of what two seats of a shared store have seen one begins the other. It takes no memory, and waits for nobody.
    pub fn meet(&self, other: &Seat<J>)
        ensures { IsPrefix self.now.seen other.now.seen ⊎ IsPrefix other.now.seen self.now.seen }
    {
        self.known.meet(&other.known);
    }

    /// What it knows to be committed is a beginning of its entries: a law about it, with nothing to run.
    pub fn commits(&self)
        ensures { IsPrefix self.now.committed self.now.mine }
    {
        let _ = &self.known;
    }

    /// Whether a history that was committed has its last entry, which ends what it has seen and has this answer: then all its entries
    /// were committed, as it knows from now on. It takes no memory.
    pub fn settle(&mut self, answer: &Answer, committed: &Committed<J>) -> bool
        requires last { answer.now.number + 1 ≡ J.base.store.number + length self.old.seen }
        ensures settled { result ≡ true → self.new ≡ record self.old { committed = self.old.mine } }
        ensures unsettled { result ≡ false → self.new ≡ self.old }
    {
        if answer.number >= committed.number() {
            return false;
        }
        self.known.meet(committed.known());
        self.front = committed.known().again();
        self.committed = Snapshot::of(&self.calls);
        true
    }

    // What it has seen, which has all that it was given.
    pub(crate) fn known(&self) -> &Prefix
        ensures origin { result.now.origin ≡ J.base.origin }
        ensures entries { result.now.entries ≡ self.now.seen }
        ensures among { IsAmong self.now.mine (entries_of_seat self.now.number self.now.seen) }
    {
        &self.known
    }

    // Takes the answer of a turn as an entry of its own, which ends the history that it has then seen.
    pub(crate) fn take(
        &mut self,
        asked: Snapshot<Turn>,
        answer: &Answer,
        known: Prefix,
        calls: &mut Book<J>,
    )
        requires origin { known.origin ≡ J.base.origin }
        requires seen { (earlier : List Recorded) × IsPrefix self.old.seen earlier
            × (known.entries ≡ earlier ++ recorded self.old.number asked.value answer.now ∷ []) }
        ensures seat { self.new
            ≡ record { number = self.old.number; mine = self.old.mine ++ entry_of asked.value answer.now ∷ []; seen = known.entries; committed = self.old.committed } }
        ensures total { calls.new.total ≡ calls.old.total + 1 }
    {
        self.calls.add(&Entry {
            seat: self.number,
            turn: asked,
            answer: Snapshot::of(answer),
        });
        calls.add(&mut self.share, 1);
        self.known = known;
    }

    // Takes in how far the history is.
    pub(crate) fn see(&mut self, known: Prefix)
        requires origin { known.origin ≡ J.base.origin }
        requires begins { IsPrefix self.old.seen known.entries }
        ensures { self.new ≡ record { number = self.old.number; mine = self.old.mine; seen = known.entries; committed = self.old.committed } }
    {
        self.known = known;
    }

    // Its number, its entries, what it has seen, its share of the ledger, and those of its entries that it knows to be committed, with
    // what it knows that by.
    pub(crate) fn into_parts(self) -> (u64, Calls, Prefix, Share<J>, Snapshot<Calls>, Prefix)
        ensures number { result.0 ≡ self.number }
        ensures calls { result.1 ≡ self.mine }
        ensures known { result.2.entries ≡ self.seen }
        ensures origin { result.2.origin ≡ J.base.origin }
        ensures seat { IsSeat J.base self result.2.origin result.5 result.3.parts result.3.amount }
        ensures committed { result.4.value ≡ self.committed }
        ensures front { result.5.origin ≡ J.base.origin }
    {
        let Seat {
            number,
            calls,
            known,
            share,
            committed,
            front,
        } = self;
        (number, calls, known, share, committed, front)
    }
}

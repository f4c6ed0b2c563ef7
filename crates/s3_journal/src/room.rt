//! What lies under a shared store's lock.
ghost use Rattle.std.specs.Prelude.{◌≡◌, ◌++◌, ◌∷◌, [], ◌*◌, length, true, false, IfOk, IfSome, IsSome, OnErr};
ghost use mathlib.Core.List.{IsPrefix};
ghost use Rattle.s3_journal.specs.RecordedStore.{KeepsHistory, MayLack};
ghost use Rattle.s3_journal.specs.Calls.{HasAnswered, IsAnswered, LacksMemory};
ghost use Rattle.s3_journal.specs.SharedStore.{Continues, seats_each};
ghost use Rattle.s3_journal.specs.Gone.{IsClosed};
ghost use Rattle.s3_journal.specs.Recorded.{recorded};
ghost use Rattle.s3_journal.specs.Roster.{AreBack, all_gone};

use crate::committed::Committed;
use crate::gather::gather;
use crate::gone::Report;
use crate::ground::Ground;
use crate::prefix::Prefix;
use crate::recorded_store::RecordedStore;
use crate::roster::Roster;
use crate::seat::Seat;
use s3_machine::{Answer, Turn};
use s3_records::{CommitError, Records};
use s3_terms::NoMemory;
use std::marker::Model;
use std::snapshot::Snapshot;
use std::sync::ledger::{self, Share};

/// What lies under a shared store's lock. Contracts see the history.
#[derive(Drop)]
pub(crate) struct Room<J: Ground, R: Records + Drop> {
    recorded_store: RecordedStore<R>,
    calls: ledger::Book<J>,
    // What the rosters left of the ledger's shares, which is nothing.
    spare: Share<J>,
    rosters: u16,
}

impl<J: Ground, R: Records + Drop> Model for Room<J, R> {
    ghost use Rattle.std.specs.Prelude.{List};
    ghost use Rattle.s3_journal.specs.SharedStore.{IsRoom};
    ghost use Rattle.s3_journal.specs.Recorded.{Recorded};

    ghost Value = { List Recorded };

    ghost view = { λ r. r.recorded_store.entries };

    ghost invariant = { λ r. IsRoom J.base J.parts r.rosters r.recorded_store r.calls.total r.spare.parts r.spare.amount };
}

/// What a shared store leaves: its recorded store, and its rosters as they were given back, of which contracts alone know.
#[derive(Drop)]
pub struct Closed<J: Ground, R: Records + Drop, P: Report> {
    pub recorded_store: RecordedStore<R>,
    pub rosters: Snapshot<Vec<Roster<J, P>>>,
}

// Answers a turn for a seat that knows this much of the recorded store's history.
fn answer_turn<R: Records + Drop>(
    recorded_store: &mut RecordedStore<R>,
    known: &Prefix,
    seat: u64,
    turn: Turn,
) -> Result<Answer, NoMemory>
    requires { known.now.origin ≡ recorded_store.old.origin }
    ensures answered { IfOk result (λ answer. HasAnswered recorded_store.old recorded_store.new seat turn answer) }
    ensures begins { IsPrefix known.now.entries recorded_store.old.entries }
    ensures keeps { KeepsHistory recorded_store.old }
    ensures err { OnErr result (recorded_store.new ≡ recorded_store.old) }
    ensures memory { OnErr result (MayLack R.is_in_memory recorded_store.old.rules recorded_store.old.store turn) }
{
    recorded_store.check(known);
    let _ = recorded_store.store();
    let answer = recorded_store.enter(seat, turn)?;
    let _ = recorded_store.store();
    Ok(answer)
}

impl<J: Ground, R: Records + Drop> Room<J, R> {
    /// A room of so many rosters, to which nobody has come.
    pub(crate) fn new(
        recorded_store: RecordedStore<R>,
        calls: ledger::Book<J>,
        spare: Share<J>,
        rosters: u16,
    ) -> Room<J, R>
        requires parts { J.parts ≡ rosters * seats_each }
        requires recorded_store { Continues J.base recorded_store × (recorded_store.entries ≡ []) }
        requires calls { calls.total ≡ 0 }
        requires spare { (spare.parts ≡ 0) × (spare.amount ≡ 0) }
    {
        Room {
            recorded_store,
            calls,
            spare,
            rosters,
        }
    }

    /// Answers a turn for a seat.
    pub(crate) fn answer(&mut self, seat: &mut Seat<J>, turn: Turn) -> Result<Answer, NoMemory>
        ensures answered { IfOk result (λ answer. IsAnswered J.base seat.old seat.new turn answer) }
        ensures entry { IfOk result (λ answer. self.new ≡ self.old ++ recorded seat.old.number turn answer ∷ []) }
        ensures memory { OnErr result (LacksMemory R.is_in_memory J.base seat.old seat.new turn) }
        ensures err { OnErr result (self.new ≡ self.old) }
        ensures begins { IsPrefix seat.old.seen self.old }
        ensures seen { seat.new.seen ≡ self.new }
        ensures committed { seat.new.committed ≡ seat.old.committed }
    {
        let asked = Snapshot::of(&turn);
        match answer_turn(&mut self.recorded_store, seat.known(), seat.number(), turn) {
            Ok(answer) => {
                seat.take(
                    asked,
                    &answer,
                    self.recorded_store.prefix(),
                    &mut self.calls,
                );
                let _ = seat.known();
                Ok(answer)
            }
            Err(none) => {
                seat.see(self.recorded_store.prefix());
                Err(none)
            }
        }
    }

    /// Commits all turns so far, and tells so.
    pub(crate) fn commit(&mut self) -> Result<Committed<J>, CommitError>
        ensures committed { IfOk result (λ committed. committed ≡ self.old) }
        ensures same { self.new ≡ self.old }
        ensures memory { OnErr result (R.is_in_memory ≡ false) }
    {
        match self.recorded_store.commit() {
            Ok(()) => {
                let number = self.recorded_store.store().number();
                Ok(Committed::new(self.recorded_store.prefix(), number))
            }
            Err(error) => Err(error),
        }
    }

    /// What is left when all rosters have come back.
    pub(crate) fn close<P: Report>(self, rosters: Vec<Roster<J, P>>) -> Option<Closed<J, R, P>>
        ensures closed { IfSome result (λ closed. IsClosed (P.fits J.base) J.base closed.recorded_store (all_gone rosters.items)) }
        ensures rosters { IfSome result (λ closed. closed.rosters.value ≡ rosters) }
        ensures back { IfSome result (λ closed. AreBack 0 rosters.items) }
        ensures some { AreBack 0 rosters.items → length rosters.items * seats_each ≡ J.parts → IsSome result }
    {
        if rosters.len() != usize::from(self.rosters) {
            return None;
        }
        let all = Snapshot::of(&rosters);
        let recorded_store = self.into_recorded_store(rosters)?;
        Some(Closed {
            recorded_store,
            rosters: all,
        })
    }

    // Its recorded store, where all rosters that come back are at their places.
    fn into_recorded_store<P: Report>(self, rosters: Vec<Roster<J, P>>) -> Option<RecordedStore<R>>
        requires all { length rosters.items * seats_each ≡ J.parts }
        ensures closed { IfSome result (λ recorded_store. IsClosed (P.fits J.base) J.base recorded_store (all_gone rosters.items)) }
        ensures back { IfSome result (λ recorded_store. AreBack 0 rosters.items) }
        ensures some { AreBack 0 rosters.items → IsSome result }
    {
        let Room {
            mut recorded_store,
            mut calls,
            mut spare,
            rosters: _,
        } = self;
        if !gather(&mut recorded_store, &mut spare, rosters) {
            return None;
        }
        calls.audit(&mut spare);
        let _ = recorded_store.store();
        Some(recorded_store)
    }
}

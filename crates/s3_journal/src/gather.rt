//! Rosters, when they are handed out and when they come back.
ghost use Rattle.std.specs.Prelude.{◌≡◌, ◌*◌, ◌==◌, ◌&&◌, true, length, IfOk, OnOk};
ghost use Rattle.std.specs.BTreeSet.{btree_set_len};
ghost use Rattle.s3_journal.specs.Noted.{front_of};
ghost use Rattle.s3_journal.specs.SharedStore.{seats_each};
ghost use Rattle.s3_journal.specs.Roster.{AreBack, AreNew, HasGathered, WasTaken};

use crate::gone::Report;
use crate::ground::{Ground, SEATS};
use crate::prefix::Prefix;
use crate::recorded_store::RecordedStore;
use crate::roster::Roster;
use s3_records::Records;
use s3_terms::NoMemory;
use std::alloc::Global;
use std::sync::ledger::Share;

// So many rosters, which have all these shares, over a history of which this is known.
pub(crate) fn hand_out<J: Ground, P: Report>(
    alloc: Global,
    count: u16,
    known: &Prefix,
    shares: &mut Share<J>,
) -> Result<Vec<Roster<J, P>>, NoMemory>
    requires origin { known.now.origin ≡ J.base.origin }
    requires parts { shares.old.parts ≡ count * seats_each }
    requires amount { shares.old.amount ≡ 0 }
    ensures new { IfOk result (λ rosters. AreNew 0 rosters.items) }
    ensures len { IfOk result (λ rosters. length rosters.items ≡ count) }
    ensures parts { OnOk result (shares.new.parts ≡ 0) }
    ensures amount { OnOk result (shares.new.amount ≡ 0) }
{
    let mut rosters = Vec::new(alloc);
    for index in 0..count {
        let share = shares.split_off(SEATS, 0);
        let roster = Roster::new(alloc, index, known.again(), share)?;
        rosters.push(roster)?;
    }
    Ok(rosters)
}

// Takes a roster back, where it is that of this index and nobody is out, and answers whether it is.
fn take_back<J: Ground, R: Records + Drop, P: Report>(
    recorded_store: &mut RecordedStore<R>,
    shares: &mut Share<J>,
    roster: Roster<J, P>,
    index: usize,
) -> bool
    requires origin { recorded_store.old.origin ≡ J.base.origin }
    ensures is { result ≡ (roster.index == index && btree_set_len roster.numbers.out == 0) }
    ensures recorded_store { recorded_store.new ≡ recorded_store.old }
    ensures taken { result ≡ true
        → WasTaken (P.fits J.base) J.base recorded_store.old.entries (front_of recorded_store.old.committed) roster shares.old.parts shares.old.amount shares.new.parts shares.new.amount }
{
    if !roster.is_back(index) {
        return false;
    }
    let (known, share) = roster.into_parts();
    recorded_store.check(&known);
    shares.merge(share);
    true
}

// Takes all rosters back, and answers whether they are those of the indices from 0 on, in order, with nobody out.
pub(crate) fn gather<J: Ground, R: Records + Drop, P: Report>(
    recorded_store: &mut RecordedStore<R>,
    shares: &mut Share<J>,
    rosters: Vec<Roster<J, P>>,
) -> bool
    requires origin { recorded_store.old.origin ≡ J.base.origin }
    requires parts { shares.old.parts ≡ 0 }
    requires amount { shares.old.amount ≡ 0 }
    ensures recorded_store { recorded_store.new ≡ recorded_store.old }
    ensures gathered { result ≡ true
        → HasGathered (P.fits J.base) recorded_store.old.entries (front_of recorded_store.old.committed) 0 rosters.items shares.new.parts shares.new.amount }
    ensures back { AreBack 0 rosters.items → result ≡ true }
{
    let mut rosters = rosters;
    while let Some(roster) = rosters.pop() {
        if !take_back(recorded_store, shares, roster, rosters.len()) {
            return false;
        }
    }
    true
}

//! The store.
ghost use Rattle.std.specs.Prelude.{◌≡◌, ◌≢◌, List, [], ◌∷◌, true, false, if◌then◌else◌, IfOk, OnOk, OnErr, IsTrue};
ghost use Rattle.s3_records.specs.Catalogue.{opening};
ghost use Rattle.s3_records.specs.Leaving.{IsOneOf, StaysKnown};
ghost use Rattle.s3_records.specs.Places.{AreBelow};
ghost use Rattle.s3_store.specs.Steps.{opened, after_step, outcome_of};
ghost use Rattle.s3_store.specs.Stored.{IsCounted};
ghost use Rattle.s3_machine.specs.Effects.{is_refused, takes_room};
ghost use Rattle.s3_machine.specs.Step.{State};

use crate::take::take;
use s3_bodies::Body;
use s3_calendar::Moment;
use s3_machine::{Answer, Command, Rules, steps_keep};
use s3_names::BucketName;
use s3_records::{CommitError, MapRecords, Records, numbers_stay_below};
use s3_terms::NoMemory;
use std::alloc::Global;
use std::marker::Model;

/// Buckets, with their versions and open uploads and the bytes of these. Contracts see where a store stands, which is its state
/// and the number of the next entry, and the records that it has, of which `Records` tells what a crash leaves. They also see the
/// number behind the last entry that changed something, or behind those before the store began. Its type keeps that the number of
/// the next entry is above those of the entries that made the versions.
#[derive(Drop)]
pub struct Store<R: Records> {
    records: R,
    number: u64,
    changed: u64,
}

impl<R: Records> Model for Store<R> {
    ghost use Rattle.s3_records.specs.Places.{AreBelow};
    ghost use Rattle.s3_store.specs.Stored.{Stored, coded_stored};

    ghost Value = { Stored R };

    ghost coded = { coded_stored R.code };

    ghost view = { λ store. record { standing = record { state = R.catalogue store.records; number = store.number }; records = store.records; changed = store.changed } };

    ghost invariant = { λ store. AreBelow store.number (R.catalogue store.records) };
}

impl<R: Records> Store<R> {
    /// The store that a keeper's records are, whose next entry has this number. It has to be above those of the entries that made
    /// the versions there. It takes no memory.
    pub fn over(records: R, number: u64) -> Store<R>
        requires below { AreBelow number (R.catalogue records) }
        ensures standing { result.standing ≡ record { state = R.catalogue records; number = number } }
        ensures records { result.records ≡ records }
        ensures changed { result.changed ≡ number }
    {
        Store {
            records,
            number,
            changed: number,
        }
    }
}

impl Store<MapRecords> {
    /// The store with these buckets, which are unversioned and empty, and were made at moment 0. A name that stands
    /// twice is one bucket. The names are copied. The next entry has the number 0.
    ///
    /// # Errors
    ///
    /// `NoMemory` where there is no memory for the buckets. It comes only where there is a name.
    pub fn open(alloc: Global, buckets: &[BucketName]) -> Result<Store<MapRecords>, NoMemory>
        ensures value { IfOk result (λ store. store.standing ≡ opened (opening buckets.now)) }
        ensures memory { OnErr result (buckets.now ≢ []) }
    {
        numbers_stay_below::<Body>();
        let records = MapRecords::of_buckets(alloc, buckets)?;
        Ok(Store::over(records, 0))
    }
}

impl<R: Records + Drop> Store<R> {
    /// The number of the next entry: how many commands the store has answered.
    pub fn number(&self) -> u64
        ensures { result ≡ self.now.standing.number }
    {
        self.number
    }

    /// Takes one step: does what the command asks for at this moment, and answers it under the number of its entry
    /// (`number`).
    ///
    /// What it does and answers is `step` of `s3_machine`. `docs/PROTOCOL.md` has the rules, which are those of the
    /// Amazon S3 API Reference, and all refusals. A refusal is an answer and no error.
    ///
    /// No step copies the bytes of a version or of a part: they are moved or shared.
    ///
    /// # Errors
    ///
    /// `NoMemory` leaves the store where it stood; the command is dropped. It comes where memory runs out, and where the
    /// numbers are used up, after 2^64 - 1 commands. If the records are in memory and numbers are left, it comes only
    /// for a command that isn't refused and takes room.
    pub fn apply(
        &mut self,
        alloc: Global,
        rules: &Rules,
        command: Command,
        moment: Moment,
    ) -> Result<Answer, NoMemory>
        ensures state { OnOk result (self.new.standing ≡ after_step rules.now self.old.standing moment command) }
        ensures answer { IfOk result (λ answer. answer
            ≡ record { number = self.old.standing.number; outcome = outcome_of rules.now self.old.standing moment command }) }
        ensures err { OnErr result (self.new.standing ≡ self.old.standing) }
        ensures memory { OnErr result (R.is_in_memory ≡ true → self.old.standing.number ≢ 18446744073709551615
            → is_refused (outcome_of rules.now self.old.standing moment command) ≡ false) }
        ensures room { OnErr result (R.is_in_memory ≡ true → self.old.standing.number ≢ 18446744073709551615
            → IsTrue (takes_room self.old.standing.state command)) }
        ensures stays { StaysKnown R.leaves_one_of self.old.records self.new.records }
        ensures changed { OnOk result (IsCounted self.old self.new) }
        ensures kept { OnErr result (self.new.changed ≡ self.old.changed) }
    {
        steps_keep();
        let number = self.number;
        if number == u64::MAX {
            drop(command);
            return Err(NoMemory);
        }
        let only_reads = command.only_reads();
        let outcome = take(&mut self.records, alloc, rules, command, number, moment)?;
        self.number = number + 1;
        let is_refused = outcome.is_refused();
        self.changed = counted(self.changed, self.number, only_reads, is_refused);
        Ok(Answer { number, outcome })
    }

    /// Commits all changes so far, as `Records::commit` says: answers may be told after it. After a crash no entry gets a number of
    /// one that changed something.
    ///
    /// # Errors
    ///
    /// Those of `Records::commit`. The store stands where it stood. Records in memory have no error here.
    pub fn commit(&mut self) -> Result<(), CommitError>
        ensures settled { OnOk result (R.leaves_one_of self.new.records (self.new.standing.state ∷ [])) }
        ensures in_doubt { (known : List State) → R.leaves_one_of self.old.records known
            → R.leaves_one_of self.new.records (self.old.standing.state ∷ known) }
        ensures numbered { OnOk result (R.leaves_number self.new.records self.old.changed) }
        ensures same { self.new.standing ≡ self.old.standing }
        ensures kept { self.new.changed ≡ self.old.changed }
        ensures memory { OnErr result (R.is_in_memory ≡ false) }
    {
        self.records.commit(self.changed)
    }

    /// That what a crash leaves of the records is one of the states of which that is known, as `Records::outlive_crashes` says. It
    /// costs nothing.
    pub fn outlive_crashes(&self)
        ensures { (known : List State) (left : State)
            → R.leaves_one_of self.now.records known → R.leaves self.now.records left → IsOneOf left known }
    {
        self.records.outlive_crashes();
    }
}

// The number behind the last entry that changed something, after one of which this is the number behind it.
fn counted(changed: u64, number: u64, only_reads: bool, is_refused: bool) -> u64
    ensures { result ≡ (if only_reads then changed else if is_refused then changed else number) }
{
    if only_reads || is_refused {
        changed
    } else {
        number
    }
}

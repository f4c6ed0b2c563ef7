//! The recorded store.
ghost use Rattle.std.specs.Prelude.{◌≡◌, ◌≢◌, ◌++◌, ◌∷◌, List, [], false, length, Some, None, IfOk, IfSome, OnOk, OnErr};
ghost use mathlib.Core.List.{IsPrefix};
ghost use Rattle.s3_machine.specs.Step.{State};
ghost use Rattle.s3_journal.specs.RecordedStore.{HasEntries, KeepsHistory, MayLack, LastsFrom};
ghost use Rattle.s3_journal.specs.Noted.{begun_with, front_of};
ghost use Rattle.s3_journal.specs.Recorded.{Recorded, recorded};
ghost use Rattle.s3_store.specs.Steps.{after_step, outcome_of};

use crate::entry::{AsCommit, AsEntry, Entry, Note};
use crate::prefix::Prefix;
use s3_history::{AsItself, Recorder};
use s3_machine::{Answer, Rules, Turn, one_more_entry};
use s3_records::{CommitError, Records};
use s3_store::Store;
use s3_terms::NoMemory;
use std::alloc::Global;
use std::marker::Model;
use std::snapshot::Snapshot;

/// A store, and the history of the commands that it answered and of its commits, which no memory holds.
///
/// Contracts see which history it is, and the rules of its server. They see the store as it was when the recorded store was
/// opened, the entries since then, and the store as it is; and the entries as they were at the last commit that answered `Ok`.
/// Its type keeps that the entries are a legal history, which leads from the one to the other; and, where a commit has answered
/// `Ok`, that what a crash leaves is the state after a beginning of it that has all entries committed (`outlive_crashes`).
#[derive(Drop)]
pub struct RecordedStore<R: Records + Drop> {
    store: Store<R>,
    rules: Rules,
    alloc: Global,
    recorder: Recorder<Note>,
    // The store at the opening, as the one entry of a history of its own.
    opening: s3_history::Prefix<Store<R>>,
    first: u64,
    // Whether nothing was answered since a commit.
    is_settled: bool,
}

impl<R: Records + Drop> Model for RecordedStore<R> {
    ghost use Rattle.std.specs.Prelude.{◌≡◌, [], ◌∷◌, IfSome, false};
    ghost use Rattle.std.specs.Coded.{codes};
    ghost use Rattle.s3_store.specs.Steps.{coded_standing};
    ghost use Rattle.s3_journal.specs.RecordedStore.{Journal, KeepsHistory, LastsFrom, told_or};
    ghost use Rattle.s3_journal.specs.Noted.{committed_in, ends_with_commit, entries_in};

    ghost Value = { Journal };

    ghost coded = { Prim.hlevel (codes, coded_standing) };

    ghost view = { λ b. record {
      origin = b.recorder.origin;
      rules = b.rules;
      opening = (told_or b.opening.entries b.store).standing;
      entries = entries_in b.recorder.entries;
      store = b.store.standing;
      committed = committed_in b.recorder.entries;
    } };

    ghost invariant = { λ b. (b.opening.entries ≡ told_or b.opening.entries b.store ∷ [])
        × KeepsHistory (record {
          origin = b.recorder.origin;
          rules = b.rules;
          opening = (told_or b.opening.entries b.store).standing;
          entries = entries_in b.recorder.entries;
          store = b.store.standing;
          committed = committed_in b.recorder.entries;
        })
        × (b.first ≡ (told_or b.opening.entries b.store).standing.number)
        × IfSome (committed_in b.recorder.entries) (LastsFrom (R.leaves_one_of b.store.records) b.rules
        (told_or b.opening.entries b.store).standing.state (entries_in b.recorder.entries))
        × (b.is_settled ≡ ends_with_commit false b.recorder.entries) };
}

impl<R: Records + Drop> RecordedStore<R> {
    /// A recorded store that opens with this store, with no entry. All commands go by these rules. What the records have is
    /// committed first, so that a crash leaves the store as it opens, or nothing.
    ///
    /// # Errors
    ///
    /// `NoMemory` where that commit fails. Of records in memory it never comes, though no contract can say so.
    pub fn new(alloc: Global, rules: Rules, store: Store<R>) -> Result<RecordedStore<R>, NoMemory>
        ensures { IfOk result (λ recorded_store.
            recorded_store ≡ record { origin = recorded_store.origin; rules = rules; opening = store.standing; entries = []; store = store.standing; committed = Some [] }) }
    {
        let mut store = store;
        match store.commit() {
            Ok(()) => RecordedStore::begin(alloc, rules, store),
            Err(_) => {
                drop(store);
                Err(NoMemory)
            }
        }
    }

    // The same with a store that was committed.
    fn begin(alloc: Global, rules: Rules, store: Store<R>) -> Result<RecordedStore<R>, NoMemory>
        requires settled { R.leaves_one_of store.records (store.standing.state ∷ []) }
        ensures { IfOk result (λ recorded_store.
            recorded_store ≡ record { origin = recorded_store.origin; rules = rules; opening = store.standing; entries = []; store = store.standing; committed = Some [] }) }
    {
        let Some(recorder) = begun(true) else {
            return Err(NoMemory);
        };
        let opening = told(&store)?;
        Ok(RecordedStore {
            first: first_of(&store),
            opening,
            store,
            rules,
            alloc,
            recorder,
            is_settled: true,
        })
    }

    /// Folds the history: it begins anew and empty, at the store as it is, whose next entry has the number that it would have had.
    /// So the two histories, one after another, are the history without a fold (`histories_are_cut_anywhere` of `s3_machine`), and
    /// every later answer is as it would have been. It copies nothing, and takes the same time whatever the store holds. Where all
    /// entries were committed, a crash leaves the state with which the new history begins. Else nothing is known of commits before it.
    ///
    /// # Errors
    ///
    /// `NoMemory` leaves all as it was. It never comes, though no contract can say so.
    pub fn fold(&mut self) -> Result<(), NoMemory>
        ensures ok { OnOk result (self.new
            ≡ record { origin = self.new.origin; rules = self.old.rules; opening = self.old.store; entries = []; store = self.old.store; committed = self.new.committed }) }
        ensures settled { OnOk result (self.old.committed ≡ Some self.old.entries → self.new.committed ≡ Some []) }
        ensures unsettled { OnOk result (self.old.committed ≢ Some self.old.entries → self.new.committed ≡ None) }
        ensures err { OnErr result (self.new ≡ self.old) }
    {
        let Some(recorder) = begun(self.is_settled) else {
            return Err(NoMemory);
        };
        let opening = told(&self.store)?;
        self.first = first_of(&self.store);
        self.opening = opening;
        self.recorder = recorder;
        Ok(())
    }

    /// The number of the first entry, whether it is there yet or not: how many commands were answered before the history began. It
    /// takes no memory.
    pub fn first(&self) -> u64
        ensures { result ≡ self.now.opening.number }
    {
        self.first
    }

    /// Answers a turn at the store, as one entry more of the history. The entry has this seat's number.
    ///
    /// The command is applied at the moment of its turn, by `Store::apply`, whose costs it has. Nothing is stored for
    /// the entry.
    ///
    /// # Errors
    ///
    /// `NoMemory` leaves the recorded store as it was; the turn is dropped. It comes where memory runs out, and where the numbers
    /// are used up. If the rows are in memory and numbers are left, it comes only for a command that isn't refused and
    /// takes room.
    pub fn enter(&mut self, seat: u64, turn: Turn) -> Result<Answer, NoMemory>
        ensures entry { IfOk result (λ answer. self.new.entries ≡ self.old.entries ++ recorded seat turn answer ∷ []) }
        ensures answer { IfOk result (λ answer. answer
            ≡ record { number = self.old.store.number; outcome = outcome_of self.old.rules self.old.store turn.moment turn.command }) }
        ensures store { IfOk result (λ answer. self.new.store ≡ after_step self.old.rules self.old.store turn.moment turn.command) }
        ensures rules { self.new.rules ≡ self.old.rules }
        ensures opening { self.new.opening ≡ self.old.opening }
        ensures origin { self.new.origin ≡ self.old.origin }
        ensures committed { self.new.committed ≡ self.old.committed }
        ensures err { OnErr result (self.new ≡ self.old) }
        ensures memory { OnErr result (MayLack R.is_in_memory self.old.rules self.old.store turn) }
    {
        one_more_entry();
        let asked = Snapshot::of(&turn);
        let Turn { command, moment } = turn;
        let answer = self.store.apply(self.alloc, &self.rules, command, moment)?;
        let entry = Entry {
            seat,
            turn: asked,
            answer: Snapshot::of(&answer),
        };
        self.recorder.record::<Entry, AsEntry>(&entry);
        self.is_settled = false;
        Ok(answer)
    }

    /// Commits all entries so far, as `Records::commit` says: their answers may be told after it.
    ///
    /// # Errors
    ///
    /// Those of `Records::commit`. The recorded store is as it was, as contracts see it. Records in memory have no error here.
    pub fn commit(&mut self) -> Result<(), CommitError>
        ensures ok { OnOk result (self.new ≡ record self.old { committed = Some self.old.entries }) }
        ensures err { OnErr result (self.new ≡ self.old) }
        ensures memory { OnErr result (R.is_in_memory ≡ false) }
    {
        match self.store.commit() {
            Ok(()) => {
                self.recorder.record::<(), AsCommit>(&());
                self.is_settled = true;
                Ok(())
            }
            Err(error) => Err(error),
        }
    }

    /// The store, with what is known of a crash now. Where a commit answered `Ok` since the history began, a crash leaves nothing, or
    /// the state after a beginning of the history that has all entries which were there at the last such commit, and that is known of
    /// the records (`leaves_one_of`). Else nothing is known of it. It costs nothing.
    pub fn outlive_crashes(&self) -> &Store<R>
        ensures value { result.now.standing ≡ self.now.store }
        ensures lasts { (front : List Recorded) (left : State) → self.now.committed ≡ Some front → R.leaves result.now.records left
            → HasEntries self.now front left }
        ensures known { IfSome self.now.committed (LastsFrom (R.leaves_one_of result.now.records) self.now.rules self.now.opening.state self.now.entries) }
    {
        self.store.outlive_crashes();
        &self.store
    }

    /// The store as it is, to which the history leads. The history is legal, so that every law of `s3_machine` about legal
    /// histories holds of it, and begins with what was committed.
    pub fn store(&self) -> &Store<R>
        ensures value { result.now.standing ≡ self.now.store }
        ensures history { KeepsHistory self.now }
        ensures committed { IsPrefix (front_of self.now.committed) self.now.entries }
    {
        &self.store
    }

    /// How many entries the history has.
    pub fn entries(&self) -> u64
        ensures { result ≡ length self.now.entries }
    {
        self.store.number() - self.first
    }

    /// What is known of the history now: all of it.
    pub fn prefix(&self) -> Prefix
        ensures { result ≡ record { origin = self.now.origin; entries = self.now.entries; committed = front_of self.now.committed } }
    {
        Prefix::new(self.recorder.prefix())
    }

    /// What is known of the history begins it, and what is known to be committed begins what is.
    pub fn check(&mut self, known: &Prefix)
        requires { known.now.origin ≡ self.old.origin }
        ensures same { self.new ≡ self.old }
        ensures begins { IsPrefix known.now.entries self.old.entries }
        ensures committed { IsPrefix known.now.committed (front_of self.old.committed) }
    {
        self.recorder.check(known.notes());
    }
}

// A new history: with a commit, if all before it was committed.
fn begun(is_settled: bool) -> Option<Recorder<Note>>
    ensures { IfSome result (λ recorder. recorder.entries ≡ begun_with is_settled) }
{
    let mut recorder = Recorder::new()?;
    if is_settled {
        recorder.record::<(), AsCommit>(&());
    }
    Some(recorder)
}

// The number of the first entry of a history that opens with this store.
fn first_of<R: Records + Drop>(store: &Store<R>) -> u64
    ensures { result ≡ store.now.standing.number }
{
    store.number()
}

// A history whose one entry is this store.
fn told<R: Records + Drop>(store: &Store<R>) -> Result<s3_history::Prefix<Store<R>>, NoMemory>
    ensures { IfOk result (λ told. told.entries ≡ store.now ∷ []) }
{
    let Some(mut recorder) = Recorder::new() else {
        return Err(NoMemory);
    };
    recorder.record::<Store<R>, AsItself>(store);
    Ok(recorder.prefix())
}

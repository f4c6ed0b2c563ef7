//! Who comes to one worker, and who has left it.
ghost use Rattle.std.specs.Prelude.{◌≡◌, ◌++◌, ◌∷◌, [], ◌==◌, ◌&&◌, ◌||◌, if◌then◌else◌, ℕ, true, false, IfOk, OnOk, OnErr};
ghost use Rattle.std.specs.BTreeSet.{btree_set_len};
ghost use mathlib.Core.List.{IsPrefix};
ghost use Rattle.s3_journal.specs.SharedStore.{seats_each};
ghost use Rattle.s3_journal.specs.Roster.{IsNew, IsNumberOf, IsRoster, is_out};

use crate::calls::Calls;
use crate::gone::{AsGone, Gone, Leaving, Report};
use crate::ground::{Ground, SEATS};
use crate::numbers::Numbers;
use crate::prefix::Prefix;
use crate::seat::Seat;
use s3_history::{Describes, Recorder};
use s3_terms::NoMemory;
use std::alloc::Global;
use std::marker::Model;
use std::snapshot::Snapshot;
use std::sync::ledger::Share;

/// Who comes to one worker, and who has left it. It is one thread's, and needs no lock.
///
/// Contracts see which roster of its shared store it is, the numbers that are out and the next one, each that has left with its
/// entries and what was told of it, and the history as far as these had seen it.
#[derive(Drop)]
pub struct Roster<J: Ground, P: Report> {
    index: u16,
    numbers: Numbers,
    share: Share<J>,
    known: Prefix,
    gone: Recorder<Gone<P>>,
}

impl<J: Ground, P: Report> Model for Roster<J, P> {
    ghost use Rattle.s3_journal.specs.Roster.{IsRoster, Rostered};

    ghost Value = { Rostered P };

    ghost view = { λ r. record { index = r.index; numbers = r.numbers; gone = r.gone.entries; seen = r.known.entries } };

    ghost invariant = { λ r. IsRoster (P.fits J.base) J.base (record { index = r.index; numbers = r.numbers; gone = r.gone.entries; seen = r.known.entries })
        r.known.origin r.known.committed r.share.parts r.share.amount };
}

// Notes one that has left.
fn note<X, P, D: Describes<X, P>>(
    gone: &mut Recorder<Gone<P>>,
    number: u64,
    calls: &Calls,
    known: &Prefix,
    committed: Snapshot<Calls>,
    about: &X,
)
    ensures { gone.new.entries
        ≡ gone.old.entries ++ record { number = number; calls = calls.now; seen = known.now.entries; committed = committed.value; report = D.entry about.now } ∷ [] }
{
    let leaving = Leaving {
        number,
        calls: Snapshot::of(calls),
        seen: Snapshot::of(known),
        committed,
        about: Snapshot::of(about),
    };
    gone.record::<Leaving<X>, AsGone<D>>(&leaving);
}

impl<J: Ground, P: Report> Roster<J, P> {
    // The roster of this index, with all its shares, to which nobody has come.
    pub(crate) fn new(
        alloc: Global,
        index: u16,
        known: Prefix,
        share: Share<J>,
    ) -> Result<Roster<J, P>, NoMemory>
        requires origin { known.origin ≡ J.base.origin }
        requires parts { share.parts ≡ seats_each }
        requires amount { share.amount ≡ 0 }
        ensures { IfOk result (λ roster. IsNew index roster) }
    {
        let Some(gone) = Recorder::new() else {
            return Err(NoMemory);
        };
        Ok(Roster {
            index,
            numbers: Numbers::new(alloc, u64::from(index) * SEATS),
            share,
            known,
            gone,
        })
    }

    /// A seat for one who comes, which was given nothing yet. It has seen what those who have left this roster had.
    ///
    /// # Errors
    ///
    /// `NoMemory` leaves the roster as it was. It comes where there is no room for the seat's number, and where all numbers of the
    /// roster were given, which are 2^40 but one.
    pub fn seat(&mut self) -> Result<Seat<J>, NoMemory>
        ensures mine { IfOk result (λ seat. seat.mine ≡ []) }
        ensures seen { IfOk result (λ seat. seat.seen ≡ self.old.seen) }
        ensures number { IfOk result (λ seat. IsNumberOf self.old.index seat.number) }
        ensures fresh { IfOk result (λ seat. is_out self.old.numbers seat.number ≡ false) }
        ensures out { IfOk result (λ seat. (n : ℕ) → is_out self.new.numbers n ≡ (n == seat.number || is_out self.old.numbers n)) }
        ensures index { self.new.index ≡ self.old.index }
        ensures gone { self.new.gone ≡ self.old.gone }
        ensures same { self.new.seen ≡ self.old.seen }
        ensures err { OnErr result (self.new ≡ self.old) }
    {
        let Some(calls) = Calls::new() else {
            return Err(NoMemory);
        };
        let number = self
            .numbers
            .give(u64::from(self.index) * SEATS + (SEATS - 1))?;
        let share = self.share.split_off(1, 0);
        Ok(Seat::new(number, calls, self.known.again(), share))
    }

    /// Whether the seat of this number is one that it gave and that is out. It takes no memory.
    pub fn has(&self, number: u64) -> bool
        ensures { result ≡ is_out self.now.numbers number }
    {
        self.numbers.has(number)
    }

    /// Takes a seat back, with what `D` tells of a value. That has to fit the seat's entries, and the seat has to be one that this
    /// roster gave. It takes no memory.
    pub fn leave<X, D: Describes<X, P>>(&mut self, seat: Seat<J>, about: &X)
        requires fits { P.fits J.base (D.entry about.now) seat.mine seat.committed }
        requires out { is_out self.old.numbers seat.number ≡ true }
        ensures gone { self.new.gone
            ≡ self.old.gone ++ record { number = seat.number; calls = seat.mine; seen = seat.seen; committed = seat.committed; report = D.entry about.now } ∷ [] }
        ensures out { (n : ℕ) → is_out self.new.numbers n ≡ (if n == seat.number then false else is_out self.old.numbers n) }
        ensures index { self.new.index ≡ self.old.index }
        ensures known { IsPrefix self.old.seen self.new.seen }
        ensures learned { IsPrefix seat.seen self.new.seen }
    {
        let (number, calls, known, share, committed, mut front) = seat.into_parts();
        note::<X, P, D>(&mut self.gone, number, &calls, &known, committed, about);
        self.numbers.take(number);
        front.learn(&known);
        self.known.learn(&front);
        self.share.merge(share);
    }

    /// Takes back a seat to which nobody has come: it was given nothing, and leaves no account. Its number isn't given again. It takes
    /// no memory.
    pub fn take_unused(&mut self, seat: Seat<J>)
        requires unused { seat.mine ≡ [] }
        requires out { is_out self.old.numbers seat.number ≡ true }
        ensures gone { self.new.gone ≡ self.old.gone }
        ensures out { (n : ℕ) → is_out self.new.numbers n ≡ (if n == seat.number then false else is_out self.old.numbers n) }
        ensures index { self.new.index ≡ self.old.index }
        ensures known { IsPrefix self.old.seen self.new.seen }
        ensures learned { IsPrefix seat.seen self.new.seen }
    {
        let (number, _, known, share, _, _) = seat.into_parts();
        self.numbers.take(number);
        self.known.learn(&known);
        self.share.merge(share);
    }

    // Whether it is the roster of this index, and nobody who came to it is out.
    pub(crate) fn is_back(&self, index: usize) -> bool
        ensures { result ≡ (self.now.index == index && btree_set_len self.now.numbers.out == 0) }
    {
        usize::from(self.index) == index && self.numbers.is_empty()
    }

    // What is known of the history, and its shares.
    pub(crate) fn into_parts(self) -> (Prefix, Share<J>)
        ensures known { result.0 ≡ record { origin = J.base.origin; entries = self.seen; committed = result.0.committed } }
        ensures roster { IsRoster (P.fits J.base) J.base self result.0.origin result.0.committed result.1.parts result.1.amount }
    {
        let Roster {
            index: _,
            numbers: _,
            share,
            known,
            gone: _,
        } = self;
        (known, share)
    }
}

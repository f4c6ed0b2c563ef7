//! What is known of those who have left a shared store.

use crate::calls::Calls;
use crate::prefix::Prefix;
use s3_history::Describes;
use std::marker::{Model, PhantomData};
use std::snapshot::Snapshot;

/// What is told of who leaves a shared store. No value of it is made: a history consists of them, which stands in the proofs
/// alone.
pub trait Report {
    ghost use Rattle.std.specs.Prelude.{List};
    ghost use Rattle.s3_machine.specs.History.{Entry};
    ghost use Rattle.s3_journal.specs.SharedStore.{Base};

    // What is told fits the entries that a seat was given, and those of them that it knew to be committed, at a shared store that
    // stands on this.
    ghost fits: { Base → Self → List Entry → List Entry → Type 0 };
}

/// Nothing is told.
impl Report for () {
    ghost use Rattle.s3_journal.specs.Gone.{NothingIsTold};

    ghost fits = { NothingIsTold };
}

/// A seat that has left: its number, the entries that it was given, the history as far as it had seen it, those of its entries that
/// it knew to be committed, and what was told of it. No value of it is made.
pub struct Gone<P> {
    number: u64,
    calls: Snapshot<Calls>,
    seen: Snapshot<Prefix>,
    committed: Snapshot<Calls>,
    report: Snapshot<P>,
}

impl<P> Model for Gone<P> {
    ghost use Rattle.s3_journal.specs.Gone as rules;

    ghost Value = { rules.Gone P };

    ghost view = { λ g. record { number = g.number; calls = g.calls.value; seen = g.seen.value.entries; committed = g.committed.value; report = g.report.value } };
}

// What a seat leaves with. It has the bytes of the number alone.
#[derive(Drop)]
pub(crate) struct Leaving<X> {
    pub(crate) number: u64,
    pub(crate) calls: Snapshot<Calls>,
    pub(crate) seen: Snapshot<Prefix>,
    pub(crate) committed: Snapshot<Calls>,
    pub(crate) about: Snapshot<X>,
}

// The seat that has left, with the report that `D` tells.
pub(crate) struct AsGone<D>(PhantomData<D>);

impl<X, P, D: Describes<X, P>> Describes<Leaving<X>, Gone<P>> for AsGone<D> {
    ghost entry = { λ leaving. record { number = leaving.number; calls = leaving.calls.value; seen = leaving.seen.value.entries; committed = leaving.committed.value; report = D.entry leaving.about.value } };
}

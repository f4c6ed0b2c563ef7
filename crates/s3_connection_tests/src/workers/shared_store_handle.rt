//! A seat at a shared store as what answers the turns of a connection.
ghost use Rattle.std.specs.Prelude.{◌≡◌};

use s3_driver::StoreHandle;
use s3_history::AsItself;
use s3_journal::{Ground, Roster, Seat, SharedStore};
use s3_machine::{Answer, Turn};
use s3_records::MapRecords;
use s3_terms::NoMemory;
use std::marker::Model;
use std::sync::Wait;

/// A seat of its own at a store in memory that many share. Contracts see the seat.
#[derive(Drop)]
pub(crate) struct SharedStoreHandle<'a, J: Ground, W: Wait> {
    rt: &'a W,
    store: &'a SharedStore<J, MapRecords>,
    seat: Seat<J>,
}

impl<'a, J: Ground, W: Wait> Model for SharedStoreHandle<'a, J, W> {
    ghost use Rattle.s3_journal.specs.SharedStore.{Seated};

    ghost Value = { Seated };

    ghost view = { λ handle. handle.seat };
}

impl<'a, J: Ground, W: Wait> SharedStoreHandle<'a, J, W> {
    /// The handle of this seat.
    pub(crate) fn new(
        rt: &'a W,
        store: &'a SharedStore<J, MapRecords>,
        seat: Seat<J>,
    ) -> SharedStoreHandle<'a, J, W>
        ensures { result ≡ seat }
    {
        SharedStoreHandle { rt, store, seat }
    }

    /// Gives the seat back to the roster that it is from.
    pub(crate) fn leave(self, roster: &mut Roster<J, ()>) {
        let SharedStoreHandle {
            rt: _,
            store: _,
            seat,
        } = self;
        leave(seat, roster);
    }
}

impl<J: Ground, W: Wait> StoreHandle for SharedStoreHandle<'_, J, W> {
    ghost use Rattle.std.specs.Prelude.{true};
    ghost use Rattle.s3_machine.specs.Rules.{rules_of};
    ghost use Rattle.s3_journal.specs.RecordedStore.{MayLack};
    ghost use Rattle.s3_journal.specs.Calls.{left_by};

    ghost entries = { λ handle. handle.mine };

    // What it has then seen is no older than what it had seen before.
    ghost may_lack = { λ handle turn. MayLack true (rules_of J.base.settings) (left_by J.base handle.seen) turn };

    fn call(&mut self, turn: Turn) -> Result<Answer, NoMemory> {
        self.store.submit(self.rt, &mut self.seat, turn)
    }
}

/// Gives a seat back to a roster, if it is from there.
pub(crate) fn leave<J: Ground>(seat: Seat<J>, roster: &mut Roster<J, ()>) {
    if roster.has(seat.number()) {
        roster.leave::<(), AsItself>(seat, &());
    }
}

//! Where a connection has the answers to its commands from.

ghost use Rattle.std.specs.Prelude.{◌≡◌, List, [], ◌∷◌, ◌++◌, IfOk, OnErr};
ghost use Rattle.s3_machine.specs.History.{Entry};
ghost use Rattle.s3_machine.specs.declared.turn.Turn.{Turn};
ghost use Rattle.s3_journal.specs.Recorded.{entry_of};

use s3_journal::RecordedStore;
use s3_machine::{Answer, Turn};
use s3_records::Records;
use s3_terms::NoMemory;

/// Where the turns of one connection are answered: a store of its own, or a seat at one that many share. A call may wait for
/// others.
///
/// Contracts see the entries that were made through it, and for which turns memory may be lacking.
pub trait StoreHandle {
    ghost entries: { Self → List Entry };

    ghost may_lack: { Self → Turn → Type 0 };

    /// Answers a turn, which is one entry more, or leaves all as it was where memory runs out.
    fn call(&mut self, turn: Turn) -> Result<Answer, NoMemory>
        ensures entry { IfOk result (λ answer. entries self.new ≡ entries self.old ++ entry_of turn answer ∷ []) }
        ensures same { OnErr result (entries self.new ≡ entries self.old) }
        ensures memory { OnErr result (may_lack self.new turn) };
}

/// A recorded store of its own: what one thread serves, each turn at once.
#[derive(Drop)]
pub struct RecordedStoreHandle<R: Records + Drop> {
    /// The recorded store.
    pub recorded_store: RecordedStore<R>,
    /// The seat that its entries have.
    pub seat: u64,
}

impl<R: Records + Drop> StoreHandle for RecordedStoreHandle<R> {
    ghost use Rattle.s3_journal.specs.Recorded.{entries_of_seat};
    ghost use Rattle.s3_journal.specs.RecordedStore.{MayLack};

    ghost entries = { λ handle. entries_of_seat handle.seat handle.recorded_store.entries };

    ghost may_lack = { λ handle turn. MayLack R.is_in_memory handle.recorded_store.rules handle.recorded_store.store turn };

    fn call(&mut self, turn: Turn) -> Result<Answer, NoMemory> {
        self.recorded_store.enter(self.seat, turn)
    }
}

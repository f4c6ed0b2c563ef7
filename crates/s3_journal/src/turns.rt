//! Turns that are answered in one go.
ghost use Rattle.std.specs.Prelude.{◌≡◌, ◌++◌, ◌∷◌, [], false, IfOk, OnErr};
ghost use Rattle.std.specs.Sync.Mutex.{mutex_guard_value};
ghost use mathlib.Core.List.{IsPrefix};
ghost use Rattle.s3_journal.specs.Calls.{IsAnswered, LacksMemory};
ghost use Rattle.s3_journal.specs.Recorded.{recorded};

use crate::committed::Committed;
use crate::ground::Ground;
use crate::room::Room;
use crate::seat::Seat;
use s3_machine::{Answer, Turn};
use s3_records::{CommitError, Records};
use s3_terms::NoMemory;
use std::marker::Model;
use std::sync::MutexGuard;

/// A batch of turns under way at a shared store. Nobody else's turn comes between two of them. Contracts see the shared store's
/// history.
///
/// It holds the shared store's lock until it is committed or dropped.
#[derive(Drop)]
pub struct Turns<'a, J: Ground, R: Records + Drop> {
    room: MutexGuard<'a, Room<J, R>>,
}

impl<'a, J: Ground, R: Records + Drop> Model for Turns<'a, J, R> {
    ghost use Rattle.std.specs.Prelude.{List};
    ghost use Rattle.std.specs.Sync.Mutex.{mutex_guard_value};
    ghost use Rattle.s3_journal.specs.Recorded.{Recorded};

    ghost Value = { List Recorded };

    ghost view = { λ t. mutex_guard_value t.room };
}

impl<'a, J: Ground, R: Records + Drop> Turns<'a, J, R> {
    // A batch in which no turn was answered.
    pub(crate) fn new(room: MutexGuard<'a, Room<J, R>>) -> Turns<'a, J, R>
        ensures { result ≡ mutex_guard_value room.entry }
    {
        Turns { room }
    }

    /// Answers a seat's turn: one entry more of the history, and of the seat's. So the turns of a batch are entries that follow one
    /// another, in the order in which they were answered here.
    ///
    /// # Errors
    ///
    /// `NoMemory` leaves the history as it was, and the seat has only seen more of it. If the rows are in memory and numbers are
    /// left, the turn takes room at the state that the seat has then seen, and the machine doesn't refuse it there.
    pub fn answer(&mut self, seat: &mut Seat<J>, turn: Turn) -> Result<Answer, NoMemory>
        ensures answered { IfOk result (λ answer. IsAnswered J.base seat.old seat.new turn answer) }
        ensures entry { IfOk result (λ answer. self.new ≡ self.old ++ recorded seat.old.number turn answer ∷ []) }
        ensures memory { OnErr result (LacksMemory R.is_in_memory J.base seat.old seat.new turn) }
        ensures err { OnErr result (self.new ≡ self.old) }
        ensures begins { IsPrefix seat.old.seen self.old }
        ensures seen { seat.new.seen ≡ self.new }
        ensures committed { seat.new.committed ≡ seat.old.committed }
    {
        self.room.answer(seat, turn)
    }

    /// Commits the turns of the batch and all before them, lets the lock go, and tells so: their answers may be told
    /// (`Seat::settle`). The recorded store has committed them, and `RecordedStore::outlive_crashes` says what a crash leaves then.
    ///
    /// # Errors
    ///
    /// `CommitError::NoMemory`: the caller may ask again, by an empty batch. `CommitError::Failed`: no answer of the batch may be
    /// told. The turns are entries of the history in either case. Records in memory have no error here.
    pub fn commit(self) -> Result<Committed<J>, CommitError>
        ensures committed { IfOk result (λ committed. committed ≡ self.entry) }
        ensures memory { OnErr result (R.is_in_memory ≡ false) }
    {
        let Turns { mut room } = self;
        let committed = room.commit();
        drop(room);
        committed
    }
}

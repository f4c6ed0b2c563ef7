//! The shared store.
ghost use Rattle.std.specs.Prelude.{◌≡◌, ◌⊎◌, ◌*◌, length, IfOk, IfSome, IsSome, OnErr};
ghost use Rattle.s3_journal.specs.Calls.{IsAnswered, IsUntold, LacksMemory};
ghost use Rattle.s3_journal.specs.SharedStore.{seats_each};
ghost use Rattle.s3_journal.specs.Gone.{IsClosed};
ghost use Rattle.s3_journal.specs.Roster.{AreBack, AreNew, all_gone};

use crate::gather::hand_out;
use crate::gone::Report;
use crate::ground::{Ground, Start};
use crate::room::{Closed, Room};
use crate::roster::Roster;
use crate::seat::Seat;
use crate::turns::Turns;
use s3_machine::{Answer, Turn};
use s3_records::Records;
use s3_terms::NoMemory;
use std::alloc::Global;
use std::sync::{Mutex, MutexGuard, Wait};
use std::thread::yield_now;

/// How often a turn tries the lock before its thread sleeps until it is free.
const TRIES: u32 = 1024;

/// A store that many share, each from a thread of its own if it likes. Its recorded store is under one lock. The brand `J` says
/// what it stands on. Who comes to it and who has left it stands in its rosters, of which each worker has one.
#[derive(Drop)]
pub struct SharedStore<J: Ground, R: Records + Drop> {
    room: Mutex<Room<J, R>>,
}

impl<J: Ground, R: Records + Drop> SharedStore<J, R> {
    /// Opens a shared store, with as many rosters as its start says, in the order of their indices. The brand has to say what it
    /// stands on, and that the rosters have all parts of its ledger.
    ///
    /// # Errors
    ///
    /// `NoMemory` where there is no room for the list of rosters.
    pub fn open<P: Report>(
        alloc: Global,
        start: Start<R>,
    ) -> Result<(SharedStore<J, R>, Vec<Roster<J, P>>), NoMemory>
        requires name { J.name ≡ start.name }
        requires base { J.base ≡ start.base }
        requires parts { J.parts ≡ start.rosters * seats_each }
        ensures new { IfOk result (λ opened. AreNew 0 opened.1.items) }
        ensures len { IfOk result (λ opened. length opened.1.items ≡ start.rosters) }
    {
        let (recorded_store, calls, mut shares, count) = start.into_parts::<J>();
        let rosters = hand_out::<J, P>(alloc, count, &recorded_store.prefix(), &mut shares)?;
        let room = Room::new(recorded_store, calls, shares, count);
        Ok((
            SharedStore {
                room: Mutex::new(room),
            },
            rosters,
        ))
    }

    /// Begins a batch of turns. It waits for the lock, and holds it until the batch is committed or dropped. It takes no memory.
    pub fn turns(&self, rt: &impl Wait) -> Turns<'_, J, R> {
        Turns::new(self.enter(rt))
    }

    /// Answers a seat's turn as a batch of its own, and commits it: one entry more of the shared store's history, and of the seat's.
    ///
    /// It waits for the lock, and promises what it does if it returns. It holds the lock for one step of the store and its
    /// commit. Reading, verifying and printing are the caller's, without the lock.
    ///
    /// # Errors
    ///
    /// `NoMemory` leaves the recorded store as it was, and the seat has only seen more of the history. If the rows are in memory
    /// and numbers are left, the turn takes room at the state that the seat has then seen, and the machine doesn't
    /// refuse it there.
    ///
    /// It is `NoMemory` too where the commit fails, which never happens if the rows are in memory. After a failed commit the entry
    /// is in the history and the seat's, although its answer wasn't told.
    pub fn submit(&self, rt: &impl Wait, seat: &mut Seat<J>, turn: Turn) -> Result<Answer, NoMemory>
        ensures answered { IfOk result (λ answer. IsAnswered J.base seat.old seat.new turn answer) }
        ensures memory { OnErr result (LacksMemory R.is_in_memory J.base seat.old seat.new turn
            ⊎ IsUntold R.is_in_memory J.base seat.old seat.new turn) }
    {
        let mut turns = self.turns(rt);
        let answer = turns.answer(seat, turn)?;
        match turns.commit() {
            Ok(_) => Ok(answer),
            Err(_) => {
                drop(answer);
                Err(NoMemory)
            }
        }
    }

    // Takes the lock, or waits for it. Most turns are short, and a thread that sleeps is woken late: so it tries the lock a
    // while before it does, and has others run meanwhile.
    fn enter(&self, rt: &impl Wait) -> MutexGuard<'_, Room<J, R>> {
        for _ in 0..TRIES {
            if let Some(guard) = self.room.try_lock() {
                return guard;
            }
            yield_now();
        }
        self.room.lock(rt)
    }

    /// Ends the shared store, to which all rosters come back, and hands out its recorded store with what the rosters knew.
    ///
    /// The recorded store's history is legal. It has of each who has left just the entries that this was given, in their order,
    /// and no others. It waits for nobody, compares no entries, and takes no memory. `None` comes where a roster is not at its
    /// place or somebody who came to one is still out, and else only where one is missing; nothing is left of the shared store
    /// then.
    pub fn close<P: Report>(self, rosters: Vec<Roster<J, P>>) -> Option<Closed<J, R, P>>
        ensures closed { IfSome result (λ closed. IsClosed (P.fits J.base) J.base closed.recorded_store (all_gone rosters.items)) }
        ensures rosters { IfSome result (λ closed. closed.rosters.value ≡ rosters) }
        ensures back { IfSome result (λ closed. AreBack 0 rosters.items) }
        ensures some { AreBack 0 rosters.items → length rosters.items * seats_each ≡ J.parts → IsSome result }
    {
        let SharedStore { room } = self;
        room.into_inner().close(rosters)
    }
}

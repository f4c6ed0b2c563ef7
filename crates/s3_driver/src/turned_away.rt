//! Connections that come where there is no place for them.

ghost use Rattle.std.specs.Prelude.{◌≡◌, ◌++◌, ◌∷◌, ◌==◌, if◌then◌else◌, ℕ, [], true, false};
ghost use Rattle.s3_devices.specs.Recorded.{untouched};
ghost use Rattle.s3_journal.specs.Roster.{is_out};
ghost use Rattle.s3_driver.specs.Account.{turned_away};

use crate::account::{Account, AsTurnedAway};
use crate::driver::Driver;
use crate::laws::{connections_are_served, connections_have_written};
use s3_devices::Stream;
use s3_journal::{Ground, Roster, Seat};
use std::alloc::Global;
use std::mem::drop;

/// Has a connection leave for which there is no place or no memory: nothing is read from it, and nothing written. Hands its
/// stream out. It takes no memory.
pub fn turn_away<J: Ground, S: Stream + Drop>(
    alloc: Global,
    stream: S,
    seat: Seat<J>,
    roster: &mut Roster<J, Account>,
) -> S
    requires traffic { S.Device.traffic stream ≡ untouched seat.number }
    requires entries { seat.mine ≡ [] }
    requires out { is_out roster.old.numbers seat.number ≡ true }
    ensures gone { roster.new.gone
        ≡ roster.old.gone ++ record { number = seat.number; calls = []; seen = seat.seen; committed = seat.committed; report = turned_away seat.number } ∷ [] }
    ensures out { (n : ℕ) → is_out roster.new.numbers n ≡ (if n == seat.number then false else is_out roster.old.numbers n) }
    ensures index { roster.new.index ≡ roster.old.index }
    ensures stream { S.Device.traffic result ≡ S.Device.traffic stream }
{
    // What is written of a connection of which nothing came is as it has to be.
    connections_are_served();
    connections_have_written();
    drop(Driver::new(alloc));
    seat.commits();
    roster.leave::<S, AsTurnedAway<S>>(seat, &stream);
    stream
}

//! What a worker asks of those that serve its connections.

ghost use Rattle.std.specs.Prelude.{◌≡◌, ◌==◌, ◌++◌, ◌∷◌, [], if◌then◌else◌, ℕ, Bool, true, false, List, map, Option, Some, None, option_map, IfOk, IfErr, OnErr};

use crate::socket::Socket;
use mio::{Registry, Token};
use s3_calendar::Moment;
use s3_driver::Moved;
use s3_records::CommitError;
use std::alloc::Global;
use std::io::ErrorKind;
use std::sync::Wait;
use std::time::{Clock, Instant};

/// What serves the connections of a worker, which knows nothing else of them: so what it does with them is proved
/// without what they are made of, and without their drops.
///
/// A connection, before and after it is opened, can't be dropped by a worker, since its types have no bound that says so: it leaves by
/// the door. Contracts see by which number it is known, which doesn't change, whose place is whose, which numbers a door handed out
/// and which of them are out.
pub trait Service: Sized {
    // The number of one that has come, of a connection, of one that was answered, and of the one in a place; whether the one of
    // a number came by a door and hasn't left; and that what the store did for one that was answered was committed.
    ghost arrival_number: { Self.Arrival → ℕ };

    ghost held_number: { Self.Held → ℕ };

    ghost answered_number: { Self.Answered → ℕ };

    ghost occupant: { Self.Place → Option ℕ };

    ghost is_out: { Self.Door → ℕ → Bool };

    ghost handed: { Self.Door → List ℕ };

    ghost is_committed: { Self.Answered → Type 0 };

    /// By what connections come to a worker, and leave it.
    type Door;

    /// One that has come.
    type Arrival;

    /// A connection.
    type Held;

    /// A place for one, in which it is or isn't.
    type Place;

    /// One whose turn has come to the store, and which hasn't heard the answer.
    type Answered;

    /// Turns at the store that are taken in one go.
    type Turns;

    /// That a commit answered `Ok`: what it committed.
    type Committed: Drop;

    /// What is waited with, and what tells the time.
    type Runtime: Wait + Clock;

    /// The same.
    fn runtime(&self) -> &Self::Runtime;

    /// What gives memory.
    fn memory(&self) -> Global;

    /// The next that has come. The error says why there is none: `WouldBlock` where nobody waits.
    fn accept(door: &mut Self::Door) -> Result<Self::Arrival, ErrorKind>
        ensures handed { IfOk result (λ arrival. handed door.new ≡ handed door.old ++ arrival_number arrival ∷ []) }
        ensures out { IfOk result (λ arrival. is_out door.new (arrival_number arrival) ≡ true) }
        ensures none { OnErr result (handed door.new ≡ handed door.old) };

    /// Has the door report who waits already, under a token.
    fn report_waiting(door: &mut Self::Door, registry: &Registry, token: Token)
        ensures { door.new ≡ door.old };

    /// Whether the peer of one that has come has gone: nothing came, and nothing will.
    fn has_gone(arrival: &Self::Arrival) -> bool;

    /// Has one leave for which there is no slot.
    fn turn_away(&self, arrival: Self::Arrival, door: &mut Self::Door)
        ensures out { (n : ℕ) → is_out door.new n ≡ (if n == arrival_number arrival then false else is_out door.old n) };

    /// Opens the connection of this number, which came at a time, or gives back what came where there is no memory for it.
    fn open(
        &self,
        arrival: Self::Arrival,
        number: u64,
        now: Instant,
    ) -> Result<Self::Held, Self::Arrival>
        ensures opened { IfOk result (λ held. held_number held ≡ arrival_number arrival) }
        ensures back { IfErr result (λ back. arrival_number back ≡ arrival_number arrival) };

    /// Its socket.
    fn socket<'h>(held: &'h Self::Held) -> &'h Socket;

    /// Has it go on as far as it can without waiting, and says how it moved.
    fn go_on(&self, held: &mut Self::Held, buffer: &mut [u8], moment: Moment, now: Instant) -> Moved
        ensures number { held_number held.new ≡ held_number held.old };

    /// Begins to take turns to the store. It waits for the store, and others wait until they are committed.
    fn begin(&self) -> Self::Turns;

    /// Takes the turn of a connection to the store at a time, if it has one. Its place has this key.
    fn submit(held: Self::Held, key: usize, turns: &mut Self::Turns, now: Instant) -> Self::Answered
        ensures number { answered_number result ≡ held_number held };

    /// Commits the turns, and all that came to the store before them. By what it answers they may hear their answers (`may_hear`).
    ///
    /// # Errors
    ///
    /// `CommitError::NoMemory` where that isn't known yet: it may be asked again by no turns at all. `CommitError::Failed` where what
    /// keeps the records has failed, for good: no answer may be told that no earlier commit allowed.
    fn commit(turns: Self::Turns) -> Result<Self::Committed, CommitError>;

    /// The key of its place.
    fn key(answered: &Self::Answered) -> usize;

    /// Whether a connection may hear its answer: what the store did for it was committed, by this commit or an earlier one.
    fn may_hear(one: &mut Self::Answered, committed: &Self::Committed) -> bool
        ensures committed { result ≡ true → is_committed one.new }
        ensures number { answered_number one.new ≡ answered_number one.old };

    /// Gives a connection its answer, which it tells when it goes on. Its times count from the one at which its turn was taken.
    fn hear(&self, one: Self::Answered) -> Self::Held
        requires committed { is_committed one }
        ensures number { held_number result ≡ answered_number one };

    /// Has one leave that hasn't heard its answer, which it isn't told.
    fn leave_untold(&self, one: Self::Answered, door: &mut Self::Door)
        ensures out { (n : ℕ) → is_out door.new n ≡ (if n == answered_number one then false else is_out door.old n) };

    /// Has it leave.
    fn leave(held: Self::Held, door: &mut Self::Door)
        ensures out { (n : ℕ) → is_out door.new n ≡ (if n == held_number held then false else is_out door.old n) };

    /// Adds an empty place, and answers whether there was memory for it.
    fn add_place(&self, places: &mut Vec<Self::Place>) -> bool
        ensures places { map occupant places.new.items ≡ map occupant places.old.items ++ (if result then None ∷ [] else []) };

    /// Puts a connection into a place, and hands out the one that was there, if one was.
    fn put(place: &mut Self::Place, held: Self::Held) -> Option<Self::Held>
        ensures occupant { occupant place.new ≡ Some (held_number held) }
        ensures before { option_map held_number result ≡ occupant place.old };

    /// Takes the connection of a place, if there is one.
    fn take(place: &mut Self::Place) -> Option<Self::Held>
        ensures occupant { occupant place.new ≡ None }
        ensures taken { option_map held_number result ≡ occupant place.old };

    /// The connection of a place, if there is one.
    fn held<'p>(place: &'p Self::Place) -> Option<&'p Self::Held>;

    /// The same, to go on.
    fn held_mut<'p>(place: &'p mut Self::Place) -> Option<&'p mut Self::Held>;

    /// Has all leave that are still there, and gives the memory back that they were held in. Nothing more is written: those that
    /// haven't heard their answers are told none.
    fn leave_all(
        &self,
        places: Vec<Self::Place>,
        answered: Vec<Self::Answered>,
        door: &mut Self::Door,
    );

    /// Since when it waits for its next message, or for its peer's end, if it does.
    fn idle_since(held: &Self::Held) -> Option<Instant>;

    /// Since when the head of a message is on its way, if one is.
    fn head_since(held: &Self::Held) -> Option<Instant>;

    /// Whether it has waited too long.
    fn is_over(held: &Self::Held, now: Instant) -> bool;

    /// Whether its peer speaks another protocol, from its first byte on.
    fn begins_no_head(held: &Self::Held) -> bool;
}

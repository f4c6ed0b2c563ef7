//! A connection that a worker serves.

ghost use Rattle.std.specs.Prelude.{◌≡◌, ◌≢◌, ◌⊎◌, ◌<◌, ◌≤◌, ◌+◌, ◌++◌, ◌∷◌, ◌==◌, if◌then◌else◌, ℕ, [], length, true, false, None, Some, IfOk, IfSome};
ghost use Rattle.s3_connection.specs.Connection.{turn_of};
ghost use Rattle.s3_devices.specs.Recorded.{untouched};
ghost use Rattle.s3_journal.specs.Roster.{is_out};
ghost use Rattle.s3_driver.specs.Account.{Fits};
ghost use Rattle.s3_driver.specs.Served.{HasMet, IsNew, StopsAt, TellsMoves, departure_of, ending_of, progress_of};
ghost use Rattle.s3_driver.specs.ServedConnection.{HasGoneOn, HasMoved, HasSubmitted, IsAsked, IsEnding, IsQuiet, MaySettle, Rests, account_of, is_going, moves_each};

use crate::account::{Account, AsAccount, Telling};
use crate::driver::Driver;
use crate::laws::{connections_are_served, connections_end, connections_have_written};
use crate::observer::MessageObserver;
use crate::state::{Ending, Moved, State};
use crate::waits::Waits;
use s3_calendar::Moment;
use s3_config::Config;
use s3_devices::{Reading, Stream};
use s3_history::Recorder;
use s3_journal::{Committed, Ground, Roster, Seat, Turns};
use s3_machine::Answer;
use s3_records::Records;
use s3_terms::NoMemory;
use std::alloc::Global;
use std::marker::Model;
use std::mem::drop;
use std::time::Instant;

// How many moves a connection makes before others have theirs.
const MOVES: u32 = 16;

// How many reads are dropped before others have theirs.
const DROPPED: u32 = 16;

// What a connection is made of.
#[derive(Drop)]
struct Parts<J: Ground, S: Stream + Drop, O: MessageObserver + Drop> {
    // In memory of its own, so that a place for a connection that isn't there takes no room for it.
    driver: Box<Driver>,
    stream: S,
    seat: Seat<J>,
    moments: Recorder<Moment>,
    observer: O,
    waits: Waits,
}

/// A connection over its stream, with its seat at the store, and since when it waits for what. Contracts see how it
/// stands, all that its stream gave and took, the moments of its messages, its seat, and what it waits for or how it has
/// ended. Its type keeps that it was served step by step, and no other way.
#[derive(Drop)]
pub struct ServedConnection<J: Ground, S: Stream + Drop, O: MessageObserver + Drop> {
    parts: Parts<J, S, O>,
}

impl<J: Ground, S: Stream + Drop, O: MessageObserver + Drop> Model for ServedConnection<J, S, O> {
    ghost use Rattle.s3_driver.specs.ServedConnection as rules;

    ghost Value = { rules.Served };

    ghost view = { λ c. record { connection = c.parts.driver.value; traffic = S.Device.traffic c.parts.stream; moments = c.parts.moments.entries; seat = c.parts.seat; state = c.parts.waits.state } };

    ghost invariant = { λ c. rules.Stands J.base.settings
        (record { connection = c.parts.driver.value; traffic = S.Device.traffic c.parts.stream; moments = c.parts.moments.entries; seat = c.parts.seat; state = c.parts.waits.state }) };
}

/// A connection whose turn has come to the store, with the answer, which it hasn't heard. It hears it once that is committed, or leaves.
#[derive(Drop)]
pub struct AnsweredConnection<J: Ground, S: Stream + Drop, O: MessageObserver + Drop> {
    parts: Parts<J, S, O>,
    answered: Option<Result<Answer, NoMemory>>,
}

impl<J: Ground, S: Stream + Drop, O: MessageObserver + Drop> Model for AnsweredConnection<J, S, O> {
    ghost use Rattle.s3_driver.specs.ServedConnection as rules;

    ghost Value = { rules.Heard };

    ghost view = { λ c. record { served = record { connection = c.parts.driver.value; traffic = S.Device.traffic c.parts.stream; moments = c.parts.moments.entries; seat = c.parts.seat; state = c.parts.waits.state }; answered = c.answered } };

    ghost invariant = { λ c. rules.HearsOf J.base
        (record { connection = c.parts.driver.value; traffic = S.Device.traffic c.parts.stream; moments = c.parts.moments.entries; seat = c.parts.seat; state = c.parts.waits.state }) c.answered };
}

/// A connection of which nothing has come. `NoMemory` comes where there is no memory for it.
pub fn new_driver(alloc: Global) -> Result<Box<Driver>, NoMemory>
    ensures { IfOk result (λ driver. IsNew driver.value) }
{
    Ok(Box::new(alloc, Driver::new(alloc))?)
}

impl<J: Ground, S: Stream + Drop, O: MessageObserver + Drop> ServedConnection<J, S, O> {
    /// A connection that comes now over a stream, which has the number of its seat for a name. It takes no memory.
    pub fn new(
        driver: Box<Driver>,
        stream: S,
        seat: Seat<J>,
        moments: Recorder<Moment>,
        observer: O,
        now: Instant,
    ) -> ServedConnection<J, S, O>
        requires driver { IsNew driver.value }
        requires traffic { S.Device.traffic stream ≡ untouched seat.number }
        requires moments { moments.entries ≡ [] }
        requires entries { seat.mine ≡ [] }
        ensures traffic { result.traffic ≡ untouched seat.number }
        ensures seat { result.seat ≡ seat }
        ensures state { result.state ≡ State.Message }
    {
        connections_are_served();
        seat.commits();
        let parts = Parts {
            driver,
            stream,
            seat,
            moments,
            observer,
            waits: Waits::new(now),
        };
        ServedConnection { parts }
    }

    /// What it wrote so far is as it has to be: a law about it, with nothing to run.
    pub fn account(&self)
        ensures { Fits J.base.settings (account_of self.now) self.now.seat.mine self.now.seat.committed }
    {
        connections_have_written();
        let _ = &self.parts;
    }

    /// Its stream.
    pub fn stream(&self) -> &S {
        &self.parts.stream
    }

    /// The number of its seat.
    pub fn number(&self) -> u64
        ensures { result ≡ self.now.seat.number }
    {
        self.parts.seat.number()
    }

    /// Since when it waits for its next message, or for its peer's end, if it does.
    pub fn idle_since(&self) -> Option<Instant> {
        self.parts.waits.idle_since()
    }

    /// Since when a head is on its way, if one is.
    pub fn head_since(&self) -> Option<Instant> {
        self.parts.waits.head_since()
    }

    /// Whether what has come of a message can't begin a head: somebody speaks another protocol.
    pub fn begins_no_head(&self) -> bool {
        self.parts.driver.begins_no_head()
    }

    /// Whether it has waited too long.
    pub fn is_over(&self, now: Instant) -> bool {
        self.parts.waits.is_over(now)
    }

    /// Has it go on as far as it can without waiting, and no further than its share, and says how it moved. One whose turn
    /// waits, or that has ended, does nothing.
    ///
    /// Where it is closed, its stream is told so, and what the peer still sends is dropped for some seconds: else the system
    /// would tell the peer of a connection that was reset, and a refusal might never be seen. `buffer` is what is read into.
    #[tactic(auto, using(crate::proofs::ServedConnectionLemmas::rests_on))]
    pub fn go_on(
        &mut self,
        alloc: Global,
        config: &Config,
        buffer: &mut [u8],
        moment: Moment,
        now: Instant,
    ) -> Moved
        requires settings { config.now ≡ J.base.settings }
        ensures goes_on { HasGoneOn moment self.old self.new }
        ensures state { self.new.state ≡ result.state }
        ensures told { TellsMoves result self.old.traffic self.new.traffic }
        ensures moved { 0 < length buffer.old → is_going self.old.state ≡ true → HasMoved result.may_go_on result.state self.old self.new }
    {
        let state = self.parts.waits.state;

        // No worker has such a buffer.
        if buffer.is_empty() {
            return Moved::stopped(state);
        }
        match state {
            State::Turn | State::Ended(_) => Moved::stopped(state),
            State::Closing => self.drop_input(buffer),
            State::Message | State::Head | State::Body | State::Room => {
                self.drive(alloc, config, buffer, moment, now)
            }
        }
    }

    // Has a connection go on that has not ended, and closes it where it has then.
    #[tactic(auto, using(crate::proofs::ServedConnectionLemmas::rests_after))]
    fn drive(
        &mut self,
        alloc: Global,
        config: &Config,
        buffer: &mut [u8],
        moment: Moment,
        now: Instant,
    ) -> Moved
        requires settings { config.now ≡ J.base.settings }
        requires room { 0 < length buffer.old }
        requires goes { ending_of self.old.state ≡ None }
        ensures goes_on { HasGoneOn moment self.old self.new }
        ensures state { self.new.state ≡ result.state }
        ensures told { TellsMoves result self.old.traffic self.new.traffic }
        ensures moved { HasMoved result.may_go_on result.state self.old self.new }
    {
        let moved = self.step(alloc, config, buffer, moment, now);
        match moved.state {
            State::Ended(Ending::Closed) => moved.then(self.close(buffer, now)),
            _ => moved,
        }
    }

    // Has it make its moves.
    fn step(
        &mut self,
        alloc: Global,
        config: &Config,
        buffer: &mut [u8],
        moment: Moment,
        now: Instant,
    ) -> Moved
        requires settings { config.now ≡ J.base.settings }
        requires room { 0 < length buffer.old }
        requires goes { ending_of self.old.state ≡ None }
        ensures goes_on { HasGoneOn moment self.old self.new }
        ensures state { self.new.state ≡ result.state }
        ensures told { TellsMoves result self.old.traffic self.new.traffic }
        ensures met { HasMet result.may_go_on result.state self.old.traffic self.new.traffic }
        ensures stops { StopsAt result.may_go_on result.state self.new.connection }
        ensures moves { result.may_go_on ≡ true
            → progress_of self.old.connection self.old.traffic + moves_each ≤ progress_of self.new.connection self.new.traffic }
    {
        connections_end();
        let parts = &mut self.parts;
        parts.observer.at(now);
        let driver: &mut Driver = &mut parts.driver;
        let moved = driver.go_on(
            alloc,
            config,
            &mut parts.moments,
            &mut parts.observer,
            &mut parts.stream,
            buffer,
            moment,
            MOVES,
        );
        parts.waits.note(moved, now);
        moved
    }

    // Tells the stream of one that is closed that it takes no more, and drops what has come, unless the peer has ended.
    fn close(&mut self, buffer: &mut [u8], now: Instant) -> Moved
        requires room { 0 < length buffer.old }
        requires closed { self.old.state ≡ State.Ended Ending.Closed }
        ensures rests { Rests self.old self.new }
        ensures state { self.new.state ≡ result.state }
        ensures quiet { IsQuiet result }
        ensures ending { IsEnding result }
    {
        if self.parts.driver.has_ended() || !self.shut(now) {
            return Moved::stopped(self.parts.waits.state);
        }
        self.drop_input(buffer)
    }

    // Tells the stream of one that is closed that it takes no more, and answers whether it could be told.
    fn shut(&mut self, now: Instant) -> bool
        requires closed { self.old.state ≡ State.Ended Ending.Closed }
        ensures shut { result ≡ true → self.new.state ≡ State.Closing }
        ensures not { result ≡ false → self.new.state ≡ self.old.state }
        ensures rests { Rests self.old self.new }
    {
        let is_shut = self.parts.stream.shut();
        if is_shut {
            self.parts.waits.note(Moved::stopped(State::Closing), now);
        }
        is_shut
    }

    // Drops what the peer of a closed one still sends. Where the peer has ended, it has ended too.
    fn drop_input(&mut self, buffer: &mut [u8]) -> Moved
        requires room { 0 < length buffer.old }
        requires closing { self.old.state ≡ State.Closing }
        ensures rests { Rests self.old self.new }
        ensures state { self.new.state ≡ result.state }
        ensures quiet { IsQuiet result }
        ensures ending { IsEnding result }
    {
        for _ in 0..DROPPED {
            match self.parts.stream.drop_input(buffer) {
                Reading::Bytes(_) => {}
                Reading::Later => return Moved::stopped(State::Closing),
                Reading::End | Reading::Failed => return self.end(),
            }
        }
        Moved::on(State::Closing, false, false)
    }

    // Ends one that is closing.
    fn end(&mut self) -> Moved
        requires closing { self.old.state ≡ State.Closing }
        ensures rests { Rests self.old self.new }
        ensures state { self.new.state ≡ result.state }
        ensures quiet { IsQuiet result }
        ensures ending { IsEnding result }
    {
        self.parts.waits.state = State::Ended(Ending::Closed);
        Moved::stopped(State::Ended(Ending::Closed))
    }

    /// Takes its turn to the store, if it has one, in a batch of turns, and gives the connection with the answer. It prints
    /// nothing, so that the batch is short.
    pub fn submit<R: Records + Drop>(
        self,
        turns: &mut Turns<'_, J, R>,
    ) -> AnsweredConnection<J, S, O>
        ensures traffic { result.served.traffic ≡ self.traffic }
        ensures moments { result.served.moments ≡ self.moments }
        ensures number { result.served.seat.number ≡ self.seat.number }
        ensures submitted { IfSome (turn_of self.connection) (λ turn.
            IfSome result.answered (λ answered. HasSubmitted R.is_in_memory J.base self.seat result.served.seat turns.old turns.new turn answered)) }
        ensures asked { self.state ≡ State.Turn → turn_of self.connection ≢ None → result.answered ≢ None }
        ensures entries { result.answered ≡ None → (result.served.seat ≡ self.seat) × (turns.new ≡ turns.old) }
    {
        let ServedConnection { mut parts } = self;
        let state = parts.waits.state;
        let answered = ask(&mut parts.driver, &mut parts.seat, state, turns);
        AnsweredConnection { parts, answered }
    }

    /// Gives its seat back to the roster that it is from, with the account of what it did, and hands its stream out. It takes no
    /// memory.
    pub fn leave(self, roster: &mut Roster<J, Account>) -> S
        requires out { is_out roster.old.numbers self.seat.number ≡ true }
        ensures gone { roster.new.gone
            ≡ roster.old.gone ++ record { number = self.seat.number; calls = self.seat.mine; seen = self.seat.seen; committed = self.seat.committed; report = account_of self } ∷ [] }
        ensures out { (n : ℕ) → is_out roster.new.numbers n ≡ (if n == self.seat.number then false else is_out roster.old.numbers n) }
        ensures index { roster.new.index ≡ roster.old.index }
        ensures stream { S.Device.traffic result ≡ self.traffic }
        ensures named { self.traffic.name ≡ self.seat.number }
    {
        connections_have_written();
        self.parts.leave(roster)
    }
}

impl<J: Ground, S: Stream + Drop, O: MessageObserver + Drop> AnsweredConnection<J, S, O> {
    /// The number of its seat.
    pub fn number(&self) -> u64
        ensures { result ≡ self.now.served.seat.number }
    {
        self.parts.seat.number()
    }

    /// Whether it may hear the answer, if there is one: a history that was committed has its entry, if one was made.
    pub fn may_hear(&mut self, committed: &Committed<J>) -> bool
        ensures may { result ≡ true → self.new.served.seat.committed ≡ self.new.served.seat.mine }
        ensures traffic { self.new.served.traffic ≡ self.old.served.traffic }
        ensures moments { self.new.served.moments ≡ self.old.served.moments }
        ensures number { self.new.served.seat.number ≡ self.old.served.seat.number }
        ensures answered { self.new.answered ≡ self.old.answered }
    {
        settle(&mut self.parts.seat, &self.answered, committed)
    }

    /// Gives it the answer, if there is one, whose reply is written, and isn't out yet. All its entries were committed. It takes no
    /// memory.
    pub fn hear(self, alloc: Global, now: Instant) -> ServedConnection<J, S, O>
        requires committed { self.served.seat.committed ≡ self.served.seat.mine }
        ensures traffic { result.traffic ≡ self.served.traffic }
        ensures moments { result.moments ≡ self.served.moments }
        ensures seat { result.seat ≡ self.served.seat }
        ensures state { self.answered ≢ None → result.state ≡ State.Room }
    {
        let AnsweredConnection {
            mut parts,
            answered,
        } = self;
        let Some(answered) = answered else {
            return ServedConnection { parts };
        };
        parts.observer.at(now);
        parts.driver.answer(alloc, &mut parts.observer, answered);
        parts.waits.note(Moved::stopped(State::Room), now);
        ServedConnection { parts }
    }

    /// Has it leave as `ServedConnection::leave` does. Nothing of the answer is written.
    pub fn leave(self, alloc: Global, now: Instant, roster: &mut Roster<J, Account>) -> S
        requires out { is_out roster.old.numbers self.served.seat.number ≡ true }
        ensures gone { roster.new.gone
            ≡ roster.old.gone ++ record { number = self.served.seat.number; calls = self.served.seat.mine; seen = self.served.seat.seen; committed = self.served.seat.committed; report = account_of self.served } ∷ [] }
        ensures out { (n : ℕ) → is_out roster.new.numbers n ≡ (if n == self.served.seat.number then false else is_out roster.old.numbers n) }
        ensures index { roster.new.index ≡ roster.old.index }
        ensures stream { S.Device.traffic result ≡ self.served.traffic }
        ensures named { self.served.traffic.name ≡ self.served.seat.number }
    {
        connections_have_written();
        let AnsweredConnection {
            mut parts,
            answered,
        } = self;
        match answered {
            Some(answered) => {
                parts.observer.at(now);
                parts.driver.answer(alloc, &mut parts.observer, answered);
                parts.leave(roster)
            }
            None => parts.leave(roster),
        }
    }
}

impl<J: Ground, S: Stream + Drop, O: MessageObserver + Drop> Parts<J, S, O> {
    // Gives the seat back to the roster that it is from, with the account of what was done, and hands the stream out.
    fn leave(self, roster: &mut Roster<J, Account>) -> S
        requires fits { Fits J.base.settings
            (record { traffic = S.Device.traffic self.stream; moments = self.moments.entries; departure = departure_of (ending_of self.waits.state) })
            self.seat.mine self.seat.committed }
        requires out { is_out roster.old.numbers self.seat.number ≡ true }
        ensures gone { roster.new.gone
            ≡ roster.old.gone ++ record { number = self.seat.number; calls = self.seat.mine; seen = self.seat.seen; committed = self.seat.committed; report = record { traffic = S.Device.traffic self.stream; moments = self.moments.entries; departure = departure_of (ending_of self.waits.state) } } ∷ [] }
        ensures out { (n : ℕ) → is_out roster.new.numbers n ≡ (if n == self.seat.number then false else is_out roster.old.numbers n) }
        ensures index { roster.new.index ≡ roster.old.index }
        ensures stream { S.Device.traffic result ≡ S.Device.traffic self.stream }
    {
        let Parts {
            driver,
            stream,
            seat,
            moments,
            observer,
            waits,
        } = self;
        drop(driver);
        leave_observer(observer);
        let telling = Telling {
            stream: &stream,
            moments: &moments,
            departure: waits.state.departure(),
        };
        roster.leave::<Telling<'_, S>, AsAccount<S>>(seat, &telling);
        drop(moments);
        stream
    }
}

// Whether all entries of a seat were committed whose last turn was answered so, if one was: that of the answer was by this commit,
// or none was made.
fn settle<J: Ground>(
    seat: &mut Seat<J>,
    answered: &Option<Result<Answer, NoMemory>>,
    committed: &Committed<J>,
) -> bool
    requires { MaySettle J.base seat.old answered.now }
    ensures settled { result ≡ true → seat.new.committed ≡ seat.new.mine }
    ensures either { (seat.new ≡ seat.old) ⊎ (seat.new ≡ record seat.old { committed = seat.old.mine }) }
{
    match answered {
        Some(Ok(answer)) => seat.settle(answer, committed),
        Some(Err(_)) | None => true,
    }
}

// Tells an observer that the connection leaves, and lets it go.
fn leave_observer<O: MessageObserver + Drop>(mut observer: O) {
    observer.leaves();
    drop(observer);
}

// Takes the turn of a connection that stands so to the store, if it has one.
fn ask<J: Ground, R: Records + Drop>(
    driver: &mut Driver,
    seat: &mut Seat<J>,
    state: State,
    turns: &mut Turns<'_, J, R>,
) -> Option<Result<Answer, NoMemory>>
    ensures asked { IfSome result (IsAsked R.is_in_memory J.base driver.old driver.new seat.old seat.new turns.old turns.new) }
    ensures waits { IfSome result (λ answered. state ≡ State.Turn) }
    ensures none { result ≡ None → (driver.new ≡ driver.old) × (seat.new ≡ seat.old) × (turns.new ≡ turns.old) }
    ensures has { state ≡ State.Turn → turn_of driver.old ≢ None → result ≢ None }
{
    if state != State::Turn {
        return None;
    }
    let turn = driver.take_turn()?;
    Some(turns.answer(seat, turn))
}

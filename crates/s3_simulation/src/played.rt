//! A connection of a world.

ghost use Rattle.std.specs.Prelude.{◌≡◌, ◌≢◌, ◌<◌, ℕ, true, false, List, [], length, IfOk, OnOk, OnErr, None};
ghost use Rattle.s3_config.specs.Settings.{Settings};
ghost use Rattle.s3_machine.specs.History.{Entry};
ghost use Rattle.s3_events.specs.declared.event.Event.{Event as Happening};
ghost use Rattle.s3_session.specs.Output.{is_closed};
ghost use Rattle.s3_connection.specs.declared.stage.Wants.{Wants};
ghost use Rattle.s3_connection.specs.Connection.{IsNext, nothing_received, received, taken_of, wants_of};
ghost use Rattle.s3_connection.specs.Output.{Input};
ghost use Rattle.s3_simulation.specs.Events.{brings_bytes};
ghost use Rattle.s3_simulation.specs.Faults.{Tells};
ghost use Rattle.s3_simulation.specs.Moments.{behind_if, next_of};
ghost use Rattle.s3_simulation.specs.StandsAfter.{GoesOn};
ghost use Rattle.s3_simulation.specs.World.{IsEntered, given_by};

use s3_calendar::Moment;
use s3_config::Config;
use s3_connection::Connection;
use s3_events::Event;
use s3_journal::RecordedStore;
use s3_records::Records;
use s3_session::Fault;
use s3_terms::NoMemory;
use std::alloc::Global;
use std::marker::Model;

// The moment that a list hands out next: its first, or moment 0 where it has none.
pub(crate) fn next(moments: &[Moment]) -> Moment
    ensures { result ≡ next_of moments.now }
{
    if let Some(moment) = moments.first() {
        return *moment;
    }
    let Some(none) = Moment::new(0) else {
        // The moment 0 is one.
        unreachable!()
    };
    none
}

// What hands out the moments behind that, if it was handed out: the last one of a list comes again and again.
pub(crate) fn left(moments: &[Moment], has_moment: bool) -> &[Moment]
    ensures { result.now ≡ behind_if has_moment moments.now }
{
    if has_moment && moments.len() > 1 {
        &moments[1..]
    } else {
        moments
    }
}

// A connection, and what hands out the moments that its messages have still to get.
#[derive(Drop)]
pub(crate) struct Played<'a> {
    connection: Connection,
    moments: &'a [Moment],
}

impl<'a> Model for Played<'a> {
    ghost use Rattle.s3_simulation.specs.Played.{Playing};

    ghost Value = { Playing };

    ghost view = { λ p. record { connection = p.connection; moments = p.moments.now } };
}

impl<'a> Played<'a> {
    ghost use Rattle.s3_simulation.specs.Played as playings;
    ghost use Rattle.s3_simulation.specs.Played.{Carries, Plays};

    // A connection of which nothing came, whose messages have these moments. It takes no memory.
    pub(crate) fn new(alloc: Global, moments: &'a [Moment]) -> Played<'a>
        ensures begins { (settings : Settings) → Plays result settings moments.now nothing_received [] }
        ensures none { playings.turn_of result ≡ None }
    {
        Played {
            connection: Connection::new(alloc),
            moments,
        }
    }

    // Does what an event of it says. `NoMemory` comes for a piece that isn't empty, where there is no memory for it while a command
    // waits; nothing has changed then.
    pub(crate) fn meet<R: Records + Drop>(
        &mut self,
        alloc: Global,
        config: &Config,
        recorded_store: &mut RecordedStore<R>,
        event: &Event,
    ) -> Result<(), NoMemory>
        ensures goes_on { OnOk result (GoesOn config.now event.now self.old self.new recorded_store.old.entries recorded_store.new.entries) }
        ensures entered { IsEntered R.is_in_memory recorded_store.old recorded_store.new (given_by event.now (playings.turn_of self.old)) }
        ensures rules { recorded_store.new.rules ≡ recorded_store.old.rules }
        ensures opens { recorded_store.new.opening ≡ recorded_store.old.opening }
        ensures same { OnErr result (self.new ≡ self.old) }
        ensures recorded_store { OnErr result (recorded_store.new ≡ recorded_store.old) }
        ensures memory { OnErr result (brings_bytes event.now ≡ true) }
        ensures waits { OnErr result (wants_of self.old.connection ≢ Wants.Input) }
    {
        match event {
            Event::Piece { bytes, .. } => self.feed(alloc, config, bytes.as_slice()),
            Event::End { .. } => {
                self.end();
                Ok(())
            }
            Event::Turn { connection } => {
                self.take_turn(alloc, config, recorded_store, u64::from(*connection));
                Ok(())
            }
        }
    }

    // Takes a piece of its bytes.
    pub(crate) fn feed(
        &mut self,
        alloc: Global,
        config: &Config,
        piece: &[u8],
    ) -> Result<(), NoMemory>
        ensures plays { (moments : List ℕ) (input : Input) (entries : List Entry) → Plays self.old config.now moments input entries
            → OnOk result (Plays self.new config.now moments (received input piece.now) entries) }
        ensures same { OnErr result (self.new ≡ self.old) }
        ensures memory { OnErr result ((piece.now ≢ []) × (wants_of self.old.connection ≢ Wants.Input)) }
        ensures closed { is_closed (playings.standing_of self.old) ≡ true → playings.standing_of self.new ≡ playings.standing_of self.old }
    {
        let now = next(self.moments);
        let has_moment = self.connection.piece(alloc, config, now, piece)?;
        self.moments = left(self.moments, has_moment);
        Ok(())
    }

    // Says that no more bytes of it come.
    pub(crate) fn end(&mut self)
        ensures plays { (settings : Settings) (moments : List ℕ) (input : Input) (entries : List Entry) → Plays self.old settings moments input entries
            → Plays self.new settings moments (record { bytes = input.bytes; ended = true }) entries }
        ensures closed { is_closed (playings.standing_of self.old) ≡ true → playings.standing_of self.new ≡ playings.standing_of self.old }
        ensures turn { playings.turn_of self.new ≡ playings.turn_of self.old }
    {
        self.connection.end();
    }

    // Gives its command, if one waits, its turn at the recorded store, and answers whether one did: it is answered as an entry of
    // this seat, or, where memory runs out at it, as the connection says so; and the connection goes on.
    pub(crate) fn take_turn<R: Records + Drop>(
        &mut self,
        alloc: Global,
        config: &Config,
        recorded_store: &mut RecordedStore<R>,
        seat: u64,
    ) -> bool
        ensures goes_on { GoesOn config.now (Happening.Turn seat) self.old self.new recorded_store.old.entries recorded_store.new.entries }
        ensures entered { IsEntered R.is_in_memory recorded_store.old recorded_store.new (playings.turn_of self.old) }
        ensures rules { recorded_store.new.rules ≡ recorded_store.old.rules }
        ensures opens { recorded_store.new.opening ≡ recorded_store.old.opening }
        ensures some { result ≡ true → playings.turn_of self.old ≢ None }
        ensures none { result ≡ false → playings.turn_of self.new ≡ None }
    {
        let Some(turn) = self.connection.take_turn() else {
            return false;
        };
        let answered = recorded_store.enter(seat, turn);
        self.connection.answer(alloc, answered);
        self.go_on(alloc, config);
        true
    }

    // Goes on after an answer.
    fn go_on(&mut self, alloc: Global, config: &Config)
        ensures carries { (moments : List ℕ) (input : Input) (entries : List Entry) → Carries self.old config.now moments input entries
            → Carries self.new config.now moments input entries }
        ensures idle { taken_of self.old.connection ≡ None → IsNext self.new.connection.stage }
        ensures closed { is_closed (playings.standing_of self.old) ≡ true → playings.standing_of self.new ≡ playings.standing_of self.old }
    {
        let now = next(self.moments);
        let has_moment = self.connection.go_on(alloc, config, now);
        self.moments = left(self.moments, has_moment);
    }

    // The first of its messages that was refused, if one was.
    pub(crate) fn fault(&self) -> Option<Fault>
        ensures { Tells self.now result }
    {
        self.connection.fault()
    }

    // A copy of all that it wrote. `NoMemory` comes where it wrote something.
    pub(crate) fn all(&self, alloc: Global) -> Result<Vec<u8>, NoMemory>
        ensures all { IfOk result (λ all. all.items ≡ playings.written_by self.now) }
        ensures memory { OnErr result (0 < length (playings.written_by self.now)) }
    {
        self.connection.all(alloc)
    }
}

//! The door by which connections come to one worker, and by which they leave.

ghost use Rattle.std.specs.Prelude.{◌≡◌, ◌≢◌, ◌++◌, ◌∷◌, ◌||◌, ◌==◌, if◌then◌else◌, ℕ, [], true, false, None, IfOk, IfSome, OnErr};
ghost use Rattle.s3_devices.specs.Recorded.{untouched};
ghost use Rattle.s3_journal.specs.Roster.{NobodyIsOut, is_out};
ghost use Rattle.s3_sockets.specs.Door.{HasPassed, IsGivenUp, IsSetAside, gone_of, nothing_passed, turned_away_of};

use crate::arrival::{Arrival, Vacancy};
use crate::socket::Socket;
use mio::net::TcpListener;
use mio::{Interest, Registry, Token};
use s3_devices::Recorded;
use s3_driver::{Account, AnsweredConnection, MessageObserver, ServedConnection, turn_away};
use s3_history::{AsItself, Describes, Recorder};
use s3_journal::{Ground, Roster};
use std::alloc::Global;
use std::io::ErrorKind;
use std::marker::Model;
use std::time::Instant;

/// The traffic of a socket that was taken back. No value of it is made: a history consists of them.
pub struct TakenBack;

impl Model for TakenBack {
    ghost use Rattle.s3_devices.specs.Device.{Traffic};
    ghost use Rattle.s3_devices.specs.Recorded.{no_traffic};

    ghost Value = { Traffic };

    ghost view = { λ back. no_traffic };
}

// What is told of a socket.
struct AsTakenBack;

impl Describes<Recorded<Socket>, TakenBack> for AsTakenBack {
    ghost entry = { λ socket. socket.traffic };
}

/// The entrance of a door: what connections are taken from, before it is known to whom they come.
#[derive(Drop)]
pub struct Entrance {
    listener: TcpListener,
    handed: Recorder<u64>,
    back: Recorder<TakenBack>,
}

impl Model for Entrance {
    ghost use Rattle.std.specs.Prelude.{◌≡◌, []};

    ghost Value = { Unit {0} };

    ghost view = { λ e. tt };

    ghost invariant = { λ e. (e.handed.entries ≡ []) × (e.back.entries ≡ []) };
}

impl Entrance {
    // The entrance for those that come to a listener. `None` never comes, though no contract can say so.
    pub(crate) fn new(listener: TcpListener) -> Option<Entrance> {
        let (Some(handed), Some(back)) = (Recorder::new(), Recorder::new()) else {
            return None;
        };
        Some(Entrance {
            listener,
            handed,
            back,
        })
    }
}

/// The door by which connections come to one worker, and by which they leave. It hands out each socket with a seat of the worker's
/// roster, as an `Arrival`, and takes each back, with an account in the roster.
///
/// Contracts see which sockets it handed out, the traffic of those that it took back, and the roster. Its type keeps that these
/// belong together. To be read is that `accept` notes each socket which the system hands out: nothing else takes one from the
/// listener.
#[derive(Drop)]
pub struct Door<J: Ground> {
    listener: TcpListener,
    roster: Roster<J, Account>,
    handed: Recorder<u64>,
    back: Recorder<TakenBack>,
    vacancy: Option<Vacancy<J>>,
}

impl<J: Ground> Model for Door<J> {
    ghost use Rattle.s3_sockets.specs.Door.{DoorState, IsDoor};

    ghost Value = { DoorState };

    ghost view = { λ d. record { passed = record { handed = d.handed.entries; back = d.back.entries }; roster = d.roster } };

    ghost invariant = { λ d. IsDoor (record { handed = d.handed.entries; back = d.back.entries }) d.roster d.vacancy };
}

// Takes a socket back, which is closed.
fn take_back(back: &mut Recorder<TakenBack>, socket: Recorded<Socket>)
    ensures { back.new.entries ≡ back.old.entries ++ socket.traffic ∷ [] }
{
    back.record::<Recorded<Socket>, AsTakenBack>(&socket);
    drop(socket);
}

// What the next that comes will have: what was set aside, or a new seat. `None` where there is no memory.
fn set_aside<J: Ground>(
    roster: &mut Roster<J, Account>,
    aside: Option<Vacancy<J>>,
) -> Option<Vacancy<J>>
    ensures aside { IfSome result (IsSetAside roster.old roster.new aside) }
    ensures none { result ≡ None → (roster.new ≡ roster.old) × (aside ≡ None) }
{
    match aside {
        Some(vacancy) => Some(vacancy),
        None => new_vacancy(roster),
    }
}

// A new seat, with what its stream is recorded by.
fn new_vacancy<J: Ground>(roster: &mut Roster<J, Account>) -> Option<Vacancy<J>>
    ensures fresh { IfSome result (λ number. is_out roster.old.numbers number ≡ false) }
    ensures out { IfSome result (λ number. (n : ℕ) → is_out roster.new.numbers n ≡ (n == number || is_out roster.old.numbers n)) }
    ensures gone { roster.new.gone ≡ roster.old.gone }
    ensures none { result ≡ None → roster.new ≡ roster.old }
{
    let recorder = Recorder::new()?;
    match roster.seat() {
        Ok(seat) => Some(Vacancy::new(seat, recorder)),
        Err(_) => None,
    }
}

// Gives up what was set aside, and answers whether the roster knows of it.
fn give_up<J: Ground>(roster: &mut Roster<J, Account>, aside: Option<Vacancy<J>>) -> bool
    ensures gone { roster.new.gone ≡ roster.old.gone }
    ensures out { result ≡ true → IsGivenUp roster.old.numbers roster.new.numbers aside }
{
    match aside {
        Some(vacancy) if roster.has(vacancy.number()) => {
            roster.take_unused(vacancy.into_seat());
            true
        }
        Some(vacancy) => {
            drop(vacancy);
            false
        }
        None => true,
    }
}

impl<J: Ground> Door<J> {
    /// A door with this entrance, for a worker to which nobody has come.
    pub fn new(entrance: Entrance, roster: Roster<J, Account>) -> Door<J>
        requires nobody { NobodyIsOut roster }
        requires nobody_left { roster.gone ≡ [] }
        ensures { result ≡ record { passed = nothing_passed; roster = roster } }
    {
        let Entrance {
            listener,
            handed,
            back,
        } = entrance;
        Door {
            listener,
            roster,
            handed,
            back,
            vacancy: None,
        }
    }

    /// The next that has come, with a seat of its own. What it needs is there before it is taken from the system, so that none is lost
    /// for want of memory.
    ///
    /// # Errors
    ///
    /// `OutOfMemory` where there is no room for a seat; otherwise what the system says, `WouldBlock` where nobody waits. Nobody has
    /// come then.
    pub fn accept(&mut self) -> Result<Arrival<J>, ErrorKind>
        ensures handed { IfOk result (λ arrival. self.new.passed.handed ≡ self.old.passed.handed ++ arrival.seat.number ∷ []) }
        ensures out { IfOk result (λ arrival. is_out self.new.roster.numbers arrival.seat.number ≡ true) }
        ensures back { self.new.passed.back ≡ self.old.passed.back }
        ensures gone { self.new.roster.gone ≡ self.old.roster.gone }
        ensures err { OnErr result (self.new.passed.handed ≡ self.old.passed.handed) }
    {
        let aside = self.vacancy.take();
        let Some(vacancy) = set_aside(&mut self.roster, aside) else {
            return Err(ErrorKind::OutOfMemory);
        };

        // The roster knows of what was set aside.
        if !self.roster.has(vacancy.number()) {
            self.vacancy = Some(vacancy);
            return Err(ErrorKind::Other);
        }
        match self.listener.accept() {
            Ok((stream, _)) => {
                self.handed.record::<u64, AsItself>(&vacancy.number());
                Ok(vacancy.meet(Socket::new(stream)))
            }
            Err(error) => {
                self.vacancy = Some(vacancy);
                Err(error.kind())
            }
        }
    }

    /// Has it report who waits already, under a token. If the system can't, nothing is reported.
    pub fn report_again(&mut self, registry: &Registry, token: Token)
        ensures { self.new ≡ self.old }
    {
        let _ = registry.reregister(&mut self.listener, token, Interest::READABLE);
    }

    /// Has a connection leave for which there is no slot or no memory: its socket is closed.
    pub(crate) fn turn_away(&mut self, alloc: Global, arrival: Arrival<J>)
        ensures out { (n : ℕ) → is_out self.new.roster.numbers n
            ≡ (if n == arrival.seat.number then false else is_out self.old.roster.numbers n) }
        ensures back { is_out self.old.roster.numbers arrival.seat.number ≡ true
            → self.new.passed.back ≡ self.old.passed.back ++ arrival.traffic ∷ [] }
        ensures gone { is_out self.old.roster.numbers arrival.seat.number ≡ true
            → self.new.roster.gone ≡ self.old.roster.gone ++ turned_away_of arrival.seat ∷ [] }
        ensures handed { self.new.passed.handed ≡ self.old.passed.handed }
    {
        // No other door's arrivals come here.
        if self.roster.has(arrival.number()) {
            let (stream, seat) = arrival.into_parts();
            let stream = turn_away(alloc, stream, seat, &mut self.roster);
            take_back(&mut self.back, stream);
        } else {
            drop(arrival);
        }
    }

    /// Has a connection leave: its socket is closed.
    pub(crate) fn leave<O: MessageObserver + Drop>(
        &mut self,
        connection: ServedConnection<J, Recorded<Socket>, O>,
    )
        ensures out { (n : ℕ) → is_out self.new.roster.numbers n
            ≡ (if n == connection.seat.number then false else is_out self.old.roster.numbers n) }
        ensures back { is_out self.old.roster.numbers connection.seat.number ≡ true
            → self.new.passed.back ≡ self.old.passed.back ++ connection.traffic ∷ [] }
        ensures gone { is_out self.old.roster.numbers connection.seat.number ≡ true
            → self.new.roster.gone ≡ self.old.roster.gone ++ gone_of connection ∷ [] }
        ensures handed { self.new.passed.handed ≡ self.old.passed.handed }
    {
        // No other door's connections come here.
        if self.roster.has(connection.number()) {
            let stream = connection.leave(&mut self.roster);
            take_back(&mut self.back, stream);
        } else {
            drop(connection);
        }
    }

    /// Has a connection leave that hasn't heard its answer: its socket is closed, and nothing of the answer is written.
    pub(crate) fn leave_untold<O: MessageObserver + Drop>(
        &mut self,
        alloc: Global,
        connection: AnsweredConnection<J, Recorded<Socket>, O>,
        now: Instant,
    )
        ensures out { (n : ℕ) → is_out self.new.roster.numbers n
            ≡ (if n == connection.served.seat.number then false else is_out self.old.roster.numbers n) }
        ensures back { is_out self.old.roster.numbers connection.served.seat.number ≡ true
            → self.new.passed.back ≡ self.old.passed.back ++ connection.served.traffic ∷ [] }
        ensures gone { is_out self.old.roster.numbers connection.served.seat.number ≡ true
            → self.new.roster.gone ≡ self.old.roster.gone ++ gone_of connection.served ∷ [] }
        ensures handed { self.new.passed.handed ≡ self.old.passed.handed }
    {
        // No other door's connections come here.
        if self.roster.has(connection.number()) {
            let stream = connection.leave(alloc, now, &mut self.roster);
            take_back(&mut self.back, stream);
        } else {
            drop(connection);
        }
    }

    // The roster. What was set aside isn't needed any more. `None` comes only where the roster doesn't know of it.
    pub(crate) fn end(self) -> Option<Roster<J, Account>>
        ensures { IfSome result (HasPassed self.passed) }
    {
        let Door {
            listener: _,
            mut roster,
            handed: _,
            back: _,
            vacancy,
        } = self;
        if give_up(&mut roster, vacancy) {
            Some(roster)
        } else {
            None
        }
    }
}

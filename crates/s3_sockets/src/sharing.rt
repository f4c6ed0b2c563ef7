//! What all connections of a server share.

ghost use Rattle.std.specs.Prelude.{◌≡◌, [], IfSome};
ghost use Rattle.s3_driver.specs.Served.{IsNew};

use crate::arrival::Arrival;
use crate::door::Door;
use crate::service::Service;
use crate::socket::Socket;
use mio::{Registry, Token};
use s3_calendar::Moment;
use s3_config::Config;
use s3_devices::Recorded;
use s3_driver::{AnsweredConnection, Driver, Moved, ServedConnection, new_driver};
use s3_history::Recorder;
use s3_journal::{Committed, Ground, SharedStore, Turns};
use s3_log::{Log, MessageLog};
use s3_records::{CommitError, Records};
use std::alloc::Global;
use std::io::ErrorKind;
use std::marker::Model;
use std::sync::Wait;
use std::time::{Clock, Instant};

/// A connection over a socket, whose messages a log is told of.
#[derive(Drop)]
pub struct Held<'a, J: Ground, W: Wait + Clock> {
    connection: ServedConnection<J, Recorded<Socket>, MessageLog<'a, W>>,
    // Whether no turn of it was answered.
    is_new: bool,
    rt: &'a W,
}

/// A place for a connection.
#[derive(Drop)]
pub struct Place<'a, J: Ground, W: Wait + Clock> {
    held: Option<Held<'a, J, W>>,
    rt: &'a W,
}

/// One that hasn't heard the answer to its turn, with the key of its place, and when its turn was taken.
#[derive(Drop)]
pub struct Answered<'a, J: Ground, W: Wait + Clock> {
    connection: AnsweredConnection<J, Recorded<Socket>, MessageLog<'a, W>>,
    key: usize,
    at: Instant,
    rt: &'a W,
}

// What a connection is made of, beside its socket and its seat.
#[derive(Drop)]
struct Outfit<'a, W: Wait + Clock> {
    driver: Box<Driver>,
    observer: MessageLog<'a, W>,
    moments: Recorder<Moment>,
    rt: &'a W,
}

/// What all connections of a worker share: the settings, which are those that the store stands on, the store, with whatever
/// keeps its records, and the log, if there is one.
#[derive(Drop)]
pub struct Sharing<'a, J: Ground, K: Records + Drop, W: Wait> {
    rt: &'a W,
    alloc: Global,
    config: &'a Config,
    store: &'a SharedStore<J, K>,
    log: Option<&'a Log>,
}

impl<'a, J: Ground, K: Records + Drop, W: Wait> Model for Sharing<'a, J, K, W> {
    ghost use Rattle.std.specs.Prelude.{◌≡◌};

    ghost Value = { Unit {0} };

    ghost view = { λ s. tt };

    ghost invariant = { λ s. s.config.now ≡ J.base.settings };
}

impl<'a, J: Ground, K: Records + Drop, W: Wait> Sharing<'a, J, K, W> {
    /// The same of its parts.
    pub fn new(
        rt: &'a W,
        alloc: Global,
        config: &'a Config,
        store: &'a SharedStore<J, K>,
        log: Option<&'a Log>,
    ) -> Sharing<'a, J, K, W>
        requires { config.now ≡ J.base.settings }
    {
        Sharing {
            rt,
            alloc,
            config,
            store,
            log,
        }
    }

    // The settings.
    fn config(&self) -> &'a Config
        ensures { result.now ≡ J.base.settings }
    {
        self.config
    }

    // What a connection of this number will be made of, beside its socket and its seat. `None` where there is no memory.
    fn outfit(&self, socket: &Socket, number: u64, now: Instant) -> Option<Outfit<'a, W>>
    where
        W: Clock,
        ensures driver { IfSome result (λ outfit. IsNew outfit.driver.value) }
        ensures moments { IfSome result (λ outfit. outfit.moments.entries ≡ []) }
    {
        let driver = new_driver(self.alloc).ok()?;
        let peer = socket.peer_told(self.log);
        let observer = MessageLog::new(self.rt, self.alloc, self.log, number, peer, now).ok()?;
        let moments = Recorder::new()?;
        Some(Outfit {
            driver,
            observer,
            moments,
            rt: self.rt,
        })
    }
}

/// A worker serves its connections so.
impl<'a, J: Ground, K: Records + Drop, W: Wait + Clock> Service for Sharing<'a, J, K, W> {
    ghost use Rattle.std.specs.Prelude.{◌≡◌, option_map};
    ghost use Rattle.s3_journal.specs.Roster as rosters;

    ghost arrival_number = { λ arrival. arrival.seat.number };

    ghost held_number = { λ held. held.connection.seat.number };

    ghost answered_number = { λ one. one.connection.served.seat.number };

    ghost occupant = { λ place. option_map (λ held. held.connection.seat.number) place.held };

    ghost is_out = { λ door n. rosters.is_out door.roster.numbers n };

    ghost handed = { λ door. door.passed.handed };

    ghost is_committed = { λ one. one.connection.served.seat.committed ≡ one.connection.served.seat.mine };

    type Door = Door<J>;

    type Arrival = Arrival<J>;

    type Held = Held<'a, J, W>;

    type Place = Place<'a, J, W>;

    type Answered = Answered<'a, J, W>;

    type Turns = Turns<'a, J, K>;

    type Committed = Committed<J>;

    type Runtime = W;

    fn runtime(&self) -> &W {
        self.rt
    }

    fn memory(&self) -> Global {
        self.alloc
    }

    fn accept(door: &mut Door<J>) -> Result<Arrival<J>, ErrorKind> {
        door.accept()
    }

    fn report_waiting(door: &mut Door<J>, registry: &Registry, token: Token) {
        door.report_again(registry, token);
    }

    fn has_gone(arrival: &Arrival<J>) -> bool {
        arrival.socket().has_gone()
    }

    fn turn_away(&self, arrival: Arrival<J>, door: &mut Door<J>) {
        door.turn_away(self.alloc, arrival);
    }

    fn open(
        &self,
        arrival: Arrival<J>,
        number: u64,
        now: Instant,
    ) -> Result<Held<'a, J, W>, Arrival<J>> {
        let Some(outfit) = self.outfit(arrival.socket(), number, now) else {
            return Err(arrival);
        };
        let Outfit {
            driver,
            observer,
            moments,
            rt,
        } = outfit;
        let (stream, seat) = arrival.into_parts();
        Ok(Held {
            connection: ServedConnection::new(driver, stream, seat, moments, observer, now),
            is_new: true,
            rt,
        })
    }

    fn socket<'h>(held: &'h Held<'a, J, W>) -> &'h Socket {
        held.connection.stream().stream()
    }

    fn go_on(
        &self,
        held: &mut Held<'a, J, W>,
        buffer: &mut [u8],
        moment: Moment,
        now: Instant,
    ) -> Moved {
        held.connection
            .go_on(self.alloc, self.config(), buffer, moment, now)
    }

    fn begin(&self) -> Turns<'a, J, K> {
        self.store.turns(self.rt)
    }

    fn submit(
        held: Held<'a, J, W>,
        key: usize,
        turns: &mut Turns<'a, J, K>,
        now: Instant,
    ) -> Answered<'a, J, W> {
        let Held {
            connection,
            is_new: _,
            rt,
        } = held;
        Answered {
            connection: connection.submit(turns),
            key,
            at: now,
            rt,
        }
    }

    fn commit(turns: Turns<'a, J, K>) -> Result<Committed<J>, CommitError> {
        turns.commit()
    }

    fn key(answered: &Answered<'a, J, W>) -> usize {
        answered.key
    }

    fn may_hear(one: &mut Answered<'a, J, W>, committed: &Committed<J>) -> bool {
        one.connection.may_hear(committed)
    }

    fn hear(&self, one: Answered<'a, J, W>) -> Held<'a, J, W> {
        let Answered {
            connection,
            key: _,
            at,
            rt,
        } = one;
        Held {
            connection: connection.hear(self.alloc, at),
            is_new: false,
            rt,
        }
    }

    fn leave_untold(&self, one: Answered<'a, J, W>, door: &mut Door<J>) {
        let Answered {
            connection,
            key: _,
            at,
            rt: _,
        } = one;
        door.leave_untold(self.alloc, connection, at);
    }

    fn leave(held: Held<'a, J, W>, door: &mut Door<J>) {
        let Held {
            connection,
            is_new: _,
            rt: _,
        } = held;
        door.leave(connection);
    }

    fn add_place(&self, places: &mut Vec<Place<'a, J, W>>) -> bool {
        let place = Place {
            held: None,
            rt: self.rt,
        };
        match places.push(place) {
            Ok(()) => true,
            Err(failed) => {
                drop(failed);
                false
            }
        }
    }

    fn put(place: &mut Place<'a, J, W>, held: Held<'a, J, W>) -> Option<Held<'a, J, W>> {
        place.held.replace(held)
    }

    fn take(place: &mut Place<'a, J, W>) -> Option<Held<'a, J, W>> {
        place.held.take()
    }

    fn held<'p>(place: &'p Place<'a, J, W>) -> Option<&'p Held<'a, J, W>> {
        place.held.as_ref()
    }

    fn held_mut<'p>(place: &'p mut Place<'a, J, W>) -> Option<&'p mut Held<'a, J, W>> {
        place.held.as_mut()
    }

    fn leave_all(
        &self,
        places: Vec<Place<'a, J, W>>,
        answered: Vec<Answered<'a, J, W>>,
        door: &mut Door<J>,
    ) {
        for place in places {
            if let Some(held) = place.held {
                Self::leave(held, door);
            }
        }
        for one in answered {
            self.leave_untold(one, door);
        }
    }

    fn idle_since(held: &Held<'a, J, W>) -> Option<Instant> {
        held.connection.idle_since()
    }

    fn head_since(held: &Held<'a, J, W>) -> Option<Instant> {
        held.connection.head_since()
    }

    fn is_over(held: &Held<'a, J, W>, now: Instant) -> bool {
        held.connection.is_over(now)
    }

    fn begins_no_head(held: &Held<'a, J, W>) -> bool {
        held.is_new && held.connection.begins_no_head()
    }
}

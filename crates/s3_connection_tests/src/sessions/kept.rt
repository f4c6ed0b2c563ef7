//! Connections that keep what comes while a command waits, and whose messages have the moments of a list. In their scripts
//! `turn` takes the turn that waits and answers it, what comes next is whether a command waits, and `feed` leaves nothing.
ghost use Rattle.std.specs.Prelude.{◌≡◌, ◌≢◌, true, false, None};
ghost use Rattle.s3_connection.specs.Connection.{taken_of};

use crate::sessions::parts::bytes_of;
use crate::sessions::server::{applied, moment};
use crate::sessions::steps::{Tried, goes};
use s3_calendar::Moment;
use s3_config::Config;
use s3_connection::{Connection, Wants};
use s3_records::MapRecords;
use s3_store::Store;
use s3_terms::NoMemory;
use std::alloc::Global;

// A connection over a store, and the moments of its messages, of which so many were given.
#[derive(Drop)]
struct Kept<'c, 'm> {
    config: &'c Config,
    connection: Connection,
    moments: &'m [Moment],
    given: usize,
    store: &'c mut Store<MapRecords>,
}

impl Kept<'_, '_> {
    // The moment of the next message.
    fn now(&self) -> Option<Moment> {
        match self.moments.get(self.given) {
            Some(moment) => Some(*moment),
            None => Some(*self.moments.last()?),
        }
    }

    // Counts a moment that was given.
    fn count(&mut self, is_given: bool) {
        if is_given {
            self.given = self.given.saturating_add(1);
        }
    }

    // Feeds a piece: whether there was memory.
    fn feed(&mut self, alloc: Global, names: &str) -> bool {
        let (Some(piece), Some(now)) = (bytes_of(alloc, names), self.now()) else {
            return false;
        };
        match self.connection.piece(alloc, self.config, now, &piece) {
            Ok(is_given) => {
                self.count(is_given);
                true
            }
            Err(_) => false,
        }
    }

    // Goes on behind an answer: whether there is a moment for it.
    fn go_on(&mut self, alloc: Global) -> bool {
        let Some(now) = self.now() else {
            return false;
        };
        let is_given = self.connection.go_on(alloc, self.config, now);
        self.count(is_given);
        true
    }

    // Takes the turn that waits, answers it and goes on: whether one did.
    fn answer(&mut self, alloc: Global) -> bool {
        match self.connection.take_turn() {
            None => false,
            Some(turn) => {
                let answer = applied(alloc, self.config, self.store, turn);
                self.connection.answer(alloc, answer);
                self.go_on(alloc)
            }
        }
    }

    // Takes the turn that waits, and drops it: whether one did.
    fn takes_turn(&mut self) -> bool
        ensures taken { result ≡ true → taken_of self.new.connection ≢ None }
        ensures same { result ≡ false → self.new.connection ≡ self.old.connection }
    {
        match self.connection.take_turn() {
            None => false,
            Some(turn) => {
                drop(turn);
                true
            }
        }
    }

    // Takes the turn that waits, at which memory runs out: whether one did, and was handed out once.
    fn starve(&mut self, alloc: Global) -> bool {
        if !self.takes_turn() || self.takes_turn() {
            return false;
        }
        self.connection.answer(alloc, Err(NoMemory));
        true
    }
}

impl Tried for Kept<'_, '_> {
    fn act(&mut self, alloc: Global, act: &str) -> bool {
        let (verb, rest) = act.split_once(' ').unwrap_or((act, ""));
        match verb {
            "feed" => self.feed(alloc, rest),
            "turn" => self.answer(alloc),
            "starve" => self.starve(alloc),
            "end" => {
                self.connection.end();
                true
            }
            _ => false,
        }
    }

    fn next(&self) -> &'static str {
        match self.connection.wants() {
            Wants::Answer => "waits",
            Wants::Input | Wants::ToGoOn | Wants::Nothing => "goes on",
        }
    }

    fn wrote(&mut self, alloc: Global, wanted: &[u8]) -> bool {
        let Ok(all) = self.connection.all(alloc) else {
            return false;
        };
        let is_front = all.starts_with(self.connection.out());
        self.connection.sent(all.len());
        is_front && all.as_slice() == wanted && self.connection.out().is_empty()
    }
}

/// Whether a connection goes as a script says, with the moment of the server, or with that and the next second.
pub(crate) fn holds(
    alloc: Global,
    config: &Config,
    store: &mut Store<MapRecords>,
    is_timed: bool,
    script: &str,
) -> bool {
    let Some(first) = moment() else {
        return false;
    };
    let second = Moment::new(first.seconds().saturating_add(1)).unwrap_or(first);
    let moments = [first, if is_timed { second } else { first }];
    let mut kept = Kept {
        config,
        connection: Connection::new(alloc),
        moments: &moments,
        given: 0,
        store,
    };
    let goes = goes(alloc, &mut kept, script);
    drop(kept);
    goes
}

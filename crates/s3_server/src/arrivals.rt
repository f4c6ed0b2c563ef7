//! How a worker takes the connections that come, and finds slots for them.

use crate::worker::{Now, Worker};
use mio::Token;
use s3_sockets::Service;
use std::io::ErrorKind;
use std::time::{Duration, Instant};

/// The token of the listener; no worker has so many places.
pub(crate) const LISTENER: Token = Token(usize::MAX);

// For how many milliseconds at least a worker with more than its share leaves those that wait to the others.
const LEAVES_THEM: u64 = 20;

/// What a worker does about the connections that wait.
#[derive(Clone, Copy)]
enum Stance {
    /// It takes one at a time, while it holds no more than its share.
    Shares,
    /// It holds more than that, and has left them to the others since then.
    Leaves(Instant),
    /// The others didn't take them: it takes one at a time until none is left.
    Takes,
}

/// The connections that come to a worker.
pub(crate) struct Arrivals<S: Service> {
    // Whether connections may wait to be taken; whether the listener has reported one since the last try; and whether
    // one that is held may be let go for such a one.
    pub(crate) has_waiting: bool,
    is_reported: bool,
    may_make_room: bool,
    // One that was taken, and has no slot yet; and whether the other workers were asked for one.
    taken: Option<S::Arrival>,
    has_asked: bool,
    stance: Stance,
}

impl<S: Service> Arrivals<S> {
    /// Some may wait.
    pub(crate) fn new() -> Arrivals<S> {
        Arrivals {
            has_waiting: true,
            is_reported: false,
            may_make_room: true,
            taken: None,
            has_asked: false,
            stance: Stance::Shares,
        }
    }

    /// Whether one was taken that has no slot yet.
    pub(crate) fn has_one(&self) -> bool {
        self.taken.is_some()
    }

    /// Whether it leaves those that wait to the other workers.
    pub(crate) fn are_left(&self) -> bool {
        matches!(self.stance, Stance::Leaves(_))
    }

    /// The listener has reported one.
    pub(crate) fn note_report(&mut self) {
        self.has_waiting = true;
        self.is_reported = true;
    }

    /// Some may wait, and others may be let go for them.
    pub(crate) fn expect_more(&mut self) {
        self.has_waiting = true;
        self.may_make_room = true;
    }

    /// The one that was taken, if one was.
    pub(crate) fn into_taken(self) -> Option<S::Arrival> {
        let Arrivals {
            has_waiting: _,
            is_reported: _,
            may_make_room: _,
            taken,
            has_asked: _,
            stance: _,
        } = self;
        taken
    }

    // Whether the peer of the one that was taken has gone.
    fn is_nobody_there(&self) -> bool {
        match &self.taken {
            Some(arrival) => S::has_gone(arrival),
            None => true,
        }
    }
}

impl<S: Service> Worker<'_, S> {
    /// Takes a connection that waits, if it may, and gives one up where another worker wants its slot.
    pub(crate) fn take_and_give_up(&mut self, now: &Now) {
        if self.may_take() && self.take_stance(now) {
            self.take_one(now);
        }
        self.let_in(now);
        self.give_up_one(now);
    }

    // Whether a connection may wait, none that was taken has no slot yet, and one more may come.
    fn may_take(&self) -> bool {
        self.arrivals.has_waiting && !self.arrivals.has_one() && self.slots.may_await()
    }

    // Takes a stance towards those that wait, and answers whether it takes one of them. With more than its share it
    // leaves them to the others for a while: each would wait here for those that it holds. Where the others don't come
    // to it, it takes them all the same.
    fn take_stance(&mut self, now: &Now) -> bool {
        let is_within = self.slots.is_within_share(self.held.len() as u64);
        self.arrivals.stance = match self.arrivals.stance {
            Stance::Takes => Stance::Takes,
            _ if is_within => Stance::Shares,
            Stance::Shares => Stance::Leaves(now.instant),
            Stance::Leaves(since) if is_over(since, now.instant) => Stance::Takes,
            Stance::Leaves(since) => Stance::Leaves(since),
        };
        !self.arrivals.are_left()
    }

    // Takes a connection that waits, if one more may come, and leaves the others: a worker that took all that wait would
    // serve them alone. It is awaited before it is taken, so that no worker takes one that is too many.
    fn take_one(&mut self, now: &Now) {
        if !self.slots.await_one() {
            return;
        }
        match S::accept(&mut self.held.door) {
            Ok(arrival) => {
                self.keep(arrival);
                self.arrivals.may_make_room = true;
            }
            Err(refused) => {
                self.slots.await_none();
                self.arrivals.has_waiting = self.recover(refused, now);
                self.arrivals.stance = Stance::Shares;
            }
        }
        self.arrivals.is_reported = false;
    }

    // Keeps one that was taken until there is a slot for it. None is kept already.
    fn keep(&mut self, arrival: S::Arrival) {
        match self.arrivals.taken.replace(arrival) {
            Some(before) => self.turn_away(before),
            None => {}
        }
    }

    // Has one leave that was taken, and for which there is no slot.
    fn turn_away(&mut self, arrival: S::Arrival) {
        self.service.turn_away(arrival, &mut self.held.door);
    }

    // Has the one leave that is kept, if one is.
    fn turn_away_kept(&mut self) {
        match self.arrivals.taken.take() {
            Some(arrival) => self.turn_away(arrival),
            None => {}
        }
    }

    // Does what can be done where one was refused so, and answers whether one may be taken at once. Beside what passes
    // by itself, the system lacks descriptors or memory.
    fn recover(&mut self, refused: ErrorKind, now: &Now) -> bool {
        match refused {
            ErrorKind::WouldBlock => false,
            ErrorKind::ConnectionAborted
            | ErrorKind::Interrupted
            | ErrorKind::NetworkDown
            | ErrorKind::NetworkUnreachable
            | ErrorKind::HostUnreachable => true,
            _ => self.make_room(now),
        }
    }

    // Lets a connection go for one that the system can't hand over, and answers whether it did: once, and if that was
    // no help, again after the next look. The system says that it lacks descriptors where nobody waits, too: where the
    // listener has reported nobody it is asked to.
    fn make_room(&mut self, now: &Now) -> bool {
        if !self.arrivals.is_reported {
            self.ask_who_waits();
            return false;
        }
        if !self.arrivals.may_make_room {
            return false;
        }
        self.arrivals.may_make_room = false;
        match self.spare_key(now) {
            Some(key) => {
                self.held.let_go(self.slots, key);
                true
            }
            None => false,
        }
    }

    // Has the listener report who waits already. If the system can't, the next look tries again.
    fn ask_who_waits(&mut self) {
        S::report_waiting(&mut self.held.door, self.poll.registry(), LISTENER);
    }

    // Lets the connection in that was taken, if there is a slot for it; where the server takes no more, it ends.
    fn let_in(&mut self, now: &Now) {
        if self.slots.is_full() {
            self.turn_away_kept();
        }
        if !self.arrivals.has_one() {
            self.ask_no_more();
            return;
        }
        if self.take_slot(now) {
            self.take_in(now);
        }
    }

    // Holds the connection that was taken, for which a slot is taken.
    fn take_in(&mut self, now: &Now) {
        let is_held = match self.arrivals.taken.take() {
            Some(arrival) => self.hold(arrival, now),
            None => false,
        };
        if !is_held {
            self.slots.give_slot();
        }
    }

    // Holds this connection, which is counted now, and answers whether it does.
    fn hold(&mut self, arrival: S::Arrival, now: &Now) -> bool {
        let Some(number) = self.slots.count_one() else {
            self.turn_away(arrival);
            return false;
        };
        self.held.hold(
            self.service,
            self.poll.registry(),
            arrival,
            number,
            now.instant,
        )
    }

    // Takes a slot for the connection that was taken, and answers whether it did: a free one, or that of the
    // connection which has waited longest for its next message, or whose head is longest on its way. Where it holds neither,
    // the other workers are asked.
    // It asks no more before it takes one, so that they offer none behind that; and no slot is given up for a
    // connection that has gone, which counts as one that came.
    fn take_slot(&mut self, now: &Now) -> bool {
        self.ask_no_more();
        if self.slots.take_slot() {
            return true;
        }
        if self.arrivals.is_nobody_there() {
            self.turn_away_kept();
            let _ = self.slots.count_one();
            return false;
        }
        if let Some(key) = self.spare_key(now) {
            self.held.let_go(self.slots, key);
        }
        if self.slots.take_slot() {
            return true;
        }
        self.slots.want_slot();
        self.arrivals.has_asked = true;
        false
    }

    /// Takes back that it asked the other workers for a slot, if it did.
    pub(crate) fn ask_no_more(&mut self) {
        if self.arrivals.has_asked {
            self.slots.want_no_slot();
            self.arrivals.has_asked = false;
        }
    }

    // Lets the connection go that has waited longest, as above, where another worker wants a slot, none is
    // free, and no third one lets one go for it.
    fn give_up_one(&mut self, now: &Now) {
        if self.arrivals.has_one() || self.slots.is_full() || !self.slots.lacks_slots() {
            return;
        }
        if let Some(key) = self.spare_key(now) {
            if self.slots.offer_slot() {
                self.held.let_go(self.slots, key);
                self.slots.offer_no_slot();
            }
        }
    }
}

// Whether a worker has left those that wait to the others for long enough.
fn is_over(since: Instant, now: Instant) -> bool {
    now.duration_since(since) >= Duration::from_millis(LEAVES_THEM)
}

//! The connections that a worker holds, each under a key.

use crate::slots::Slots;
use crate::worker::Now;
use mio::{Registry, Token};
use s3_driver::{Moved, State};
use s3_records::CommitError;
use s3_sockets::Service;
use std::alloc::Global;
use std::time::{Duration, Instant};

// How many milliseconds a connection has waited for its next message, or its head has been on its way, at least before
// it is let go for another one.
const LEAST_IDLE: u64 = 1000;

// For how many turns there is room from the beginning.
const TURNS: usize = 256;

/// The connections that a worker holds. Their keys are below `capacity`. Each leaves by the door when it is let go, or at the end.
pub(crate) struct ConnectionTable<S: Service> {
    // The places, by their keys; the keys of those that are free; and how many are taken. A connection whose turn is at the
    // store isn't in its place, which is its own still.
    places: Vec<S::Place>,
    free: Vec<usize>,
    count: usize,
    /// By which they come and leave.
    pub(crate) door: S::Door,
    // The keys of those whose turns wait, in their order; and those that haven't heard their answers. For the answers of those
    // that wait there is room.
    asking: Vec<usize>,
    answered: Vec<S::Answered>,
}

impl<S: Service> ConnectionTable<S> {
    /// None, of those that come by this door. It takes the memory for turns, or, where there is none, when they come.
    pub(crate) fn new(alloc: Global, door: S::Door) -> ConnectionTable<S> {
        ConnectionTable {
            places: Vec::new(alloc),
            free: Vec::new(alloc),
            count: 0,
            door,
            asking: list(alloc),
            answered: list(alloc),
        }
    }

    /// Has all leave that are still there, and the one that was taken and has no slot. Hands out the door.
    pub(crate) fn end(self, service: &S, taken: Option<S::Arrival>) -> S::Door {
        let ConnectionTable {
            places,
            free: _,
            count: _,
            mut door,
            asking: _,
            answered,
        } = self;
        match taken {
            Some(arrival) => service.turn_away(arrival, &mut door),
            None => {}
        }
        service.leave_all(places, answered, &mut door);
        door
    }

    /// Whether there is none.
    pub(crate) fn is_empty(&self) -> bool {
        self.count == 0
    }

    /// How many there are.
    pub(crate) fn len(&self) -> usize {
        self.count
    }

    /// A number that is greater than all keys.
    pub(crate) fn capacity(&self) -> usize {
        self.places.len()
    }

    /// Whether turns of some wait.
    pub(crate) fn has_turns(&self) -> bool {
        !self.asking.is_empty()
    }

    /// Whether some have answers that may not be told yet.
    pub(crate) fn has_unheard(&self) -> bool {
        !self.answered.is_empty()
    }

    /// Holds a connection that came as the one of this number, which is reported from now on, and answers whether it
    /// does: one for which there is no memory, or which the system can't report, leaves.
    pub(crate) fn hold(
        &mut self,
        service: &S,
        registry: &Registry,
        arrival: S::Arrival,
        number: u64,
        now: Instant,
    ) -> bool {
        let Some(key) = self.add(service, arrival, number, now) else {
            return false;
        };
        if self.register(registry, key) {
            return true;
        }
        self.remove(key);
        false
    }

    // The key of a further one, unless there is no memory for it: then it leaves.
    fn add(
        &mut self,
        service: &S,
        arrival: S::Arrival,
        number: u64,
        now: Instant,
    ) -> Option<usize> {
        let Some(key) = self.free_key(service) else {
            service.turn_away(arrival, &mut self.door);
            return None;
        };
        match service.open(arrival, number, now) {
            Ok(held) => {
                self.count = self.count.saturating_add(1);
                self.put(key, held);
                Some(key)
            }
            Err(arrival) => {
                self.free(key);
                service.turn_away(arrival, &mut self.door);
                None
            }
        }
    }

    // The key of a place that is free, which it isn't from now on.
    fn free_key(&mut self, service: &S) -> Option<usize> {
        if let Some(key) = self.free.pop() {
            return Some(key);
        }
        let key = self.places.len();
        if service.add_place(&mut self.places) {
            Some(key)
        } else {
            None
        }
    }

    // The place of this key is free. Where that can't be noted, it stays empty.
    fn free(&mut self, key: usize) {
        drop(self.free.push(key));
    }

    // Puts one into its place. One that was there leaves.
    fn put(&mut self, key: usize, held: S::Held) {
        let before = match self.places.get_mut(key) {
            Some(place) => S::put(place, held),
            None => Some(held),
        };
        match before {
            Some(held) => S::leave(held, &mut self.door),
            None => {}
        }
    }

    // The one under a key.
    fn get(&self, key: usize) -> Option<&S::Held> {
        S::held(self.places.get(key)?)
    }

    // Takes the one under a key out of its place.
    fn take(&mut self, key: usize) -> Option<S::Held> {
        S::take(self.places.get_mut(key)?)
    }

    // Has the one under a key reported from now on, and answers whether it is.
    fn register(&self, registry: &Registry, key: usize) -> bool {
        match self.get(key) {
            Some(held) => S::socket(held).register(registry, Token(key)),
            None => false,
        }
    }

    // Has the one under a key reported once more, if it is ready, and answers whether it is.
    fn report_again(&self, registry: &Registry, key: usize) -> bool {
        match self.get(key) {
            Some(held) => S::socket(held).report_again(registry, Token(key)),
            None => false,
        }
    }

    // Has the one under a key leave, and answers whether there was one.
    fn remove(&mut self, key: usize) -> bool {
        match self.take(key) {
            Some(held) => {
                S::leave(held, &mut self.door);
                self.forget(key);
                true
            }
            None => false,
        }
    }

    // The one that had this key has left.
    fn forget(&mut self, key: usize) {
        self.count = self.count.saturating_sub(1);
        self.free(key);
    }

    /// Has the one under a key leave, if there is one, and gives its slot back.
    pub(crate) fn let_go(&mut self, slots: &Slots, key: usize) {
        if self.remove(key) {
            slots.give_slot();
        }
    }

    /// Has the one under a key go on, if there is one. Where its turn waits, that is noted; where it has ended, it is let
    /// go.
    pub(crate) fn serve(
        &mut self,
        service: &S,
        slots: &Slots,
        buffer: &mut [u8],
        registry: &Registry,
        key: usize,
        now: &Now,
    ) {
        let Some(place) = self.places.get_mut(key) else {
            return;
        };
        let Some(held) = S::held_mut(place) else {
            return;
        };
        let moved = service.go_on(held, buffer, now.moment, now.instant);
        if !self.stays(registry, key, moved) {
            self.let_go(slots, key);
        }
    }

    // Whether the one under a key stays that has moved so. One that may go on is reported again, behind the others that
    // are ready.
    fn stays(&mut self, registry: &Registry, key: usize, moved: Moved) -> bool {
        match moved.state {
            State::Ended(_) => false,
            State::Turn => self.note_turn(key) || self.report_again(registry, key),
            _ if moved.may_go_on => self.report_again(registry, key),
            State::Head => !self.begins_no_head(key),
            State::Message | State::Body | State::Room | State::Closing => true,
        }
    }

    // Notes that the turn of the one under a key waits, and answers whether there is memory for that and for its answer.
    fn note_turn(&mut self, key: usize) -> bool {
        let waiting = self.asking.len();
        self.answered.reserve(waiting.saturating_add(1)).is_ok() && self.asking.push(key).is_ok()
    }

    // Whether the peer of the one under a key speaks another protocol.
    fn begins_no_head(&self, key: usize) -> bool {
        match self.get(key) {
            Some(held) => S::begins_no_head(held),
            None => false,
        }
    }

    /// Takes the turns that wait to the store in one go, in their order, and has each of their connections go on where their
    /// answers may be told. Else these wait, and with them those of earlier calls: the next call asks again, if turns wait then
    /// or not.
    ///
    /// # Errors
    ///
    /// `CommitError::NoMemory` where it isn't known yet whether the answers may be told; `CommitError::Failed` where they may never
    /// be, since what keeps the records has failed.
    pub(crate) fn take_turns(
        &mut self,
        service: &S,
        slots: &Slots,
        buffer: &mut [u8],
        registry: &Registry,
        now: &Now,
    ) -> Result<(), CommitError> {
        if !self.has_turns() && !self.has_unheard() {
            return Ok(());
        }
        let committed = self.submit_all(service, slots, now)?;
        self.tell_answers(service, slots, buffer, registry, now, &committed);
        Ok(())
    }

    // Takes the turns that wait to the store, and commits them with those before.
    fn submit_all(
        &mut self,
        service: &S,
        slots: &Slots,
        now: &Now,
    ) -> Result<S::Committed, CommitError> {
        let mut turns = service.begin();
        for place in 0..self.asking.len() {
            if let Some(&key) = self.asking.get(place) {
                self.submit(service, slots, key, &mut turns, now);
            }
        }
        self.asking.clear();
        S::commit(turns)
    }

    // Takes the turn of the one under a key to the store, if there is one. There is room for its answer; were there none, it
    // would leave.
    fn submit(&mut self, service: &S, slots: &Slots, key: usize, turns: &mut S::Turns, now: &Now) {
        let Some(held) = self.take(key) else {
            return;
        };
        match self.answered.push(S::submit(held, key, turns, now.instant)) {
            Ok(()) => {}
            Err(failed) => self.let_unheard_one_go(service, slots, failed.value),
        }
    }

    // Gives all their answers, in the order of their turns, and has each go on. They were committed.
    fn tell_answers(
        &mut self,
        service: &S,
        slots: &Slots,
        buffer: &mut [u8],
        registry: &Registry,
        now: &Now,
        committed: &S::Committed,
    ) {
        self.answered.reverse();
        for _ in 0..self.answered.len() {
            if let Some(answered) = self.answered.pop() {
                let key = self.hear(service, slots, answered, committed);
                self.serve(service, slots, buffer, registry, key, now);
            }
        }
    }

    /// Has those leave whose answers may not be told yet, untold.
    pub(crate) fn let_unheard_go(&mut self, service: &S, slots: &Slots) {
        for _ in 0..self.answered.len() {
            if let Some(answered) = self.answered.pop() {
                self.let_unheard_one_go(service, slots, answered);
            }
        }
    }

    // Has one leave whose answer may not be told: nothing of it is written.
    fn let_unheard_one_go(&mut self, service: &S, slots: &Slots, answered: S::Answered) {
        let key = S::key(&answered);
        service.leave_untold(answered, &mut self.door);
        self.forget(key);
        slots.give_slot();
    }

    // Gives one its answer, puts it back into its place, and answers the key of that. One whose answer wasn't committed leaves.
    fn hear(
        &mut self,
        service: &S,
        slots: &Slots,
        mut answered: S::Answered,
        committed: &S::Committed,
    ) -> usize {
        let key = S::key(&answered);
        if S::may_hear(&mut answered, committed) {
            self.put(key, service.hear(answered));
        } else {
            self.let_unheard_one_go(service, slots, answered);
        }
        key
    }

    /// The key of the one that has waited longest for its next message, and not just begun to; where none does, of the
    /// one whose head has been on its way longest.
    pub(crate) fn longest_idle(&self, now: Instant) -> Option<usize> {
        match self.first(now, false) {
            Some(key) => Some(key),
            None => self.first(now, true),
        }
    }

    // The key of the one that has waited longest for its next message, or for the rest of its head.
    fn first(&self, now: Instant, in_head: bool) -> Option<usize> {
        let mut longest: Option<(usize, Instant)> = None;
        for key in 0..self.places.len() {
            if let Some(since) = self.spare_since(key, now, in_head) {
                longest = match longest {
                    Some((_, before)) if before <= since => longest,
                    _ => Some((key, since)),
                };
            }
        }
        longest.map(|(key, _)| key)
    }

    // Since when the one under a key waits for its next message, or for the rest of its head, if not for so short a time
    // that it may be on its way.
    fn spare_since(&self, key: usize, now: Instant, in_head: bool) -> Option<Instant> {
        let held = self.get(key)?;
        let since = if in_head {
            S::head_since(held)?
        } else {
            S::idle_since(held)?
        };
        if now.duration_since(since) < Duration::from_millis(LEAST_IDLE) {
            return None;
        }
        Some(since)
    }

    /// Whether the one under a key may be let go for another one: it waits for its next message or for the rest of its
    /// head, and not just begun to.
    pub(crate) fn is_spare(&self, key: usize, now: Instant) -> bool {
        self.spare_since(key, now, false).is_some() || self.spare_since(key, now, true).is_some()
    }

    /// Whether the one under a key has waited too long.
    pub(crate) fn is_over(&self, key: usize, now: Instant) -> bool {
        match self.get(key) {
            Some(held) => S::is_over(held, now),
            None => false,
        }
    }
}

// A list with room for turns, where there is memory for it.
fn list<T>(alloc: Global) -> Vec<T> {
    match Vec::with_capacity(alloc, TURNS) {
        Ok(list) => list,
        Err(_) => Vec::new(alloc),
    }
}

//! A worker: it waits until some of its connections are ready, and has these go on.

use crate::arrivals::{Arrivals, LISTENER};
use crate::connection_table::ConnectionTable;
use crate::limits::Looks;
use crate::slots::Slots;
use mio::{Events, Poll};
use s3_calendar::Moment;
use s3_records::CommitError;
use s3_sockets::{Service, WorkerClock};
use std::alloc::{AllocError, Global};
use std::io;
use std::time::{Clock, Duration, Instant};

// How many events a wait reports at most.
const EVENTS: usize = 256;

// How many bytes a read takes at most.
const BUFFER: usize = 262_144;

// Milliseconds that it waits for events where the server goes on for ever, and where it ends some time, a connection is
// at the door or left to the others, or answers may not be told yet.
const PATIENCE: u64 = 1000;

const SHORT_PATIENCE: u64 = 20;

/// What a worker waits with, and what it reads into.
#[derive(Drop)]
pub(crate) struct Means {
    poll: Poll,
    memory: Memory,
}

/// The memory that a worker works with, but that of its connections.
#[derive(Drop)]
pub(crate) struct Memory {
    events: Events,
    buffer: Vec<u8>,
}

impl Memory {
    /// The memory of one worker.
    pub(crate) fn new(alloc: Global) -> Result<Memory, AllocError> {
        Ok(Memory {
            events: Events::with_capacity(alloc, EVENTS)?,
            buffer: Vec::from_elem(alloc, 0, BUFFER)?,
        })
    }
}

impl Means {
    /// What a worker waits with by this poll, which reports those that come under the token `LISTENER`.
    pub(crate) fn new(poll: Poll, memory: Memory) -> Means {
        Means { poll, memory }
    }
}

/// The time, as a worker reads it once whenever it has waited.
#[derive(Drop)]
pub(crate) struct Now {
    /// What messages have whose heads become whole.
    pub(crate) moment: Moment,
    /// What limits of time are counted by.
    pub(crate) instant: Instant,
}

/// A worker, with the connections that it holds. It isn't dropped but by its work.
pub(crate) struct Worker<'a, S: Service> {
    pub(crate) service: &'a S,
    pub(crate) slots: &'a Slots,
    pub(crate) poll: Poll,
    events: Events,
    buffer: Vec<u8>,
    clock: WorkerClock,
    pub(crate) held: ConnectionTable<S>,
    pub(crate) arrivals: Arrivals<S>,
    pub(crate) looks: Looks,
}

impl<'a, S: Service> Worker<'a, S> {
    /// A worker that holds nothing yet, for those that come by this door.
    pub(crate) fn new(
        service: &'a S,
        slots: &'a Slots,
        means: Means,
        clock: WorkerClock,
        door: S::Door,
    ) -> Worker<'a, S> {
        let Means { poll, memory } = means;
        let Memory { events, buffer } = memory;
        Worker {
            service,
            slots,
            poll,
            events,
            buffer,
            clock,
            held: ConnectionTable::new(service.memory(), door),
            arrivals: Arrivals::new(),
            looks: Looks::new(),
        }
    }

    /// Serves connections until no more are taken and the last one has ended, or the system or what keeps the records fails.
    /// Then it has all leave, and hands out the door.
    pub(crate) fn work(mut self) -> S::Door {
        let rt = self.service.runtime();
        self.slots.begin_work();
        for _ in rt.forever() {
            if self.is_done() || self.turn(rt).is_err() {
                break;
            }
        }
        self.slots.end_work();
        self.let_all_go();
        self.end()
    }

    // Gives back what it works with.
    fn end(self) -> S::Door {
        let Worker {
            service,
            slots: _,
            poll: _,
            events: _,
            buffer: _,
            clock: _,
            held,
            arrivals,
            looks: _,
        } = self;
        held.end(service, arrivals.into_taken())
    }

    // Whether what keeps the records has failed; or no more connections are taken, and the last one has ended.
    fn is_done(&self) -> bool {
        self.slots.has_failed()
            || (self.slots.is_full() && self.held.is_empty() && !self.arrivals.has_one())
    }

    // Waits once, and serves what is ready.
    fn turn(&mut self, rt: &S::Runtime) -> io::Result<()> {
        let patience = self.patience();
        self.poll.poll(&mut self.events, Some(patience))?;
        let now = Now {
            instant: Instant::now(rt)?,
            moment: self.clock.now(rt),
        };
        self.serve_ready(&now);
        self.take_turns(&now);
        self.take_and_give_up(&now);
        self.look(&now);
        Ok(())
    }

    // How long it waits for events.
    fn patience(&self) -> Duration {
        let is_short = self.arrivals.has_one() || self.arrivals.are_left();
        Duration::from_millis(if self.held.has_unheard() {
            SHORT_PATIENCE
        } else if self.held.has_turns() {
            0
        } else if is_short || self.slots.lacks_slots() {
            SHORT_PATIENCE
        } else if self.arrivals.has_waiting && self.slots.may_await() {
            0
        } else if self.slots.has_end() {
            SHORT_PATIENCE
        } else {
            PATIENCE
        })
    }

    // Has the connections go on that are ready; those that have ended are let go.
    fn serve_ready(&mut self, now: &Now) {
        for event in &self.events {
            let token = event.token();
            if token == LISTENER {
                self.arrivals.note_report();
                continue;
            }
            let (buffer, registry) = (self.buffer.as_mut_slice(), self.poll.registry());
            self.held
                .serve(self.service, self.slots, buffer, registry, token.0, now);
        }
    }

    // Takes the turns that wait to the store, and has their connections go on. Where what keeps the records has failed, none is
    // taken, and all workers are told so.
    fn take_turns(&mut self, now: &Now) {
        if self.slots.has_failed() {
            return;
        }
        let (buffer, registry) = (self.buffer.as_mut_slice(), self.poll.registry());
        let taken = self
            .held
            .take_turns(self.service, self.slots, buffer, registry, now);
        match taken {
            Ok(()) | Err(CommitError::NoMemory) => {}
            Err(CommitError::Failed) => self.slots.fail(),
        }
    }

    /// Has the connection under a key go on, if there is one.
    pub(crate) fn serve_key(&mut self, key: usize, now: &Now) {
        let (buffer, registry) = (self.buffer.as_mut_slice(), self.poll.registry());
        self.held
            .serve(self.service, self.slots, buffer, registry, key, now);
    }

    // Lets all go, and asks for nothing more. Another worker may take the one that was taken here and isn't counted.
    fn let_all_go(&mut self) {
        self.ask_no_more();
        if self.arrivals.has_one() {
            self.slots.await_none();
        }
        self.held.let_unheard_go(self.service, self.slots);
        for key in 0..self.held.capacity() {
            self.held.let_go(self.slots, key);
        }
    }
}

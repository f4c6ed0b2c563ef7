//! The slots for connections.

use std::sync::atomic::{AtomicBool, AtomicU64, Ordering};

/// How many connections came, how many came or are awaited, and how many are held; how many may come, and may be held, at
/// most; how many workers hold them, how many of these want a slot that another one may give, and how many offer one; and
/// whether what keeps the records has failed. All workers count in one, so that no clause can tell what a call finds;
/// tests tell it of one worker.
#[derive(Drop)]
pub struct Slots {
    came: AtomicU64,
    awaited: AtomicU64,
    most: Option<u64>,
    held: AtomicU64,
    most_held: u64,
    workers: AtomicU64,
    wants: AtomicU64,
    offers: AtomicU64,
    has_failed: AtomicBool,
}

impl Slots {
    /// None came yet, and what keeps the records hasn't failed. After `most` the server ends, without such a number it goes
    /// on for ever; and it holds no more than `most_held` at a time.
    pub fn new(most: Option<u64>, most_held: u64) -> Slots {
        Slots {
            came: AtomicU64::new(0),
            awaited: AtomicU64::new(0),
            most,
            held: AtomicU64::new(0),
            most_held,
            workers: AtomicU64::new(0),
            wants: AtomicU64::new(0),
            offers: AtomicU64::new(0),
            has_failed: AtomicBool::new(false),
        }
    }

    /// Whether one more connection may be awaited: fewer came or are awaited than may come at most.
    pub fn may_await(&self) -> bool {
        match self.most {
            Some(most) => self.awaited.load(Ordering::SeqCst) < most,
            None => true,
        }
    }

    /// Awaits a connection, if one more may be, and answers whether it does. A worker awaits one before it takes it, so that
    /// no more are taken than may come. Once it is there it is counted; where none is there it is awaited no longer.
    pub fn await_one(&self) -> bool {
        let Some(most) = self.most else {
            return true;
        };
        if self.awaited.fetch_add(1, Ordering::SeqCst) < most {
            return true;
        }
        self.await_none();
        false
    }

    /// One that was awaited, and isn't counted, is awaited no longer.
    pub fn await_none(&self) {
        if self.has_end() {
            self.awaited.fetch_sub(1, Ordering::SeqCst);
        }
    }

    /// Counts a connection that was awaited, and answers its number, from 1; `None` where it is one too many.
    pub fn count_one(&self) -> Option<u64> {
        let before = self.came.fetch_add(1, Ordering::SeqCst);
        match self.most {
            Some(most) if before >= most => None,
            _ => before.checked_add(1),
        }
    }

    /// Whether no more connections are taken.
    pub fn is_full(&self) -> bool {
        match self.most {
            Some(most) => self.came.load(Ordering::SeqCst) >= most,
            None => false,
        }
    }

    /// Whether the server ends some time.
    pub fn has_end(&self) -> bool {
        self.most.is_some()
    }

    /// Notes that what keeps the records has failed, for good: all workers end.
    pub fn fail(&self) {
        self.has_failed.store(true, Ordering::SeqCst);
    }

    /// Whether what keeps the records has failed.
    pub fn has_failed(&self) -> bool {
        self.has_failed.load(Ordering::SeqCst)
    }

    /// Takes the slot of one that is held, and answers whether there was one.
    pub fn take_slot(&self) -> bool {
        if self.held.load(Ordering::SeqCst) >= self.most_held {
            return false;
        }
        if self.held.fetch_add(1, Ordering::SeqCst) < self.most_held {
            return true;
        }
        self.give_slot();
        false
    }

    /// Counts a worker that takes connections.
    pub fn begin_work(&self) {
        self.workers.fetch_add(1, Ordering::SeqCst);
    }

    /// Counts such a worker no more.
    pub fn end_work(&self) {
        self.workers.fetch_sub(1, Ordering::SeqCst);
    }

    /// Whether a worker that holds this many connections has no more than its share of all that are held. While nothing
    /// comes or goes, that is so of one that works at least.
    pub fn is_within_share(&self, mine: u64) -> bool {
        let workers = self.workers.load(Ordering::SeqCst);
        mine.saturating_mul(workers) <= self.held.load(Ordering::SeqCst)
    }

    /// Gives a slot back.
    pub fn give_slot(&self) {
        self.held.fetch_sub(1, Ordering::SeqCst);
    }

    /// Counts a worker that wants a slot which another one may give, until it takes that back.
    pub fn want_slot(&self) {
        self.wants.fetch_add(1, Ordering::SeqCst);
    }

    /// Counts such a worker no more.
    pub fn want_no_slot(&self) {
        self.wants.fetch_sub(1, Ordering::SeqCst);
    }

    /// Whether more workers want a slot than there are free and offered ones.
    pub fn lacks_slots(&self) -> bool {
        self.lacks_beside(self.offers.load(Ordering::SeqCst))
    }

    /// Counts a worker that offers the slot of a connection, until it takes that back, if more workers want a slot
    /// than there are free and offered ones; answers whether it did.
    pub fn offer_slot(&self) -> bool {
        let offers = self.offers.fetch_add(1, Ordering::SeqCst);
        let lacks = self.lacks_beside(offers);
        if !lacks {
            self.offer_no_slot();
        }
        lacks
    }

    /// Counts such a worker no more.
    pub fn offer_no_slot(&self) {
        self.offers.fetch_sub(1, Ordering::SeqCst);
    }

    // Whether more workers want a slot than there are free ones and these that are offered.
    fn lacks_beside(&self, offers: u64) -> bool {
        let held = self.held.load(Ordering::SeqCst);
        let free = self.most_held.saturating_sub(held);
        self.wants.load(Ordering::SeqCst) > free.saturating_add(offers)
    }
}

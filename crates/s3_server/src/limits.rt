//! The limits of time, and which connections are idle.

use crate::worker::{Now, Worker};
use s3_sockets::Service;
use std::time::{Duration, Instant};

// Milliseconds between two looks at the time limits.
const BETWEEN_LOOKS: u64 = 1000;

// How many milliseconds pass before an idle connection is looked for again where there was none.
const BETWEEN_SEARCHES: u64 = 20;

/// When a worker looked last.
#[derive(Drop)]
pub(crate) struct Looks {
    // At the time limits.
    limits: Option<Instant>,
    // For an idle connection, and there was none.
    none_idle: Option<Instant>,
}

impl Looks {
    /// It has not looked yet.
    pub(crate) fn new() -> Looks {
        Looks {
            limits: None,
            none_idle: None,
        }
    }
}

// Whether a look that was made at a time, if one was, is so many milliseconds ago.
fn is_ago(looked: Option<Instant>, millis: u64, now: Instant) -> bool {
    match looked {
        Some(looked) => now.duration_since(looked) >= Duration::from_millis(millis),
        None => true,
    }
}

impl<S: Service> Worker<'_, S> {
    /// Has each connection that has waited too long go on once more, and lets it go if it waits still, if it didn't
    /// look just now.
    pub(crate) fn look(&mut self, now: &Now) {
        if !is_ago(self.looks.limits, BETWEEN_LOOKS, now.instant) {
            return;
        }
        self.looks.limits = Some(now.instant);
        self.arrivals.expect_more();
        for key in 0..self.held.capacity() {
            if self.held.is_over(key, now.instant) {
                self.try_again(key, now);
            }
        }
    }

    // Has the connection under a key go on that has waited too long, and lets it go if it does so still. The system
    // tells of room only where much of it is free, so that a peer which takes its reply slowly isn't reported for
    // minutes.
    fn try_again(&mut self, key: usize, now: &Now) {
        self.serve_key(key, now);
        if self.held.is_over(key, now.instant) {
            self.held.let_go(self.slots, key);
        }
    }

    /// The key of the connection that has waited longest for its next message, or, where none does, for the rest of its
    /// head; and waits for it still where it has gone on once more: a request may just have come. To look through all of
    /// them takes time where there are thousands.
    pub(crate) fn spare_key(&mut self, now: &Now) -> Option<usize> {
        if !is_ago(self.looks.none_idle, BETWEEN_SEARCHES, now.instant) {
            return None;
        }
        let Some(key) = self.held.longest_idle(now.instant) else {
            self.looks.none_idle = Some(now.instant);
            return None;
        };
        self.serve_key(key, now);
        if self.held.is_spare(key, now.instant) {
            Some(key)
        } else {
            None
        }
    }
}

//! The moments that the system's clock gives.

use s3_calendar::Moment;
use std::time;

/// The system's clock, as a worker asks it. Where it can't be read, or is past the year 9999, it gives the last moment
/// that it gave, and the first of 1970 before it gave one. No clause knows what the system gives.
#[derive(Drop)]
pub struct WorkerClock {
    last: Moment,
}

impl WorkerClock {
    /// The clock. `None` never comes, though no contract can say so.
    pub fn new() -> Option<WorkerClock> {
        Some(WorkerClock {
            last: Moment::new(0)?,
        })
    }

    /// The moment that the system gives.
    pub fn now<W: time::Clock>(&mut self, rt: &W) -> Moment {
        if let Some(moment) = moment_now(rt) {
            self.last = moment;
        }
        self.last
    }
}

// The moment that the system's clock gives.
fn moment_now<W: time::Clock>(rt: &W) -> Option<Moment> {
    match rt.since_1970() {
        Ok(since) => Moment::new(since.as_secs()),
        Err(_) => None,
    }
}

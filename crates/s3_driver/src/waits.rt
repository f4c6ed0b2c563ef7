//! What a connection waits for, and since when.

ghost use Rattle.std.specs.Prelude.{◌≡◌};

use crate::state::{Moved, State};
use std::time::Instant;

// What a connection waits for, or how it has ended, and since when.
#[derive(Clone, Copy)]
pub(crate) struct Waits {
    pub(crate) state: State,
    pub(crate) since: Instant,
}

impl Waits {
    // For the first message of a connection that comes now.
    pub(crate) fn new(now: Instant) -> Waits
        ensures { result.state ≡ State.Message }
    {
        Waits {
            state: State::Message,
            since: now,
        }
    }

    // Notes how it has moved.
    pub(crate) fn note(&mut self, moved: Moved, now: Instant)
        ensures { self.new.state ≡ moved.state }
    {
        self.since = moved.state.since(
            self.state,
            self.since,
            moved.has_read,
            moved.has_written,
            now,
        );
        self.state = moved.state;
    }

    // Since when it waits for the next message, or for its peer's end; `None` where a part of a message has come, or a
    // reply isn't out.
    pub(crate) fn idle_since(self) -> Option<Instant> {
        match self.state {
            State::Message | State::Closing | State::Ended(_) => Some(self.since),
            State::Head | State::Body | State::Turn | State::Room => None,
        }
    }

    // Since when a head is on its way, if one is.
    pub(crate) fn head_since(self) -> Option<Instant> {
        match self.state {
            State::Head => Some(self.since),
            _ => None,
        }
    }

    // Whether it has waited too long.
    pub(crate) fn is_over(self, now: Instant) -> bool {
        self.state.is_over(self.since, now)
    }
}

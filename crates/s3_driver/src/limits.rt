//! How long a connection may keep its place while nothing comes or goes.

ghost use Rattle.std.specs.Prelude.{◌≡◌, ◌-◌, ◌/◌, if◌then◌else◌};
ghost use Rattle.std.specs.Duration.{as_nanos};
ghost use Rattle.std.specs.Time.{instant_nanos};
ghost use Rattle.s3_driver.specs.Limits.{begins_anew, is_too_long, most_seconds};

use crate::state::State;
use std::time::{Duration, Instant};

// Seconds between two messages.
const BETWEEN: u64 = 300;

// Seconds for a head from its first byte on, for a body of which nothing comes, and for a peer that takes nothing.
const WITHIN: u64 = 60;

// Seconds for what a peer still sends after the end.
const BEHIND: u64 = 5;

impl State {
    // How many seconds it may last.
    fn seconds(self) -> u64
        ensures { result ≡ most_seconds self }
    {
        match self {
            State::Message => BETWEEN,
            State::Head | State::Body | State::Turn | State::Room => WITHIN,
            State::Closing => BEHIND,
            State::Ended(_) => 0,
        }
    }

    /// Since when a connection stands so, which stood as it did `before` since a moment, where bytes have
    /// come or went now. A head has its time from its first byte on; it is another one where something was written in
    /// between. The end has its time from now on.
    pub fn since(
        self,
        before: State,
        since: Instant,
        has_read: bool,
        has_written: bool,
        now: Instant,
    ) -> Instant
        ensures { result ≡ (if begins_anew before self has_read has_written then now else since) }
    {
        match (before, self) {
            (_, State::Closing | State::Ended(_)) => now,
            _ if has_written => now,
            (State::Head, State::Head) => since,
            _ if has_read => now,
            _ => since,
        }
    }

    /// Whether a connection that has stood so since a moment has waited too long now.
    pub fn is_over(self, since: Instant, now: Instant) -> bool
        ensures { result ≡ is_too_long self ((instant_nanos now - instant_nanos since) / 1_000_000_000) }
    {
        self.is_too_long(now.duration_since(since))
    }

    /// Whether it has lasted too long where it has lasted this long: as many whole seconds as it may, or more.
    pub fn is_too_long(self, waited: Duration) -> bool
        ensures { result ≡ is_too_long self (as_nanos waited / 1_000_000_000) }
    {
        waited.as_secs() >= self.seconds()
    }
}

//! How long a connection may wait for what, and since when it does.
use s3_driver::{Ending, State};
use std::time::{Clock, Duration, Instant};

// How a connection stands, how many milliseconds have passed, and whether that is too long: 300 seconds between two messages, 60 for a
// head, for a body of which nothing comes, for a turn and for a peer that takes nothing, 5 for what comes after the end, and none for
// one that has ended.
static WAITS: [(State, u64, bool); 18] = [
    (State::Message, 0, false),
    (State::Message, 60_000, false),
    (State::Message, 299_999, false),
    (State::Message, 300_000, true),
    (State::Message, 300_001, true),
    (State::Head, 0, false),
    (State::Head, 59_999, false),
    (State::Head, 60_000, true),
    (State::Body, 59_999, false),
    (State::Body, 60_000, true),
    (State::Turn, 59_999, false),
    (State::Turn, 60_000, true),
    (State::Room, 59_999, false),
    (State::Room, 60_000, true),
    (State::Closing, 0, false),
    (State::Closing, 4_999, false),
    (State::Closing, 5_000, true),
    (State::Ended(Ending::Closed), 0, true),
];

// How a connection stood, and how it stands now; whether bytes have come, and gone; and whether its time begins anew.
static CHANGES: [(State, State, bool, bool, bool); 11] = [
    (State::Message, State::Message, false, false, false),
    (State::Message, State::Head, true, false, true),
    (State::Head, State::Head, true, false, false),
    (State::Head, State::Head, true, true, true),
    (State::Head, State::Body, true, false, true),
    (State::Body, State::Body, true, false, true),
    (State::Body, State::Body, false, false, false),
    (State::Room, State::Room, false, true, true),
    (State::Room, State::Message, false, true, true),
    (State::Room, State::Closing, false, false, true),
    (
        State::Closing,
        State::Ended(Ending::Closed),
        false,
        false,
        true,
    ),
];

// How many seconds ago its time began.
const AGO: u64 = 30;

// Whether a connection that stands so since a moment has waited too long after so many milliseconds.
fn is_over(state: State, since: Instant, millis: u64) -> Option<bool> {
    let now = since.checked_add(Duration::from_millis(millis))?;
    Some(state.is_over(since, now))
}

// Whether each wait is as it says.
fn are_limited(since: Instant) -> bool {
    for (state, millis, wanted) in &WAITS {
        if is_over(*state, since, *millis) != Some(*wanted) {
            return false;
        }
    }
    true
}

// Whether each change is as it says, where time had begun at one moment.
fn begin_anew(since: Instant, now: Instant) -> bool {
    for (before, state, has_read, has_written, wanted) in &CHANGES {
        let begun = state.since(*before, since, *has_read, *has_written, now);
        if (begun == now) != *wanted {
            return false;
        }
    }
    true
}

/// Whether waits are limited as they have to be.
pub(crate) fn waits_are_limited<R: Clock>(rt: &R) -> bool {
    let Ok(since) = Instant::now(rt) else {
        return false;
    };
    match since.checked_add(Duration::from_secs(AGO)) {
        Some(now) => are_limited(since) && begin_anew(since, now),
        None => false,
    }
}

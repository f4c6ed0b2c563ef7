//! How a connection over a device stands.

ghost use Rattle.std.specs.Prelude.{◌≡◌, true, false};
ghost use Rattle.s3_driver.specs.Served.{departure_of, ending_of, moved_then};

/// How a connection has ended.
#[derive(Clone, Copy, PartialEq, Eq)]
pub enum Ending {
    /// The end of its input was read, or its output has ended; all of that is written.
    Closed,
    /// A read failed.
    ReadFailed,
    /// A write failed, or took nothing.
    WriteFailed,
}

/// How a connection left its worker.
#[derive(Clone, Copy, PartialEq, Eq)]
pub enum Departure {
    /// There was no place or no memory for it: nothing was read and nothing written.
    TurnedAway,
    /// It was given up: its time was over, its place was wanted, or the server ended.
    GivenUp,
    /// It has ended so.
    Ended(Ending),
}

/// What a connection over a device waits for, or how it has ended.
#[derive(Clone, Copy, PartialEq, Eq)]
pub enum State {
    /// The next message, of which nothing has come.
    Message,
    /// The rest of a message's head.
    Head,
    /// The rest of a body whose head was admitted, or that it may go on.
    Body,
    /// That its turn at the store is taken and answered.
    Turn,
    /// That its device takes what is written.
    Room,
    /// That its peer ends too: all is written, its device was told so, and what still comes is dropped.
    Closing,
    /// Nothing: it has ended so.
    Ended(Ending),
}

impl State {
    // How one leaves that stands so.
    pub(crate) fn departure(self) -> Departure
        ensures { result ≡ departure_of (ending_of self) }
    {
        match self {
            State::Ended(ending) => Departure::Ended(ending),
            State::Closing => Departure::Ended(Ending::Closed),
            State::Message | State::Head | State::Body | State::Turn | State::Room => {
                Departure::GivenUp
            }
        }
    }
}

/// How a connection has moved over its device.
#[derive(Clone, Copy)]
pub struct Moved {
    /// What it waits for now, or how it has ended.
    pub state: State,
    /// Whether it made all moves that it was given, and may go on at once.
    pub may_go_on: bool,
    /// Whether bytes came.
    pub has_read: bool,
    /// Whether bytes went.
    pub has_written: bool,
}

impl Moved {
    // It stopped so, and nothing came or went.
    pub(crate) fn stopped(state: State) -> Moved
        ensures { result ≡ record { state = state; may_go_on = false; has_read = false; has_written = false } }
    {
        Moved {
            state,
            may_go_on: false,
            has_read: false,
            has_written: false,
        }
    }

    // It made a move, behind which it stands so, and may go on; some bytes came or went, or not.
    pub(crate) fn on(state: State, has_read: bool, has_written: bool) -> Moved
        ensures { result ≡ record { state = state; may_go_on = true; has_read = has_read; has_written = has_written } }
    {
        Moved {
            state,
            may_go_on: true,
            has_read,
            has_written,
        }
    }

    // What it did after this.
    pub(crate) fn then(self, next: Moved) -> Moved
        ensures { result ≡ moved_then self next }
    {
        Moved {
            state: next.state,
            may_go_on: next.may_go_on,
            has_read: self.has_read || next.has_read,
            has_written: self.has_written || next.has_written,
        }
    }
}

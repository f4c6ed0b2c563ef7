//! Why a text spells no events.

ghost use Rattle.std.specs.Prelude.{◌≡◌};
ghost use Rattle.s3_events.specs.declared.error.EventsError.TheVariants.{OutOfMemory};

use s3_terms::NoMemory;

/// Why a text spells no events.
#[derive(Clone, Copy)]
pub enum EventsError {
    /// The line with this number, from 1, is the first that is wrong.
    BadLine(usize),
    /// There was no memory.
    OutOfMemory,
}

impl From<NoMemory> for EventsError {
    ghost from_gives = { λ _ error. error ≡ OutOfMemory };

    fn from(_e: NoMemory) -> EventsError {
        EventsError::OutOfMemory
    }
}

//! What a command waits for.

use crate::Command;
use s3_calendar::Moment;

/// What a command waits for: to be applied at this moment, that of its message.
#[derive(Drop)]
pub struct Turn {
    /// What is to be applied.
    pub command: Command,
    /// The moment of its message, at which it is applied.
    pub moment: Moment,
}

//! Who is told what becomes of the messages of a connection.

use crate::told::Told;
use s3_calendar::Moment;
use std::time::Instant;

/// Who is told what becomes of the messages of a connection, in their order. It answers nothing, so nothing that the
/// connection does depends on it.
pub trait MessageObserver {
    /// A message begins: its whole head has come at this moment, or more than a head may have.
    fn begins(&mut self, now: Moment);

    /// It ends so. `head` is what has come of its head's text, where memory held that. `is_verified` says whether the
    /// signature of that head was verified.
    fn ends(&mut self, head: Option<&[u8]>, is_verified: bool, told: Told);

    /// So many bytes were written, and whether nothing is left to write.
    fn wrote(&mut self, count: usize, is_all: bool);

    /// What is told from now on was found ready at a time.
    fn at(&mut self, now: Instant);

    /// The connection leaves: nothing more is told.
    fn leaves(&mut self);
}

/// Nobody is told.
#[derive(Clone, Copy)]
pub struct Nobody;

impl MessageObserver for Nobody {
    fn begins(&mut self, _now: Moment) {}

    fn ends(&mut self, _head: Option<&[u8]>, _is_verified: bool, _told: Told) {}

    fn wrote(&mut self, _count: usize, _is_all: bool) {}

    fn at(&mut self, _now: Instant) {}

    fn leaves(&mut self) {}
}

//! Moments that are counted.
use crate::sessions::server::moment;
use s3_calendar::Moment;

/// Moments for messages: 2013-05-24T00:00:00Z first, and for each later message a moment so many seconds later.
#[derive(Clone, Copy, Drop)]
pub(crate) struct Counting {
    /// The next one.
    pub(crate) next: Moment,
    pace: u64,
    /// How many messages had one.
    pub(crate) count: usize,
}

impl Counting {
    /// No message had one yet, and they go on by so many seconds.
    pub(crate) fn new(pace: u64) -> Option<Counting> {
        let next = moment()?;
        Some(Counting {
            next,
            pace,
            count: 0,
        })
    }

    // A message had the next one.
    fn go_on(&mut self) {
        let seconds = self.next.seconds().saturating_add(self.pace);
        self.next = Moment::new(seconds).unwrap_or(self.next);
        self.count = self.count.saturating_add(1);
    }

    /// A message had the next one, if it is so.
    pub(crate) fn go_on_if(&mut self, is_so: bool) {
        if is_so {
            self.go_on();
        }
    }
}

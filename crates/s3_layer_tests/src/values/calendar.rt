//! Tests of `s3_calendar`: stamps and the moments that they name.

use crate::checks::{Row, all_hold};
use s3_calendar::{Moment, Stamp};
use std::alloc::Global;

fn seconds_of(text: &[u8]) -> Option<u64> {
    match Stamp::read(text) {
        Some(stamp) => Some(stamp.moment().seconds()),
        None => None,
    }
}

// Whether the stamp of the moment of so many seconds is this text, and the text's first 8 bytes its date.
fn is_written(seconds: u64, text: &[u8]) -> bool {
    match Moment::new(seconds) {
        Some(moment) => is_stamp(&Stamp::at(moment), text),
        None => false,
    }
}

fn is_stamp(stamp: &Stamp, text: &[u8]) -> bool {
    stamp.text() == text && stamp.date() == &text[..text.len().min(8)]
}

// A text, and the seconds of the moment that it names; texts that are no stamps name none.
struct Case(&'static [u8], Option<u64>);

// The seconds are those of Python's `calendar.timegm`.
static CASES: [Case; 17] = [
    Case(b"19700101T000000Z", Some(0)),
    Case(b"20000229T235959Z", Some(951_868_799)),
    Case(b"20130524T000000Z", Some(1_369_353_600)),
    Case(b"20130524T235959Z", Some(1_369_439_999)),
    Case(b"20160229T120000Z", Some(1_456_747_200)),
    Case(b"21000228T235959Z", Some(4_107_542_399)),
    Case(b"99991231T235959Z", Some(253_402_300_799)),
    Case(b"20150229T120000Z", None),
    Case(b"21000229T000000Z", None),
    Case(b"20131324T000000Z", None),
    Case(b"20130524T000060Z", None),
    Case(b"20130524T240000Z", None),
    Case(b"19691231T235959Z", None),
    Case(b"20130524t000000z", None),
    Case(b"2013052T000000Z", None),
    Case(b"20130524T000000ZZ", None),
    Case(b"2013-0524T00000Z", None),
];

// Whether the text is read as that, and written for it.
impl Row for Case {
    fn holds(&self, _alloc: Global) -> bool {
        match self.1 {
            Some(seconds) => seconds_of(self.0) == Some(seconds) && is_written(seconds, self.0),
            None => seconds_of(self.0).is_none(),
        }
    }
}

/// Whether stamps are read and written so, and there is no moment beyond the last one.
pub(crate) fn hold(alloc: Global) -> bool {
    all_hold(alloc, &CASES) && Moment::new(253_402_300_800).is_none()
}

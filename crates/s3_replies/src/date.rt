//! The dates of HTTP.

ghost use Rattle.std.specs.Prelude.{◌≡◌, ◌≤◌, length};
ghost use Rattle.s3_replies.specs.Date.{IsHttpDate};

use httpdate::HttpDate;
use s3_calendar::Moment;
use std::marker::Model;

/// The bytes of a date.
const DATE_LEN: usize = 29;

/// A date of HTTP. Contracts see it as its text.
#[derive(Clone, Copy)]
pub(crate) struct DateText {
    bytes: [u8; DATE_LEN],
}

impl Model for DateText {
    ghost use Rattle.std.specs.Prelude.{ℕ, List};

    ghost Value = { List ℕ };

    ghost view = { λ date. date.bytes };

    ghost inverse = { λ text. record { bytes = text } };
}

impl DateText {
    /// The moment as a date of HTTP.
    pub(crate) fn of(moment: Moment) -> DateText
        ensures { IsHttpDate moment result }
    {
        match HttpDate::from_unix_secs(moment.seconds()) {
            Ok(date) => DateText {
                bytes: date.to_bytes(),
            },
            // Each moment is before the year 10000, up to which dates of HTTP go.
            Err(_) => unreachable!(),
        }
    }

    /// Its bytes.
    pub(crate) fn as_bytes(&self) -> &[u8]
        ensures value { result.now ≡ self.now }
        ensures bound { length self.now ≤ 29 }
    {
        self.bytes.as_slice()
    }
}

//! The dates of conditions.
ghost use Rattle.std.specs.Prelude.{◌≡◌};
ghost use Rattle.httpdate.specs.Date.{parse_secs};
ghost use Rattle.s3_conditions.specs.Dates.{ShowsDate};

use httpdate::HttpDate;
use s3_calendar::Moment;

/// The moment that a text shows as a date of HTTP (RFC 9110, section 5.6.7), in any of its three formats, with no white space round
/// it. `None` for any other text, and so for a date before 1970, for second 60 and for a wrong day of the week: a condition with it
/// doesn't count. Each date that is read is a moment, since both end with the year 9999.
pub fn read_date(text: &[u8]) -> Option<Moment>
    ensures shown { ShowsDate text.now result }
    ensures value { result ≡ parse_secs text.now }
{
    let Ok(date) = HttpDate::parse_ascii(text) else {
        return None;
    };
    Moment::new(date.unix_secs())
}

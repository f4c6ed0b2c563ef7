//! Moments, the stamps that name them, and the text of a stamp.
ghost use Rattle.std.specs.Prelude.{◌≡◌, ◌+◌, ◌/◌, ◌%◌, ◌<◌, ◌≤◌, length, pos, ◌≤ℤ◌, IsTrue, if◌then◌else◌, IfSome, SomeIff, is_some, unsigned_abs};
ghost use Rattle.std.specs.List.{list_all};
ghost use Rattle.std.specs.Char.{is_ascii_digit};
ghost use Rattle.std.specs.Str.Parse.{digits_value};
ghost use Rattle.jiff_core.specs.Date.{epoch_day, IsYmd};
ghost use Rattle.jiff_core.specs.Time.{time_seconds};
ghost use Rattle.s3_calendar.specs.Moment.{last_moment, is_stamp, is_stamp_form, stamp_seconds, stamp_date, stamp_year, stamp_month, stamp_day, stamp_hour, stamp_minute, stamp_second, is_day, day_number, is_time, second_of_day, is_stamp_date, stamp_day_number, is_stamp_time, stamp_second_of_day, OneStampForEachMoment};

use jiff_core::civil::{Date, Time};
use s3_text::has_digits_alone;
use std::marker::Model;

/// The last second of the year 9999.
const LAST_MOMENT: u64 = 253_402_300_799;

/// The seconds of a day.
const DAY_SECONDS: u64 = 86_400;

/// A moment: whole seconds since 1970-01-01T00:00:00Z, without leap seconds, up to the last second
/// of the year 9999.
#[derive(Clone, Copy, PartialEq, Eq)]
pub struct Moment {
    seconds: u64,
}

impl Model for Moment {
    ghost use Rattle.std.specs.Prelude.{ℕ, ◌≤◌};
    ghost use Rattle.s3_calendar.specs.Moment.{last_moment};

    ghost Value = { ℕ };

    ghost view = { λ m. m.seconds };

    ghost invariant = { λ m. m.seconds ≤ last_moment };

    ghost inverse = { λ n. record { seconds = n } };
}

impl Moment {
    /// The moment that many seconds after 1970-01-01T00:00:00Z; `None` after the year 9999.
    pub fn new(seconds: u64) -> Option<Moment>
        ensures { SomeIff result (seconds ≤ last_moment) seconds }
    {
        if seconds > LAST_MOMENT {
            return None;
        }
        Some(Moment { seconds })
    }

    /// The seconds since 1970-01-01T00:00:00Z.
    pub fn seconds(self) -> u64
        ensures value { result ≡ self }
        ensures bound { result ≤ last_moment }
    {
        self.seconds
    }
}

/// A stamp, as `20130524T000000Z`: the date and the time of day of a moment (AWS Signature
/// Version 4: the basic format of ISO 8601, `yyyymmddThhmmssZ`).
#[derive(Clone, Copy)]
pub struct Stamp {
    text: [u8; 16],
    seconds: u64,
}

impl Model for Stamp {
    ghost use Rattle.std.specs.Prelude.{◌≡◌, ℕ, List, IsTrue, ◌≤◌};
    ghost use Rattle.std.proofs.Common.{sym, ap};
    ghost use Rattle.s3_calendar.specs.Moment.{last_moment, is_stamp, stamp_seconds};

    ghost Value = { List ℕ };

    ghost view = { λ s. s.text };

    ghost invariant = { λ s. IsTrue (is_stamp s.text) × (s.seconds ≡ stamp_seconds s.text)
        × (s.seconds ≤ last_moment) };

    ghost inverse = { λ t. record { text = t; seconds = stamp_seconds t } };

    ghost inverse_ok = { λ s h. ap (λ (n : ℕ). record { text = s.text; seconds = n }) (sym h.1) };
}

impl Stamp {
    /// The stamp that a text is: sixteen bytes that spell a day of the calendar, in the years 1970
    /// to 9999, and a time of that day. Any other text is `None`, and so is second 60.
    #[tactic(auto, using(crate::proofs::MomentLemmas::stamps))]
    pub fn read(text: &[u8]) -> Option<Stamp>
        ensures { result ≡ (if is_stamp text.now then Some text.now else None) }
    {
        let seconds = read_seconds(text)?;
        let text = text.try_into().ok()?;
        Some(Stamp { text, seconds })
    }

    /// The stamp that names the moment.
    pub fn at(moment: Moment) -> Stamp
        ensures valid { IsTrue (is_stamp result) }
        ensures names { stamp_seconds result ≡ moment }
    {
        let seconds = moment.seconds();
        Stamp {
            text: text_at(seconds),
            seconds,
        }
    }

    /// The moment that the stamp names: the one whose stamp it is.
    pub fn moment(&self) -> Moment
        ensures { result ≡ stamp_seconds self.now }
    {
        Moment {
            seconds: self.seconds,
        }
    }

    /// Its date, as `20130524`: the first eight bytes.
    pub fn date(&self) -> &[u8]
        ensures { result.now ≡ stamp_date self.now }
    {
        &self.text[..8]
    }

    /// Its sixteen bytes.
    pub fn text(&self) -> &[u8]
        ensures text { result.now ≡ self.now }
        ensures valid { IsTrue (is_stamp self.now) }
    {
        self.text.as_slice()
    }
}

/// Each moment has one stamp: two that name it are the same text.
pub fn stamps_of_a_moment()
    ensures { OneStampForEachMoment }
{}

// The seconds of the moment that a text names, if it is a stamp.
#[tactic(auto, unfolding(crate::specs::Moment::is_stamp, crate::specs::Moment::stamp_seconds))]
fn read_seconds(text: &[u8]) -> Option<u64>
    ensures value { result
        ≡ (if is_stamp text.now then Some (stamp_seconds text.now) else None) }
    ensures bound { IfSome result (λ n. n ≤ last_moment) }
{
    if !has_form(text) {
        return None;
    }
    let day = read_date(text)?;
    let second = read_time(text)?;
    Some(day as u64 * DAY_SECONDS + second as u64)
}

// Whether the text has the digits and the two letters of a stamp.
fn has_form(text: &[u8]) -> bool
    ensures { result ≡ is_stamp_form text.now }
{
    text.len() == 16
        && has_digits_alone(&text[..8])
        && text[8] == b'T'
        && has_digits_alone(&text[9..15])
        && text[15] == b'Z'
}

// The days from 1970-01-01 to the date of a text of the right form, if there is such a day.
#[tactic(auto, using(crate::proofs::MomentLemmas::digits), unfolding(crate::specs::Moment::is_stamp_date, crate::specs::Moment::stamp_day_number))]
fn read_date(text: &[u8]) -> Option<u32>
    requires { IsTrue (is_stamp_form text.now) }
    ensures value { result
        ≡ (if is_stamp_date text.now then Some (stamp_day_number text.now) else None) }
    ensures bound { IfSome result (λ n. n ≤ 2_932_896) }
{
    let year = four_digits(&text[..4]);
    let month = two_digits(&text[4..6]);
    let day = two_digits(&text[6..8]);
    day_number(year, month, day)
}

// The days from 1970-01-01 to a day of the calendar; `None` where the calendar has no such day, or
// has it before 1970.
#[tactic(auto, using(crate::proofs::MomentLemmas::day_numbers))]
fn day_number(year: u16, month: u8, day: u8) -> Option<u32>
    requires year_in { year < 10_000 }
    requires month_in { month < 100 }
    requires day_in { day < 100 }
    ensures value { result
        ≡ (if is_day year month day then Some (day_number year month day) else None) }
    ensures bound { IfSome result (λ n. n ≤ 2_932_896) }
{
    let date = date_of(year, month, day)?;
    Some(date.to_unix_epoch_day().unsigned_abs())
}

// That day of the calendar; `None` where the calendar has no such day, or has it before 1970.
#[tactic(auto, using(crate::proofs::MomentLemmas::dates))]
fn date_of(year: u16, month: u8, day: u8) -> Option<Date>
    requires year_in { year < 10_000 }
    requires month_in { month < 100 }
    requires day_in { day < 100 }
    ensures variant { is_some result ≡ is_day year month day }
    ensures value { IfSome result (IsYmd (pos year) (pos month) (pos day)) }
    ensures later { IfSome result (λ date. pos 0 ≤ℤ epoch_day date) }
{
    if year < 1970 {
        return None;
    }
    match Date::new(year as i16, month as i8, day as i8) {
        Ok(date) => Some(date),
        Err(_) => None,
    }
}

// The seconds from midnight to its time of day, if a clock shows it.
#[tactic(auto, using(crate::proofs::MomentLemmas::digits), unfolding(crate::specs::Moment::is_stamp_time, crate::specs::Moment::stamp_second_of_day))]
fn read_time(text: &[u8]) -> Option<u32>
    requires { IsTrue (is_stamp_form text.now) }
    ensures value { result
        ≡ (if is_stamp_time text.now then Some (stamp_second_of_day text.now) else None) }
    ensures bound { IfSome result (λ n. n < 86_400) }
{
    let hour = two_digits(&text[9..11]);
    let minute = two_digits(&text[11..13]);
    let second = two_digits(&text[13..15]);
    second_of_day(hour, minute, second)
}

// The seconds from midnight to a time of day; `None` where no clock shows it.
fn second_of_day(hour: u8, minute: u8, second: u8) -> Option<u32>
    requires hour_in { hour < 100 }
    requires minute_in { minute < 100 }
    requires second_in { second < 100 }
    ensures value { result
        ≡ (if is_time hour minute second then Some (second_of_day hour minute second) else None) }
    ensures bound { IfSome result (λ n. n < 86_400) }
{
    let Ok(time) = Time::new(hour as i8, minute as i8, second as i8, 0) else {
        return None;
    };
    Some(time.to_second())
}

// The number that four decimal digits spell.
fn four_digits(text: &[u8]) -> u16
    requires length { length text.now ≡ 4 }
    requires digits { IsTrue (list_all is_ascii_digit text.now) }
    ensures value { result ≡ digits_value 10 text.now }
    ensures bound { result < 10_000 }
{
    two_digits(&text[..2]) as u16 * 100 + two_digits(&text[2..]) as u16
}

// The number that two decimal digits spell.
fn two_digits(text: &[u8]) -> u8
    requires length { length text.now ≡ 2 }
    requires digits { IsTrue (list_all is_ascii_digit text.now) }
    ensures value { result ≡ digits_value 10 text.now }
    ensures bound { result < 100 }
{
    (text[0] - b'0') * 10 + (text[1] - b'0')
}

// The stamp of the moment with that many seconds.
#[tactic(auto, unfolding(crate::specs::Moment::is_stamp, crate::specs::Moment::stamp_seconds))]
fn text_at(seconds: u64) -> [u8; 16]
    requires { seconds ≤ last_moment }
    ensures valid { IsTrue (is_stamp result) }
    ensures names { stamp_seconds result ≡ seconds }
{
    let date = date_at(seconds / DAY_SECONDS);
    let time = Time::from_second((seconds % DAY_SECONDS) as u32, 0);
    text_of(date, time)
}

// The stamp of a date, from the year 1970 on, and a time of day.
#[tactic(auto, using(crate::proofs::MomentLemmas::clocks), unfolding(crate::specs::Moment::is_stamp_time, crate::specs::Moment::stamp_second_of_day))]
fn text_of(date: Date, time: Time) -> [u8; 16]
    requires { pos 1970 ≤ℤ date.year }
    ensures form { IsTrue (is_stamp_form result) }
    ensures is_date { IsTrue (is_stamp_date result) }
    ensures date { stamp_day_number result ≡ unsigned_abs (epoch_day date) }
    ensures is_time { IsTrue (is_stamp_time result) }
    ensures time { stamp_second_of_day result ≡ time_seconds time }
{
    stamp_text(
        date.year.unsigned_abs(),
        date.month,
        date.day,
        time.hour,
        time.minute,
        time.second,
    )
}

// The date that many days after 1970-01-01.
#[tactic(auto, using(crate::proofs::MomentLemmas::days))]
fn date_at(day: u64) -> Date
    requires { day ≤ 2_932_896 }
    ensures value { epoch_day result ≡ pos day }
    ensures later { pos 1970 ≤ℤ result.year }
{
    Date::from_unix_epoch_day(day as i64).unwrap()
}

// The text of a stamp by its parts.
fn stamp_text(year: u16, month: u8, day: u8, hour: u8, minute: u8, second: u8) -> [u8; 16]
    requires year_in { year < 10_000 }
    requires month_in { month < 100 }
    requires day_in { day < 100 }
    requires hour_in { hour < 100 }
    requires minute_in { minute < 100 }
    requires second_in { second < 100 }
    ensures form { IsTrue (is_stamp_form result) }
    ensures year { stamp_year result ≡ year }
    ensures month { stamp_month result ≡ month }
    ensures day { stamp_day result ≡ day }
    ensures hour { stamp_hour result ≡ hour }
    ensures minute { stamp_minute result ≡ minute }
    ensures second { stamp_second result ≡ second }
{
    let century = (year / 100) as u8;
    let rest = (year % 100) as u8;
    [
        tens(century),
        ones(century),
        tens(rest),
        ones(rest),
        tens(month),
        ones(month),
        tens(day),
        ones(day),
        b'T',
        tens(hour),
        ones(hour),
        tens(minute),
        ones(minute),
        tens(second),
        ones(second),
        b'Z',
    ]
}

// The digit of the tens of a number of two digits.
fn tens(value: u8) -> u8
    requires { value < 100 }
    ensures { result ≡ 48 + value / 10 }
{
    b'0' + value / 10
}

// The digit of its ones.
fn ones(value: u8) -> u8
    requires { value < 100 }
    ensures { result ≡ 48 + value % 10 }
{
    b'0' + value % 10
}

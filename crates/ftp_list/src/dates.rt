//! Civil dates and times of day, as seconds since the Unix epoch.
//!
//! A time is day number times 86,400 plus seconds, with no time zone: listings name none, and are
//! read as UTC. Days come from the calendar of `jiff_core`, which knows the leap years; a number
//! out of its range is rejected before it is asked, so that no cast can lose anything.
ghost use Rattle.std.specs.Prelude.{◌≡◌, IfSome, ◌<◌, ◌^◌, length};
ghost use Rattle.jiff_core.specs.Calendar.{IsEpochDay, IsYear};
ghost use Rattle.ftp_list.specs.Dates.{second_at, day_number, clock_of, half_clock_of, month_of, number_among, IsUtcYear, IsSecond, whole_second};

use crate::places::is_same;
use crate::trims::is_that_word;
use jiff::Timestamp;
use jiff_core::civil::Date;

const MONTHS: [[char; 3]; 12] = [
    ['j', 'a', 'n'],
    ['f', 'e', 'b'],
    ['m', 'a', 'r'],
    ['a', 'p', 'r'],
    ['m', 'a', 'y'],
    ['j', 'u', 'n'],
    ['j', 'u', 'l'],
    ['a', 'u', 'g'],
    ['s', 'e', 'p'],
    ['o', 'c', 't'],
    ['n', 'o', 'v'],
    ['d', 'e', 'c'],
];

// The whole second of an instant, rounded down.
fn second_below(now: Timestamp) -> i64
    ensures value { result ≡ whole_second now.nanosecond }
    ensures bound { IsSecond result }
{
    now.as_nanosecond().div_euclid(1_000_000_000) as i64
}

/// The day's number, 0 for 1 January 1970, if the calendar has it.
pub fn day_of(year: i64, month: u64, day: u64) -> Option<i64>
    ensures value { result ≡ day_number year month day }
    ensures bound { IfSome result IsEpochDay }
{
    if year.unsigned_abs() > 9999 {
        return None;
    }
    if month > 12 {
        return None;
    }
    if day > 31 {
        return None;
    }
    match Date::new(year as i16, month as i8, day as i8) {
        Ok(date) => Some(i64::from(date.to_unix_epoch_day())),
        Err(_) => None,
    }
}

/// The present: its whole second, rounded down, and the UTC year of it.
#[derive(Clone, Copy)]
pub struct Present {
    /// The whole second since the Unix epoch, rounded down.
    pub second: i64,
    /// The UTC year on whose date it lies.
    pub year: i64,
    ghost second_in: { IsSecond second },
    ghost year_in: { IsYear year },
}

/// The present at an instant.
pub fn present_at(now: Timestamp) -> Present
    ensures second { result.second ≡ whole_second now.nanosecond }
    ensures year { IsUtcYear result.second result.year }
{
    let second = second_below(now);
    Present {
        second,
        year: utc_year_of(second),
    }
}

// The year of the UTC date on which that second lies.
fn utc_year_of(second: i64) -> i64
    requires { IsSecond second }
    ensures year { IsUtcYear second result }
    ensures bound { IsYear result }
{
    match Date::from_unix_epoch_day(second.div_euclid(86_400)) {
        Ok(today) => i64::from(today.year),
        Err(_) => unreachable!(),
    }
}

/// The number of the month of that name.
#[tactic(auto, unfolding(crate::specs::Dates::month_of))]
pub fn month_number(text: &[char]) -> Option<u64>
    ensures { result ≡ month_of text.now }
{
    number_in(&MONTHS, text)
}

// The number of the first name that the text is, counted from 1.
#[tactic(auto, using(crate::proofs::DateFacts::number_among_more))]
fn number_in(names: &[[char; 3]], text: &[char]) -> Option<u64>
    requires { length names.now < 2 ^ 63 }
    ensures { result ≡ number_among 1 names.now text.now }
{
    for (i, name) in names.iter().enumerate() {
        if is_that_word(text, name) {
            return Some(i as u64 + 1);
        }
    }
    None
}

/// The seconds from midnight to an hour and minute that a clock shows.
#[tactic(auto, unfolding(crate::specs::Dates::clock_of))]
pub fn clock(hour: u64, minute: u64) -> Option<u64>
    ensures value { result ≡ clock_of hour minute }
    ensures bound { IfSome result (λ n. n < 86_400) }
{
    if hour < 24 && minute < 60 {
        Some(hour * 3600 + minute * 60)
    } else {
        None
    }
}

/// The same on a clock of twelve hours: 12 AM is midnight, 12 PM noon.
#[tactic(auto, unfolding(crate::specs::Dates::half_clock_of))]
pub fn half_clock(half: &[char], hour: u64, minute: u64) -> Option<u64>
    ensures value { result ≡ half_clock_of half.now hour minute }
    ensures bound { IfSome result (λ n. n < 86_400) }
{
    if 1 <= hour && hour <= 12 && minute < 60 {
        let noon = if is_same(half, &['P', 'M']) { 12 } else { 0 };
        return Some((hour % 12 + noon) * 3600 + minute * 60);
    }
    None
}

/// A second of a day, since the Unix epoch.
pub fn second_of(day: i64, clock: u64) -> i64
    requires day { IsEpochDay day }
    requires clock { clock < 100_000 }
    ensures { result ≡ second_at day clock }
{
    day * 86_400 + clock as i64
}

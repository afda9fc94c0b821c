//! The moments that the parts of a line give, as seconds since the Unix epoch.
//!
//! A POSIX line has a year or a time of day, never both. Without a year it is of the year of the
//! present, or of the one before where it would lie more than 180 days ahead: servers leave the
//! year out of files of the last months, and their clocks may run ahead.
ghost use Rattle.std.specs.Prelude.{◌≡◌, ◌<◌, pos};
ghost use Rattle.ftp_list.specs.Dates.{year_of, midnight_of, recent_moment, dated, posix_moment, dos_moment, full_year};

use crate::dates::{Present, clock, day_of, half_clock, month_number, second_of};
use crate::numbers::decimal_of;
use crate::places::{has, part_before, part_behind};

/// How far ahead of the present a moment without a year may lie, in seconds: 180 days.
const HALF_A_YEAR: i64 = 15_552_000;

const COLON: [char; 1] = [':'];

/// The moment that a month's name, a day, and a clock or a year give.
#[tactic(auto, unfolding(crate::specs::Dates::posix_moment))]
pub fn moment_of_posix(present: Present, month: &[char], day: &[char], time: &[char]) -> Option<i64>
    ensures { result ≡ posix_moment present.year present.second month.now day.now time.now }
{
    let month = month_number(month)?;
    let day = decimal_of(day)?;
    moment_of_day(present, month, day, time)
}

fn moment_of_day(present: Present, month: u64, day: u64, time: &[char]) -> Option<i64>
    ensures { result ≡ dated present.year present.second month day time.now }
{
    if has(time, &COLON) {
        recent_moment_of(present, month, day, time)
    } else {
        midnight(decimal_of(time)?, month, day)
    }
}

#[tactic(auto, unfolding(crate::specs::Dates::recent_moment))]
fn recent_moment_of(present: Present, month: u64, day: u64, time: &[char]) -> Option<i64>
    ensures { result ≡ recent_moment present.year present.second month day time.now }
{
    let hour = decimal_of(part_before(time, &COLON))?;
    let minute = decimal_of(part_behind(time, &COLON))?;
    let clock = clock(hour, minute)?;
    let year = year_near(present, month, day, clock)?;
    let number = day_of(year, month, day)?;
    Some(second_of(number, clock))
}

// The present year, or the one before if the moment would lie more than 180 days ahead.
#[tactic(auto, unfolding(crate::specs::Dates::year_of))]
fn year_near(present: Present, month: u64, day: u64, clock: u64) -> Option<i64>
    requires { clock < 86_400 }
    ensures { result ≡ year_of present.year present.second month day clock }
{
    let number = day_of(present.year, month, day)?;
    if present.second + HALF_A_YEAR < second_of(number, clock) {
        Some(present.year - 1)
    } else {
        Some(present.year)
    }
}

#[tactic(auto, unfolding(crate::specs::Dates::midnight_of))]
fn midnight(year: u64, month: u64, day: u64) -> Option<i64>
    ensures { result ≡ midnight_of (pos year) month day }
{
    if year > 9999 {
        return None;
    }
    let number = day_of(year as i64, month, day)?;
    Some(second_of(number, 0))
}

/// The moment that the parts of a DOS line give.
#[tactic(auto, unfolding(crate::specs::Dates::dos_moment))]
pub fn moment_of_dos(
    month: &[char],
    day: &[char],
    year: &[char],
    hour: &[char],
    minute: &[char],
    half: &[char],
) -> Option<i64>
    ensures { result ≡ dos_moment month.now day.now year.now hour.now minute.now half.now }
{
    let month = decimal_of(month)?;
    let day = decimal_of(day)?;
    let year = whole_year(decimal_of(year)?)?;
    let hour = decimal_of(hour)?;
    let minute = decimal_of(minute)?;
    let clock = half_clock(half, hour, minute)?;
    let number = day_of(year, month, day)?;
    Some(second_of(number, clock))
}

// 00 to 69 are 2000 to 2069, 70 to 99 are 1970 to 1999.
#[tactic(auto, unfolding(crate::specs::Dates::full_year))]
fn whole_year(short: u64) -> Option<i64>
    ensures { result ≡ full_year short }
{
    if short < 70 {
        Some(2000 + short as i64)
    } else if short < 100 {
        Some(1900 + short as i64)
    } else {
        None
    }
}

//! A date with a time of day, from its numbers.

ghost use Rattle.std.specs.Prelude.{◌≡◌};
ghost use Rattle.ftp_calls.specs.Dates.{date_of, time_of_day, date_time};

use jiff::civil::DateTime;

/// The date with the time of day of these numbers, if the calendar and a clock have them.
pub fn moment(
    year: u64,
    month: u64,
    day: u64,
    hour: u64,
    minute: u64,
    second: u64,
) -> Option<DateTime>
    ensures { result ≡ date_time (date_of year month day) (time_of_day hour minute second) }
{
    if year > 9999 || month > 99 || day > 99 || hour > 99 || minute > 99 || second > 99 {
        return None;
    }
    match DateTime::new(
        year as i16,
        month as i8,
        day as i8,
        hour as i8,
        minute as i8,
        second as i8,
        0,
    ) {
        Ok(moment) => Some(moment),
        Err(_) => None,
    }
}

//! The times of MLSD and MLST: `YYYYMMDDHHMMSS`, and a fraction or none.
//!
//! RFC 3659, section 2.3, allows a leap second, so a second may be 60, which is one after 59.
//! Nine digits of a fraction count, as many as nanoseconds have; more are passed over.
ghost use Rattle.std.specs.Prelude.{◌≡◌, ◌<◌, ◌≤◌, ◌-◌, ◌*◌, ◌^◌, pos, true, IfSome};
ghost use Rattle.ftp_list.specs.Shapes.{all_in};
ghost use Rattle.jiff_core.specs.Calendar.{IsEpochDay};
ghost use Rattle.ftp_list.specs.Dates.{day_number};
ghost use Rattle.ftp_list.specs.Times.{with_second, civil_second, fraction_of, nanoseconds_of, timed, time_of};

use crate::class::Class;
use crate::dates::{clock, day_of, second_of};
use crate::numbers::{decimal_of, value_of};
use crate::places::{front, rest};
use std::marker::Model;

/// A moment since the Unix epoch.
#[derive(Drop)]
pub struct Moment {
    pub(crate) second: i64,
    pub(crate) nanosecond: u32,
}

impl Model for Moment {
    ghost use Rattle.std.specs.Prelude.{◌<◌};
    ghost use Rattle.ftp_list.specs.Times.{Instant};

    ghost Value = { Instant };

    ghost view = { λ m. record { second = m.second; nanosecond = m.nanosecond } };

    ghost invariant = { λ m. m.nanosecond < 1_000_000_000 };
}

/// The moment that the text says.
pub fn moment_of(text: &[char]) -> Option<Moment>
    ensures { result ≡ time_of text.now }
{
    let digits = front(text, 14);
    if digits.len() == 14 && Class::Digit.has_all(digits) {
        moment_with_fraction(text)
    } else {
        None
    }
}

#[tactic(auto, unfolding(crate::specs::Times::timed))]
fn moment_with_fraction(text: &[char]) -> Option<Moment>
    ensures { result ≡ timed text.now }
{
    let second = second_of_civil(front(text, 14))?;
    let nanosecond = nanoseconds(rest(text, 14))?;
    Some(Moment { second, nanosecond })
}

#[tactic(auto, unfolding(crate::specs::Times::civil_second))]
fn second_of_civil(digits: &[char]) -> Option<i64>
    ensures { result ≡ civil_second digits.now }
{
    let year = decimal_of(front(digits, 4))?;
    let month = decimal_of(front(rest(digits, 4), 2))?;
    let day = decimal_of(front(rest(digits, 6), 2))?;
    let hour = decimal_of(front(rest(digits, 8), 2))?;
    let minute = decimal_of(front(rest(digits, 10), 2))?;
    let second = decimal_of(rest(digits, 12))?;
    let number = day_in(year, month, day)?;
    let clock = clock(hour, minute)?;
    at_second(number, clock, second)
}

fn day_in(year: u64, month: u64, day: u64) -> Option<i64>
    ensures value { result ≡ day_number (pos year) month day }
    ensures bound { IfSome result IsEpochDay }
{
    if year > 9999 {
        return None;
    }
    day_of(year as i64, month, day)
}

// The second may be 60, which is one second after 59.
#[tactic(auto, unfolding(crate::specs::Times::with_second))]
fn at_second(day: i64, clock: u64, second: u64) -> Option<i64>
    requires day { IsEpochDay day }
    requires clock { clock < 86_400 }
    ensures { result ≡ with_second day clock second }
{
    if second <= 60 {
        Some(second_of(day, clock + second))
    } else {
        None
    }
}

// Nothing, or a point and one digit or more.
#[tactic(auto, unfolding(crate::specs::Times::nanoseconds_of))]
fn nanoseconds(text: &[char]) -> Option<u32>
    ensures value { result ≡ nanoseconds_of text.now }
    ensures bound { IfSome result (λ n. n < 1_000_000_000) }
{
    if text.is_empty() {
        return Some(0);
    }
    let digits = rest(text, 1);
    if text[0] == '.' && 2 <= text.len() && Class::Digit.has_all(digits) {
        Some(fraction(digits))
    } else {
        None
    }
}

// Nine digits count, and zeros fill.
fn fraction(digits: &[char]) -> u32
    requires { all_in Class.Digit digits.now ≡ true }
    ensures value { result ≡ fraction_of digits.now }
    ensures bound { result < 1_000_000_000 }
{
    let shown = front(digits, 9);
    match value_of(shown) {
        Some(value) => scaled(value, shown.len()) as u32,
        None => unreachable!(),
    }
}

// So many digits are there; zeros fill up to nine.
fn scaled(value: u64, count: usize) -> u64
    requires digits { count ≤ 9 }
    requires value { value < 10 ^ count }
    ensures value { result ≡ value * 10 ^ (9 - count) }
    ensures bound { result < 1_000_000_000 }
{
    value * 10u64.pow((9 - count) as u32)
}

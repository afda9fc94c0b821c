//! A date and time of UTC as commands write it: fourteen digits (`time-val`; RFC 3659, section 2.3).

ghost use Rattle.std.specs.Prelude.{◌≡◌, IfOk, Some};
ghost use Rattle.ftp_calls.specs.Times.{date_digits, time_digits, time_value, two_digits, year_text};

use ftp_base::types::Text;
use jiff::civil::DateTime;
use std::alloc::{AllocError, Global};
use std::fmt;

/// The text of a date and time, its whole second: year, month, day, hour, minute and second. A year before 0 has no such
/// text, and stands there with its sign.
///
/// # Errors
/// No memory for it.
pub(crate) fn time_value(alloc: Global, moment: DateTime) -> Result<Text, AllocError>
    ensures { IfOk result (λ text. text ≡ time_value moment) }
{
    let text = format!(in alloc; "{}{}", DateDigits(moment), TimeDigits(moment))?;
    Ok(Text::from_string(text))
}

/// Year, month and day.
#[derive(Clone, Copy)]
struct DateDigits(DateTime);

impl fmt::Display for DateDigits {
    ghost output = { λ moment. Some (date_digits moment.0) };

    fn fmt<W: fmt::Write>(&self, f: &mut fmt::Formatter<W>) -> fmt::Result {
        let month = TwoDigits(self.0.month().unsigned_abs());
        let day = TwoDigits(self.0.day().unsigned_abs());
        write!(f, "{}{month}{day}", Year(self.0.year()))
    }
}

/// Hour, minute and second.
#[derive(Clone, Copy)]
struct TimeDigits(DateTime);

impl fmt::Display for TimeDigits {
    ghost output = { λ moment. Some (time_digits moment.0) };

    fn fmt<W: fmt::Write>(&self, f: &mut fmt::Formatter<W>) -> fmt::Result {
        let hour = TwoDigits(self.0.hour().unsigned_abs());
        let minute = TwoDigits(self.0.minute().unsigned_abs());
        let second = TwoDigits(self.0.second().unsigned_abs());
        write!(f, "{hour}{minute}{second}")
    }
}

/// A number below 100 in two digits.
#[derive(Clone, Copy)]
struct TwoDigits(u8);

impl fmt::Display for TwoDigits {
    ghost output = { λ number. Some (two_digits number.0) };

    fn fmt<W: fmt::Write>(&self, f: &mut fmt::Formatter<W>) -> fmt::Result {
        write!(f, "{}{}", self.0 / 10, self.0 % 10)
    }
}

/// A year: from 0 to 9999 in four digits.
#[derive(Clone, Copy)]
struct Year(i16);

impl fmt::Display for Year {
    ghost output = { λ year. Some (year_text year.0) };

    fn fmt<W: fmt::Write>(&self, f: &mut fmt::Formatter<W>) -> fmt::Result {
        let year = self.0;
        if year < 0 {
            return write!(f, "{year}");
        }
        let (century, rest) = (year as u16 / 100, year as u16 % 100);
        write!(
            f,
            "{}{}{}{}",
            century / 10,
            century % 10,
            rest / 10,
            rest % 10
        )
    }
}

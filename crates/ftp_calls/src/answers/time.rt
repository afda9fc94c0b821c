//! The time in the reply to MDTM (RFC 3659, sections 2.3 and 3).

ghost use Rattle.std.specs.Prelude.{◌≡◌, ◌≤◌, ◌-◌, length, take, drop, unwrap_or};
ghost use Rattle.ftp_base.specs.Scan.{number_up_to};
ghost use Rattle.std.specs.Option.{option_and_then};
ghost use Rattle.ftp_calls.specs.Times.{timestamp, time_in, time_of};

use crate::answers::dates::moment;
use ftp_base::command::number;
use ftp_base::command::scan::{self, Span};
use jiff::civil::DateTime;

/// The time that the first fourteen digits of a reply write that have no letter, digit, `_` or character past ASCII on
/// either side, in a reply that is UTF-8. `None` where there are none, or no such date and time.
pub fn read_time(body: &[u8]) -> Option<DateTime>
    ensures { result ≡ time_of body.now }
{
    match str::from_utf8(body) {
        Ok(text) => first_time(text),
        Err(_) => None,
    }
}

/// The time of the first timestamp in a text.
fn first_time(text: &str) -> Option<DateTime>
    ensures { result ≡ option_and_then time_in (timestamp text.now) }
{
    let [year, month, day, hour, minute, second] = scan::mdtm(text)?;
    moment(
        part(text, year),
        part(text, month),
        part(text, day),
        part(text, hour),
        part(text, minute),
        part(text, second),
    )
}

/// The number that the digits of a span write: two or four of them, so that there always is one.
fn part(text: &str, span: Span) -> u64
    ensures { span.start ≤ span.end → span.end ≤ length text.now → result ≡
        unwrap_or (number_up_to 9999 (take (span.end - span.start) (drop span.start text.now))) 0 }
{
    number(text, span, 9999).unwrap_or(0)
}

//! The number that the digits of a span write.
//!
//! The scanners say where digits stand, and how great a number may be differs: an octet of an address, a port, a size.
//! So digits become a number here, up to a bound that the caller gives. A number above it is none, and never wraps.

ghost use Rattle.std.specs.Prelude.{◌≡◌, ◌≤◌, ◌<◌, ◌⊎◌, ◌-◌, None, length, take, drop};
ghost use Rattle.ftp_base.specs.Scan.{number_up_to};

use super::scan::Span;

/// The number that the digits of a span write: an octet of an address, a port, a size. Allocates nothing.
///
/// `None` where the number is above `most`, where the span is empty or not within the text, or where it holds
/// anything but digits.
pub fn number(text: &str, span: Span, most: u64) -> Option<u64>
    ensures within { span.start ≤ span.end → span.end ≤ length text.now → result ≡
        number_up_to most (take (span.end - span.start) (drop span.start text.now)) }
    ensures outside { (span.end < span.start) ⊎ (length text.now < span.end) → result ≡ None }
{
    let bytes = text.as_bytes();
    if span.end < span.start || bytes.len() < span.end {
        return None;
    }
    number_of(&bytes[span.start..span.end], most)
}

/// The number that digits write.
fn number_of(digits: &[u8], most: u64) -> Option<u64>
    ensures { result ≡ number_up_to most digits.now }
{
    if digits.is_empty() {
        return None;
    }
    let mut value = 0u64;
    for digit in digits {
        if !digit.is_ascii_digit() {
            return None;
        }
        let tens = value.checked_mul(10)?;
        value = tens.checked_add(u64::from(*digit - b'0'))?;
        if value > most {
            return None;
        }
    }
    Some(value)
}

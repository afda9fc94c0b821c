//! Decimal numbers in a text.
//!
//! Sizes and numbers of users come from the server and have any length. Each digit is added with
//! a test, and a number that doesn't fit is none, so that no number ever wraps.
ghost use Rattle.std.specs.Prelude.{◌≡◌, ◌^◌, ◌≤◌, ◌<◌, MatchOption};
ghost use Rattle.ftp_list.specs.Numbers.{digits_after, decimal, number};

use crate::class::Class;
use crate::places::{begins_with, rest};

const PLUS: [char; 1] = ['+'];

/// The number of one or more digits, if it is below 2^64.
pub fn decimal_of(digits: &[char]) -> Option<u64>
    ensures { result ≡ decimal (2 ^ 64) digits.now }
{
    if digits.is_empty() {
        return None;
    }
    if !Class::Digit.has_all(digits) {
        return None;
    }
    value_of(digits)
}

/// The number that the digits write, if it is below 2^64.
pub fn value_of(digits: &[char]) -> Option<u64>
    ensures { MatchOption result (2 ^ 64 ≤ digits_after 0 digits.now)
        (λ value. (value ≡ digits_after 0 digits.now) × (value < 2 ^ 64)) }
{
    let mut value: u64 = 0;
    for c in digits {
        let digit = u64::from(*c).saturating_sub(48);
        let Some(tens) = value.checked_mul(10) else {
            return None;
        };
        let Some(more) = tens.checked_add(digit) else {
            return None;
        };
        value = more;
    }
    Some(value)
}

/// The same, where a plus may stand in front.
#[tactic(auto, unfolding(crate::specs::Numbers::number))]
pub fn number_of(text: &[char]) -> Option<u64>
    ensures { result ≡ number (2 ^ 64) text.now }
{
    decimal_of(if begins_with(text, &PLUS) {
        rest(text, 1)
    } else {
        text
    })
}

/// The same, if the number is below 2^32.
pub fn small_number_of(text: &[char]) -> Option<u32>
    ensures { result ≡ number (2 ^ 32) text.now }
{
    match number_of(text) {
        Some(value) if value <= u64::from(u32::MAX) => Some(value as u32),
        _ => None,
    }
}

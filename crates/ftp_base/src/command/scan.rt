//! Finds numbers in the text of a reply: the address of PASV (RFC 959, section 4.1.2), the port of
//! EPSV (RFC 2428, section 3), the time of MDTM and the size of SIZE (RFC 3659, sections 3 and 4).
//!
//! A text is gone through once, from its first byte on, and nothing is allocated. The digits after
//! an opening are looked at once more, and hold no other opening, so the time grows as the text
//! does.

ghost use Rattle.std.specs.Prelude.{◌≡◌, ◌<◌, ◌≤◌, ◌+◌, ℕ, List, ◌∷◌, length, slice_index, IsTrue, ◌↔◌, MatchOption, IfSome, IfNone};
ghost use Rattle.ftp_base.specs.declared.command.scan.Span.{Span};
ghost use Rattle.std.specs.Char.{IsAsciiDigit};
ghost use Rattle.ftp_base.specs.Scan.{StandsAt, AreDigits, IsNumber, IsPassive, IsExtended, IsTimestamp, IsTrailingSize, EndsInSpace, is_word_byte, StandsNowhere, StandsFirst, LacksFields, IsMark};

/// A part of a text: the place of its first byte, and the place after its last.
#[derive(Clone, Copy, Debug, PartialEq, Eq)]
pub struct Span {
    /// The place of its first byte.
    pub start: usize,
    /// The place after its last byte.
    pub end: usize,
}

/// Finds the first `(d,d,d,d,d,d)`, each `d` a run of digits, and returns the spans of the six
/// runs.
pub fn pasv_port(text: &str) -> Option<[Span; 6]>
    ensures { MatchOption result
        (StandsNowhere (IsPassive text.now)) (StandsFirst (IsPassive text.now)) }
{
    let bytes = text.as_bytes();
    for place in 0..bytes.len() {
        if let Some(spans) = passive_at(bytes, place) {
            return Some(spans);
        }
    }
    None
}

/// Finds the first `(|||d|)`, `d` a run of digits, and returns the span of the run.
pub fn epsv_port(text: &str) -> Option<Span>
    ensures { MatchOption result
        (StandsNowhere (IsExtended text.now)) (StandsFirst (IsExtended text.now)) }
{
    let bytes = text.as_bytes();
    for place in 0..bytes.len() {
        if let Some(span) = extended_at(bytes, place) {
            return Some(span);
        }
    }
    None
}

/// Finds the first fourteen digits with no byte of a word on either side, and returns the spans of
/// the year, the month, the day, the hour, the minute and the second.
pub fn mdtm(text: &str) -> Option<[Span; 6]>
    ensures { MatchOption result
        (StandsNowhere (IsTimestamp text.now)) (StandsFirst (IsTimestamp text.now)) }
{
    let bytes = text.as_bytes();
    for place in 0..bytes.len() {
        if let Some(spans) = timestamp_at(bytes, place) {
            return Some(spans);
        }
    }
    None
}

/// Finds the digits after the last white space of a text whose end is trimmed, and returns their
/// span; `None` where no white space is before them, or anything but digits after it.
pub fn size(text: &str) -> Option<Span>
    ensures { MatchOption result
        ((span : Span) → IsTrailingSize text.now span → ⊥) (IsTrailingSize text.now) }
{
    let trimmed = text.trim_end();
    let start = digits_start(trimmed.as_bytes());
    if start < trimmed.len() && ends_in_space(&trimmed[..start]) {
        Some(Span {
            start,
            end: trimmed.len(),
        })
    } else {
        None
    }
}

/// The shape of PASV at a place.
fn passive_at(bytes: &[u8], place: usize) -> Option<[Span; 6]>
    requires { place < length bytes.now }
    ensures { MatchOption result
        ((spans : List Span) → IsPassive bytes.now place spans → ⊥) (IsPassive bytes.now place) }
{
    if !stands_at(bytes, place, b"(") {
        return None;
    }
    let first = field_at(bytes, place + 1, b',')?;
    let second = field_at(bytes, first.end + 1, b',')?;
    let third = field_at(bytes, second.end + 1, b',')?;
    let fourth = field_at(bytes, third.end + 1, b',')?;
    let fifth = field_at(bytes, fourth.end + 1, b',')?;
    let sixth = field_at(bytes, fifth.end + 1, b')')?;
    Some([first, second, third, fourth, fifth, sixth])
}

/// The shape of EPSV at a place.
fn extended_at(bytes: &[u8], place: usize) -> Option<Span>
    requires { place < length bytes.now }
    ensures { MatchOption result
        ((span : Span) → IsExtended bytes.now place span → ⊥) (IsExtended bytes.now place) }
{
    if !stands_at(bytes, place, b"(|||") {
        return None;
    }
    let span = number_at(bytes, place + 4);
    if span.start < span.end && stands_at(bytes, span.end, b"|)") {
        Some(span)
    } else {
        None
    }
}

/// The shape of MDTM at a place.
fn timestamp_at(bytes: &[u8], place: usize) -> Option<[Span; 6]>
    requires { place < length bytes.now }
    ensures { MatchOption result
        ((spans : List Span) → IsTimestamp bytes.now place spans → ⊥) (IsTimestamp bytes.now place) }
{
    if place > 0 && is_word_at(bytes, place - 1) {
        return None;
    }
    let run = number_at(bytes, place);
    if run.end - place != 14 || is_word_at(bytes, run.end) {
        return None;
    }
    Some([
        Span {
            start: place,
            end: place + 4,
        },
        Span {
            start: place + 4,
            end: place + 6,
        },
        Span {
            start: place + 6,
            end: place + 8,
        },
        Span {
            start: place + 8,
            end: place + 10,
        },
        Span {
            start: place + 10,
            end: place + 12,
        },
        Span {
            start: place + 12,
            end: place + 14,
        },
    ])
}

/// A number at a place with this byte after it.
fn field_at(bytes: &[u8], from: usize, close: u8) -> Option<Span>
    requires within { from ≤ length bytes.now }
    requires mark { IsMark close }
    ensures found { IfSome result
        (λ span. IsNumber bytes.now from span × (slice_index bytes.now span.end ≡ close)) }
    ensures bound { IfSome result (λ span. span.end < length bytes.now) }
    ensures none { IfNone result ((closes : List ℕ) → LacksFields bytes.now from (close ∷ closes)) }
{
    let span = number_at(bytes, from);
    if span.start < span.end && span.end < bytes.len() && bytes[span.end] == close {
        Some(span)
    } else {
        None
    }
}

/// The longest run of digits at a place, empty where none stands there.
fn number_at(bytes: &[u8], from: usize) -> Span
    requires { from ≤ length bytes.now }
    ensures begins { result.start ≡ from }
    ensures ordered { from ≤ result.end }
    ensures bound { result.end ≤ length bytes.now }
    ensures digits { AreDigits bytes.now from result.end }
    ensures stops { IsAsciiDigit (slice_index bytes.now result.end) → ⊥ }
{
    for end in from..bytes.len() {
        if !bytes[end].is_ascii_digit() {
            return Span { start: from, end };
        }
    }
    Span {
        start: from,
        end: bytes.len(),
    }
}

/// Whether the last character of a text is white space.
fn ends_in_space(text: &str) -> bool
    ensures { IsTrue result ↔ EndsInSpace text.now }
{
    text.ends_with(|c: char| c.is_whitespace())
}

/// Where the longest run of digits at the end of a text begins.
fn digits_start(bytes: &[u8]) -> usize
    ensures bound { result ≤ length bytes.now }
    ensures digits { AreDigits bytes.now result (length bytes.now) }
    ensures stops { (last : ℕ) → last + 1 ≡ result → IsAsciiDigit (slice_index bytes.now last) → ⊥ }
{
    let mut start = bytes.len();
    while start > 0 && bytes[start - 1].is_ascii_digit() {
        start -= 1;
    }
    start
}

/// Whether these bytes stand at a place.
fn stands_at(bytes: &[u8], place: usize, wanted: &[u8]) -> bool
    requires { place ≤ length bytes.now }
    ensures stands { IsTrue result ↔ StandsAt wanted.now bytes.now place }
    ensures bound { IsTrue result → place + length wanted.now ≤ length bytes.now }
{
    bytes[place..].starts_with(wanted)
}

/// Whether the byte at a place is one of a word. None is after the last.
fn is_word_at(bytes: &[u8], place: usize) -> bool
    ensures { result ≡ is_word_byte (slice_index bytes.now place) }
{
    match bytes.get(place) {
        Some(byte) => byte.is_ascii_alphanumeric() || *byte == b'_' || *byte >= 128,
        None => false,
    }
}

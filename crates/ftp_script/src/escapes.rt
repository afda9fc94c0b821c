//! How a script writes bytes.
//!
//! A text is ASCII; `\r`, `\n`, `\\` and `\xHH`, with two lower-case hexadecimal digits, stand for bytes.

ghost use Rattle.std.specs.Prelude.{◌≡◌, ◌<◌, IfOk, IfSome};
ghost use Rattle.ftp_script.specs.Escapes.{digit, part_of, unescaped};

use ftp_base::types::Bytes;
use std::alloc::{AllocError, Global};

/// What the next byte of a text is part of.
#[derive(Clone, Copy)]
pub(crate) enum Place {
    /// Nothing that began before it.
    Plain,
    /// An escape, after its backslash.
    Backslash,
    /// `\xHH`, after the `x`.
    High,
    /// `\xHH`, after the first digit, which stands for so much.
    Low(u8),
}

/// What a byte of a text says.
#[derive(Clone, Copy)]
pub(crate) enum Part {
    /// This byte.
    Gives(u8),
    /// An escape begins or goes on.
    Begins(Place),
}

/// The value of a hexadecimal digit, which is written in lower case.
fn digit(byte: u8) -> Option<u8>
    ensures value { result ≡ digit byte }
    ensures below { IfSome result (λ value. value < 16) }
{
    match byte {
        b'0'..=b'9' => Some(byte - b'0'),
        b'a'..=b'f' => Some(byte - b'a' + 10),
        _ => None,
    }
}

/// What a byte says at a place, if it is understood.
fn part_of(place: Place, byte: u8) -> Option<Part>
    ensures { result ≡ part_of place byte }
{
    match place {
        Place::Plain => plain_part(byte),
        Place::Backslash => escaped_part(byte),
        Place::High => match digit(byte) {
            Some(value) => Some(Part::Begins(Place::Low(value * 16))),
            None => None,
        },
        Place::Low(high) => match digit(byte) {
            Some(value) => Some(Part::Gives(high | value)),
            None => None,
        },
    }
}

/// What a byte outside an escape says.
fn plain_part(byte: u8) -> Option<Part>
    ensures { result ≡ part_of Place.Plain byte }
{
    if byte == b'\\' {
        Some(Part::Begins(Place::Backslash))
    } else if byte <= 0x7f {
        Some(Part::Gives(byte))
    } else {
        None
    }
}

/// What a byte after a backslash says.
fn escaped_part(byte: u8) -> Option<Part>
    ensures { result ≡ part_of Place.Backslash byte }
{
    if byte == b'r' {
        Some(Part::Gives(b'\r'))
    } else if byte == b'n' {
        Some(Part::Gives(b'\n'))
    } else if byte == b'\\' {
        Some(Part::Gives(b'\\'))
    } else if byte == b'x' {
        Some(Part::Begins(Place::High))
    } else {
        None
    }
}

/// The bytes that a text writes, if it is understood.
///
/// # Errors
/// `AllocError`.
pub(crate) fn unescaped(alloc: Global, text: &[u8]) -> Result<Option<Bytes>, AllocError>
    ensures { IfOk result (λ bytes. bytes ≡ unescaped text.now) }
{
    let mut bytes = Vec::new(alloc);
    let mut place = Place::Plain;
    for byte in text {
        let Some(part) = part_of(place, *byte) else {
            return Ok(None);
        };
        match part {
            Part::Gives(byte) => {
                bytes.push(byte)?;
                place = Place::Plain;
            }
            Part::Begins(next) => place = next,
        }
    }
    match place {
        Place::Plain => Ok(Some(Bytes::from_vec(bytes))),
        Place::Backslash => Ok(None),
        Place::High => Ok(None),
        Place::Low(_) => Ok(None),
    }
}

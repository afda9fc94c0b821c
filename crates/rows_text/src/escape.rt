//! Bytes as text of ASCII.
//!
//! A byte outside 20 to 7e hexadecimal is written `\r`, `\n` or `\xHH`, the backslash `\\`. `\{N TEXT}` stands for
//! TEXT N times, so that a long text is a short row.

use std::alloc::{AllocError, AllocFailed, Global};
use thiserror::Error;

/// How often a text may be repeated.
const MOST: usize = 1_000_000;

/// Why a row can't be played.
#[derive(Debug, Drop, Error)]
pub enum RowError {
    /// The row isn't written as rows are: an unknown word, an argument too few or too many, an escape that is none.
    #[error("not understood")]
    NotUnderstood,
    /// Out of memory.
    #[error("out of memory")]
    OutOfMemory,
}

impl From<AllocError> for RowError {
    fn from(_cause: AllocError) -> RowError {
        RowError::OutOfMemory
    }
}

impl<T: Drop> From<AllocFailed<T>> for RowError {
    fn from(_cause: AllocFailed<T>) -> RowError {
        RowError::OutOfMemory
    }
}

/// What the next byte is part of.
#[derive(Clone, Copy)]
enum Place {
    /// Nothing that began before it.
    Plain,
    /// An escape, after its backslash.
    Escape,
    /// `\xHH`, after the `x`.
    High,
    /// `\xHH`, after the first digit.
    Low(u8),
    /// `\{N TEXT}`, in N.
    Count(usize),
    /// `\{N TEXT}`, in TEXT.
    Repeated(usize),
}

/// Reads a text byte by byte.
#[derive(Drop)]
struct Reader {
    bytes: Vec<u8>,
    repeated: Vec<u8>,
    place: Place,
}

impl Reader {
    fn read(&mut self, byte: u8) -> Result<(), RowError> {
        self.place = match self.place {
            Place::Plain => self.plain(byte)?,
            Place::Escape => self.escape(byte)?,
            Place::High => Place::Low(digit(byte)?),
            Place::Low(high) => self.push((high << 4) | digit(byte)?)?,
            Place::Count(count) => counted(count, byte)?,
            Place::Repeated(count) => self.repeat(count, byte)?,
        };
        Ok(())
    }

    fn push(&mut self, byte: u8) -> Result<Place, RowError> {
        self.bytes.push(byte)?;
        Ok(Place::Plain)
    }

    fn plain(&mut self, byte: u8) -> Result<Place, RowError> {
        match byte {
            b'\\' => Ok(Place::Escape),
            b' '..=b'~' => self.push(byte),
            _ => Err(RowError::NotUnderstood),
        }
    }

    fn escape(&mut self, byte: u8) -> Result<Place, RowError> {
        match byte {
            b'r' => self.push(b'\r'),
            b'n' => self.push(b'\n'),
            b'\\' => self.push(b'\\'),
            b'x' => Ok(Place::High),
            b'{' => Ok(Place::Count(0)),
            _ => Err(RowError::NotUnderstood),
        }
    }

    fn repeat(&mut self, count: usize, byte: u8) -> Result<Place, RowError> {
        match byte {
            b'}' => {
                for _ in 0..count {
                    self.bytes.extend_from_slice(&self.repeated)?;
                }
                self.repeated.clear();
                Ok(Place::Plain)
            }
            b' '..=b'~' => {
                self.repeated.push(byte)?;
                Ok(Place::Repeated(count))
            }
            _ => Err(RowError::NotUnderstood),
        }
    }
}

/// The value of a hexadecimal digit, which is written in lower case.
fn digit(byte: u8) -> Result<u8, RowError> {
    match byte {
        b'0'..=b'9' => Ok(byte - b'0'),
        b'a'..=b'f' => Ok(byte - b'a' + 10),
        _ => Err(RowError::NotUnderstood),
    }
}

/// A count with one digit more, or, after its blank, what is repeated so often.
fn counted(count: usize, byte: u8) -> Result<Place, RowError> {
    match byte {
        b'0'..=b'9' if count < MOST => Ok(Place::Count(count * 10 + usize::from(byte - b'0'))),
        b' ' if count <= MOST => Ok(Place::Repeated(count)),
        _ => Err(RowError::NotUnderstood),
    }
}

/// The bytes that a text writes.
///
/// # Errors
/// `NotUnderstood` where a byte isn't ASCII or an escape is none of those above, `OutOfMemory`.
pub fn bytes_of(alloc: Global, text: &str) -> Result<Vec<u8>, RowError> {
    let mut reader = Reader {
        bytes: Vec::new(alloc),
        repeated: Vec::new(alloc),
        place: Place::Plain,
    };
    for byte in text.as_bytes() {
        reader.read(*byte)?;
    }
    let Reader {
        bytes,
        repeated: _,
        place,
    } = reader;
    match place {
        Place::Plain => Ok(bytes),
        _ => Err(RowError::NotUnderstood),
    }
}

/// The text that a text writes.
///
/// # Errors
/// Those of [`bytes_of`]; `NotUnderstood` where its bytes aren't UTF-8, too.
pub fn text_of(alloc: Global, text: &str) -> Result<String, RowError> {
    match String::from_utf8(bytes_of(alloc, text)?) {
        Ok(text) => Ok(text),
        Err(_) => Err(RowError::NotUnderstood),
    }
}

/// Bytes as text, none of them repeated.
pub fn shown(alloc: Global, bytes: &[u8]) -> Result<String, AllocError> {
    let mut text = String::new(alloc);
    for byte in bytes {
        match *byte {
            b'\r' => text.push_str("\\r")?,
            b'\n' => text.push_str("\\n")?,
            b'\\' => text.push_str("\\\\")?,
            b' '..=b'~' => text.push(char::from(*byte))?,
            other => write!(text, "\\x{other:02x}")?,
        }
    }
    Ok(text)
}

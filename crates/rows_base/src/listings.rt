//! The lines of listings.

ghost use Rattle.std.specs.Prelude.{◌%◌, Err, encode_utf8_all, map};
ghost use Rattle.std.specs.declared.io.ErrorKind.TheVariants.{Unsupported};

use crate::plain;
use crate::sources::{Source, end_of};
use crate::welcomes::Latin1;
use crate::words::said;
use ftp_base::encoding::{EncodeError, Encoding, Utf8Encoding};
use ftp_calls::answers::{get_lines_from_stream, read_listing};
use rows_text::{RowError, bytes_of, pair, value};
use std::alloc::{AllocError, Global};
use std::io::ErrorKind;

/// The lines of a listing in an encoding: `ENCODING BYTES`. The definition, step by step, gives the same.
pub fn listing(alloc: Global, input: &str) -> Result<Vec<u8>, RowError> {
    let (name, bytes) = with_rest(input);
    let bytes = bytes_of(alloc, bytes)?;
    match name {
        "utf8" => lines_in(alloc, &bytes, &Utf8Encoding),
        "latin1" => lines_in(alloc, &bytes, &Latin1),
        "seven_bits" => lines_in(alloc, &bytes, &SevenBits),
        _ => Err(RowError::NotUnderstood),
    }
}

/// The lines of these bytes.
fn lines_in<E: Encoding>(alloc: Global, bytes: &[u8], encoding: &E) -> Result<Vec<u8>, RowError> {
    let lines = read_listing(alloc, bytes, encoding)?;
    if plain::listing(alloc, bytes, encoding)? != lines {
        return said(alloc, "the definition differs");
    }
    in_brackets(alloc, &lines)
}

/// The lines of a stream: `INTERRUPTED AT_ONCE END BYTES`. Each read of it is interrupted so many times, and it
/// delivers the bytes, at most so many at once, and then ends or fails.
pub fn stream(alloc: Global, input: &str) -> Result<Vec<u8>, RowError> {
    let (interrupted, words) = pair(input, " ")?;
    let (at_once, words) = pair(words, " ")?;
    let (end, bytes) = with_rest(words);
    let bytes = bytes_of(alloc, bytes)?;
    let mut source = Source::new(value(interrupted)?, value(at_once)?, &bytes, end_of(end)?);
    match get_lines_from_stream(alloc, &mut source) {
        Ok(lines) => in_brackets(alloc, &lines),
        Err(fault) => Ok(format!(in alloc; "E{} {fault}", fault.number())?.into_bytes()),
    }
}

/// A word, and what stands after it, which may be nothing.
fn with_rest(input: &str) -> (&str, &str) {
    input.split_once(' ').unwrap_or((input, ""))
}

/// Lines in brackets, one after another.
fn in_brackets(alloc: Global, lines: &[String]) -> Result<Vec<u8>, RowError> {
    if lines.is_empty() {
        return said(alloc, "none");
    }
    let mut shown = Vec::new(alloc);
    for line in lines {
        shown.push(b'[')?;
        shown.extend_from_slice(line.as_bytes())?;
        shown.push(b']')?;
    }
    Ok(shown)
}

/// ASCII, whatever the eighth bit of a byte is. It writes nothing.
#[derive(Clone, Copy)]
struct SevenBits;

impl Encoding for SevenBits {
    ghost decoded = { λ _ bytes. encode_utf8_all (map (λ byte. byte % 128) bytes) };

    ghost encoded = { λ _ _. Err Unsupported };

    fn decode(&self, alloc: Global, bytes: &[u8]) -> Result<String, AllocError> {
        bytes
            .iter()
            .map(|byte| char::from(*byte % 128))
            .collect(alloc)
    }

    fn encode(&self, _alloc: Global, _text: &str) -> Result<Vec<u8>, EncodeError> {
        Err(EncodeError::Refused(ErrorKind::Unsupported))
    }
}

//! The encodings that a row may name: UTF-8, Latin-1, and some that a careless caller might hand in.

ghost use Rattle.std.specs.Prelude.{◌≡◌, ◌∷◌, ◌-◌, ◌==◌, IfOk, IfErr, Ok, length, map, slice_index, take};
ghost use Rattle.std.specs.Str.{chars};
ghost use Rattle.ftp_base.specs.Encoding.{IsRefusal};
ghost use Rattle.rows_plays.specs.Encodings.{latin_1_bytes, feed_for_space, decoded_by, encoded_by};

use ftp_base::encoding::{EncodeError, Encoding, Utf8Encoding};
use rows_text::RowError;
use std::alloc::{AllocError, Global};
use std::io::ErrorKind;

/// An encoding by its name.
#[derive(Clone, Copy)]
pub enum Named {
    /// `utf8`.
    Utf8,
    /// `latin1`: each of the first 256 characters is a byte.
    Latin1,
    /// `space_to_lf`: makes an LF of each space.
    SpaceToLf,
    /// `cr_first`: puts a CR before the text.
    CrFirst,
    /// `drops_crlf`: drops the last two bytes.
    DropsCrlf,
    /// `empty`: returns no byte at all.
    Empty,
    /// `refuses_a`: UTF-8 that fails on a text whose first letter is an A, as `ABOR` is.
    RefusesA,
}

impl Named {
    /// The encoding of this name.
    pub fn of(name: &str) -> Result<Named, RowError> {
        match name {
            "utf8" => Ok(Named::Utf8),
            "latin1" => Ok(Named::Latin1),
            "space_to_lf" => Ok(Named::SpaceToLf),
            "cr_first" => Ok(Named::CrFirst),
            "drops_crlf" => Ok(Named::DropsCrlf),
            "empty" => Ok(Named::Empty),
            "refuses_a" => Ok(Named::RefusesA),
            _ => Err(RowError::NotUnderstood),
        }
    }
}

impl Encoding for Named {
    ghost decoded = { decoded_by };

    ghost encoded = { encoded_by };

    fn decode(&self, alloc: Global, bytes: &[u8]) -> Result<String, AllocError> {
        match self {
            Named::Utf8 | Named::RefusesA => Utf8Encoding.decode(alloc, bytes),
            Named::Latin1 | Named::SpaceToLf | Named::CrFirst | Named::DropsCrlf | Named::Empty =>
                bytes.iter().map(|byte| char::from(*byte)).collect(alloc),
        }
    }

    fn encode(&self, alloc: Global, text: &str) -> Result<Vec<u8>, EncodeError> {
        match self {
            Named::Utf8 => Utf8Encoding.encode(alloc, text),
            Named::Latin1 => latin_1(alloc, letters_of(alloc, text).map_err(refused)?.as_slice()),
            Named::SpaceToLf => feeds_for_spaces(alloc, text.as_bytes()).map_err(refused),
            Named::CrFirst => after_return(alloc, text.as_bytes()).map_err(refused),
            Named::DropsCrlf => without_line_end(alloc, text.as_bytes()).map_err(refused),
            Named::Empty => Ok(Vec::new(alloc)),
            Named::RefusesA => {
                if begins_with_a(text.as_bytes()) {
                    Err(EncodeError::Refused(ErrorKind::InvalidData))
                } else {
                    Utf8Encoding.encode(alloc, text)
                }
            }
        }
    }
}

/// Whether the first letter of a text is an A.
fn begins_with_a(text: &[u8]) -> bool
    ensures { result ≡ (slice_index text.now 0 == 65) }
{
    matches!(text, [b'A', ..])
}

/// Out of memory, as encodings return it.
fn refused(_cause: AllocError) -> EncodeError
    ensures { result ≡ EncodeError.OutOfMemory }
{
    EncodeError::OutOfMemory
}

/// The characters of a text.
fn letters_of(alloc: Global, text: &str) -> Result<Vec<char>, AllocError>
    ensures { IfOk result (λ letters. letters.items ≡ chars text.now) }
{
    text.chars().collect(alloc)
}

/// The bytes of characters; an error where one of them has no byte.
fn latin_1(alloc: Global, letters: &[char]) -> Result<Vec<u8>, EncodeError>
    ensures ok { IfOk result (λ bytes. latin_1_bytes letters.now ≡ Ok bytes.items) }
    ensures refused { IfErr result (IsRefusal (latin_1_bytes letters.now)) }
{
    let Some((first, others)) = letters.split_first() else {
        return Ok(Vec::new(alloc));
    };
    let code = u32::from(*first);
    if code > 255 {
        return Err(EncodeError::Refused(ErrorKind::InvalidData));
    }
    let mut bytes = latin_1(alloc, others)?;
    match bytes.insert(0, code as u8) {
        Ok(()) => Ok(bytes),
        Err(_) => Err(EncodeError::OutOfMemory),
    }
}

/// An LF in place of each space.
fn feeds_for_spaces(alloc: Global, text: &[u8]) -> Result<Vec<u8>, AllocError>
    ensures { IfOk result (λ bytes. bytes.items ≡ map feed_for_space text.now) }
{
    text.iter()
        .map(|byte| if *byte == b' ' { b'\n' } else { *byte })
        .collect(alloc)
}

/// A CR before the text.
fn after_return(alloc: Global, text: &[u8]) -> Result<Vec<u8>, AllocError>
    ensures { IfOk result (λ bytes. bytes.items ≡ 13 ∷ text.now) }
{
    let mut bytes = Vec::from_slice(alloc, b"\r")?;
    bytes.extend_from_slice(text)?;
    Ok(bytes)
}

/// All but the last two bytes.
fn without_line_end(alloc: Global, text: &[u8]) -> Result<Vec<u8>, AllocError>
    ensures { IfOk result (λ bytes. bytes.items ≡ take (length text.now - 2) text.now) }
{
    Vec::from_slice(alloc, &text[..text.len().saturating_sub(2)])
}

//! ISO 8859-1: each byte is one character, so every list of bytes is a text of its own.

ghost use Rattle.std.specs.Prelude.{◌≡◌, IfErr, IfOk, None, Ok, Some, if◌then◌else◌, vec_items};
ghost use Rattle.std.specs.Str.{chars};
ghost use Rattle.ftp_base.specs.Encoding.{IsRefusal};
ghost use Rattle.ftp_base.specs.Latin1.{is_latin1, latin1_bytes, latin1_numbers, latin1_text};

use crate::encoding::{EncodeError, Encoding};
use std::alloc::{AllocError, Global};
use std::io::ErrorKind;

/// ISO 8859-1 (Latin-1): each byte is the character of its number. A text with a character past U+00FF is refused, as
/// `InvalidInput`.
///
/// Every name that a server sends is a text of its own here, which is sent back as the same bytes. So a file of any name can
/// be listed, fetched, renamed and deleted, but for one with a CR or LF, which no command can carry. UTF-8, RFC 2640's
/// default and [`Utf8Encoding`](super::Utf8Encoding), shows the names of most servers rightly, but a name that isn't UTF-8
/// as a text that is sent back as other bytes.
#[derive(Clone, Copy, Debug, Default, PartialEq, Eq)]
pub struct Latin1Encoding;

impl Encoding for Latin1Encoding {
    ghost decoded = { λ _ bytes. latin1_text bytes };

    ghost encoded = { λ _ text. latin1_bytes text };

    fn decode(&self, alloc: Global, bytes: &[u8]) -> Result<String, AllocError> {
        bytes.iter().map(|byte| char::from(*byte)).collect(alloc)
    }

    fn encode(&self, alloc: Global, text: &str) -> Result<Vec<u8>, EncodeError> {
        match letters_of(alloc, text) {
            Ok(letters) => bytes_of(alloc, &letters),
            Err(AllocError) => Err(EncodeError::OutOfMemory),
        }
    }
}

fn letters_of(alloc: Global, text: &str) -> Result<Vec<char>, AllocError>
    ensures { IfOk result (λ letters. letters.items ≡ chars text.now) }
{
    text.chars().collect(alloc)
}

fn bytes_of(alloc: Global, letters: &[char]) -> Result<Vec<u8>, EncodeError>
    ensures ok { IfOk result (λ bytes. latin1_numbers letters.now ≡ Ok (vec_items bytes)) }
    ensures refused { IfErr result (IsRefusal (latin1_numbers letters.now)) }
{
    let mut bytes = Vec::new(alloc);
    for letter in letters {
        let Some(byte) = byte_of(*letter) else {
            return Err(EncodeError::Refused(ErrorKind::InvalidInput));
        };
        if bytes.push(byte).is_err() {
            return Err(EncodeError::OutOfMemory);
        }
    }
    Ok(bytes)
}

fn byte_of(letter: char) -> Option<u8>
    ensures { result ≡ (if is_latin1 letter then Some letter else None) }
{
    let number = u32::from(letter);
    if number <= 255 {
        Some(number as u8)
    } else {
        None
    }
}

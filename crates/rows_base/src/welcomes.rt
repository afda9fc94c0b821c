//! The text that a server greets with, under one encoding and then another.

ghost use Rattle.std.specs.Prelude.{Err, encode_utf8_all};
ghost use Rattle.std.specs.declared.io.ErrorKind.TheVariants.{Unsupported};

use ftp_base::encoding::{EncodeError, Encoding, Utf8Encoding, WelcomeMessage};
use ftp_base::types::{Bytes, FtpError};
use rows_text::{RowError, bytes_of};
use std::alloc::{AllocError, Global};
use std::io::ErrorKind;

/// The text of a greeting as UTF-8, and then as Latin-1.
pub fn welcome(alloc: Global, input: &str) -> Result<Vec<u8>, RowError> {
    let greeting = Bytes::from_vec(bytes_of(alloc, input)?);
    let mut message = WelcomeMessage::new(alloc, greeting, &Utf8Encoding).map_err(no_memory)?;
    let mut texts = format!(in alloc; "{} | ", message.text())?;
    message.decode_again(alloc, &Latin1).map_err(no_memory)?;
    texts.push_str(message.text())?;
    Ok(texts.into_bytes())
}

/// The one error of a greeting.
fn no_memory(_fault: FtpError) -> RowError {
    RowError::OutOfMemory
}

/// Latin-1, each byte a character. It writes nothing.
#[derive(Clone, Copy)]
pub struct Latin1;

impl Encoding for Latin1 {
    ghost decoded = { λ _ bytes. encode_utf8_all bytes };

    ghost encoded = { λ _ _. Err Unsupported };

    fn decode(&self, alloc: Global, bytes: &[u8]) -> Result<String, AllocError> {
        bytes.iter().map(|byte| char::from(*byte)).collect(alloc)
    }

    fn encode(&self, _alloc: Global, _text: &str) -> Result<Vec<u8>, EncodeError> {
        Err(EncodeError::Refused(ErrorKind::Unsupported))
    }
}

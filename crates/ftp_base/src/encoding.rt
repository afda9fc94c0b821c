//! How text becomes bytes on the control connection, and bytes text.
//!
//! RFC 959 has ASCII there, and RFC 2640 UTF-8, but servers use what they like, so a caller may bring an encoding. Both
//! of its calls are functions of their argument: the same text always has the same bytes. That is what lets a contract
//! name the line that a command becomes. Encoding a text may fail; reading bytes fails only where an allocation does.

ghost use Rattle.std.specs.Prelude.{◌≡◌, ℕ, List, Result, Ok, Err, IfOk, IfErr, string_bytes, vec_items};
ghost use Rattle.std.specs.Str.Lossy.{utf8_lossy};
ghost use Rattle.std.specs.declared.io.ErrorKind.{ErrorKind};
ghost use Rattle.ftp_base.specs.Encoding.{IsRefusal, encode_error_text};

mod latin1;
mod welcome;

use bstr::ByteSlice;
pub use latin1::Latin1Encoding;
use std::alloc::{AllocError, Global};
use std::error::Error;
use std::fmt;
use std::io::ErrorKind;
pub use welcome::WelcomeMessage;

/// Why an encoding gave no bytes for a text.
#[derive(Clone, Copy, Debug, PartialEq, Eq, Drop)]
pub enum EncodeError {
    /// The encoding has no bytes for the text.
    Refused(ErrorKind),
    /// An allocation failed.
    OutOfMemory,
}

impl fmt::Display for EncodeError {
    ghost output = { λ fault. encode_error_text fault };

    fn fmt<W: fmt::Write>(&self, f: &mut fmt::Formatter<W>) -> fmt::Result {
        match self {
            EncodeError::Refused(kind) => write!(f, "the text can't be encoded: {kind}"),
            EncodeError::OutOfMemory => f.write_str("out of memory"),
        }
    }
}

impl Error for EncodeError {}

/// An encoding of text on the control connection: two functions of their argument.
pub trait Encoding: Drop {
    /// The text that bytes stand for.
    ghost decoded: { Self → List ℕ → List ℕ };

    /// The bytes that stand for a text, or the kind of error where there are none.
    ghost encoded: { Self → List ℕ → Result (List ℕ) ErrorKind };

    /// The text that bytes stand for. Every list of bytes stands for one.
    ///
    /// # Errors
    /// `AllocError`.
    fn decode(&self, alloc: Global, bytes: &[u8]) -> Result<String, AllocError>
        ensures { IfOk result (λ text. string_bytes text ≡ decoded self.now bytes.now) };

    /// The bytes that stand for a text.
    ///
    /// # Errors
    /// `Refused` where the text has no bytes, `OutOfMemory` where an allocation fails.
    fn encode(&self, alloc: Global, text: &str) -> Result<Vec<u8>, EncodeError>
        ensures ok { IfOk result (λ bytes. encoded self.now text.now ≡ Ok (vec_items bytes)) }
        ensures refused { IfErr result (IsRefusal (encoded self.now text.now)) };
}

/// UTF-8, the encoding where no other was set (RFC 2640). Bytes that aren't UTF-8 are read lossily, each
/// maximal piece as U+FFFD.
#[derive(Clone, Copy, Debug, Default, PartialEq, Eq)]
pub struct Utf8Encoding;

impl Encoding for Utf8Encoding {
    ghost decoded = { λ _ bytes. utf8_lossy bytes };

    ghost encoded = { λ _ text. Ok text };

    fn decode(&self, alloc: Global, bytes: &[u8]) -> Result<String, AllocError> {
        bytes.to_str_lossy(alloc)?.into_owned(alloc)
    }

    fn encode(&self, alloc: Global, text: &str) -> Result<Vec<u8>, EncodeError> {
        match Vec::from_slice(alloc, text.as_bytes()) {
            Ok(bytes) => Ok(bytes),
            Err(AllocError) => Err(EncodeError::OutOfMemory),
        }
    }
}

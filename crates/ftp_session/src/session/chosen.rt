//! The encoding of a session's texts, which may be set or not.
//!
//! None is UTF-8, read lossily. The choice is an encoding itself, so that the machine below knows
//! only one.

ghost use Rattle.ftp_dialogue.specs.Coding.{decoded_by, encoded_by};

use ftp_base::encoding::{EncodeError, Encoding, Utf8Encoding};
use std::alloc::{AllocError, Global};

/// The encoding that was set, or UTF-8, read lossily, where none was (RFC 2640, section 2.1).
pub struct Chosen<E: Encoding>(pub(super) Option<E>);

impl<E: Encoding> Drop for Chosen<E> {
    fn drop(self) {
        let Self(encoding) = self;
        drop(encoding);
    }
}

impl<E: Encoding> Encoding for Chosen<E> {
    ghost decoded = { λ chosen bytes. decoded_by E.decoded chosen.0 bytes };

    ghost encoded = { λ chosen text. encoded_by E.encoded chosen.0 text };

    fn decode(&self, alloc: Global, bytes: &[u8]) -> Result<String, AllocError> {
        match &self.0 {
            Some(encoding) => encoding.decode(alloc, bytes),
            None => Utf8Encoding.decode(alloc, bytes),
        }
    }

    fn encode(&self, alloc: Global, text: &str) -> Result<Vec<u8>, EncodeError> {
        match &self.0 {
            Some(encoding) => encoding.encode(alloc, text),
            None => Utf8Encoding.encode(alloc, text),
        }
    }
}

//! Sources that are interrupted, slow, or fail.

use rows_text::RowError;
use std::io;
use std::io::{ErrorKind, Read};

/// The end of a source.
pub fn end_of(word: &str) -> Result<Option<ErrorKind>, RowError> {
    match word {
        "ends" => Ok(None),
        "breaks" => Ok(Some(ErrorKind::BrokenPipe)),
        "no_entry" => Ok(Some(ErrorKind::PermissionDenied)),
        "no_memory" => Ok(Some(ErrorKind::OutOfMemory)),
        _ => Err(RowError::NotUnderstood),
    }
}

/// A source whose reads are each interrupted so many times. It delivers a text, at most so many bytes at once, and then
/// ends or fails.
#[derive(Drop)]
pub struct Source<'a> {
    interrupted: usize,
    left: usize,
    at_once: usize,
    text: &'a [u8],
    end: Option<ErrorKind>,
}

impl Source<'_> {
    pub fn new(
        interrupted: usize,
        at_once: usize,
        text: &[u8],
        end: Option<ErrorKind>,
    ) -> Source<'_> {
        Source {
            interrupted,
            left: interrupted,
            at_once,
            text,
            end,
        }
    }
}

impl Read for Source<'_> {
    fn read(&mut self, buf: &mut [u8]) -> io::Result<usize> {
        if self.left > 0 {
            self.left -= 1;
            return Err(ErrorKind::Interrupted.into());
        }
        self.left = self.interrupted;
        if self.text.is_empty() {
            return match self.end {
                Some(kind) => Err(kind.into()),
                None => Ok(0),
            };
        }
        let n = buf.len().min(self.at_once).min(self.text.len());
        buf[..n].copy_from_slice(&self.text[..n]);
        self.text = &self.text[n..];
        Ok(n)
    }
}

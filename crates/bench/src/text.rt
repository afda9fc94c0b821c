//! A text of lines of 80 bytes, LF among them, and its conversion alone.

use crate::pieces::least;
use std::alloc::{AllocError, Global};
use std::io;
use std::io::Read;
use suppaftp::ascii::CrlfEncoder;

/// A line.
const LINE: &[u8; 80] =
    b"The quick brown fox jumps over the lazy dog, and then it does so again, and yet\n";

/// How many lines stand in memory.
const LINES: usize = 1024;

/// How many bytes are converted at once in memory: about as many as a copy reads, in whole lines.
const AT_ONCE: usize = 8_000;

/// The lines that stand in memory.
pub fn lines(alloc: Global) -> Result<Vec<u8>, AllocError> {
    let mut lines = Vec::new(alloc);
    for _ in 0..LINES {
        lines.extend_from_slice(LINE)?;
    }
    Ok(lines)
}

/// A reader of a text: the lines in memory, again and again.
#[derive(Drop)]
pub struct Text<'a> {
    lines: &'a [u8],
    ahead: &'a [u8],
    left: u64,
}

impl<'a> Text<'a> {
    /// A text of the whole lines within so many bytes.
    pub fn new(lines: &'a [u8], length: u64) -> Text<'a> {
        Text {
            lines,
            ahead: lines,
            left: length / 80 * 80,
        }
    }
}

impl Read for Text<'_> {
    fn read(&mut self, buf: &mut [u8]) -> io::Result<usize> {
        if self.ahead.is_empty() {
            self.ahead = self.lines;
        }
        let count = least(buf.len().min(self.ahead.len()), self.left);
        let (now, later) = self.ahead.split_at(count);
        buf[..count].copy_from_slice(now);
        self.ahead = later;
        self.left -= count as u64;
        Ok(count)
    }
}

/// Converts a text of the whole lines within so many bytes, in memory alone; how many bytes it becomes.
pub fn convert(alloc: Global, lines: &[u8], length: u64) -> Result<u64, AllocError> {
    let mut encoder = CrlfEncoder::new();
    let mut out = Vec::new(alloc);
    let mut left = length / 80 * 80;
    let mut total = 0u64;
    for _ in 0..u64::MAX {
        let count = least(lines.len().min(AT_ONCE), left);
        if count == 0 {
            break;
        }
        out.clear();
        encoder.encode(&lines[..count], &mut out)?;
        total = total.saturating_add(out.len() as u64);
        left -= count as u64;
    }
    Ok(total)
}

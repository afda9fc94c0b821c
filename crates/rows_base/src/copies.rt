//! Copies from sources and to writers that are interrupted, slow, or fail.

use crate::sources::{Source, end_of};
use crate::words::answered;
use ftp_base::ascii::copy_crlf;
use rows_text::{RowError, bytes_of, value};
use std::alloc::Global;
use std::io;
use std::io::{ErrorKind, Write};

/// What a copy returns, and what was written: `INTERRUPTED TEXT END INTERRUPTED AT_ONCE ROOM`. Each read of the source
/// is interrupted so many times, and it delivers the text, and ends or fails; the writer is interrupted so many times,
/// takes at most so many bytes at once, and fails when it has no room left.
pub fn copied(alloc: Global, input: &str) -> Result<Vec<u8>, RowError> {
    let words: Vec<&str> = input.split(' ').collect(alloc)?;
    let [interrupted, text, end, refused, at_once, room] = words.as_slice() else {
        return Err(RowError::NotUnderstood);
    };
    let text = bytes_of(alloc, text)?;
    let source = Source::new(value(interrupted)?, usize::MAX, &text, end_of(end)?);
    let writer = Writer {
        interrupted: value(refused)?,
        at_once: value(at_once)?,
        room: value(room)?,
        written: Vec::new(alloc),
    };
    copy(alloc, source, writer)
}

/// A copy from this source to this writer.
fn copy(alloc: Global, mut source: Source<'_>, mut writer: Writer) -> Result<Vec<u8>, RowError> {
    let answer = match copy_crlf(alloc, &mut source, &mut writer) {
        Ok(count) => format!(in alloc; "{count}")?,
        Err(fault) => format!(in alloc; "E{} {fault}", fault.number())?,
    };
    answered(answer, &writer.written)
}

/// A writer that is interrupted, takes a few bytes at once, and has room for so many.
#[derive(Drop)]
struct Writer {
    interrupted: usize,
    at_once: usize,
    room: usize,
    written: Vec<u8>,
}

impl Write for Writer {
    fn write(&mut self, buf: &[u8]) -> io::Result<usize> {
        if self.interrupted > 0 {
            self.interrupted -= 1;
            return Err(ErrorKind::Interrupted.into());
        }
        if self.room == 0 {
            return Err(ErrorKind::StorageFull.into());
        }
        let n = buf.len().min(self.at_once).min(self.room);
        self.written.extend_from_slice(&buf[..n])?;
        self.room -= n;
        Ok(n)
    }

    fn flush(&mut self) -> io::Result<()> {
        Ok(())
    }
}

//! A download goes to a caller's writer, a piece a poll (RFC 959, section 4.1.3).

ghost use Rattle.std.specs.Prelude.{◌≡◌, ◌≢◌, Some};
ghost use Rattle.futures.specs.Task.{IsArmed, Keeps};

use crate::client::ImplAsyncFtpStream;
use crate::retrieve::{RetrReader, Retrieve};
use ftp_base::ascii::upload_size;
use ftp_base::encoding::Encoding;
use ftp_base::retry::RETRIES;
use ftp_base::types::{FtpError, FtpResult};
use ftp_copying::{STEPS, behind, front, io_fault};
use ftp_shared::FromOffset;
use ftp_transfer::{Progress, Transfer};
use ftp_transport::{PollConn, TaskConn, TaskTransport};
use futures::task::{Context, Poll};
use std::alloc::Global;
use std::io::ErrorKind;
use tokio::io::AsyncWrite;

/// How many bytes of the data are read at once at most.
const BUFFER: usize = 65_536;

/// How many bytes are read first: a small file's, since memory is filled before it is read into.
const FIRST: usize = 2_000;

/// How many bytes are read next, once a read has filled the buffer.
const NEXT: usize = 8_192;

/// What reads a download into a writer, and reports how far it has come. It makes of it how many bytes were written.
pub struct Sink<W: AsyncWrite, P: Progress> {
    writer: W,
    progress: P,
    // None where there was no memory.
    buffer: Option<Vec<u8>>,
    // How many bytes of the buffer were read, and how many of these were written.
    filled: usize,
    written: usize,
    // How often in a row the writer was interrupted.
    interrupted: usize,
    count: u64,
    ended: bool,
    data_failed: bool,
}

impl<W: AsyncWrite, P: Progress> Drop for Sink<W, P> {
    fn drop(self) {
        let Self {
            writer,
            progress,
            buffer,
            filled: _,
            written: _,
            interrupted: _,
            count: _,
            ended: _,
            data_failed: _,
        } = self;
        drop(writer);
        drop(progress);
        drop(buffer);
    }
}

impl<W: AsyncWrite, P: Progress> Sink<W, P> {
    /// Nothing was read yet. Where there is no memory for a buffer the download fails with `OutOfMemory`.
    pub fn new(alloc: Global, writer: W, progress: P) -> Sink<W, P> {
        Sink {
            writer,
            progress,
            buffer: buffer(alloc),
            filled: 0,
            written: 0,
            interrupted: 0,
            count: 0,
            ended: false,
            data_failed: false,
        }
    }

    /// The next bytes are read, once those of before were written.
    fn poll_data<C: PollConn<()> + TaskConn + Drop>(
        &mut self,
        transfer: &mut Transfer<C>,
        cx: &mut Context<'_>,
    ) -> Option<Poll<FtpResult<u64>>>
        ensures registered { result ≡ Some Poll.Pending → IsArmed cx.new }
        ensures kept { Keeps cx.old cx.new }
    {
        let Some(buffer) = &mut self.buffer else {
            return Some(Poll::Ready(Err(FtpError::OutOfMemory)));
        };
        if self.filled == buffer.len() {
            grow(buffer);
        }
        match transfer.poll_read_in(cx, buffer) {
            Ok(Poll::Ready(0)) => {
                self.ended = true;
                None
            }
            Ok(Poll::Ready(taken)) => match upload_size(self.count, taken) {
                Ok(count) => {
                    self.count = count;
                    self.filled = taken;
                    self.written = 0;
                    None
                }
                Err(fault) => Some(Poll::Ready(Err(fault))),
            },
            Ok(Poll::Pending) => Some(Poll::Pending),
            Err(kind) => {
                self.data_failed = true;
                Some(Poll::Ready(Err(io_fault(kind))))
            }
        }
    }

    /// What was read is written.
    fn poll_writer(&mut self, cx: &mut Context<'_>) -> Option<Poll<FtpResult<u64>>>
        ensures registered { result ≡ Some Poll.Pending → IsArmed cx.new }
        ensures kept { Keeps cx.old cx.new }
    {
        let Some(buffer) = &self.buffer else {
            return Some(Poll::Ready(Err(FtpError::OutOfMemory)));
        };
        let unwritten = behind(front(buffer.as_slice(), self.filled), self.written);
        match self.writer.poll_write(cx, unwritten) {
            Poll::Ready(Ok(0)) => Some(Poll::Ready(Err(io_fault(ErrorKind::WriteZero)))),
            Poll::Ready(Ok(count)) => {
                self.interrupted = 0;
                self.written = self.written.saturating_add(count);
                if self.written >= self.filled {
                    self.progress.went(self.count);
                }
                None
            }
            Poll::Ready(Err(error)) => self.try_again(error.kind()),
            Poll::Pending => Some(Poll::Pending),
        }
    }

    /// All was written, and the writer is flushed.
    fn poll_flushed(&mut self, cx: &mut Context<'_>) -> Option<Poll<FtpResult<u64>>>
        ensures registered { result ≡ Some Poll.Pending → IsArmed cx.new }
        ensures kept { Keeps cx.old cx.new }
    {
        match self.writer.poll_flush(cx) {
            Poll::Ready(Ok(())) => Some(Poll::Ready(Ok(self.count))),
            Poll::Ready(Err(error)) => self.try_again(error.kind()),
            Poll::Pending => Some(Poll::Pending),
        }
    }

    /// The writer failed: where it was interrupted it is asked again, at most 64 times in a row.
    fn try_again(&mut self, kind: ErrorKind) -> Option<Poll<FtpResult<u64>>>
        ensures { result ≢ Some Poll.Pending }
    {
        if kind == ErrorKind::Interrupted && self.interrupted < RETRIES {
            self.interrupted += 1;
            None
        } else {
            Some(Poll::Ready(Err(io_fault(kind))))
        }
    }

    /// Makes one read of the data, one write, or the flush. None where the download goes on.
    fn poll_step<C: PollConn<()> + TaskConn + Drop>(
        &mut self,
        transfer: &mut Transfer<C>,
        cx: &mut Context<'_>,
    ) -> Option<Poll<FtpResult<u64>>>
        ensures registered { result ≡ Some Poll.Pending → IsArmed cx.new }
        ensures kept { Keeps cx.old cx.new }
    {
        if self.written < self.filled {
            self.poll_writer(cx)
        } else if self.ended {
            self.poll_flushed(cx)
        } else {
            self.poll_data(transfer, cx)
        }
    }
}

/// Room for what is read first, where there is memory.
fn buffer(alloc: Global) -> Option<Vec<u8>> {
    vec![in alloc; 0u8; FIRST].ok()
}

/// Makes a buffer at least twice as long, up to the most that is read at once. Where there is no memory it stays as it is.
fn grow(buffer: &mut Vec<u8>) {
    let length = buffer.len();
    if length < BUFFER {
        let _ = buffer.resize((length * 2).max(NEXT).min(BUFFER), 0);
    }
}

impl<C: PollConn<()> + TaskConn + Drop, W: AsyncWrite, P: Progress> RetrReader<C> for Sink<W, P> {
    type Out = u64;

    fn poll(&mut self, transfer: &mut Transfer<C>, cx: &mut Context<'_>) -> Poll<FtpResult<u64>> {
        for _ in 0..STEPS {
            if let Some(polled) = self.poll_step(transfer, cx) {
                return polled;
            }
        }
        cx.yield_now()
    }

    fn data_failed(&self) -> bool {
        self.data_failed
    }
}

/// A download to a writer. It returns how many bytes were written.
///
/// Dropped while its data is read or its last reply is waited for, it leaves its transfer. An error of the data
/// connection or of the writer leaves it, too.
pub type WriteTo<'r, R, Tr, K, E, B, W, P> = Retrieve<'r, R, Tr, K, E, B, Sink<W, P>>;

/// A download to a writer from an offset on, as [`WriteTo`]. It returns how many bytes came.
pub type DownloadTo<'r, R, Tr, K, E, B, W, P> = WriteTo<'r, R, Tr, K, E, B, W, FromOffset<P>>;

impl<Tr: TaskTransport, K: Drop, E: Encoding, B: Drop> ImplAsyncFtpStream<Tr, K, E, B>
where
    Tr::Conn: PollConn<()> + TaskConn,
{
    /// Downloads this file to a writer: `RETR` (150, 125; RFC 959, section 4.1.3), the bytes as they come, and the last
    /// reply (226, 250). It returns how many bytes were written, and reports its progress; `NoProgress` ignores that.
    /// Both may be passed by `&mut`. The writer is flushed. The offset is used as by `retr_as_stream`.
    ///
    /// # Errors
    /// Those of a data command. The error of the data connection, where what came was written, or of the writer, where
    /// a front of that was; `SourceTooLarge` past 2^63 - 1 bytes; `OutOfMemory` for a buffer: they leave the transfer.
    /// Those of the last reply.
    pub fn write_to<'r, R: AllocGlobal, W: AsyncWrite, P: Progress>(
        &self,
        rt: &'r R,
        path: &str,
        writer: W,
        progress: P,
    ) -> WriteTo<'r, R, Tr, K, E, B, W, P> {
        self.retr(rt, path, Sink::new(rt.alloc(), writer, progress))
    }

    /// Downloads what follows this offset, in bytes, of a file to a writer, as `write_to` does: `REST` (350; RFC 3659,
    /// section 5), where the offset isn't 0, and `RETR` (150, 125), in one hold of the lock. It returns how many bytes came, and
    /// reports the place in the file that the download has come to: the offset and these. An offset that
    /// `resume_transfer` set doesn't count, and none is left.
    ///
    /// # Errors
    /// Those of `resume_transfer` and `write_to`.
    pub fn download_to<'r, R: AllocGlobal, W: AsyncWrite, P: Progress>(
        &self,
        rt: &'r R,
        path: &str,
        writer: W,
        offset: u64,
        progress: P,
    ) -> DownloadTo<'r, R, Tr, K, E, B, W, P> {
        let progress = FromOffset::new(offset, progress);
        self.retr_from(rt, path, offset, Sink::new(rt.alloc(), writer, progress))
    }
}

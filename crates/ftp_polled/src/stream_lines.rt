//! The state that reads the lines of a listing from a stream.

use crate::client::ImplAsyncFtpStream;
use ftp_base::encoding::{Encoding, Utf8Encoding};
use ftp_base::retry::RETRIES;
use ftp_base::types::{ConnectionError, FtpError, FtpResult};
use ftp_calls::answers::read_listing;
use ftp_copying::front;
use ftp_transport::{TaskConn, TaskTransport};
use futures::Future;
use futures::task::{Context, Poll};
use std::alloc::Global;
use std::io::ErrorKind;
use tokio::io::AsyncRead;

/// How many bytes are read at once.
const BUFFER: usize = 8_192;

/// The lines of a listing are read to the end of a stream.
///
/// Dropped, it drops its stream with what was read; a stream that was lent can be read on.
pub struct StreamLines<S: AsyncRead> {
    alloc: Global,
    stream: S,
    // What was read; None once the lines were returned.
    bytes: Option<Vec<u8>>,
    // How often in a row the stream was interrupted.
    interrupted: usize,
}

impl<S: AsyncRead> Drop for StreamLines<S> {
    fn drop(self) {
        let Self {
            alloc: _,
            stream,
            bytes,
            interrupted: _,
        } = self;
        drop(stream);
        drop(bytes);
    }
}

impl<S: AsyncRead> StreamLines<S> {
    /// Keeps what was read.
    ///
    /// # Errors
    /// `OutOfMemory`.
    fn keep(&mut self, piece: &[u8]) -> FtpResult<()> {
        self.interrupted = 0;
        if let Some(bytes) = &mut self.bytes {
            bytes.extend_from_slice(piece)?;
        }
        Ok(())
    }

    /// The lines, once the stream has ended.
    ///
    /// # Errors
    /// `OutOfMemory`; `AlreadyCompleted` where they were returned before.
    fn lines(&mut self) -> FtpResult<Vec<String>> {
        match self.bytes.take() {
            Some(bytes) => Ok(read_listing(self.alloc, &bytes, &Utf8Encoding)?),
            None => Err(FtpError::ConnectionError(ConnectionError::AlreadyCompleted)),
        }
    }

    /// Whether a read that ended so is made again.
    fn tries_again(&mut self, kind: ErrorKind) -> bool {
        if kind == ErrorKind::Interrupted && self.interrupted < RETRIES {
            self.interrupted += 1;
            true
        } else {
            false
        }
    }
}

/// The error of a listing that can't be read to its end.
fn unread(kind: ErrorKind) -> FtpError {
    if kind == ErrorKind::OutOfMemory {
        FtpError::OutOfMemory
    } else {
        FtpError::BadResponse
    }
}

impl<S: AsyncRead> Future for StreamLines<S> {
    type Output = FtpResult<Vec<String>>;

    fn poll(&mut self, cx: &mut Context<'_>) -> Poll<FtpResult<Vec<String>>> {
        let mut buffer = [0u8; BUFFER];
        if self.bytes.is_none() {
            return Poll::Ready(self.lines());
        }
        match self.stream.poll_read(cx, &mut buffer) {
            Poll::Ready(Ok(0)) => Poll::Ready(self.lines()),
            Poll::Ready(Ok(count)) => match self.keep(front(&buffer, count)) {
                Ok(()) => cx.yield_now(),
                Err(fault) => Poll::Ready(Err(fault)),
            },
            Poll::Ready(Err(error)) => {
                let kind = error.kind();
                if self.tries_again(kind) {
                    return cx.yield_now();
                }
                Poll::Ready(Err(unread(kind)))
            }
            Poll::Pending => Poll::Pending,
        }
    }
}

impl<Tr: TaskTransport, K: Drop, E: Encoding, B: Drop> ImplAsyncFtpStream<Tr, K, E, B>
where
    Tr::Conn: TaskConn,
{
    /// The lines of a listing, read to the end of its stream, as of the transfer that `custom_data_command` opened: what
    /// stands between LFs, without one CR at its end, and what follows the last LF likewise (RFC 959, section 3.1.1.5.2).
    /// Empty lines are left out, and each line is read lossily as UTF-8. An interrupted read is tried again, at most 64
    /// times. No client is asked, and no reply is read.
    ///
    /// # Errors
    /// `BadResponse` where the stream returns an error; `OutOfMemory`.
    pub fn get_lines_from_stream<R: AllocGlobal, S: AsyncRead>(
        rt: &R,
        stream: S,
    ) -> StreamLines<S> {
        StreamLines {
            alloc: rt.alloc(),
            stream,
            bytes: Some(Vec::new(rt.alloc())),
            interrupted: 0,
        }
    }
}

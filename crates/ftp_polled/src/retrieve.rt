//! The state of a download that is read by its caller.

ghost use Rattle.futures.specs.Poll.{OnPending};
ghost use Rattle.futures.specs.Task.{IsArmed, Keeps};

use crate::client::ImplAsyncFtpStream;
use crate::opening::Opening;
use crate::whole_file::{Progressing, WholeFile};
use ftp_base::encoding::Encoding;
use ftp_base::types::{ConnectionError, FtpError, FtpResult};
use ftp_calls::call::BorrowedCall;
use ftp_transfer::{Direction, Transfer};
use ftp_transport::{PassiveStreamBuilder, PollConn, PollTransport, TaskConn, TaskTransport};
use futures::Future;
use futures::task::{Context, Poll};
use std::mem;

/// What reads a download.
pub trait RetrReader<C: TaskConn + Drop>: Drop {
    /// What it makes of the data.
    type Out: Drop;

    /// Continues to read. Where it waits it has registered the task, as a poll of the transfer does that waits.
    ///
    /// # Errors
    /// What the download fails with; its transfer is left then.
    fn poll(
        &mut self,
        transfer: &mut Transfer<C>,
        cx: &mut Context<'_>,
    ) -> Poll<FtpResult<Self::Out>>
        ensures registered { OnPending result (IsArmed cx.new) }
        ensures kept { Keeps cx.old cx.new };

    /// Whether its error was that of the data connection, which `last_failure` returns then.
    fn data_failed(&self) -> bool {
        false
    }
}

/// A download, which a reader reads: `RETR`, the data, and the last reply, in one hold of the lock.
///
/// Dropped while its data is read or its last reply is waited for, it leaves its transfer. The reader's error leaves
/// it, too.
pub struct Retrieve<'r, R, Tr: TaskTransport, K: Drop, E: Encoding, B: Drop, F>
where
    Tr::Conn: TaskConn,
    F: RetrReader<Tr::Conn>,
{
    file: WholeFile<'r, R, Tr, K, E, B>,
    reader: F,
    read: Option<F::Out>,
}

impl<R, Tr: TaskTransport, K: Drop, E: Encoding, B: Drop, F> Drop
    for Retrieve<'_, R, Tr, K, E, B, F>
where
    Tr::Conn: TaskConn,
    F: RetrReader<Tr::Conn>,
{
    fn drop(self) {
        let Self { file, reader, read } = self;
        drop(file);
        drop(reader);
        drop(read);
    }
}

impl<'r, R, Tr: TaskTransport, K: Drop, E: Encoding, B: Drop, F> Retrieve<'r, R, Tr, K, E, B, F>
where
    Tr::Conn: TaskConn,
    F: RetrReader<Tr::Conn>,
{
    /// A download that this opens.
    fn new(opening: Opening<'r, R, Tr, K, E, B>, reader: F) -> Self {
        Retrieve {
            file: WholeFile::new(opening),
            reader,
            read: None,
        }
    }
}

impl<'r, R: AllocGlobal, Tr, K: Drop, E: Encoding, B, F> Retrieve<'r, R, Tr, K, E, B, F>
where
    Tr: PollTransport<R, ()> + TaskTransport,
    Tr::Conn: PollConn<()> + TaskConn,
    B: PassiveStreamBuilder<Tr::Conn>,
    F: RetrReader<Tr::Conn>,
{
    /// Continues to read the data, where the transfer is open. Once it is read the end of the transfer begins.
    fn poll_read(&mut self, cx: &mut Context<'_>) -> Poll<FtpResult<()>>
        ensures registered { OnPending result (IsArmed cx.new) }
        ensures kept { Keeps cx.old cx.new }
    {
        let polled = match &mut self.file.at {
            Progressing::Moving(transfer) => self.reader.poll(transfer, cx),
            _ => return Poll::Ready(Ok(())),
        };
        match polled {
            Poll::Ready(Ok(read)) => {
                drop(mem::replace(&mut self.read, Some(read)));
                self.file.end();
                Poll::Ready(Ok(()))
            }
            Poll::Ready(Err(fault)) => {
                self.file.leave(&fault, self.reader.data_failed());
                Poll::Ready(Err(fault))
            }
            Poll::Pending => Poll::Pending,
        }
    }
}

/// What was read, unless it was returned before.
fn read_value<T: Drop>(read: Option<T>) -> FtpResult<T> {
    match read {
        Some(read) => Ok(read),
        None => Err(FtpError::ConnectionError(ConnectionError::AlreadyCompleted)),
    }
}

impl<'r, R: AllocGlobal, Tr, K: Drop, E: Encoding, B, F> Future for Retrieve<'r, R, Tr, K, E, B, F>
where
    Tr: PollTransport<R, ()> + TaskTransport,
    Tr::Conn: PollConn<()> + TaskConn,
    B: PassiveStreamBuilder<Tr::Conn>,
    F: RetrReader<Tr::Conn>,
{
    type Output = FtpResult<F::Out>;

    fn poll(&mut self, cx: &mut Context<'_>) -> Poll<FtpResult<F::Out>> {
        if self.file.is_unopened() {
            match self.file.poll_opened(cx) {
                Poll::Ready(Ok(())) => {}
                Poll::Ready(Err(fault)) => return Poll::Ready(Err(fault)),
                Poll::Pending => return Poll::Pending,
            }
        }
        match self.poll_read(cx) {
            Poll::Ready(Ok(())) => {}
            Poll::Ready(Err(fault)) => return Poll::Ready(Err(fault)),
            Poll::Pending => return Poll::Pending,
        }
        match self.file.poll_ended(cx) {
            Poll::Ready(Ok(())) => Poll::Ready(read_value(self.read.take())),
            Poll::Ready(Err(fault)) => Poll::Ready(Err(fault)),
            Poll::Pending => Poll::Pending,
        }
    }
}

impl<Tr: TaskTransport, K: Drop, E: Encoding, B: Drop> ImplAsyncFtpStream<Tr, K, E, B>
where
    Tr::Conn: TaskConn,
{
    /// Downloads this file by a reader: `RETR` (150, 125; RFC 959, section 4.1.3), the data as it is, and the last
    /// reply (226, 250). The offset is used as by `retr_as_stream`.
    ///
    /// # Errors
    /// Those of a data command; the reader's error; those of the last reply.
    pub fn retr<'r, R: AllocGlobal, F: RetrReader<Tr::Conn>>(
        &self,
        rt: &'r R,
        path: &str,
        reader: F,
    ) -> Retrieve<'r, R, Tr, K, E, B, F> {
        let call = BorrowedCall::RetrAsStream(path);
        let opening = Opening::new(rt, &self.session, call, false, Direction::Download);
        Retrieve::new(opening, reader)
    }

    /// Downloads what follows this offset of a file by a reader, in one hold of the lock.
    pub(crate) fn retr_from<'r, R: AllocGlobal, F: RetrReader<Tr::Conn>>(
        &self,
        rt: &'r R,
        path: &str,
        offset: u64,
        reader: F,
    ) -> Retrieve<'r, R, Tr, K, E, B, F> {
        let call = BorrowedCall::RetrAsStream(path);
        let opening = Opening::new(rt, &self.session, call, false, Direction::Download);
        Retrieve::new(opening.at_offset(offset), reader)
    }
}

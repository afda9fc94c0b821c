//! The state of an upload from its caller's source.

ghost use Rattle.futures.specs.Poll.{OnPending};
ghost use Rattle.futures.specs.Task.{IsArmed, Keeps};

use crate::client::ImplAsyncFtpStream;
use crate::opening::Opening;
use crate::whole_file::{Progressing, WholeFile};
use ftp_base::encoding::Encoding;
use ftp_base::types::FtpResult;
use ftp_calls::call::BorrowedCall;
use ftp_copying::Copying;
use ftp_transfer::{Direction, NoProgress, Progress};
use ftp_transport::{PassiveStreamBuilder, PollConn, PollTransport, TaskConn, TaskTransport};
use futures::Future;
use futures::task::{Context, Poll};
use tokio::io::AsyncRead;

/// A source is uploaded: the command, the data, and the last reply, in one hold of the lock. It returns the number of
/// bytes that were written.
///
/// Dropped while its data is written or its last reply is waited for, it leaves its transfer. An error of the source or
/// of the data connection leaves it, too.
pub struct Upload<
    'r,
    R,
    Tr: TaskTransport,
    K: Drop,
    E: Encoding,
    B: Drop,
    S: AsyncRead,
    P: Progress = NoProgress,
>
where
    Tr::Conn: TaskConn,
{
    file: WholeFile<'r, R, Tr, K, E, B>,
    copying: Copying<S, P>,
}

impl<R, Tr: TaskTransport, K: Drop, E: Encoding, B: Drop, S: AsyncRead, P: Progress> Drop
    for Upload<'_, R, Tr, K, E, B, S, P>
where
    Tr::Conn: TaskConn,
{
    fn drop(self) {
        let Self { file, copying } = self;
        drop(file);
        drop(copying);
    }
}

impl<'r, R: AllocGlobal, Tr, K: Drop, E: Encoding, B, S: AsyncRead, P: Progress> Upload<
    'r,
    R,
    Tr,
    K,
    E,
    B,
    S,
    P,
>
where
    Tr: PollTransport<R, ()> + TaskTransport,
    Tr::Conn: PollConn<()> + TaskConn,
    B: PassiveStreamBuilder<Tr::Conn>,
{
    /// Continues to open the transfer; once it is open the copy begins.
    fn poll_opened(&mut self, cx: &mut Context<'_>) -> Poll<FtpResult<()>>
        ensures registered { OnPending result (IsArmed cx.new) }
        ensures kept { Keeps cx.old cx.new }
    {
        match self.file.poll_opened(cx) {
            Poll::Ready(Ok(())) => Poll::Ready(self.begin()),
            Poll::Ready(Err(fault)) => Poll::Ready(Err(fault)),
            Poll::Pending => Poll::Pending,
        }
    }

    /// The transfer is open: the copy begins.
    fn begin(&mut self) -> FtpResult<()> {
        let opening = &self.file.opening;
        let begun = self
            .copying
            .begin(opening.runtime().alloc(), opening.sends_text());
        if begun.is_err() {
            self.file.abandon();
        }
        begun
    }

    /// Continues to copy the source, where the transfer is open. Once it has ended the end of the transfer begins.
    fn poll_copied(&mut self, cx: &mut Context<'_>) -> Poll<FtpResult<()>>
        ensures registered { OnPending result (IsArmed cx.new) }
        ensures kept { Keeps cx.old cx.new }
    {
        let polled = match &mut self.file.at {
            Progressing::Moving(transfer) => self.copying.poll_copy(transfer, cx),
            _ => return Poll::Ready(Ok(())),
        };
        match polled {
            Poll::Ready(Ok(())) => {
                self.file.end();
                Poll::Ready(Ok(()))
            }
            Poll::Ready(Err(fault)) => {
                self.file.opening.note(&fault, self.copying.data_failed());
                self.file.abandon();
                Poll::Ready(Err(fault))
            }
            Poll::Pending => Poll::Pending,
        }
    }
}

impl<'r, R: AllocGlobal, Tr, K: Drop, E: Encoding, B, S: AsyncRead, P: Progress> Future
    for Upload<'r, R, Tr, K, E, B, S, P>
where
    Tr: PollTransport<R, ()> + TaskTransport,
    Tr::Conn: PollConn<()> + TaskConn,
    B: PassiveStreamBuilder<Tr::Conn>,
{
    type Output = FtpResult<u64>;

    fn poll(&mut self, cx: &mut Context<'_>) -> Poll<FtpResult<u64>> {
        if self.file.is_unopened() {
            match self.poll_opened(cx) {
                Poll::Ready(Ok(())) => {}
                Poll::Ready(Err(fault)) => return Poll::Ready(Err(fault)),
                Poll::Pending => return Poll::Pending,
            }
        }
        match self.poll_copied(cx) {
            Poll::Ready(Ok(())) => {}
            Poll::Ready(Err(fault)) => return Poll::Ready(Err(fault)),
            Poll::Pending => return Poll::Pending,
        }
        match self.file.poll_ended(cx) {
            Poll::Ready(Ok(())) => Poll::Ready(Ok(self.copying.count())),
            Poll::Ready(Err(fault)) => Poll::Ready(Err(fault)),
            Poll::Pending => Poll::Pending,
        }
    }
}

impl<Tr: TaskTransport, K: Drop, E: Encoding, B: Drop> ImplAsyncFtpStream<Tr, K, E, B>
where
    Tr::Conn: TaskConn,
{
    /// The state of an upload.
    fn upload<'r, R: AllocGlobal, S: AsyncRead, P: Progress>(
        &self,
        rt: &'r R,
        call: BorrowedCall<'_>,
        source: S,
        progress: P,
    ) -> Upload<'r, R, Tr, K, E, B, S, P> {
        let opening = Opening::new(rt, &self.session, call, false, Direction::Upload);
        Upload {
            file: WholeFile::new(opening),
            copying: Copying::new(source, progress),
        }
    }

    /// Uploads a source to this file: `STOR` (125, 150; RFC 959, section 4.1.3), the data, a text's lines ended by CR
    /// LF, and the last reply (226, 250). It returns the number of bytes that were written. The offset is used as by
    /// `retr_as_stream`.
    ///
    /// # Errors
    /// Those of a data command; the source's error and the data connection's, which leave the transfer;
    /// `SourceTooLarge` past 2^63 - 1 bytes, which does, too; those of the last reply.
    pub fn put_file<'r, R: AllocGlobal, S: AsyncRead>(
        &self,
        rt: &'r R,
        path: &str,
        source: S,
    ) -> Upload<'r, R, Tr, K, E, B, S> {
        self.upload(rt, BorrowedCall::PutWithStream(path), source, NoProgress)
    }

    /// Uploads a source to this file, as `put_file` does, and reports its progress. `&mut progress` may be passed, too.
    ///
    /// # Errors
    /// Those of `put_file`.
    pub fn put_file_with<'r, R: AllocGlobal, S: AsyncRead, P: Progress>(
        &self,
        rt: &'r R,
        path: &str,
        source: S,
        progress: P,
    ) -> Upload<'r, R, Tr, K, E, B, S, P> {
        self.upload(rt, BorrowedCall::PutWithStream(path), source, progress)
    }

    /// Uploads a source to the end of this file: `APPE` (125, 150; RFC 959, section 4.1.3), as `put_file` does.
    ///
    /// # Errors
    /// Those of `put_file`.
    pub fn append_file<'r, R: AllocGlobal, S: AsyncRead>(
        &self,
        rt: &'r R,
        path: &str,
        source: S,
    ) -> Upload<'r, R, Tr, K, E, B, S> {
        self.upload(rt, BorrowedCall::AppendWithStream(path), source, NoProgress)
    }

    /// Uploads a source to the end of this file, as `append_file` does, and reports how far it has come.
    ///
    /// # Errors
    /// Those of `put_file`.
    pub fn append_file_with<'r, R: AllocGlobal, S: AsyncRead, P: Progress>(
        &self,
        rt: &'r R,
        path: &str,
        source: S,
        progress: P,
    ) -> Upload<'r, R, Tr, K, E, B, S, P> {
        self.upload(rt, BorrowedCall::AppendWithStream(path), source, progress)
    }
}

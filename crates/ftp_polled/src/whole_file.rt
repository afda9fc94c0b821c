//! A whole file of the polled client: its transfer is opened, its data is moved, and its last reply is read, in one hold of
//! the lock.

ghost use Rattle.futures.specs.Poll.{OnPending};
ghost use Rattle.futures.specs.Task.{IsArmed, Keeps};

use crate::ending::Ending;
use crate::opening::Opening;
use ftp_base::encoding::Encoding;
use ftp_base::types::{ConnectionError, FtpError, FtpResult};
use ftp_transfer::Transfer;
use ftp_transport::{PassiveStreamBuilder, PollConn, PollTransport, TaskConn, TaskTransport};
use futures::task::{Context, Poll};
use std::mem;

/// How far the transfer of a file has come.
pub(crate) enum Progressing<'r, R, Tr: TaskTransport, K: Drop, E: Encoding, B: Drop>
where
    Tr::Conn: TaskConn,
{
    /// It is still to be opened, or it was left.
    Unopened,
    /// Its data is moved.
    Moving(Transfer<Tr::Conn>),
    /// Its last reply is waited for, or was returned.
    Ending(Ending<'r, R, Tr, K, E, B>),
}

impl<R, Tr: TaskTransport, K: Drop, E: Encoding, B: Drop> Drop for Progressing<'_, R, Tr, K, E, B>
where
    Tr::Conn: TaskConn,
{
    fn drop(self) {
        match self {
            Progressing::Unopened => {}
            Progressing::Moving(transfer) => drop(transfer),
            Progressing::Ending(ending) => drop(ending),
        }
    }
}

impl<R, Tr: TaskTransport, K: Drop, E: Encoding, B: Drop> Progressing<'_, R, Tr, K, E, B>
where
    Tr::Conn: TaskConn,
{
    /// The transfer, where its data is moved.
    fn into_transfer(self) -> Option<Transfer<Tr::Conn>> {
        match self {
            Progressing::Moving(transfer) => Some(transfer),
            Progressing::Unopened => None,
            Progressing::Ending(ending) => {
                drop(ending);
                None
            }
        }
    }
}

/// A whole file on its way.
pub(crate) struct WholeFile<'r, R, Tr: TaskTransport, K: Drop, E: Encoding, B: Drop>
where
    Tr::Conn: TaskConn,
{
    // Dropped first: the transfer has left its mark before the lock is let go.
    pub(crate) at: Progressing<'r, R, Tr, K, E, B>,
    pub(crate) opening: Opening<'r, R, Tr, K, E, B>,
}

impl<R, Tr: TaskTransport, K: Drop, E: Encoding, B: Drop> Drop for WholeFile<'_, R, Tr, K, E, B>
where
    Tr::Conn: TaskConn,
{
    fn drop(self) {
        let Self { at, opening } = self;
        drop(at);
        drop(opening);
    }
}

impl<'r, R, Tr: TaskTransport, K: Drop, E: Encoding, B: Drop> WholeFile<'r, R, Tr, K, E, B>
where
    Tr::Conn: TaskConn,
{
    /// A file whose transfer this opens.
    pub(crate) fn new(opening: Opening<'r, R, Tr, K, E, B>) -> WholeFile<'r, R, Tr, K, E, B> {
        WholeFile {
            at: Progressing::Unopened,
            opening,
        }
    }

    /// Whether the transfer is still to be opened, or was left.
    pub(crate) fn is_unopened(&self) -> bool {
        matches!(self.at, Progressing::Unopened)
    }
}

impl<'r, R: AllocGlobal, Tr: TaskTransport, K: Drop, E: Encoding, B: Drop> WholeFile<
    'r,
    R,
    Tr,
    K,
    E,
    B,
>
where
    Tr::Conn: TaskConn,
{
    /// The data was moved to its end: the end of the transfer begins.
    pub(crate) fn end(&mut self) {
        if let Some(transfer) = self.take() {
            let hold = self.opening.take_hold();
            let ending = Ending::of_file(self.opening.runtime(), hold, transfer);
            drop(mem::replace(&mut self.at, Progressing::Ending(ending)));
        }
    }

    /// The transfer is left, and the lock let go, after this error of a download.
    pub(crate) fn leave(&mut self, fault: &FtpError, data_failed: bool) {
        self.opening.note(fault, data_failed);
        drop(self.take());
        self.opening.let_go();
    }

    /// The transfer of an upload is left, and the lock let go; its data connection is handed back, closed.
    pub(crate) fn abandon(&mut self) {
        if let Some(transfer) = self.take() {
            self.opening.abandon(transfer);
        }
    }

    /// The transfer, where its data is moved; it is gone from here.
    fn take(&mut self) -> Option<Transfer<Tr::Conn>> {
        mem::replace(&mut self.at, Progressing::Unopened).into_transfer()
    }
}

impl<'r, R: AllocGlobal, Tr, K: Drop, E: Encoding, B> WholeFile<'r, R, Tr, K, E, B>
where
    Tr: PollTransport<R, ()> + TaskTransport,
    Tr::Conn: PollConn<()> + TaskConn,
    B: PassiveStreamBuilder<Tr::Conn>,
{
    /// Continues to open the transfer. An error lets the lock go.
    pub(crate) fn poll_opened(&mut self, cx: &mut Context<'_>) -> Poll<FtpResult<()>>
        ensures registered { OnPending result (IsArmed cx.new) }
        ensures kept { Keeps cx.old cx.new }
    {
        match self.opening.poll_opened(cx) {
            Poll::Ready(Ok((_reply, transfer))) => {
                drop(mem::replace(&mut self.at, Progressing::Moving(transfer)));
                Poll::Ready(Ok(()))
            }
            Poll::Ready(Err(fault)) => {
                self.opening.let_go();
                Poll::Ready(Err(fault))
            }
            Poll::Pending => Poll::Pending,
        }
    }

    /// Continues the end of the transfer. One that has returned its result, or was left, fails with `AlreadyCompleted`.
    pub(crate) fn poll_ended(&mut self, cx: &mut Context<'_>) -> Poll<FtpResult<()>>
        ensures registered { OnPending result (IsArmed cx.new) }
        ensures kept { Keeps cx.old cx.new }
    {
        match &mut self.at {
            Progressing::Ending(ending) => ending.poll_ended(cx),
            _ => Poll::Ready(Err(FtpError::ConnectionError(ConnectionError::AlreadyCompleted))),
        }
    }
}

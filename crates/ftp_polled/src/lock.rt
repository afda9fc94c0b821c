//! The lock of a client, lent to a caller.

ghost use Rattle.ftp_dialogue.specs.Sound.{SoundCounts};
ghost use Rattle.ftp_session.specs.Locked.{SendsLines};

use crate::client::ImplAsyncFtpStream;
use crate::hold::Hold;
use ftp_base::encoding::{Encoding, Utf8Encoding};
use ftp_base::types::{ConnectionError, FtpError, FtpResult};
use ftp_session::session::{Counts, Failure, NoStreamBuilder, NoTlsConnector, Session};
use ftp_transport::{TaskConn, TaskTransport};
use futures::Future;
use futures::task::{Context, Poll};
use std::alloc::AllocError;
use tokio::sync::OwnedMutexGuard;

/// A hold of a client's lock, which lends the control connection. Dropping it lets the lock go.
///
/// While it is kept every state of the client waits.
pub struct ControlSocket<
    Tr: TaskTransport,
    K: Drop = NoTlsConnector,
    E: Encoding = Utf8Encoding,
    B: Drop = NoStreamBuilder,
>
where
    Tr::Conn: TaskConn,
{
    session: OwnedMutexGuard<Box<Session<Tr, K, E, B>>>,
}

impl<Tr: TaskTransport, K: Drop, E: Encoding, B: Drop> Drop for ControlSocket<Tr, K, E, B>
where
    Tr::Conn: TaskConn,
{
    fn drop(self) {
        let Self { session } = self;
        drop(session);
    }
}

impl<Tr: TaskTransport, K: Drop, E: Encoding, B: Drop> ControlSocket<Tr, K, E, B>
where
    Tr::Conn: TaskConn,
{
    /// The control connection. Whenever the lock is held so, by any task, what was sent is whole command lines, but for the
    /// tail of the last one, which may still be unsent (RFC 959, section 5.3).
    pub fn socket(&self) -> &Tr::Conn
        ensures sound { Tr.Conn.tells → SendsLines (Tr.Conn.told result.now) }
    {
        let session: &Session<Tr, K, E, B> = &self.session;
        session.untaken();
        session.get_ref()
    }

    /// The transport.
    pub fn transport(&self) -> &Tr {
        self.session.transport()
    }

    /// How many transfers were opened, and how they came to their end (RFC 959, section 3.2). Whenever the lock is held
    /// so, by any task, each that was opened was finished, aborted or drained, or is the one that is owed.
    pub fn counts(&self) -> &Counts
        ensures sound { SoundCounts result.now }
    {
        self.session.counts()
    }

    /// How many received bytes no reply has consumed: those of a reply under way, and those that were read ahead.
    pub fn untaken(&self) -> usize {
        self.session.untaken()
    }

    /// The text that the server greeted with, once the greeting was accepted.
    pub fn get_welcome_msg(&self) -> Option<&str> {
        self.session.get_welcome_msg()
    }

    /// Whether the session has failed, as [`ImplAsyncFtpStream::failed`] returns it.
    pub fn failed(&self) -> bool {
        self.session.failed()
    }

    /// Where the last error of input or output was met, as [`ImplAsyncFtpStream::last_failure`] returns it.
    pub fn last_failure(&self) -> Option<Failure> {
        self.session.last_failure()
    }
}

/// The lock of a client is waited for.
///
/// # Errors
/// `OutOfMemory` where there is no memory to wait; `AlreadyCompleted` once it was returned.
pub struct Lock<Tr: TaskTransport, K: Drop, E: Encoding, B: Drop>
where
    Tr::Conn: TaskConn,
{
    hold: Hold<Box<Session<Tr, K, E, B>>>,
}

impl<Tr: TaskTransport, K: Drop, E: Encoding, B: Drop> Drop for Lock<Tr, K, E, B>
where
    Tr::Conn: TaskConn,
{
    fn drop(self) {
        let Self { hold } = self;
        drop(hold);
    }
}

impl<Tr: TaskTransport, K: Drop, E: Encoding, B: Drop> Future for Lock<Tr, K, E, B>
where
    Tr::Conn: TaskConn,
{
    type Output = FtpResult<ControlSocket<Tr, K, E, B>>;

    fn poll(&mut self, cx: &mut Context<'_>) -> Poll<FtpResult<ControlSocket<Tr, K, E, B>>> {
        match self.hold.poll_lock(cx) {
            Poll::Ready(Ok(())) => Poll::Ready(lend(self.hold.take())),
            Poll::Ready(Err(AllocError)) => Poll::Ready(Err(FtpError::OutOfMemory)),
            Poll::Pending => Poll::Pending,
        }
    }
}

/// The control connection under this hold.
fn lend<Tr: TaskTransport, K: Drop, E: Encoding, B: Drop>(
    hold: Hold<Box<Session<Tr, K, E, B>>>,
) -> FtpResult<ControlSocket<Tr, K, E, B>>
where
    Tr::Conn: TaskConn,
{
    match hold {
        Hold::Has(session) => Ok(ControlSocket { session }),
        _ => Err(FtpError::ConnectionError(ConnectionError::AlreadyCompleted)),
    }
}

/// The lock of a client is waited for, to ask whether its session has failed.
///
/// # Errors
/// Those of [`Lock`].
pub struct Failed<Tr: TaskTransport, K: Drop, E: Encoding, B: Drop>
where
    Tr::Conn: TaskConn,
{
    lock: Lock<Tr, K, E, B>,
}

impl<Tr: TaskTransport, K: Drop, E: Encoding, B: Drop> Drop for Failed<Tr, K, E, B>
where
    Tr::Conn: TaskConn,
{
    fn drop(self) {
        let Self { lock } = self;
        drop(lock);
    }
}

impl<Tr: TaskTransport, K: Drop, E: Encoding, B: Drop> Future for Failed<Tr, K, E, B>
where
    Tr::Conn: TaskConn,
{
    type Output = FtpResult<bool>;

    fn poll(&mut self, cx: &mut Context<'_>) -> Poll<FtpResult<bool>> {
        match self.lock.poll(cx) {
            Poll::Ready(Ok(socket)) => Poll::Ready(Ok(socket.failed())),
            Poll::Ready(Err(fault)) => Poll::Ready(Err(fault)),
            Poll::Pending => Poll::Pending,
        }
    }
}

/// The lock of a client is waited for, to ask where its last error of input or output was met.
///
/// # Errors
/// Those of [`Lock`].
pub struct LastFailure<Tr: TaskTransport, K: Drop, E: Encoding, B: Drop>
where
    Tr::Conn: TaskConn,
{
    lock: Lock<Tr, K, E, B>,
}

impl<Tr: TaskTransport, K: Drop, E: Encoding, B: Drop> Drop for LastFailure<Tr, K, E, B>
where
    Tr::Conn: TaskConn,
{
    fn drop(self) {
        let Self { lock } = self;
        drop(lock);
    }
}

impl<Tr: TaskTransport, K: Drop, E: Encoding, B: Drop> Future for LastFailure<Tr, K, E, B>
where
    Tr::Conn: TaskConn,
{
    type Output = FtpResult<Option<Failure>>;

    fn poll(&mut self, cx: &mut Context<'_>) -> Poll<FtpResult<Option<Failure>>> {
        match self.lock.poll(cx) {
            Poll::Ready(Ok(socket)) => Poll::Ready(Ok(socket.last_failure())),
            Poll::Ready(Err(fault)) => Poll::Ready(Err(fault)),
            Poll::Pending => Poll::Pending,
        }
    }
}

impl<Tr: TaskTransport, K: Drop, E: Encoding, B: Drop> ImplAsyncFtpStream<Tr, K, E, B>
where
    Tr::Conn: TaskConn,
{
    /// Where the last error of input or output was met, if there was one: after a call that returned `Io`, where that was.
    /// It stays until the next is met. What a caller reads or writes on a `TransferStream` isn't among them.
    pub fn last_failure(&self) -> LastFailure<Tr, K, E, B> {
        LastFailure {
            lock: self.get_ref(),
        }
    }

    /// Whether the session has failed: a read or a write of the control connection did, its input ended where a reply
    /// was due, a reply was too large, or memory ran out inside a dialogue. Each later command returns `SessionFailed`;
    /// connect anew.
    pub fn failed(&self) -> Failed<Tr, K, E, B> {
        Failed {
            lock: self.get_ref(),
        }
    }

    /// The control connection, once the lock is held.
    pub fn get_ref(&self) -> Lock<Tr, K, E, B> {
        Lock {
            hold: Hold::on(&self.session),
        }
    }
}

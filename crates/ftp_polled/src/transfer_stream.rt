//! The transfers of the polled client.
//!
//! A transfer needs no lock to be read, written, left or dropped, so it goes on while another task holds its client.
//! Only its end takes the lock, since that reads a reply.

ghost use Rattle.std.specs.Prelude.{◌≡◌, ⊤, Ok};
ghost use Rattle.futures.specs.Task.{IsArmed, Keeps};
ghost use Rattle.futures.specs.declared.task.Poll.TheVariants as poll;

use crate::client::Shared;
use crate::ending::{Abort, Ending, Finish};
use crate::hold::Hold;
use ftp_base::encoding::{Encoding, Utf8Encoding};
use ftp_session::session::{NoStreamBuilder, NoTlsConnector};
use ftp_transfer::mark::Left;
use ftp_transfer::{Direction, Transfer};
use ftp_transport::{PollConn, TaskConn, TaskTransport};
use futures::task::{Context, Poll};
use std::io;
use std::io::ErrorKind;
use tokio::io::{AsyncRead, AsyncWrite};

/// A transfer of a polled client, and the client's session. Dropped, it is left: its data connection is closed, and the
/// client's next command reads its last reply first.
pub struct TransferStream<
    Tr: TaskTransport,
    K: Drop = NoTlsConnector,
    E: Encoding = Utf8Encoding,
    B: Drop = NoStreamBuilder,
>
where
    Tr::Conn: TaskConn,
{
    transfer: Transfer<Tr::Conn>,
    session: Shared<Tr, K, E, B>,
}

impl<Tr: TaskTransport, K: Drop, E: Encoding, B: Drop> Drop for TransferStream<Tr, K, E, B>
where
    Tr::Conn: TaskConn,
{
    fn drop(self) {
        let Self { transfer, session } = self;
        drop(transfer);
        drop(session);
    }
}

impl<Tr: TaskTransport, K: Drop, E: Encoding, B: Drop> TransferStream<Tr, K, E, B>
where
    Tr::Conn: TaskConn,
{
    pub(crate) fn new(transfer: Transfer<Tr::Conn>, session: Shared<Tr, K, E, B>) -> Self {
        TransferStream { transfer, session }
    }

    /// The data connection.
    pub fn get_ref(&self) -> &Tr::Conn {
        self.transfer.get_ref()
    }

    /// The data connection, to be changed.
    pub fn get_mut(&mut self) -> &mut Tr::Conn {
        self.transfer.get_mut()
    }

    /// The number of the transfer, by which its session knows it.
    pub fn number(&self) -> u64 {
        self.transfer.number()
    }

    /// Whether it is a download or an upload.
    pub fn direction(&self) -> Direction {
        self.transfer.direction()
    }

    /// Leaves the transfer: its data connection is closed. The receipt settles it.
    pub fn leave(self) -> Left {
        let TransferStream { transfer, session } = self;
        drop(session);
        transfer.leave()
    }

    /// Brings the transfer to its end: its data connection is closed, and its last reply is read (226, 250; RFC 959,
    /// section 3.2). Dropped before it has its answer, it leaves the transfer.
    ///
    /// # Errors
    /// Those of a read of one reply; before them, of an upload, the error of the close. `NotOwed` where the session
    /// owes no transfer of this number.
    pub fn finish<R>(self, rt: &R) -> Finish<'_, R, Tr, K, E, B> {
        let TransferStream { transfer, session } = self;
        Finish::new(Ending::new(rt, Hold::of(session), transfer, false))
    }

    /// Aborts the transfer: `ABOR` goes out, its data connection is closed, and what the server replies is read (226,
    /// or 426 and then 226; RFC 959, section 4.1.3). Dropped before `ABOR` has gone out whole, it leaves the transfer.
    ///
    /// # Errors
    /// Those of a command that goes out: where it can't, the transfer is left. Those of a read of one reply; `NotOwed` where
    /// the session owes no transfer of this number.
    pub fn abort<R>(self, rt: &R) -> Abort<'_, R, Tr, K, E, B> {
        let TransferStream { transfer, session } = self;
        Abort::new(Ending::new(rt, Hold::of(session), transfer, true))
    }
}

impl<Tr: TaskTransport, K: Drop, E: Encoding, B: Drop> TransferStream<Tr, K, E, B>
where
    Tr::Conn: PollConn<()> + TaskConn,
{
    /// Reads bytes into the front of the buffer. 0 bytes are the end of the data.
    ///
    /// # Errors
    /// The error of the data connection.
    pub fn poll_read(
        &mut self,
        cx: &mut Context<'_>,
        buffer: &mut [u8],
    ) -> Result<Poll<usize>, ErrorKind>
        ensures registered { result ≡ Ok poll.Pending → IsArmed cx.new }
        ensures kept { Keeps cx.old cx.new }
    {
        self.transfer.poll_read_in(cx, buffer)
    }

    /// Writes bytes from the front, at least one, where there are any.
    ///
    /// # Errors
    /// The error of the data connection.
    pub fn poll_write(
        &mut self,
        cx: &mut Context<'_>,
        bytes: &[u8],
    ) -> Result<Poll<usize>, ErrorKind>
        ensures registered { result ≡ Ok poll.Pending → IsArmed cx.new }
        ensures kept { Keeps cx.old cx.new }
    {
        self.transfer.poll_write_in(cx, bytes)
    }
}

// So that what reads from `tokio`'s readers reads from a transfer, as `get_lines_from_stream` does. What a connection
// returns is in no clause.
impl<Tr: TaskTransport, K: Drop, E: Encoding, B: Drop> AsyncRead for TransferStream<Tr, K, E, B>
where
    Tr::Conn: PollConn<()> + TaskConn,
{
    ghost reads = { λ _ _ _. ⊤ };

    ghost is_at_end = { λ _. ⊤ };

    ghost reads_nothing = { λ _. tt };

    ghost reads_in_order = { λ _ _ _ _ _ _ _. tt };

    fn poll_read(&mut self, cx: &mut Context<'_>, buf: &mut [u8]) -> Poll<io::Result<usize>> {
        match self.transfer.poll_read_in(cx, buf) {
            Ok(Poll::Ready(count)) => Poll::Ready(Ok(count)),
            Ok(Poll::Pending) => Poll::Pending,
            Err(kind) => Poll::Ready(Err(kind.into())),
        }
    }
}

// So that what writes to `tokio`'s writers writes to a transfer. What a connection accepts is in no clause.
impl<Tr: TaskTransport, K: Drop, E: Encoding, B: Drop> AsyncWrite for TransferStream<Tr, K, E, B>
where
    Tr::Conn: PollConn<()> + TaskConn,
{
    ghost writes = { λ _ _ _. ⊤ };

    ghost writes_nothing = { λ _. tt };

    ghost writes_in_order = { λ _ _ _ _ _ _ _. tt };

    fn poll_write(&mut self, cx: &mut Context<'_>, buf: &[u8]) -> Poll<io::Result<usize>> {
        match self.transfer.poll_write_in(cx, buf) {
            Ok(Poll::Ready(count)) => Poll::Ready(Ok(count)),
            Ok(Poll::Pending) => Poll::Pending,
            Err(kind) => Poll::Ready(Err(kind.into())),
        }
    }

    /// Does nothing: a transfer holds nothing back.
    fn poll_flush(&mut self, _cx: &mut Context<'_>) -> Poll<io::Result<()>> {
        Poll::Ready(Ok(()))
    }

    /// Does nothing: `finish` closes the data connection, and reads the transfer's last reply.
    fn poll_shutdown(&mut self, _cx: &mut Context<'_>) -> Poll<io::Result<()>> {
        Poll::Ready(Ok(()))
    }
}

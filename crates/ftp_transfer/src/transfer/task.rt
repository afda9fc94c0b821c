//! Reads and writes in a task of an event loop.

ghost use Rattle.std.specs.Prelude.{◌≡◌, ◌<◌, Ok, length};
ghost use Rattle.futures.specs.Task.{IsArmed, Keeps};
ghost use Rattle.futures.specs.declared.task.Poll.TheVariants as poll;
ghost use Rattle.ftp_transport.specs.Told.{ReadTells, ReadsAtMost, WriteTells, WritesSome};

use super::Transfer;
use ftp_transport::{PollConn, TaskConn, Tells};
use futures::task::{Context, Poll};
use std::io::ErrorKind;

impl<C: Tells + Drop> Transfer<C> {
    ghost use Rattle.ftp_transfer.specs.Transfer.{with_told};

    /// Reads bytes into the front of the buffer. 0 bytes are the end of the data. A read that waits has registered the
    /// task, or asks to be polled again at once.
    ///
    /// # Errors
    /// The error of the connection.
    pub fn poll_read_in(
        &mut self,
        cx: &mut Context<'_>,
        buffer: &mut [u8],
    ) -> Result<Poll<usize>, ErrorKind>
    where
        C: PollConn<()> + TaskConn,
        ensures told { C.Tells.tells → 0 < length buffer.old →
            ReadTells result buffer.new self.old.told self.new.told }
        ensures bound { ReadsAtMost result (length buffer.old) }
        ensures empty { length buffer.old ≡ 0 → result ≡ Ok (poll.Ready 0) }
        ensures kept { self.new ≡ with_told self.new.told self.old }
        ensures registered { result ≡ Ok poll.Pending → IsArmed cx.new }
        ensures task { Keeps cx.old cx.new }
    {
        match self.poll_read(&mut (), buffer) {
            Ok(Poll::Ready(count)) => Ok(Poll::Ready(count)),
            Ok(Poll::Pending) => Ok(self.conn.poll_ready(cx).wait(cx)),
            Err(kind) => Err(kind),
        }
    }

    /// Writes bytes from the front, at least one, where there are any. A write that waits has registered the task, or asks
    /// to be polled again at once.
    ///
    /// # Errors
    /// The error of the connection.
    pub fn poll_write_in(
        &mut self,
        cx: &mut Context<'_>,
        bytes: &[u8],
    ) -> Result<Poll<usize>, ErrorKind>
    where
        C: PollConn<()> + TaskConn,
        ensures told { C.Tells.tells → 0 < length bytes.now →
            WriteTells result bytes.now self.old.told self.new.told }
        ensures bound { 0 < length bytes.now → WritesSome result (length bytes.now) }
        ensures empty { length bytes.now ≡ 0 → result ≡ Ok (poll.Ready 0) }
        ensures kept { self.new ≡ with_told self.new.told self.old }
        ensures registered { result ≡ Ok poll.Pending → IsArmed cx.new }
        ensures task { Keeps cx.old cx.new }
    {
        match self.poll_write(&mut (), bytes) {
            Ok(Poll::Ready(count)) => Ok(Poll::Ready(count)),
            Ok(Poll::Pending) => Ok(self.conn.poll_ready(cx).wait(cx)),
            Err(kind) => Err(kind),
        }
    }
}

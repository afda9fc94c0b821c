//! Reads and writes that may have to wait, and say so through a `W`.

ghost use Rattle.std.specs.Prelude.{◌≡◌, ◌<◌, IfErr, Ok, length, true};
ghost use Rattle.futures.specs.declared.task.Poll.TheVariants as poll;
ghost use Rattle.ftp_transport.specs.Memory.{IsGiven};
ghost use Rattle.ftp_transport.specs.Told.{ReadTells, ReadsAtMost, WriteTells, WritesSome};

use super::Transfer;
use ftp_transport::{PollConn, Tells};
use futures::task::Poll;
use std::io::ErrorKind;

impl<C: Tells + Drop> Transfer<C> {
    ghost use Rattle.ftp_transfer.specs.Transfer.{with_told};

    /// Reads bytes into the front of the buffer, as [`Transfer::read`] does, or returns that the connection waits.
    ///
    /// # Errors
    /// An error of the connection.
    pub fn poll_read<W>(&mut self, w: &mut W, buffer: &mut [u8]) -> Result<Poll<usize>, ErrorKind>
    where
        C: PollConn<W>,
        ensures told { C.Tells.tells → 0 < length buffer.old →
            ReadTells result buffer.new self.old.told self.new.told }
        ensures bound { ReadsAtMost result (length buffer.old) }
        ensures waits { result ≡ Ok poll.Pending → C.may_wait }
        ensures fault { IfErr result (λ kind. C.read_faults kind) }
        ensures given { C.Tells.tells → IsGiven self.old.told → IsGiven self.new.told }
        ensures end { C.Tells.tells → C.may_wait → 0 < length buffer.old → result ≡ Ok (poll.Ready
            0) →
            self.old.told.given.closed ≡ true }
        ensures empty { length buffer.old ≡ 0 → result ≡ Ok (poll.Ready 0) }
        ensures unasked { length buffer.old ≡ 0 → self.new ≡ self.old }
        ensures kept { self.new ≡ with_told self.new.told self.old }
    {
        if buffer.is_empty() {
            return Ok(Poll::Ready(0));
        }
        self.conn.poll_read(w, buffer)
    }

    /// Writes bytes from the front, as [`Transfer::write`] does, or returns that the connection waits.
    ///
    /// # Errors
    /// An error of the connection.
    pub fn poll_write<W>(&mut self, w: &mut W, bytes: &[u8]) -> Result<Poll<usize>, ErrorKind>
    where
        C: PollConn<W>,
        ensures told { C.Tells.tells → 0 < length bytes.now →
            WriteTells result bytes.now self.old.told self.new.told }
        ensures bound { 0 < length bytes.now → WritesSome result (length bytes.now) }
        ensures waits { result ≡ Ok poll.Pending → C.may_wait }
        ensures fault { C.Tells.tells →
            IfErr result (λ kind. C.write_faults self.old.told kind) }
        ensures empty { length bytes.now ≡ 0 → result ≡ Ok (poll.Ready 0) }
        ensures unasked { length bytes.now ≡ 0 → self.new ≡ self.old }
        ensures kept { self.new ≡ with_told self.new.told self.old }
    {
        if bytes.is_empty() {
            return Ok(Poll::Ready(0));
        }
        self.conn.poll_write(w, bytes)
    }
}

//! What a connection does, and what it records of it.
//!
//! A record is a ghost: no program can look at it, and it costs nothing. It says what was received and sent, how often
//! and with which error the connection failed, and what is at hand. A theorem about a client holds for each connection
//! whose record is true (`tells`).

ghost use Rattle.std.specs.Prelude.{◌≡◌, ◌<◌, IfErr, Ok, Result, length, true};
ghost use Rattle.std.specs.declared.io.ErrorKind.{ErrorKind as Kind};
ghost use Rattle.futures.specs.declared.task.Poll.TheVariants as poll;
ghost use Rattle.ftp_base.specs.declared.types.fault.FtpError.{FtpError as Failure};
ghost use Rattle.ftp_transport.specs.Memory.{IsGiven};
ghost use Rattle.ftp_transport.specs.Told.{Told, AddressTells, CloseTells, ReadTells, WriteTells, ReadsAtMost, WritesSome, as_poll, begun};

use futures::task::Poll;
use std::io::ErrorKind;
use std::net::SocketAddr;

/// What a connection records of its traffic, and what never waits, however it is called.
pub trait Tells {
    /// Whether the record is true: so it is for a connection over memory; for a socket it isn't proved.
    ghost tells: { Type 0 };

    /// What went over it since its channel began.
    ghost told: { Self → Told };

    /// A channel begins on the connection: from now on the record is of this channel alone. What came and wasn't
    /// read is still to come, and what room was left is left.
    fn begin(&mut self)
        ensures { tells → told self.new ≡ begun (told self.old) };

    /// Which errors the three calls below may return.
    ghost end_faults: { Kind → Type 0 };

    /// What putting a connection of this type under TLS may result in: one of this record, or an error. Of a type that
    /// is never under it, anything.
    ghost secures: { Result Told Failure → Type 0 } = { λ _. Unit {0} };

    /// The address of this end.
    ///
    /// # Errors
    /// Where the system can't tell it: over memory never.
    fn local_addr(&mut self) -> Result<SocketAddr, ErrorKind>
        ensures fault { IfErr result (λ kind. end_faults kind) }
        ensures told { tells → AddressTells (told self.old).given.local result (told self.old)
            (told self.new) };

    /// The address of the other end.
    ///
    /// # Errors
    /// Where the system can't tell it: over memory never.
    fn peer_addr(&mut self) -> Result<SocketAddr, ErrorKind>
        ensures fault { IfErr result (λ kind. end_faults kind) }
        ensures told { tells → AddressTells (told self.old).given.peer result (told self.old)
            (told self.new) };

    /// Closes both directions.
    ///
    /// # Errors
    /// Where the system can't close it: over memory never.
    fn close(&mut self) -> Result<(), ErrorKind>
        ensures fault { IfErr result (λ kind. end_faults kind) }
        ensures told { tells → CloseTells result (told self.old) (told self.new) };
}

/// A connection that may have to wait, and says so through a `W`: an event loop's context, or nothing.
pub trait PollConn<W>: Tells {
    /// Whether a call may have to wait.
    ghost may_wait: { Type 0 };

    /// Which errors a read may return.
    ghost read_faults: { Kind → Type 0 };

    /// Which errors a write may return, by what the connection has recorded.
    ghost write_faults: { Told → Kind → Type 0 };

    /// Reads bytes into the front of the buffer. 0 bytes are the end of the input.
    fn poll_read(&mut self, w: &mut W, buffer: &mut [u8]) -> Result<Poll<usize>, ErrorKind>
        requires { 0 < length buffer.old }
        ensures bound { ReadsAtMost result (length buffer.old) }
        ensures waits { result ≡ Ok poll.Pending → may_wait }
        ensures fault { IfErr result (λ kind. read_faults kind) }
        ensures given { Self.tells → IsGiven (Self.told self.old) → IsGiven (Self.told self.new) }
        ensures told { Self.tells → ReadTells result buffer.new (Self.told self.old)
            (Self.told self.new) }
        ensures end { Self.tells → may_wait → result ≡ Ok (poll.Ready 0) →
            (Self.told self.old).given.closed ≡ true };

    /// Writes bytes from the front, at least one.
    fn poll_write(&mut self, w: &mut W, bytes: &[u8]) -> Result<Poll<usize>, ErrorKind>
        requires { 0 < length bytes.now }
        ensures bound { WritesSome result (length bytes.now) }
        ensures waits { result ≡ Ok poll.Pending → may_wait }
        ensures fault { Self.tells → IfErr result (λ kind. write_faults (Self.told self.old) kind) }
        ensures told { Self.tells → WriteTells result bytes.now (Self.told self.old)
            (Self.told self.new) };
}

/// A connection whose calls return only when they are done.
pub trait Conn: Tells {
    /// Which errors a read may return.
    ghost blocking_read_faults: { Kind → Type 0 };

    /// Which errors a write may return, by what the connection has recorded.
    ghost blocking_write_faults: { Told → Kind → Type 0 };

    /// Reads bytes into the front of the buffer. 0 bytes are the end of the input.
    fn read(&mut self, buffer: &mut [u8]) -> Result<usize, ErrorKind>
        requires { 0 < length buffer.old }
        ensures bound { ReadsAtMost (as_poll result) (length buffer.old) }
        ensures fault { IfErr result (λ kind. blocking_read_faults kind) }
        ensures given { Self.tells → IsGiven (Self.told self.old) → IsGiven (Self.told self.new) }
        ensures told { Self.tells → ReadTells (as_poll result) buffer.new (Self.told self.old)
            (Self.told self.new) };

    /// Writes bytes from the front, at least one.
    fn write(&mut self, bytes: &[u8]) -> Result<usize, ErrorKind>
        requires { 0 < length bytes.now }
        ensures bound { WritesSome (as_poll result) (length bytes.now) }
        ensures fault { Self.tells →
            IfErr result (λ kind. blocking_write_faults (Self.told self.old) kind) }
        ensures told { Self.tells → WriteTells (as_poll result) bytes.now (Self.told self.old)
            (Self.told self.new) };
}

/// The `W` of calls that never wait: a poll under it is a call that blocks.
#[derive(Clone, Copy, Debug)]
pub struct NeverWaits;

impl<C: Conn> PollConn<NeverWaits> for C {
    ghost may_wait = { ⊥ };

    ghost read_faults = { λ kind. C.blocking_read_faults kind };

    ghost write_faults = { λ told kind. C.blocking_write_faults told kind };

    fn poll_read(
        &mut self,
        _w: &mut NeverWaits,
        buffer: &mut [u8],
    ) -> Result<Poll<usize>, ErrorKind> {
        match self.read(buffer) {
            Ok(count) => Ok(Poll::Ready(count)),
            Err(kind) => Err(kind),
        }
    }

    fn poll_write(&mut self, _w: &mut NeverWaits, bytes: &[u8]) -> Result<Poll<usize>, ErrorKind> {
        match self.write(bytes) {
            Ok(count) => Ok(Poll::Ready(count)),
            Err(kind) => Err(kind),
        }
    }
}

//! A connection over a socket of tokio.
//!
//! Reads and writes try the socket and leave no waker. Whether the last read and the last write wait is kept, so that
//! the task can be registered afterwards for just that: `Remembers` in their contracts. After so many reads in a row that
//! didn't wait one does, whatever the socket has, and so for writes: other tasks run before a long transfer goes on. What a
//! socket carries is not covered by any proof: its record is never true.
//!
//! Where a limit is set, a read or write that has waited longer fails with `TimedOut` at the next poll at which the socket
//! still has nothing for it. A wait ends when bytes come or go, not when its future is dropped; a read's begins anew with
//! each write, too, since what answers that can't have come before.

ghost use Rattle.std.specs.Prelude.{◌≡◌, ◌≢◌, ℕ, Err, IsSome, None, Ok, Some, false, length, true, ◌+◌, min};
ghost use Rattle.std.specs.Option.{option_copied};
ghost use Rattle.std.specs.declared.io.ErrorKind.TheVariants.{NotConnected, TimedOut, WouldBlock};
ghost use Rattle.futures.specs.Task.{Covers, Keeps};
ghost use Rattle.futures.specs.declared.task.Poll.TheVariants.{Pending};
ghost use Rattle.ftp_transport.specs.Memory.{fresh_memory};
ghost use Rattle.ftp_transport.specs.Told.{ReadsAtMost, WritesSome};
ghost use Rattle.ftp_transport.specs.declared.waiting.Waiting.TheVariants as waits;
ghost use Rattle.ftp_tokio.specs.Needs.{ConnNeeds, FailsAsMet, IsOverOn, IsRung, ReadNeeds, Remembers, TakesTurns, WriteNeeds};
ghost use Rattle.ftp_tokio.specs.Outcomes.{conn_over, limit_of, no_watch};

use crate::watch::Watch;
use ftp_base::retry::{read_retrying, write_retrying};
use ftp_transport::{PollConn, TaskConn, Tells, Waiting};
use futures::task::{Context, Poll};
use std::io::ErrorKind;
use std::net::SocketAddr;
use tokio::net::TcpStream;

/// How many reads, or writes, go on in a row before one waits.
const IN_A_ROW: u8 = 32;

/// A connection over a socket of tokio.
///
/// tokio's sockets have no shutdown of both directions outside of a task, so a close drops the socket. From then on
/// reads, writes and questions for addresses fail with `NotConnected`.
pub struct TokioConn {
    stream: Option<TcpStream>,
    // Whether the last read waits, and whether the last write does.
    read_waits: bool,
    write_waits: bool,
    // How many reads in a row haven't waited, and how many writes.
    reads: u8,
    writes: u8,
    // The error that a wait of a read took from the socket, which tells it once. The next read fails with it.
    read_error: Option<ErrorKind>,
    // How long a read may wait, and how long a write may.
    read_watch: Watch,
    write_watch: Watch,
}

impl Drop for TokioConn {
    fn drop(self) {
        let Self {
            stream,
            read_waits: _,
            write_waits: _,
            reads: _,
            writes: _,
            read_error: _,
            read_watch,
            write_watch,
        } = self;
        drop(stream);
        drop(read_watch);
        drop(write_watch);
    }
}

impl TokioConn {
    /// A connection over a socket that is connected. Its reads and writes may wait for ever.
    pub fn new(stream: TcpStream) -> TokioConn
        ensures { result ≡ conn_over stream }
    {
        TokioConn::watched(stream, Watch::none(), Watch::none())
    }

    /// A connection over a socket that is connected, with the limits of its reads and of its writes.
    pub(crate) fn watched(stream: TcpStream, read_watch: Watch, write_watch: Watch) -> TokioConn
        ensures { result ≡ record (conn_over stream)
            { read_watch = read_watch; write_watch = write_watch } }
    {
        TokioConn {
            stream: Some(stream),
            read_waits: false,
            write_waits: false,
            reads: 0,
            writes: 0,
            read_error: None,
            read_watch,
            write_watch,
        }
    }

    /// The socket; none once the connection was closed here.
    pub fn get_ref(&self) -> Option<&TcpStream>
        ensures { option_copied result ≡ self.now.stream }
    {
        self.stream.as_ref()
    }

    /// Reads what is there, or fails with the error that a wait has met. An interrupted read is tried again, at most 64 times.
    fn try_read(&mut self, buffer: &mut [u8]) -> Result<Poll<usize>, ErrorKind>
        ensures bound { ReadsAtMost result (length buffer.old) }
        ensures closed { self.old.stream ≡ None → result ≡ Err NotConnected }
        ensures met { FailsAsMet self.old result }
        ensures other { self.new.write_waits ≡ self.old.write_waits }
        ensures turn { self.old.reads ≡ 32 → TakesTurns result 32 0 }
        ensures reads { self.new.reads ≡ self.old.reads }
    {
        let Some(stream) = &mut self.stream else {
            return Err(ErrorKind::NotConnected);
        };
        if let Some(kind) = self.read_error.take() {
            return Err(kind);
        }
        if self.reads == IN_A_ROW {
            return Ok(Poll::Pending);
        }
        match read_retrying(stream, buffer) {
            Ok(count) => Ok(Poll::Ready(count)),
            Err(error) => waits_or_fails(error.kind(), self.read_watch.is_late()),
        }
    }

    /// Writes what there is room for. An interrupted write is tried again, at most 64 times.
    fn try_write(&mut self, bytes: &[u8]) -> Result<Poll<usize>, ErrorKind>
        ensures bound { WritesSome result (length bytes.now) }
        ensures closed { self.old.stream ≡ None → result ≡ Err NotConnected }
        ensures other { self.new.read_waits ≡ self.old.read_waits }
        ensures met { self.new.read_error ≡ self.old.read_error }
        ensures turn { self.old.writes ≡ 32 → TakesTurns result 32 0 }
        ensures writes { self.new.writes ≡ self.old.writes }
    {
        let Some(stream) = &mut self.stream else {
            return Err(ErrorKind::NotConnected);
        };
        if self.writes == IN_A_ROW {
            return Ok(Poll::Pending);
        }
        match write_retrying(stream, bytes) {
            Ok(0) => Err(ErrorKind::WriteZero),
            Ok(count) => Ok(Poll::Ready(count)),
            Err(error) => waits_or_fails(error.kind(), self.write_watch.is_late()),
        }
    }

    /// Registers the task for the bytes that the last read waits for, where it does.
    fn poll_reads(&mut self, cx: &mut Context<'_>) -> Waiting
        ensures registered { result ≡ waits.Registered →
            Covers cx.new (ReadNeeds self.new.stream self.new.read_waits) }
        ensures rings { result ≡ waits.Registered → IsSome (limit_of self.old.read_watch) →
            IsRung cx.new self.new.read_watch }
        ensures nothing { result ≡ waits.Nothing →
            (source : ℕ) → ReadNeeds self.new.stream self.new.read_waits source → ⊥ }
        ensures over { result ≡ waits.Over →
            (self.old.read_waits ≡ true) × (self.new.read_waits ≡ false) }
        ensures met { IsSome self.old.read_error → IsSome self.new.read_error }
        ensures stream { self.new.stream ≡ self.old.stream }
        ensures other { self.new.write_waits ≡ self.old.write_waits }
        ensures kept { Keeps cx.old cx.new }
    {
        if !self.read_waits {
            return Waiting::Nothing;
        }
        let Some(stream) = &mut self.stream else {
            return Waiting::Nothing;
        };
        let readable = poll_readable(stream, cx);
        if readable.is_pending() && !self.read_watch.has_passed(cx) {
            return Waiting::Registered;
        }
        if let Poll::Ready(Err(kind)) = readable {
            self.read_error = Some(kind);
        }
        self.read_waits = false;
        Waiting::Over
    }

    /// Registers the task for the room that the last write waits for, where it does.
    fn poll_writes(&mut self, cx: &mut Context<'_>) -> Waiting
        ensures registered { result ≡ waits.Registered →
            Covers cx.new (WriteNeeds self.new.stream self.new.write_waits) }
        ensures rings { result ≡ waits.Registered → IsSome (limit_of self.old.write_watch) →
            IsRung cx.new self.new.write_watch }
        ensures nothing { result ≡ waits.Nothing →
            (source : ℕ) → WriteNeeds self.new.stream self.new.write_waits source → ⊥ }
        ensures over { result ≡ waits.Over →
            (self.old.write_waits ≡ true) × (self.new.write_waits ≡ false) }
        ensures met { self.new.read_error ≡ self.old.read_error }
        ensures stream { self.new.stream ≡ self.old.stream }
        ensures other { self.new.read_waits ≡ self.old.read_waits }
        ensures kept { Keeps cx.old cx.new }
    {
        if !self.write_waits {
            return Waiting::Nothing;
        }
        let Some(stream) = &mut self.stream else {
            return Waiting::Nothing;
        };
        let waits = stream.poll_write_ready(cx).is_pending();
        if waits && !self.write_watch.has_passed(cx) {
            return Waiting::Registered;
        }
        self.write_waits = false;
        Waiting::Over
    }
}

/// Waits until there is something to be read, or fails with the error that the socket tells.
///
/// The socket may be shown as ready by an event whose bytes were read before. A read of no bytes tells, and costs less than
/// to poll the call once more.
fn poll_readable(stream: &mut TcpStream, cx: &mut Context<'_>) -> Poll<Result<(), ErrorKind>>
    ensures registered { result ≡ Pending → Covers cx.new (ReadNeeds (Some stream.new) true) }
    ensures same { stream.new ≡ stream.old }
    ensures kept { Keeps cx.old cx.new }
{
    if stream.poll_read_ready(cx).is_pending() {
        return Poll::Pending;
    }
    let kind = match stream.try_read(&mut []) {
        Ok(_) => return Poll::Ready(Ok(())),
        Err(error) => error.kind(),
    };
    match kind {
        ErrorKind::WouldBlock if stream.poll_read_ready(cx).is_pending() => Poll::Pending,
        ErrorKind::WouldBlock | ErrorKind::Interrupted => Poll::Ready(Ok(())),
        other => Poll::Ready(Err(other)),
    }
}

/// How many calls in a row haven't waited, after one more.
fn in_a_row(calls: u8, waits: bool) -> u8
    ensures waited { waits ≡ true → result ≡ 0 }
    ensures more { waits ≡ false → result ≡ min (calls + 1) 255 }
{
    if waits { 0 } else { calls.saturating_add(1) }
}

/// What a call of a socket that doesn't block results in where it fails: that it waits, or an error; also where it has
/// waited for too long.
fn waits_or_fails(kind: ErrorKind, late: bool) -> Result<Poll<usize>, ErrorKind>
    ensures blocks { kind ≡ WouldBlock → late ≡ false → result ≡ Ok Poll.Pending }
    ensures late { kind ≡ WouldBlock → late ≡ true → result ≡ Err TimedOut }
    ensures fails { kind ≢ WouldBlock → result ≡ Err kind }
{
    match kind {
        ErrorKind::WouldBlock if late => Err(ErrorKind::TimedOut),
        ErrorKind::WouldBlock => Ok(Poll::Pending),
        other => Err(other),
    }
}

impl Tells for TokioConn {
    ghost tells = { ⊥ };

    ghost told = { λ _. fresh_memory };

    fn begin(&mut self) {}

    ghost end_faults = { λ _. Unit {0} };

    fn local_addr(&mut self) -> Result<SocketAddr, ErrorKind> {
        let Some(stream) = &self.stream else {
            return Err(ErrorKind::NotConnected);
        };
        match stream.local_addr() {
            Ok(address) => Ok(address),
            Err(error) => Err(error.kind()),
        }
    }

    fn peer_addr(&mut self) -> Result<SocketAddr, ErrorKind> {
        let Some(stream) = &self.stream else {
            return Err(ErrorKind::NotConnected);
        };
        match stream.peer_addr() {
            Ok(address) => Ok(address),
            Err(error) => Err(error.kind()),
        }
    }

    /// Drops the socket, and nothing is waited for any more. It never fails.
    fn close(&mut self) -> Result<(), ErrorKind>
        ensures ok { result ≡ Ok tt }
        ensures dropped { self.new ≡
            record {
              stream = None;
              read_waits = false;
              write_waits = false;
              reads = 0;
              writes = 0;
              read_error = None;
              read_watch = no_watch;
              write_watch = no_watch;
            } }
    {
        self.stream = None;
        self.read_waits = false;
        self.write_waits = false;
        self.reads = 0;
        self.writes = 0;
        self.read_error = None;
        self.read_watch = Watch::none();
        self.write_watch = Watch::none();
        Ok(())
    }
}

impl PollConn<()> for TokioConn {
    ghost may_wait = { Unit {0} };

    ghost read_faults = { λ _. Unit {0} };

    ghost write_faults = { λ _ _. Unit {0} };

    fn poll_read(&mut self, _w: &mut (), buffer: &mut [u8]) -> Result<Poll<usize>, ErrorKind>
        ensures bound { ReadsAtMost result (length buffer.old) }
        ensures remembered { Remembers result self.new.read_waits }
        ensures turns { TakesTurns result self.old.reads self.new.reads }
        ensures closed { self.old.stream ≡ None → result ≡ Err NotConnected }
        ensures met { FailsAsMet self.old result }
        ensures other { self.new.write_waits ≡ self.old.write_waits }
    {
        let read = self.try_read(buffer);
        self.read_waits = matches!(read, Ok(Poll::Pending));
        self.reads = in_a_row(self.reads, self.read_waits);
        if !self.read_waits {
            self.read_watch.end();
        }
        read
    }

    fn poll_write(&mut self, _w: &mut (), bytes: &[u8]) -> Result<Poll<usize>, ErrorKind>
        ensures bound { WritesSome result (length bytes.now) }
        ensures remembered { Remembers result self.new.write_waits }
        ensures turns { TakesTurns result self.old.writes self.new.writes }
        ensures closed { self.old.stream ≡ None → result ≡ Err NotConnected }
        ensures met { self.new.read_error ≡ self.old.read_error }
        ensures other { self.new.read_waits ≡ self.old.read_waits }
    {
        let written = self.try_write(bytes);
        self.write_waits = matches!(written, Ok(Poll::Pending));
        self.writes = in_a_row(self.writes, self.write_waits);
        if !self.write_waits {
            self.write_watch.end();
            self.read_watch.end();
        }
        written
    }
}

impl TaskConn for TokioConn {
    ghost needs = { λ conn source. ConnNeeds conn source };

    fn poll_ready(&mut self, cx: &mut Context<'_>) -> Waiting
        ensures registered { result ≡ waits.Registered → Covers cx.new (ConnNeeds self.new) }
        ensures nothing { result ≡ waits.Nothing → (source : ℕ) → ConnNeeds self.new source → ⊥ }
        ensures over { result ≡ waits.Over → IsOverOn self.old self.new }
        ensures met { IsSome self.old.read_error → IsSome self.new.read_error }
        ensures kept { Keeps cx.old cx.new }
    {
        let reads = self.poll_reads(cx);
        let writes = self.poll_writes(cx);
        reads.or(writes)
    }
}

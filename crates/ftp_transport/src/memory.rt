//! Connections over memory, which record all traffic.
//!
//! A test, or a program that replays a dialogue, feeds the server's bytes and looks at what was sent. It is also the
//! connection of which the theorems say most: its record is true, it fails only as it says, and a run over it is
//! determined by what was fed.

ghost use Rattle.std.specs.Prelude.{◌≡◌, ◌≤◌, ◌<◌, ◌+◌, ◌⊎◌, IfErr, OnOk, OnErr, length, take, drop, min};
ghost use Rattle.std.specs.declared.io.ErrorKind.TheVariants as kinds;
ghost use Rattle.ftp_transport.specs.Told.{after_read, as_poll, Fits, HasFailed, HasRoomFor, IsFull, WritesSome, WriteTells};
ghost use Rattle.ftp_transport.specs.Memory.{fresh_between, fresh_memory, fed, closed_memory, widened, IsGiven};

use super::{Conn, PollConn, Room, Tells};
use futures::task::Poll;
use std::alloc::{AllocError, Global};
use std::io::ErrorKind;
use std::marker::Model;
use std::net::{Ipv4Addr, SocketAddr, SocketAddrV4};

/// A connection over memory: the server's bytes are fed to it, and what is written can be looked at.
///
/// Polled, a read waits where no byte is left and the end wasn't announced, and a write waits where no room is
/// left. Blocking, the input ends after the last byte, and a write where no room is left fails.
pub struct MemoryConn {
    input: Vec<u8>,
    begun: usize,
    read: usize,
    closed: bool,
    ended: bool,
    room: Room,
    local: SocketAddr,
    peer: SocketAddr,
    sent: Vec<u8>,
    closed_here: bool,
    failures: u64,
    last_fault: Option<ErrorKind>,
    // How many reads were asked of it; the record doesn't have them.
    reads: u64,
}

impl Drop for MemoryConn {
    fn drop(self) {
        let Self {
            input,
            begun: _,
            read: _,
            closed: _,
            ended: _,
            room: _,
            local: _,
            peer: _,
            sent,
            closed_here: _,
            failures: _,
            last_fault: _,
            reads: _,
        } = self;
        drop(input);
        drop(sent);
    }
}

impl Model for MemoryConn {
    ghost use Rattle.std.specs.Prelude.{◌≡◌, ◌≤◌, length, take, drop, true};
    ghost use Rattle.ftp_transport.specs.Told.{Told};

    ghost Value = { Told };

    ghost view = { λ c. record {
      received = drop c.begun (take c.read c.input.items);
      ended = c.ended;
      sent = c.sent.items;
      closed_here = c.closed_here;
      failures = c.failures;
      last_fault = c.last_fault;
      given = record {
        bytes = drop c.begun c.input.items;
        closed = c.closed;
        room = c.room;
        local = c.local;
        peer = c.peer;
      };
    } };

    ghost invariant = { λ c. (c.begun ≤ c.read) × (c.read ≤ length c.input.items) ×
        (c.ended ≡ true → c.read ≡ length c.input.items) };
}

impl MemoryConn {
    /// A connection without bytes to read, and with room for any number. Both ends are `0.0.0.0:0`.
    pub fn new(alloc: Global) -> MemoryConn
        ensures { result ≡ fresh_memory }
    {
        let unspecified = SocketAddr::V4(SocketAddrV4::new(Ipv4Addr::new(0, 0, 0, 0), 0));
        MemoryConn::between(alloc, unspecified, unspecified)
    }

    /// The same between these ends.
    pub fn between(alloc: Global, local: SocketAddr, peer: SocketAddr) -> MemoryConn
        ensures { result ≡ fresh_between local peer }
    {
        MemoryConn {
            input: Vec::new(alloc),
            begun: 0,
            read: 0,
            closed: false,
            ended: false,
            room: Room::Any,
            local,
            peer,
            sent: Vec::new(alloc),
            closed_here: false,
            failures: 0,
            last_fault: None,
            reads: 0,
        }
    }

    /// Adds bytes from the server; none after the end, whether it was announced or reached.
    pub fn feed(&mut self, bytes: &[u8]) -> Result<(), AllocError>
        ensures ok { OnOk result (self.new ≡ fed bytes.now self.old) }
        ensures err { OnErr result (self.new ≡ self.old) }
    {
        if self.closed || self.ended {
            return Ok(());
        }
        self.input.extend_from_slice(bytes)
    }

    /// Announces the end of the server's bytes.
    pub fn end(&mut self)
        ensures { self.new ≡ closed_memory self.old }
    {
        self.closed = true;
    }

    /// Room for so many more bytes. Before the first call there is room for any number.
    pub fn allow(&mut self, more: u64)
        ensures widened { self.new ≡ widened more self.old }
        ensures fits { Fits self.old → Fits self.new }
    {
        let room = match self.room {
            Room::Any => self.sent.as_slice().len() as u64,
            Room::UpTo(room) => room,
        };
        self.room = Room::UpTo(room.saturating_add(more));
    }

    /// What was written since the channel began.
    pub fn sent(&self) -> &[u8]
        ensures { result.now ≡ self.now.sent }
    {
        self.sent.as_slice()
    }

    /// How many bytes were read since the channel began.
    pub fn received(&self) -> usize
        ensures { result ≡ length self.now.received }
    {
        self.read - self.begun
    }

    /// How many reads were asked of it, those that gave nothing among them. No clause says how many.
    pub fn reads(&self) -> u64 {
        self.reads
    }

    /// How many bytes of the server weren't read yet.
    pub fn unread(&self) -> usize
        ensures value { length self.now.received + result ≡ length self.now.given.bytes }
        ensures given { IsGiven self.now }
    {
        self.input.as_slice().len() - self.read
    }

    /// Copies what there is to read into the buffer, as far as it fits.
    fn give(&mut self, buffer: &mut [u8]) -> usize
        ensures bound { result ≤ length buffer.old }
        ensures given { self.new ≡ after_read (take result buffer.new) self.old }
        ensures none { result ≡ 0 → 0 < length buffer.old → self.new.received ≡
            self.new.given.bytes }
    {
        let count = copy_front(behind(self.input.as_slice(), self.read), buffer);
        self.read += count;
        self.reads = self.reads.saturating_add(1);
        count
    }

    /// How many of so many bytes there is room for.
    fn free(&self, wanted: usize) -> usize
        ensures bound { result ≤ wanted }
        ensures fits { Fits self.now → HasRoomFor self.now.given.room
            (length self.now.sent + result) }
        ensures full { result ≡ 0 → 0 < wanted → IsFull self.now }
    {
        match self.room {
            Room::Any => wanted,
            Room::UpTo(room) => room
                .saturating_sub(self.sent.as_slice().len() as u64)
                .min(wanted as u64) as usize,
        }
    }

    /// Records written bytes; fails where the allocation does.
    fn take(&mut self, bytes: &[u8]) -> Result<usize, ErrorKind>
        requires some { 0 < length bytes.now }
        requires fits { Fits self.old → HasRoomFor self.old.given.room
            (length self.old.sent + length bytes.now) }
        ensures bound { WritesSome (as_poll result) (length bytes.now) }
        ensures fault { IfErr result (λ kind. kind ≡ kinds.OutOfMemory) }
        ensures told { WriteTells (as_poll result) bytes.now self.old self.new }
    {
        match self.sent.extend_from_slice(bytes) {
            Ok(()) => Ok(bytes.len()),
            Err(AllocError) => Err(self.fault(ErrorKind::OutOfMemory)),
        }
    }

    /// An error, which is counted.
    fn fault(&mut self, kind: ErrorKind) -> ErrorKind
        ensures kind { result ≡ kind }
        ensures counted { HasFailed kind self.old self.new }
    {
        self.failures = self.failures.saturating_add(1);
        self.last_fault = Some(kind);
        kind
    }
}

/// The bytes after the first so many.
fn behind(bytes: &[u8], count: usize) -> &[u8]
    requires { count ≤ length bytes.now }
    ensures { result.now ≡ drop count bytes.now }
{
    &bytes[count..]
}

/// The first so many bytes.
fn front(bytes: &[u8], count: usize) -> &[u8]
    requires { count ≤ length bytes.now }
    ensures { result.now ≡ take count bytes.now }
{
    &bytes[..count]
}

/// Copies as many bytes as there are and fit, to the front, and returns how many.
fn copy_front(from: &[u8], to: &mut [u8]) -> usize
    ensures count { result ≡ min (length from.now) (length to.old) }
    ensures copied { take result to.new ≡ take result from.now }
{
    let count = from.len().min(to.len());
    to[..count].copy_from_slice(&from[..count]);
    count
}

impl Tells for MemoryConn {
    ghost tells = { Unit {0} };

    ghost told = { λ c. c };

    fn begin(&mut self) {
        if let Room::UpTo(room) = self.room {
            self.room = Room::UpTo(room.saturating_sub(self.sent.len() as u64));
        }
        self.begun = self.read;
        self.ended = false;
        self.sent.clear();
    }

    ghost end_faults = { λ kind. ⊥ };

    fn local_addr(&mut self) -> Result<SocketAddr, ErrorKind> {
        Ok(self.local)
    }

    fn peer_addr(&mut self) -> Result<SocketAddr, ErrorKind> {
        Ok(self.peer)
    }

    fn close(&mut self) -> Result<(), ErrorKind> {
        self.closed_here = true;
        Ok(())
    }
}

impl Conn for MemoryConn {
    ghost blocking_read_faults = { λ kind. ⊥ };

    ghost blocking_write_faults = { λ told kind. (kind ≡ kinds.OutOfMemory) ⊎
        ((kind ≡ kinds.WouldBlock) × IsFull told) };

    fn read(&mut self, buffer: &mut [u8]) -> Result<usize, ErrorKind> {
        let count = self.give(buffer);
        if count == 0 {
            self.ended = true;
        }
        self.unread();
        Ok(count)
    }

    fn write(&mut self, bytes: &[u8]) -> Result<usize, ErrorKind> {
        let free = self.free(bytes.len());
        if free == 0 {
            return Err(self.fault(ErrorKind::WouldBlock));
        }
        self.take(front(bytes, free))
    }
}

impl PollConn<()> for MemoryConn {
    ghost may_wait = { Unit {0} };

    ghost read_faults = { λ kind. ⊥ };

    ghost write_faults = { λ told kind. kind ≡ kinds.OutOfMemory };

    fn poll_read(&mut self, _w: &mut (), buffer: &mut [u8]) -> Result<Poll<usize>, ErrorKind> {
        let count = self.give(buffer);
        if count > 0 {
            self.unread();
            return Ok(Poll::Ready(count));
        }
        if !self.closed {
            return Ok(Poll::Pending);
        }
        self.ended = true;
        self.unread();
        Ok(Poll::Ready(0))
    }

    fn poll_write(&mut self, _w: &mut (), bytes: &[u8]) -> Result<Poll<usize>, ErrorKind> {
        let free = self.free(bytes.len());
        if free == 0 {
            return Ok(Poll::Pending);
        }
        match self.take(front(bytes, free)) {
            Ok(count) => Ok(Poll::Ready(count)),
            Err(kind) => Err(kind),
        }
    }
}

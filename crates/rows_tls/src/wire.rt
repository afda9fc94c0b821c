//! Connections over memory that write down what is sent on them, and may wait before each byte.

ghost use Rattle.std.specs.Prelude.{◌≡◌, ◌≤◌, ◌<◌, length};
ghost use Rattle.ftp_transport.specs.Told.{WritesSome};

use crate::covers::Covers;
use crate::log::Log;
use ftp_transport::{Conn, MemoryConn, PollConn, TaskConn, Tells, Waiting};
use futures::task::{Context, Poll};
use std::alloc::{AllocError, Global};
use std::io::ErrorKind;
use std::net::SocketAddr;

/// A connection over memory. What is written to it is in its log, under its letter: `C` of the control connection, `U` of a
/// data connection, and beside them `S` and `V` of what goes over them under TLS.
///
/// What comes on it comes in pieces: a read gives bytes of one at most. A slow one reads and writes one byte a poll, and
/// waits before each.
pub struct Wire {
    conn: MemoryConn,
    // How many bytes were read, and how many came with each piece and those before it.
    taken: usize,
    ends: Vec<usize>,
    log: Log,
    letter: char,
    slow: bool,
    // Whether the next read was waited for, and whether the next write was.
    reads: bool,
    writes: bool,
}

impl Drop for Wire {
    fn drop(self) {
        let Self {
            conn,
            taken: _,
            ends,
            log,
            letter,
            slow,
            reads: _,
            writes: _,
        } = self;
        if slow && letter == 'C' {
            log.note('E', "");
        }
        drop(log);
        drop(ends);
        drop(conn);
    }
}

impl Wire {
    /// A connection on which nothing comes, before pieces are added.
    ///
    /// # Errors
    /// Where an allocation fails.
    pub fn new(alloc: Global, log: &Log, letter: char, slow: bool) -> Result<Wire, AllocError> {
        Ok(Wire {
            conn: MemoryConn::new(alloc),
            taken: 0,
            ends: Vec::new(alloc),
            log: log.share()?,
            letter,
            slow,
            reads: false,
            writes: false,
        })
    }

    /// Adds a piece of what comes on it.
    ///
    /// # Errors
    /// Where an allocation fails.
    pub fn feed(&mut self, piece: &[u8]) -> Result<(), AllocError> {
        let before = self.ends.last().copied().unwrap_or(0);
        self.ends.push(before.saturating_add(piece.len()))?;
        self.conn.feed(piece)
    }

    /// After the pieces that came comes the end.
    pub fn end(&mut self) {
        self.conn.end();
    }

    /// How many bytes a read may give into a buffer of this size: at most those that are left of the next piece.
    fn most(&self, size: usize) -> usize
        ensures bound { result ≤ size }
        ensures some { 0 < size → 0 < result }
    {
        for end in &self.ends {
            if *end > self.taken {
                return size.min(end.saturating_sub(self.taken));
            }
        }
        size
    }

    /// So many bytes were read.
    fn took(&mut self, count: usize) -> usize
        ensures { result ≡ count }
    {
        self.taken = self.taken.saturating_add(count);
        count
    }

    /// What was written to it.
    pub fn sent(&self) -> &[u8] {
        self.conn.sent()
    }

    /// So many of these bytes were written.
    fn note(&self, bytes: &[u8], count: usize) {
        self.log
            .write(self.letter, bytes.get(..count).unwrap_or(bytes));
    }

    /// Writes some of these bytes, where there is room.
    fn poll_some(&mut self, bytes: &[u8]) -> Result<Poll<usize>, ErrorKind>
        requires { 0 < length bytes.now }
        ensures bound { WritesSome result (length bytes.now) }
    {
        let polled = self.conn.poll_write(&mut (), bytes)?;
        if let Poll::Ready(count) = polled {
            self.note(bytes, count);
        }
        Ok(polled)
    }
}

impl Covers for Wire {
    fn begin_handshake(&self, domain: &str) {
        self.log.note('N', domain);
    }

    fn cover(&self, alloc: Global, clear: &str) -> Result<Wire, AllocError> {
        let letter = if self.letter == 'C' { 'S' } else { 'V' };
        let mut conn = Wire::new(alloc, &self.log, letter, self.slow)?;
        conn.feed(clear.as_bytes())?;
        conn.end();
        Ok(conn)
    }
}

impl Tells for Wire {
    ghost tells = { ⊥ };

    ghost told = { λ w. w.conn };

    fn begin(&mut self) {
        self.conn.begin();
    }

    ghost end_faults = { λ _. Unit {0} };

    fn local_addr(&mut self) -> Result<SocketAddr, ErrorKind> {
        self.conn.local_addr()
    }

    fn peer_addr(&mut self) -> Result<SocketAddr, ErrorKind> {
        self.conn.peer_addr()
    }

    fn close(&mut self) -> Result<(), ErrorKind> {
        self.conn.close()
    }
}

impl Conn for Wire {
    ghost blocking_read_faults = { λ _. Unit {0} };

    ghost blocking_write_faults = { λ _ _. Unit {0} };

    fn read(&mut self, buffer: &mut [u8]) -> Result<usize, ErrorKind> {
        let most = self.most(buffer.len());
        let count = self.conn.read(&mut buffer[..most])?;
        Ok(self.took(count))
    }

    fn write(&mut self, bytes: &[u8]) -> Result<usize, ErrorKind> {
        let count = self.conn.write(bytes)?;
        self.note(bytes, count);
        Ok(count)
    }
}

impl PollConn<()> for Wire {
    ghost may_wait = { Unit {0} };

    ghost read_faults = { λ _. Unit {0} };

    ghost write_faults = { λ _ _. Unit {0} };

    fn poll_read(&mut self, w: &mut (), buffer: &mut [u8]) -> Result<Poll<usize>, ErrorKind> {
        if self.slow {
            self.reads = !self.reads;
            if self.reads {
                return Ok(Poll::Pending);
            }
        }
        let most = if self.slow {
            1
        } else {
            self.most(buffer.len())
        };
        match self.conn.poll_read(w, &mut buffer[..most])? {
            Poll::Ready(count) => Ok(Poll::Ready(self.took(count))),
            Poll::Pending => Ok(Poll::Pending),
        }
    }

    fn poll_write(&mut self, _w: &mut (), bytes: &[u8]) -> Result<Poll<usize>, ErrorKind> {
        if !self.slow {
            return self.poll_some(bytes);
        }
        self.writes = !self.writes;
        if self.writes {
            return Ok(Poll::Pending);
        }
        self.poll_some(&bytes[..1])
    }
}

impl TaskConn for Wire {
    ghost needs = { λ _ _. ⊥ };

    fn poll_ready(&mut self, _cx: &mut Context<'_>) -> Waiting {
        Waiting::Nothing
    }
}

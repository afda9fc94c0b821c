//! Connections over memory that wait before each byte or each piece, and a transport that hands them out.

ghost use Rattle.std.specs.Prelude.{[], ◌≡◌, ◌<◌, ◌≤◌, Ok};
ghost use Rattle.ftp_transport.specs.Memory.{fresh_memory};

use ftp_base::types::ConnectionError;
use ftp_transport::{
    Accepted, Connected, Handshaken, Listening, MemoryConn, Network, PollConn, PollTransport,
    TaskConn, TaskTransport, Tells, Waiting,
};
use futures::task::{Context, Poll};
use std::alloc::{AllocError, Global};
use std::collections::VecDeque;
use std::io::ErrorKind;
use std::mem;
use std::net::SocketAddr;
use std::time::Duration;

/// A connection that writes one byte a call, reads one or what is left of a piece, and waits before each.
#[derive(Drop)]
pub struct SlowConn {
    conn: MemoryConn,
    // How many bytes are left of each piece that a read gives whole; none where it gives one byte.
    pieces: VecDeque<usize>,
    // Whether the next read was waited for, and whether the next write was.
    reads: bool,
    writes: bool,
    closed: bool,
}

impl SlowConn {
    /// A connection on which these bytes come, and then the end.
    pub fn with(alloc: Global, input: &[u8]) -> Result<SlowConn, AllocError> {
        let mut conn = MemoryConn::new(alloc);
        conn.feed(input)?;
        conn.end();
        Ok(SlowConn {
            conn,
            pieces: VecDeque::new(alloc),
            reads: false,
            writes: false,
            closed: false,
        })
    }

    /// A connection on which these pieces come, a byte at a time or each at once, and then the end.
    pub fn of_pieces(
        alloc: Global,
        pieces: &[Vec<u8>],
        at_once: bool,
    ) -> Result<SlowConn, AllocError> {
        let mut input = Vec::new(alloc);
        let mut lengths = VecDeque::new(alloc);
        for piece in pieces {
            input.extend_from_slice(piece)?;
            if at_once {
                lengths.push_back(piece.len())?;
            }
        }
        let mut conn = SlowConn::with(alloc, &input)?;
        drop(mem::replace(&mut conn.pieces, lengths));
        Ok(conn)
    }

    /// How many bytes the next read gives at most.
    fn most(&self, wanted: usize) -> usize
        requires { 0 < wanted }
        ensures some { 0 < result }
        ensures bound { result ≤ wanted }
    {
        match self.pieces.front() {
            Some(left) if *left > 0 => { if *left < wanted { *left } else { wanted } }
            _ => 1,
        }
    }

    /// So many bytes were read.
    fn took(&mut self, count: usize) {
        if let Some(left) = self.pieces.pop_front()
            && left > count
        {
            let _ = self.pieces.push_front(left.saturating_sub(count));
        }
    }

    /// What was written.
    pub fn sent(&self) -> &[u8] {
        self.conn.sent()
    }

    /// Whether it was closed here.
    pub fn is_closed(&self) -> bool {
        self.closed
    }
}

impl Tells for SlowConn {
    ghost tells = { ⊥ };

    ghost told = { λ _. fresh_memory };

    fn begin(&mut self) {
        self.conn.begin();
    }

    ghost end_faults = { λ _. Unit {0} };

    fn local_addr(&mut self) -> Result<SocketAddr, ErrorKind> {
        self.conn.local_addr()
    }

    fn peer_addr(&mut self) -> Result<SocketAddr, ErrorKind> {
        self.conn.peer_addr()
    }

    fn close(&mut self) -> Result<(), ErrorKind> {
        self.closed = true;
        self.conn.close()
    }
}

impl PollConn<()> for SlowConn {
    ghost may_wait = { Unit {0} };

    ghost read_faults = { λ _. Unit {0} };

    ghost write_faults = { λ _ _. Unit {0} };

    fn poll_read(&mut self, w: &mut (), buffer: &mut [u8]) -> Result<Poll<usize>, ErrorKind> {
        self.reads = !self.reads;
        if self.reads {
            return Ok(Poll::Pending);
        }
        let most = self.most(buffer.len());
        match self.conn.poll_read(w, &mut buffer[..most])? {
            Poll::Ready(count) => {
                self.took(count);
                Ok(Poll::Ready(count))
            }
            Poll::Pending => Ok(Poll::Pending),
        }
    }

    fn poll_write(&mut self, w: &mut (), bytes: &[u8]) -> Result<Poll<usize>, ErrorKind> {
        self.writes = !self.writes;
        if self.writes {
            return Ok(Poll::Pending);
        }
        match self.conn.poll_write(w, &bytes[..1])? {
            Poll::Ready(_) => Ok(Poll::Ready(1)),
            Poll::Pending => Ok(Poll::Pending),
        }
    }
}

impl TaskConn for SlowConn {
    ghost needs = { λ _ _. ⊥ };

    fn poll_ready(&mut self, _cx: &mut Context<'_>) -> Waiting {
        Waiting::Nothing
    }
}

/// The port of each listener.
const PORT: u16 = 1024;

/// A transport that hands out connections in order, waits before each, and keeps those that are over. A listener is the
/// address that it is bound to, and its peers have that address.
#[derive(Drop)]
pub struct SlowTransport {
    ready: VecDeque<SlowConn>,
    closed: Vec<SlowConn>,
    // Whether the next connect or accept was waited for.
    waits: bool,
}

impl SlowTransport {
    /// A transport with these connections.
    pub fn with(alloc: Global, ready: VecDeque<SlowConn>) -> SlowTransport {
        SlowTransport {
            ready,
            closed: Vec::new(alloc),
            waits: false,
        }
    }

    /// The data connections that are over.
    pub fn over(&self) -> &[SlowConn] {
        self.closed.as_slice()
    }
}

impl Network for SlowTransport {
    type Conn = SlowConn;

    type Listener = SocketAddr;

    ghost asked = { λ _. [] };

    ghost ready = { λ _. [] };

    ghost refuses = { λ _ _. Unit {0} };

    ghost accept_refuses = { λ _ _. Unit {0} };

    ghost port = { λ _. 0 };

    ghost binds = { λ _ _ _. Unit {0} };

    ghost closed = { λ _. [] };

    ghost handshake = { λ _ _ outcome. outcome ≡ Ok fresh_memory };

    ghost has_room = { λ _. Unit {0} };

    fn make_room(&mut self) -> Result<(), AllocError> {
        self.closed.reserve(1)
    }

    fn note_build(&mut self, _address: SocketAddr) -> Result<(), AllocError> {
        Ok(())
    }

    fn closed(&mut self, conn: SlowConn) {
        let _ = self.closed.push(conn);
    }
}

impl<R> PollTransport<R, ()> for SlowTransport {
    ghost may_wait = { Unit {0} };

    fn poll_connect(
        &mut self,
        _rt: &R,
        _w: &mut (),
        _address: SocketAddr,
        _limit: Option<Duration>,
    ) -> Poll<Connected<SlowConn>> {
        self.waits = !self.waits;
        if self.waits {
            return Poll::Pending;
        }
        match self.ready.pop_front() {
            Some(conn) => Poll::Ready(Ok(Ok(conn))),
            None => Poll::Ready(Ok(Err(ConnectionError::Io(ErrorKind::ConnectionRefused)))),
        }
    }

    fn poll_listen(
        &mut self,
        _rt: &R,
        _w: &mut (),
        address: SocketAddr,
    ) -> Poll<Listening<SocketAddr>> {
        let mut bound = address;
        bound.set_port(PORT);
        Poll::Ready(Ok(Ok((bound, bound))))
    }

    fn poll_accept(
        &mut self,
        _rt: &R,
        _w: &mut (),
        listener: &mut SocketAddr,
        _deadline: Duration,
    ) -> Poll<Accepted<SlowConn>> {
        self.waits = !self.waits;
        if self.waits {
            return Poll::Pending;
        }
        match self.ready.pop_front() {
            Some(conn) => Poll::Ready(Ok(Ok((conn, *listener)))),
            None => Poll::Ready(Ok(Err(ConnectionError::TimedOut))),
        }
    }

    fn poll_secure(&mut self, _rt: &R, _w: &mut (), conn: SlowConn) -> Poll<Handshaken<SlowConn>> {
        Poll::Ready(Ok(Ok(conn)))
    }

    fn poll_secured(&mut self, _rt: &R, _w: &mut ()) -> Poll<Handshaken<SlowConn>> {
        Poll::Ready(Err(AllocError))
    }
}

impl TaskTransport for SlowTransport {
    fn forget(&mut self) {
        self.waits = false;
    }

    fn poll_connect_ready(&mut self, _cx: &mut Context<'_>) -> Waiting {
        Waiting::Nothing
    }

    fn poll_secure_ready(&mut self, _cx: &mut Context<'_>) -> Waiting {
        Waiting::Nothing
    }

    fn poll_accept_ready(_listener: &mut SocketAddr, _cx: &mut Context<'_>) -> Waiting {
        Waiting::Nothing
    }
}

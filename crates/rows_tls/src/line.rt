//! A connection of a row, which may be under TLS, as one type.
//!
//! A call of a client states what holds of each type that it is made at. Of this one nothing is on record, so that there is
//! little to state, where what a `DataStream` states is made of what both its connections do.

ghost use Rattle.std.specs.Prelude.{None};
ghost use Rattle.ftp_secure.specs.Gone.{gone_after};

use crate::sealed::Sealed;
use crate::wire::Wire;
use ftp_secure::DataStream;
use ftp_transport::{Conn, PollConn, TaskConn, Tells, Waiting};
use futures::task::{Context, Poll};
use std::io::ErrorKind;
use std::net::SocketAddr;

/// A connection as it is, under TLS, or what is left of one that was handed over.
pub type Held = DataStream<Wire, Sealed<Wire>>;

/// A connection that writes down what is sent on it, as it is or under TLS.
pub struct Line {
    held: Held,
}

impl Drop for Line {
    fn drop(self) {
        let Self { held } = self;
        drop(held);
    }
}

impl Line {
    /// A connection of which nothing was read.
    pub fn new(conn: Wire) -> Line {
        Line::of(DataStream::Tcp(conn))
    }

    /// One that holds this connection.
    pub(crate) fn of(held: Held) -> Line {
        Line { held }
    }

    /// The connection that it holds.
    pub(crate) fn into_held(self) -> Held {
        let Self { held } = self;
        held
    }

    /// What was written to it: under TLS, in clear.
    pub fn sent(&self) -> &[u8] {
        match &self.held {
            DataStream::Tcp(conn) => conn.sent(),
            DataStream::Ssl(stream) => stream.clear.sent(),
            DataStream::Gone(_) => &[],
        }
    }

    /// Whether it is under TLS.
    pub fn is_under(&self) -> bool {
        matches!(&self.held, DataStream::Ssl(_))
    }
}

impl Tells for Line {
    ghost tells = { ⊥ };

    ghost told = { λ _. gone_after 0 None };

    fn begin(&mut self) {
        self.held.begin();
    }

    ghost end_faults = { λ _. Unit {0} };

    fn local_addr(&mut self) -> Result<SocketAddr, ErrorKind> {
        self.held.local_addr()
    }

    fn peer_addr(&mut self) -> Result<SocketAddr, ErrorKind> {
        self.held.peer_addr()
    }

    fn close(&mut self) -> Result<(), ErrorKind> {
        self.held.close()
    }
}

impl Conn for Line {
    ghost blocking_read_faults = { λ _. Unit {0} };

    ghost blocking_write_faults = { λ _ _. Unit {0} };

    fn read(&mut self, buffer: &mut [u8]) -> Result<usize, ErrorKind> {
        self.held.read(buffer)
    }

    fn write(&mut self, bytes: &[u8]) -> Result<usize, ErrorKind> {
        self.held.write(bytes)
    }
}

impl PollConn<()> for Line {
    ghost may_wait = { Unit {0} };

    ghost read_faults = { λ _. Unit {0} };

    ghost write_faults = { λ _ _. Unit {0} };

    fn poll_read(&mut self, w: &mut (), buffer: &mut [u8]) -> Result<Poll<usize>, ErrorKind> {
        self.held.poll_read(w, buffer)
    }

    fn poll_write(&mut self, w: &mut (), bytes: &[u8]) -> Result<Poll<usize>, ErrorKind> {
        self.held.poll_write(w, bytes)
    }
}

impl TaskConn for Line {
    ghost needs = { λ _ _. ⊥ };

    fn poll_ready(&mut self, cx: &mut Context<'_>) -> Waiting {
        self.held.poll_ready(cx)
    }
}

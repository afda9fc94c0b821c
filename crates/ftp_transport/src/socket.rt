//! Connections over TCP sockets.
//!
//! What a socket carried is not covered by any proof: its record is never true, so each theorem on records says nothing
//! of it. That a call interrupted by a signal is tried again, at most 64 times in a row, is tested, and so is that a time
//! limit ends a wait.

ghost use Rattle.std.specs.Prelude.{[], ◌≡◌, Ok};
ghost use Rattle.ftp_transport.specs.Memory.{fresh_memory};

use super::{
    Accepted, Conn, Connected, Handshaken, Listening, Network, TcpConnListener, Tells, Transport,
};
use crate::socket_limits::SocketLimits;
use ftp_base::retry::{read_retrying, write_retrying};
use ftp_base::types::ConnectionError;
use std::alloc::AllocError;
use std::io::ErrorKind;
use std::net::{Net, Shutdown, SocketAddr, TcpListener, TcpStream};
use std::time::{Clock, Duration};

/// A connection over a TCP socket. A read or write that waits longer than the socket's time limit (`set_read_timeout`,
/// `set_write_timeout`) fails with `TimedOut`.
pub struct TcpConn {
    stream: TcpStream,
    // Whether a write was made, as for an upload.
    has_written: bool,
}

impl Drop for TcpConn {
    fn drop(self) {
        let Self {
            stream,
            has_written: _,
        } = self;
        drop(stream);
    }
}

impl TcpConn {
    /// A connection over a socket that is connected.
    pub fn new(stream: TcpStream) -> TcpConn {
        TcpConn {
            stream,
            has_written: false,
        }
    }

    /// The socket.
    pub fn get_ref(&self) -> &TcpStream {
        &self.stream
    }
}

impl Tells for TcpConn {
    ghost tells = { ⊥ };

    ghost told = { λ _. fresh_memory };

    fn begin(&mut self) {}

    ghost end_faults = { λ _. Unit {0} };

    fn local_addr(&mut self) -> Result<SocketAddr, ErrorKind> {
        match self.stream.local_addr() {
            Ok(address) => Ok(address),
            Err(error) => Err(error.kind()),
        }
    }

    fn peer_addr(&mut self) -> Result<SocketAddr, ErrorKind> {
        match self.stream.peer_addr() {
            Ok(address) => Ok(address),
            Err(error) => Err(error.kind()),
        }
    }

    /// Closes both directions. Where the peer has gone that is no error.
    ///
    /// A connection on which nothing was written, as a download's, is closed by its drop, which comes next, and needs no call
    /// of its own: a shutdown before that kills some servers that still send. A clone of its socket that the caller has made
    /// keeps it open.
    fn close(&mut self) -> Result<(), ErrorKind> {
        if !self.has_written {
            return Ok(());
        }
        match self.stream.shutdown(Shutdown::Both) {
            Ok(()) => Ok(()),
            Err(error) if error.kind() == ErrorKind::NotConnected => Ok(()),
            Err(error) => Err(error.kind()),
        }
    }
}

impl Conn for TcpConn {
    ghost blocking_read_faults = { λ _. Unit {0} };

    ghost blocking_write_faults = { λ _ _. Unit {0} };

    fn read(&mut self, buffer: &mut [u8]) -> Result<usize, ErrorKind> {
        match read_retrying(&mut self.stream, buffer) {
            Ok(count) => Ok(count),
            Err(error) => Err(socket_fault(error.kind())),
        }
    }

    fn write(&mut self, bytes: &[u8]) -> Result<usize, ErrorKind> {
        self.has_written = true;
        match write_retrying(&mut self.stream, bytes) {
            Ok(0) => Err(ErrorKind::WriteZero),
            Ok(count) => Ok(count),
            Err(error) => Err(socket_fault(error.kind())),
        }
    }
}

/// The transport over TCP sockets. Its runtime is one that has the network (`Net`) and the time (`Clock`).
#[derive(Drop)]
pub struct TcpTransport {
    limits: SocketLimits,
}

impl TcpTransport {
    /// A transport whose sockets have no time limits.
    pub fn new() -> TcpTransport {
        TcpTransport::with_limits(None, None, None)
    }

    /// A transport whose sockets have these time limits: how long a connect may take, and how long a read and a write
    /// may wait. They hold on control and data connections alike, connected and accepted. `None` is no limit.
    ///
    /// Where a limit passes the call fails with `Io(TimedOut)`. A limit of zero can't be set: each connect or accept
    /// fails with `Io(InvalidInput)`. The look-up of a host's name has no limit, and `connect_timeout` keeps its own
    /// in place of that of a connect.
    pub fn with_limits(
        connect: Option<Duration>,
        read: Option<Duration>,
        write: Option<Duration>,
    ) -> TcpTransport {
        let limits = SocketLimits {
            connect,
            read,
            write,
        };
        TcpTransport { limits }
    }

    /// A connection over this socket, with the limits of reads and writes.
    fn limited(&self, stream: TcpStream) -> Result<TcpConn, ConnectionError> {
        match self.limits.set_on(stream) {
            Ok(stream) => Ok(TcpConn::new(stream)),
            Err(error) => Err(ConnectionError::Io(error.kind())),
        }
    }
}

impl Network for TcpTransport {
    type Conn = TcpConn;

    type Listener = TcpConnListener;

    ghost asked = { λ _. [] };

    ghost ready = { λ _. [] };

    ghost refuses = { λ _ _. Unit {0} };

    ghost accept_refuses = { λ _ _. Unit {0} };

    ghost port = { λ _. 0 };

    ghost binds = { λ _ _ _. Unit {0} };

    ghost closed = { λ _. [] };

    ghost handshake = { λ _ _ outcome. outcome ≡ Ok fresh_memory };

    ghost has_room = { λ _. Unit {0} };

    fn make_room(&mut self) -> Result<(), AllocError> {
        Ok(())
    }

    fn note_build(&mut self, _address: SocketAddr) -> Result<(), AllocError> {
        Ok(())
    }

    fn closed(&mut self, _conn: TcpConn) {}
}

impl<R> Transport<R> for TcpTransport
where
    R: Net<Listener = TcpListener, Stream = TcpStream> + Clock,
{
    fn connect(&mut self, rt: &R, address: SocketAddr) -> Connected<TcpConn> {
        match self.limits.connect(rt, address) {
            Ok(stream) => Ok(Ok(TcpConn::new(stream))),
            Err(error) => Ok(Err(ConnectionError::Io(error.kind()))),
        }
    }

    fn connect_timeout(
        &mut self,
        rt: &R,
        address: SocketAddr,
        limit: Duration,
    ) -> Connected<TcpConn> {
        match rt.connect_timeout(address, limit) {
            Ok(stream) => Ok(self.limited(stream)),
            Err(error) => Ok(Err(deadline_fault(error.kind()))),
        }
    }

    fn listen(&mut self, rt: &R, address: SocketAddr) -> Listening<TcpConnListener> {
        match TcpConnListener::bind(rt, address) {
            Ok(made) => Ok(Ok(made)),
            Err(error) => Ok(Err(ConnectionError::Io(error.kind()))),
        }
    }

    fn accept(
        &mut self,
        rt: &R,
        listener: &mut TcpConnListener,
        deadline: Duration,
    ) -> Accepted<TcpConn> {
        match listener.accept_within(rt, deadline) {
            Ok((stream, peer)) => match self.limited(stream) {
                Ok(conn) => Ok(Ok((conn, peer))),
                Err(fault) => Ok(Err(fault)),
            },
            Err(fault) => Ok(Err(fault)),
        }
    }

    fn secure(&mut self, _rt: &R, conn: TcpConn) -> Handshaken<TcpConn> {
        Ok(Ok(conn))
    }
}

/// The error of a failed read or write of a socket: the system's is `WouldBlock` where the socket's limit passed.
fn socket_fault(kind: ErrorKind) -> ErrorKind {
    match kind {
        ErrorKind::WouldBlock => ErrorKind::TimedOut,
        other => other,
    }
}

/// The error returned for one under a deadline: that the deadline passed is an error of its own.
fn deadline_fault(kind: ErrorKind) -> ConnectionError {
    match kind {
        ErrorKind::TimedOut => ConnectionError::TimedOut,
        other => ConnectionError::Io(other),
    }
}

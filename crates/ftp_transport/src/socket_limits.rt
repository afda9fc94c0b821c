//! How long the calls of a socket may wait.
//!
//! The system keeps the limits of reads and writes: a call that waits longer fails with `WouldBlock`, which `TcpConn`
//! returns as `TimedOut`.

use std::io;
use std::net::{Net, SocketAddr, TcpListener, TcpStream};
use std::time::Duration;

/// The time limits of a transport's sockets.
#[derive(Drop)]
pub(crate) struct SocketLimits {
    pub(crate) connect: Option<Duration>,
    pub(crate) read: Option<Duration>,
    pub(crate) write: Option<Duration>,
}

impl SocketLimits {
    /// Connects to this address within the limit for that, and sets the limits of the socket.
    ///
    /// # Errors
    /// `TimedOut` where the limit passes; the system's error; `InvalidInput` where a limit is zero.
    pub(crate) fn connect<R>(&self, rt: &R, address: SocketAddr) -> io::Result<TcpStream>
    where
        R: Net<Listener = TcpListener, Stream = TcpStream>,
    {
        let stream = match self.connect {
            Some(limit) => rt.connect_timeout(address, limit)?,
            None => rt.connect(address)?,
        };
        self.set_on(stream)
    }

    /// Sets the limits of reads and writes on this socket. A socket without limits stays as it is.
    ///
    /// # Errors
    /// `InvalidInput` where a limit is zero; the system's error.
    pub(crate) fn set_on(&self, stream: TcpStream) -> io::Result<TcpStream> {
        if self.read.is_some() {
            stream.set_read_timeout(self.read)?;
        }
        if self.write.is_some() {
            stream.set_write_timeout(self.write)?;
        }
        Ok(stream)
    }
}

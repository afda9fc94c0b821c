//! A listener over a TCP socket, with a deadline.
//!
//! The system has no accept with a deadline, so the socket doesn't block and is asked once a millisecond. The deadline
//! is counted from the listener's first accept: whoever drops a stranger and accepts again gains no time.

use ftp_base::retry::RETRIES;
use ftp_base::types::ConnectionError;
use std::io::ErrorKind;
use std::net::{Net, SocketAddr, TcpListener, TcpStream};
use std::time::{Clock, Duration, Instant};
use std::{io, thread};

/// How many milliseconds the socket is left alone between two tries.
const PAUSE: u64 = 1;

/// What waits on a TCP socket for a peer's connection.
pub struct TcpConnListener {
    socket: TcpListener,
    since: Option<Instant>,
}

impl Drop for TcpConnListener {
    fn drop(self) {
        let Self { socket, since } = self;
        drop(socket);
        drop(since);
    }
}

impl TcpConnListener {
    /// A listener on this address, and the address that it is bound to.
    ///
    /// # Errors
    /// The system's error.
    pub fn bind<R>(rt: &R, address: SocketAddr) -> io::Result<(TcpConnListener, SocketAddr)>
    where
        R: Net<Listener = TcpListener, Stream = TcpStream>,
    {
        let socket = rt.bind(address)?;
        socket.set_nonblocking(true)?;
        let bound = socket.local_addr()?;
        Ok((
            TcpConnListener {
                socket,
                since: None,
            },
            bound,
        ))
    }

    /// Accepts a connection within this time, counted from the listener's first accept. A connection that has come is
    /// accepted, however late it is asked for.
    ///
    /// # Errors
    /// `TimedOut` where the time has passed and no connection has come; the system's error.
    pub fn accept_within<R: Clock>(
        &mut self,
        rt: &R,
        deadline: Duration,
    ) -> Result<(TcpStream, SocketAddr), ConnectionError> {
        let since = self.since(rt).map_err(fault)?;
        for _ in 0..u64::MAX {
            let passed = since.elapsed(rt).map_err(fault)? >= deadline;
            match self.accept_retrying() {
                Ok((stream, peer)) => {
                    stream.set_nonblocking(false).map_err(fault)?;
                    return Ok((stream, peer));
                }
                Err(error) if error.kind() == ErrorKind::WouldBlock => {}
                Err(error) => return Err(fault(error)),
            }
            if passed {
                return Err(ConnectionError::TimedOut);
            }
            thread::sleep(rt, Duration::from_millis(PAUSE));
        }
        Err(ConnectionError::TimedOut)
    }

    /// When the listener was first asked for a connection.
    fn since<R: Clock>(&mut self, rt: &R) -> io::Result<Instant> {
        match self.since {
            Some(since) => Ok(since),
            None => {
                let now = Instant::now(rt)?;
                self.since = Some(now);
                Ok(now)
            }
        }
    }

    /// Accepts once. An interrupted accept is tried again, at most 64 times.
    fn accept_retrying(&self) -> io::Result<(TcpStream, SocketAddr)> {
        for _ in 0..RETRIES {
            match self.socket.accept() {
                Err(error) if error.kind() == ErrorKind::Interrupted => {}
                other => return other,
            }
        }
        self.socket.accept()
    }
}

/// The error of a call of the system.
fn fault(error: io::Error) -> ConnectionError {
    ConnectionError::Io(error.kind())
}

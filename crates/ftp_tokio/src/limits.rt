//! The time limits of a transport's sockets.

ghost use Rattle.std.specs.Prelude.{◌≡◌, IfOk, None, Ok, Some};
ghost use Rattle.ftp_tokio.specs.Outcomes.{conn_over};

use crate::TokioConn;
use crate::watch::Watch;
use ftp_base::types::ConnectionError;
use std::io;
use std::io::ErrorKind;
use std::time::{Clock, Duration};
use tokio::net::TcpStream;
use tokio::time::Handle;

/// How long a connect may take, and how long a read and a write may wait.
#[derive(Clone, Copy)]
pub(crate) struct Limits {
    pub(crate) connect: Option<Duration>,
    pub(crate) read: Option<Duration>,
    pub(crate) write: Option<Duration>,
}

impl Limits {
    /// No limits.
    pub(crate) fn none() -> Limits
        ensures { result ≡ record { connect = None; read = None; write = None } }
    {
        Limits {
            connect: None,
            read: None,
            write: None,
        }
    }

    /// A connection over this socket, with the limits of reads and writes.
    ///
    /// # Errors
    /// `InvalidInput` where one is zero; where the clock can't be read; out of memory.
    pub(crate) fn watched<R: Clock + AllocGlobal>(
        &self,
        rt: &R,
        timers: Option<&Handle>,
        stream: TcpStream,
    ) -> io::Result<TokioConn>
        ensures none { self.now.read ≡ None → self.now.write ≡ None → result ≡ Ok (conn_over stream) }
        ensures stream { IfOk result (λ conn. conn.stream ≡ Some stream) }
    {
        let read = Watch::new(rt, timers, self.read)?;
        let write = Watch::new(rt, timers, self.write)?;
        Ok(TokioConn::watched(stream, read, write))
    }
}

/// What a connect fails with whose limit has passed: its own, or where it has none the transport's.
pub(crate) fn passed(own: Option<Duration>) -> ConnectionError {
    match own {
        Some(_) => ConnectionError::TimedOut,
        None => ConnectionError::Io(ErrorKind::TimedOut),
    }
}

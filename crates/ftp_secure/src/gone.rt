//! What is left of a connection that was handed over.

ghost use Rattle.std.specs.Prelude.{◌≡◌};
ghost use Rattle.std.specs.declared.io.ErrorKind.TheVariants as kinds;
ghost use Rattle.ftp_transport.specs.Told.{HasFailed};
ghost use Rattle.ftp_secure.specs.Gone.{gone_after};

use ftp_transport::{Conn, PollConn, Tells};
use futures::task::Poll;
use std::io::ErrorKind;
use std::net::SocketAddr;

/// What is left of a connection that was handed to a connector. It is closed: reads, writes and questions for addresses
/// fail with `NotConnected`.
#[derive(Drop)]
pub struct GoneConn {
    failures: u64,
    last_fault: Option<ErrorKind>,
}

impl GoneConn {
    /// One of which no call failed yet.
    pub(crate) fn new() -> GoneConn
        ensures failures { result.failures ≡ 0 }
        ensures last_fault { result.last_fault ≡ None }
    {
        GoneConn {
            failures: 0,
            last_fault: None,
        }
    }

    /// A call fails, and is counted.
    fn fail(&mut self) -> ErrorKind
        ensures kind { result ≡ kinds.NotConnected }
        ensures counted { HasFailed kinds.NotConnected
            (gone_after self.old.failures self.old.last_fault)
            (gone_after self.new.failures self.new.last_fault) }
    {
        self.failures = self.failures.saturating_add(1);
        self.last_fault = Some(ErrorKind::NotConnected);
        ErrorKind::NotConnected
    }
}

impl Tells for GoneConn {
    ghost tells = { Unit {0} };

    ghost told = { λ c. gone_after c.failures c.last_fault };

    fn begin(&mut self) {}

    ghost end_faults = { λ kind. kind ≡ kinds.NotConnected };

    fn local_addr(&mut self) -> Result<SocketAddr, ErrorKind> {
        Err(self.fail())
    }

    fn peer_addr(&mut self) -> Result<SocketAddr, ErrorKind> {
        Err(self.fail())
    }

    fn close(&mut self) -> Result<(), ErrorKind> {
        Ok(())
    }
}

impl Conn for GoneConn {
    ghost blocking_read_faults = { λ kind. kind ≡ kinds.NotConnected };

    ghost blocking_write_faults = { λ told kind. kind ≡ kinds.NotConnected };

    fn read(&mut self, _buffer: &mut [u8]) -> Result<usize, ErrorKind> {
        Err(self.fail())
    }

    fn write(&mut self, _bytes: &[u8]) -> Result<usize, ErrorKind> {
        Err(self.fail())
    }
}

impl PollConn<()> for GoneConn {
    ghost may_wait = { ⊥ };

    ghost read_faults = { λ kind. kind ≡ kinds.NotConnected };

    ghost write_faults = { λ told kind. kind ≡ kinds.NotConnected };

    fn poll_read(&mut self, _w: &mut (), _buffer: &mut [u8]) -> Result<Poll<usize>, ErrorKind> {
        Err(self.fail())
    }

    fn poll_write(&mut self, _w: &mut (), _bytes: &[u8]) -> Result<Poll<usize>, ErrorKind> {
        Err(self.fail())
    }
}

//! A stream of TLS over memory: it holds its connection, and has another one for what goes over it in clear.

ghost use Rattle.std.specs.Prelude.{◌≡◌, refl};
ghost use Rattle.rows_tls.specs.Sealed.{given_back};

use ftp_base::types::{FtpError, FtpResult};
use ftp_secure::TlsStream;
use ftp_transport::{Conn, Tells};
use std::io::ErrorKind;
use std::net::SocketAddr;

/// A stream over a connection over memory. What is read and written in clear goes to another one.
#[derive(Drop)]
pub struct Sealed<C> {
    /// The connection below.
    pub conn: C,
    /// What is read and written in clear.
    pub clear: C,
    // Whether it can't give its connection back.
    pub(crate) stuck: bool,
}

impl<C: Tells + Drop> Tells for Sealed<C> {
    ghost tells = { C.tells };

    ghost told = { λ s. C.told s.clear };

    fn begin(&mut self) {
        self.clear.begin();
    }

    ghost end_faults = { C.end_faults };

    fn local_addr(&mut self) -> Result<SocketAddr, ErrorKind> {
        self.clear.local_addr()
    }

    fn peer_addr(&mut self) -> Result<SocketAddr, ErrorKind> {
        self.clear.peer_addr()
    }

    fn close(&mut self) -> Result<(), ErrorKind> {
        self.clear.close()
    }
}

impl<C: Conn + Drop> Conn for Sealed<C> {
    ghost blocking_read_faults = { C.blocking_read_faults };

    ghost blocking_write_faults = { C.blocking_write_faults };

    fn read(&mut self, buffer: &mut [u8]) -> Result<usize, ErrorKind> {
        self.clear.read(buffer)
    }

    fn write(&mut self, bytes: &[u8]) -> Result<usize, ErrorKind> {
        self.clear.write(bytes)
    }
}

impl<C: Tells + Drop> TlsStream<C> for Sealed<C> {
    ghost below = { λ s. s.conn };

    ghost gives = { λ s result. result ≡ given_back s.stuck (C.told s.conn) };

    ghost with_below = { λ s conn. record s { conn = conn } };

    ghost stays_below = { λ _ _. refl };

    fn tcp_stream(self) -> FtpResult<C> {
        let Sealed { conn, stuck, .. } = self;
        if stuck {
            drop(conn);
            return Err(FtpError::BadResponse);
        }
        Ok(conn)
    }

    fn get_ref(&self) -> &C {
        &self.conn
    }

    fn mut_ref(&mut self) -> &mut C {
        &mut self.conn
    }

    fn is_recorded(&self) -> bool {
        true
    }
}

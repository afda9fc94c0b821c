//! A blocking client under TLS.

use super::ImplFtpStream;
use ftp_base::encoding::Encoding;
use ftp_base::types::FtpResult;
use ftp_secure::{SecureTransport, Secured, TlsConnector};
use ftp_session::session::Session;
use ftp_transport::{Conn, TcpConn, TcpTransport};
use std::net::{Net, SocketAddr, TcpListener, TcpStream};
use std::sync::Wait;
use std::time::Clock;

impl<Tr: SecureTransport<K>, K: Drop, E: Encoding, B: Drop> ImplFtpStream<Tr, K, E, B>
where
    Tr::Conn: Conn,
{
    /// Puts the control connection under TLS, to a server of this name: `AUTH TLS` (234), the connector's handshake,
    /// `PBSZ 0` (200) and `PROT P` (200; RFC 4217, sections 4 and 9). Data connections are put under TLS from then on.
    /// The client's transport is one that can be, as `Secured`.
    ///
    /// # Errors
    /// `DataConnectionAlreadyOpen` where a transfer is live, and nothing is sent; those of a command and its reply;
    /// `SecureError` with the connector's text. The client is dropped.
    pub fn into_secure<R: Wait + AllocGlobal>(
        self,
        rt: &R,
        connector: K,
        domain: &str,
    ) -> FtpResult<Self> {
        let secured = self
            .session
            .lock(rt)
            .into_secure(rt.alloc(), connector, domain);
        match secured {
            Ok(()) => Ok(self),
            Err(fault) => Err(fault),
        }
    }

    /// Takes the control connection from under TLS: `CCC` (200; RFC 2228, section 3). Data connections stay under it.
    ///
    /// # Errors
    /// `DataConnectionAlreadyOpen` where a transfer is live, and nothing is sent; those of a command and its reply; the
    /// stream's error, where it can't give its connection back. The client is dropped.
    pub fn clear_command_channel<R: Wait + AllocGlobal>(self, rt: &R) -> FtpResult<Self> {
        let cleared = self.session.lock(rt).clear_command_channel(rt.alloc());
        match cleared {
            Ok(()) => Ok(self),
            Err(fault) => Err(fault),
        }
    }
}

impl<K: TlsConnector<TcpConn>, E: Encoding, B: Drop> ImplFtpStream<
    Secured<TcpTransport, K>,
    K,
    E,
    B,
>
where
    K::Stream: Conn,
{
    /// A client under TLS from its first byte on: connects to the first of these addresses that accepts, puts the connection
    /// under TLS, to a server of this name, and reads the greeting (220) on it. Data connections are put under TLS from then
    /// on; neither `PBSZ` nor `PROT` is sent.
    ///
    /// # Errors
    /// Those of `connect`; `SecureError` with the connector's text.
    pub fn connect_secure_implicit<R>(
        rt: &R,
        addresses: &[SocketAddr],
        connector: K,
        domain: &str,
    ) -> FtpResult<Self>
    where
        R: Net<Listener = TcpListener, Stream = TcpStream> + Clock + AllocGlobal,
    {
        let alloc = rt.alloc();
        let transport = Secured::new(alloc, TcpTransport::new());
        let session = Session::connect_secure_implicit(
            alloc, rt, transport, addresses, connector, domain,
        )?;
        Self::new(alloc, session)
    }
}

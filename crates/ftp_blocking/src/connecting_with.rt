//! Clients that are made by their options, and logged in.

use super::{ImplFtpStream, OverTcp};
use ftp_base::encoding::Encoding;
use ftp_base::types::FtpResult;
use ftp_session::session::{NoTlsConnector, Session};
use ftp_shared::ConnectOptions;
use ftp_transport::{Conn, TcpTransport, Transport};
use std::net::{Net, SocketAddr, TcpListener, TcpStream, ToSocketAddrs};
use std::sync::Wait;
use std::time::Clock;

impl<Tr: OverTcp, E: Encoding, B: Drop> ImplFtpStream<Tr, NoTlsConnector, E, B>
where
    Tr::Conn: Conn,
{
    /// A client that is connected, logged in and set as these options have it: the greeting (220), `USER` (230, 331) and
    /// `PASS` (230), `TYPE` (200; RFC 959, sections 4.1.1 and 4.1.2), and what `use_utf8` sends, where they ask
    /// for that. A program whose client has failed gets the same one anew by it. The login goes out in clear.
    ///
    /// # Errors
    /// Those of `connect_to_within`, `login`, `transfer_type` and `use_utf8`. The connection is closed then.
    pub fn connect_with<R>(rt: &R, options: &ConnectOptions) -> FtpResult<Self>
    where
        R: Net<Listener = TcpListener, Stream = TcpStream> + Clock + Wait + AllocGlobal,
        Tr: Transport<R>,
    {
        let client = Self::connected(rt, options)?;
        client.login(rt, options.user(), options.password())?;
        client.transfer_type(rt, options.file_type().clone()?)?;
        if options.uses_utf8() {
            client.use_utf8(rt)?;
        }
        Ok(client)
    }

    /// The client once it is connected.
    fn connected<R>(rt: &R, options: &ConnectOptions) -> FtpResult<Self>
    where
        R: Net<Listener = TcpListener, Stream = TcpStream> + Clock + AllocGlobal,
        Tr: Transport<R>,
    {
        let alloc = rt.alloc();
        let addresses: Vec<SocketAddr> = options.address().to_socket_addrs(rt)?.collect(alloc)?;
        let limit = options.limit();
        let transport = Tr::over_tcp(alloc, TcpTransport::with_limits(limit, limit, limit));
        let mut session = if options.is_lenient() {
            Session::connect_lenient(alloc, rt, transport, &addresses)?
        } else {
            Session::connect(alloc, rt, transport, &addresses)?
        };
        session.set_mode(options.mode());
        Self::new(alloc, session)
    }
}

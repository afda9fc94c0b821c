//! Clients over TCP sockets, in clear or with TLS over them.

use super::ImplFtpStream;
use ftp_base::encoding::Encoding;
use ftp_base::types::{FtpResult, Mode};
use ftp_secure::{DataStream, Secured, TlsConnector};
use ftp_session::session::Session;
use ftp_transport::{Conn, Network, TcpConn, TcpTransport, Transport};
use std::alloc::Global;
use std::net::{Net, SocketAddr, TcpListener, TcpStream, ToSocketAddrs};
use std::time::{Clock, Duration};

/// A transport over TCP sockets: as they are, or with TLS over them.
pub trait OverTcp: Network {
    /// The transport over this one.
    fn over_tcp(alloc: Global, transport: TcpTransport) -> Self
    where
        Self: Sized;

    /// A connection over a socket that is connected.
    fn over_socket(stream: TcpStream) -> Self::Conn;
}

impl OverTcp for TcpTransport {
    fn over_tcp(_alloc: Global, transport: TcpTransport) -> TcpTransport {
        transport
    }

    fn over_socket(stream: TcpStream) -> TcpConn {
        TcpConn::new(stream)
    }
}

impl<K: TlsConnector<TcpConn>> OverTcp for Secured<TcpTransport, K> {
    fn over_tcp(alloc: Global, transport: TcpTransport) -> Secured<TcpTransport, K> {
        Secured::new(alloc, transport)
    }

    fn over_socket(stream: TcpStream) -> DataStream<TcpConn, K::Stream> {
        DataStream::Tcp(TcpConn::new(stream))
    }
}

impl<Tr: OverTcp, K: Drop, E: Encoding, B: Drop> ImplFtpStream<Tr, K, E, B>
where
    Tr::Conn: Conn,
{
    /// A client on the first of these addresses that accepts, in their order, once the server's greeting (220)
    /// was read (RFC 959, section 5.4). Over [`Secured`] it is one that may be put under TLS.
    ///
    /// # Errors
    /// The last address's error where each failed, `NoAddress` where there is none; those of a read of one reply, and
    /// `OutOfMemory`. The connection is closed then.
    pub fn connect<R>(rt: &R, addresses: &[SocketAddr]) -> FtpResult<Self>
    where
        R: Net<Listener = TcpListener, Stream = TcpStream> + Clock + AllocGlobal,
        Tr: Transport<R>,
    {
        let alloc = rt.alloc();
        let transport = Tr::over_tcp(alloc, TcpTransport::new());
        let session = Session::connect(alloc, rt, transport, addresses)?;
        Self::new(alloc, session)
    }

    /// The same of an address as text, as `192.0.2.7:21`, `[2001:db8::7]:21` or `ftp.example.org:21`: a host and a port,
    /// which is 21 of most servers (RFC 959, section 5.2). A name is looked up first, and its addresses are tried in turn.
    /// The client begins in `Mode::Automatic`.
    ///
    /// # Errors
    /// Those of `connect`; before them the error of the look-up, or `Io(InvalidInput)` where the text is no address.
    pub fn connect_to<R>(rt: &R, address: &str) -> FtpResult<Self>
    where
        R: Net<Listener = TcpListener, Stream = TcpStream> + Clock + AllocGlobal,
        Tr: Transport<R>,
    {
        let addresses: Vec<SocketAddr> = address.to_socket_addrs(rt)?.collect(rt.alloc())?;
        Self::connect_over(rt, TcpTransport::new(), &addresses)
    }

    /// The same, where none of the client's waits for the server is longer than this, as by `connect_within`. The look-up of
    /// a name has no limit.
    ///
    /// # Errors
    /// Those of `connect_to` and of `connect_within`.
    pub fn connect_to_within<R>(rt: &R, address: &str, limit: Duration) -> FtpResult<Self>
    where
        R: Net<Listener = TcpListener, Stream = TcpStream> + Clock + AllocGlobal,
        Tr: Transport<R>,
    {
        let addresses: Vec<SocketAddr> = address.to_socket_addrs(rt)?.collect(rt.alloc())?;
        Self::connect_within(rt, &addresses, limit)
    }

    /// The same, where replies are read leniently from the greeting on: for servers that end a reply of several lines
    /// with another code than it began with.
    ///
    /// # Errors
    /// Those of `connect`.
    pub fn connect_lenient<R>(rt: &R, addresses: &[SocketAddr]) -> FtpResult<Self>
    where
        R: Net<Listener = TcpListener, Stream = TcpStream> + Clock + AllocGlobal,
        Tr: Transport<R>,
    {
        let alloc = rt.alloc();
        let transport = Tr::over_tcp(alloc, TcpTransport::new());
        let session = Session::connect_lenient(alloc, rt, transport, addresses)?;
        Self::new(alloc, session)
    }

    /// The same over the caller's transport, as one with time limits (`TcpTransport::with_limits`), which makes the data
    /// connections, too. The client begins in `Mode::Automatic`.
    ///
    /// # Errors
    /// Those of `connect`; `Io(TimedOut)` where a limit passes, and `Io(InvalidInput)` where one is zero.
    pub fn connect_over<R>(
        rt: &R,
        transport: TcpTransport,
        addresses: &[SocketAddr],
    ) -> FtpResult<Self>
    where
        R: Net<Listener = TcpListener, Stream = TcpStream> + Clock + AllocGlobal,
        Tr: Transport<R>,
    {
        let alloc = rt.alloc();
        let transport = Tr::over_tcp(alloc, transport);
        let mut session = Session::connect(alloc, rt, transport, addresses)?;
        session.set_mode(Mode::Automatic);
        Self::new(alloc, session)
    }

    /// A client none of whose waits for the server is longer than this: to connect to one of these addresses, to read or to
    /// write, on the control connection and on data connections, from the greeting (220) to the end of the client. It begins
    /// in `Mode::Automatic`.
    ///
    /// # Errors
    /// Those of `connect`; `Io(TimedOut)` where a connect or a read of the greeting takes longer; `Io(InvalidInput)` of a
    /// limit of zero. Later calls fail with `Io(TimedOut)` where they wait longer.
    pub fn connect_within<R>(rt: &R, addresses: &[SocketAddr], limit: Duration) -> FtpResult<Self>
    where
        R: Net<Listener = TcpListener, Stream = TcpStream> + Clock + AllocGlobal,
        Tr: Transport<R>,
    {
        let limit = Some(limit);
        let transport = TcpTransport::with_limits(limit, limit, limit);
        Self::connect_over(rt, transport, addresses)
    }

    /// A client on this address, connected to within this time, once the server's greeting (220) was read. There is no
    /// limit to how long the greeting is waited for. No time at all asks for no connection.
    ///
    /// # Errors
    /// `TimedOut` where the time passed or was zero; the address's error; those of a read of one reply, and
    /// `OutOfMemory`. The connection is closed then.
    pub fn connect_timeout<R>(rt: &R, address: SocketAddr, limit: Duration) -> FtpResult<Self>
    where
        R: Net<Listener = TcpListener, Stream = TcpStream> + Clock + AllocGlobal,
        Tr: Transport<R>,
    {
        let alloc = rt.alloc();
        let transport = Tr::over_tcp(alloc, TcpTransport::new());
        let session = Session::connect_timeout(alloc, rt, transport, address, limit)?;
        Self::new(alloc, session)
    }

    /// A client over a socket that is connected, once the server's greeting (220) was read (RFC 959, section 5.4).
    ///
    /// # Errors
    /// Those of a read of one reply, and `OutOfMemory`. The connection is closed then.
    pub fn connect_with_stream<R: AllocGlobal>(rt: &R, stream: TcpStream) -> FtpResult<Self> {
        let alloc = rt.alloc();
        let transport = Tr::over_tcp(alloc, TcpTransport::new());
        let session = Session::connect_with_stream(alloc, transport, Tr::over_socket(stream))?;
        Self::new(alloc, session)
    }

    /// The same, where replies are read leniently from the greeting on, as by `connect_lenient`.
    ///
    /// # Errors
    /// Those of `connect_with_stream`.
    pub fn connect_with_stream_lenient<R: AllocGlobal>(
        rt: &R,
        stream: TcpStream,
    ) -> FtpResult<Self> {
        let alloc = rt.alloc();
        let transport = Tr::over_tcp(alloc, TcpTransport::new());
        let conn = Tr::over_socket(stream);
        let session = Session::connect_with_stream_lenient(alloc, transport, conn)?;
        Self::new(alloc, session)
    }
}

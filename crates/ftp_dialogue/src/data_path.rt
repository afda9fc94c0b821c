//! How the machine asks its transport, and the caller's builder.
//!
//! Most calls ask nothing, and need no runtime; so the machine is passed what asks for it: a runtime, by which its
//! transport is polled, with the builder, where there is one; or nothing, of which no contract says anything.

ghost use Rattle.std.specs.Prelude.{◌≡◌, ◌<◌, ◌⊎◌, length, None, Ok, Result};
ghost use Rattle.std.specs.declared.net.socket_addr.SocketAddr.{SocketAddr as Address};
ghost use Rattle.ftp_base.specs.declared.types.fault.FtpError.{FtpError as Faults};
ghost use Rattle.ftp_transport.specs.Told.{ReadTells, ReadsAtMost, Told, WriteTells, WritesSome};
ghost use Rattle.ftp_dialogue.specs.Link.{built_by};
ghost use Rattle.futures.specs.declared.task.Poll.TheVariants as poll;
ghost use Rattle.ftp_transport.specs.Asking.{Asks as Records, Secures, Supplies, built_as, comes_as, connects_as, done, done_at};
ghost use Rattle.ftp_transport.specs.declared.request.Request.TheVariants.{Accept, Connect, Listen};

use ftp_base::types::{ConnectionError, FtpError, FtpResult};
use ftp_transport::{
    Accepted, Conn, Connected, Handshaken, Listening, Network, PassiveStreamBuilder, PollConn,
    PollTransport,
};
use futures::task::Poll;
use std::alloc::AllocError;
use std::io::ErrorKind;
use std::net::SocketAddr;
use std::time::Duration;

/// What asks a transport, and a builder, for the machine.
pub trait DataPath<Tr: Network, W> {
    /// Whether it may be used.
    ghost may_ask: { Type 0 };

    /// Whether a request may have to wait.
    ghost may_wait: { Type 0 };

    /// What the builder may return for an address.
    ghost builds: { Self → Address → Result Told Faults → Type 0 };

    /// Asks the builder for a connection to this address.
    fn build(&self, address: SocketAddr) -> FtpResult<Tr::Conn>
        ensures builds { may_ask → builds self.now address (built_as Tr.Conn.told result) };

    /// Asks for a connection to this address.
    fn connect(
        &self,
        transport: &mut Tr,
        w: &mut W,
        address: SocketAddr,
    ) -> Poll<Connected<Tr::Conn>>
        ensures waits { may_ask → result ≡ poll.Pending → may_wait }
        ensures asks { may_ask → Tr.Conn.tells → Records (Connect address None) done result
            (Tr.asked transport.old) (Tr.asked transport.new) }
        ensures supplies { may_ask → Tr.Conn.tells → Supplies (connects_as Tr.Conn.told) Tr.refuses
            result (Tr.ready transport.old) (Tr.ready transport.new) }
        ensures closed { Tr.closed transport.new ≡ Tr.closed transport.old }
        ensures room { Tr.has_room transport.old → Tr.has_room transport.new };

    /// Asks for a listener on this address.
    fn listen(
        &self,
        transport: &mut Tr,
        w: &mut W,
        address: SocketAddr,
    ) -> Poll<Listening<Tr::Listener>>
        ensures waits { may_ask → result ≡ poll.Pending → may_wait }
        ensures asks { may_ask → Tr.Conn.tells → Records (Listen address) done_at result
            (Tr.asked transport.old) (Tr.asked transport.new) }
        ensures ready { may_ask → Tr.ready transport.new ≡ Tr.ready transport.old }
        ensures closed { Tr.closed transport.new ≡ Tr.closed transport.old }
        ensures room { Tr.has_room transport.old → Tr.has_room transport.new };

    /// Asks for a peer's connection.
    fn accept(
        &self,
        transport: &mut Tr,
        w: &mut W,
        listener: &mut Tr::Listener,
        deadline: Duration,
    ) -> Poll<Accepted<Tr::Conn>>
        ensures waits { may_ask → result ≡ poll.Pending → may_wait }
        ensures asks { may_ask → Tr.Conn.tells → Records (Accept deadline) done_at result
            (Tr.asked transport.old) (Tr.asked transport.new) }
        ensures supplies { may_ask → Tr.Conn.tells → Supplies (comes_as Tr.Conn.told)
            Tr.accept_refuses result (Tr.ready transport.old) (Tr.ready transport.new) }
        ensures closed { Tr.closed transport.new ≡ Tr.closed transport.old }
        ensures room { Tr.has_room transport.old → Tr.has_room transport.new };

    /// Asks for a data connection to be put under TLS; where none is handed over, for the handshake that waited.
    fn secure(
        &self,
        transport: &mut Tr,
        w: &mut W,
        conn: Option<Tr::Conn>,
    ) -> Poll<Handshaken<Tr::Conn>>
        ensures waits { may_ask → result ≡ poll.Pending → may_wait }
        ensures secures { may_ask → Tr.Conn.tells →
            Secures Tr.Conn.told Tr.Conn.secures result }
        ensures asked { may_ask → Tr.asked transport.new ≡ Tr.asked transport.old }
        ensures ready { may_ask → Tr.ready transport.new ≡ Tr.ready transport.old }
        ensures closed { Tr.closed transport.new ≡ Tr.closed transport.old }
        ensures room { Tr.has_room transport.old → Tr.has_room transport.new };

    /// Reads bytes of a data connection into the front of the buffer. 0 bytes are their end.
    fn read(
        &self,
        conn: &mut Tr::Conn,
        w: &mut W,
        buffer: &mut [u8],
    ) -> Result<Poll<usize>, ErrorKind>
        requires { 0 < length buffer.old }
        ensures bound { may_ask → ReadsAtMost result (length buffer.old) }
        ensures waits { may_ask → result ≡ Ok poll.Pending → may_wait }
        ensures told { may_ask → Tr.Conn.tells →
            ReadTells result buffer.new (Tr.Conn.told conn.old) (Tr.Conn.told conn.new) };

    /// Writes bytes to a data connection, from the front, at least one.
    fn write(&self, conn: &mut Tr::Conn, w: &mut W, bytes: &[u8]) -> Result<Poll<usize>, ErrorKind>
        requires { 0 < length bytes.now }
        ensures bound { may_ask → WritesSome result (length bytes.now) }
        ensures waits { may_ask → result ≡ Ok poll.Pending → may_wait }
        ensures told { may_ask → Tr.Conn.tells →
            WriteTells result bytes.now (Tr.Conn.told conn.old) (Tr.Conn.told conn.new) };
}

/// Asks by a runtime, and a builder, where there is one. Data connections are read and written blocking.
#[derive(Drop)]
pub struct BlockingData<'r, R, B>(pub &'r R, pub &'r Option<B>);

impl<'r, R, W, Tr: PollTransport<R, W>, B: PassiveStreamBuilder<Tr::Conn>> DataPath<Tr, W>
    for BlockingData<'r, R, B>
where
    Tr::Conn: Conn,
{
    ghost may_ask = { Unit {0} };

    ghost may_wait = { Tr.PollTransport.may_wait };

    ghost builds = { λ by. built_by B.PassiveStreamBuilder.answers by.1.now };

    fn build(&self, address: SocketAddr) -> FtpResult<Tr::Conn> {
        match self.1 {
            Some(builder) => builder.build(address),
            None => Err(FtpError::ConnectionError(ConnectionError::NoAddress)),
        }
    }

    fn connect(
        &self,
        transport: &mut Tr,
        w: &mut W,
        address: SocketAddr,
    ) -> Poll<Connected<Tr::Conn>> {
        transport.poll_connect(self.0, w, address, None)
    }

    fn listen(
        &self,
        transport: &mut Tr,
        w: &mut W,
        address: SocketAddr,
    ) -> Poll<Listening<Tr::Listener>> {
        transport.poll_listen(self.0, w, address)
    }

    fn accept(
        &self,
        transport: &mut Tr,
        w: &mut W,
        listener: &mut Tr::Listener,
        deadline: Duration,
    ) -> Poll<Accepted<Tr::Conn>> {
        transport.poll_accept(self.0, w, listener, deadline)
    }

    fn secure(
        &self,
        transport: &mut Tr,
        w: &mut W,
        conn: Option<Tr::Conn>,
    ) -> Poll<Handshaken<Tr::Conn>>
        ensures waits { result ≡ poll.Pending → Tr.PollTransport.may_wait }
        ensures secures { Tr.Conn.tells → Secures Tr.Conn.told Tr.Conn.secures result }
        ensures asked { Tr.asked transport.new ≡ Tr.asked transport.old }
        ensures ready { Tr.ready transport.new ≡ Tr.ready transport.old }
        ensures closed { Tr.closed transport.new ≡ Tr.closed transport.old }
        ensures room { Tr.has_room transport.old → Tr.has_room transport.new }
    {
        match conn {
            Some(conn) => transport.poll_secure(self.0, w, conn),
            None => transport.poll_secured(self.0, w),
        }
    }

    fn read(
        &self,
        conn: &mut Tr::Conn,
        _w: &mut W,
        buffer: &mut [u8],
    ) -> Result<Poll<usize>, ErrorKind> {
        match conn.read(buffer) {
            Ok(count) => Ok(Poll::Ready(count)),
            Err(kind) => Err(kind),
        }
    }

    fn write(
        &self,
        conn: &mut Tr::Conn,
        _w: &mut W,
        bytes: &[u8],
    ) -> Result<Poll<usize>, ErrorKind> {
        match conn.write(bytes) {
            Ok(count) => Ok(Poll::Ready(count)),
            Err(kind) => Err(kind),
        }
    }
}

/// Asks as `BlockingData` does, and reads and writes data connections by polls, which may have to wait.
#[derive(Drop)]
pub struct PolledData<'r, R, B>(pub &'r R, pub &'r Option<B>);

impl<'r, R, W, Tr: PollTransport<R, W>, B: PassiveStreamBuilder<Tr::Conn>> DataPath<Tr, W>
    for PolledData<'r, R, B>
where
    Tr::Conn: PollConn<W>,
{
    ghost may_ask = { Unit {0} };

    ghost may_wait = { Tr.PollTransport.may_wait ⊎ Tr.Conn.PollConn.may_wait };

    ghost builds = { λ by. built_by B.PassiveStreamBuilder.answers by.1.now };

    fn build(&self, address: SocketAddr) -> FtpResult<Tr::Conn> {
        match self.1 {
            Some(builder) => builder.build(address),
            None => Err(FtpError::ConnectionError(ConnectionError::NoAddress)),
        }
    }

    fn connect(
        &self,
        transport: &mut Tr,
        w: &mut W,
        address: SocketAddr,
    ) -> Poll<Connected<Tr::Conn>> {
        transport.poll_connect(self.0, w, address, None)
    }

    fn listen(
        &self,
        transport: &mut Tr,
        w: &mut W,
        address: SocketAddr,
    ) -> Poll<Listening<Tr::Listener>> {
        transport.poll_listen(self.0, w, address)
    }

    fn accept(
        &self,
        transport: &mut Tr,
        w: &mut W,
        listener: &mut Tr::Listener,
        deadline: Duration,
    ) -> Poll<Accepted<Tr::Conn>> {
        transport.poll_accept(self.0, w, listener, deadline)
    }

    fn secure(
        &self,
        transport: &mut Tr,
        w: &mut W,
        conn: Option<Tr::Conn>,
    ) -> Poll<Handshaken<Tr::Conn>>
        ensures waits { result ≡ poll.Pending →
            Tr.PollTransport.may_wait ⊎ Tr.Conn.PollConn.may_wait }
        ensures secures { Tr.Conn.tells → Secures Tr.Conn.told Tr.Conn.secures result }
        ensures asked { Tr.asked transport.new ≡ Tr.asked transport.old }
        ensures ready { Tr.ready transport.new ≡ Tr.ready transport.old }
        ensures closed { Tr.closed transport.new ≡ Tr.closed transport.old }
        ensures room { Tr.has_room transport.old → Tr.has_room transport.new }
    {
        match conn {
            Some(conn) => transport.poll_secure(self.0, w, conn),
            None => transport.poll_secured(self.0, w),
        }
    }

    fn read(
        &self,
        conn: &mut Tr::Conn,
        w: &mut W,
        buffer: &mut [u8],
    ) -> Result<Poll<usize>, ErrorKind> {
        conn.poll_read(w, buffer)
    }

    fn write(
        &self,
        conn: &mut Tr::Conn,
        w: &mut W,
        bytes: &[u8],
    ) -> Result<Poll<usize>, ErrorKind> {
        conn.poll_write(w, bytes)
    }
}

/// Asks nothing: what the calls are passed that open no data connection.
#[derive(Drop)]
pub struct NoData;

impl<Tr: Network, W> DataPath<Tr, W> for NoData {
    ghost may_ask = { ⊥ };

    ghost may_wait = { ⊥ };

    ghost builds = { λ _ _ _. ⊥ };

    fn build(&self, _address: SocketAddr) -> FtpResult<Tr::Conn> {
        Err(FtpError::ConnectionError(ConnectionError::NoAddress))
    }

    fn connect(
        &self,
        _transport: &mut Tr,
        _w: &mut W,
        _address: SocketAddr,
    ) -> Poll<Connected<Tr::Conn>> {
        Poll::Ready(Err(AllocError))
    }

    fn listen(
        &self,
        _transport: &mut Tr,
        _w: &mut W,
        _address: SocketAddr,
    ) -> Poll<Listening<Tr::Listener>> {
        Poll::Ready(Err(AllocError))
    }

    fn accept(
        &self,
        _transport: &mut Tr,
        _w: &mut W,
        _listener: &mut Tr::Listener,
        _deadline: Duration,
    ) -> Poll<Accepted<Tr::Conn>> {
        Poll::Ready(Err(AllocError))
    }

    fn secure(
        &self,
        _transport: &mut Tr,
        _w: &mut W,
        _conn: Option<Tr::Conn>,
    ) -> Poll<Handshaken<Tr::Conn>>
        ensures same { _transport.new ≡ _transport.old }
    {
        Poll::Ready(Err(AllocError))
    }

    fn read(
        &self,
        _conn: &mut Tr::Conn,
        _w: &mut W,
        _buffer: &mut [u8],
    ) -> Result<Poll<usize>, ErrorKind> {
        Err(ErrorKind::Unsupported)
    }

    fn write(
        &self,
        _conn: &mut Tr::Conn,
        _w: &mut W,
        _bytes: &[u8],
    ) -> Result<Poll<usize>, ErrorKind> {
        Err(ErrorKind::Unsupported)
    }
}

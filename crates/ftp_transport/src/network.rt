//! Where connections come from.
//!
//! A session holds a transport beside its control connection, for the connections that it will need later: it asks for
//! one to the server, or listens and accepts the server's. What a transport was asked is on record, as traffic is, and
//! so is what it was handed to return; a data connection that is over is handed back, and kept in that record. There
//! are two ways to wait, a trait each: `Transport` blocks, `PollTransport` says through a `W` that it waits; a blanket
//! impl makes the second of the first, so whatever stands above is written once. Both are passed their runtime, an `R`,
//! which is nothing over memory.

ghost use Rattle.std.specs.Prelude.{◌≡◌, ◌∷◌, ◌++◌, [], ℕ, List, OnErr, OnOk, Result};
ghost use Rattle.std.specs.declared.net.socket_addr.SocketAddr.{SocketAddr as Address};
ghost use Rattle.futures.specs.declared.task.Poll.TheVariants as poll;
ghost use Rattle.ftp_base.specs.declared.types.fault.ConnectionError.{ConnectionError as Fault};
ghost use Rattle.ftp_base.specs.declared.types.fault.FtpError.{FtpError as Failure};
ghost use Rattle.ftp_transport.specs.Asking.{Asks, Binds, Secures, Supplies, comes_as, connects_as, done, done_at, recorded};
ghost use Rattle.ftp_transport.specs.Told.{Told};
ghost use Rattle.ftp_transport.specs.declared.request.Asked.{Asked};
ghost use Rattle.ftp_transport.specs.declared.request.Request.TheVariants.{Accept, Build, Connect, Listen};
ghost use Rattle.ftp_transport.specs.declared.request.RequestOutcome.TheVariants.{Done};
ghost use Rattle.ftp_transport.specs.declared.supply.Supply.{Supply};
ghost use Rattle.std.specs.Prelude.{None, Some};

use super::{NeverWaits, Tells};
use ftp_base::types::{ConnectionError, FtpResult};
use futures::task::Poll;
use std::alloc::AllocError;
use std::net::SocketAddr;
use std::time::Duration;

/// A transport: what a session's connections are made by.
pub trait Network: Drop {
    /// Its connections.
    type Conn: Tells + Drop;

    /// What waits for a peer's connection.
    type Listener: Drop;

    /// What it was asked, and with what outcome, in order.
    ghost asked: { Self → List Asked };

    /// What the next requests that consume an item result in, in order, as far as it was handed in.
    ghost ready: { Self → List Supply };

    /// Which errors a connect may return where none was handed in.
    ghost refuses: { List Supply → Fault → Type 0 };

    /// Which errors an accept may return where none was handed in.
    ghost accept_refuses: { List Supply → Fault → Type 0 };

    /// The port that it was told to listen on, which no request changes.
    ghost port: { Self → ℕ };

    /// What a listen on this address may result in, by that port.
    ghost binds: { ℕ → Address → Result Address Fault → Type 0 };

    /// The data connections that are over, in the order in which they were handed back.
    ghost closed: { Self → List Told };

    /// Whether there is room for the record of one more.
    ghost has_room: { Self → Type 0 };

    /// What putting this connection under TLS may result in: one of this record, or an error. Of a transport without TLS
    /// the connection as it is.
    ghost handshake: { Self → Self.Conn → Result Told Failure → Type 0 };

    /// Makes room for the record of one more data connection.
    ///
    /// # Errors
    /// Where an allocation fails.
    fn make_room(&mut self) -> Result<(), AllocError>
        ensures ok { OnOk result (Self.has_room self.new) }
        ensures room { Self.has_room self.old → Self.has_room self.new }
        ensures asked { Self.asked self.new ≡ Self.asked self.old }
        ensures ready { Self.ready self.new ≡ Self.ready self.old }
        ensures closed { Self.closed self.new ≡ Self.closed self.old }
        ensures port { Self.port self.new ≡ Self.port self.old };

    /// Puts on record that the caller's builder is asked for a connection to this address.
    ///
    /// # Errors
    /// Where an allocation fails, and then it isn't asked.
    fn note_build(&mut self, address: SocketAddr) -> Result<(), AllocError>
        ensures noted { OnOk result (Self.Conn.tells →
            Self.asked self.new ≡ recorded (Build address) Done (Self.asked self.old)) }
        ensures unnoted { OnErr result (Self.asked self.new ≡ Self.asked self.old) }
        ensures ready { Self.ready self.new ≡ Self.ready self.old }
        ensures closed { Self.closed self.new ≡ Self.closed self.old }
        ensures room { Self.has_room self.old → Self.has_room self.new }
        ensures port { Self.port self.new ≡ Self.port self.old };

    /// Takes over a data connection that is over. Where room was made its record is kept, and nothing is allocated.
    fn closed(&mut self, conn: Self::Conn)
        ensures closed { Self.Conn.tells → Self.has_room self.old →
            Self.closed self.new ≡ Self.closed self.old ++ Self.Conn.told conn ∷ [] }
        ensures asked { Self.asked self.new ≡ Self.asked self.old }
        ensures ready { Self.ready self.new ≡ Self.ready self.old }
        ensures port { Self.port self.new ≡ Self.port self.old };
}

/// What a request for a connection results in: the connection, or why there is none. Where an allocation fails
/// nothing was asked.
pub type Connected<C> = Result<Result<C, ConnectionError>, AllocError>;

/// What a request for a listener results in: the listener and the address that it is bound to, or why there is none.
/// Where an allocation fails nothing was asked.
pub type Listening<L> = Result<Result<(L, SocketAddr), ConnectionError>, AllocError>;

/// What a request for a peer's connection results in: the connection and the peer's address, or why there is none.
/// Where an allocation fails nothing was asked.
pub type Accepted<C> = Result<Result<(C, SocketAddr), ConnectionError>, AllocError>;

/// What a TLS handshake results in: the connection under TLS, or why there is none. Where an allocation fails, or
/// there was no connection, none was begun.
pub type Handshaken<C> = Result<FtpResult<C>, AllocError>;

/// A transport whose calls return only when they are done, over a runtime `R`.
pub trait Transport<R>: Network {
    /// Connects to this address.
    fn connect(&mut self, rt: &R, address: SocketAddr) -> Connected<Self::Conn>
        ensures asks { Self.Conn.tells → Asks (Connect address None) done (poll.Ready result)
            (Self.asked self.old) (Self.asked self.new) }
        ensures supplies { Self.Conn.tells → Supplies (connects_as Self.Conn.told) Self.refuses
            (poll.Ready result) (Self.ready self.old) (Self.ready self.new) }
        ensures closed { Self.closed self.new ≡ Self.closed self.old }
        ensures room { Self.has_room self.old → Self.has_room self.new }
        ensures port { Self.port self.new ≡ Self.port self.old };

    /// Connects to this address within this time, which isn't zero.
    fn connect_timeout(
        &mut self,
        rt: &R,
        address: SocketAddr,
        limit: Duration,
    ) -> Connected<Self::Conn>
        ensures asks { Self.Conn.tells → Asks (Connect address (Some limit)) done
            (poll.Ready result) (Self.asked self.old) (Self.asked self.new) }
        ensures supplies { Self.Conn.tells → Supplies (connects_as Self.Conn.told) Self.refuses
            (poll.Ready result) (Self.ready self.old) (Self.ready self.new) }
        ensures closed { Self.closed self.new ≡ Self.closed self.old }
        ensures room { Self.has_room self.old → Self.has_room self.new }
        ensures port { Self.port self.new ≡ Self.port self.old };

    /// Listens on this address, at any free port where its port is 0; the listener comes with the address that it is
    /// bound to.
    ///
    /// # Errors
    /// The system's error; over memory none.
    fn listen(&mut self, rt: &R, address: SocketAddr) -> Listening<Self::Listener>
        ensures asks { Self.Conn.tells → Asks (Listen address) done_at (poll.Ready result)
            (Self.asked self.old) (Self.asked self.new) }
        ensures binds { Self.Conn.tells → Binds (Self.binds (Self.port self.old) address)
            (poll.Ready result) }
        ensures ready { Self.ready self.new ≡ Self.ready self.old }
        ensures closed { Self.closed self.new ≡ Self.closed self.old }
        ensures room { Self.has_room self.old → Self.has_room self.new }
        ensures port { Self.port self.new ≡ Self.port self.old };

    /// Accepts a peer's connection, which comes with the peer's address. The deadline is counted from the listener's
    /// first accept.
    ///
    /// # Errors
    /// `TimedOut` where the deadline has passed; the system's error, or the one that was supplied.
    fn accept(
        &mut self,
        rt: &R,
        listener: &mut Self::Listener,
        deadline: Duration,
    ) -> Accepted<Self::Conn>
        ensures asks { Self.Conn.tells → Asks (Accept deadline) done_at (poll.Ready result)
            (Self.asked self.old) (Self.asked self.new) }
        ensures supplies { Self.Conn.tells → Supplies (comes_as Self.Conn.told) Self.accept_refuses
            (poll.Ready result) (Self.ready self.old) (Self.ready self.new) }
        ensures closed { Self.closed self.new ≡ Self.closed self.old }
        ensures room { Self.has_room self.old → Self.has_room self.new }
        ensures port { Self.port self.new ≡ Self.port self.old };

    /// Puts a data connection under TLS, on the transport of a secure session (RFC 4217, section 9). Any other returns
    /// it as it is.
    ///
    /// # Errors
    /// Why it can't be put under TLS. It is dropped.
    fn secure(&mut self, rt: &R, conn: Self::Conn) -> Handshaken<Self::Conn>
        ensures secures { Self.Conn.tells →
            Secures Self.Conn.told Self.Conn.secures (poll.Ready result) }
        ensures handshake { Secures Self.Conn.told (Self.handshake self.old conn) (poll.Ready
            result) }
        ensures asked { Self.asked self.new ≡ Self.asked self.old }
        ensures ready { Self.ready self.new ≡ Self.ready self.old }
        ensures closed { Self.closed self.new ≡ Self.closed self.old }
        ensures room { Self.has_room self.old → Self.has_room self.new }
        ensures port { Self.port self.new ≡ Self.port self.old };
}

/// A transport that may have to wait, and says so through a `W`. A request that waits is made again until it is ready.
pub trait PollTransport<R, W>: Network {
    /// Whether a request may have to wait.
    ghost may_wait: { Type 0 };

    /// Connects to this address, within this time where there is a limit.
    fn poll_connect(
        &mut self,
        rt: &R,
        w: &mut W,
        address: SocketAddr,
        limit: Option<Duration>,
    ) -> Poll<Connected<Self::Conn>>
        ensures waits { result ≡ poll.Pending → may_wait }
        ensures asks { Self.Conn.tells → Asks (Connect address limit) done result
            (Self.asked self.old) (Self.asked self.new) }
        ensures supplies { Self.Conn.tells → Supplies (connects_as Self.Conn.told) Self.refuses
            result (Self.ready self.old) (Self.ready self.new) }
        ensures closed { Self.closed self.new ≡ Self.closed self.old }
        ensures room { Self.has_room self.old → Self.has_room self.new }
        ensures port { Self.port self.new ≡ Self.port self.old };

    /// Listens on this address, at any free port where its port is 0; the listener comes with the address that it is
    /// bound to.
    ///
    /// # Errors
    /// The system's error; over memory none.
    fn poll_listen(
        &mut self,
        rt: &R,
        w: &mut W,
        address: SocketAddr,
    ) -> Poll<Listening<Self::Listener>>
        ensures waits { result ≡ poll.Pending → may_wait }
        ensures asks { Self.Conn.tells → Asks (Listen address) done_at result
            (Self.asked self.old) (Self.asked self.new) }
        ensures binds { Self.Conn.tells → Binds (Self.binds (Self.port self.old) address) result }
        ensures ready { Self.ready self.new ≡ Self.ready self.old }
        ensures closed { Self.closed self.new ≡ Self.closed self.old }
        ensures room { Self.has_room self.old → Self.has_room self.new }
        ensures port { Self.port self.new ≡ Self.port self.old };

    /// Accepts a peer's connection, which comes with the peer's address. The deadline is counted from the listener's
    /// first accept.
    ///
    /// # Errors
    /// `TimedOut` where the deadline has passed; the system's error, or the one that was supplied.
    fn poll_accept(
        &mut self,
        rt: &R,
        w: &mut W,
        listener: &mut Self::Listener,
        deadline: Duration,
    ) -> Poll<Accepted<Self::Conn>>
        ensures waits { result ≡ poll.Pending → may_wait }
        ensures asks { Self.Conn.tells → Asks (Accept deadline) done_at result
            (Self.asked self.old) (Self.asked self.new) }
        ensures supplies { Self.Conn.tells → Supplies (comes_as Self.Conn.told) Self.accept_refuses
            result (Self.ready self.old) (Self.ready self.new) }
        ensures closed { Self.closed self.new ≡ Self.closed self.old }
        ensures room { Self.has_room self.old → Self.has_room self.new }
        ensures port { Self.port self.new ≡ Self.port self.old };

    /// Puts a data connection under TLS, on the transport of a secure session (RFC 4217, section 9). Any other returns
    /// it as it is. The transport keeps a connection whose handshake waits.
    ///
    /// # Errors
    /// Why it can't be put under TLS. It is dropped.
    fn poll_secure(&mut self, rt: &R, w: &mut W, conn: Self::Conn) -> Poll<Handshaken<Self::Conn>>
        ensures waits { result ≡ poll.Pending → may_wait }
        ensures secures { Self.Conn.tells → Secures Self.Conn.told Self.Conn.secures result }
        ensures handshake { Secures Self.Conn.told (Self.handshake self.old conn) result }
        ensures asked { Self.asked self.new ≡ Self.asked self.old }
        ensures ready { Self.ready self.new ≡ Self.ready self.old }
        ensures closed { Self.closed self.new ≡ Self.closed self.old }
        ensures room { Self.has_room self.old → Self.has_room self.new }
        ensures port { Self.port self.new ≡ Self.port self.old };

    /// Resumes the handshake that waited.
    ///
    /// # Errors
    /// Those of `poll_secure`.
    fn poll_secured(&mut self, rt: &R, w: &mut W) -> Poll<Handshaken<Self::Conn>>
        ensures waits { result ≡ poll.Pending → may_wait }
        ensures secures { Self.Conn.tells → Secures Self.Conn.told Self.Conn.secures result }
        ensures asked { Self.asked self.new ≡ Self.asked self.old }
        ensures ready { Self.ready self.new ≡ Self.ready self.old }
        ensures closed { Self.closed self.new ≡ Self.closed self.old }
        ensures room { Self.has_room self.old → Self.has_room self.new }
        ensures port { Self.port self.new ≡ Self.port self.old };
}

impl<R, T: Transport<R>> PollTransport<R, NeverWaits> for T {
    ghost may_wait = { ⊥ };

    fn poll_connect(
        &mut self,
        rt: &R,
        _w: &mut NeverWaits,
        address: SocketAddr,
        limit: Option<Duration>,
    ) -> Poll<Connected<T::Conn>> {
        match limit {
            None => Poll::Ready(self.connect(rt, address)),
            Some(limit) => Poll::Ready(self.connect_timeout(rt, address, limit)),
        }
    }

    fn poll_listen(
        &mut self,
        rt: &R,
        _w: &mut NeverWaits,
        address: SocketAddr,
    ) -> Poll<Listening<T::Listener>> {
        Poll::Ready(self.listen(rt, address))
    }

    fn poll_accept(
        &mut self,
        rt: &R,
        _w: &mut NeverWaits,
        listener: &mut T::Listener,
        deadline: Duration,
    ) -> Poll<Accepted<T::Conn>> {
        Poll::Ready(self.accept(rt, listener, deadline))
    }

    fn poll_secure(
        &mut self,
        rt: &R,
        _w: &mut NeverWaits,
        conn: T::Conn,
    ) -> Poll<Handshaken<T::Conn>> {
        Poll::Ready(self.secure(rt, conn))
    }

    fn poll_secured(&mut self, _rt: &R, _w: &mut NeverWaits) -> Poll<Handshaken<T::Conn>> {
        Poll::Ready(Err(AllocError))
    }
}

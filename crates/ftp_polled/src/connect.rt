//! The state of a client that connects.

ghost use Rattle.futures.specs.Poll.{OnPending};
ghost use Rattle.futures.specs.Task.{IsArmed, Keeps};

use crate::client::ImplAsyncFtpStream;
use crate::from_answer::FromAnswer;
use crate::waiting::wait;
use ftp_base::encoding::Encoding;
use ftp_base::types::{ConnectionError, FtpError, FtpResult, Mode};
use ftp_secure::SecureNetwork;
use ftp_session::session::{Call, PolledCall, PollsCalls, Session, secure_data};
use ftp_transport::{
    PassiveStreamBuilder, PollConn, PollTransport, TaskConn, TaskTransport, Tried,
    poll_connect_in_turn,
};
use futures::Future;
use futures::task::{Context, Poll};
use std::alloc::{AllocError, Global};
use std::mem;
use std::net::{Net, SocketAddr, ToSocketAddrs};
use std::time::Duration;

/// A client connects: its addresses are tried in turn, and the greeting (220) is read on the first that connects.
///
/// Dropped, it closes what was made.
pub struct Connect<'r, R, Tr: TaskTransport, K: Drop, E: Encoding, B: Drop>
where
    Tr::Conn: TaskConn,
{
    rt: &'r R,
    // The transport, until a session has it.
    transport: Option<Tr>,
    // None where there was no memory for them.
    addresses: Option<Vec<SocketAddr>>,
    limit: Option<Duration>,
    tried: Tried,
    // Whether replies are read leniently.
    lenient: bool,
    // Who is to open data connections.
    mode: Mode,
    // Whether the connection is put under TLS before the greeting, by the connector that the transport keeps.
    secures: bool,
    // Whether that has begun, and waits.
    shakes: bool,
    session: Option<Session<Tr, K, E, B>>,
    // Why there is no session, until it is returned.
    fault: Option<FtpError>,
    greeting: PolledCall,
}

impl<R, Tr: TaskTransport, K: Drop, E: Encoding, B: Drop> Drop for Connect<'_, R, Tr, K, E, B>
where
    Tr::Conn: TaskConn,
{
    fn drop(self) {
        let Self {
            rt: _,
            transport,
            addresses,
            limit: _,
            tried: _,
            lenient: _,
            mode: _,
            secures: _,
            shakes: _,
            session,
            fault,
            greeting,
        } = self;
        drop(transport);
        drop(addresses);
        drop(session);
        drop(fault);
        drop(greeting);
    }
}

impl<'r, R: AllocGlobal, Tr: TaskTransport, K: Drop, E: Encoding, B: Drop> Connect<
    'r,
    R,
    Tr,
    K,
    E,
    B,
>
where
    Tr::Conn: TaskConn,
{
    /// A state that connects to these addresses. Where none connects the last error is returned, or else this one.
    fn new(
        rt: &'r R,
        transport: Tr,
        addresses: &[SocketAddr],
        limit: Option<Duration>,
        fault: ConnectionError,
        lenient: bool,
    ) -> Self {
        Connect {
            rt,
            transport: Some(transport),
            addresses: Vec::from_slice(rt.alloc(), addresses).ok(),
            limit,
            tried: Tried { count: 0, fault },
            lenient,
            mode: Mode::Passive,
            secures: false,
            shakes: false,
            session: None,
            fault: None,
            greeting: PolledCall::alone(Call::Greet),
        }
    }

    /// The state, for a client of this mode, which reads replies leniently or not.
    pub(crate) fn begun_in(mut self, mode: Mode, lenient: bool) -> Self {
        self.mode = mode;
        self.lenient = lenient;
        self
    }

    /// A state that reads the greeting of a session.
    fn over(rt: &'r R, made: FtpResult<Session<Tr, K, E, B>>) -> Self {
        let (session, fault) = match made {
            Ok(session) => (Some(session), None),
            Err(fault) => (None, Some(fault)),
        };
        Connect {
            rt,
            transport: None,
            addresses: None,
            limit: None,
            tried: Tried {
                count: 0,
                fault: ConnectionError::NoAddress,
            },
            lenient: false,
            mode: Mode::Passive,
            secures: false,
            shakes: false,
            session,
            fault,
            greeting: PolledCall::alone(Call::Greet),
        }
    }
}

impl<'r, R: AllocGlobal, Tr, K: Drop, E: Encoding, B> Connect<'r, R, Tr, K, E, B>
where
    Tr: PollTransport<R, ()> + TaskTransport,
    Tr::Conn: PollConn<()> + TaskConn,
    B: PassiveStreamBuilder<Tr::Conn>,
{
    /// Continues to connect.
    fn poll_conn(&mut self, cx: &mut Context<'_>) -> Poll<FtpResult<()>>
        ensures registered { OnPending result (IsArmed cx.new) }
        ensures kept { Keeps cx.old cx.new }
    {
        if self.shakes {
            return self.poll_under(None, cx);
        }
        let (Some(transport), Some(addresses)) = (&mut self.transport, &self.addresses) else {
            return Poll::Ready(Err(FtpError::OutOfMemory));
        };
        if self.tried.count > addresses.len() {
            return Poll::Ready(Err(FtpError::OutOfMemory));
        }
        match poll_connect_in_turn(
            transport,
            self.rt,
            &mut (),
            addresses.as_slice(),
            self.limit,
            &mut self.tried,
        ) {
            Poll::Ready(Ok(Ok(conn))) if self.secures => self.poll_under(Some(conn), cx),
            Poll::Ready(made) => Poll::Ready(self.begin(made)),
            Poll::Pending => transport.poll_connect_ready(cx).wait(cx),
        }
    }

    /// Continues to put the connection under TLS, which begins where one is handed over.
    fn poll_under(&mut self, conn: Option<Tr::Conn>, cx: &mut Context<'_>) -> Poll<FtpResult<()>>
        ensures registered { OnPending result (IsArmed cx.new) }
        ensures kept { Keeps cx.old cx.new }
    {
        let Some(transport) = &mut self.transport else {
            return Poll::Ready(Err(FtpError::ConnectionError(ConnectionError::AlreadyCompleted)));
        };
        let polled = match conn {
            Some(conn) => transport.poll_secure(self.rt, &mut (), conn),
            None => transport.poll_secured(self.rt, &mut ()),
        };
        match polled {
            Poll::Ready(Ok(Ok(conn))) => Poll::Ready(self.begin(Ok(Ok(conn)))),
            Poll::Ready(Ok(Err(fault))) => Poll::Ready(Err(fault)),
            Poll::Ready(Err(AllocError)) => Poll::Ready(Err(FtpError::OutOfMemory)),
            Poll::Pending => {
                self.shakes = true;
                transport.poll_secure_ready(cx).wait(cx)
            }
        }
    }

    /// A session begins on the connection that was made.
    fn begin(
        &mut self,
        made: Result<Result<Tr::Conn, ConnectionError>, AllocError>,
    ) -> FtpResult<()> {
        let Ok(made) = made else {
            return Err(FtpError::OutOfMemory);
        };
        let conn = made?;
        let Some(transport) = self.transport.take() else {
            return Err(FtpError::ConnectionError(ConnectionError::AlreadyCompleted));
        };
        let mut session = session_on(self.rt.alloc(), transport, conn, self.lenient)?;
        session.set_mode(self.mode);
        if self.secures {
            secure_data(&mut session);
        }
        drop(mem::replace(&mut self.session, Some(session)));
        Ok(())
    }

    /// Why there is no session.
    fn no_session(&mut self) -> FtpError {
        match self.fault.take() {
            Some(fault) => fault,
            None => FtpError::ConnectionError(ConnectionError::AlreadyCompleted),
        }
    }

    /// Continues to read the greeting.
    fn poll_greeting(
        &mut self,
        cx: &mut Context<'_>,
    ) -> Poll<FtpResult<ImplAsyncFtpStream<Tr, K, E, B>>>
        ensures registered { OnPending result (IsArmed cx.new) }
        ensures kept { Keeps cx.old cx.new }
    {
        let Some(mut session) = self.session.take() else {
            return Poll::Ready(Err(self.no_session()));
        };
        let alloc = self.rt.alloc();
        match session.poll_call(alloc, self.rt, &mut self.greeting, &mut ()) {
            Poll::Ready(answer) => Poll::Ready(client_of(
                alloc,
                FromAnswer::from_answer(answer),
                session,
            )),
            Poll::Pending => {
                let waits = wait(&mut session, cx);
                drop(mem::replace(&mut self.session, Some(session)));
                waits
            }
        }
    }
}

/// A session on a connection, which reads replies leniently or not.
fn session_on<Tr: TaskTransport, K: Drop, E: Encoding, B: Drop>(
    alloc: Global,
    transport: Tr,
    conn: Tr::Conn,
    lenient: bool,
) -> FtpResult<Session<Tr, K, E, B>>
where
    Tr::Conn: TaskConn,
{
    let mut session = Session::new(alloc, transport, conn)?;
    session.set_lenient_replies(lenient);
    Ok(session)
}

/// The client over a session whose greeting was read.
fn client_of<Tr: TaskTransport, K: Drop, E: Encoding, B: Drop>(
    alloc: Global,
    greeted: FtpResult<()>,
    session: Session<Tr, K, E, B>,
) -> FtpResult<ImplAsyncFtpStream<Tr, K, E, B>>
where
    Tr::Conn: TaskConn,
{
    match greeted {
        Ok(()) => ImplAsyncFtpStream::new(alloc, session),
        Err(fault) => Err(fault),
    }
}

impl<'r, R: AllocGlobal, Tr, K: Drop, E: Encoding, B> Future for Connect<'r, R, Tr, K, E, B>
where
    Tr: PollTransport<R, ()> + TaskTransport,
    Tr::Conn: PollConn<()> + TaskConn,
    B: PassiveStreamBuilder<Tr::Conn>,
{
    type Output = FtpResult<ImplAsyncFtpStream<Tr, K, E, B>>;

    fn poll(&mut self, cx: &mut Context<'_>) -> Poll<FtpResult<ImplAsyncFtpStream<Tr, K, E, B>>> {
        if self.transport.is_some() {
            match self.poll_conn(cx) {
                Poll::Ready(Ok(())) => {}
                Poll::Ready(Err(fault)) => {
                    // Without its transport it has failed: polled again it says that it is over.
                    drop(self.transport.take());
                    return Poll::Ready(Err(fault));
                }
                Poll::Pending => return Poll::Pending,
            }
        }
        self.poll_greeting(cx)
    }
}

impl<Tr: TaskTransport, K: Drop, E: Encoding, B: Drop> ImplAsyncFtpStream<Tr, K, E, B>
where
    Tr::Conn: TaskConn,
{
    /// Connects to the first of these addresses that connects, and reads the server's greeting (220).
    ///
    /// # Errors
    /// The last error where none connects; `NoAddress` where there is none. Those of a read of one reply.
    pub fn connect<'r, R: AllocGlobal>(
        rt: &'r R,
        transport: Tr,
        addresses: &[SocketAddr],
    ) -> Connect<'r, R, Tr, K, E, B> {
        Connect::new(
            rt,
            transport,
            addresses,
            None,
            ConnectionError::NoAddress,
            false,
        )
    }

    /// The same of an address as text, as `192.0.2.7:21`, `[2001:db8::7]:21` or `ftp.example.org:21`: a host and a port,
    /// which is 21 of most servers (RFC 959, section 5.2). A name is looked up by this call itself, for which its thread
    /// waits; the future tries its addresses in turn. The client begins in `Mode::Automatic`.
    ///
    /// # Errors
    /// Those of `connect`; before them the error of the look-up, or `Io(InvalidInput)` where the text is no address.
    pub fn connect_to<'r, R: Net + AllocGlobal>(
        rt: &'r R,
        transport: Tr,
        address: &str,
    ) -> Connect<'r, R, Tr, K, E, B> {
        let found = match address.to_socket_addrs(rt) {
            Ok(found) => found,
            Err(error) => {
                let fault = ConnectionError::Io(error.kind());
                return Connect::new(rt, transport, &[], None, fault, false);
            }
        };
        let addresses: Result<Vec<SocketAddr>, AllocError> = found.collect(rt.alloc());
        let mut connect = ImplAsyncFtpStream::connect(rt, transport, &[]);
        connect.addresses = addresses.ok();
        connect.mode = Mode::Automatic;
        connect
    }

    /// The same, where each connect is made within this time. How long reads and writes may wait the transport says
    /// (`TokioTransport::of_runtime_with_limits`); the look-up of a name has no limit.
    ///
    /// # Errors
    /// Those of `connect_to`; `TimedOut` where the time has passed, or is zero.
    pub fn connect_to_within<'r, R: Net + AllocGlobal>(
        rt: &'r R,
        transport: Tr,
        address: &str,
        limit: Duration,
    ) -> Connect<'r, R, Tr, K, E, B> {
        let mut connect = ImplAsyncFtpStream::connect_to(rt, transport, address);
        connect.limit = Some(limit);
        if limit.is_zero() {
            connect.addresses = Some(Vec::new(rt.alloc()));
            connect.tried = Tried {
                count: 0,
                fault: ConnectionError::TimedOut,
            };
        }
        connect
    }

    /// The same, where replies are read leniently from the greeting on: for servers that end a reply of several lines
    /// with another code than it began with.
    ///
    /// # Errors
    /// Those of `connect`.
    pub fn connect_lenient<'r, R: AllocGlobal>(
        rt: &'r R,
        transport: Tr,
        addresses: &[SocketAddr],
    ) -> Connect<'r, R, Tr, K, E, B> {
        Connect::new(
            rt,
            transport,
            addresses,
            None,
            ConnectionError::NoAddress,
            true,
        )
    }

    /// Connects to this address within this time, and reads the server's greeting (220).
    ///
    /// # Errors
    /// `TimedOut` where the time has passed, or is zero; the error of the connect. Those of a read of one reply.
    pub fn connect_timeout<'r, R: AllocGlobal>(
        rt: &'r R,
        transport: Tr,
        address: SocketAddr,
        limit: Duration,
    ) -> Connect<'r, R, Tr, K, E, B> {
        let addresses = [address];
        let count = if limit.is_zero() { 0 } else { 1 };
        let tried = &addresses[..count];
        Connect::new(
            rt,
            transport,
            tried,
            Some(limit),
            ConnectionError::TimedOut,
            false,
        )
    }

    /// Reads the server's greeting (220) on a connection that was made.
    ///
    /// # Errors
    /// Those of a read of one reply. The connection is closed then.
    pub fn connect_with_stream<'r, R: AllocGlobal>(
        rt: &'r R,
        transport: Tr,
        conn: Tr::Conn,
    ) -> Connect<'r, R, Tr, K, E, B> {
        Connect::over(rt, Session::new(rt.alloc(), transport, conn))
    }

    /// The same, where replies are read leniently from the greeting on, as by `connect_lenient`.
    ///
    /// # Errors
    /// Those of `connect_with_stream`.
    pub fn connect_with_stream_lenient<'r, R: AllocGlobal>(
        rt: &'r R,
        transport: Tr,
        conn: Tr::Conn,
    ) -> Connect<'r, R, Tr, K, E, B> {
        Connect::over(rt, session_on(rt.alloc(), transport, conn, true))
    }
}

impl<Tr: TaskTransport + SecureNetwork<K>, K: Drop, E: Encoding, B: Drop> ImplAsyncFtpStream<
    Tr,
    K,
    E,
    B,
>
where
    Tr::Conn: TaskConn,
{
    /// Connects to the first of these addresses that connects, puts the connection under TLS, to a server of this name, and
    /// reads the server's greeting (220) on it. Data connections are put under TLS from then on; neither `PBSZ` nor `PROT`
    /// is sent.
    ///
    /// # Errors
    /// Those of `connect`; `SecureError` with the connector's text.
    pub fn connect_secure_implicit<'r, R: AllocGlobal>(
        rt: &'r R,
        mut transport: Tr,
        addresses: &[SocketAddr],
        connector: K,
        domain: &str,
    ) -> Connect<'r, R, Tr, K, E, B> {
        let Ok(name) = String::from_str(rt.alloc(), domain) else {
            drop(transport);
            drop(connector);
            return Connect::over(rt, Err(FtpError::OutOfMemory));
        };
        transport.keep(connector, name);
        let mut connect = ImplAsyncFtpStream::connect(rt, transport, addresses);
        connect.secures = true;
        connect
    }
}

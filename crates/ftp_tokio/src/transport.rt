//! The transport over tokio's sockets.
//!
//! A connect is begun by the poll that first asks for its address, and goes on while the task is registered; it is
//! finished by `poll_connect_ready`, and its outcome is returned by the next poll for that address. While a limit runs
//! the task is woken at its end, by a timer of the runtime's; made with a reactor alone the transport has none, and then
//! the task is polled again at once.

ghost use Rattle.std.specs.Prelude.{◌≡◌, [], ℕ, IfOk, IfSome, IsSomeAnd, None, Ok, Some, false, is_none, true};
ghost use Rattle.futures.specs.Poll.{IfReady, OnPending};
ghost use Rattle.futures.specs.Task.{Covers, Keeps};
ghost use Rattle.ftp_transport.specs.Memory.{fresh_memory};
ghost use Rattle.ftp_transport.specs.declared.waiting.Waiting.TheVariants as waits;
ghost use Rattle.ftp_tokio.specs.Attempts.{AttemptNeeds, CameTo, IsDone, IsUnderWay};
ghost use Rattle.ftp_tokio.specs.Needs.{AcceptNeeds};
ghost use Rattle.ftp_tokio.specs.Outcomes.{ComesAs, HasNoLimits, accepted_as, conn_over, connected_as, with_fault};

use crate::attempt::{Attempt, fault};
use crate::limits::{Limits, passed};
use crate::{TokioConn, TokioListener};
use ftp_base::types::ConnectionError;
use ftp_transport::{
    Accepted, Connected, Handshaken, Listening, Network, PollTransport, TaskTransport, Waiting,
};
use futures::task::{Context, Poll};
use std::alloc::AllocError;
use std::net::{Net, SocketAddr};
use std::time::{Clock, Duration};
use tokio::net::TcpStream;
use tokio::reactor::Handle;
use tokio::runtime::Handle as RuntimeHandle;
use tokio::time::Handle as TimeHandle;

/// The transport over tokio's sockets. Its runtime is one that has the network (`Net`), the time (`Clock`) and memory
/// (`AllocGlobal`).
pub struct TokioTransport {
    reactor: Handle,
    timers: Option<TimeHandle>,
    // The connect that is under way, or whose outcome no poll has returned.
    attempt: Option<Attempt>,
    limits: Limits,
}

impl Drop for TokioTransport {
    fn drop(self) {
        let Self {
            reactor,
            timers,
            attempt,
            limits: _,
        } = self;
        drop(reactor);
        drop(timers);
        drop(attempt);
    }
}

impl TokioTransport {
    /// A transport whose sockets are registered with this runtime, and whose limits its timers keep:
    /// `runtime.handle()`.
    ///
    /// # Errors
    /// Where an allocation fails.
    pub fn of_runtime(handle: &RuntimeHandle) -> Result<TokioTransport, AllocError>
        ensures attempt { IfOk result (λ made. made.attempt ≡ None) }
        ensures timers { IfOk result (λ made. is_none made.timers ≡ false) }
        ensures limits { IfOk result HasNoLimits }
    {
        TokioTransport::of_runtime_with_limits(handle, None, None, None)
    }

    /// The same, whose sockets have these time limits: how long a connect may take, and how long a read and a write may
    /// wait. They hold on control and data connections alike, connected and accepted. `None` is no limit.
    ///
    /// Where a limit passes the call fails with `Io(TimedOut)`. A limit of zero can't be set: each connect or accept
    /// fails with `Io(InvalidInput)`. The look-up of a host's name has no limit; a connect within a time of its own keeps
    /// that, and accepts keep their deadline. A wait is counted from the event loop's turn after it began, to the
    /// millisecond; it ends when bytes come or go, not when its future is dropped.
    ///
    /// # Errors
    /// Where an allocation fails.
    pub fn of_runtime_with_limits(
        handle: &RuntimeHandle,
        connect: Option<Duration>,
        read: Option<Duration>,
        write: Option<Duration>,
    ) -> Result<TokioTransport, AllocError>
        ensures attempt { IfOk result (λ made. made.attempt ≡ None) }
        ensures timers { IfOk result (λ made. is_none made.timers ≡ false) }
        ensures limits { IfOk result (λ made.
            made.limits ≡ record { connect = connect; read = read; write = write }) }
    {
        let reactor = handle.reactor().clone()?;
        let timers = handle.time().clone()?;
        let limits = Limits {
            connect,
            read,
            write,
        };
        Ok(TokioTransport {
            reactor,
            timers: Some(timers),
            attempt: None,
            limits,
        })
    }

    /// A transport whose sockets are registered with this reactor: `runtime.handle().reactor().clone()?`. It has no
    /// timers: a task that waits for a peer, or for a connect within a time, is polled again at once.
    pub fn new(handle: Handle) -> TokioTransport
        ensures attempt { result.attempt ≡ None }
        ensures limits { HasNoLimits result }
    {
        TokioTransport {
            reactor: handle,
            timers: None,
            attempt: None,
            limits: Limits::none(),
        }
    }

    /// Connects to this address, or waits for the connect to it that is under way.
    fn poll_stream<R: Net + Clock>(
        &mut self,
        rt: &R,
        address: SocketAddr,
        limit: Option<Duration>,
    ) -> Poll<Result<TcpStream, ConnectionError>>
        ensures waits { OnPending result (IsUnderWay self.new.attempt address) }
        ensures kept { (outcome : _) → CameTo self.old.attempt address outcome →
            result ≡ Poll.Ready (with_fault outcome) }
        ensures done { IfReady result (λ _. self.new.attempt ≡ None) }
        ensures limits { self.new.limits ≡ self.old.limits }
    {
        self.begin_attempt(rt, address);
        let Some(attempt) = &mut self.attempt else {
            unreachable!();
        };
        let shortest = limit.or(self.limits.connect);
        let outcome = match attempt.take_outcome() {
            Some(outcome) => outcome.map_err(fault),
            None => match attempt.has_passed(rt, self.timers.as_ref(), shortest) {
                Ok(false) => return Poll::Pending,
                Ok(true) => Err(passed(limit)),
                Err(error) => Err(fault(error)),
            },
        };
        self.attempt = None;
        Poll::Ready(outcome)
    }

    /// A connection over this socket, with the limits of its reads and writes.
    fn watched<R: Clock + AllocGlobal>(
        &self,
        rt: &R,
        stream: TcpStream,
    ) -> Result<TokioConn, ConnectionError>
        ensures none { HasNoLimits self.now → result ≡ Ok (conn_over stream) }
        ensures stream { IfOk result (λ conn. conn.stream ≡ Some stream) }
    {
        match self.limits.watched(rt, self.timers.as_ref(), stream) {
            Ok(conn) => Ok(conn),
            Err(error) => Err(fault(error)),
        }
    }

    /// Begins to connect to this address, unless a connect to it is under way. One to another address is dropped.
    fn begin_attempt(&mut self, net: &impl Net, address: SocketAddr)
        ensures address { IsSomeAnd self.new.attempt (λ attempt. attempt.address ≡ address) }
        ensures kept { (outcome : _) → CameTo self.old.attempt address outcome →
            CameTo self.new.attempt address outcome }
        ensures limits { self.new.limits ≡ self.old.limits }
    {
        let is_begun = match &self.attempt {
            Some(attempt) => attempt.is_to(address),
            None => false,
        };
        if !is_begun {
            self.attempt = Some(Attempt::begin(net, address, &self.reactor));
        }
    }
}

impl Network for TokioTransport {
    type Conn = TokioConn;

    type Listener = TokioListener;

    ghost asked = { λ _. [] };

    ghost ready = { λ _. [] };

    ghost refuses = { λ _ _. Unit {0} };

    ghost accept_refuses = { λ _ _. Unit {0} };

    ghost port = { λ _. 0 };

    ghost binds = { λ _ _ _. Unit {0} };

    ghost closed = { λ _. [] };

    ghost handshake = { λ _ _ outcome. outcome ≡ Ok fresh_memory };

    ghost has_room = { λ _. Unit {0} };

    fn make_room(&mut self) -> Result<(), AllocError> {
        Ok(())
    }

    fn note_build(&mut self, _address: SocketAddr) -> Result<(), AllocError> {
        Ok(())
    }

    fn closed(&mut self, _conn: TokioConn) {}
}

impl<R: Net + Clock + AllocGlobal> PollTransport<R, ()> for TokioTransport {
    ghost may_wait = { Unit {0} };

    fn poll_connect(
        &mut self,
        rt: &R,
        _w: &mut (),
        address: SocketAddr,
        limit: Option<Duration>,
    ) -> Poll<Connected<TokioConn>>
        ensures waits { OnPending result (IsUnderWay self.new.attempt address) }
        ensures done { IfReady result (λ _. self.new.attempt ≡ None) }
        ensures kept { (outcome : _) → CameTo self.old.attempt address outcome →
            HasNoLimits self.old → result ≡ Poll.Ready (Ok (connected_as outcome)) }
        ensures came { (outcome : _) → CameTo self.old.attempt address outcome →
            IfReady result (λ made. IfOk made (ComesAs outcome)) }
    {
        match self.poll_stream(rt, address, limit) {
            Poll::Ready(Ok(stream)) => Poll::Ready(Ok(self.watched(rt, stream))),
            Poll::Ready(Err(fault)) => Poll::Ready(Ok(Err(fault))),
            Poll::Pending => Poll::Pending,
        }
    }

    fn poll_listen(
        &mut self,
        rt: &R,
        _w: &mut (),
        address: SocketAddr,
    ) -> Poll<Listening<TokioListener>>
        ensures at_once { OnPending result ⊥ }
        ensures same { self.new ≡ self.old }
    {
        match TokioListener::bind(rt, address, &self.reactor) {
            Ok(made) => Poll::Ready(Ok(Ok(made))),
            Err(error) => Poll::Ready(Ok(Err(fault(error)))),
        }
    }

    fn poll_accept(
        &mut self,
        rt: &R,
        _w: &mut (),
        listener: &mut TokioListener,
        deadline: Duration,
    ) -> Poll<Accepted<TokioConn>>
        ensures waits { OnPending result (listener.new.waits ≡ true) }
        ensures done { IfReady result (λ _. listener.new.waits ≡ false) }
        ensures kept { HasNoLimits self.old → IfSome listener.old.accepted
            (λ accepted. result ≡ Poll.Ready (Ok (accepted_as accepted))) }
        ensures same { self.new ≡ self.old }
    {
        match listener.poll_peer(rt, self.timers.as_ref(), deadline) {
            Poll::Ready(Ok((stream, peer))) => match self.watched(rt, stream) {
                Ok(conn) => Poll::Ready(Ok(Ok((conn, peer)))),
                Err(fault) => Poll::Ready(Ok(Err(fault))),
            },
            Poll::Ready(Err(fault)) => Poll::Ready(Ok(Err(fault))),
            Poll::Pending => Poll::Pending,
        }
    }

    fn poll_secure(
        &mut self,
        _rt: &R,
        _w: &mut (),
        conn: TokioConn,
    ) -> Poll<Handshaken<TokioConn>> {
        Poll::Ready(Ok(Ok(conn)))
    }

    fn poll_secured(&mut self, _rt: &R, _w: &mut ()) -> Poll<Handshaken<TokioConn>> {
        Poll::Ready(Err(AllocError))
    }
}

impl TaskTransport for TokioTransport {
    /// Drops the connect that is under way.
    fn forget(&mut self)
        ensures { self.new ≡ record self.old { attempt = None } }
    {
        self.attempt = None;
    }

    fn poll_connect_ready(&mut self, cx: &mut Context<'_>) -> Waiting
        ensures registered { result ≡ waits.Registered →
            Covers cx.new (AttemptNeeds self.new.attempt) }
        ensures nothing { result ≡ waits.Nothing → self.new.attempt ≡ None }
        ensures over { result ≡ waits.Over → IsDone self.new.attempt }
        ensures kept { Keeps cx.old cx.new }
    {
        match &mut self.attempt {
            Some(attempt) => attempt.poll_ready(cx),
            None => Waiting::Nothing,
        }
    }

    fn poll_secure_ready(&mut self, _cx: &mut Context<'_>) -> Waiting {
        Waiting::Nothing
    }

    fn poll_accept_ready(listener: &mut TokioListener, cx: &mut Context<'_>) -> Waiting
        ensures registered { result ≡ waits.Registered →
            Covers cx.new (AcceptNeeds listener.new.socket listener.new.waits) }
        ensures nothing { result ≡ waits.Nothing →
            (source : ℕ) → AcceptNeeds listener.new.socket listener.new.waits source → ⊥ }
        ensures over { result ≡ waits.Over → listener.old.waits ≡ true }
        ensures kept { Keeps cx.old cx.new }
    {
        listener.poll_ready(cx)
    }
}

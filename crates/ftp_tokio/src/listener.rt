//! A listener over a socket of tokio, with a deadline.
//!
//! The deadline is counted from the listener's first accept: whoever drops a stranger and accepts again gains no time.
//! Once it has passed the socket is looked at once more, so that a peer that came in time is accepted, however late the
//! task is polled.

ghost use Rattle.std.specs.Prelude.{◌≡◌, ℕ, true, false, IsSome, IfSome, None, Err};
ghost use Rattle.futures.specs.Poll.{IfReady, OnPending};
ghost use Rattle.ftp_base.specs.declared.types.fault.ConnectionError.TheVariants.{TimedOut};
ghost use Rattle.futures.specs.Task.{Covers, Hears, IsArmed, Keeps};
ghost use Rattle.tokio.specs.Timers.{sleep_source};
ghost use Rattle.ftp_transport.specs.declared.waiting.Waiting.TheVariants as waits;
ghost use Rattle.ftp_tokio.specs.Needs.{AcceptNeeds};
ghost use Rattle.ftp_tokio.specs.Outcomes.{with_fault};

use crate::alarm::Alarm;
use crate::attempt::fault;
use ftp_base::types::ConnectionError;
use ftp_transport::Waiting;
use futures::task::{Context, Poll};
use std::io;
use std::io::ErrorKind;
use std::net::{Net, SocketAddr};
use std::time::{Clock, Duration};
use tokio::net::{TcpListener, TcpStream};
use tokio::reactor::Handle;
use tokio::time::Handle as TimeHandle;

/// What an accept results in: the socket and the peer's address.
type Peer = (TcpStream, SocketAddr);

/// What waits on a socket of tokio for a peer's connection.
pub struct TokioListener {
    socket: TcpListener,
    // The deadline, from the first accept on.
    alarm: Alarm,
    // Whether the last accept waits, and whether it found that the deadline has passed.
    waits: bool,
    late: bool,
    // Whether the socket had no peer once the deadline had passed.
    missed: bool,
    // What the socket was found to have while the task waited, until an accept returns it.
    accepted: Option<io::Result<Peer>>,
}

impl Drop for TokioListener {
    fn drop(self) {
        let Self {
            socket,
            alarm,
            waits: _,
            late: _,
            missed: _,
            accepted,
        } = self;
        drop(socket);
        drop(alarm);
        drop(accepted);
    }
}

impl TokioListener {
    /// A listener on this address, and the address that it is bound to.
    ///
    /// # Errors
    /// The system's error; out of memory.
    pub fn bind(
        net: &impl Net,
        address: SocketAddr,
        handle: &Handle,
    ) -> io::Result<(TokioListener, SocketAddr)> {
        let socket = TcpListener::bind(net, address, handle)?;
        let bound = socket.local_addr()?;
        let listener = TokioListener {
            socket,
            alarm: Alarm::none(),
            waits: false,
            late: false,
            missed: false,
            accepted: None,
        };
        Ok((listener, bound))
    }

    /// Returns the connection that came, or waits for one within this time, counted from the first call.
    ///
    /// # Errors
    /// `TimedOut` where the time has passed and no connection came; the system's error.
    pub(crate) fn poll_peer<R: Clock>(
        &mut self,
        rt: &R,
        timers: Option<&TimeHandle>,
        deadline: Duration,
    ) -> Poll<Result<Peer, ConnectionError>>
        ensures waits { OnPending result (self.new.waits ≡ true) }
        ensures done { IfReady result (λ _. self.new.waits ≡ false) }
        ensures kept { IfSome self.old.accepted
            (λ accepted. result ≡ Poll.Ready (with_fault accepted)) }
        ensures empty { self.new.accepted ≡ None }
        ensures late { result ≡ Poll.Ready (Err TimedOut) → self.old.missed ≡ true }
    {
        self.waits = false;
        if let Some(accepted) = self.accepted.take() {
            return Poll::Ready(accepted.map_err(fault));
        }
        match self.alarm.has_passed(rt, timers, deadline) {
            Ok(true) if self.missed => Poll::Ready(Err(ConnectionError::TimedOut)),
            Ok(late) => {
                self.late = late;
                self.waits = true;
                Poll::Pending
            }
            Err(error) => Poll::Ready(Err(fault(error))),
        }
    }

    /// Registers the task for the peer that the last accept waits for, where it does, and for the deadline. An interrupted
    /// accept is made again at the next poll.
    pub(crate) fn poll_ready(&mut self, cx: &mut Context<'_>) -> Waiting
        ensures registered { result ≡ waits.Registered →
            Covers cx.new (AcceptNeeds self.new.socket self.new.waits) }
        ensures nothing { result ≡ waits.Nothing →
            (source : ℕ) → AcceptNeeds self.new.socket self.new.waits source → ⊥ }
        ensures over { result ≡ waits.Over → self.old.waits ≡ true }
        ensures again { result ≡ waits.Registered → self.new.alarm.sleep ≡ None → cx.new.is_woken ≡
            true }
        ensures rings { result ≡ waits.Registered →
            IfSome self.new.alarm.sleep (λ sleep. Hears cx.new (sleep_source sleep)) }
        ensures waits { self.new.waits ≡ self.old.waits }
        ensures first { IsSome self.old.accepted → self.new.accepted ≡ self.old.accepted }
        ensures missed { self.old.late ≡ false → self.new.missed ≡ self.old.missed }
        ensures kept { Keeps cx.old cx.new }
    {
        if !self.waits {
            return Waiting::Nothing;
        }
        if self.accepted.is_some() {
            return Waiting::Over;
        }
        match self.socket.poll_accept(cx) {
            Poll::Ready(Err(error)) if error.kind() == ErrorKind::Interrupted => Waiting::Over,
            Poll::Ready(accepted) => {
                self.accepted = Some(accepted);
                Waiting::Over
            }
            Poll::Pending => {
                self.wait_on(cx);
                Waiting::Registered
            }
        }
    }

    /// Has the task woken at the deadline; where that has passed the socket was looked at for the last time, and the task
    /// is polled again at once.
    fn wait_on(&mut self, cx: &mut Context<'_>)
        ensures armed { IsArmed cx.new }
        ensures again { self.old.alarm.sleep ≡ None → cx.new.is_woken ≡ true }
        ensures rings { IfSome self.old.alarm.sleep (λ sleep. Hears cx.new (sleep_source sleep)) }
        ensures same { self.new ≡ record self.old { missed = self.new.missed } }
        ensures missed { self.old.late ≡ false → self.new.missed ≡ self.old.missed }
        ensures kept { Keeps cx.old cx.new }
    {
        if self.late {
            self.missed = true;
            let _: Poll<()> = cx.yield_now();
        } else {
            self.alarm.poll_ring(cx);
        }
    }
}

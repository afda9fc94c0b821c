//! A connect that is under way, over several polls.

ghost use Rattle.std.specs.Prelude.{◌≡◌, ◌↔◌, None, IfSome, IsSome, IsTrue, true};
ghost use Rattle.std.specs.IoError.{error_kind};
ghost use Rattle.futures.specs.Task.{Covers, Hears, Keeps};
ghost use Rattle.tokio.specs.Timers.{sleep_source};
ghost use Rattle.ftp_base.specs.declared.types.fault.ConnectionError.TheVariants.{Io};
ghost use Rattle.ftp_transport.specs.declared.waiting.Waiting.TheVariants as waits;
ghost use Rattle.ftp_tokio.specs.Needs.{ConnectWaits};

use crate::alarm::Alarm;
use ftp_base::types::ConnectionError;
use ftp_transport::Waiting;
use futures::Future;
use futures::task::{Context, Poll};
use std::io;
use std::net::{Net, SocketAddr};
use std::time::{Clock, Duration};
use tokio::net::{ConnectFuture, TcpStream};
use tokio::reactor::Handle;
use tokio::time::Handle as TimeHandle;

/// A connect to one address.
#[derive(Drop)]
pub(crate) struct Attempt {
    address: SocketAddr,
    // The limit under which it was asked for, where one runs.
    alarm: Alarm,
    future: ConnectFuture,
    // What the future resulted in, until a connect returns it.
    outcome: Option<io::Result<TcpStream>>,
}

impl Attempt {
    /// Begins to connect. What it fails with at once is its outcome, too.
    pub(crate) fn begin(net: &impl Net, address: SocketAddr, handle: &Handle) -> Attempt
        ensures address { result.address ≡ address }
        ensures outcome { result.outcome ≡ None }
    {
        Attempt {
            address,
            alarm: Alarm::none(),
            future: TcpStream::connect(net, address, handle),
            outcome: None,
        }
    }

    /// Whether it is a connect to this address.
    pub(crate) fn is_to(&self, address: SocketAddr) -> bool
        ensures { IsTrue result ↔ (self.now.address ≡ address) }
    {
        self.address == address
    }

    /// Takes what it resulted in, if it is done.
    pub(crate) fn take_outcome(&mut self) -> Option<io::Result<TcpStream>>
        ensures outcome { result ≡ self.old.outcome }
        ensures left { self.new ≡ record self.old { outcome = None } }
    {
        self.outcome.take()
    }

    /// Whether the limit has passed, counted from the first call with one.
    ///
    /// # Errors
    /// Where the clock can't be read.
    pub(crate) fn has_passed<R: Clock>(
        &mut self,
        rt: &R,
        timers: Option<&TimeHandle>,
        limit: Option<Duration>,
    ) -> io::Result<bool>
        ensures { self.new ≡ record self.old { alarm = self.new.alarm } }
    {
        match limit {
            Some(limit) => self.alarm.has_passed(rt, timers, limit),
            None => {
                self.alarm = Alarm::none();
                Ok(false)
            }
        }
    }

    /// Registers the task for the connection, or keeps the outcome. Where a limit runs the task is woken at its end, or
    /// polled again at once where there is no timer.
    pub(crate) fn poll_ready(&mut self, cx: &mut Context<'_>) -> Waiting
        ensures registered { result ≡ waits.Registered →
            Covers cx.new (ConnectWaits self.new.future self.new.outcome) }
        ensures over { result ≡ waits.Over → IsSome self.new.outcome }
        ensures something { result ≡ waits.Nothing → ⊥ }
        ensures again { result ≡ waits.Registered → IsSome self.new.alarm.since →
            self.new.alarm.sleep ≡ None → cx.new.is_woken ≡ true }
        ensures rings { result ≡ waits.Registered → IsSome self.new.alarm.since →
            IfSome self.new.alarm.sleep (λ sleep. Hears cx.new (sleep_source sleep)) }
        ensures same { self.new ≡
            record self.old { future = self.new.future; outcome = self.new.outcome } }
        ensures kept { Keeps cx.old cx.new }
    {
        if self.outcome.is_some() {
            return Waiting::Over;
        }
        match self.future.poll(cx) {
            Poll::Ready(outcome) => {
                self.outcome = Some(outcome);
                Waiting::Over
            }
            Poll::Pending => {
                if self.alarm.runs() {
                    self.alarm.poll_ring(cx);
                }
                Waiting::Registered
            }
        }
    }
}

/// The error of a call of the system.
pub(crate) fn fault(error: io::Error) -> ConnectionError
    ensures { result ≡ Io (error_kind error) }
{
    ConnectionError::Io(error.kind())
}

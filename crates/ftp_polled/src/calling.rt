//! A call in its state: the lock, then the call's polls under it.

ghost use Rattle.futures.specs.Poll.{OnPending};
ghost use Rattle.futures.specs.Task.{IsArmed, Keeps};

use crate::client::Shared;
use crate::hold::Hold;
use crate::waiting::wait;
use ftp_base::encoding::Encoding;
use ftp_base::types::{ConnectionError, FtpError};
use ftp_calls::call::BorrowedCall;
use ftp_session::session::{Answer, DropsCalls, PolledCall, PollsCalls, Session};
use ftp_transport::{
    Network, PassiveStreamBuilder, PollConn, PollTransport, TaskConn, TaskTransport,
};
use futures::task::{Context, Poll};
use std::alloc::{AllocError, Global};

/// A call that begins, in memory of its own; none where there is none for it.
pub(crate) fn boxed(alloc: Global, call: BorrowedCall<'_>) -> Option<Box<PolledCall>> {
    let Ok(call) = call.owned(alloc) else {
        return None;
    };
    Box::new(alloc, PolledCall::new(call)).ok()
}

/// A call of a client, until it has its answer or is dropped.
pub(crate) struct Calling<'r, R, Tr: TaskTransport, K: Drop, E: Encoding, B: Drop>
where
    Tr::Conn: TaskConn,
{
    rt: &'r R,
    hold: Hold<Box<Session<Tr, K, E, B>>>,
    // In memory of its own, so that a future that moves moves little. None where there was no memory for it.
    call: Option<Box<PolledCall>>,
}

impl<'r, R: AllocGlobal, Tr: TaskTransport, K: Drop, E: Encoding, B: Drop> Calling<
    'r,
    R,
    Tr,
    K,
    E,
    B,
>
where
    Tr::Conn: TaskConn,
{
    /// A call of the session that is shared so. Nothing is done before it is polled.
    pub(crate) fn new(
        rt: &'r R,
        shared: &Shared<Tr, K, E, B>,
        call: BorrowedCall<'_>,
    ) -> Calling<'r, R, Tr, K, E, B> {
        Calling {
            rt,
            hold: Hold::on(shared),
            call: boxed(rt.alloc(), call),
        }
    }
}

impl<'r, R: AllocGlobal, Tr, K: Drop, E: Encoding, B> Calling<'r, R, Tr, K, E, B>
where
    Tr: PollTransport<R, ()> + TaskTransport,
    Tr::Conn: PollConn<()> + TaskConn,
    B: PassiveStreamBuilder<Tr::Conn>,
{
    /// Continues the call, once the lock is held, and lets the lock go with its answer. A call that returned its answer
    /// fails with `AlreadyCompleted`.
    pub(crate) fn poll_answer(&mut self, cx: &mut Context<'_>) -> Poll<Answer>
        ensures registered { OnPending result (IsArmed cx.new) }
        ensures kept { Keeps cx.old cx.new }
    {
        match self.hold.poll_lock(cx) {
            Poll::Ready(Ok(())) => self.poll_held(cx),
            Poll::Ready(Err(AllocError)) => Poll::Ready(Answer::Fault(FtpError::OutOfMemory)),
            Poll::Pending => Poll::Pending,
        }
    }

    /// Continues the call under the lock.
    fn poll_held(&mut self, cx: &mut Context<'_>) -> Poll<Answer>
        ensures registered { OnPending result (IsArmed cx.new) }
        ensures kept { Keeps cx.old cx.new }
    {
        let Hold::Has(session) = &mut self.hold else {
            return Poll::Ready(Answer::Fault(FtpError::ConnectionError(
                ConnectionError::AlreadyCompleted,
            )));
        };
        let alloc = self.rt.alloc();
        let polled = match &mut self.call {
            Some(call) => session.poll_call(alloc, self.rt, call, &mut ()),
            None => Poll::Ready(Answer::Fault(session.withheld())),
        };
        match polled {
            Poll::Ready(answer) => {
                session.settle_mode();
                self.hold.let_go();
                Poll::Ready(answer)
            }
            Poll::Pending => wait(session, cx),
        }
    }
}

impl<R, Tr: TaskTransport, K: Drop, E: Encoding, B: Drop> Drop for Calling<'_, R, Tr, K, E, B>
where
    Tr::Conn: TaskConn,
{
    fn drop(self) {
        let Self {
            rt: _,
            mut hold,
            call,
        } = self;
        if let Some(made) = &call {
            hold.drop_call(made);
        }
        drop(call);
        drop(hold);
    }
}

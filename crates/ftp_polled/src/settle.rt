//! The state that settles a receipt.

ghost use Rattle.futures.specs.Poll.{OnPending};
ghost use Rattle.futures.specs.Task.{IsArmed, Keeps};

use crate::client::ImplAsyncFtpStream;
use crate::from_answer::FromAnswer;
use crate::hold::Hold;
use crate::waiting::wait;
use ftp_base::encoding::Encoding;
use ftp_base::types::{ConnectionError, FtpError, FtpResult};
use ftp_session::session::{Call, PolledCall, PollsCalls, Session, begin_settle};
use ftp_transfer::mark::Left;
use ftp_transport::{PassiveStreamBuilder, PollConn, PollTransport, TaskConn, TaskTransport};
use futures::Future;
use futures::task::{Context, Poll};
use std::alloc::AllocError;
use std::mem;

/// The last reply of a transfer that was left is read, by its receipt.
///
/// Dropped, it may be made again: what was read of the reply is kept.
pub struct Settle<'r, 'l, R, Tr: TaskTransport, K: Drop, E: Encoding, B: Drop>
where
    Tr::Conn: TaskConn,
{
    rt: &'r R,
    hold: Hold<Box<Session<Tr, K, E, B>>>,
    left: &'l mut Left,
    // The read of the reply, once the receipt was looked at and it is owed.
    call: Option<PolledCall>,
}

/// The read of the reply begins.
fn begin(call: &mut Option<PolledCall>) {
    let drain = PolledCall::alone(Call::Drain);
    drop(mem::replace(call, Some(drain)));
}

impl<'r, 'l, R: AllocGlobal, Tr, K: Drop, E: Encoding, B> Settle<'r, 'l, R, Tr, K, E, B>
where
    Tr: PollTransport<R, ()> + TaskTransport,
    Tr::Conn: PollConn<()> + TaskConn,
    B: PassiveStreamBuilder<Tr::Conn>,
{
    /// Looks at the receipt under the lock, at the first poll, and then continues to read the reply.
    fn poll_held(&mut self, cx: &mut Context<'_>) -> Poll<FtpResult<()>>
        ensures registered { OnPending result (IsArmed cx.new) }
        ensures kept { Keeps cx.old cx.new }
    {
        let Hold::Has(session) = &mut self.hold else {
            return Poll::Ready(Err(FtpError::ConnectionError(ConnectionError::AlreadyCompleted)));
        };
        if self.call.is_none() {
            match begin_settle(session, self.left) {
                Ok(true) => begin(&mut self.call),
                Ok(false) => return Poll::Ready(Ok(())),
                Err(fault) => return Poll::Ready(Err(fault)),
            }
        }
        let Some(call) = &mut self.call else {
            return Poll::Ready(Ok(()));
        };
        match session.poll_call(self.rt.alloc(), self.rt, call, &mut ()) {
            Poll::Ready(answer) => Poll::Ready(FromAnswer::from_answer(answer)),
            Poll::Pending => wait(session, cx),
        }
    }
}

impl<'r, 'l, R: AllocGlobal, Tr, K: Drop, E: Encoding, B> Future for Settle<'r, 'l, R, Tr, K, E, B>
where
    Tr: PollTransport<R, ()> + TaskTransport,
    Tr::Conn: PollConn<()> + TaskConn,
    B: PassiveStreamBuilder<Tr::Conn>,
{
    type Output = FtpResult<()>;

    fn poll(&mut self, cx: &mut Context<'_>) -> Poll<FtpResult<()>> {
        match self.hold.poll_lock(cx) {
            Poll::Ready(Ok(())) => match self.poll_held(cx) {
                Poll::Ready(settled) => {
                    self.hold.let_go();
                    Poll::Ready(settled)
                }
                Poll::Pending => Poll::Pending,
            },
            Poll::Ready(Err(AllocError)) => Poll::Ready(Err(FtpError::OutOfMemory)),
            Poll::Pending => Poll::Pending,
        }
    }
}

impl<R, Tr: TaskTransport, K: Drop, E: Encoding, B: Drop> Drop for Settle<'_, '_, R, Tr, K, E, B>
where
    Tr::Conn: TaskConn,
{
    fn drop(self) {
        let Self {
            rt: _,
            mut hold,
            left: _,
            call,
        } = self;
        if let Some(made) = &call {
            hold.drop_call(made);
        }
        drop(call);
        drop(hold);
    }
}

impl<Tr: TaskTransport, K: Drop, E: Encoding, B: Drop> ImplAsyncFtpStream<Tr, K, E, B>
where
    Tr::Conn: TaskConn,
{
    /// Reads the last reply of a transfer of this client that was left (226, 250), by its receipt. One whose last reply
    /// was read before is over, and nothing is read.
    ///
    /// # Errors
    /// Those of a read of one reply, but for `UnexpectedResponse`; `SessionFailed` on a session that has failed.
    pub fn settle<'r, 'l, R>(
        &self,
        rt: &'r R,
        left: &'l mut Left,
    ) -> Settle<'r, 'l, R, Tr, K, E, B> {
        Settle {
            rt,
            hold: Hold::on(&self.session),
            left,
            call: None,
        }
    }
}

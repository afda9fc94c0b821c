//! The states of calls that bring a transfer to its end.

ghost use Rattle.futures.specs.Poll.{OnPending};
ghost use Rattle.futures.specs.Task.{IsArmed, Keeps};

use crate::from_answer::FromAnswer;
use crate::hold::Hold;
use crate::waiting::wait;
use ftp_base::encoding::Encoding;
use ftp_base::types::{ConnectionError, FtpError, FtpResult};
use ftp_session::session::{Call, DropsCalls, PolledCall, PollsCalls, Session, take_back};
use ftp_transfer::Transfer;
use ftp_transport::{PassiveStreamBuilder, PollConn, PollTransport, TaskConn, TaskTransport};
use futures::Future;
use futures::task::{Context, Poll};
use std::alloc::AllocError;

/// The end of a transfer, until it has its answer or is dropped.
pub(crate) struct Ending<'r, R, Tr: TaskTransport, K: Drop, E: Encoding, B: Drop>
where
    Tr::Conn: TaskConn,
{
    rt: &'r R,
    hold: Hold<Box<Session<Tr, K, E, B>>>,
    // The transfer, until the session takes it back under the lock.
    transfer: Option<Transfer<Tr::Conn>>,
    call: PolledCall,
    // Whether it is that of a whole file, whose call began before.
    whole: bool,
}

impl<'r, R, Tr: TaskTransport, K: Drop, E: Encoding, B: Drop> Ending<'r, R, Tr, K, E, B>
where
    Tr::Conn: TaskConn,
{
    /// The end of this transfer of the session that is held so. Nothing is done before it is polled.
    pub(crate) fn new(
        rt: &'r R,
        hold: Hold<Box<Session<Tr, K, E, B>>>,
        transfer: Transfer<Tr::Conn>,
        aborts: bool,
    ) -> Ending<'r, R, Tr, K, E, B> {
        let call = if aborts { Call::Abort } else { Call::Finish };
        Ending {
            rt,
            hold,
            transfer: Some(transfer),
            call: PolledCall::alone(call),
            whole: false,
        }
    }

    /// The end of the transfer of a whole file.
    pub(crate) fn of_file(
        rt: &'r R,
        hold: Hold<Box<Session<Tr, K, E, B>>>,
        transfer: Transfer<Tr::Conn>,
    ) -> Ending<'r, R, Tr, K, E, B> {
        let mut ending = Ending::new(rt, hold, transfer, false);
        ending.whole = true;
        ending
    }
}

/// Whether there was no memory for the end of a whole file: the session has failed then, since the file's call has begun.
fn fails_session(whole: bool, ended: &FtpResult<()>) -> bool {
    whole && matches!(ended, Err(FtpError::OutOfMemory))
}

impl<'r, R: AllocGlobal, Tr, K: Drop, E: Encoding, B> Ending<'r, R, Tr, K, E, B>
where
    Tr: PollTransport<R, ()> + TaskTransport,
    Tr::Conn: PollConn<()> + TaskConn,
    B: PassiveStreamBuilder<Tr::Conn>,
{
    /// Continues the end, once the lock is held, and lets the lock go with its answer.
    pub(crate) fn poll_ended(&mut self, cx: &mut Context<'_>) -> Poll<FtpResult<()>>
        ensures registered { OnPending result (IsArmed cx.new) }
        ensures kept { Keeps cx.old cx.new }
    {
        match self.hold.poll_lock(cx) {
            Poll::Ready(Ok(())) => self.poll_held(cx),
            Poll::Ready(Err(AllocError)) => Poll::Ready(Err(FtpError::OutOfMemory)),
            Poll::Pending => Poll::Pending,
        }
    }

    /// Continues the end under the lock.
    fn poll_held(&mut self, cx: &mut Context<'_>) -> Poll<FtpResult<()>>
        ensures registered { OnPending result (IsArmed cx.new) }
        ensures kept { Keeps cx.old cx.new }
    {
        let Hold::Has(session) = &mut self.hold else {
            return Poll::Ready(Err(FtpError::ConnectionError(ConnectionError::AlreadyCompleted)));
        };
        if let Some(transfer) = self.transfer.take() {
            let taken = take_back(session, transfer);
            if taken.is_err() {
                if fails_session(self.whole, &taken) {
                    session.fail();
                }
                self.hold.let_go();
                return Poll::Ready(taken);
            }
        }
        match session.poll_call(self.rt.alloc(), self.rt, &mut self.call, &mut ()) {
            Poll::Ready(answer) => {
                let ended = FromAnswer::from_answer(answer);
                if fails_session(self.whole, &ended) {
                    session.fail();
                }
                self.hold.let_go();
                Poll::Ready(ended)
            }
            Poll::Pending => wait(session, cx),
        }
    }
}

impl<R, Tr: TaskTransport, K: Drop, E: Encoding, B: Drop> Drop for Ending<'_, R, Tr, K, E, B>
where
    Tr::Conn: TaskConn,
{
    fn drop(self) {
        let Self {
            rt: _,
            mut hold,
            transfer,
            call,
            whole: _,
        } = self;
        if transfer.is_none() {
            hold.drop_call(&call);
        }
        drop(call);
        drop(transfer);
        drop(hold);
    }
}

/// The end of a transfer: its data connection is closed, and its last reply is read.
///
/// Dropped, it leaves the transfer: the last reply is read before the next command.
pub struct Finish<'r, R, Tr: TaskTransport, K: Drop, E: Encoding, B: Drop>
where
    Tr::Conn: TaskConn,
{
    ending: Ending<'r, R, Tr, K, E, B>,
}

impl<R, Tr: TaskTransport, K: Drop, E: Encoding, B: Drop> Drop for Finish<'_, R, Tr, K, E, B>
where
    Tr::Conn: TaskConn,
{
    fn drop(self) {
        let Self { ending } = self;
        drop(ending);
    }
}

/// A transfer is aborted.
///
/// Dropped before `ABOR` has gone out whole, it leaves the transfer, and the unsent tail of `ABOR` goes out before any
/// other byte; dropped later, the transfer is over. Either way the next call reads the replies to both first: one
/// reply of the transfer where it was left, and one of `ABOR`, before which a 426 may come.
pub struct Abort<'r, R, Tr: TaskTransport, K: Drop, E: Encoding, B: Drop>
where
    Tr::Conn: TaskConn,
{
    ending: Ending<'r, R, Tr, K, E, B>,
}

impl<R, Tr: TaskTransport, K: Drop, E: Encoding, B: Drop> Drop for Abort<'_, R, Tr, K, E, B>
where
    Tr::Conn: TaskConn,
{
    fn drop(self) {
        let Self { ending } = self;
        drop(ending);
    }
}

impl<'r, R, Tr: TaskTransport, K: Drop, E: Encoding, B: Drop> Finish<'r, R, Tr, K, E, B>
where
    Tr::Conn: TaskConn,
{
    pub(crate) fn new(ending: Ending<'r, R, Tr, K, E, B>) -> Self {
        Finish { ending }
    }
}

impl<'r, R, Tr: TaskTransport, K: Drop, E: Encoding, B: Drop> Abort<'r, R, Tr, K, E, B>
where
    Tr::Conn: TaskConn,
{
    pub(crate) fn new(ending: Ending<'r, R, Tr, K, E, B>) -> Self {
        Abort { ending }
    }
}

impl<'r, R: AllocGlobal, Tr, K: Drop, E: Encoding, B> Future for Finish<'r, R, Tr, K, E, B>
where
    Tr: PollTransport<R, ()> + TaskTransport,
    Tr::Conn: PollConn<()> + TaskConn,
    B: PassiveStreamBuilder<Tr::Conn>,
{
    type Output = FtpResult<()>;

    fn poll(&mut self, cx: &mut Context<'_>) -> Poll<FtpResult<()>> {
        self.ending.poll_ended(cx)
    }
}

impl<'r, R: AllocGlobal, Tr, K: Drop, E: Encoding, B> Future for Abort<'r, R, Tr, K, E, B>
where
    Tr: PollTransport<R, ()> + TaskTransport,
    Tr::Conn: PollConn<()> + TaskConn,
    B: PassiveStreamBuilder<Tr::Conn>,
{
    type Output = FtpResult<()>;

    fn poll(&mut self, cx: &mut Context<'_>) -> Poll<FtpResult<()>> {
        self.ending.poll_ended(cx)
    }
}

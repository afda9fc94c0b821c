//! The states of calls that open a data connection.

ghost use Rattle.futures.specs.Poll.{OnPending};
ghost use Rattle.futures.specs.Task.{IsArmed, Keeps};

use crate::calling::boxed;
use crate::client::Shared;
use crate::hold::Hold;
use crate::transfer_stream::TransferStream;
use crate::waiting::wait;
use ftp_base::encoding::Encoding;
use ftp_base::types::{ConnectionError, FtpError, FtpResult, Response};
use ftp_calls::call::BorrowedCall;
use ftp_session::session::{
    Answer, Call, DropsCalls, HandsTransfers, NewMark, PolledCall, PollsCalls, Session, take_back,
};
use ftp_transfer::{Direction, Transfer};
use ftp_transport::{PassiveStreamBuilder, PollConn, PollTransport, TaskConn, TaskTransport};
use futures::Future;
use futures::task::{Context, Poll};
use std::alloc::{AllocError, Global};
use std::mem;

/// What an opening returns: the transfer, with the reply of its command where that is asked for.
pub(crate) type Opened<C> = (Option<Response>, Transfer<C>);

/// A call that opens a transfer, with the lock, which it keeps.
pub(crate) struct Opening<'r, R, Tr: TaskTransport, K: Drop, E: Encoding, B: Drop>
where
    Tr::Conn: TaskConn,
{
    rt: &'r R,
    hold: Hold<Box<Session<Tr, K, E, B>>>,
    // In memory of its own, so that a future that moves moves little. None where there was no memory for it.
    call: Option<Box<PolledCall>>,
    // What sets the offset, until it is set; and whether there is one. It isn't left for another transfer.
    offset: Option<Box<PolledCall>>,
    has_offset: bool,
    // The mark of the transfer, made at the first poll.
    mark: Option<NewMark>,
    replies: bool,
    direction: Direction,
}

impl<'r, R: AllocGlobal, Tr: TaskTransport, K: Drop, E: Encoding, B: Drop> Opening<
    'r,
    R,
    Tr,
    K,
    E,
    B,
>
where
    Tr::Conn: TaskConn,
{
    /// An opening by the session that is shared so. Nothing is done before it is polled.
    pub(crate) fn new(
        rt: &'r R,
        shared: &Shared<Tr, K, E, B>,
        call: BorrowedCall<'_>,
        replies: bool,
        direction: Direction,
    ) -> Opening<'r, R, Tr, K, E, B> {
        Opening {
            rt,
            hold: Hold::on(shared),
            call: boxed(rt.alloc(), call),
            offset: None,
            has_offset: false,
            mark: None,
            replies,
            direction,
        }
    }

    /// The same, where the transfer begins at this offset, in bytes, in place of the one that was set before.
    pub(crate) fn at_offset(mut self, offset: u64) -> Opening<'r, R, Tr, K, E, B> {
        self.offset = boxed(self.rt.alloc(), BorrowedCall::ResumeTransfer(offset));
        self.has_offset = true;
        if self.offset.is_none() {
            drop(self.call.take());
        }
        self
    }

    /// Lets the lock go.
    pub(crate) fn let_go(&mut self) {
        self.hold.let_go();
    }

    /// The lock, which is held, for the end of the transfer.
    pub(crate) fn take_hold(&mut self) -> Hold<Box<Session<Tr, K, E, B>>> {
        self.hold.take()
    }

    /// Whether a text is sent, by the type that was set last.
    pub(crate) fn sends_text(&self) -> bool {
        match &self.hold {
            Hold::Has(session) => session.state().settings.text,
            _ => true,
        }
    }

    /// A whole file has met an error of input or output, if it did: on the data connection, or in what the caller handed in.
    pub(crate) fn note(&mut self, fault: &FtpError, data_failed: bool) {
        if let Hold::Has(session) = &mut self.hold {
            session.note_failure(fault, data_failed);
        }
    }

    /// Leaves a transfer under the lock, hands its data connection back, closed, and lets the lock go.
    pub(crate) fn abandon(&mut self, transfer: Transfer<Tr::Conn>) {
        if let Hold::Has(session) = &mut self.hold {
            if take_back(session, transfer).is_ok() {
                let call = PolledCall::alone(Call::Finish);
                session.drop_call(&call);
                drop(call);
            }
        }
        self.hold.let_go();
    }

    /// The runtime.
    pub(crate) fn runtime(&self) -> &'r R {
        self.rt
    }
}

impl<'r, R: AllocGlobal, Tr, K: Drop, E: Encoding, B> Opening<'r, R, Tr, K, E, B>
where
    Tr: PollTransport<R, ()> + TaskTransport,
    Tr::Conn: PollConn<()> + TaskConn,
    B: PassiveStreamBuilder<Tr::Conn>,
{
    /// Continues the opening, once the lock is held. The lock is kept.
    pub(crate) fn poll_opened(&mut self, cx: &mut Context<'_>) -> Poll<FtpResult<Opened<Tr::Conn>>>
        ensures registered { OnPending result (IsArmed cx.new) }
        ensures kept { Keeps cx.old cx.new }
    {
        match self.hold.poll_lock(cx) {
            Poll::Ready(Ok(())) => self.poll_held(cx),
            Poll::Ready(Err(AllocError)) => Poll::Ready(Err(FtpError::OutOfMemory)),
            Poll::Pending => Poll::Pending,
        }
    }

    /// Continues the opening under the lock.
    fn poll_held(&mut self, cx: &mut Context<'_>) -> Poll<FtpResult<Opened<Tr::Conn>>>
        ensures registered { OnPending result (IsArmed cx.new) }
        ensures kept { Keeps cx.old cx.new }
    {
        let Hold::Has(session) = &mut self.hold else {
            return Poll::Ready(Err(FtpError::ConnectionError(ConnectionError::AlreadyCompleted)));
        };
        let Some(call) = &mut self.call else {
            return Poll::Ready(Err(session.withheld()));
        };
        let alloc = self.rt.alloc();
        let mark = match self.mark.take() {
            Some(mark) => mark,
            None => match session.new_mark(alloc) {
                Ok(mark) => mark,
                Err(fault) => return Poll::Ready(Err(fault)),
            },
        };
        match poll_in_turn(session, self.rt, &mut self.offset, call) {
            Poll::Ready(answer) => {
                session.settle_mode();
                Poll::Ready(session.hand_over(mark, answer, self.replies, self.direction))
            }
            Poll::Pending => {
                drop(mem::replace(&mut self.mark, Some(mark)));
                wait(session, cx)
            }
        }
    }
}

/// Continues to set an offset, if there is one, and then the call that opens the transfer.
fn poll_in_turn<R: AllocGlobal, Tr, K: Drop, E: Encoding, B>(
    session: &mut Session<Tr, K, E, B>,
    rt: &R,
    offset: &mut Option<Box<PolledCall>>,
    call: &mut PolledCall,
) -> Poll<Answer>
where
    Tr: PollTransport<R, ()> + TaskTransport,
    Tr::Conn: PollConn<()> + TaskConn,
    B: PassiveStreamBuilder<Tr::Conn>,
{
    if let Some(sets) = offset {
        match session.poll_call(rt.alloc(), rt, sets, &mut ()) {
            Poll::Ready(Answer::Unit) => drop(offset.take()),
            other => return other,
        }
    }
    session.poll_call(rt.alloc(), rt, call, &mut ())
}

impl<R, Tr: TaskTransport, K: Drop, E: Encoding, B: Drop> Drop for Opening<'_, R, Tr, K, E, B>
where
    Tr::Conn: TaskConn,
{
    fn drop(self) {
        let Self {
            rt: _,
            mut hold,
            call,
            offset,
            has_offset,
            mark,
            replies: _,
            direction: _,
        } = self;
        if let Some(sets) = &offset {
            hold.drop_call(sets);
        } else if let Some(made) = &call {
            hold.drop_call(made);
        }
        if has_offset {
            hold.forget_offset();
        }
        drop(offset);
        drop(call);
        drop(mark);
        drop(hold);
    }
}

/// An opening whose transfer is returned with the session, for its end.
struct Streaming<'r, R, Tr: TaskTransport, K: Drop, E: Encoding, B: Drop>
where
    Tr::Conn: TaskConn,
{
    opening: Opening<'r, R, Tr, K, E, B>,
    // The session of the transfer, until that is returned; none where there was no memory to share it.
    session: Option<Shared<Tr, K, E, B>>,
    is_shared: bool,
}

impl<R, Tr: TaskTransport, K: Drop, E: Encoding, B: Drop> Drop for Streaming<'_, R, Tr, K, E, B>
where
    Tr::Conn: TaskConn,
{
    fn drop(self) {
        let Self {
            opening,
            session,
            is_shared: _,
        } = self;
        drop(opening);
        drop(session);
    }
}

/// What a stream's opening returns.
type Streamed<Tr, K, E, B> = (Option<Response>, TransferStream<Tr, K, E, B>);

impl<'r, R: AllocGlobal, Tr, K: Drop, E: Encoding, B> Streaming<'r, R, Tr, K, E, B>
where
    Tr: PollTransport<R, ()> + TaskTransport,
    Tr::Conn: PollConn<()> + TaskConn,
    B: PassiveStreamBuilder<Tr::Conn>,
{
    /// Continues the opening, and lets the lock go once it is over.
    fn poll_streamed(&mut self, cx: &mut Context<'_>) -> Poll<FtpResult<Streamed<Tr, K, E, B>>>
        ensures registered { OnPending result (IsArmed cx.new) }
        ensures kept { Keeps cx.old cx.new }
    {
        if !self.is_shared {
            return Poll::Ready(Err(FtpError::OutOfMemory));
        }
        match self.opening.poll_opened(cx) {
            Poll::Ready(opened) => {
                self.opening.let_go();
                Poll::Ready(stream_of(opened, self.session.take()))
            }
            Poll::Pending => Poll::Pending,
        }
    }
}

/// The stream of a transfer that was opened.
fn stream_of<Tr: TaskTransport, K: Drop, E: Encoding, B: Drop>(
    opened: FtpResult<Opened<Tr::Conn>>,
    session: Option<Shared<Tr, K, E, B>>,
) -> FtpResult<Streamed<Tr, K, E, B>>
where
    Tr::Conn: TaskConn,
{
    let (reply, transfer) = match opened {
        Ok(opened) => opened,
        Err(fault) => {
            drop(session);
            return Err(fault);
        }
    };
    match session {
        Some(session) => Ok((reply, TransferStream::new(transfer, session))),
        None => {
            drop(reply);
            drop(transfer);
            Err(FtpError::ConnectionError(ConnectionError::AlreadyCompleted))
        }
    }
}

/// A call that opens a transfer.
///
/// Dropped before it has its answer it opens none; the reply to a command that was begun is read by the next call, as that
/// of a `Dialogue` is. Where its data command was accepted already, and the peer is waited for, the transfer is left.
pub struct OpenTransfer<'r, R, Tr: TaskTransport, K: Drop, E: Encoding, B: Drop>
where
    Tr::Conn: TaskConn,
{
    streaming: Streaming<'r, R, Tr, K, E, B>,
}

impl<R, Tr: TaskTransport, K: Drop, E: Encoding, B: Drop> Drop for OpenTransfer<'_, R, Tr, K, E, B>
where
    Tr::Conn: TaskConn,
{
    fn drop(self) {
        let Self { streaming } = self;
        drop(streaming);
    }
}

/// A call that opens a transfer, and returns its command's reply, too. Dropped, it leaves what `OpenTransfer` does.
pub struct OpenWithReply<'r, R, Tr: TaskTransport, K: Drop, E: Encoding, B: Drop>
where
    Tr::Conn: TaskConn,
{
    streaming: Streaming<'r, R, Tr, K, E, B>,
}

impl<R, Tr: TaskTransport, K: Drop, E: Encoding, B: Drop> Drop for OpenWithReply<'_, R, Tr, K, E, B>
where
    Tr::Conn: TaskConn,
{
    fn drop(self) {
        let Self { streaming } = self;
        drop(streaming);
    }
}

impl<'r, R, Tr: TaskTransport, K: Drop, E: Encoding, B: Drop> OpenTransfer<'r, R, Tr, K, E, B>
where
    Tr::Conn: TaskConn,
{
    pub(crate) fn new(
        opening: Opening<'r, R, Tr, K, E, B>,
        shared: &Shared<Tr, K, E, B>,
    ) -> OpenTransfer<'r, R, Tr, K, E, B> {
        OpenTransfer {
            streaming: share(opening, shared),
        }
    }
}

impl<'r, R, Tr: TaskTransport, K: Drop, E: Encoding, B: Drop> OpenWithReply<'r, R, Tr, K, E, B>
where
    Tr::Conn: TaskConn,
{
    pub(crate) fn new(
        opening: Opening<'r, R, Tr, K, E, B>,
        shared: &Shared<Tr, K, E, B>,
    ) -> OpenWithReply<'r, R, Tr, K, E, B> {
        OpenWithReply {
            streaming: share(opening, shared),
        }
    }
}

/// An opening, with the session that its transfer is returned with.
fn share<'r, R, Tr: TaskTransport, K: Drop, E: Encoding, B: Drop>(
    opening: Opening<'r, R, Tr, K, E, B>,
    shared: &Shared<Tr, K, E, B>,
) -> Streaming<'r, R, Tr, K, E, B>
where
    Tr::Conn: TaskConn,
{
    let session = shared.clone().ok();
    Streaming {
        opening,
        is_shared: session.is_some(),
        session,
    }
}

impl<'r, R: AllocGlobal, Tr, K: Drop, E: Encoding, B> Future for OpenTransfer<'r, R, Tr, K, E, B>
where
    Tr: PollTransport<R, ()> + TaskTransport,
    Tr::Conn: PollConn<()> + TaskConn,
    B: PassiveStreamBuilder<Tr::Conn>,
{
    type Output = FtpResult<TransferStream<Tr, K, E, B>>;

    fn poll(&mut self, cx: &mut Context<'_>) -> Poll<FtpResult<TransferStream<Tr, K, E, B>>> {
        match self.streaming.poll_streamed(cx) {
            Poll::Ready(Ok((reply, stream))) => {
                drop(reply);
                Poll::Ready(Ok(stream))
            }
            Poll::Ready(Err(fault)) => Poll::Ready(Err(fault)),
            Poll::Pending => Poll::Pending,
        }
    }
}

impl<'r, R: AllocGlobal, Tr, K: Drop, E: Encoding, B> Future for OpenWithReply<'r, R, Tr, K, E, B>
where
    Tr: PollTransport<R, ()> + TaskTransport,
    Tr::Conn: PollConn<()> + TaskConn,
    B: PassiveStreamBuilder<Tr::Conn>,
{
    type Output = FtpResult<(Response, TransferStream<Tr, K, E, B>)>;

    fn poll(
        &mut self,
        cx: &mut Context<'_>,
    ) -> Poll<FtpResult<(Response, TransferStream<Tr, K, E, B>)>> {
        match self.streaming.poll_streamed(cx) {
            Poll::Ready(Ok((reply, stream))) => Poll::Ready(with_reply(reply, stream)),
            Poll::Ready(Err(fault)) => Poll::Ready(Err(fault)),
            Poll::Pending => Poll::Pending,
        }
    }
}

/// A transfer with the reply to its command, which an opening returns that asks for it.
fn with_reply<Tr: TaskTransport, K: Drop, E: Encoding, B: Drop>(
    reply: Option<Response>,
    stream: TransferStream<Tr, K, E, B>,
) -> FtpResult<(Response, TransferStream<Tr, K, E, B>)>
where
    Tr::Conn: TaskConn,
{
    match reply {
        Some(reply) => Ok((reply, stream)),
        None => {
            drop(stream);
            Err(FtpError::ConnectionError(ConnectionError::AlreadyCompleted))
        }
    }
}

//! The state that has names sent in UTF-8 (RFC 2640), where a server has to be asked for them.

ghost use Rattle.futures.specs.Poll.{OnPending};
ghost use Rattle.futures.specs.Task.{IsArmed, Keeps};

use crate::calling::Calling;
use crate::client::{ImplAsyncFtpStream, Shared};
use crate::from_answer::FromAnswer;
use ftp_base::encoding::Encoding;
use ftp_base::status::Status;
use ftp_base::types::{Features, FtpError, FtpResult, Response};
use ftp_calls::call::BorrowedCall;
use ftp_session::session::Answer;
use ftp_shared::{UTF8, UTF8_ON, has_feature};
use ftp_transport::{PassiveStreamBuilder, PollConn, PollTransport, TaskConn, TaskTransport};
use futures::Future;
use futures::task::{Context, Poll};

/// Names in UTF-8 are asked for: `FEAT`, and then `OPTS`, each in a hold of the lock. It returns whether that was accepted.
///
/// Dropped, it drops the call that is under way, as a [`Dialogue`](crate::Dialogue) is dropped.
pub struct UseUtf8<'r, R, Tr: TaskTransport, K: Drop, E: Encoding, B: Drop>
where
    Tr::Conn: TaskConn,
{
    // Whether the server was asked for its features.
    asked: bool,
    features: Calling<'r, R, Tr, K, E, B>,
    option: Calling<'r, R, Tr, K, E, B>,
}

impl<R, Tr: TaskTransport, K: Drop, E: Encoding, B: Drop> Drop for UseUtf8<'_, R, Tr, K, E, B>
where
    Tr::Conn: TaskConn,
{
    fn drop(self) {
        let Self {
            asked: _,
            features,
            option,
        } = self;
        drop(features);
        drop(option);
    }
}

impl<'r, R: AllocGlobal, Tr: TaskTransport, K: Drop, E: Encoding, B: Drop> UseUtf8<
    'r,
    R,
    Tr,
    K,
    E,
    B,
>
where
    Tr::Conn: TaskConn,
{
    /// The state for the session that is shared so. Nothing is done before it is polled.
    pub(crate) fn new(rt: &'r R, shared: &Shared<Tr, K, E, B>) -> UseUtf8<'r, R, Tr, K, E, B> {
        let accepted = [Status::CommandOk, Status::CommandNotImplemented];
        UseUtf8 {
            asked: false,
            features: Calling::new(rt, shared, BorrowedCall::Feat),
            option: Calling::new(rt, shared, BorrowedCall::CustomCommand(UTF8_ON, &accepted)),
        }
    }
}

impl<'r, R: AllocGlobal, Tr, K: Drop, E: Encoding, B> UseUtf8<'r, R, Tr, K, E, B>
where
    Tr: PollTransport<R, ()> + TaskTransport,
    Tr::Conn: PollConn<()> + TaskConn,
    B: PassiveStreamBuilder<Tr::Conn>,
{
    /// Continues to ask for the features, and then to set the option.
    pub(crate) fn poll_accepted(&mut self, cx: &mut Context<'_>) -> Poll<FtpResult<bool>>
        ensures registered { OnPending result (IsArmed cx.new) }
        ensures kept { Keeps cx.old cx.new }
    {
        if !self.asked {
            match self.features.poll_answer(cx) {
                Poll::Ready(answer) => match names_utf8(answer) {
                    Ok(true) => self.asked = true,
                    Ok(false) => return Poll::Ready(Ok(false)),
                    Err(fault) => return Poll::Ready(Err(fault)),
                },
                Poll::Pending => return Poll::Pending,
            }
        }
        match self.option.poll_answer(cx) {
            Poll::Ready(answer) => Poll::Ready(is_accepted(answer)),
            Poll::Pending => Poll::Pending,
        }
    }
}

/// Whether an answer to `FEAT` names UTF-8.
///
/// # Errors
/// The answer's, but for `UnexpectedResponse`.
fn names_utf8(answer: Answer) -> FtpResult<bool> {
    match Features::from_answer(answer) {
        Ok(features) => Ok(has_feature(&features, UTF8)),
        Err(FtpError::UnexpectedResponse(_reply)) => Ok(false),
        Err(fault) => Err(fault),
    }
}

/// Whether an answer to `OPTS` is that the option is set.
///
/// # Errors
/// The answer's, but for `UnexpectedResponse`.
fn is_accepted(answer: Answer) -> FtpResult<bool> {
    match Response::from_answer(answer) {
        Ok(_reply) => Ok(true),
        Err(FtpError::UnexpectedResponse(_reply)) => Ok(false),
        Err(fault) => Err(fault),
    }
}

impl<'r, R: AllocGlobal, Tr, K: Drop, E: Encoding, B> Future for UseUtf8<'r, R, Tr, K, E, B>
where
    Tr: PollTransport<R, ()> + TaskTransport,
    Tr::Conn: PollConn<()> + TaskConn,
    B: PassiveStreamBuilder<Tr::Conn>,
{
    type Output = FtpResult<bool>;

    fn poll(&mut self, cx: &mut Context<'_>) -> Poll<FtpResult<bool>> {
        self.poll_accepted(cx)
    }
}

impl<Tr: TaskTransport, K: Drop, E: Encoding, B: Drop> ImplAsyncFtpStream<Tr, K, E, B>
where
    Tr::Conn: TaskConn,
{
    /// Has the server send and read names in UTF-8: `FEAT` (211; RFC 2389, section 3), and where that names `UTF8`, `OPTS`
    /// (200, 202; RFC 2389, section 4) of `UTF8 ON`. RFC 2640 has the feature, and servers have added the option. Returns
    /// whether that was accepted. The client's own names are UTF-8 all along, unless it has another encoding. `FEAT` and
    /// `OPTS` are a hold of the lock each.
    ///
    /// # Errors
    /// Those of `feat`, but for `UnexpectedResponse`: a server that refuses `FEAT` or `OPTS` has accepted nothing.
    pub fn use_utf8<'r, R: AllocGlobal>(&self, rt: &'r R) -> UseUtf8<'r, R, Tr, K, E, B> {
        UseUtf8::new(rt, &self.session)
    }
}

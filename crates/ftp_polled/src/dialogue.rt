//! The states of calls that return a value: commands and their replies, reads of one reply, whole files and listings.

use crate::calling::Calling;
use crate::from_answer::FromAnswer;
use ftp_base::encoding::Encoding;
use ftp_base::types::{FtpResult, Response};
use ftp_transport::{PassiveStreamBuilder, PollConn, PollTransport, TaskConn, TaskTransport};
use futures::Future;
use futures::task::{Context, Poll};
use std::marker::PhantomData;

/// A call that returns an `A`.
///
/// Dropped, it lets the lock go. The last reply of a transfer that was left, where it was waited for, is read by the
/// next call. Once a line of the call itself was begun its reply is, too, before that call sends or receives anything
/// of its own; a plain read returns it. A whole file or listing that is dropped once its command was accepted leaves
/// its transfer.
pub struct Dialogue<'r, R, Tr: TaskTransport, K: Drop, E: Encoding, B: Drop, A>
where
    Tr::Conn: TaskConn,
{
    calling: Calling<'r, R, Tr, K, E, B>,
    gives: PhantomData<A>,
}

impl<R, Tr: TaskTransport, K: Drop, E: Encoding, B: Drop, A> Drop
    for Dialogue<'_, R, Tr, K, E, B, A>
where
    Tr::Conn: TaskConn,
{
    fn drop(self) {
        let Self { calling, gives: _ } = self;
        drop(calling);
    }
}

/// A read of one reply, which may be dropped and begun again: what was read of the reply is kept.
pub type ReadReply<'r, R, Tr, K, E, B> = Dialogue<'r, R, Tr, K, E, B, Response>;

/// The lines of a listing.
pub type Lines<'r, R, Tr, K, E, B> = Dialogue<'r, R, Tr, K, E, B, Vec<String>>;

impl<'r, R, Tr: TaskTransport, K: Drop, E: Encoding, B: Drop, A> Dialogue<'r, R, Tr, K, E, B, A>
where
    Tr::Conn: TaskConn,
{
    pub(crate) fn new(calling: Calling<'r, R, Tr, K, E, B>) -> Self {
        Dialogue {
            calling,
            gives: PhantomData,
        }
    }
}

impl<'r, R: AllocGlobal, Tr, K: Drop, E: Encoding, B, A: FromAnswer> Future
    for Dialogue<'r, R, Tr, K, E, B, A>
where
    Tr: PollTransport<R, ()> + TaskTransport,
    Tr::Conn: PollConn<()> + TaskConn,
    B: PassiveStreamBuilder<Tr::Conn>,
{
    type Output = FtpResult<A>;

    fn poll(&mut self, cx: &mut Context<'_>) -> Poll<FtpResult<A>> {
        match self.calling.poll_answer(cx) {
            Poll::Ready(answer) => Poll::Ready(A::from_answer(answer)),
            Poll::Pending => Poll::Pending,
        }
    }
}

//! The settings of a client, a state each: the session's call of that name under the lock. Nothing is sent.

use crate::client::ImplAsyncFtpStream;
use crate::hold::Hold;
use ftp_base::encoding::Encoding;
use ftp_base::types::{ActivePeerCheck, ConnectionError, FtpError, FtpResult, Mode};
use ftp_session::session::Session;
use ftp_transport::{TaskConn, TaskTransport};
use futures::Future;
use futures::task::{Context, Poll};
use std::alloc::{AllocError, Global};
use std::time::Duration;

/// What is set.
#[derive(Drop)]
pub(crate) enum Adjustment<E: Drop, B: Drop> {
    Mode(Mode),
    PassiveNatWorkaround(bool),
    ActivePeerCheck(ActivePeerCheck),
    ActiveDeadline(Duration),
    LenientReplies(bool),
    ActiveMode(Duration),
    Encoding(E),
    Builder(B),
}

/// A setting of a client, which changes once the lock is held. Dropped before, it changes nothing.
///
/// # Errors
/// `OutOfMemory` where there is no memory to wait for the lock, or for the greeting's text under another encoding, and
/// nothing changes.
pub struct Adjust<'r, R, Tr: TaskTransport, K: Drop, E: Encoding, B: Drop>
where
    Tr::Conn: TaskConn,
{
    rt: &'r R,
    hold: Hold<Box<Session<Tr, K, E, B>>>,
    adjustment: Option<Adjustment<E, B>>,
}

impl<R, Tr: TaskTransport, K: Drop, E: Encoding, B: Drop> Drop for Adjust<'_, R, Tr, K, E, B>
where
    Tr::Conn: TaskConn,
{
    fn drop(self) {
        let Self {
            rt: _,
            hold,
            adjustment,
        } = self;
        drop(hold);
        drop(adjustment);
    }
}

impl<'r, R: AllocGlobal, Tr: TaskTransport, K: Drop, E: Encoding, B: Drop> Future
    for Adjust<'r, R, Tr, K, E, B>
where
    Tr::Conn: TaskConn,
{
    type Output = FtpResult<()>;

    fn poll(&mut self, cx: &mut Context<'_>) -> Poll<FtpResult<()>> {
        match self.hold.poll_lock(cx) {
            Poll::Ready(Ok(())) => {
                let adjusted = change(self.rt.alloc(), &mut self.hold, self.adjustment.take());
                self.hold.let_go();
                Poll::Ready(adjusted)
            }
            Poll::Ready(Err(AllocError)) => Poll::Ready(Err(FtpError::OutOfMemory)),
            Poll::Pending => Poll::Pending,
        }
    }
}

/// Changes a setting under the lock.
fn change<Tr: TaskTransport, K: Drop, E: Encoding, B: Drop>(
    alloc: Global,
    hold: &mut Hold<Box<Session<Tr, K, E, B>>>,
    adjustment: Option<Adjustment<E, B>>,
) -> FtpResult<()>
where
    Tr::Conn: TaskConn,
{
    let (Hold::Has(session), Some(adjustment)) = (hold, adjustment) else {
        return Err(FtpError::ConnectionError(ConnectionError::AlreadyCompleted));
    };
    match adjustment {
        Adjustment::Mode(mode) => session.set_mode(mode),
        Adjustment::PassiveNatWorkaround(enabled) => session.set_passive_nat_workaround(enabled),
        Adjustment::ActivePeerCheck(check) => session.set_active_peer_check(check),
        Adjustment::ActiveDeadline(deadline) => session.set_active_deadline(deadline),
        Adjustment::LenientReplies(lenient) => session.set_lenient_replies(lenient),
        Adjustment::ActiveMode(deadline) => {
            session.set_mode(Mode::Active);
            session.set_active_deadline(deadline);
        }
        Adjustment::Encoding(encoding) => return session.set_encoding(alloc, encoding),
        Adjustment::Builder(builder) => session.set_passive_stream_builder(builder),
    }
    Ok(())
}

impl<Tr: TaskTransport, K: Drop, E: Encoding, B: Drop> ImplAsyncFtpStream<Tr, K, E, B>
where
    Tr::Conn: TaskConn,
{
    /// The state of a setting.
    fn set<'r, R>(&self, rt: &'r R, adjustment: Adjustment<E, B>) -> Adjust<'r, R, Tr, K, E, B> {
        Adjust {
            rt,
            hold: Hold::on(&self.session),
            adjustment: Some(adjustment),
        }
    }

    /// Sets how later data connections come about.
    pub fn set_mode<'r, R>(&self, rt: &'r R, mode: Mode) -> Adjust<'r, R, Tr, K, E, B> {
        self.set(rt, Adjustment::Mode(mode))
    }

    /// Sets whether the control connection's address stands for the one that `PASV` is answered with.
    pub fn set_passive_nat_workaround<'r, R>(
        &self,
        rt: &'r R,
        enabled: bool,
    ) -> Adjust<'r, R, Tr, K, E, B> {
        self.set(rt, Adjustment::PassiveNatWorkaround(enabled))
    }

    /// Sets which peers may open a data connection in active mode.
    pub fn set_active_peer_check<'r, R>(
        &self,
        rt: &'r R,
        check: ActivePeerCheck,
    ) -> Adjust<'r, R, Tr, K, E, B> {
        self.set(rt, Adjustment::ActivePeerCheck(check))
    }

    /// Sets how long a peer's data connection is waited for in active mode.
    pub fn set_active_deadline<'r, R>(
        &self,
        rt: &'r R,
        deadline: Duration,
    ) -> Adjust<'r, R, Tr, K, E, B> {
        self.set(rt, Adjustment::ActiveDeadline(deadline))
    }

    /// Sets whether the replies that begin from now on are read leniently (`ReplyRule::Lenient`), or as RFC 959,
    /// section 4.2, has it. A reply that was read in part, as by a read that was dropped, is read on as it began. A
    /// client begins strict, unless a call with `lenient` in its name connected it.
    pub fn set_lenient_replies<'r, R>(
        &self,
        rt: &'r R,
        lenient: bool,
    ) -> Adjust<'r, R, Tr, K, E, B> {
        self.set(rt, Adjustment::LenientReplies(lenient))
    }

    /// Sets active mode, and how long a peer's data connection is waited for.
    pub fn active_mode<'r, R>(&self, rt: &'r R, deadline: Duration) -> Adjust<'r, R, Tr, K, E, B> {
        self.set(rt, Adjustment::ActiveMode(deadline))
    }

    /// Sets the encoding of texts on the control connection; the text of the greeting is read again under it.
    pub fn set_encoding<'r, R>(&self, rt: &'r R, encoding: E) -> Adjust<'r, R, Tr, K, E, B> {
        self.set(rt, Adjustment::Encoding(encoding))
    }

    /// Has later passive data connections made by this builder.
    pub fn passive_stream_builder<'r, R>(
        &self,
        rt: &'r R,
        builder: B,
    ) -> Adjust<'r, R, Tr, K, E, B> {
        self.set(rt, Adjustment::Builder(builder))
    }

    /// The same, by the blocking client's name.
    pub fn set_passive_stream_builder<'r, R>(
        &self,
        rt: &'r R,
        builder: B,
    ) -> Adjust<'r, R, Tr, K, E, B> {
        self.passive_stream_builder(rt, builder)
    }
}

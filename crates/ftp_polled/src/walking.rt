//! The state of a walk: a folder and all below it. What is listed next, what is entered and where a walk ends is
//! `ftp_shared`'s [`Walk`].

ghost use Rattle.std.specs.Prelude.{◌≡◌, ◌≢◌, Some};
ghost use Rattle.futures.specs.Poll.{OnPending};
ghost use Rattle.futures.specs.Task.{IsArmed, Keeps};

use crate::calling::Calling;
use crate::client::{ImplAsyncFtpStream, Shared};
use crate::file_lists::{facts_in, files_in};
use crate::from_answer::FromAnswer;
use ftp_base::encoding::Encoding;
use ftp_base::types::{ConnectionError, Features, FtpError, FtpResult};
use ftp_calls::call::BorrowedCall;
use ftp_copying::STEPS;
use ftp_session::session::Answer;
use ftp_shared::{Place, Visitor, Walk, WalkLimits, has_facts};
use ftp_transport::{PassiveStreamBuilder, PollConn, PollTransport, TaskConn, TaskTransport};
use futures::Future;
use futures::task::{Context, Poll};
use std::mem;
use std::time::Clock;

/// A folder that is listed.
struct Listed<'r, R, Tr: TaskTransport, K: Drop, E: Encoding, B: Drop>
where
    Tr::Conn: TaskConn,
{
    folder: Place,
    lines: Calling<'r, R, Tr, K, E, B>,
}

impl<R, Tr: TaskTransport, K: Drop, E: Encoding, B: Drop> Drop for Listed<'_, R, Tr, K, E, B>
where
    Tr::Conn: TaskConn,
{
    fn drop(self) {
        let Self { folder, lines } = self;
        drop(folder);
        drop(lines);
    }
}

/// A walk: `FEAT`, and a listing of each folder, each in a hold of the lock. No lock is held while the visitor runs.
///
/// Dropped, it drops the call that is under way, as a [`Dialogue`](crate::Dialogue) is dropped.
pub struct Walking<'r, R, Tr: TaskTransport, K: Drop, E: Encoding, B: Drop, V: Visitor>
where
    Tr::Conn: TaskConn,
{
    rt: &'r R,
    // None where there was no memory; the walk neither once it has ended.
    session: Option<Shared<Tr, K, E, B>>,
    walk: Option<Walk>,
    // Why there is no walk, until it is returned.
    fault: Option<FtpError>,
    visitor: V,
    features: Calling<'r, R, Tr, K, E, B>,
    // Whether the server has facts, once it was asked.
    has_facts: Option<bool>,
    listed: Option<Listed<'r, R, Tr, K, E, B>>,
}

impl<R, Tr: TaskTransport, K: Drop, E: Encoding, B: Drop, V: Visitor> Drop
    for Walking<'_, R, Tr, K, E, B, V>
where
    Tr::Conn: TaskConn,
{
    fn drop(self) {
        let Self {
            rt: _,
            session,
            walk,
            fault,
            visitor,
            features,
            has_facts: _,
            listed,
        } = self;
        drop(fault);
        drop(features);
        drop(listed);
        drop(session);
        drop(walk);
        drop(visitor);
    }
}

impl<'r, R: Clock + AllocGlobal, Tr, K: Drop, E: Encoding, B, V: Visitor> Walking<
    'r,
    R,
    Tr,
    K,
    E,
    B,
    V,
>
where
    Tr: PollTransport<R, ()> + TaskTransport,
    Tr::Conn: PollConn<()> + TaskConn,
    B: PassiveStreamBuilder<Tr::Conn>,
{
    /// Continues the walk.
    fn poll_walk(&mut self, cx: &mut Context<'_>) -> Poll<FtpResult<()>>
        ensures registered { OnPending result (IsArmed cx.new) }
        ensures kept { Keeps cx.old cx.new }
    {
        for _ in 0..STEPS {
            if let Some(polled) = self.poll_step(cx) {
                return polled;
            }
        }
        cx.yield_now()
    }

    /// Makes a step: the features, the next folder, or its listing. None where the walk goes on.
    fn poll_step(&mut self, cx: &mut Context<'_>) -> Option<Poll<FtpResult<()>>>
        ensures registered { result ≡ Some Poll.Pending → IsArmed cx.new }
        ensures kept { Keeps cx.old cx.new }
    {
        let Some(has_facts) = self.has_facts else {
            return self.poll_features(cx);
        };
        let Some(listed) = &mut self.listed else {
            return over(self.begin(has_facts));
        };
        match listed.lines.poll_answer(cx) {
            Poll::Ready(answer) => over(self.visit(answer, has_facts)),
            Poll::Pending => Some(Poll::Pending),
        }
    }

    /// Continues to ask for the features.
    fn poll_features(&mut self, cx: &mut Context<'_>) -> Option<Poll<FtpResult<()>>>
        ensures registered { result ≡ Some Poll.Pending → IsArmed cx.new }
        ensures kept { Keeps cx.old cx.new }
    {
        match self.features.poll_answer(cx) {
            Poll::Ready(answer) => match facts_of(answer) {
                Ok(has_facts) => {
                    self.has_facts = Some(has_facts);
                    None
                }
                Err(fault) => Some(Poll::Ready(Err(fault))),
            },
            Poll::Pending => Some(Poll::Pending),
        }
    }

    /// The listing of the next folder begins; whether there is one.
    fn begin(&mut self, has_facts: bool) -> FtpResult<bool> {
        let (Some(walk), Some(session)) = (&mut self.walk, &self.session) else {
            return Err(self.no_walk());
        };
        let Some(folder) = walk.next_folder(&mut self.visitor)? else {
            return Ok(false);
        };
        let path = walk.path(self.rt.alloc(), &folder)?;
        let call = if has_facts {
            BorrowedCall::Mlsd(Some(path.as_str()))
        } else {
            BorrowedCall::List(Some(path.as_str()))
        };
        let lines = Calling::new(self.rt, session, call);
        drop(mem::replace(&mut self.listed, Some(Listed { folder, lines })));
        Ok(true)
    }

    /// Why there is no walk.
    fn no_walk(&mut self) -> FtpError {
        match self.fault.take() {
            Some(fault) => fault,
            None => FtpError::ConnectionError(ConnectionError::AlreadyCompleted),
        }
    }

    /// Shows what a folder's listing has; the walk goes on.
    fn visit(&mut self, answer: Answer, has_facts: bool) -> FtpResult<bool> {
        let (Some(walk), Some(listed)) = (&mut self.walk, self.listed.take()) else {
            return Err(self.no_walk());
        };
        let listing = if has_facts {
            facts_in(self.rt, answer)
        } else {
            files_in(self.rt, answer)
        };
        let folder = &listed.folder;
        match listing {
            Ok(listing) => walk.visit(self.rt.alloc(), folder, &listing, &mut self.visitor)?,
            Err(FtpError::UnexpectedResponse(reply)) => {
                walk.refused(folder, &reply, &mut self.visitor)?;
            }
            Err(fault) => return Err(fault),
        }
        Ok(true)
    }
}

/// What a poll returns after a step: nothing where the walk goes on.
fn over(goes_on: FtpResult<bool>) -> Option<Poll<FtpResult<()>>>
    ensures { result ≢ Some Poll.Pending }
{
    match goes_on {
        Ok(true) => None,
        Ok(false) => Some(Poll::Ready(Ok(()))),
        Err(fault) => Some(Poll::Ready(Err(fault))),
    }
}

/// Whether an answer to `FEAT` is that the server has facts.
///
/// # Errors
/// The answer's, but for `UnexpectedResponse`.
fn facts_of(answer: Answer) -> FtpResult<bool> {
    match Features::from_answer(answer) {
        Ok(features) => Ok(has_facts(&features)),
        Err(FtpError::UnexpectedResponse(_reply)) => Ok(false),
        Err(fault) => Err(fault),
    }
}

impl<'r, R: Clock + AllocGlobal, Tr, K: Drop, E: Encoding, B, V: Visitor> Future
    for Walking<'r, R, Tr, K, E, B, V>
where
    Tr: PollTransport<R, ()> + TaskTransport,
    Tr::Conn: PollConn<()> + TaskConn,
    B: PassiveStreamBuilder<Tr::Conn>,
{
    type Output = FtpResult<()>;

    fn poll(&mut self, cx: &mut Context<'_>) -> Poll<FtpResult<()>> {
        let polled = self.poll_walk(cx);
        if polled.is_ready() {
            drop(self.walk.take());
        }
        polled
    }
}

impl<Tr: TaskTransport, K: Drop, E: Encoding, B: Drop> ImplAsyncFtpStream<Tr, K, E, B>
where
    Tr::Conn: TaskConn,
{
    /// Shows a folder's entries and those of the folders below it to a visitor, depth first, as `list_entries` lists them:
    /// by `MLSD` (150, 125; RFC 3659, section 7) or by `LIST`; `FEAT` (211) is asked once. An empty path is the current directory.
    /// The visitor says which folders are entered, and is told what is passed over: a folder that the server refuses to list,
    /// lines that can't be read, what lies too deep or is too many, names that lead elsewhere. What links lead to isn't
    /// looked at. `&mut visitor` may be passed, too. No lock is held while it runs.
    ///
    /// # Errors
    /// Those of `list_entries`, but for `UnexpectedResponse`; the visitor's.
    pub fn walk<'r, R: AllocGlobal, V: Visitor>(
        &self,
        rt: &'r R,
        path: &str,
        limits: WalkLimits,
        visitor: V,
    ) -> Walking<'r, R, Tr, K, E, B, V> {
        let session = self.session.clone().ok();
        let walk = Walk::new(rt.alloc(), path, limits).ok();
        let fault = if session.is_some() && walk.is_some() {
            None
        } else {
            Some(FtpError::OutOfMemory)
        };
        Walking {
            rt,
            session,
            walk,
            fault,
            visitor,
            features: Calling::new(rt, &self.session, BorrowedCall::Feat),
            has_facts: None,
            listed: None,
        }
    }
}

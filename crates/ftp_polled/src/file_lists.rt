//! The states that list a directory's files, whichever listing its server has: the facts of `MLSD` (RFC 3659, section 7),
//! or else the lines of `LIST` (RFC 959, section 4.1.3), whose form no RFC fixes.

ghost use Rattle.futures.specs.Poll.{OnPending};
ghost use Rattle.futures.specs.Task.{IsArmed, Keeps};

use crate::calling::Calling;
use crate::client::ImplAsyncFtpStream;
use crate::from_answer::FromAnswer;
use ftp_base::encoding::Encoding;
use ftp_base::types::{Features, FtpError, FtpResult};
use ftp_calls::call::BorrowedCall;
use ftp_list::{File, Listing, names_facts};
use ftp_session::session::Answer;
use ftp_transport::{PassiveStreamBuilder, PollConn, PollTransport, TaskConn, TaskTransport};
use futures::Future;
use futures::task::{Context, Poll};
use jiff::Timestamp;
use std::time::Clock;

/// How far a list of files has come.
#[derive(Clone, Copy)]
enum Turn {
    /// The server is asked for its features.
    Features,
    /// It lists the facts of each file.
    Facts,
    /// It lists lines of its own form.
    Lines,
}

/// The listing of a directory: `FEAT`, and then `MLSD` or `LIST`, each in a hold of the lock.
///
/// Dropped, it drops the call that is under way, as a [`Dialogue`](crate::Dialogue) is dropped.
pub struct ListEntries<'r, R, Tr: TaskTransport, K: Drop, E: Encoding, B: Drop>
where
    Tr::Conn: TaskConn,
{
    rt: &'r R,
    turn: Turn,
    features: Calling<'r, R, Tr, K, E, B>,
    // Neither listing waits for the lock before it is polled.
    facts: Calling<'r, R, Tr, K, E, B>,
    lines: Calling<'r, R, Tr, K, E, B>,
}

impl<R, Tr: TaskTransport, K: Drop, E: Encoding, B: Drop> Drop for ListEntries<'_, R, Tr, K, E, B>
where
    Tr::Conn: TaskConn,
{
    fn drop(self) {
        let Self {
            rt: _,
            turn: _,
            features,
            facts,
            lines,
        } = self;
        drop(features);
        drop(facts);
        drop(lines);
    }
}

impl<'r, R: Clock + AllocGlobal, Tr, K: Drop, E: Encoding, B> ListEntries<'r, R, Tr, K, E, B>
where
    Tr: PollTransport<R, ()> + TaskTransport,
    Tr::Conn: PollConn<()> + TaskConn,
    B: PassiveStreamBuilder<Tr::Conn>,
{
    /// Continues to ask for the features, and then to list the files.
    fn poll_entries(&mut self, cx: &mut Context<'_>) -> Poll<FtpResult<Listing>>
        ensures registered { OnPending result (IsArmed cx.new) }
        ensures kept { Keeps cx.old cx.new }
    {
        if let Turn::Features = self.turn {
            match self.features.poll_answer(cx) {
                Poll::Ready(answer) => match turn_after(answer) {
                    Ok(turn) => self.turn = turn,
                    Err(fault) => return Poll::Ready(Err(fault)),
                },
                Poll::Pending => return Poll::Pending,
            }
        }
        self.poll_listing(cx)
    }

    /// Continues to list the files.
    fn poll_listing(&mut self, cx: &mut Context<'_>) -> Poll<FtpResult<Listing>>
        ensures registered { OnPending result (IsArmed cx.new) }
        ensures kept { Keeps cx.old cx.new }
    {
        if let Turn::Facts = self.turn {
            match self.facts.poll_answer(cx) {
                Poll::Ready(answer) => Poll::Ready(facts_in(self.rt, answer)),
                Poll::Pending => Poll::Pending,
            }
        } else {
            match self.lines.poll_answer(cx) {
                Poll::Ready(answer) => Poll::Ready(files_in(self.rt, answer)),
                Poll::Pending => Poll::Pending,
            }
        }
    }
}

/// Which listing follows this answer to `FEAT`.
///
/// # Errors
/// The answer's, but for `UnexpectedResponse`.
fn turn_after(answer: Answer) -> FtpResult<Turn> {
    match Features::from_answer(answer) {
        Ok(features) => {
            if features
                .iter()
                .any(|(name, _value)| names_facts(name.as_str()))
            {
                Ok(Turn::Facts)
            } else {
                Ok(Turn::Lines)
            }
        }
        Err(FtpError::UnexpectedResponse(_reply)) => Ok(Turn::Lines),
        Err(fault) => Err(fault),
    }
}

/// What the answer to `MLSD` says.
///
/// # Errors
/// The answer's; `OutOfMemory`.
pub(crate) fn facts_in<R: AllocGlobal>(rt: &R, answer: Answer) -> FtpResult<Listing> {
    let lines: Vec<String> = FromAnswer::from_answer(answer)?;
    Ok(Listing::of_mlsd(rt.alloc(), &lines)?)
}

/// What the answer to `LIST` says.
///
/// # Errors
/// The answer's; `BadResponse` where the present moment can't be read; `OutOfMemory`.
pub(crate) fn files_in<R: Clock + AllocGlobal>(rt: &R, answer: Answer) -> FtpResult<Listing> {
    let lines: Vec<String> = FromAnswer::from_answer(answer)?;
    match Timestamp::now(rt) {
        Ok(now) => Ok(Listing::of_list(rt.alloc(), &lines, now)?),
        Err(_) => Err(FtpError::BadResponse),
    }
}

impl<'r, R: Clock + AllocGlobal, Tr, K: Drop, E: Encoding, B> Future
    for ListEntries<'r, R, Tr, K, E, B>
where
    Tr: PollTransport<R, ()> + TaskTransport,
    Tr::Conn: PollConn<()> + TaskConn,
    B: PassiveStreamBuilder<Tr::Conn>,
{
    type Output = FtpResult<Listing>;

    fn poll(&mut self, cx: &mut Context<'_>) -> Poll<FtpResult<Listing>> {
        self.poll_entries(cx)
    }
}

/// The files of a directory, as [`ListEntries`] lists them.
///
/// Dropped, it drops the call that is under way, as a [`Dialogue`](crate::Dialogue) is dropped.
pub struct ListFiles<'r, R, Tr: TaskTransport, K: Drop, E: Encoding, B: Drop>
where
    Tr::Conn: TaskConn,
{
    entries: ListEntries<'r, R, Tr, K, E, B>,
}

impl<R, Tr: TaskTransport, K: Drop, E: Encoding, B: Drop> Drop for ListFiles<'_, R, Tr, K, E, B>
where
    Tr::Conn: TaskConn,
{
    fn drop(self) {
        let Self { entries } = self;
        drop(entries);
    }
}

impl<'r, R: Clock + AllocGlobal, Tr, K: Drop, E: Encoding, B> Future
    for ListFiles<'r, R, Tr, K, E, B>
where
    Tr: PollTransport<R, ()> + TaskTransport,
    Tr::Conn: PollConn<()> + TaskConn,
    B: PassiveStreamBuilder<Tr::Conn>,
{
    type Output = FtpResult<Vec<File>>;

    fn poll(&mut self, cx: &mut Context<'_>) -> Poll<FtpResult<Vec<File>>> {
        match self.entries.poll_entries(cx) {
            Poll::Ready(Ok(listing)) => match listing.into_files() {
                Some(files) => Poll::Ready(Ok(files)),
                None => Poll::Ready(Err(FtpError::BadResponse)),
            },
            Poll::Ready(Err(fault)) => Poll::Ready(Err(fault)),
            Poll::Pending => Poll::Pending,
        }
    }
}

impl<Tr: TaskTransport, K: Drop, E: Encoding, B: Drop> ImplAsyncFtpStream<Tr, K, E, B>
where
    Tr::Conn: TaskConn,
{
    /// The files of this directory, or of the current one, as `list_entries` lists them: without the directory itself and its
    /// parents, and without what in `MLSD` only the server's system has, as a device.
    ///
    /// # Errors
    /// Those of `list_entries`; `BadResponse` where one of the lines can't be read, as that of a device in `LIST`.
    pub fn list_files<'r, R: AllocGlobal>(
        &self,
        rt: &'r R,
        path: Option<&str>,
    ) -> ListFiles<'r, R, Tr, K, E, B> {
        ListFiles {
            entries: self.list_entries(rt, path),
        }
    }

    /// The listing of this directory, or of the current one: its files, the directory itself and its parents where the server
    /// lists them, what only the server's system has, and the lines that can't be read. By `MLSD`, where the reply to `FEAT`
    /// names `MLST`, which stands for both (RFC 3659, section 7.8), or `MLSD`; else, and where the server refuses `FEAT`, by
    /// `LIST`. The lines are read by [`Listing::of_mlsd`] or [`Listing::of_list`]. `FEAT` and the listing are a hold of the
    /// lock each.
    ///
    /// # Errors
    /// Those of `feat`, but for `UnexpectedResponse`; those of `mlsd` or `list`. After a listing by `LIST` `BadResponse`,
    /// where the present moment can't be read, by which a line that names no year is dated; `OutOfMemory`.
    pub fn list_entries<'r, R: AllocGlobal>(
        &self,
        rt: &'r R,
        path: Option<&str>,
    ) -> ListEntries<'r, R, Tr, K, E, B> {
        ListEntries {
            rt,
            turn: Turn::Features,
            features: Calling::new(rt, &self.session, BorrowedCall::Feat),
            facts: Calling::new(rt, &self.session, BorrowedCall::Mlsd(path)),
            lines: Calling::new(rt, &self.session, BorrowedCall::List(path)),
        }
    }
}

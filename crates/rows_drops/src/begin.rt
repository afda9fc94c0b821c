//! How calls begin, and what a poll of one makes.
//!
//! All calls are one type of future: a function that is generic over futures is dear to prove at each type that it is called
//! at.

use crate::gains::{Gains, Outcome, Stream};
use crate::script::Asked;
use crate::slow::SlowTransport;
use ftp_base::encoding::Utf8Encoding;
use ftp_base::types::Response;
use ftp_polled::{Abort, Adjust, Dialogue, Finish, ImplAsyncFtpStream, Lock, OpenTransfer};
use ftp_session::session::{Call, NoStreamBuilder, NoTlsConnector, Setting};
use futures::Future;
use futures::task::{Context, Poll};
use rows_plays::optional;
use rows_text::RowError;

/// A polled client over slow connections.
pub type Client = ImplAsyncFtpStream<SlowTransport>;

/// A call that returns an `A`.
type Gives<'r, R, A> = Dialogue<
    'r,
    R,
    SlowTransport,
    NoTlsConnector,
    Utf8Encoding,
    NoStreamBuilder,
    A,
>;

/// A call under way.
#[derive(Drop)]
pub enum State<'r, R> {
    /// A call that returns nothing.
    Unit(Gives<'r, R, ()>),
    /// A call that returns its reply.
    Reply(Gives<'r, R, Response>),
    /// A call that returns a number of bytes.
    Size(Gives<'r, R, usize>),
    /// A whole file.
    Bytes(Gives<'r, R, Vec<u8>>),
    /// A listing.
    Lines(Gives<'r, R, Vec<String>>),
    /// A call that opens a transfer.
    Open(OpenTransfer<'r, R, SlowTransport, NoTlsConnector, Utf8Encoding, NoStreamBuilder>),
    /// The end of a transfer.
    Finish(Finish<'r, R, SlowTransport, NoTlsConnector, Utf8Encoding, NoStreamBuilder>),
    /// A transfer is aborted.
    Abort(Abort<'r, R, SlowTransport, NoTlsConnector, Utf8Encoding, NoStreamBuilder>),
    /// A setting changes.
    Set(Adjust<'r, R, SlowTransport, NoTlsConnector, Utf8Encoding, NoStreamBuilder>),
    /// The lock is waited for.
    Lend(Lock<SlowTransport, NoTlsConnector, Utf8Encoding, NoStreamBuilder>),
}

/// What a poll of a call makes, as an outcome of this kind.
macro_rules! polled {
    ($call:ident, $cx:ident, $kind:ident) => {
        match $call.poll($cx) {
            Poll::Ready(outcome) => Poll::Ready(Outcome::$kind(outcome)),
            Poll::Pending => Poll::Pending,
        }
    };
}

impl<R: AllocGlobal> Future for State<'_, R> {
    type Output = Outcome;

    fn poll(&mut self, cx: &mut Context<'_>) -> Poll<Outcome> {
        match self {
            State::Unit(call) => polled!(call, cx, Unit),
            State::Reply(call) => polled!(call, cx, Reply),
            State::Size(call) => polled!(call, cx, Size),
            State::Bytes(call) => polled!(call, cx, Bytes),
            State::Lines(call) => polled!(call, cx, Lines),
            State::Open(call) => polled!(call, cx, Opened),
            State::Finish(call) => polled!(call, cx, Unit),
            State::Abort(call) => polled!(call, cx, Unit),
            State::Set(call) => polled!(call, cx, Unit),
            State::Lend(call) => polled!(call, cx, Lent),
        }
    }
}

/// The state of a call.
///
/// # Errors
/// `NotUnderstood` where the rows have no such call, or no transfer is held.
pub fn begin<'r, R: AllocGlobal>(
    rt: &'r R,
    client: &Client,
    gains: &mut Gains,
    asked: &'r Asked,
) -> Result<State<'r, R>, RowError> {
    match asked {
        Asked::Call(call) => match call {
            Call::Finish => Ok(State::Finish(transfer(gains)?.finish(rt))),
            Call::Abort => Ok(State::Abort(transfer(gains)?.abort(rt))),
            _ => made(rt, client, call),
        },
        Asked::Lend => Ok(State::Lend(client.get_ref())),
    }
}

/// The transfer that is held longest.
///
/// # Errors
/// `NotUnderstood` where none is held.
pub fn transfer(gains: &mut Gains) -> Result<Stream, RowError> {
    gains.transfers.pop_front().ok_or(RowError::NotUnderstood)
}

/// The state of a call that needs no transfer.
fn made<'r, R: AllocGlobal>(
    rt: &'r R,
    client: &Client,
    call: &'r Call,
) -> Result<State<'r, R>, RowError> {
    Ok(match call {
        Call::Login(user, password) => {
            State::Unit(client.login(rt, user.as_str(), password.as_str()))
        }
        Call::Cwd(path) => State::Unit(client.cwd(rt, path.as_str())),
        Call::Noop => State::Unit(client.noop(rt)),
        Call::Resync => State::Unit(client.resync(rt)),
        Call::Rm(path) => State::Unit(client.rm(rt, path.as_str())),
        Call::Rename(from, to) => State::Unit(client.rename(rt, from.as_str(), to.as_str())),
        Call::ReadResponse(status) => State::Reply(client.read_response(rt, *status)),
        Call::Size(path) => State::Size(client.size(rt, path.as_str())),
        Call::Retr(path) => State::Bytes(client.retr_as_buffer(rt, path.as_str())),
        Call::List(path) => State::Lines(client.list(rt, optional(path))),
        Call::RetrAsStream(path) => State::Open(client.retr_as_stream(rt, path.as_str())),
        Call::PutWithStream(path) => State::Open(client.put_with_stream(rt, path.as_str())),
        Call::Set(Setting::Mode(mode)) => State::Set(client.set_mode(rt, *mode)),
        _ => return Err(RowError::NotUnderstood),
    })
}

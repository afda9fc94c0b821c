//! The state of a client that is made by its options, and logged in.

ghost use Rattle.futures.specs.Poll.{OnPending};
ghost use Rattle.futures.specs.Task.{IsArmed, Keeps};

use crate::calling::Calling;
use crate::client::ImplAsyncFtpStream;
use crate::connect::Connect;
use crate::from_answer::FromAnswer;
use crate::utf8::UseUtf8;
use ftp_base::encoding::Encoding;
use ftp_base::types::{ConnectionError, FtpError, FtpResult};
use ftp_calls::call::BorrowedCall;
use ftp_session::session::NoTlsConnector;
use ftp_shared::ConnectOptions;
use ftp_transport::{PassiveStreamBuilder, PollConn, PollTransport, TaskConn, TaskTransport};
use futures::Future;
use futures::task::{Context, Poll};
use std::mem;
use std::net::Net;

/// What is set on a client that is connected, until it is set.
struct Setting<'r, R, Tr: TaskTransport, K: Drop, E: Encoding, B: Drop>
where
    Tr::Conn: TaskConn,
{
    client: ImplAsyncFtpStream<Tr, K, E, B>,
    login: Option<Calling<'r, R, Tr, K, E, B>>,
    file_type: Option<Calling<'r, R, Tr, K, E, B>>,
    utf8: Option<UseUtf8<'r, R, Tr, K, E, B>>,
}

impl<R, Tr: TaskTransport, K: Drop, E: Encoding, B: Drop> Drop for Setting<'_, R, Tr, K, E, B>
where
    Tr::Conn: TaskConn,
{
    fn drop(self) {
        let Self {
            client,
            login,
            file_type,
            utf8,
        } = self;
        drop(login);
        drop(file_type);
        drop(utf8);
        drop(client);
    }
}

impl<'r, R: AllocGlobal, Tr: TaskTransport, K: Drop, E: Encoding, B: Drop> Setting<
    'r,
    R,
    Tr,
    K,
    E,
    B,
>
where
    Tr::Conn: TaskConn,
{
    /// A client on which nothing of these options was set.
    fn new(
        rt: &'r R,
        client: ImplAsyncFtpStream<Tr, K, E, B>,
        options: &ConnectOptions,
    ) -> Setting<'r, R, Tr, K, E, B> {
        let shared = &client.session;
        let login = BorrowedCall::Login(options.user(), options.password());
        let file_type = BorrowedCall::TransferType(options.file_type());
        let utf8 = if options.uses_utf8() {
            Some(UseUtf8::new(rt, shared))
        } else {
            None
        };
        Setting {
            login: Some(Calling::new(rt, shared, login)),
            file_type: Some(Calling::new(rt, shared, file_type)),
            utf8,
            client,
        }
    }
}

impl<R, Tr: TaskTransport, K: Drop, E: Encoding, B: Drop> Setting<'_, R, Tr, K, E, B>
where
    Tr::Conn: TaskConn,
{
    /// The client.
    fn into_client(self) -> ImplAsyncFtpStream<Tr, K, E, B> {
        let Self {
            client,
            login,
            file_type,
            utf8,
        } = self;
        drop(login);
        drop(file_type);
        drop(utf8);
        client
    }
}

impl<'r, R: AllocGlobal, Tr, K: Drop, E: Encoding, B> Setting<'r, R, Tr, K, E, B>
where
    Tr: PollTransport<R, ()> + TaskTransport,
    Tr::Conn: PollConn<()> + TaskConn,
    B: PassiveStreamBuilder<Tr::Conn>,
{
    /// Continues to log in, and then to set the type of data and names in UTF-8.
    fn poll_set(&mut self, cx: &mut Context<'_>) -> Poll<FtpResult<()>>
        ensures registered { OnPending result (IsArmed cx.new) }
        ensures kept { Keeps cx.old cx.new }
    {
        match poll_unit(&mut self.login, cx) {
            Poll::Ready(Ok(())) => {}
            other => return other,
        }
        match poll_unit(&mut self.file_type, cx) {
            Poll::Ready(Ok(())) => {}
            other => return other,
        }
        let Some(utf8) = &mut self.utf8 else {
            return Poll::Ready(Ok(()));
        };
        match utf8.poll_accepted(cx) {
            Poll::Ready(Ok(_accepted)) => Poll::Ready(Ok(())),
            Poll::Ready(Err(fault)) => Poll::Ready(Err(fault)),
            Poll::Pending => Poll::Pending,
        }
    }
}

/// Continues a call that returns nothing, unless it has returned.
fn poll_unit<'r, R: AllocGlobal, Tr, K: Drop, E: Encoding, B>(
    calling: &mut Option<Calling<'r, R, Tr, K, E, B>>,
    cx: &mut Context<'_>,
) -> Poll<FtpResult<()>>
where
    Tr: PollTransport<R, ()> + TaskTransport,
    Tr::Conn: PollConn<()> + TaskConn,
    B: PassiveStreamBuilder<Tr::Conn>,
    ensures registered { OnPending result (IsArmed cx.new) }
    ensures kept { Keeps cx.old cx.new }
{
    let Some(call) = calling else {
        return Poll::Ready(Ok(()));
    };
    match call.poll_answer(cx) {
        Poll::Ready(answer) => {
            drop(calling.take());
            Poll::Ready(FromAnswer::from_answer(answer))
        }
        Poll::Pending => Poll::Pending,
    }
}

/// A client is connected, logged in, and set as its options have it.
///
/// Dropped, it closes what was made.
pub struct ConnectWith<'r, R, Tr: TaskTransport, K: Drop, E: Encoding, B: Drop>
where
    Tr::Conn: TaskConn,
{
    rt: &'r R,
    options: &'r ConnectOptions,
    connect: Connect<'r, R, Tr, K, E, B>,
    // Once it is connected, until it is returned.
    setting: Option<Setting<'r, R, Tr, K, E, B>>,
}

impl<R, Tr: TaskTransport, K: Drop, E: Encoding, B: Drop> Drop for ConnectWith<'_, R, Tr, K, E, B>
where
    Tr::Conn: TaskConn,
{
    fn drop(self) {
        let Self {
            rt: _,
            options: _,
            connect,
            setting,
        } = self;
        drop(connect);
        drop(setting);
    }
}

/// The client on which all was set.
fn client_of<R, Tr: TaskTransport, K: Drop, E: Encoding, B: Drop>(
    setting: Option<Setting<'_, R, Tr, K, E, B>>,
) -> FtpResult<ImplAsyncFtpStream<Tr, K, E, B>>
where
    Tr::Conn: TaskConn,
{
    match setting {
        Some(setting) => Ok(setting.into_client()),
        None => Err(FtpError::ConnectionError(ConnectionError::AlreadyCompleted)),
    }
}

impl<'r, R: AllocGlobal, Tr, K: Drop, E: Encoding, B> Future for ConnectWith<'r, R, Tr, K, E, B>
where
    Tr: PollTransport<R, ()> + TaskTransport,
    Tr::Conn: PollConn<()> + TaskConn,
    B: PassiveStreamBuilder<Tr::Conn>,
{
    type Output = FtpResult<ImplAsyncFtpStream<Tr, K, E, B>>;

    fn poll(&mut self, cx: &mut Context<'_>) -> Poll<FtpResult<ImplAsyncFtpStream<Tr, K, E, B>>> {
        if self.setting.is_none() {
            match self.connect.poll(cx) {
                Poll::Ready(Ok(client)) => {
                    let setting = Setting::new(self.rt, client, self.options);
                    drop(mem::replace(&mut self.setting, Some(setting)));
                }
                Poll::Ready(Err(fault)) => return Poll::Ready(Err(fault)),
                Poll::Pending => return Poll::Pending,
            }
        }
        let Some(setting) = &mut self.setting else {
            return Poll::Ready(Err(FtpError::ConnectionError(ConnectionError::AlreadyCompleted)));
        };
        match setting.poll_set(cx) {
            Poll::Ready(Ok(())) => Poll::Ready(client_of(self.setting.take())),
            Poll::Ready(Err(fault)) => {
                drop(self.setting.take());
                Poll::Ready(Err(fault))
            }
            Poll::Pending => Poll::Pending,
        }
    }
}

impl<Tr: TaskTransport, E: Encoding, B: Drop> ImplAsyncFtpStream<Tr, NoTlsConnector, E, B>
where
    Tr::Conn: TaskConn,
{
    /// A client that is connected, logged in and set as these options have it: the greeting (220), `USER` (230, 331) and
    /// `PASS` (230), `TYPE` (200; RFC 959, sections 4.1.1 and 4.1.2), and what `use_utf8` sends, where they ask
    /// for that. A program whose client has failed gets the same one anew by it. The options' limit is that of a connect; how long reads and writes
    /// may wait the transport says. The login goes out in clear.
    ///
    /// # Errors
    /// Those of `connect_to_within`, `login`, `transfer_type` and `use_utf8`. The connection is closed then.
    pub fn connect_with<'r, R: Net + AllocGlobal>(
        rt: &'r R,
        transport: Tr,
        options: &'r ConnectOptions,
    ) -> ConnectWith<'r, R, Tr, NoTlsConnector, E, B> {
        let connect = match options.limit() {
            Some(limit) => Self::connect_to_within(rt, transport, options.address(), limit),
            None => Self::connect_to(rt, transport, options.address()),
        };
        ConnectWith {
            rt,
            options,
            connect: connect.begun_in(options.mode(), options.is_lenient()),
            setting: None,
        }
    }
}

//! The state of a client that is put under TLS, or taken from under it.

ghost use Rattle.futures.specs.Poll.{OnPending};
ghost use Rattle.futures.specs.Task.{IsArmed, Keeps};

use crate::client::ImplAsyncFtpStream;
use crate::hold::Hold;
use crate::tls_change::Change;
use crate::waiting::wait;
use ftp_base::encoding::Encoding;
use ftp_base::types::{ConnectionError, FtpError, FtpResult};
use ftp_secure::SecureNetwork;
use ftp_session::session::Session;
use ftp_transport::{PassiveStreamBuilder, PollConn, PollTransport, TaskConn, TaskTransport};
use futures::Future;
use futures::task::{Context, Poll};
use std::alloc::AllocError;

/// A client is put under TLS (`AUTH TLS`, the connector's handshake, `PBSZ 0` and `PROT P`), or its control connection is
/// taken from under it (`CCC`). It returns the client.
///
/// Dropped before its first line was begun it changes nothing. Dropped later it fails the session and closes its control
/// connection, for transfers that still hold it, too. The client is dropped with it.
pub struct Secure<'r, R, Tr: TaskTransport + SecureNetwork<K>, K: Drop, E: Encoding, B: Drop>
where
    Tr::Conn: TaskConn,
{
    rt: &'r R,
    // The client, until it is returned.
    client: Option<ImplAsyncFtpStream<Tr, K, E, B>>,
    hold: Hold<Box<Session<Tr, K, E, B>>>,
    change: Change<K>,
}

impl<R, Tr: TaskTransport + SecureNetwork<K>, K: Drop, E: Encoding, B: Drop> Drop
    for Secure<'_, R, Tr, K, E, B>
where
    Tr::Conn: TaskConn,
{
    fn drop(self) {
        let Self {
            rt: _,
            client,
            mut hold,
            change,
        } = self;
        if let Hold::Has(session) = &mut hold {
            change.give_up(session);
        }
        drop(change);
        drop(hold);
        drop(client);
    }
}

impl<'r, R: AllocGlobal, Tr, K: Drop, E: Encoding, B> Secure<'r, R, Tr, K, E, B>
where
    Tr: PollTransport<R, ()> + TaskTransport + SecureNetwork<K>,
    Tr::Conn: PollConn<()> + TaskConn,
    B: PassiveStreamBuilder<Tr::Conn>,
{
    /// Continues the change under the lock.
    fn poll_held(&mut self, cx: &mut Context<'_>) -> Poll<FtpResult<()>>
        ensures registered { OnPending result (IsArmed cx.new) }
        ensures kept { Keeps cx.old cx.new }
    {
        let Hold::Has(session) = &mut self.hold else {
            return Poll::Ready(Err(FtpError::ConnectionError(ConnectionError::AlreadyCompleted)));
        };
        match self.change.poll(self.rt, session) {
            Poll::Ready(changed) => {
                self.hold.let_go();
                Poll::Ready(changed)
            }
            Poll::Pending => wait(session, cx),
        }
    }

    /// The client, where it was changed; else it is dropped.
    fn give_back(&mut self, changed: FtpResult<()>) -> FtpResult<ImplAsyncFtpStream<Tr, K, E, B>> {
        let client = self.client.take();
        match (changed, client) {
            (Ok(()), Some(client)) => Ok(client),
            (Ok(()), None) => Err(FtpError::ConnectionError(ConnectionError::AlreadyCompleted)),
            (Err(fault), client) => {
                drop(client);
                Err(fault)
            }
        }
    }
}

impl<'r, R: AllocGlobal, Tr, K: Drop, E: Encoding, B> Future for Secure<'r, R, Tr, K, E, B>
where
    Tr: PollTransport<R, ()> + TaskTransport + SecureNetwork<K>,
    Tr::Conn: PollConn<()> + TaskConn,
    B: PassiveStreamBuilder<Tr::Conn>,
{
    type Output = FtpResult<ImplAsyncFtpStream<Tr, K, E, B>>;

    fn poll(&mut self, cx: &mut Context<'_>) -> Poll<FtpResult<ImplAsyncFtpStream<Tr, K, E, B>>> {
        let polled = match self.hold.poll_lock(cx) {
            Poll::Ready(Ok(())) => self.poll_held(cx),
            Poll::Ready(Err(AllocError)) => Poll::Ready(Err(FtpError::OutOfMemory)),
            Poll::Pending => Poll::Pending,
        };
        match polled {
            Poll::Ready(changed) => Poll::Ready(self.give_back(changed)),
            Poll::Pending => Poll::Pending,
        }
    }
}

impl<Tr: TaskTransport + SecureNetwork<K>, K: Drop, E: Encoding, B: Drop> ImplAsyncFtpStream<
    Tr,
    K,
    E,
    B,
>
where
    Tr::Conn: TaskConn,
{
    /// Puts the control connection under TLS, to a server of this name: `AUTH TLS` (234), the connector's handshake,
    /// `PBSZ 0` (200) and `PROT P` (200; RFC 4217, sections 4 and 9). Data connections are put under TLS from then on.
    /// What was received in clear and no reply has consumed is dropped, and no offset is left.
    ///
    /// # Errors
    /// `DataConnectionAlreadyOpen` where a transfer is live, and nothing is sent; those of a command and its reply;
    /// `SecureError` with the connector's text. The client is dropped.
    pub fn into_secure<'r, R: AllocGlobal>(
        self,
        rt: &'r R,
        connector: K,
        domain: &str,
    ) -> Secure<'r, R, Tr, K, E, B> {
        let change = Change::to_secure(rt.alloc(), connector, domain);
        Secure {
            rt,
            hold: Hold::on(&self.session),
            client: Some(self),
            change,
        }
    }

    /// Takes the control connection from under TLS: `CCC` (200; RFC 2228, section 3). Data connections stay under it. No
    /// offset is left.
    ///
    /// # Errors
    /// `DataConnectionAlreadyOpen` where a transfer is live, and nothing is sent; those of a command and its reply; the
    /// stream's error, where it can't give its connection back. The client is dropped.
    pub fn clear_command_channel<'r, R: AllocGlobal>(
        self,
        rt: &'r R,
    ) -> Secure<'r, R, Tr, K, E, B> {
        Secure {
            rt,
            hold: Hold::on(&self.session),
            client: Some(self),
            change: Change::to_clear(),
        }
    }
}

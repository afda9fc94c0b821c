//! The blocking client: a session that threads may share.
//!
//! A `Session` is written to by each of its calls, so one thread at a time may use it. Here it stands under a lock:
//! each method takes the lock, makes one call of the session, and lets the lock go. So threads may share a client by
//! reference, and no line of one call is sent between the lines of another, and no reply is read by a call that
//! didn't ask for it: a whole login or rename is one hold.
//!
//! What a method does is what the session's method of that name does, which has its contract. What a lock keeps no
//! contract can name, so the methods here have none. Nor is it proved that a thread gets the lock: while a call waits
//! for the server, the others wait for that call.
#![tactic(auto)]

mod commands;
mod connecting;
mod connecting_with;
mod control_socket;
mod file_lists;
mod files;
mod holding;
mod lines;
mod questions;
mod reading;
mod securing;
mod settings;
mod transfer_stream;
mod transfers;
mod utf8;
mod walking;

pub use connecting::OverTcp;
pub use control_socket::ControlSocket;
use ftp_base::encoding::{Encoding, Utf8Encoding};
use ftp_base::types::{FtpError, FtpResult};
use ftp_session::session::{NoStreamBuilder, NoTlsConnector, Session};
use ftp_transport::{Network, TcpTransport};
pub use holding::{Gate, hold};
use std::alloc::Global;
use std::sync::{Arc, Mutex, MutexGuard, Wait};
pub use transfer_stream::{Direction, Transfer, TransferStream};

/// A blocking FTP client: a session under a lock.
///
/// Its parameters are those of a [`Session`]: the transport, the connector of TLS, the encoding of texts on the
/// control connection and the builder of passive data connections. [`FtpStream`] is the client over TCP sockets.
pub struct ImplFtpStream<
    Tr: Network,
    K: Drop = NoTlsConnector,
    E: Encoding = Utf8Encoding,
    B: Drop = NoStreamBuilder,
> {
    session: Arc<Mutex<Session<Tr, K, E, B>>, Global>,
}

impl<Tr: Network, K: Drop, E: Encoding, B: Drop> Drop for ImplFtpStream<Tr, K, E, B> {
    fn drop(self) {
        let Self { session } = self;
        drop(session);
    }
}

/// The client over TCP sockets, without TLS: the one that most programs name.
pub type FtpStream = ImplFtpStream<TcpTransport>;

impl<Tr: Network, K: Drop, E: Encoding, B: Drop> ImplFtpStream<Tr, K, E, B> {
    /// A client over a session. Nothing is read and nothing is sent.
    ///
    /// # Errors
    /// `OutOfMemory`, and the session is dropped.
    pub fn new(alloc: Global, session: Session<Tr, K, E, B>) -> FtpResult<Self> {
        match Arc::new(alloc, Mutex::new(session)) {
            Ok(session) => Ok(ImplFtpStream { session }),
            Err(_) => Err(FtpError::OutOfMemory),
        }
    }

    /// The session, before a call that opens a data connection: where the server has refused EPSV in `Mode::Automatic`, the
    /// mode is `Passive` from now on.
    fn opening<R: Wait>(&self, rt: &R) -> MutexGuard<'_, Session<Tr, K, E, B>> {
        let mut session = self.session.lock(rt);
        session.settle_mode();
        session
    }
}

//! The client.

use ftp_base::encoding::{Encoding, Utf8Encoding};
use ftp_base::types::{FtpError, FtpResult};
use ftp_session::session::{NoStreamBuilder, NoTlsConnector, Session};
use ftp_transport::Network;
use std::alloc::{AllocError, Global};
use std::sync::Arc;
use tokio::sync::Mutex;

/// A session that is shared by the futures of a client.
pub(crate) type Shared<Tr, K, E, B> = Arc<Mutex<Box<Session<Tr, K, E, B>>>, Global>;

/// A polled FTP client: a session under a lock, whose calls are futures.
///
/// Its parameters are those of a [`Session`]: the transport, the connector of TLS, the encoding of texts on the
/// control connection and the builder of passive data connections.
pub struct ImplAsyncFtpStream<
    Tr: Network,
    K: Drop = NoTlsConnector,
    E: Encoding = Utf8Encoding,
    B: Drop = NoStreamBuilder,
> {
    pub(crate) session: Shared<Tr, K, E, B>,
}

impl<Tr: Network, K: Drop, E: Encoding, B: Drop> Drop for ImplAsyncFtpStream<Tr, K, E, B> {
    fn drop(self) {
        let Self { session } = self;
        drop(session);
    }
}

impl<Tr: Network, K: Drop, E: Encoding, B: Drop> ImplAsyncFtpStream<Tr, K, E, B> {
    /// A client over a session. Nothing is read and nothing is sent.
    ///
    /// # Errors
    /// `OutOfMemory`, and the session is dropped.
    pub fn new(alloc: Global, session: Session<Tr, K, E, B>) -> FtpResult<Self> {
        match share(alloc, session) {
            Ok(session) => Ok(ImplAsyncFtpStream { session }),
            Err(AllocError) => Err(FtpError::OutOfMemory),
        }
    }
}

/// Puts a session under a lock, in memory of its own, so that a hold of the lock that moves moves little.
fn share<Tr: Network, K: Drop, E: Encoding, B: Drop>(
    alloc: Global,
    session: Session<Tr, K, E, B>,
) -> Result<Shared<Tr, K, E, B>, AllocError> {
    let session = Box::new(alloc, session)?;
    match Arc::new(alloc, Mutex::new(alloc, session)?) {
        Ok(shared) => Ok(shared),
        Err(_) => Err(AllocError),
    }
}

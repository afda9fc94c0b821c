//! The polled client: each call is a future, which a runtime of `tokio` polls.
//!
//! Its calls are those of the blocking client, under the same names; each returns a future at once, and nothing is sent
//! before that is polled. A future that waits may be dropped.

pub use ftp_polled::{
    Abort, Adjust, AllowStdIo, Connect, ConnectWith, ControlSocket, Dialogue, DownloadTo, Failed,
    Finish, FromAnswer, ImplAsyncFtpStream, LastFailure, Lines, ListEntries, ListFiles, Lock,
    OpenTransfer, OpenWithReply, ReadReply, RetrReader, Retrieve, Secure, Settle, Sink,
    StreamLines, TransferStream, Upload, UseUtf8, Walking, Welcome, WriteTo,
};
pub use ftp_secure::{AsyncNoTlsStream, AsyncTlsConnector, AsyncTlsStream};
pub use ftp_tokio::{TokioConn, TokioListener, TokioTransport};
pub use ftp_transport::PassiveStreamBuilder;

/// The polled client over tokio's sockets, without TLS: the one that most programs name.
pub type AsyncFtpStream = ImplAsyncFtpStream<TokioTransport>;

/// A transfer of an [`AsyncFtpStream`].
pub type AsyncFtpTransferStream = TransferStream<TokioTransport>;

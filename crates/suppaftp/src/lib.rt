//! An FTP client whose behaviour is proved.
//!
//! [`FtpStream`] is the blocking client, a session under a lock, and is where to begin; [`AsyncFtpStream`] is the polled
//! one, whose calls are futures; `session::Session` is the session itself, for a program of one thread. The other crates'
//! modules are gathered here, each under its own name, so that a program needs one dependency: `list` reads the lines of
//! listings, and `FtpError` is what calls fail with. What the crates below have for one another isn't given again.
#![tactic(auto)]

mod host;
pub mod polled_ftp;
pub mod program;
pub mod session;
pub mod sync_ftp;
pub mod transfer_stream;
pub mod transport;

pub use ftp_base::encoding::{Encoding, Latin1Encoding, Utf8Encoding};
pub use ftp_base::status::Status;
pub use ftp_base::types::{
    ActivePeerCheck, ConnectionError, FileType, FormatControl, FtpError, FtpResult, Mode,
    ReplyTooLarge, Response,
};
pub use ftp_base::{ascii, command, encoding, laws, status, types};
pub use ftp_calls::{answers, call};
pub use ftp_control::control;
pub use ftp_list as list;
/// What kind of entry a file of a listing is, which `list` calls a `FileType`; the other `FileType` is that of `TYPE`.
pub use ftp_list::{File, FileType as EntryKind, ListParser, Listing, OtherFile};
pub use ftp_secure::{DataStream, Secured, TlsConnector, TlsStream};
pub use ftp_session::session::{DownloadReader, Failure};
pub use ftp_shared::{ConnectOptions, PassedOver, Place, PlaceName, Visitor, WalkLimits};
pub use ftp_transfer::{NoProgress, Progress, mark};
pub use ftp_transport::{PassiveStreamBuilder, TcpTransport};
pub use host::Host;
pub use polled_ftp::{AsyncFtpStream, AsyncFtpTransferStream, ImplAsyncFtpStream};
pub use sync_ftp::{
    ControlSocket, FtpStream, FtpTransferStream, ImplFtpStream, Transfer, TransferStream,
};

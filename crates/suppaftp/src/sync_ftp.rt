//! The blocking client: a session under a lock, which threads may share, and its transfers.

pub use ftp_blocking::{
    ControlSocket, Direction, FtpStream, Gate, ImplFtpStream, OverTcp, Transfer, TransferStream,
    hold,
};
pub use ftp_transport::PassiveStreamBuilder;
use ftp_transport::TcpTransport;

/// A transfer of an [`FtpStream`].
pub type FtpTransferStream = TransferStream<TcpTransport>;

//! Connections, listeners and the transports that make them; and TLS over any of them, by a connector that the caller
//! hands in.

pub use ftp_secure::{
    AsyncNoTlsStream, AsyncTlsConnector, AsyncTlsStream, DataStream, GoneConn, NoTlsConnector,
    NoTlsStream, SecureNetwork, SecureTransport, Secured, Secures, TlsConnector, TlsStream,
};
pub use ftp_transport::{
    Accepted, Asked, Conn, Connected, Handshaken, Listening, MemoryConn, MemoryListener,
    MemoryTransport, Network, NeverWaits, PassiveStreamBuilder, PollConn, PollTransport, Request,
    RequestOutcome, Room, Supply, TaskConn, TaskTransport, TcpConn, TcpConnListener, TcpTransport,
    Tells, Transport, Tried, Waiting, poll_connect_in_turn,
};

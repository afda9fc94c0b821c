//! What a transport's requests result in, over memory.

use super::MemoryConn;
use std::io::ErrorKind;
use std::net::SocketAddr;

/// What the next request that consumes one results in.
#[derive(Drop)]
pub enum Supply {
    /// A connect: this connection.
    Connects(MemoryConn),
    /// An accept: this connection, from a peer at this address.
    Peer(SocketAddr, MemoryConn),
    /// Either: an error of this kind.
    Refuses(ErrorKind),
}

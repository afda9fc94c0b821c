//! What a transport is asked for, and what that results in.
//!
//! A request and its outcome are plain data, so that a dialogue that asks for a connection can be defined, and played,
//! without one.

use ftp_base::types::ConnectionError;
use std::net::SocketAddr;
use std::time::Duration;

/// What a transport is asked for.
#[derive(Clone, Copy, Debug)]
pub enum Request {
    /// A connection to this address, within this time where there is a limit.
    Connect(SocketAddr, Option<Duration>),
    /// A listener on this address.
    Listen(SocketAddr),
    /// A peer's connection on the listener, by this deadline, counted from the listener's first accept.
    Accept(Duration),
    /// A connection to this address, which the caller's builder is asked for in the transport's place.
    Build(SocketAddr),
}

/// What a request resulted in.
#[derive(Clone, Copy, Debug)]
pub enum RequestOutcome {
    /// It was done.
    Done,
    /// It was done, with this address.
    Address(SocketAddr),
    /// It failed.
    Refused(ConnectionError),
}

/// A request and its outcome.
#[derive(Clone, Copy, Debug)]
pub struct Asked {
    /// What was asked.
    pub request: Request,
    /// What it resulted in.
    pub outcome: RequestOutcome,
}

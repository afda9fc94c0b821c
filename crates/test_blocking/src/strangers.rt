//! Peers that may not open a data connection: how many of them a data command drops, and how long it waits for each.

use crate::scene::{MemorySession, greeted, number};
use ftp_base::types::{FtpResult, Mode};
use ftp_session::session::Session;
use ftp_transport::{MemoryConn, MemoryTransport, Request, Supply};
use std::alloc::{AllocError, Global};
use std::net::SocketAddr;
use std::test::Fail;
use std::time::Duration;

/// How many seconds each peer is waited for.
const SECONDS: u64 = 7;

/// The server, and the peer of the control connection.
fn server() -> SocketAddr {
    SocketAddr::from(([192, 0, 2, 7], 21))
}

/// Somebody else.
fn stranger() -> SocketAddr {
    SocketAddr::from(([198, 51, 100, 9], 20))
}

/// A transport to whose listener so many strangers connect, and then the server.
fn supplied(alloc: Global, strangers: usize) -> Result<MemoryTransport, AllocError> {
    let mut transport = MemoryTransport::new(alloc);
    for _ in 0..strangers {
        transport.supply(Supply::Peer(stranger(), MemoryConn::new(alloc)))?;
    }
    transport.supply(Supply::Peer(server(), MemoryConn::new(alloc)))?;
    Ok(transport)
}

/// A server's connection, on which it accepts one active download.
fn accepting(alloc: Global) -> Result<MemoryConn, AllocError> {
    let mut conn = MemoryConn::between(alloc, SocketAddr::from(([192, 0, 2, 1], 50_000)), server());
    conn.feed(b"220 ready\r\n200 ok\r\n150 here it comes\r\n")?;
    Ok(conn)
}

/// A session in the active mode, to whose listener so many strangers connect, and then the server.
fn session_with(alloc: Global, strangers: usize) -> FtpResult<MemorySession> {
    let transport = supplied(alloc, strangers)?;
    let mut session = greeted(alloc, transport, accepting(alloc)?)?;
    session.set_mode(Mode::Active);
    session.set_active_deadline(Duration::from_secs(SECONDS));
    Ok(session)
}

/// How often a peer was waited for, as long as was set.
fn accepts(session: &Session<MemoryTransport>) -> usize {
    let asked = session.transport().requests();
    asked
        .iter()
        .filter(|one| matches!(&one.request, Request::Accept(limit) if limit.as_secs() == SECONDS))
        .count()
}

/// What a download returns, and how often a peer was waited for.
fn download(alloc: Global, strangers: usize) -> FtpResult<(u8, usize)> {
    let mut session = session_with(alloc, strangers)?;
    let answer = number(session.retr_as_stream(alloc, &(), "a"));
    Ok((answer, accepts(&session)))
}

#[test]
fn a_thousand_strangers_are_dropped_and_one_more_ends_the_wait(
    rt: HostRuntime,
) -> Result<(), Fail> {
    let thousand = download(rt.alloc(), 1000)?;
    let one_more = download(rt.alloc(), 1001)?;
    assert_eq!(rt; (thousand, one_more), ((0, 1001), (8, 1001)));
    Ok(())
}

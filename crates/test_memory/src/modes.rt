//! Clients in `Mode::Automatic` whose server hasn't EPSV: it refuses that once, and PASV is sent from then on.

use ftp_base::types::{FtpResult, Mode};
use ftp_blocking::ImplFtpStream;
use ftp_polled::ImplAsyncFtpStream;
use ftp_session::session::Session;
use ftp_transport::{MemoryConn, MemoryTransport, Supply};
use futures::executor::block_on;
use std::alloc::{AllocError, Global};
use std::test::Fail;

/// The replies to two downloads.
const REPLIES: &[u8] =
    b"220 r\r\n502 x\r\n227 x (10,0,0,1,4,0).\r\n150 b\r\n226 e\r\n227 x (10,0,0,1,4,1).\r\n150 b\r\n226 e\r\n";

/// The lines that are due.
const LINES: &[u8] = b"EPSV\r\nPASV\r\nRETR a\r\nPASV\r\nRETR b\r\n";

/// A data connection whose server sends nothing.
fn empty(alloc: Global) -> Supply {
    let mut conn = MemoryConn::new(alloc);
    conn.end();
    Supply::Connects(conn)
}

/// A transport with two data connections.
fn transport(alloc: Global) -> Result<MemoryTransport, AllocError> {
    let mut transport = MemoryTransport::new(alloc);
    transport.supply(empty(alloc))?;
    transport.supply(empty(alloc))?;
    Ok(transport)
}

/// A session of that server, whose greeting was read.
fn session(alloc: Global) -> FtpResult<Session<MemoryTransport>> {
    let mut conn = MemoryConn::new(alloc);
    conn.feed(REPLIES)?;
    let transport = transport(alloc)?;
    let mut session = Session::connect_with_stream(alloc, transport, conn)?;
    session.set_mode(Mode::Automatic);
    Ok(session)
}

#[test]
fn the_blocking_client_sends_epsv_once(rt: HostRuntime) -> Result<(), Fail> {
    let client: ImplFtpStream<MemoryTransport> = ImplFtpStream::new(
        rt.alloc(),
        session(rt.alloc())?,
    )?;
    drop(client.retr_as_buffer(&rt, "a")?);
    drop(client.retr_as_buffer(&rt, "b")?);
    let control = client.get_ref(&rt);
    let sent = Vec::from_slice(rt.alloc(), control.socket().sent())?;
    drop(control);
    drop(client);
    assert_eq!(rt; sent.as_slice(), LINES);
    Ok(())
}

#[test]
fn the_polled_client_sends_epsv_once(rt: HostRuntime) -> Result<(), Fail> {
    let client: ImplAsyncFtpStream<MemoryTransport> = ImplAsyncFtpStream::new(
        rt.alloc(),
        session(rt.alloc())?,
    )?;
    drop(block_on(&rt, client.retr_as_buffer(&rt, "a"))??);
    drop(block_on(&rt, client.retr_as_buffer(&rt, "b"))??);
    let control = block_on(&rt, client.get_ref())??;
    let sent = Vec::from_slice(rt.alloc(), control.socket().sent())?;
    drop(control);
    drop(client);
    assert_eq!(rt; sent.as_slice(), LINES);
    Ok(())
}

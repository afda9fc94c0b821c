//! A session over memory whose connections and transport may fail.

use crate::device::{Device, FailingConn, FailingTransport};
use crate::memory_scene::conn_with;
use ftp_base::types::{ConnectionError, FtpError, FtpResult, Mode};
use ftp_session::session::Session;
use ftp_transport::{MemoryConn, MemoryTransport, Supply};
use std::alloc::{AllocError, Global};
use std::io::ErrorKind;
use std::net::SocketAddr;

/// A session.
pub type FailingSession<'d> = Session<FailingTransport<'d, MemoryTransport>>;

/// Which run is made: an upload or a download, in active mode or passive.
#[derive(Clone, Copy)]
pub struct Run {
    pub uploads: bool,
    pub active: bool,
}

/// The server, and the peer of the control connection.
fn server() -> SocketAddr {
    SocketAddr::from(([192, 0, 2, 7], 21))
}

/// A transport that has one data connection, which brings five bytes.
fn one_with(alloc: Global, active: bool) -> Result<MemoryTransport, AllocError> {
    let mut transport = MemoryTransport::new(alloc);
    let conn = conn_with(alloc, b"hello")?;
    let supply = if active {
        Supply::Peer(server(), conn)
    } else {
        Supply::Connects(conn)
    };
    transport.supply(supply)?;
    Ok(transport)
}

/// A session of which nothing was sent yet, whose server sends this. Reads give a byte at a time.
pub fn session_for<'d>(
    alloc: Global,
    device: &'d Device,
    active: bool,
    replies: &[u8],
) -> FtpResult<Box<FailingSession<'d>>> {
    device.read_at_most(1);
    let mut conn = MemoryConn::between(alloc, SocketAddr::from(([192, 0, 2, 1], 50_000)), server());
    conn.feed(replies)?;
    let transport = FailingTransport::new(alloc, one_with(alloc, active)?, device);
    let control = FailingConn::control(conn, device);
    let mut session = Box::new(alloc, Session::new(alloc, transport, control)?)?;
    if active {
        session.set_mode(Mode::Active);
    }
    Ok(session)
}

/// The number of an error; 0 where there is none, and 100 for an error of input or output that isn't of this kind.
pub fn number<T: Drop>(answer: FtpResult<T>, due: ErrorKind) -> u8 {
    match &answer {
        Ok(_) => 0,
        Err(FtpError::ConnectionError(ConnectionError::Io(kind))) if *kind != due => 100,
        Err(fault) => fault.number(),
    }
}

/// How many bytes were sent on the control connection.
pub fn sent(session: &FailingSession<'_>) -> usize {
    session.get_ref().get_ref().sent().len()
}

/// Makes the call of a run: the number of its error, where that is due to be of this kind.
pub fn made(alloc: Global, session: &mut FailingSession<'_>, uploads: bool, kind: ErrorKind) -> u8 {
    if uploads {
        let mut source = &b"a\nb"[..];
        number(session.put_file(alloc, &(), "f", &mut source), kind)
    } else {
        number(session.retr_as_buffer(alloc, &(), "f"), kind)
    }
}

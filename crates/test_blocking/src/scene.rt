//! What the tests share: connections, sessions and clients over memory, and the numbers of errors.

use ftp_base::types::FtpResult;
use ftp_blocking::ImplFtpStream;
use ftp_session::session::Session;
use ftp_transport::{MemoryConn, MemoryTransport, Supply};
use std::alloc::{AllocError, Global};
use std::sync::Wait;
use std::test::Fail;

/// A session over memory.
pub type MemorySession = Box<Session<MemoryTransport>>;

/// A connection that the server's bytes came on.
pub fn conn_with(alloc: Global, input: &[u8]) -> Result<MemoryConn, AllocError> {
    let mut conn = MemoryConn::new(alloc);
    conn.feed(input)?;
    Ok(conn)
}

/// A session over these, once the greeting was read.
pub fn greeted(
    alloc: Global,
    transport: MemoryTransport,
    conn: MemoryConn,
) -> FtpResult<MemorySession> {
    boxed(alloc, Session::connect_with_stream(alloc, transport, conn)?)
}

/// A client over memory.
pub type MemoryClient = ImplFtpStream<MemoryTransport>;

/// A client whose server sent these replies after its greeting, with one data connection, on which these bytes come.
pub fn client_of(alloc: Global, replies: &str, data: &str) -> FtpResult<Box<MemoryClient>> {
    let mut transport = MemoryTransport::new(alloc);
    transport.supply(Supply::Connects(conn_with(alloc, data.as_bytes())?))?;
    let mut conn = conn_with(alloc, b"220 r\r\n")?;
    conn.feed(replies.as_bytes())?;
    let session = greeted(alloc, transport, conn)?;
    boxed(alloc, ImplFtpStream::new(alloc, Box::into_inner(session))?)
}

/// Adds what a client has sent.
pub fn add_sent<R: Wait>(rt: &R, client: &MemoryClient, text: &mut String) -> Result<(), Fail> {
    let control = client.get_ref(rt);
    let sent = str::from_utf8(control.socket().sent()).unwrap_or("");
    write!(text, "{sent}")?;
    Ok(())
}

/// The same value in a box.
pub fn boxed<T: Drop>(alloc: Global, value: T) -> FtpResult<Box<T>> {
    Ok(Box::new(alloc, value)?)
}

/// The number of an error; 0 where there is none.
pub fn number<T: Drop>(answer: FtpResult<T>) -> u8 {
    match &answer {
        Ok(_) => 0,
        Err(fault) => fault.number(),
    }
}

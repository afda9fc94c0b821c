//! What the tests share: sessions over memory, and what their calls return.

use ftp_base::types::FtpResult;
use ftp_session::session::Session;
use ftp_transfer::Transfer;
use ftp_transport::{MemoryConn, MemoryTransport, Supply};
use std::alloc::{AllocError, Global};
use std::test::Fail;

/// A session over memory.
pub type MemorySession = Session<MemoryTransport>;

/// A connection over memory that the server's bytes came on.
pub fn conn_with(alloc: Global, input: &[u8]) -> Result<MemoryConn, AllocError> {
    let mut conn = MemoryConn::new(alloc);
    conn.feed(input)?;
    Ok(conn)
}

/// A transport with two data connections, on each of which these bytes come.
pub fn transport_with(alloc: Global, data: &[u8]) -> Result<MemoryTransport, AllocError> {
    let mut transport = MemoryTransport::new(alloc);
    add_data(alloc, &mut transport, data)?;
    add_data(alloc, &mut transport, data)?;
    Ok(transport)
}

/// Adds a data connection.
fn add_data(alloc: Global, transport: &mut MemoryTransport, data: &[u8]) -> Result<(), AllocError> {
    transport.supply(Supply::Connects(conn_with(alloc, data)?))
}

/// These lines, which have semicolons between them, each with its end.
pub fn lines_of(alloc: Global, lines: &str) -> Result<String, AllocError> {
    let mut text = String::new(alloc);
    for line in lines.split(';') {
        if !line.is_empty() {
            text.push_str(line)?;
            text.push_str("\r\n")?;
        }
    }
    Ok(text)
}

/// A session whose server sends these lines; each data connection carries `hello`.
pub fn greeted(alloc: Global, replies: &str) -> Result<Box<MemorySession>, Fail> {
    let lines = lines_of(alloc, replies)?;
    let conn = conn_with(alloc, lines.as_bytes())?;
    drop(lines);
    Ok(session_on(alloc, transport_with(alloc, b"hello")?, conn)?)
}

/// A session on a connection, of which nothing was read.
pub fn session_on(
    alloc: Global,
    transport: MemoryTransport,
    conn: MemoryConn,
) -> FtpResult<Box<MemorySession>> {
    Ok(Box::new(alloc, Session::new(alloc, transport, conn)?)?)
}

/// A transfer over memory, in a box, which is dropped by one call.
pub type Live = Box<Transfer<MemoryConn>>;

/// Opens a download.
pub fn opened(alloc: Global, session: &mut MemorySession) -> FtpResult<Live> {
    let transfer = session.retr_as_stream(alloc, &(), "a")?;
    Ok(Box::new(alloc, transfer)?)
}

/// What was sent on the control connection.
pub fn sent(session: &MemorySession) -> &[u8] {
    session.get_ref().sent()
}

/// The number of an error; 0 where there is none.
pub fn number<T: Drop>(answer: FtpResult<T>) -> u8 {
    match &answer {
        Ok(_) => 0,
        Err(fault) => fault.number(),
    }
}

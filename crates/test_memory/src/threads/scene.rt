//! A client over memory with a transfer, and what is seen of it under its lock.

use ftp_base::types::FtpResult;
use ftp_blocking::{ImplFtpStream, TransferStream};
use ftp_session::session::Session;
use ftp_transport::{MemoryConn, MemoryTransport, Supply};
use std::alloc::{AllocError, Global};
use std::sync::Wait;

/// What a server sends by which a download begins, the greeting first.
pub const OPENING: &[u8] = b"220 r\r\n227 x (10,0,0,1,4,0).\r\n150 b\r\n";

/// A client over memory.
pub type Client = ImplFtpStream<MemoryTransport>;

/// Its transfer.
pub type Transfer = TransferStream<MemoryTransport>;

/// The same value in a box, which is dropped by one call.
pub fn boxed<T: Drop>(alloc: Global, value: T) -> FtpResult<Box<T>> {
    Ok(Box::new(alloc, value)?)
}

/// A transport that has a data connection.
pub fn transport(alloc: Global) -> Result<MemoryTransport, AllocError> {
    let mut transport = MemoryTransport::new(alloc);
    transport.supply(Supply::Connects(MemoryConn::new(alloc)))?;
    Ok(transport)
}

/// A connection on which the server's bytes have come.
pub fn conn_with(alloc: Global, front: &[u8], others: &[u8]) -> Result<MemoryConn, AllocError> {
    let mut conn = MemoryConn::new(alloc);
    conn.feed(front)?;
    conn.feed(others)?;
    Ok(conn)
}

/// A client, and the transfer that it opened.
#[derive(Drop)]
pub struct Scene {
    pub client: Client,
    pub transfer: Transfer,
}

/// A client that has opened a download, after which its server sends this.
pub fn opened<R: Wait + AllocGlobal>(rt: &R, replies: &[u8]) -> FtpResult<Box<Scene>> {
    let alloc = rt.alloc();
    let conn = conn_with(alloc, OPENING, replies)?;
    let session = Session::connect_with_stream(alloc, transport(alloc)?, conn)?;
    let client = Client::new(alloc, session)?;
    let transfer = client.retr_as_stream(rt, "a")?;
    boxed(alloc, Scene { client, transfer })
}

/// How a client's transfers came to their end: opened, finished, aborted and drained.
pub type Tally = [u64; 4];

/// What is seen of a client under its lock: how many bytes it has sent, how many that it received are part of no reply
/// yet, and its transfers.
pub fn seen<R: Wait>(rt: &R, client: &Client) -> (usize, usize, Tally) {
    let control = client.get_ref(rt);
    let (sent, untaken) = (control.socket().sent().len(), control.untaken());
    let counts = control.counts();
    let tally = [
        counts.opened(),
        counts.finished(),
        counts.aborted(),
        counts.drained(),
    ];
    drop(control);
    (sent, untaken, tally)
}

/// The number of an error; 0 where there is none.
pub fn number<T: Drop>(answer: FtpResult<T>) -> u8 {
    match &answer {
        Ok(_) => 0,
        Err(fault) => fault.number(),
    }
}

//! Sessions over memory whose server agrees to TLS.

use ftp_base::types::FtpResult;
use ftp_session::session::Session;
use rows_tls::{Line, Log, Net, Seal, Wire, Wires};
use std::alloc::{AllocError, Global};
use std::net::{Ipv4Addr, SocketAddr, SocketAddrV4};

/// A connection with this log on which this comes.
fn wire(alloc: Global, log: &Log, text: &str) -> Result<Wire, AllocError> {
    let mut wire = Wire::new(alloc, log, 'C', false)?;
    wire.feed(text.as_bytes())?;
    Ok(wire)
}

/// A transport of which so many connects return a connection, on which this comes.
pub fn net(alloc: Global, connects: u8, text: &str) -> Result<Box<Net>, AllocError> {
    let log = Log::new(alloc)?;
    let mut wires = Box::new(alloc, Wires::new(alloc, &log)?)?;
    for _ in 0..connects {
        wires.supply(None, wire(alloc, &log, text)?)?;
    }
    Ok(Box::new(alloc, Net::new(alloc, Box::into_inner(wires)))?)
}

/// A session on a connection on which the server agrees to TLS, over such a transport.
pub fn session(alloc: Global, connects: u8) -> FtpResult<Box<Session<Net, Seal>>> {
    let net = net(alloc, connects, "")?;
    let conn = wire(alloc, &Log::new(alloc)?, "234 go\r\n")?;
    let session = Session::new(alloc, Box::into_inner(net), Line::new(conn))?;
    Ok(Box::new(alloc, session)?)
}

/// The address of the tests' server.
pub fn server() -> SocketAddr {
    SocketAddr::V4(SocketAddrV4::new(Ipv4Addr::new(192, 0, 2, 7), 990))
}

/// The number of an error; 0 where there is none.
pub fn number<T: Drop>(answer: FtpResult<T>) -> u8 {
    match &answer {
        Ok(_) => 0,
        Err(fault) => fault.number(),
    }
}

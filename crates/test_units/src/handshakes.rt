//! A connection that is put under TLS by polls.

use crate::networks::keep;
use crate::scene::number;
use crate::streams::{Network, plain};
use ftp_base::types::{FtpError, FtpResult};
use ftp_secure::{DataStream, Secured};
use ftp_transport::{MemoryTransport, PollConn, PollTransport};
use futures::task::Poll;
use std::alloc::Global;
use std::test::Fail;

/// A transport that keeps a connector to a server of this name; none where there is none.
fn keeping(alloc: Global, domain: Option<&str>) -> FtpResult<Box<Network>> {
    let mut network = Box::new(alloc, Secured::new(alloc, MemoryTransport::new(alloc)))?;
    if let Some(domain) = domain {
        keep(alloc, &mut network, domain)?;
    }
    Ok(network)
}

/// Polls until the connection is there, at most four times: how often it waited, and the connection.
fn polled<T: PollTransport<(), ()>>(network: &mut T, conn: T::Conn) -> FtpResult<(u8, T::Conn)> {
    let mut made = network.poll_secure(&(), &mut (), conn);
    for waits in 0..4u8 {
        match made {
            Poll::Ready(made) => return Ok((waits, made??)),
            Poll::Pending => made = network.poll_secured(&(), &mut ()),
        }
    }
    Err(FtpError::BadResponse)
}

/// How often a connection to a server of this name waits until it is under TLS, and how many bytes a poll reads of it then.
fn secured(alloc: Global, domain: Option<&str>) -> FtpResult<(u8, usize)> {
    let mut network = keeping(alloc, domain)?;
    let (waits, mut stream) = polled(&mut *network, DataStream::Tcp(plain(alloc)?))?;
    match stream.poll_read(&mut (), &mut [0; 8]) {
        Ok(Poll::Ready(count)) => Ok((waits, count)),
        _ => Ok((waits, 0)),
    }
}

#[test]
fn a_handshake_is_polled_until_it_is_done(rt: HostRuntime) -> Result<(), Fail> {
    let alloc = rt.alloc();
    let plain = secured(alloc, None)?;
    let sealed = secured(alloc, Some("ftp.example"))?;
    let refused = number(secured(alloc, Some("localhost")));
    assert_eq!(rt; (plain, sealed, refused), ((0, 5), (1, 6), 9));
    Ok(())
}

//! A transport over memory whose connections may be under TLS.

use crate::scene::number;
use crate::streams::{Network, plain, read};
use ftp_base::types::{ConnectionError, FtpResult};
use ftp_secure::{SecureNetwork, Secured};
use ftp_transport::{
    Asked, Conn, MemoryTransport, Network as Requests, Request, RequestOutcome, Supply, Transport,
};
use rows_tls::Seal;
use std::alloc::{AllocError, Global};
use std::io::ErrorKind;
use std::net::{Ipv4Addr, SocketAddr, SocketAddrV4};
use std::test::Fail;
use std::time::Duration;

/// An address of the tests, with this port.
fn at(port: u16) -> SocketAddr {
    SocketAddr::V4(SocketAddrV4::new(Ipv4Addr::new(192, 0, 2, 7), port))
}

/// The time within which the tests connect and accept.
fn limit() -> Duration {
    Duration::from_secs(5)
}

/// A transport that is supplied with a connection, an error and a peer, and listens on port 1024.
fn supplied(alloc: Global) -> FtpResult<Box<Network>> {
    let mut below = MemoryTransport::new(alloc);
    below.listens_on(1024);
    below.supply(Supply::Connects(plain(alloc)?))?;
    below.supply(Supply::Refuses(ErrorKind::HostUnreachable))?;
    below.supply(Supply::Peer(at(20), plain(alloc)?))?;
    Ok(Box::new(alloc, Secured::new(alloc, below))?)
}

/// Connects twice, listens and accepts: the error of the second connect, and the addresses that the listener and the
/// peer have.
fn asks(network: &mut Network) -> FtpResult<(Option<ConnectionError>, SocketAddr, SocketAddr)> {
    drop(network.connect(&(), at(21))??);
    let fault = match network.connect_timeout(&(), at(22), limit())? {
        Ok(_) => None,
        Err(fault) => Some(fault),
    };
    let (mut listener, bound) = network.listen(&(), at(0))??;
    let (_, peer) = network.accept(&(), &mut listener, limit())??;
    Ok((fault, bound, peer))
}

/// A request by its letter and the port that it names, and its outcome by its letter.
fn letters(asked: &Asked) -> (char, u16, char) {
    let (request, port) = match asked.request {
        Request::Connect(address, None) => ('c', address.port()),
        Request::Connect(address, Some(_)) => ('t', address.port()),
        Request::Listen(address) => ('l', address.port()),
        Request::Accept(_) => ('a', 0),
        Request::Build(address) => ('b', address.port()),
    };
    let outcome = match asked.outcome {
        RequestOutcome::Done => 'd',
        RequestOutcome::Address(_) => 'a',
        RequestOutcome::Refused(_) => 'r',
    };
    (request, port, outcome)
}

/// What was asked of a transport, in order.
fn asked(alloc: Global, network: &Network) -> Result<Vec<(char, u16, char)>, AllocError> {
    let mut all = Vec::new(alloc);
    for one in network.get_ref().requests() {
        all.push(letters(one))?;
    }
    Ok(all)
}

#[test]
fn requests_go_to_the_transport_below(rt: HostRuntime) -> Result<(), Fail> {
    let mut network = supplied(rt.alloc())?;
    let came = asks(&mut network)?;
    let all = asked(rt.alloc(), &network)?;
    drop(network);
    let unreachable = ConnectionError::Io(ErrorKind::HostUnreachable);
    let due = [('c', 21, 'd'), ('t', 22, 'r'), ('l', 0, 'a'), ('a', 0, 'a')];
    assert_eq!(rt;
        (came, all.as_slice()),
        ((Some(unreachable), at(1024), at(20)), &due[..])
    );
    Ok(())
}

/// Connects, puts the connection under TLS where a connector was kept, and reads once: how many bytes came. Then the
/// connection is over.
fn download<T: Transport<()>>(alloc: Global, network: &mut T) -> FtpResult<usize>
where
    T::Conn: Conn,
{
    network.make_room()?;
    let conn = network.connect(&(), at(21))??;
    let mut conn = network.secure(&(), conn)??;
    let came = read(alloc, &mut conn)?;
    network.closed(conn);
    match &came {
        Ok(bytes) => Ok(bytes.len()),
        Err(_) => Ok(0),
    }
}

/// The same of the transport of the tests: a call of it is cheaper to prove than one of `download`.
fn downloaded(alloc: Global, network: &mut Network) -> FtpResult<usize> {
    download(alloc, network)
}

/// A transport of which each of two connects returns a connection.
fn with_two(alloc: Global) -> FtpResult<Box<Network>> {
    let mut below = MemoryTransport::new(alloc);
    below.supply(Supply::Connects(plain(alloc)?))?;
    below.supply(Supply::Connects(plain(alloc)?))?;
    Ok(Box::new(alloc, Secured::new(alloc, below))?)
}

/// A transport keeps a connector to a server of this name, on whose stream `clear!` comes.
pub fn keep(alloc: Global, network: &mut Network, domain: &str) -> Result<(), AllocError> {
    let domain = String::from_str(alloc, domain)?;
    let seal = Seal::new(alloc, "clear!")?;
    network.keep(Box::into_inner(seal), domain);
    Ok(())
}

/// How many data connections the transport below took over, and how many are kept beside it.
fn counts_over(network: &Network) -> (usize, usize) {
    (network.get_ref().uploaded().len(), network.over().len())
}

#[test]
fn data_connections_are_secured_once_a_connector_is_kept(rt: HostRuntime) -> Result<(), Fail> {
    let alloc = rt.alloc();
    let mut network = with_two(alloc)?;
    let first = downloaded(alloc, &mut network)?;
    keep(alloc, &mut network, "ftp.example")?;
    let second = downloaded(alloc, &mut network)?;
    let over = counts_over(&network);
    drop(network);
    assert_eq!(rt; (first, second, over), (5, 6, (1, 1)));
    Ok(())
}

/// The number of the error of a data connection on which a connector fails, of which nothing is kept.
fn refused(alloc: Global) -> FtpResult<(u8, (usize, usize))> {
    let mut network = with_two(alloc)?;
    keep(alloc, &mut network, "localhost")?;
    let fault = number(downloaded(alloc, &mut network));
    Ok((fault, counts_over(&network)))
}

#[test]
fn a_data_connection_that_is_refused_is_gone(rt: HostRuntime) -> Result<(), Fail> {
    let came = refused(rt.alloc())?;
    assert_eq!(rt; came, (9, (0, 0)));
    Ok(())
}

//! Data connections over loopback sockets: listening, accepting by a deadline, and closing.

use crate::scene::boxed;
use ftp_base::types::ConnectionError;
use ftp_transport::{Conn, Network, TcpConn, TcpConnListener, TcpTransport, Tells, Transport};
use std::alloc::AllocError;
use std::io::{ErrorKind, Read, Write};
use std::net::{Net, Shutdown, SocketAddr, TcpListener, TcpStream};
use std::test::Fail;
use std::thread;
use std::time::{Clock, Duration, Instant};

/// A listener on the loopback address, at any port.
fn listening<R>(rt: &R) -> Result<(Box<TcpConnListener>, SocketAddr), Fail>
where
    R: Net<Listener = TcpListener, Stream = TcpStream> + Clock + AllocGlobal,
{
    let address = SocketAddr::from(([127, 0, 0, 1], 0));
    let (listener, bound) = TcpTransport::new().listen(rt, address)??;
    Ok((boxed(rt.alloc(), listener)?, bound))
}

/// A connection that a listener accepted, its listener's address and its peer's, and the peer.
#[derive(Drop)]
struct Pair {
    conn: TcpConn,
    bound: SocketAddr,
    from: SocketAddr,
    peer: TcpStream,
}

/// Such a connection. The peer is in the listener's queue before it is accepted, so no thread is needed.
fn connected<R>(rt: &R) -> Result<Box<Pair>, Fail>
where
    R: Net<Listener = TcpListener, Stream = TcpStream> + Clock + AllocGlobal,
{
    let (mut listener, bound) = listening(rt)?;
    let peer = TcpStream::connect(rt, bound)?;
    let (conn, from) = TcpTransport::new().accept(rt, &mut listener, Duration::from_secs(5))??;
    let pair = Pair {
        conn,
        bound,
        from,
        peer,
    };
    Ok(boxed(rt.alloc(), pair)?)
}

/// Why nobody comes to a listener within so many milliseconds, if nobody does.
fn fault_within<R>(
    rt: &R,
    listener: &mut TcpConnListener,
    limit: u64,
) -> Result<Option<ConnectionError>, AllocError>
where
    R: Net<Listener = TcpListener, Stream = TcpStream> + Clock,
{
    let made = TcpTransport::new().accept(rt, listener, Duration::from_millis(limit))?;
    Ok(made.err())
}

#[test]
fn an_accepted_connection_is_between_its_listener_and_its_peer(
    rt: HostRuntime,
) -> Result<(), Fail> {
    let mut pair = connected(&rt)?;
    let (bound, from, local) = (pair.bound, pair.from, pair.peer.local_addr()?);
    let ends = (pair.conn.local_addr(), pair.conn.peer_addr());
    TcpTransport::new().make_room()?;
    let Pair { conn, peer, .. } = Box::into_inner(pair);
    drop(peer);
    TcpTransport::new().closed(conn);
    assert_eq!(rt; (ends, from), ((Ok(bound), Ok(local)), local));
    Ok(())
}

/// The end of what comes from a peer that sends `ping` and no more, what a write takes after it, and closes before and
/// after the peer is done.
fn half_closed(pair: &mut Pair) -> Result<(usize, usize, usize), Fail> {
    pair.peer.write_all(b"ping")?;
    pair.peer.shutdown(Shutdown::Write)?;
    let mut buffer = [0u8; 8];
    let came = pair.conn.read(&mut buffer)?;
    let end = pair.conn.read(&mut buffer)?;
    let taken = pair.conn.write(b"pong")?;
    pair.conn.close()?;
    Ok((came, end, taken))
}

#[test]
fn a_half_close_ends_the_input_and_lets_writes_go_on_until_a_close(
    rt: HostRuntime,
) -> Result<(), Fail> {
    let mut pair = connected(&rt)?;
    let counts = half_closed(&mut pair)?;
    let mut buffer = [0u8; 4];
    pair.peer.read_exact(&mut buffer)?;
    let after = pair.peer.read(&mut [0u8; 1])?;
    let closed_again = pair.conn.close();
    drop(pair);
    assert_eq!(rt;
        (counts, buffer, after, closed_again),
        ((4, 0, 4), *b"pong", 0, Ok(()))
    );
    Ok(())
}

#[test]
fn a_connection_that_was_only_read_is_closed_by_its_drop(rt: HostRuntime) -> Result<(), Fail> {
    let pair = connected(&rt)?;
    let Pair {
        mut conn,
        mut peer,
        ..
    } = Box::into_inner(pair);
    peer.write_all(b"data")?;
    let came = conn.read(&mut [0u8; 8]);
    let closed = conn.close();
    // no shutdown was sent: the peer may still write
    let written = peer.write(b"more").is_ok();
    let rest = conn.read(&mut [0u8; 8]);
    drop(conn);
    let end = peer.read(&mut [0u8; 1])?;
    drop(peer);
    assert_eq!(rt;
        (came, closed, written, rest, end),
        (Ok(4), Ok(()), true, Ok(4), 0)
    );
    Ok(())
}

#[test]
fn a_reset_is_an_error_and_no_end_of_data(rt: HostRuntime) -> Result<(), Fail> {
    let pair = connected(&rt)?;
    let Pair { mut conn, peer, .. } = Box::into_inner(pair);
    let written = conn.write(b"unread");
    // a socket that is closed with bytes unread resets its connection (RFC 9293, section 3.6.1)
    drop(peer);
    let read = conn.read(&mut [0u8; 8]);
    drop(conn);
    assert_eq!(rt; (written, read), (Ok(6), Err(ErrorKind::ConnectionReset)));
    Ok(())
}

#[test]
fn nobody_comes_before_the_deadline_and_who_has_come_is_taken_late(
    rt: HostRuntime,
) -> Result<(), Fail> {
    let (mut listener, bound) = listening(&rt)?;
    let before = fault_within(&rt, &mut listener, 5)?;
    let peer = TcpStream::connect(&rt, bound)?;
    let late = fault_within(&rt, &mut listener, 5);
    drop(peer);
    drop(listener);
    assert_eq!(rt; (before, late), (Some(ConnectionError::TimedOut), Ok(None)));
    Ok(())
}

#[test]
fn a_deadline_is_counted_from_the_first_accept(rt: HostRuntime) -> Result<(), Fail> {
    let (mut listener, bound) = listening(&rt)?;
    let limit = Duration::from_millis(800);
    let start = Instant::now(&rt)?;
    let first = TcpStream::connect(&rt, bound)?;
    let came = fault_within(&rt, &mut listener, 800);
    drop(first);
    thread::sleep(&rt, Duration::from_millis(600));
    let fault = fault_within(&rt, &mut listener, 800);
    drop(listener);
    let taken = start.elapsed(&rt)?;
    let in_time = taken >= limit && taken < Duration::from_millis(1360);
    let due = (Ok(None), Ok(Some(ConnectionError::TimedOut)), true);
    assert_eq!(rt; (came, fault, in_time), due);
    Ok(())
}

#[test]
fn no_listener_is_bound_to_an_address_of_others(rt: HostRuntime) -> Result<(), Fail> {
    let made = TcpTransport::new().listen(&rt, SocketAddr::from(([192, 0, 2, 1], 0)))?;
    let fault = ConnectionError::Io(ErrorKind::AddrNotAvailable);
    assert_eq!(rt; made.err(), Some(fault));
    Ok(())
}

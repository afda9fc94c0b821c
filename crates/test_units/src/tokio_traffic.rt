//! Reads and writes of connections over tokio's sockets.

use crate::tokio_calls::{ReadByte, ReadPastTurn, WriteOn, reads_in_a_row};
use ftp_tokio::TokioConn;
use ftp_transport::{PollConn, Tells};
use futures::task::Poll;
use std::io::{ErrorKind, Read};
use std::net::{SocketAddr, TcpStream};
use std::test::Fail;
use test_loopback::{pair, running};

#[test]
fn a_read_and_a_write_that_wait_go_on(rt: HostRuntime) -> Result<(), Fail> {
    let mut runtime = running(&rt)?;
    let (conn, peer) = pair(&rt, &runtime, b"")?;
    let read = runtime.local().block_on(&rt, ReadByte::new(conn, peer))?;
    let (conn, peer) = pair(&rt, &runtime, b"")?;
    let written = runtime.local().block_on(&rt, WriteOn::new(conn, peer))?;
    drop(runtime);
    assert_eq!(rt; (read, written), (Ok((1, b'x')), Ok(1)));
    Ok(())
}

/// How many writes of one byte go on until one waits, of 40 at most.
fn writes_in_a_row(conn: &mut TokioConn) -> u8 {
    for count in 0..40 {
        if conn.poll_write(&mut (), b"x") != Ok(Poll::Ready(1)) {
            return count;
        }
    }
    40
}

#[test]
fn one_of_many_reads_and_writes_in_a_row_waits(rt: HostRuntime) -> Result<(), Fail> {
    let runtime = running(&rt)?;
    let (mut conn, peer) = pair(&rt, &runtime, &[b'x'; 40])?;
    let reads = [reads_in_a_row(&mut conn), reads_in_a_row(&mut conn)];
    let writes = [writes_in_a_row(&mut conn), writes_in_a_row(&mut conn)];
    drop(peer);
    drop(conn);
    drop(runtime);
    assert_eq!(rt; (reads, writes), ([32, 8], [32, 32]));
    Ok(())
}

/// What a write takes before a connection is closed, why none does after it, and why it has no end then.
fn closed(conn: &mut TokioConn) -> (Result<Poll<usize>, ErrorKind>, [Option<ErrorKind>; 3]) {
    let written = conn.poll_write(&mut (), b"ping");
    let close = conn.close().err();
    let after = conn.poll_write(&mut (), b"ping").err();
    (written, [close, after, conn.peer_addr().err()])
}

/// The address of a connection's socket, where it has one.
fn socket_addr(conn: &TokioConn) -> Option<SocketAddr> {
    conn.get_ref().and_then(|socket| socket.local_addr().ok())
}

/// Whether these bytes and no other come on a socket to its end.
fn received(peer: &mut TcpStream, due: &[u8; 4]) -> bool {
    let mut came = [0u8; 4];
    peer.read_exact(&mut came).is_ok() && &came == due && matches!(peer.read(&mut came), Ok(0))
}

#[test]
fn a_write_reaches_the_peer_and_a_closed_connection_is_not_connected(
    rt: HostRuntime,
) -> Result<(), Fail> {
    let runtime = running(&rt)?;
    let (mut conn, mut peer) = pair(&rt, &runtime, b"")?;
    let ends = (conn.local_addr().ok(), conn.peer_addr().ok());
    let due = (peer.peer_addr().ok(), peer.local_addr().ok());
    let open = socket_addr(&conn);
    let (written, faults) = closed(&mut conn);
    let sockets = (open, socket_addr(&conn));
    let reached = received(&mut peer, b"ping");
    drop(peer);
    drop(conn);
    drop(runtime);
    let gone = Some(ErrorKind::NotConnected);
    let closes = (Ok(Poll::Ready(4)), [None, gone, gone]);
    assert_eq!(rt; (ends, reached, (written, faults)), (due, true, closes));
    assert_eq!(rt; sockets, (due.0, None));
    Ok(())
}

#[test]
fn a_reset_is_an_error_and_no_end_of_data(rt: HostRuntime) -> Result<(), Fail> {
    let runtime = running(&rt)?;
    let (mut conn, peer) = pair(&rt, &runtime, b"")?;
    let written = conn.poll_write(&mut (), b"unread");
    // a socket that is closed with bytes unread resets its connection (RFC 9293, section 3.6.1)
    drop(peer);
    let read = conn.poll_read(&mut (), &mut [0u8; 1]);
    drop(conn);
    drop(runtime);
    let reset = Err(ErrorKind::ConnectionReset);
    assert_eq!(rt; (written, read), (Ok(Poll::Ready(6)), reset));
    Ok(())
}

// a socket tells a reset once, to whoever asks first
#[test]
fn a_reset_that_a_wait_meets_is_the_error_of_the_next_read(rt: HostRuntime) -> Result<(), Fail> {
    let mut runtime = running(&rt)?;
    let (mut conn, peer) = pair(&rt, &runtime, &[b'x'; 32])?;
    let written = conn.poll_write(&mut (), b"unread");
    drop(peer);
    let came = runtime.local().block_on(&rt, ReadPastTurn::new(conn))?;
    drop(runtime);
    let reset = Err(ErrorKind::ConnectionReset);
    assert_eq!(rt; (written, came), (Ok(Poll::Ready(6)), (32, true, reset)));
    Ok(())
}

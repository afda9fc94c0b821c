//! Connects and accepts over tokio's sockets.

use crate::tokio_requests::{Accept, Connect};
use ftp_base::types::ConnectionError;
use ftp_tokio::{TokioListener, TokioTransport};
use ftp_transport::{PollTransport, Tells};
use futures::task::Poll;
use std::alloc::AllocGlobal;
use std::io;
use std::io::ErrorKind;
use std::net::{Net, SocketAddr, TcpStream};
use std::random::RandomSource;
use std::sync::Wait;
use std::test::Fail;
use std::time::{Clock, Duration};
use test_loopback::{Runtime, listening, running, transport};

/// An address, or an error.
type Came = Result<SocketAddr, ConnectionError>;

/// What a connect to this address results in: the address of the other end, or an error.
fn connect<R>(
    rt: &R,
    runtime: &mut Runtime,
    address: SocketAddr,
    limit: Option<Duration>,
) -> io::Result<Came>
where
    R: Net + Wait + Clock + RandomSource + AllocGlobal,
{
    let connect = Connect {
        rt,
        transport: transport(runtime)?,
        address,
        limit,
    };
    match runtime.local().block_on(rt, connect)? {
        Ok(mut conn) => Ok(conn.peer_addr().map_err(ConnectionError::Io)),
        Err(fault) => Ok(Err(fault)),
    }
}

/// What connects result in to this address without a limit, within five seconds and within a nanosecond.
fn connects<R>(rt: &R, address: SocketAddr) -> io::Result<[Came; 3]>
where
    R: Net + Wait + Clock + RandomSource + AllocGlobal,
{
    let mut runtime = running(rt)?;
    let unlimited = connect(rt, &mut runtime, address, None)?;
    let limited = connect(rt, &mut runtime, address, Some(Duration::from_secs(5)))?;
    let none = connect(rt, &mut runtime, address, Some(Duration::from_nanos(1)))?;
    Ok([unlimited, limited, none])
}

#[test]
fn who_listens_is_connected_to_within_the_limit(rt: HostRuntime) -> Result<(), Fail> {
    let (listener, address) = listening(&rt)?;
    let came = connects(&rt, address)?;
    drop(listener);
    let [unlimited, limited, _none] = connects(&rt, address)?;
    let late = Err(ConnectionError::TimedOut);
    let refused = Err(ConnectionError::Io(ErrorKind::ConnectionRefused));
    assert_eq!(rt;
        (came, unlimited, limited),
        ([Ok(address), Ok(address), late], refused, refused)
    );
    Ok(())
}

/// Connections to a listener that accepts none: as many as its queue holds, so that no other is answered.
fn crowd<R: Net<Stream = TcpStream> + AllocGlobal>(
    rt: &R,
    address: SocketAddr,
) -> io::Result<Vec<TcpStream>> {
    let mut crowd = Vec::new(rt.alloc());
    for _ in 0..5000 {
        match TcpStream::connect_timeout(rt, &address, Duration::from_millis(100)) {
            Ok(stream) => crowd.push(stream)?,
            Err(_error) => break,
        }
    }
    Ok(crowd)
}

#[test]
fn a_connect_that_nobody_answers_ends_with_its_limit(rt: HostRuntime) -> Result<(), Fail> {
    let (listener, address) = listening(&rt)?;
    let crowd = crowd(&rt, address)?;
    let mut runtime = running(&rt)?;
    let came = connect(&rt, &mut runtime, address, Some(Duration::from_millis(200)))?;
    drop(runtime);
    drop(crowd);
    drop(listener);
    assert_eq!(rt; came, Err(ConnectionError::TimedOut));
    Ok(())
}

/// A listener of this transport on the loopback address, and its address.
fn listen<R: Net + Clock + AllocGlobal>(
    rt: &R,
    transport: &mut TokioTransport,
) -> io::Result<(TokioListener, SocketAddr)> {
    let address = SocketAddr::from(([127, 0, 0, 1], 0));
    match transport.poll_listen(rt, &mut (), address) {
        Poll::Ready(Ok(Ok(made))) => Ok(made),
        _ => Err(ErrorKind::Other.into()),
    }
}

/// What an accept results in within so many milliseconds, for which a peer has come or not; and that peer's address. The
/// transport has no timers.
fn accept<R>(rt: &R, comes: bool, limit: u64) -> io::Result<(Came, Option<SocketAddr>)>
where
    R: Net<Stream = TcpStream> + Wait + Clock + RandomSource + AllocGlobal,
{
    let runtime = running(rt)?;
    let mut transport = TokioTransport::new(runtime.handle().reactor().clone()?);
    let listening = listen(rt, &mut transport)?;
    accept_on(rt, runtime, (transport, listening), comes, limit)
}

/// The same of a listener that no transport made.
fn accept_alone<R>(rt: &R) -> io::Result<(Came, Option<SocketAddr>)>
where
    R: Net<Stream = TcpStream> + Wait + Clock + RandomSource + AllocGlobal,
{
    let runtime = running(rt)?;
    let transport = TokioTransport::new(runtime.handle().reactor().clone()?);
    let address = SocketAddr::from(([127, 0, 0, 1], 0));
    let listening = TokioListener::bind(rt, address, runtime.handle().reactor())?;
    accept_on(rt, runtime, (transport, listening), true, 5000)
}

/// A transport, and a listener with its address.
type Listening = (TokioTransport, (TokioListener, SocketAddr));

/// The same on this listener.
fn accept_on<R>(
    rt: &R,
    mut runtime: Runtime,
    (transport, (listener, address)): Listening,
    comes: bool,
    limit: u64,
) -> io::Result<(Came, Option<SocketAddr>)>
where
    R: Net<Stream = TcpStream> + Wait + Clock + RandomSource + AllocGlobal,
{
    let peer = if comes {
        Some(TcpStream::connect(rt, address)?)
    } else {
        None
    };
    let accept = Accept {
        rt,
        transport,
        listener,
        deadline: Duration::from_millis(limit),
    };
    let accepted = runtime.local().block_on(rt, accept)?;
    let from = match &peer {
        Some(stream) => Some(stream.local_addr()?),
        None => None,
    };
    Ok((accepted, from))
}

#[test]
fn who_comes_is_accepted_and_nobody_comes_before_the_deadline(rt: HostRuntime) -> Result<(), Fail> {
    let (came, from) = accept(&rt, true, 5000)?;
    let (nobody, _none) = accept(&rt, false, 5)?;
    let (late, late_from) = accept(&rt, true, 0)?;
    assert_eq!(rt;
        (came.ok(), nobody, late.ok()),
        (from, Err(ConnectionError::TimedOut), late_from)
    );
    Ok(())
}

#[test]
fn who_comes_to_a_listener_of_no_transport_is_accepted(rt: HostRuntime) -> Result<(), Fail> {
    let (came, from) = accept_alone(&rt)?;
    assert_eq!(rt; (came.ok(), from.is_some()), (from, true));
    Ok(())
}

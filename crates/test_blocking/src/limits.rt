//! Clients whose sockets have time limits, with servers that stop in the midst.

use crate::scene::{boxed, number};
use crate::server::serving;
use ftp_base::types::{ActivePeerCheck, ConnectionError, FtpError, FtpResult, Mode};
use ftp_blocking::FtpStream;
use ftp_transport::TcpTransport;
use std::io::{ErrorKind, Read};
use std::net::{Net, SocketAddr, TcpListener, TcpStream};
use std::sync::Wait;
use std::test::Fail;
use std::time::{Clock, Duration};

/// The limit, in milliseconds.
const LIMIT: u64 = 1200;

/// The kind of the error of a call that a connection's error ended.
fn kind_of<T: Drop>(answer: FtpResult<T>) -> Option<ErrorKind> {
    match &answer {
        Err(FtpError::ConnectionError(ConnectionError::Io(kind))) => Some(*kind),
        _ => None,
    }
}

/// A client whose reads wait no longer than the limit.
fn client<R>(rt: &R, address: SocketAddr) -> FtpResult<Box<FtpStream>>
where
    R: Net<Listener = TcpListener, Stream = TcpStream> + Clock + AllocGlobal,
{
    let transport = TcpTransport::with_limits(None, Some(Duration::from_millis(LIMIT)), None);
    boxed(
        rt.alloc(),
        FtpStream::connect_over(rt, transport, &[address])?,
    )
}

#[test]
fn a_reply_that_does_not_come_ends_its_call_and_the_session(rt: HostRuntime) -> Result<(), Fail> {
    let (serving, address) = serving(rt, "send 220 r;line;line")?;
    let client = client(&rt, address)?;
    let first = kind_of(client.noop(&rt));
    let second = number(client.noop(&rt));
    drop(client);
    let served = serving.join(&rt).is_ok();
    assert_eq!(rt;
        (first, second, served),
        (Some(ErrorKind::TimedOut), 14, true)
    );
    Ok(())
}

/// A download that is read once more than data comes, and left: how many bytes came, and the error of the second read.
fn stalled<R>(rt: &R, client: &FtpStream) -> Result<(usize, Option<ErrorKind>), Fail>
where
    R: Net<Listener = TcpListener, Stream = TcpStream> + Clock + Wait + AllocGlobal,
{
    let mut transfer = boxed(rt.alloc(), client.retr_as_stream(rt, "a")?)?;
    let mut buffer = [0u8; 8];
    let came = transfer.read(&mut buffer)?;
    match transfer.read(&mut buffer) {
        Ok(_) => Ok((came, None)),
        Err(error) => Ok((came, Some(error.kind()))),
    }
}

/// The same with a server of this script, by a connection that the server opens or the client; and what `NOOP` results
/// in afterwards.
fn visited<R>(
    rt: &R,
    address: SocketAddr,
    mode: Mode,
) -> Result<(usize, Option<ErrorKind>, u8), Fail>
where
    R: Net<Listener = TcpListener, Stream = TcpStream> + Clock + Wait + AllocGlobal,
{
    let client = client(rt, address)?;
    client.set_mode(rt, mode);
    client.set_active_peer_check(rt, ActivePeerCheck::Any);
    let (came, fault) = stalled(rt, &client)?;
    Ok((came, fault, number(client.noop(rt))))
}

/// The rest of a script: data that stall until the client closes their connection.
const PASSIVE: &str =
    "send 220 r;line;passive 2;line;send 150 b;accept;data he;measure;send 426 n;line;send 200 ok";

/// The same on a connection that the server opens.
const ACTIVE: &str =
    "send 220 r;line;send 200 ok;connect;line;send 150 b;data he;measure;send 426 n;line;send 200 ok";

#[test]
fn data_that_stall_end_their_read_and_the_client_goes_on(rt: HostRuntime) -> Result<(), Fail> {
    let late = (2, Some(ErrorKind::TimedOut), 0);
    for (mode, steps) in [(Mode::Passive, PASSIVE), (Mode::Active, ACTIVE)] {
        let (serving, address) = serving(rt, steps)?;
        let came = visited(&rt, address, mode)?;
        let served = serving.join(&rt).is_ok();
        assert_eq!(rt; (came, served), (late, true));
    }
    Ok(())
}

#[test]
fn a_greeting_that_does_not_come_ends_the_connect(rt: HostRuntime) -> Result<(), Fail> {
    let listener = TcpListener::bind(&rt, "127.0.0.1:0")?;
    let addresses = [listener.local_addr()?];
    let late = kind_of(FtpStream::connect_within(&rt, &addresses, Duration::from_millis(LIMIT)));
    let none = kind_of(FtpStream::connect_within(&rt, &addresses, Duration::ZERO));
    drop(listener);
    assert_eq!(rt;
        (late, none),
        (Some(ErrorKind::TimedOut), Some(ErrorKind::InvalidInput))
    );
    Ok(())
}

//! Clients whose sockets have time limits, with servers that stop in the midst.

use crate::clients::write_passive;
use crate::scene::{Client, client_of, noop};
use ftp_base::types::{ConnectionError, FtpError, FtpResult};
use ftp_tokio::TokioTransport;
use futures::Future;
use std::alloc::AllocGlobal;
use std::io::{ErrorKind, Read, Write};
use std::net::{Net, SocketAddr, TcpListener, TcpStream};
use std::random::RandomSource;
use std::sync::Wait;
use std::test::Fail;
use std::time::{Clock, Duration};
use std::{io, thread};
use test_loopback::{Runtime, listening, running};

/// The limit, in milliseconds.
const LIMIT: u64 = 1200;

/// A client whose reads wait no longer than so many milliseconds.
pub fn client<R>(
    rt: &R,
    runtime: &mut Runtime,
    address: SocketAddr,
    limit: u64,
) -> Result<Box<Client>, Fail>
where
    R: Net + Wait + Clock + RandomSource + AllocGlobal,
{
    let limit = Some(Duration::from_millis(limit));
    let transport = TokioTransport::of_runtime_with_limits(runtime.handle(), None, limit, None)?;
    client_of(rt, runtime, Client::connect(rt, transport, &[address]))
}

/// The kind of the error of a call that a connection's error ended.
fn kind_of<R, F, T>(rt: &R, runtime: &mut Runtime, state: F) -> io::Result<Option<ErrorKind>>
where
    R: Wait + Clock + RandomSource + AllocGlobal,
    F: Future<Output = FtpResult<T>>,
    T: Drop,
    requires { F.can_poll state }
{
    let answer = runtime.local().block_on(rt, state)?;
    let kind = match &answer {
        Err(FtpError::ConnectionError(ConnectionError::Io(kind))) => Some(*kind),
        _ => None,
    };
    drop(answer);
    Ok(kind)
}

/// A client that was greeted.
fn greeted(listener: &TcpListener) -> io::Result<TcpStream> {
    let (mut server, _address) = listener.accept()?;
    server.write_all(b"220 ready\r\n")?;
    Ok(server)
}

/// Answers one `NOOP` a while after it came, and no other.
fn answer_one<R: Clock>(rt: &R, listener: &TcpListener) -> io::Result<usize> {
    let mut server = greeted(listener)?;
    let mut line = [0u8; 6];
    server.read_exact(&mut line)?;
    thread::sleep(rt, Duration::from_millis(LIMIT / 4));
    server.write_all(b"200 ok\r\n")?;
    server.read_exact(&mut line)?;
    server.read(&mut line)
}

#[test]
fn a_reply_is_waited_for_until_the_limit_from_its_own_call_on(rt: HostRuntime) -> Result<(), Fail> {
    let (listener, address) = listening(&rt)?;
    let serving = thread::spawn(&rt, move || answer_one(&rt, &listener))?;
    let mut runtime = running(&rt)?;
    let client = client(&rt, &mut runtime, address, LIMIT)?;
    // no turn of the event loop sees this time pass
    thread::sleep(&rt, Duration::from_millis(LIMIT * 2));
    let first = noop(&rt, &mut runtime, &client);
    let second = kind_of(&rt, &mut runtime, client.noop(&rt))?;
    let third = noop(&rt, &mut runtime, &client);
    drop(client);
    drop(runtime);
    let served = serving.join(&rt).is_ok();
    let late = Some(ErrorKind::TimedOut);
    assert_eq!(rt; (first, second, third, served), (0, late, 14, true));
    Ok(())
}

/// Sends two bytes of a download, waits until the client has closed its connection, and answers a `NOOP` then.
fn stall(listener: &TcpListener, data: &TcpListener) -> io::Result<usize> {
    let mut server = greeted(listener)?;
    write_passive(&mut server, data.local_addr()?.port())?;
    let (mut stream, _address) = data.accept()?;
    stream.write_all(b"he")?;
    let more = stream.read(&mut [0u8; 1])?;
    server.write_all(b"426 late\r\n200 ok\r\n")?;
    let mut lines = *b"PASV\r\nRETR a\r\nNOOP\r\n";
    server.read_exact(&mut lines)?;
    Ok(more)
}

#[test]
fn data_that_stall_end_their_download_and_the_client_goes_on(rt: HostRuntime) -> Result<(), Fail> {
    let (listener, address) = listening(&rt)?;
    let (data, _address) = listening(&rt)?;
    let serving = thread::spawn(&rt, move || stall(&listener, &data))?;
    let mut runtime = running(&rt)?;
    let client = client(&rt, &mut runtime, address, LIMIT)?;
    let fault = kind_of(&rt, &mut runtime, client.retr_as_buffer(&rt, "a"))?;
    let after = noop(&rt, &mut runtime, &client);
    drop(client);
    drop(runtime);
    let served = serving.join(&rt).is_ok();
    assert_eq!(rt;
        (fault, after, served),
        (Some(ErrorKind::TimedOut), 0, true)
    );
    Ok(())
}

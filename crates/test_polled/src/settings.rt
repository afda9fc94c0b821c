//! Clients over tokio's sockets that connect by themselves, and what they were set to.

use crate::counted::polled;
use crate::scene::{Client, Scene, client_of, connects, done, greeted, noop, send};
use ftp_base::encoding::Utf8Encoding;
use ftp_base::types::{FtpError, FtpResult};
use ftp_polled::ImplAsyncFtpStream;
use ftp_session::session::{Failure, NoTlsConnector};
use ftp_tokio::{TokioConn, TokioTransport};
use ftp_transport::PassiveStreamBuilder;
use std::alloc::{AllocGlobal, Global};
use std::io::{Read, Write};
use std::net::{Net, SocketAddr, TcpListener, TcpStream};
use std::random::RandomSource;
use std::sync::Wait;
use std::test::Fail;
use std::time::{Clock, Duration, Instant};
use std::{io, thread};
use test_loopback::{Runtime, listening, pair, running, transport};

/// A server that sends this and reads to the end: what it read.
fn serve(alloc: Global, listener: &TcpListener, replies: &str) -> io::Result<String> {
    let (mut server, _address) = listener.accept()?;
    server.write_all(replies.as_bytes())?;
    io::read_to_string(alloc, server)
}

/// What NOOP results in of a client that connects to the first of these addresses that accepts.
fn answer_at<R>(rt: &R, addresses: &[SocketAddr]) -> Result<u8, Fail>
where
    R: Net<Listener = TcpListener, Stream = TcpStream> + Wait + Clock + RandomSource + AllocGlobal,
{
    let mut runtime = running(rt)?;
    let connect = Client::connect(rt, transport(&runtime)?, addresses);
    let client = client_of(rt, &mut runtime, connect)?;
    Ok(noop(rt, &mut runtime, &client))
}

#[test]
fn a_client_connects_to_the_first_that_listens(rt: HostRuntime) -> Result<(), Fail> {
    let (refuses, dead) = listening(&rt)?;
    drop(refuses);
    let (listener, address) = listening(&rt)?;
    let replies = "220 ready\r\n200 ok\r\n";
    let serving = thread::spawn(&rt, move || serve(rt.alloc(), &listener, replies))?;
    let answer = answer_at(&rt, &[dead, address])?;
    let received = serving.join(&rt)?;
    assert_eq!(rt; (answer, received.as_str()), (0, "NOOP\r\n"));
    Ok(())
}

/// The number of the error of NOOP; 1 where the client has failed then, and 0 where it hasn't; and the same and where it
/// failed, as its control connection tells it.
type Seen = (u8, u8, Option<(bool, Option<Failure>)>);

/// What two calls of a client result in that connects to this address.
fn cut<R>(rt: &R, address: SocketAddr) -> Result<[Seen; 2], Fail>
where
    R: Net<Listener = TcpListener, Stream = TcpStream> + Wait + Clock + RandomSource + AllocGlobal,
{
    let mut runtime = running(rt)?;
    let connect = Client::connect(rt, transport(&runtime)?, &[address]);
    let client = client_of(rt, &mut runtime, connect)?;
    let refused = seen(rt, &mut runtime, &client);
    let cut = seen(rt, &mut runtime, &client);
    Ok([refused, cut])
}

/// What NOOP results in.
fn seen<R>(rt: &R, runtime: &mut Runtime, client: &Client) -> Seen
where
    R: Net + Wait + Clock + RandomSource + AllocGlobal,
{
    let answer = noop(rt, runtime, client);
    let failed = has_failed(rt, runtime, client);
    (answer, failed, lent(rt, runtime, client))
}

/// Whether the client has failed, and where, as its control connection tells it.
fn lent<R>(rt: &R, runtime: &mut Runtime, client: &Client) -> Option<(bool, Option<Failure>)>
where
    R: Wait + Clock + RandomSource + AllocGlobal,
{
    match runtime.local().block_on(rt, client.get_ref()) {
        Ok(Ok(control)) => Some((control.failed(), control.last_failure())),
        _ => None,
    }
}

/// 1 where the client has failed, 0 where it hasn't, and 2 where the call fails.
fn has_failed<R>(rt: &R, runtime: &mut Runtime, client: &Client) -> u8
where
    R: Wait + Clock + RandomSource + AllocGlobal,
{
    match runtime.local().block_on(rt, client.failed()) {
        Ok(Ok(failed)) => u8::from(failed),
        _ => 2,
    }
}

/// Answers a command by 550, reads the next, and closes the connection.
fn refuse(listener: &TcpListener) -> io::Result<()> {
    let (mut server, _address) = listener.accept()?;
    server.write_all(b"220 ready\r\n")?;
    let mut line = [0u8; 6];
    server.read_exact(&mut line)?;
    server.write_all(b"550 no\r\n")?;
    server.read_exact(&mut line)
}

#[test]
fn a_client_tells_that_it_has_failed(rt: HostRuntime) -> Result<(), Fail> {
    let (listener, address) = listening(&rt)?;
    let serving = thread::spawn(&rt, move || refuse(&listener))?;
    let calls = cut(&rt, address)?;
    let served = serving.join(&rt).is_ok();
    // `UnexpectedResponse` is 10, `UnexpectedEof` 2
    let refused = (10, 0, Some((false, None)));
    let cut = (2, 1, Some((true, Some(Failure::Control))));
    assert_eq!(rt; (calls, served), ([refused, cut], true));
    Ok(())
}

/// Greets two clients by a reply that opens with a plus.
fn greet(listener: &TcpListener) -> io::Result<()> {
    for _ in 0..2 {
        let (mut server, _address) = listener.accept()?;
        server.write_all(b"+22 hello\r\n220 ready\r\n")?;
    }
    Ok(())
}

/// The numbers of the errors of clients that connect to this address, strictly and leniently.
fn greeted_so<R>(rt: &R, address: SocketAddr) -> Result<(u8, u8), Fail>
where
    R: Net<Listener = TcpListener, Stream = TcpStream> + Wait + Clock + RandomSource + AllocGlobal,
{
    let mut runtime = running(rt)?;
    let strict = Client::connect(rt, transport(&runtime)?, &[address]);
    let strict = connects(rt, &mut runtime, strict);
    let lenient = Client::connect_lenient(rt, transport(&runtime)?, &[address]);
    Ok((strict, connects(rt, &mut runtime, lenient)))
}

/// The number of the error of a client that reads such a greeting leniently on a connection.
fn greeted_on<R>(rt: &R) -> io::Result<u8>
where
    R: Net<Listener = TcpListener, Stream = TcpStream> + Wait + Clock + RandomSource + AllocGlobal,
{
    let mut runtime = running(rt)?;
    let (conn, _server) = pair(rt, &runtime, b"+22 hello\r\n220 ready\r\n")?;
    let connect = Client::connect_with_stream_lenient(rt, transport(&runtime)?, conn);
    Ok(connects(rt, &mut runtime, connect))
}

#[test]
fn a_lenient_client_takes_a_greeting_that_opens_with_a_plus(rt: HostRuntime) -> Result<(), Fail> {
    let (listener, address) = listening(&rt)?;
    let serving = thread::spawn(&rt, move || greet(&listener))?;
    let faults = greeted_so(&rt, address)?;
    let served = serving.join(&rt).is_ok();
    let on = greeted_on(&rt)?;
    // `BadResponse` is 11
    assert_eq!(rt; (faults, served, on), ((11, 0), true, 0));
    Ok(())
}

/// The number of the error of a client that connects to a listener within this time.
fn fault_within<R>(rt: &R, limit: Duration) -> Result<u8, Fail>
where
    R: Net<Listener = TcpListener, Stream = TcpStream> + Wait + Clock + RandomSource + AllocGlobal,
{
    let (_listener, address) = listening(rt)?;
    let mut runtime = running(rt)?;
    let connect = Client::connect_timeout(rt, transport(&runtime)?, address, limit);
    Ok(connects(rt, &mut runtime, connect))
}

#[test]
fn a_client_connects_within_its_limit_or_not_at_all(rt: HostRuntime) -> Result<(), Fail> {
    let none = fault_within(&rt, Duration::ZERO)?;
    let short = fault_within(&rt, Duration::from_nanos(1))?;
    // TimedOut
    assert_eq!(rt; (none, short), (8, 8));
    Ok(())
}

/// The numbers of the errors of a client that is set to wait a fifth of a second for its server, and of its download,
/// and how often that was polled.
fn active<R>(rt: &R, scene: &mut Scene) -> (u8, (u8, u32))
where
    R: Net<Listener = TcpListener, Stream = TcpStream> + Wait + Clock + RandomSource + AllocGlobal,
{
    let setting = scene.client.active_mode(rt, Duration::from_millis(200));
    let set = done(rt, &mut scene.runtime, setting);
    let opening = scene.client.retr_as_stream(rt, "a");
    (set, polled(rt, &mut scene.runtime, opening))
}

#[test]
fn an_active_client_waits_for_its_server_as_long_as_it_was_set_to(
    rt: HostRuntime,
) -> Result<(), Fail> {
    let start = Instant::now(&rt)?;
    let mut scene = greeted(&rt)?;
    let sent = send(&mut scene.server, b"200 ok\r\n150 on\r\n");
    let (set, (fault, polls)) = active(&rt, &mut scene);
    let mut line = [0u8; 15];
    let read = scene.server.read_exact(&mut line).is_ok();
    drop(scene);
    let in_time = start.elapsed(&rt)? < Duration::from_secs(5);
    let held = [sent, read, in_time, polls < 10];
    // TimedOut
    assert_eq!(rt;
        (held, line, set, fault),
        ([true; 4], *b"PORT 127,0,0,1,", 0, 8)
    );
    Ok(())
}

/// A builder that makes no connection.
#[derive(Drop)]
struct BuildsNone;

impl PassiveStreamBuilder<TokioConn> for BuildsNone {
    ghost use Rattle.std.specs.Prelude.{◌≡◌, Err};
    ghost use Rattle.ftp_base.specs.declared.types.fault.FtpError.TheVariants.{BadResponse};

    ghost answers = { λ _ _ built. built ≡ Err BadResponse };

    fn build(&self, _address: SocketAddr) -> FtpResult<TokioConn> {
        Err(FtpError::BadResponse)
    }
}

/// A client with such a builder.
type Building = ImplAsyncFtpStream<TokioTransport, NoTlsConnector, Utf8Encoding, BuildsNone>;

/// The numbers of the errors of the setting, by either method, and of a download whose data connection such a builder is to
/// make.
fn building<R>(rt: &R, address: SocketAddr, sets: bool) -> Result<(u8, u8), Fail>
where
    R: Net<Listener = TcpListener, Stream = TcpStream> + Wait + Clock + RandomSource + AllocGlobal,
{
    let mut runtime = running(rt)?;
    let connect = Building::connect(rt, transport(&runtime)?, &[address]);
    let client = runtime.local().block_on(rt, connect)??;
    let setting = if sets {
        client.set_passive_stream_builder(rt, BuildsNone)
    } else {
        client.passive_stream_builder(rt, BuildsNone)
    };
    let set = done(rt, &mut runtime, setting);
    let opening = client.retr_as_stream(rt, "a");
    drop(client);
    Ok((set, done(rt, &mut runtime, opening)))
}

#[test]
fn a_builders_error_is_answered_as_it_is(rt: HostRuntime) -> Result<(), Fail> {
    let replies = "220 ready\r\n227 on (127,0,0,1,4,0)\r\n";
    for sets in [true, false] {
        let (listener, address) = listening(&rt)?;
        let serving = thread::spawn(&rt, move || serve(rt.alloc(), &listener, replies))?;
        let faults = building(&rt, address, sets)?;
        let received = serving.join(&rt)?;
        // BadResponse
        assert_eq!(rt; (faults, received.as_str()), ((0, 11), "PASV\r\n"));
    }
    Ok(())
}

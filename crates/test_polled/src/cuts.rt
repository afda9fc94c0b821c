//! Servers that end, reset or stop at each place of their replies, of which each byte is a segment, on loopback.

use crate::limits::client;
use crate::scene::{done, noop};
use std::alloc::{AllocGlobal, Global};
use std::io::{Read, Write};
use std::net::{Net, Shutdown, TcpListener, TcpStream};
use std::random::RandomSource;
use std::sync::Wait;
use std::test::Fail;
use std::thread::Threads;
use std::time::Clock;
use std::{io, thread};
use test_loopback::{listening, running};

/// More reads than a client sends bytes.
const MOST_READS: usize = 1 << 10;

/// What a server does once it has sent what it sends.
#[derive(Clone, Copy)]
enum Then {
    Ends,
    Resets,
    Stops,
}

impl Then {
    /// How long the reads of its client wait, in milliseconds.
    fn limit(self) -> u64 {
        match self {
            Then::Ends | Then::Resets => 10_000,
            Then::Stops => 400,
        }
    }
}

/// Greets a client, and reads one byte of its first command.
fn greet(listener: &TcpListener) -> io::Result<TcpStream> {
    let (mut server, _address) = listener.accept()?;
    server.set_nodelay(true)?;
    server.write_all(b"220 ready\r\n")?;
    server.read_exact(&mut [0u8; 1])?;
    Ok(server)
}

/// Sends so many of these bytes, one a segment.
fn send_some(server: &mut TcpStream, bytes: &[u8], count: usize) -> io::Result<()> {
    for byte in bytes.iter().take(count) {
        server.write_all(&[*byte])?;
    }
    Ok(())
}

/// Ends a server's connection; or it stays until its client has closed it.
fn end(mut server: TcpStream, then: Then) -> io::Result<()> {
    match then {
        // a socket that is closed with bytes unread resets its connection (RFC 9293, section 3.6.1)
        Then::Resets => return Ok(()),
        Then::Ends => server.shutdown(Shutdown::Write)?,
        Then::Stops => {}
    }
    for _ in 0..MOST_READS {
        if server.read(&mut [0u8; 64])? == 0 {
            break;
        }
    }
    Ok(())
}

/// Sends so many bytes of the reply to NOOP.
fn serve_noop(listener: &TcpListener, count: usize, then: Then) -> io::Result<()> {
    let mut server = greet(listener)?;
    send_some(&mut server, b"200 ok\r\n", count)?;
    end(server, then)
}

/// The numbers of the errors of a NOOP, of whose reply so many bytes come, and of the one after it.
fn noops<R>(rt: &R, count: usize, then: Then) -> Result<(u8, u8), Fail>
where
    R: Threads
        + Net<Listener = TcpListener, Stream = TcpStream>
        + Wait
        + Clock
        + RandomSource
        + AllocGlobal,
{
    let (listener, address) = listening(rt)?;
    let serving = thread::spawn(rt, move || serve_noop(&listener, count, then))?;
    let mut runtime = running(rt)?;
    let client = client(rt, &mut runtime, address, then.limit())?;
    let first = noop(rt, &mut runtime, &client);
    let second = noop(rt, &mut runtime, &client);
    drop(client);
    drop(runtime);
    drop(serving.join(rt));
    Ok((first, second))
}

#[test]
fn a_reply_that_is_cut_at_any_place_is_an_error_or_whole(rt: HostRuntime) -> Result<(), Fail> {
    let mut came = [[(0, 0); 9]; 2];
    for count in 0..9 {
        came[0][count] = noops(&rt, count, Then::Ends)?;
        came[1][count] = noops(&rt, count, Then::Resets)?;
    }
    // a first line has five bytes at least, and the end of the input ends a line
    let mut ended = [(0, 2); 9];
    ended[0] = (2, 14);
    ended[1..5].fill((11, 2));
    let mut reset = [(1, 14); 9];
    reset[8] = (0, 1);
    assert_eq!(rt; came, [ended, reset]);
    Ok(())
}

#[test]
fn a_reply_that_stops_at_any_place_is_an_error(rt: HostRuntime) -> Result<(), Fail> {
    let mut came = [(0, 0); 8];
    for count in 0..8 {
        came[count] = noops(&rt, count, Then::Stops)?;
    }
    assert_eq!(rt; came, [(1, 14); 8]);
    Ok(())
}

/// The reply to PASV that names this port of 127.0.0.1.
fn passive(alloc: Global, port: u16) -> Result<String, Fail> {
    Ok(format!(in alloc; "227 on (127,0,0,1,{},{})\r\n", port / 256, port % 256)?)
}

/// The replies to a download after that to PASV.
const OTHERS: &[u8; 18] = b"150 go\r\n226 done\r\n";

/// Sends so many bytes of the replies to a download, of which the first is this.
fn serve_download(
    listener: &TcpListener,
    data: &TcpListener,
    first: &[u8],
    count: usize,
    then: Then,
) -> io::Result<()> {
    let mut server = greet(listener)?;
    send_some(&mut server, first, count)?;
    if count >= first.len() {
        let (mut stream, _address) = data.accept()?;
        stream.write_all(b"hello")?;
        drop(stream);
        send_some(&mut server, OTHERS, count - first.len())?;
    }
    end(server, then)
}

/// The numbers of the errors of a download, of whose replies so many bytes come, and of the NOOP after it. None where these
/// bytes are all.
fn download<R>(rt: &R, count: usize, then: Then) -> Result<Option<(u8, u8)>, Fail>
where
    R: Threads
        + Net<Listener = TcpListener, Stream = TcpStream>
        + Wait
        + Clock
        + RandomSource
        + AllocGlobal,
{
    let (listener, address) = listening(rt)?;
    let (data, place) = listening(rt)?;
    let first = passive(rt.alloc(), place.port())?;
    if count >= first.len() + OTHERS.len() {
        return Ok(None);
    }
    let serving = thread::spawn(rt, move || {
        serve_download(&listener, &data, first.as_bytes(), count, then)
    })?;
    let mut runtime = running(rt)?;
    let client = client(rt, &mut runtime, address, then.limit())?;
    let outcome = done(rt, &mut runtime, client.retr_as_buffer(rt, "a"));
    let after = noop(rt, &mut runtime, &client);
    drop(client);
    drop(runtime);
    drop(serving.join(rt));
    Ok(Some((outcome, after)))
}

/// Makes downloads of whose replies ever more bytes come, each time so many more: how many were made, and the first place at
/// which one didn't fail with the connection's error or left a session that goes on.
fn downloads<R>(rt: &R, step: usize, then: Then) -> Result<(usize, Option<usize>), Fail>
where
    R: Threads
        + Net<Listener = TcpListener, Stream = TcpStream>
        + Wait
        + Clock
        + RandomSource
        + AllocGlobal,
{
    let mut count = 0usize;
    for number in 0..50 {
        match download(rt, count, then)? {
            Some((1, 14)) => count = count.saturating_add(step),
            Some(_) => return Ok((number, Some(count))),
            None => return Ok((number, None)),
        }
    }
    Ok((50, None))
}

#[test]
fn a_download_whose_replies_are_cut_at_any_place_is_an_error(rt: HostRuntime) -> Result<(), Fail> {
    let (resets, first) = downloads(&rt, 1, Then::Resets)?;
    let (stops, second) = downloads(&rt, 5, Then::Stops)?;
    assert_eq!(rt;
        (resets > 40, first, stops > 8, second),
        (true, None, true, None)
    );
    Ok(())
}

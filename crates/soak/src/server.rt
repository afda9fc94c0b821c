//! The server's side: sessions one after another, each by its script.

use crate::script::{Ending, Script, Sent};
use std::io::{Read, Write};
use std::net::{TcpListener, TcpStream};
use std::time::{Clock, Duration};
use std::{io, thread};

/// The line after which no other session follows.
pub const STOP: &str = "STOP";

/// How long a pause within a reply is, in milliseconds.
const PAUSE: u64 = 1;

/// How many bytes are read of an upload at once.
const PIECE: usize = 512;

/// What follows after a session.
#[derive(Clone, Copy)]
enum Next {
    /// Another.
    Session,
    /// None.
    Nothing,
}

/// Serves clients one after another, with the listener for their data connections.
pub fn serve<R: Clock + AllocGlobal>(
    rt: &R,
    listener: &TcpListener,
    data: &TcpListener,
    seed: u64,
    port: u16,
) -> io::Result<()> {
    for session in 0..u64::MAX {
        let (mut stream, _peer) = listener.accept()?;
        forget(data)?;
        let script = Script {
            seed,
            session,
            port,
        };
        // A session ends, too, where the client is gone.
        if let Ok(Next::Nothing) = serve_one(rt, &mut stream, data, script) {
            break;
        }
    }
    Ok(())
}

/// Lets go of the data connections of earlier sessions. A client that is gone with replies unread has reset its connection,
/// and the line by which it would have used the last one is lost. No client of this session has made one, as it isn't
/// greeted yet.
fn forget(data: &TcpListener) -> io::Result<()> {
    data.set_nonblocking(true)?;
    for _ in 0..u64::MAX {
        if data.accept().is_err() {
            break;
        }
    }
    data.set_nonblocking(false)
}

/// Serves a client to the end of its session.
fn serve_one<R: Clock + AllocGlobal>(
    rt: &R,
    stream: &mut TcpStream,
    data: &TcpListener,
    script: Script,
) -> io::Result<Next> {
    stream.set_nodelay(true)?;
    stream.write_all(b"220 ready\r\n")?;
    for number in 0..u64::MAX {
        let Some(first) = read_byte(stream)? else {
            break;
        };
        if first == b'N' && script.resets(number) {
            let sent = script.sent(rt.alloc(), number, "NOOP")?;
            stream.write_all(&sent.reply)?;
            // What is left unread of the line makes the close a reset.
            break;
        }
        let line = read_line(rt, stream, first)?;
        if line.as_str() == STOP {
            return Ok(Next::Nothing);
        }
        let sent = script.sent(rt.alloc(), number, line.as_str())?;
        match answer(rt, stream, data, script, number, line.as_str(), &sent)? {
            Ending::Whole => {}
            Ending::Stalls => wait_for_end(stream)?,
            Ending::Cut | Ending::Reset => break,
        }
    }
    Ok(Next::Session)
}

/// Answers a line.
fn answer<R: Clock + AllocGlobal>(
    rt: &R,
    stream: &mut TcpStream,
    data: &TcpListener,
    script: Script,
    number: u64,
    line: &str,
    sent: &Sent,
) -> io::Result<Ending> {
    let transfers = ["RETR ", "LIST", "STOR "];
    if transfers.iter().any(|start| line.starts_with(*start)) {
        let (mut transfer, _peer) = data.accept()?;
        stream.write_all(&sent.reply)?;
        // The client may be gone from its data connection.
        let _ = transfer.write_all(&sent.data);
        if line.starts_with("STOR ") {
            let _ = wait_for_end(&mut transfer);
        }
        drop(transfer);
        stream.write_all(sent.last.as_bytes())?;
        return Ok(sent.ending);
    }
    let pause = script.pause(number, sent.reply.len()).unwrap_or(0);
    let front = sent.reply.get(..pause).unwrap_or(&[]);
    let rest = sent.reply.get(pause..).unwrap_or(&[]);
    if !front.is_empty() {
        stream.write_all(front)?;
        thread::sleep(rt, Duration::from_millis(PAUSE));
    }
    stream.write_all(rest)?;
    Ok(sent.ending)
}

/// The next byte; none at the end.
fn read_byte(stream: &mut TcpStream) -> io::Result<Option<u8>> {
    let mut byte = [0u8; 1];
    if stream.read(&mut byte)? == 0 {
        return Ok(None);
    }
    Ok(Some(byte[0]))
}

/// A line that began with this byte, without its end. It is read a byte at a time, so that nothing of the next is.
fn read_line<R: AllocGlobal>(rt: &R, stream: &mut TcpStream, first: u8) -> io::Result<String> {
    let mut line = String::new(rt.alloc());
    line.push(char::from(first))?;
    for _ in 0..u64::MAX {
        match read_byte(stream)? {
            Some(b'\n') | None => break,
            Some(b'\r') => {}
            Some(byte) => line.push(char::from(byte))?,
        }
    }
    Ok(line)
}

/// Reads to the end.
fn wait_for_end(stream: &mut TcpStream) -> io::Result<()> {
    let mut piece = [0u8; PIECE];
    for _ in 0..u64::MAX {
        if stream.read(&mut piece)? == 0 {
            break;
        }
    }
    Ok(())
}

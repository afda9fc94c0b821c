//! A server on loopback sockets, which plays a script and notes what it met with.
//!
//! A script is steps with semicolons between them, each a word, of which the first letter counts, and an argument:
//!
//! | Step | What the server does |
//! |---|---|
//! | `send TEXT`, `begin TEXT` | it sends this line on the control connection, with its end or without |
//! | `line` | it reads a command line and notes it, of PORT the command alone |
//! | `passive HOST` | it says by 227 that it listens for data connections at this host of 127.0.0.0 (RFC 959, section 4.2); it listens at the host 2 |
//! | `extended` | it says so by 229 (RFC 2428, section 3) |
//! | `accept` | it accepts a data connection |
//! | `connect` | it connects to the address of PORT, and notes `+`, or `-` where nobody listens there |
//! | `data TEXT` | it sends this on the data connection |
//! | `fill N`, `names N` | it sends on it 4 KiB of sevens, or a line `line`, so many times |
//! | `text`, `measure` | it reads it to its end, and notes the text, or how many bytes came |
//! | `hangup` | it closes it |

use std::io::{BufRead, BufReader, ErrorKind, Read, Write};
use std::net::{Net, SocketAddr, TcpListener, TcpStream};
use std::test::Fail;
use std::thread::{JoinHandle, Threads};
use std::{io, mem, thread};

/// The server's end of a client's connections, where the client listens by PORT, and what the server noted.
#[derive(Drop)]
struct Server {
    control: BufReader<TcpStream>,
    listener: TcpListener,
    data: Option<TcpStream>,
    client: SocketAddr,
    noted: String,
}

/// Plays a script with the next client; what was noted, with a bar after each note. The control connection is closed then.
pub fn serve<R>(rt: &R, listener: &TcpListener, steps: &str) -> io::Result<String>
where
    R: Net<Listener = TcpListener, Stream = TcpStream> + AllocGlobal,
{
    let mut server = accepted(rt, listener)?;
    for step in steps.split(';') {
        let (word, argument) = step.split_once(' ').unwrap_or((step, ""));
        play(rt, &mut server, word, argument)?;
    }
    String::from_str(rt.alloc(), server.noted.as_str()).map_err(io::Error::from)
}

/// A thread that plays a script, and returns what was noted.
pub type Serving = JoinHandle<io::Result<String>>;

/// A thread that plays a script with the next client, and the address at which it does.
pub fn serving<R>(rt: R, steps: &'static str) -> Result<(Serving, SocketAddr), Fail>
where
    R: Threads + Net<Listener = TcpListener, Stream = TcpStream>,
    R: AllocGlobal + Copy + Send + 'static,
{
    let listener = TcpListener::bind(&rt, "127.0.0.1:0")?;
    let address = listener.local_addr()?;
    let thread = thread::spawn(&rt, move || serve(&rt, &listener, steps))?;
    Ok((thread, address))
}

/// The next client's server.
fn accepted<R>(rt: &R, listener: &TcpListener) -> io::Result<Box<Server>>
where
    R: Net<Listener = TcpListener, Stream = TcpStream> + AllocGlobal,
{
    let (stream, client) = listener.accept()?;
    let control = BufReader::new(rt.alloc(), stream)?;
    let listener = TcpListener::bind(rt, "127.0.0.2:0")?;
    let server = Server {
        control,
        listener,
        data: None,
        client,
        noted: String::new(rt.alloc()),
    };
    Box::new(rt.alloc(), server).map_err(io::Error::from)
}

/// Makes a step.
fn play<R>(rt: &R, server: &mut Server, word: &str, argument: &str) -> io::Result<()>
where
    R: Net<Listener = TcpListener, Stream = TcpStream> + AllocGlobal,
{
    match word.as_bytes().first() {
        Some(b's') => write!(server.control.get_mut(), "{argument}\r\n"),
        Some(b'b') => server.control.get_mut().write_all(argument.as_bytes()),
        Some(b'l') => read_line(rt, server),
        Some(b'p') => tell_passive(server, argument),
        Some(b'e') => tell_extended(server),
        Some(b'a') => accept(server),
        Some(b'c') => connect(rt, server),
        Some(b'd') => data(server)?.write_all(argument.as_bytes()),
        Some(b'f') => send(data(server)?, &[7u8; 4096], argument),
        Some(b'n') => send(data(server)?, b"line\r\n", argument),
        Some(b't') => read_text(rt, server),
        Some(b'm') => read_count(server),
        Some(b'h') => {
            drop(server.data.take());
            Ok(())
        }
        _ => Err(ErrorKind::InvalidInput.into()),
    }
}

/// The data connection.
fn data(server: &mut Server) -> io::Result<&mut TcpStream> {
    match &mut server.data {
        Some(stream) => Ok(stream),
        None => Err(ErrorKind::NotConnected.into()),
    }
}

/// Reads a command line.
fn read_line<R: AllocGlobal>(rt: &R, server: &mut Server) -> io::Result<()> {
    let mut line = String::new(rt.alloc());
    server.control.read_line(&mut line)?;
    let line = line.trim_end();
    if line.starts_with("PORT ") {
        server.client = SocketAddr::from(([127, 0, 0, 1], port_of(line)));
        return note(server, "PORT");
    }
    note(server, line)
}

/// Adds a note.
fn note(server: &mut Server, text: &str) -> io::Result<()> {
    write!(server.noted, "{text}|").map_err(io::Error::from)
}

/// The port in a PORT command: its last two octets (RFC 959, section 5.3.2).
fn port_of(line: &str) -> u16 {
    let mut numbers = line.rsplit(',');
    let low = octet(numbers.next());
    let high = octet(numbers.next());
    u16::from_be_bytes([high, low])
}

/// The octet that this text has, 0 where there is none.
fn octet(number: Option<&str>) -> u8 {
    number
        .and_then(|digits| digits.parse::<u8>().ok())
        .unwrap_or(0)
}

/// Says where data connections are accepted, by 227.
fn tell_passive(server: &mut Server, host: &str) -> io::Result<()> {
    let port = server.listener.local_addr()?.port();
    let (high, low) = (port / 256, port % 256);
    write!(
        server.control.get_mut(),
        "227 ok (127,0,0,{host},{high},{low})\r\n"
    )
}

/// Says so by 229.
fn tell_extended(server: &mut Server) -> io::Result<()> {
    let port = server.listener.local_addr()?.port();
    write!(server.control.get_mut(), "229 ok (|||{port}|)\r\n")
}

/// Accepts a data connection.
fn accept(server: &mut Server) -> io::Result<()> {
    let (stream, _peer) = server.listener.accept()?;
    drop(mem::replace(&mut server.data, Some(stream)));
    Ok(())
}

/// Connects to the address of PORT.
fn connect<R: Net<Stream = TcpStream>>(rt: &R, server: &mut Server) -> io::Result<()> {
    match TcpStream::connect(rt, server.client) {
        Ok(stream) => {
            drop(mem::replace(&mut server.data, Some(stream)));
            note(server, "+")
        }
        Err(error) => {
            drop(error);
            note(server, "-")
        }
    }
}

/// Sends these bytes so many times.
fn send(stream: &mut TcpStream, piece: &[u8], times: &str) -> io::Result<()> {
    for _ in 0..times.parse::<u32>().unwrap_or(0) {
        stream.write_all(piece)?;
    }
    Ok(())
}

/// Reads the data connection to its end, as a text.
fn read_text<R: AllocGlobal>(rt: &R, server: &mut Server) -> io::Result<()> {
    let mut text = String::new(rt.alloc());
    data(server)?.read_to_string(&mut text)?;
    note(server, text.as_str())
}

/// Reads the data connection to its end, and counts its bytes.
fn read_count(server: &mut Server) -> io::Result<()> {
    let count = count_of(data(server)?)?;
    write!(server.noted, "{count}|").map_err(io::Error::from)
}

/// How many bytes come to the end of a connection.
fn count_of(stream: &mut TcpStream) -> io::Result<usize> {
    let mut buffer = [0u8; 4096];
    let mut count = 0usize;
    for _ in 0..10_000_000 {
        let taken = stream.read(&mut buffer)?;
        if taken == 0 {
            break;
        }
        count = count.saturating_add(taken);
    }
    Ok(count)
}

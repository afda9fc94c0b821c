//! What the server does: as much of FTP (RFC 959, RFC 3659) as the programs need, for one client.

use crate::files;
use std::alloc::Global;
use std::io;
use std::io::{BufRead, BufReader, Read, Write};
use std::net::{TcpListener, TcpStream};

/// The server's end of a client's connections, where the next transfer begins, and what was uploaded last.
#[derive(Drop)]
struct Server {
    control: BufReader<TcpStream>,
    data: TcpListener,
    offset: usize,
    uploaded: Vec<u8>,
}

/// Serves the next client until it quits or is gone, with the listener for its data connections.
pub fn serve(alloc: Global, listener: &TcpListener, data: TcpListener) -> io::Result<()> {
    let (stream, _peer) = listener.accept()?;
    let control = BufReader::new(alloc, stream)?;
    let server = Server {
        control,
        data,
        offset: 0,
        uploaded: Vec::new(alloc),
    };
    let mut server = Box::new(alloc, server)?;
    say(&mut server, "220 ready")?;
    for _ in 0..u64::MAX {
        let mut line = String::new(alloc);
        server.control.read_line(&mut line)?;
        let line = line.trim_end();
        let (verb, argument) = line.split_once(' ').unwrap_or((line, ""));
        if verb.is_empty() {
            break;
        }
        answer(alloc, &mut server, verb, argument)?;
    }
    Ok(())
}

/// Answers one command.
fn answer(alloc: Global, server: &mut Server, verb: &str, argument: &str) -> io::Result<()> {
    match verb {
        "USER" => say(server, "331 a password, please"),
        "PASS" => say(server, "230 logged in"),
        "CWD" => say(server, "250 there"),
        "TYPE" | "PBSZ" | "PROT" | "NOOP" => say(server, "200 ok"),
        "AUTH" => say(server, "234 go"),
        "FEAT" => say(server, "211-features\r\n MLST type*;size*;\r\n211 end"),
        "PASV" => tell_port(server),
        "REST" => {
            server.offset = argument.parse().unwrap_or(0);
            say(server, "350 from there")
        }
        "SIZE" => tell_size(alloc, server, argument),
        "RETR" => send_file(alloc, server, argument),
        "MLSD" => send(server, files::facts(argument).as_bytes()),
        "STOR" => take(alloc, server),
        "ABOR" => say(server, "226 nothing is under way"),
        "QUIT" => say(server, "221 bye"),
        _ => say(server, "502 not here"),
    }
}

/// Sends a reply.
fn say(server: &mut Server, reply: &str) -> io::Result<()> {
    write!(server.control.get_mut(), "{reply}\r\n")
}

/// Says where data connections are accepted (RFC 959, section 4.2, 227).
fn tell_port(server: &mut Server) -> io::Result<()> {
    let port = server.data.local_addr()?.port();
    let (high, low) = (port / 256, port % 256);
    write!(
        server.control.get_mut(),
        "227 ok (127,0,0,1,{high},{low})\r\n"
    )
}

/// Says how long a file is: one of its own, or else the one that was uploaded last (RFC 3659, section 4).
fn tell_size(alloc: Global, server: &mut Server, path: &str) -> io::Result<()> {
    let size = match files::contents(alloc, path)? {
        Some(bytes) => bytes.len(),
        None => server.uploaded.len(),
    };
    write!(server.control.get_mut(), "213 {size}\r\n")
}

/// Sends a file from the offset on, which is then over.
fn send_file(alloc: Global, server: &mut Server, path: &str) -> io::Result<()> {
    let Some(bytes) = files::contents(alloc, path)? else {
        return say(server, "550 no such file");
    };
    let rest = bytes.get(server.offset..).unwrap_or(&[]);
    server.offset = 0;
    if path == "endless.bin" {
        return send_until_closed(server, rest);
    }
    send(server, rest)
}

/// Sends bytes over a data connection.
fn send(server: &mut Server, bytes: &[u8]) -> io::Result<()> {
    let (mut stream, _peer) = server.data.accept()?;
    say(server, "150 here it comes")?;
    stream.write_all(bytes)?;
    drop(stream);
    say(server, "226 done")
}

/// Sends bytes, and no end: that comes once the client closes the data connection (RFC 959, section 4.1.3, ABORT).
fn send_until_closed(server: &mut Server, bytes: &[u8]) -> io::Result<()> {
    let (mut stream, _peer) = server.data.accept()?;
    say(server, "150 here it comes")?;
    stream.write_all(bytes)?;
    let mut byte = [0; 1];
    let _ = stream.read(&mut byte);
    drop(stream);
    say(server, "426 closed")
}

/// Takes a file to its end.
fn take(alloc: Global, server: &mut Server) -> io::Result<()> {
    let (mut stream, _peer) = server.data.accept()?;
    say(server, "150 send it")?;
    let mut bytes = Vec::new(alloc);
    stream.read_to_end(&mut bytes)?;
    drop(stream);
    server.uploaded = bytes;
    say(server, "226 done")
}

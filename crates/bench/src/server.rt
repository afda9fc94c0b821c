//! The server's side: as much of FTP (RFC 959) as the runs need, for one client.
//!
//! A file's name is its length in bytes, and a directory's the number of its lines.

use crate::pieces::{PIECE, count_to_end, write_repeated};
use std::alloc::Global;
use std::io;
use std::io::{BufRead, BufReader, BufWriter, Write};
use std::net::{TcpListener, TcpStream};

/// A line of a listing.
const LINE: &[u8] = b"-rw-r--r-- 1 ftp ftp 1024 Jan 10 2024 notes.txt\r\n";

/// Serves two clients, one after the other; how many bytes both uploaded.
pub fn serve_both(
    alloc: Global,
    first: TcpStream,
    second: TcpStream,
    data: &TcpListener,
) -> io::Result<u64> {
    let before = serve(alloc, first, data)?;
    let after = serve(alloc, second, data)?;
    Ok(before.saturating_add(after))
}

/// Serves a client until it quits or is gone, with the listener for its data connections; how many bytes it uploaded.
fn serve(alloc: Global, stream: TcpStream, data: &TcpListener) -> io::Result<u64> {
    // Replies are small, and one may follow another.
    stream.set_nodelay(true)?;
    let mut control = BufReader::new(alloc, stream)?;
    let mut piece = vec![in alloc; b'x'; PIECE]?;
    say(&mut control, "220 ready\r\n")?;
    let mut received = 0u64;
    for _ in 0..u64::MAX {
        match answer(alloc, &mut control, data, &mut piece)? {
            Some(count) => received = received.saturating_add(count),
            None => break,
        }
    }
    Ok(received)
}

/// Answers one command; how many bytes it uploaded, or none where it was the last.
fn answer(
    alloc: Global,
    control: &mut BufReader<TcpStream>,
    data: &TcpListener,
    piece: &mut [u8],
) -> io::Result<Option<u64>> {
    let mut line = String::new(alloc);
    control.read_line(&mut line)?;
    let (verb, argument) = line
        .trim_end()
        .split_once(' ')
        .unwrap_or((line.trim_end(), ""));
    match verb {
        "PASV" => tell_port(alloc, control, data)?,
        "TYPE" => say(control, "200 ok\r\n")?,
        "RETR" => send_file(control, data, piece, amount(argument)?)?,
        "LIST" => send_listing(alloc, control, data, amount(argument)?)?,
        "STOR" => return Ok(Some(take_file(control, data, piece)?)),
        "QUIT" => {
            say(control, "221 bye\r\n")?;
            return Ok(None);
        }
        "" => return Ok(None),
        _ => say(control, "502 not here\r\n")?,
    }
    Ok(Some(0))
}

/// The amount that a name stands for.
fn amount(name: &str) -> io::Result<u64> {
    name.parse()
        .map_err(|_| io::Error::from(io::ErrorKind::InvalidInput))
}

/// Sends a reply of one line.
fn say(control: &mut BufReader<TcpStream>, reply: &str) -> io::Result<()> {
    control.get_mut().write_all(reply.as_bytes())
}

/// Says where data connections are accepted (RFC 959, section 4.2, 227).
fn tell_port(
    alloc: Global,
    control: &mut BufReader<TcpStream>,
    data: &TcpListener,
) -> io::Result<()> {
    let port = data.local_addr()?.port();
    let (high, low) = (port / 256, port % 256);
    let told = format!(in alloc; "227 ok (127,0,0,1,{high},{low})\r\n")?;
    say(control, told.as_str())
}

/// The next data connection, whose transfer the client is told of.
fn opened(control: &mut BufReader<TcpStream>, data: &TcpListener) -> io::Result<TcpStream> {
    let (stream, _peer) = data.accept()?;
    say(control, "150 here it comes\r\n")?;
    Ok(stream)
}

/// Sends a file of so many bytes.
fn send_file(
    control: &mut BufReader<TcpStream>,
    data: &TcpListener,
    piece: &[u8],
    length: u64,
) -> io::Result<()> {
    let mut stream = opened(control, data)?;
    write_repeated(&mut stream, piece, length)?;
    drop(stream);
    say(control, "226 done\r\n")
}

/// Sends a listing of so many lines.
fn send_listing(
    alloc: Global,
    control: &mut BufReader<TcpStream>,
    data: &TcpListener,
    lines: u64,
) -> io::Result<()> {
    let mut writer = BufWriter::new(alloc, opened(control, data)?)?;
    for _ in 0..lines {
        writer.write_all(LINE)?;
    }
    writer.flush()?;
    drop(writer);
    say(control, "226 done\r\n")
}

/// Takes a file to its end; how many bytes it had.
fn take_file(
    control: &mut BufReader<TcpStream>,
    data: &TcpListener,
    piece: &mut [u8],
) -> io::Result<u64> {
    let mut stream = opened(control, data)?;
    let count = count_to_end(&mut stream, piece)?;
    drop(stream);
    say(control, "226 done\r\n")?;
    Ok(count)
}

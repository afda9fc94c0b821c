//! A client that talks with itself, over a loopback socket.
//!
//! Client and server are one thread: the server's lines are written before the client reads them, which a socket's
//! buffer is large enough for.

use ftp_base::types::FtpError;
use ftp_blocking::FtpStream;
use std::io;
use std::io::{BufRead, BufReader, Write};
use std::net::{Net, TcpListener, TcpStream};
use std::sync::Wait;
use thiserror::Error;

/// Why the demo failed.
#[derive(Debug, Drop, Error)]
pub enum DemoError {
    /// A socket or the output failed.
    #[error("{0}")]
    Io(#[from] io::Error),
    /// The session failed.
    #[error("{0}")]
    Ftp(#[from] FtpError),
}

/// Greets itself, sends NOOP and QUIT, and prints both sides: five lines.
///
/// # Errors
/// An error of a socket or of the output, or of the session.
pub fn demo<R>(rt: &R) -> Result<(), DemoError>
where
    R: Net<Listener = TcpListener, Stream = TcpStream> + Wait + AllocGlobal + Print,
{
    let listener = TcpListener::bind(rt, "127.0.0.1:0")?;
    let stream = TcpStream::connect(rt, listener.local_addr()?)?;
    let (mut server, _peer) = listener.accept()?;
    server.write_all(b"220 ready\r\n200 noop\r\n221 bye\r\n")?;
    talk(rt, stream)?;
    show_sent(rt, server)
}

/// The client's side.
fn talk<R: Wait + AllocGlobal + Print>(rt: &R, stream: TcpStream) -> Result<(), DemoError> {
    let client = FtpStream::connect_with_stream(rt, stream)?;
    let welcome = client.get_welcome_msg(rt)?;
    println!(rt; "welcome {}", welcome.as_deref().unwrap_or(""))?;
    client.noop(rt)?;
    println!(rt; "noop ok")?;
    client.quit(rt)?;
    println!(rt; "quit ok")?;
    Ok(())
}

/// What arrived at the server's side: two lines.
fn show_sent<R: AllocGlobal + Print>(rt: &R, server: TcpStream) -> Result<(), DemoError> {
    let reader = BufReader::new(rt.alloc(), server)?;
    for line in reader.lines(rt.alloc()).take(2) {
        let line = line?;
        println!(rt; "sent {line}")?;
    }
    Ok(())
}

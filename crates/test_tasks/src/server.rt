//! A server that answers SIZE of a file, whose name is one digit, by that digit.

use std::io;
use std::io::{Read, Write};
use std::net::TcpListener;

/// The most commands that are answered.
const COMMANDS: u32 = 160_000;

/// Serves one client until it closes its connection.
///
/// # Errors
/// Those of the sockets, but for the end of the client's commands.
pub fn serve(listener: &TcpListener) -> io::Result<()> {
    let (mut server, _address) = listener.accept()?;
    server.write_all(b"220 ready\r\n")?;
    let mut line = [0u8; 8];
    for _ in 0..COMMANDS {
        if server.read_exact(&mut line).is_err() {
            break;
        }
        server.write_all(&[b'2', b'1', b'3', b' ', line[5], b'\r', b'\n'])?;
    }
    Ok(())
}

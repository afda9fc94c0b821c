//! Files that are uploaded.

use crate::pieces::write_repeated;
use crate::text::Text;
use std::net::{Net, TcpListener, TcpStream};
use std::sync::Wait;
use std::time::Clock;
use suppaftp::ascii::copy_crlf;
use suppaftp::{FtpResult, FtpStream};

/// Uploads so many bytes as they are, by writes of the piece; how many went out.
pub fn binary<R>(rt: &R, client: &FtpStream, length: u64, piece: &[u8]) -> FtpResult<u64>
where
    R: Net<Listener = TcpListener, Stream = TcpStream> + Clock + Wait + AllocGlobal,
{
    let mut transfer = client.put_with_stream(rt, "binary")?;
    write_repeated(&mut transfer, piece, length)?;
    transfer.finish(rt)?;
    Ok(length)
}

/// Uploads a text of at most so many bytes, each line ended by CR LF; how many bytes went out.
pub fn text<R>(rt: &R, client: &FtpStream, length: u64, lines: &[u8]) -> FtpResult<u64>
where
    R: Net<Listener = TcpListener, Stream = TcpStream> + Clock + Wait + AllocGlobal,
{
    let mut source = Text::new(lines, length);
    let mut transfer = client.put_with_stream(rt, "text")?;
    let count = copy_crlf(rt.alloc(), &mut source, &mut transfer)?;
    transfer.finish(rt)?;
    Ok(count)
}

/// Uploads at most so many bytes as a reader delivers them; how many went out.
pub fn from_reader<R>(rt: &R, client: &FtpStream, length: u64, lines: &[u8]) -> FtpResult<u64>
where
    R: Net<Listener = TcpListener, Stream = TcpStream> + Clock + Wait + AllocGlobal,
{
    let mut source = Text::new(lines, length);
    client.put_file(rt, "binary", &mut source)
}

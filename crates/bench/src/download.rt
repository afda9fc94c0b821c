//! Files that are downloaded.

use crate::pieces::count_to_end;
use std::net::{Net, TcpListener, TcpStream};
use std::sync::Wait;
use std::time::Clock;
use suppaftp::{FtpResult, FtpStream};

/// How long a small file is.
const SMALL: u64 = 1024;

/// Downloads a file of so many bytes by a stream, through the caller's buffer; how many came.
pub fn by_stream<R>(rt: &R, client: &FtpStream, length: u64, buffer: &mut [u8]) -> FtpResult<u64>
where
    R: Net<Listener = TcpListener, Stream = TcpStream> + Clock + Wait + AllocGlobal,
{
    let name = format!(in rt.alloc(); "{length}")?;
    let mut transfer = client.retr_as_stream(rt, name.as_str())?;
    let count = count_to_end(&mut transfer, buffer)?;
    transfer.finish(rt)?;
    Ok(count)
}

/// Downloads a file of so many bytes whole; how many came.
pub fn whole<R>(rt: &R, client: &FtpStream, length: u64) -> FtpResult<u64>
where
    R: Net<Listener = TcpListener, Stream = TcpStream> + Clock + Wait + AllocGlobal,
{
    let name = format!(in rt.alloc(); "{length}")?;
    let bytes = client.retr_as_buffer(rt, name.as_str())?;
    Ok(bytes.len() as u64)
}

/// Downloads so many small files, one after another; how many came, by their bytes.
pub fn small_files<R>(rt: &R, client: &FtpStream, files: u64, buffer: &mut [u8]) -> FtpResult<u64>
where
    R: Net<Listener = TcpListener, Stream = TcpStream> + Clock + Wait + AllocGlobal,
{
    let mut total = 0u64;
    for _ in 0..files {
        let count = by_stream(rt, client, SMALL, buffer)?;
        total = total.saturating_add(count);
    }
    Ok(total / SMALL)
}

/// Downloads so many small files whole, one after another; how many came, by their bytes.
pub fn small_buffers<R>(rt: &R, client: &FtpStream, files: u64) -> FtpResult<u64>
where
    R: Net<Listener = TcpListener, Stream = TcpStream> + Clock + Wait + AllocGlobal,
{
    let mut total = 0u64;
    for _ in 0..files {
        let bytes = client.retr_as_buffer(rt, "1024")?;
        total = total.saturating_add(bytes.len() as u64);
    }
    Ok(total / SMALL)
}

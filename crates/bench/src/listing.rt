//! Directories that are listed.

use std::net::{Net, TcpListener, TcpStream};
use std::sync::Wait;
use std::time::Clock;
use suppaftp::{FtpResult, FtpStream};

/// Lists a directory of so many lines; how many came.
pub fn listed<R>(rt: &R, client: &FtpStream, lines: u64) -> FtpResult<u64>
where
    R: Net<Listener = TcpListener, Stream = TcpStream> + Clock + Wait + AllocGlobal,
{
    let name = format!(in rt.alloc(); "{lines}")?;
    let lines = client.list(rt, Some(name.as_str()))?;
    Ok(lines.len() as u64)
}

//! A server is reached by its name, and no wait for it is longer than a limit.

use anyhow::Result;
use std::sync::Wait;
use std::time::Duration;
use suppaftp::{FtpResult, FtpStream, Host};

/// Connects to a server, as `ftp.example.org:21`, so that each wait for it ends within the limit.
pub fn connect<R: Host + Wait>(rt: &R, address: &str, limit: Duration) -> FtpResult<FtpStream> {
    FtpStream::connect_to_within(rt, address, limit)
}

/// Downloads a file that stops in its midst, and then asks for the size of another: the session goes on.
pub fn run<R: Host + Wait + Print>(rt: &R, address: &str) -> Result<()> {
    let client = connect(rt, address, Duration::from_secs(2))?;
    client.login(rt, "anonymous", "guest@example.org")?;
    match client.retr_as_buffer(rt, "endless.bin") {
        Ok(bytes) => println!(rt; "endless.bin: {} bytes", bytes.len())?,
        Err(error) if !client.failed(rt) => println!(rt; "endless.bin: {error}")?,
        Err(error) => return Err(error.into()),
    }
    println!(rt; "two.txt has {} bytes", client.size(rt, "two.txt")?)?;
    client.quit(rt)?;
    Ok(())
}

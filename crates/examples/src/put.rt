//! A file that is here is uploaded as it is.

use crate::login::logged_in;
use anyhow::{Context, Result};
use std::fs;
use std::io::Read;
use std::rt::Files;
use std::sync::Wait;
use suppaftp::{FileType, FtpResult, FtpStream, Host};

/// Uploads all of a source, as it is; how many bytes went out.
pub fn upload<R, S>(rt: &R, client: &FtpStream, name: &str, source: &mut S) -> FtpResult<u64>
where
    R: Host + Wait,
    S: Read,
{
    client.transfer_type(rt, FileType::Binary)?;
    client.put_file(rt, name, source)
}

/// Writes a file here, uploads it, and prints how many bytes went out.
pub fn run<R: Host + Wait + Files + Print>(rt: &R, address: &str) -> Result<()> {
    fs::write(rt, "lines.bin", b"a line\nand another\n").context("a file here")?;
    let mut source = fs::open(rt, "lines.bin").context("a file here")?;
    let client = logged_in(rt, address)?;
    let count = upload(rt, &client, "lines.bin", &mut source)?;
    println!(rt; "lines.bin: {count} bytes sent")?;
    client.quit(rt)?;
    fs::remove_file(rt, "lines.bin")?;
    Ok(())
}

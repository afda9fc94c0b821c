//! A file of which a front is here is downloaded from there on.

use crate::login::logged_in;
use anyhow::{Context, Result};
use std::fs;
use std::fs::OpenOptions;
use std::rt::Files;
use std::sync::Wait;
use suppaftp::{FileType, FtpStream, Host, NoProgress};

/// Appends to a file here what the server's has beyond it; how many bytes came.
pub fn resume<R>(rt: &R, client: &FtpStream, name: &str, here: &str) -> Result<u64>
where
    R: Host + Wait + Files,
{
    let length = fs::metadata(rt, here).context("here")?.len();
    let mut file = OpenOptions::new().append(true).open(rt, here)?;
    client.transfer_type(rt, FileType::Binary)?;
    Ok(client.download_to(rt, name, &mut file, length, &mut NoProgress)?)
}

/// Writes the front of a file, downloads what follows it, and prints how much that was.
pub fn run<R: Host + Wait + Files + Print>(rt: &R, address: &str) -> Result<()> {
    fs::write(rt, "three.txt", b"one\r\nt")?;
    let client = logged_in(rt, address)?;
    let count = resume(rt, &client, "three.txt", "three.txt")?;
    let whole = fs::metadata(rt, "three.txt")?.len();
    println!(rt; "three.txt: {count} bytes came, {whole} are here")?;
    client.quit(rt)?;
    fs::remove_file(rt, "three.txt")?;
    Ok(())
}

//! A login, a listing, a download with its progress, an upload, and an abort and what came of it.

use crate::login::logged_in;
use anyhow::Result;
use std::io::Read;
use std::sync::Wait;
use suppaftp::{FileType, FtpStream, Host, Progress};

/// Prints a line for each quarter of a file that has come.
#[derive(Drop)]
struct Quarters<'r, R> {
    rt: &'r R,
    size: u64,
    shown: u64,
}

impl<R: Print> Progress for Quarters<'_, R> {
    fn went(&mut self, so_far: u64) {
        for quarter in 1..=4 {
            if quarter > self.shown && so_far / quarter >= self.size / 4 {
                self.shown = quarter;
                let _ = println!(self.rt; "  {} %", quarter * 25);
            }
        }
    }
}

/// Shows a session, step by step.
pub fn run<R: Host + Wait + Print>(rt: &R, address: &str) -> Result<()> {
    let client = logged_in(rt, address)?;
    let welcome = client.get_welcome_msg(rt)?;
    println!(rt;
        "logged in; the greeting was: {}",
        welcome.as_deref().unwrap_or("")
    )?;
    client.transfer_type(rt, FileType::Binary)?;
    println!(rt; "files:")?;
    for file in &client.list_files(rt, None)? {
        println!(rt; "  {}, {} bytes", file.name(), file.size())?;
    }
    download(rt, &client)?;
    upload(rt, &client)?;
    abort(rt, &client)?;
    client.quit(rt)?;
    Ok(())
}

/// Downloads a file, and prints how far it has come.
fn download<R: Host + Wait + Print>(rt: &R, client: &FtpStream) -> Result<()> {
    println!(rt; "download of big.bin:")?;
    let size = client.size(rt, "big.bin")? as u64;
    let mut bytes = Vec::new(rt.alloc());
    let mut quarters = Quarters { rt, size, shown: 0 };
    let count = client.write_to(rt, "big.bin", &mut bytes, &mut quarters)?;
    println!(rt; "  {count} bytes came")?;
    Ok(())
}

/// Uploads a text as it is, and asks the server how long it is there.
fn upload<R: Host + Wait + Print>(rt: &R, client: &FtpStream) -> Result<()> {
    let mut source = "a line\nand another\n".as_bytes();
    let count = client.put_file(rt, "lines.bin", &mut source)?;
    let size = client.size(rt, "lines.bin")?;
    println!(rt; "upload of lines.bin: {count} bytes sent, {size} arrived")?;
    Ok(())
}

/// Aborts a download in its midst, and makes the next command, which gets its own reply.
fn abort<R: Host + Wait + Print>(rt: &R, client: &FtpStream) -> Result<()> {
    let mut transfer = client.retr_as_stream(rt, "endless.bin")?;
    let mut front = [0; 10];
    transfer.read_exact(&mut front)?;
    transfer.abort(rt)?;
    client.resync(rt)?;
    println!(rt; "download of endless.bin: aborted after 10 bytes")?;
    println!(rt;
        "the next command, SIZE two.txt: {}",
        client.size(rt, "two.txt")?
    )?;
    Ok(())
}

//! Downloads a file to one here, and shows how far it has come.
#![tactic(auto)]

use anyhow::{Context, Result};
use own_server::OwnServer;
use std::fs;
use std::io::Write;
use std::sync::Wait;
use suppaftp::{FileType, FtpResult, FtpStream, Host, Progress};

/// A line on standard error that says how much of a file has come.
#[derive(Drop)]
struct Percent<'r, R> {
    rt: &'r R,
    size: usize,
}

impl<R: Eprint> Progress for Percent<'_, R> {
    fn went(&mut self, so_far: u64) {
        let percent = u128::from(so_far) * 100 / self.size.max(1) as u128;
        let _ = eprint!(self.rt; "\r{percent} % ");
    }
}

/// Logs in, and downloads a file as it is; how many bytes came.
fn download<R, W>(rt: &R, address: &str, name: &str, to: &mut W) -> FtpResult<u64>
where
    R: Host + Wait + Eprint,
    W: Write,
{
    let client = FtpStream::connect_to(rt, address)?;
    client.login(rt, "anonymous", "guest@example.org")?;
    client.transfer_type(rt, FileType::Binary)?;
    let size = client.size(rt, name)?;
    let count = client.write_to(rt, name, to, &mut Percent { rt, size })?;
    client.quit(rt)?;
    Ok(count)
}

fn main(rt: HostRuntime) -> Result<()> {
    let server = OwnServer::start(&rt, 1)?;
    let mut file = fs::create(&rt, "big.bin").context("big.bin here")?;
    let count = download(&rt, server.address(), "big.bin", &mut file)?;
    println!(rt; "big.bin: {count} bytes")?;
    Ok(())
}

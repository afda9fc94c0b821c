//! The polled client: three files are downloaded at once, and a download is cancelled by a time limit.

use anyhow::{Context, Result};
use futures::future::join_all;
use std::fs;
use std::fs::File;
use std::random::RandomSource;
use std::rt::Files;
use std::sync::Wait;
use std::time::Duration;
use suppaftp::polled_ftp::{AllowStdIo, AsyncFtpStream, TokioTransport};
use suppaftp::{FileType, FtpResult, Host, NoProgress};
use tokio::runtime::LocalRuntime;

/// A client that has logged in.
fn logged_in<R>(rt: &R, runtime: &mut LocalRuntime, address: &str) -> FtpResult<AsyncFtpStream>
where
    R: Host + Wait + RandomSource,
{
    let transport = TokioTransport::of_runtime(runtime.handle())?;
    let client = runtime.block_on(rt, AsyncFtpStream::connect_to(rt, transport, address))??;
    runtime.block_on(rt, client.login(rt, "anonymous", "guest@example.org"))??;
    runtime.block_on(rt, client.transfer_type(rt, FileType::Binary))??;
    Ok(client)
}

/// Downloads these files at once, a client each, to files here of their names; what came of each.
fn at_once<R>(
    rt: &R,
    runtime: &mut LocalRuntime,
    clients: &[AsyncFtpStream],
    names: &[&str],
) -> Result<Vec<FtpResult<u64>>>
where
    R: Host + Wait + RandomSource + Files<File = File>,
{
    let mut downloads = Vec::new(rt.alloc());
    for (client, name) in clients.iter().zip(names) {
        let file = AllowStdIo(fs::create(rt, name).context("here")?);
        downloads.push(client.write_to(rt, name, file, NoProgress))?;
    }
    Ok(runtime.block_on(rt, join_all(rt.alloc(), downloads)?)??)
}

/// Downloads these files at once to files here of their names; how many bytes came.
pub fn download<R>(rt: &R, address: &str, names: &[&str]) -> Result<u64>
where
    R: Host + Wait + RandomSource + Files<File = File>,
{
    let mut runtime = LocalRuntime::new(rt)?;
    let mut clients = Vec::new(rt.alloc());
    for _ in names {
        clients.push(logged_in(rt, &mut runtime, address)?)?;
    }
    let mut count = 0u64;
    for came in at_once(rt, &mut runtime, &clients, names)? {
        count = count.saturating_add(came?);
    }
    Ok(count)
}

/// Downloads a file, unless that takes longer than a limit: its length, or none; and the length of another, whose call follows.
pub fn within<R>(
    rt: &R,
    address: &str,
    name: &str,
    limit: Duration,
) -> Result<(Option<usize>, usize)>
where
    R: Host + Wait + RandomSource,
{
    let mut runtime = LocalRuntime::new(rt)?;
    let client = logged_in(rt, &mut runtime, address)?;
    let download = client.retr_as_buffer(rt, name);
    let download = runtime.handle().time().timeout(rt, limit, download)?;
    let came = match runtime.block_on(rt, download)? {
        Ok(bytes) => Some(bytes?.len()),
        Err(_) => None,
    };
    Ok((came, runtime.block_on(rt, client.size(rt, "two.txt"))??))
}

/// Downloads three files at once, cancels a download, and prints what came of them.
pub fn run<R>(rt: &R, address: &str) -> Result<()>
where
    R: Host + Wait + RandomSource + Files<File = File> + Print,
{
    let names = ["one.txt", "two.txt", "three.txt"];
    let count = download(rt, address, &names)?;
    println!(rt; "at once: {count} bytes are here")?;
    for name in names {
        fs::remove_file(rt, name)?;
    }
    let (came, size) = within(rt, address, "endless.bin", Duration::from_millis(300))?;
    println!(rt;
        "endless.bin came: {}; two.txt has {size} bytes",
        came.is_some()
    )?;
    Ok(())
}

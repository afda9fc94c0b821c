//! The calls of the polled client.

use super::{LENGTH, LIMIT, OFFSET, Place, STEPS, show};
use anyhow::Result;
use std::random::RandomSource;
use std::sync::Wait;
use std::time::Duration;
use suppaftp::polled_ftp::{AllowStdIo, AsyncFtpStream, TokioTransport};
use suppaftp::{FileType, FtpResult, Host, Mode};
use tokio::runtime::LocalRuntime;

/// Connects, and makes each call.
pub fn run<R>(rt: &R, place: Place<'_>, login: (&str, &str), mode: Mode) -> Result<()>
where
    R: Host + Wait + RandomSource + Print,
{
    let mut runtime = LocalRuntime::new(rt)?;
    match connected(rt, &mut runtime, place.address, login, mode) {
        Ok(client) => make_all(rt, &mut runtime, &client, place),
        Err(error) => show(rt, place, "login", Err(error)),
    }
}

/// Makes each call.
fn make_all<R>(
    rt: &R,
    runtime: &mut LocalRuntime,
    client: &AsyncFtpStream,
    place: Place<'_>,
) -> Result<()>
where
    R: Host + Wait + RandomSource + Print,
{
    for step in STEPS {
        show(rt, place, step, made(rt, runtime, client, step))?;
    }
    Ok(())
}

/// A client that has logged in.
fn connected<R>(
    rt: &R,
    runtime: &mut LocalRuntime,
    address: &str,
    login: (&str, &str),
    mode: Mode,
) -> FtpResult<AsyncFtpStream>
where
    R: Host + Wait + RandomSource,
{
    let limit = Duration::from_secs(LIMIT);
    let (handle, wait) = (runtime.handle(), Some(limit));
    let transport = TokioTransport::of_runtime_with_limits(handle, wait, wait, wait)?;
    let client = runtime.block_on(rt, AsyncFtpStream::connect_to(rt, transport, address))??;
    runtime.block_on(rt, client.set_active_deadline(rt, limit))??;
    runtime.block_on(rt, client.set_mode(rt, mode))??;
    runtime.block_on(rt, client.login(rt, login.0, login.1))??;
    Ok(client)
}

/// Makes a call; how many bytes or entries there were.
fn made<R>(
    rt: &R,
    runtime: &mut LocalRuntime,
    client: &AsyncFtpStream,
    step: &str,
) -> FtpResult<u64>
where
    R: Host + Wait + RandomSource,
{
    match step {
        "list" => unread(rt, runtime, client),
        "mlsd" => Ok(runtime.block_on(rt, client.mlsd(rt, None))??.len() as u64),
        "put" => put(rt, runtime, client),
        "size" => size(rt, runtime, client, "one.bin"),
        "step" => size(rt, runtime, client, "big.bin"),
        "get" => length(rt, runtime, client),
        "resume" => {
            command(rt, runtime, client, "offset")?;
            length(rt, runtime, client)
        }
        "abort" => abort(rt, runtime, client),
        _ => command(rt, runtime, client, step),
    }
}

/// Makes a command that returns nothing.
fn command<R>(
    rt: &R,
    runtime: &mut LocalRuntime,
    client: &AsyncFtpStream,
    step: &str,
) -> FtpResult<u64>
where
    R: Host + Wait + RandomSource,
{
    let call = match step {
        "cwd" => client.cwd(rt, "up"),
        "type" => client.transfer_type(rt, FileType::Binary),
        "offset" => client.resume_transfer(rt, OFFSET),
        "rename" => client.rename(rt, "one.bin", "two.bin"),
        "rm" => client.rm(rt, "two.bin"),
        "mkdir" => client.mkdir(rt, "folder"),
        "rmdir" => client.rmdir(rt, "folder"),
        "resync" => client.resync(rt),
        _ => client.quit(rt),
    };
    runtime.block_on(rt, call)??;
    Ok(0)
}

/// Lists the directory; how many lines can't be read.
fn unread<R>(rt: &R, runtime: &mut LocalRuntime, client: &AsyncFtpStream) -> FtpResult<u64>
where
    R: Host + Wait + RandomSource,
{
    let listing = runtime.block_on(rt, client.list_entries(rt, None))??;
    Ok(listing.unread.len() as u64)
}

/// Uploads the file; how many bytes went out.
fn put<R>(rt: &R, runtime: &mut LocalRuntime, client: &AsyncFtpStream) -> FtpResult<u64>
where
    R: Host + Wait + RandomSource,
{
    let bytes = [7; LENGTH];
    let source = AllowStdIo(bytes.as_slice());
    runtime.block_on(rt, client.put_file(rt, "one.bin", source))?
}

/// How long a file is.
fn size<R>(
    rt: &R,
    runtime: &mut LocalRuntime,
    client: &AsyncFtpStream,
    name: &str,
) -> FtpResult<u64>
where
    R: Host + Wait + RandomSource,
{
    Ok(runtime.block_on(rt, client.size(rt, name))?? as u64)
}

/// Downloads the file; how many bytes came.
fn length<R>(rt: &R, runtime: &mut LocalRuntime, client: &AsyncFtpStream) -> FtpResult<u64>
where
    R: Host + Wait + RandomSource,
{
    let bytes = runtime.block_on(rt, client.retr_as_buffer(rt, "one.bin"))??;
    Ok(bytes.len() as u64)
}

/// Aborts a download that has begun.
fn abort<R>(rt: &R, runtime: &mut LocalRuntime, client: &AsyncFtpStream) -> FtpResult<u64>
where
    R: Host + Wait + RandomSource,
{
    let transfer = runtime.block_on(rt, client.retr_as_stream(rt, "big.bin"))??;
    runtime.block_on(rt, transfer.abort(rt))??;
    Ok(0)
}

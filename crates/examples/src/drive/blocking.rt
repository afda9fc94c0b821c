//! The calls of the blocking client.

use super::{LENGTH, LIMIT, OFFSET, Place, STEPS, show};
use anyhow::Result;
use std::io::Read;
use std::net::{SocketAddr, ToSocketAddrs};
use std::sync::Wait;
use std::time::Duration;
use suppaftp::{FileType, FtpResult, FtpStream, Host, Mode};

/// Connects, and makes each call.
pub fn run<R>(rt: &R, place: Place<'_>, login: (&str, &str), mode: Mode) -> Result<()>
where
    R: Host + Wait + Print,
{
    let client = match connected(rt, place.address, login) {
        Ok(client) => client,
        Err(error) => return show(rt, place, "login", Err(error)),
    };
    client.set_mode(rt, mode);
    for step in STEPS {
        show(rt, place, step, made(rt, &client, step))?;
    }
    Ok(())
}

/// A client that has logged in.
fn connected<R>(rt: &R, address: &str, login: (&str, &str)) -> FtpResult<FtpStream>
where
    R: Host + Wait,
{
    let addresses: Vec<SocketAddr> = address.to_socket_addrs(rt)?.collect(rt.alloc())?;
    let client = FtpStream::connect_within(rt, &addresses, Duration::from_secs(LIMIT))?;
    client.set_active_deadline(rt, Duration::from_secs(LIMIT));
    client.login(rt, login.0, login.1)?;
    Ok(client)
}

/// Makes a call; how many bytes or entries there were.
fn made<R: Host + Wait>(rt: &R, client: &FtpStream, step: &str) -> FtpResult<u64> {
    match step {
        "list" => Ok(client.list_entries(rt, None)?.unread.len() as u64),
        "mlsd" => Ok(client.mlsd(rt, None)?.len() as u64),
        "put" => client.put_file(rt, "one.bin", &mut [7; LENGTH].as_slice()),
        "size" => Ok(client.size(rt, "one.bin")? as u64),
        "step" => Ok(client.size(rt, "big.bin")? as u64),
        "get" => length(rt, client),
        "resume" => {
            command(rt, client, "offset")?;
            length(rt, client)
        }
        _ => {
            command(rt, client, step)?;
            Ok(0)
        }
    }
}

/// Downloads the file; how many bytes came.
fn length<R: Host + Wait>(rt: &R, client: &FtpStream) -> FtpResult<u64> {
    Ok(client.retr_as_buffer(rt, "one.bin")?.len() as u64)
}

/// Makes a command that returns nothing.
fn command<R: Host + Wait>(rt: &R, client: &FtpStream, step: &str) -> FtpResult<()> {
    match step {
        "cwd" => client.cwd(rt, "up"),
        "type" => client.transfer_type(rt, FileType::Binary),
        "offset" => client.resume_transfer(rt, OFFSET),
        "rename" => client.rename(rt, "one.bin", "two.bin"),
        "rm" => client.rm(rt, "two.bin"),
        "mkdir" => client.mkdir(rt, "folder"),
        "rmdir" => client.rmdir(rt, "folder"),
        "abort" => abort(rt, client),
        "resync" => client.resync(rt),
        _ => client.quit(rt),
    }
}

/// Aborts a download once some of it has come.
fn abort<R: Host + Wait>(rt: &R, client: &FtpStream) -> FtpResult<()> {
    let mut transfer = client.retr_as_stream(rt, "big.bin")?;
    let mut front = [0; 10];
    transfer.read_exact(&mut front)?;
    transfer.abort(rt)
}

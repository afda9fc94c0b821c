//! Calls of both clients, in each mode, against servers that are there already, as `.ci/servers` starts them: what each call
//! results in. Nothing waits for longer than ten seconds.

mod blocking;
mod polled;

use anyhow::{Result, bail};
use std::random::RandomSource;
use std::sync::Wait;
use suppaftp::{FtpError, FtpResult, Host, Mode};

/// The modes, by their names.
const MODES: [(&str, Mode); 4] = [
    ("automatic", Mode::Automatic),
    ("passive", Mode::Passive),
    ("extended", Mode::ExtendedPassive),
    ("active", Mode::Active),
];

/// What is called, in this order.
const STEPS: [&str; 16] = [
    "cwd", "type", "list", "mlsd", "put", "size", "get", "resume", "rename", "rm", "mkdir",
    "rmdir", "abort", "resync", "step", "quit",
];

/// How many bytes are uploaded, and where a download of them is resumed.
const LENGTH: usize = 3000;

const OFFSET: u64 = 1000;

/// The limit of each wait, in seconds.
const LIMIT: u64 = 10;

/// Where calls are made: the server's address, the client, and its mode.
#[derive(Clone, Copy)]
struct Place<'p> {
    address: &'p str,
    client: &'p str,
    mode: &'p str,
}

/// Makes the calls at each server, `USER:PASSWORD@HOST:PORT`, and prints a line for each.
pub fn run<R>(rt: &R, servers: &[String]) -> Result<()>
where
    R: Host + Wait + RandomSource + Print,
{
    for server in servers {
        let Some((login, address)) = server.split_once('@') else {
            bail!("{server} isn't USER:PASSWORD@HOST:PORT");
        };
        let login = login.split_once(':').unwrap_or((login, ""));
        for (name, mode) in MODES {
            let place = |client| Place {
                address,
                client,
                mode: name,
            };
            blocking::run(rt, place("blocking"), login, mode)?;
            polled::run(rt, place("polled"), login, mode)?;
        }
    }
    Ok(())
}

/// Prints what a call resulted in: `ok` with a number, or the number of the error in docs/REFUSALS.md, with the reply's code or
/// the error's text.
fn show<R: Print>(rt: &R, place: Place<'_>, step: &str, outcome: FtpResult<u64>) -> Result<()> {
    let Place {
        address,
        client,
        mode,
    } = place;
    print!(rt; "{address} {client} {mode} {step} ")?;
    match outcome {
        Ok(count) => println!(rt; "ok {count}")?,
        Err(FtpError::UnexpectedResponse(reply)) => println!(rt; "E10 {}", reply.status.code())?,
        Err(error) => println!(rt; "E{} {error}", error.number())?,
    }
    Ok(())
}

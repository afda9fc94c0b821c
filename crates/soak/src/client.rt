//! The client's side: sessions one after another, each answer of which is compared.

use crate::calls::random_call;
use crate::judge::Judge;
use crate::memory::resident_pages;
use crate::script::Script;
use crate::server::STOP;
use crate::tally::Tally;
use anyhow::{Context, Result};
use ftp_base::types::{FtpResult, Mode};
use ftp_blocking::FtpStream;
use ftp_session::session::{Answer, Call};
use rows_plays::{
    bytes, call, count, features, lines, made_by_method, moment, optional, reply, size, text,
    text_of, time, unit,
};
use rows_text::RowError;
use std::io::Write;
use std::net::{Net, SocketAddr, TcpListener, TcpStream};
use std::rt::Files;
use std::sync::Wait;
use std::time::{Clock, Duration};

/// How long the client waits for the server, in seconds.
const LIMIT: u64 = 10;

/// How many calls a session has at most.
const LONGEST: u64 = 24;

/// Makes so many calls, and counts their answers.
pub fn make_calls<R>(rt: &R, address: SocketAddr, port: u16, calls: u64, seed: u64) -> Result<Tally>
where
    R: Net<Listener = TcpListener, Stream = TcpStream>
        + Clock
        + Files
        + Wait
        + AllocGlobal
        + Print
        + Eprint,
{
    let mut tally = Tally::new();
    let tenth = (calls / 10).max(1);
    let mut shown = 0;
    for session in 0..u64::MAX {
        if tally.calls >= calls {
            break;
        }
        if tally.calls >= shown {
            show_memory(rt, tally.calls)?;
            shown = shown.saturating_add(tenth);
        }
        let script = Script {
            seed,
            session,
            port,
        };
        tally.begin_session();
        make_session(rt, address, script, calls, &mut tally)?;
    }
    show_memory(rt, tally.calls)?;
    Ok(tally)
}

/// Says how much memory is in use.
fn show_memory<R: Files + AllocGlobal + Eprint>(rt: &R, calls: u64) -> Result<()> {
    if let Some(pages) = resident_pages(rt) {
        eprintln!(rt; "{calls} calls: {pages} pages")?;
    }
    Ok(())
}

/// Makes the calls of a session, to the one after its failure at most.
fn make_session<R>(
    rt: &R,
    address: SocketAddr,
    script: Script,
    calls: u64,
    tally: &mut Tally,
) -> Result<()>
where
    R: Net<Listener = TcpListener, Stream = TcpStream> + Clock + Wait + AllocGlobal + Print,
{
    let limit = Duration::from_secs(LIMIT);
    let client = FtpStream::connect_within(rt, &[address], limit).context("connecting")?;
    client.set_mode(rt, Mode::Passive);
    let mut judge = Judge::new(rt.alloc(), script);
    for number in 0..LONGEST {
        if tally.calls >= calls {
            break;
        }
        let made = random_call(script.seed, script.session, number);
        let call = call(rt.alloc(), made.0)?;
        let came = text_of(rt.alloc(), &make(rt, &client, &call)?)?;
        let wanted = judge.answer(rt.alloc(), made)?;
        let is_due = came.as_str() == wanted.as_str();
        tally.add(came.as_str(), is_due);
        if !is_due {
            let session = script.session;
            println!(rt; "session {session}, call {number}: came {came}, due {wanted}")?;
        }
        if wanted.as_str() == "E14" {
            break;
        }
    }
    Ok(())
}

/// Makes a call by its method.
fn make<R>(rt: &R, client: &FtpStream, call: &Call) -> Result<Answer, RowError>
where
    R: Net<Listener = TcpListener, Stream = TcpStream> + Clock + Wait + AllocGlobal,
{
    Ok(made_by_method!(call, client, rt, (), {
        Call::Retr(path) => bytes(client.retr_as_buffer(rt, path.as_str())),
        Call::List(path) => lines(client.list(rt, optional(path))),
        Call::PutFile(path, bytes) => {
            let mut source = bytes.as_slice();
            count(client.put_file(rt, path.as_str(), &mut source))
        }
        _ => return Err(RowError::NotUnderstood),
    }))
}

/// Has the server end.
pub fn stop_server<R>(rt: &R, address: SocketAddr) -> Result<()>
where
    R: Net<Listener = TcpListener, Stream = TcpStream>,
{
    let mut stream = TcpStream::connect(rt, address)?;
    stream.write_all(STOP.as_bytes())?;
    stream.write_all(b"\r\n")?;
    Ok(())
}

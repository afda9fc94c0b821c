//! The server of a row: sessions one after another, each over a data listener of its own.

use crate::served::{Cut, Served};
use std::alloc::Global;
use std::io;
use std::io::{BufRead, BufReader, Read, Write};
use std::net::{TcpListener, TcpStream};

/// The line after which no other session follows.
pub const STOP: &str = "STOP";

/// Commands that each session has, which aren't logged.
const COMMON: [&str; 6] = ["USER", "PASS", "TYPE", "EPSV", "QUIT", STOP];

/// What follows after a command.
#[derive(Clone, Copy)]
enum Next {
    Command,
    /// The control connection is closed.
    Session,
    /// And no other is accepted.
    Nothing,
}

/// A session: its connection, the listener for its data, and where the next download begins.
#[derive(Drop)]
struct Session {
    control: BufReader<TcpStream>,
    offset: usize,
}

/// Serves clients one after another, until one says `STOP`. Returns what the server has then.
///
/// # Errors
/// No connection can be accepted.
pub fn serve(
    alloc: Global,
    listener: &TcpListener,
    data: &TcpListener,
    mut served: Served,
) -> io::Result<Served> {
    for _ in 0..u64::MAX {
        let (stream, _peer) = listener.accept()?;
        stream.set_nodelay(true)?;
        let session = Session {
            control: BufReader::new(alloc, stream)?,
            offset: 0,
        };
        // a session ends, too, where the client is gone
        if let Ok(Next::Nothing) = serve_one(alloc, session, data, &mut served) {
            break;
        }
    }
    Ok(served)
}

/// Serves a client to the end of its session.
fn serve_one(
    alloc: Global,
    mut session: Session,
    data: &TcpListener,
    served: &mut Served,
) -> io::Result<Next> {
    say(&mut session, "220 ready")?;
    for _ in 0..u64::MAX {
        let mut line = String::new(alloc);
        session.control.read_line(&mut line)?;
        let line = line.trim_end();
        if line.is_empty() {
            break;
        }
        match answer(alloc, &mut session, data, served, line)? {
            Next::Command => {}
            other => return Ok(other),
        }
    }
    Ok(Next::Session)
}

/// Sends a reply.
fn say(session: &mut Session, reply: &str) -> io::Result<()> {
    let control = session.control.get_mut();
    control.write_all(reply.as_bytes())?;
    control.write_all(b"\r\n")
}

/// Answers one command.
fn answer(
    alloc: Global,
    session: &mut Session,
    data: &TcpListener,
    served: &mut Served,
    line: &str,
) -> io::Result<Next> {
    let (verb, path) = line.split_once(' ').unwrap_or((line, ""));
    if !COMMON.contains(&verb) {
        write!(served.log, "C: {line}\n")?;
    }
    if let Some(code) = served.refusal(line) {
        let reply = format!(in alloc; "{code} no")?;
        say(session, reply.as_str())?;
        return Ok(Next::Command);
    }
    match verb {
        "RETR" => return send_file(session, data, served, path),
        "MLSD" | "LIST" => send_listing(session, data, served, path)?,
        "STOR" => take(alloc, session, data, served, path)?,
        "EPSV" => tell_port(alloc, session, data)?,
        "FEAT" => {
            let reply = format!(in alloc; "{}211 end", served.features)?;
            say(session, reply.as_str())?;
        }
        "REST" => {
            session.offset = path.parse().unwrap_or(0);
            say(session, "350 from there")?;
        }
        "SIZE" => tell_size(alloc, session, served, path)?,
        "QUIT" => {
            say(session, "221 bye")?;
            return Ok(Next::Session);
        }
        STOP => return Ok(Next::Nothing),
        _ => say(session, reply_to(verb))?,
    }
    Ok(Next::Command)
}

/// What is said to a command that needs nothing else.
fn reply_to(verb: &str) -> &'static str {
    match verb {
        "USER" => "331 a password, please",
        "PASS" => "230 logged in",
        "RNFR" => "350 to what?",
        "RNTO" | "DELE" | "RMD" => "250 done",
        "MKD" => "257 \"there\"",
        "MFMT" | "MDTM" => "213 20240102030405",
        _ => "200 ok",
    }
}

/// Says where data connections are accepted (RFC 2428, section 3). Those of earlier transfers are let go: the client makes
/// the next one once it has read this.
fn tell_port(alloc: Global, session: &mut Session, data: &TcpListener) -> io::Result<()> {
    data.set_nonblocking(true)?;
    for _ in 0..u64::MAX {
        if data.accept().is_err() {
            break;
        }
    }
    data.set_nonblocking(false)?;
    let port = data.local_addr()?.port();
    let reply = format!(in alloc; "229 ok (|||{port}|)")?;
    say(session, reply.as_str())
}

/// Says how long a file is (RFC 3659, section 4).
fn tell_size(
    alloc: Global,
    session: &mut Session,
    served: &mut Served,
    path: &str,
) -> io::Result<()> {
    let reply = match served.file(path) {
        Some(file) => format!(in alloc; "213 {}", file.bytes.len())?,
        None => String::from_str(alloc, "550 no file")?,
    };
    say(session, reply.as_str())
}

/// Sends the listing of a folder.
fn send_listing(
    session: &mut Session,
    data: &TcpListener,
    served: &Served,
    path: &str,
) -> io::Result<()> {
    let Some(listing) = served.listing(path) else {
        return say(session, "550 no folder");
    };
    let (mut stream, _peer) = data.accept()?;
    say(session, "150 here it comes")?;
    stream.write_all(listing)?;
    drop(stream);
    say(session, "226 done")
}

/// Sends a file from the offset on, which is then over, or a front of that where the download is cut.
fn send_file(
    session: &mut Session,
    data: &TcpListener,
    served: &mut Served,
    path: &str,
) -> io::Result<Next> {
    let Some(file) = served.file(path) else {
        say(session, "550 no file")?;
        return Ok(Next::Command);
    };
    let rest = file.bytes.get(session.offset..).unwrap_or(&[]);
    session.offset = 0;
    let cut = file.cut.take();
    let sent = match cut {
        Some(cut) => rest.get(..cut.after).unwrap_or(rest),
        None => rest,
    };
    let (mut stream, _peer) = data.accept()?;
    say(session, "150 here it comes")?;
    stream.write_all(sent)?;
    drop(stream);
    match cut {
        None => say(session, "226 done")?,
        Some(
            Cut {
                after: _,
                loses_control: false,
            },
        ) => say(session, "426 cut")?,
        Some(_) => return Ok(Next::Session),
    }
    Ok(Next::Command)
}

/// Takes a file to its end.
fn take(
    alloc: Global,
    session: &mut Session,
    data: &TcpListener,
    served: &mut Served,
    path: &str,
) -> io::Result<()> {
    let (mut stream, _peer) = data.accept()?;
    say(session, "150 send it")?;
    let mut bytes = Vec::new(alloc);
    stream.read_to_end(&mut bytes)?;
    drop(stream);
    let shown = rows_text::shown(alloc, &bytes)?;
    write!(served.log, "there {path} {shown}\n")?;
    say(session, "226 done")
}

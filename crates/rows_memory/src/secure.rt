//! A session over memory that is put under TLS, and a command after it.

use crate::judge::Verdict;
use ftp_base::types::FtpResult;
use ftp_secure::{DataStream, Secured};
use ftp_session::session::Session;
use ftp_transport::{MemoryConn, MemoryTransport};
use rows_plays::{boxed, had};
use rows_text::{RowError, bytes_of, text_of};
use rows_tls::Seal;
use std::alloc::Global;

/// A session over memory that may be put under TLS.
type Secure = Session<Secured<MemoryTransport, Seal>, Seal>;

/// What came of the change and of the NOOP after it: the numbers of their errors, 0 where there is none; how many bytes were
/// sent in clear, and how many under TLS; whether the session has failed.
#[derive(Clone, Copy)]
struct Came {
    change: u8,
    noop: u8,
    clear: usize,
    under: usize,
    failed: bool,
}

/// Puts a session under TLS whose server sends the first bytes in clear and the others under it, sends NOOP, and prints what
/// came: what is due, or that memory ran out.
///
/// # Errors
/// `NotUnderstood`, `OutOfMemory`.
pub fn play<R: Print + AllocGlobal>(rt: &R, server: &str, under: &str) -> Result<(), RowError> {
    let mut session = session(rt.alloc(), server)?;
    let under = text_of(rt.alloc(), under)?;
    let seal = Seal::new(rt.alloc(), under.as_str())?;
    let came = changed(rt.alloc(), &mut session, Box::into_inner(seal));
    drop(session);
    let Came {
        change,
        noop,
        clear,
        under,
        failed: _,
    } = came;
    let verdict = verdict(came).text();
    let _ = println!(rt; "{verdict}: E{change}; E{noop}; {clear} sent in clear, {under} under TLS");
    Ok(())
}

/// The session, of which nothing was read.
fn session(alloc: Global, server: &str) -> Result<Box<Secure>, RowError> {
    let bytes = bytes_of(alloc, server)?;
    let mut conn = MemoryConn::new(alloc);
    conn.feed(bytes.as_slice())?;
    conn.end();
    let net = Secured::new(alloc, MemoryTransport::new(alloc));
    let session = had(Session::new(alloc, net, DataStream::Tcp(conn)))?;
    Ok(boxed(alloc, session)?)
}

/// What comes of the change, and of the NOOP after it.
fn changed(alloc: Global, session: &mut Secure, seal: Seal) -> Came {
    let change = number(session.into_secure(alloc, seal, "ftp.example"));
    let noop = number(session.noop(alloc));
    let (clear, under) = match session.get_ref() {
        DataStream::Tcp(conn) => (conn.sent().len(), 0),
        DataStream::Ssl(stream) => (stream.conn.sent().len(), stream.clear.sent().len()),
        DataStream::Gone(_) => (0, 0),
    };
    Came {
        change,
        noop,
        clear,
        under,
        failed: session.failed(),
    }
}

/// The number of an error; 0 where there is none.
fn number(answer: FtpResult<()>) -> u8 {
    match &answer {
        Ok(()) => 0,
        Err(fault) => fault.number(),
    }
}

/// Whether that is due. Whole, `AUTH TLS` goes out in clear, and `PBSZ 0`, `PROT P` and `NOOP` under TLS. Where memory runs
/// out before `AUTH TLS` goes out, NOOP hears its reply. Once it is out the session has failed; so it has where the
/// connector had no memory, which it tells by an empty text, or the connection.
fn verdict(came: Came) -> Verdict {
    match (came.change, came.noop, came.failed) {
        (0, 0, false) if (came.clear, came.under) == (10, 22) => Verdict::Whole,
        (13, 10, false) if (came.clear, came.under) == (6, 0) => Verdict::WentOn,
        (0, 13, false) if (came.clear, came.under) == (10, 16) => Verdict::WentOn,
        (1 | 9 | 13, 14, true) | (0, 1 | 13, true) => Verdict::Failed,
        _ => Verdict::Differs,
    }
}

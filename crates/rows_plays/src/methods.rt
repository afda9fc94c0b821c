//! The calls of a session, one after another.

use crate::answers::{bytes, count, features, lines, reply, size, text, time, unit};
use crate::calls::moment;
use crate::dial::Dial;
use crate::made_by_method;
use crate::memory::boxed;
use crate::play::Play;
use crate::session::{NamedSession, conn_of, encoded, stands, unread};
use crate::transcript::RowState;
use crate::transfers::{Held, Transfers};
use ftp_base::types::{FtpError, FtpResult, Text};
use ftp_session::session::{Answer, Call, Session, Setting};
use ftp_transfer::Transfer;
use ftp_transfer::mark::Left;
use ftp_transport::MemoryConn;
use rows_text::RowError;
use std::alloc::{AllocError, Global};
use std::io;
use std::io::{Read, Write};
use std::random::RandomSource;
use std::sync::Wait;

/// A transfer of a session over memory.
pub type Live = Transfer<MemoryConn>;

impl Held for Live {
    type Stream = Live;

    fn of(stream: Live) -> Live {
        stream
    }

    fn sent(&self) -> &[u8] {
        self.get_ref().sent()
    }

    fn take_in<R>(&mut self, _rt: &R, buffer: &mut [u8]) -> io::Result<usize>
    where
        R: Wait + RandomSource + AllocGlobal,
    {
        Read::read(self, buffer)
    }

    fn put_out<R>(&mut self, _rt: &R, bytes: &[u8]) -> io::Result<usize>
    where
        R: Wait + RandomSource + AllocGlobal,
    {
        Write::write(self, bytes)
    }

    fn left(self) -> Left {
        self.leave()
    }
}

/// A session that has read a greeting, where that is the first of a row's calls.
#[derive(Drop)]
pub struct Opening<'a> {
    /// The session.
    pub session: Box<NamedSession>,
    /// The answer to the greeting, if it was read.
    pub answers: Vec<Answer>,
    /// The calls that are still to be made.
    pub others: &'a [Call],
}

/// The session of these calls. A greeting that comes first is read by `connect_with_stream`.
///
/// # Errors
/// `OutOfMemory`.
pub fn greeted<'a>(alloc: Global, calls: &'a [Call], play: &Play) -> Result<Opening<'a>, RowError> {
    let Some((Call::Greet, others)) = calls.split_first() else {
        return Ok(Opening {
            session: unread(alloc, play)?,
            answers: Vec::new(alloc),
            others: calls,
        });
    };
    match connected(alloc, play) {
        Ok(session) => Ok(Opening {
            session,
            answers: first(alloc, Answer::Unit)?,
            others,
        }),
        Err(fault) => Ok(Opening {
            answers: first(alloc, Answer::Fault(fault))?,
            session: again(alloc, play)?,
            others,
        }),
    }
}

/// A session whose greeting failed is gone with its connection: another that reads the same bytes stands for it.
fn again(alloc: Global, play: &Play) -> Result<Box<NamedSession>, RowError> {
    let mut session = unread(alloc, play)?;
    if play.dial.is_none() {
        drop(session.greet(alloc));
    }
    Ok(session)
}

/// A first answer.
fn first(alloc: Global, answer: Answer) -> Result<Vec<Answer>, AllocError> {
    let mut answers = Vec::new(alloc);
    answers.push(answer)?;
    Ok(answers)
}

/// The session that connects as the row says: on the connection itself, or to addresses.
fn connected(alloc: Global, play: &Play) -> FtpResult<Box<NamedSession>> {
    let session = match &play.dial {
        Some(dial) => dialled(alloc, dial, play),
        None => on_the_connection(alloc, play),
    };
    let mut session = session?;
    play.setup.set(&mut session)?;
    Ok(session)
}

/// The session on the connection itself, once the greeting was read.
fn on_the_connection(alloc: Global, play: &Play) -> FtpResult<Box<NamedSession>> {
    let transport = play.setup.transport(alloc)?;
    let conn = match conn_of(alloc, play) {
        Ok(conn) => conn,
        Err(_) => {
            drop(transport);
            return Err(FtpError::OutOfMemory);
        }
    };
    let session = if play.setup.lenient {
        Session::connect_with_stream_lenient(alloc, transport, conn)
    } else {
        Session::connect_with_stream(alloc, transport, conn)
    };
    Ok(boxed(alloc, session?)?)
}

/// The session that connects to addresses.
fn dialled(alloc: Global, dial: &Dial, play: &Play) -> FtpResult<Box<NamedSession>> {
    let transport = dial.transport(alloc)?;
    let session = match (dial.limit, dial.addresses.first()) {
        (Some(limit), Some(address)) => {
            Session::connect_timeout(alloc, &(), transport, *address, limit)
        }
        _ if play.setup.lenient => {
            Session::connect_lenient(alloc, &(), transport, &dial.addresses)
        }
        _ => Session::connect(alloc, &(), transport, &dial.addresses),
    };
    Ok(boxed(alloc, session?)?)
}

/// Where these calls lead to, each made by its method.
///
/// # Errors
/// `NotUnderstood`, `OutOfMemory`.
pub fn called<R>(rt: &R, calls: &[Call], play: &Play) -> Result<RowState, RowError>
where
    R: Wait + RandomSource + AllocGlobal,
{
    let Opening {
        session,
        mut answers,
        others,
    } = greeted(rt.alloc(), calls, play)?;
    let mut session = encoded(rt.alloc(), session, play)?;
    let uploaded = made(rt, &mut session, others, &mut answers)?;
    let mut end = stands(rt.alloc(), &session, &answers)?;
    end.uploaded = uploaded;
    Ok(end)
}

/// Makes these calls one after another, and adds their answers; what was written to the data connections that are over.
fn made<R>(
    rt: &R,
    session: &mut NamedSession,
    calls: &[Call],
    answers: &mut Vec<Answer>,
) -> Result<Vec<Vec<u8>>, RowError>
where
    R: Wait + RandomSource + AllocGlobal,
{
    let mut transfers = boxed(rt.alloc(), Transfers::new(rt.alloc()))?;
    for call in calls {
        let answer = make(rt, session, &mut transfers, call)?;
        transfers.add(call, answer, answers)?;
    }
    Ok(transfers.take_uploaded(rt.alloc()))
}

/// Makes a call by its method.
///
/// # Errors
/// `NotUnderstood`; `OutOfMemory` where an allocation fails that is none of the call's.
pub fn make<R>(
    rt: &R,
    session: &mut NamedSession,
    transfers: &mut Transfers<Live>,
    call: &Call,
) -> Result<Answer, RowError>
where
    R: Wait + RandomSource + AllocGlobal,
{
    let alloc = rt.alloc();
    Ok(made_by_method!(call, session, alloc, (), {
        Call::Greet => unit(session.greet(alloc)),
        Call::ReadResponse(status) => reply(session.read_response(alloc, *status)),
        Call::ReadResponseIn(codes) => reply(session.read_response_in(alloc, codes.as_slice())),
        Call::RetrAsStream(_)
        | Call::PutWithStream(_)
        | Call::AppendWithStream(_)
        | Call::CustomDataCommand(..) => open(alloc, session, transfers, call)?,
        Call::Retr(_)
        | Call::List(_)
        | Call::Nlst(_)
        | Call::Mlsd(_)
        | Call::PutFile(..)
        | Call::AppendFile(..) => carry(alloc, session, transfers, call)?,
        Call::Set(setting) => set(session, setting)?,
        Call::Read(most) => transfers.receive(rt, *most)?,
        Call::Write(bytes) => transfers.send(rt, bytes.as_slice()),
        Call::Leave => transfers.leave(alloc)?,
        Call::Finish | Call::Abort | Call::Drain => end(alloc, session, transfers, call)?,
    }))
}

/// Opens a transfer.
fn open(
    alloc: Global,
    session: &mut NamedSession,
    transfers: &mut Transfers<Live>,
    call: &Call,
) -> Result<Answer, RowError> {
    Ok(match call {
        Call::RetrAsStream(path) => {
            transfers.opened(session.retr_as_stream(alloc, &(), path.as_str()))
        }
        Call::PutWithStream(path) => {
            transfers.opened(session.put_with_stream(alloc, &(), path.as_str()))
        }
        Call::AppendWithStream(path) => {
            transfers.opened(session.append_with_stream(alloc, &(), path.as_str()))
        }
        Call::CustomDataCommand(line, codes) => transfers.opened_with(session.custom_data_command(
            alloc,
            &(),
            line.as_str(),
            codes.as_slice(),
        )),
        _ => return Err(RowError::NotUnderstood),
    })
}

/// Carries a whole file or listing, and notes what was written to its data connection once it is over.
fn carry(
    alloc: Global,
    session: &mut NamedSession,
    transfers: &mut Transfers<Live>,
    call: &Call,
) -> Result<Answer, RowError> {
    let before = session.transport().uploaded().len();
    let answer = match call {
        Call::Retr(path) => bytes(session.retr_as_buffer(alloc, &(), path.as_str())),
        Call::List(path) => lines(session.list(alloc, &(), optional(path))),
        Call::Nlst(path) => lines(session.nlst(alloc, &(), optional(path))),
        Call::Mlsd(path) => lines(session.mlsd(alloc, &(), optional(path))),
        Call::PutFile(path, bytes) | Call::AppendFile(path, bytes) => {
            let append = matches!(call, Call::AppendFile(..));
            upload(alloc, session, append, path.as_str(), bytes.as_slice())
        }
        _ => return Err(RowError::NotUnderstood),
    };
    transfers.note(alloc, session.transport().uploaded(), before)?;
    Ok(answer)
}

/// Uploads these bytes to a file, in the place of what it held or to its end.
fn upload(
    alloc: Global,
    session: &mut NamedSession,
    append: bool,
    path: &str,
    mut bytes: &[u8],
) -> Answer {
    let outcome = if append {
        session.append_file(alloc, &(), path, &mut bytes)
    } else {
        session.put_file(alloc, &(), path, &mut bytes)
    };
    count(outcome)
}

/// A path that may be left out.
pub fn optional(path: &Option<Text>) -> Option<&str> {
    path.as_ref().map(|path| path.as_str())
}

/// Brings a transfer to its end.
fn end(
    alloc: Global,
    session: &mut NamedSession,
    transfers: &mut Transfers<Live>,
    call: &Call,
) -> Result<Answer, RowError> {
    if matches!(call, Call::Drain) {
        return Ok(drain(alloc, session, transfers));
    }
    let Some(transfer) = transfers.take(alloc)? else {
        return Ok(Answer::NoTransfer);
    };
    Ok(unit(match call {
        Call::Abort => session.abort(alloc, transfer),
        _ => session.finish(alloc, transfer),
    }))
}

/// Reads the last reply of the transfer that was left.
fn drain(alloc: Global, session: &mut NamedSession, transfers: &mut Transfers<Live>) -> Answer {
    let Some(mut receipt) = transfers.receipt() else {
        return Answer::NoTransfer;
    };
    let answer = unit(session.settle(alloc, &mut receipt));
    transfers.keep(receipt, &answer);
    answer
}

/// A setting changes.
fn set(session: &mut NamedSession, setting: &Setting) -> Result<Answer, AllocError> {
    match setting {
        Setting::Mode(mode) => session.set_mode(*mode),
        Setting::PassiveNatWorkaround(enabled) => session.set_passive_nat_workaround(*enabled),
        Setting::ActivePeerCheck(check) => session.set_active_peer_check(check.clone()?),
        Setting::ActiveDeadline(deadline) => session.set_active_deadline(*deadline),
        Setting::LenientReplies(lenient) => session.set_lenient_replies(*lenient),
    }
    Ok(Answer::Unit)
}

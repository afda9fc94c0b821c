//! The calls of a session, one after another.

use crate::face::{Face, failed, server};
use crate::script::{Asked, Script, Secure};
use ftp_base::types::FtpResult;
use ftp_session::session::{Answer, Call, Session, Setting};
use ftp_transfer::Transfer;
use ftp_transfer::mark::Left;
use rows_plays::{Held, Transfers, boxed, bytes, count, lines, optional, size, unit};
use rows_text::RowError;
use rows_tls::{Line, Log};
use std::alloc::Global;
use std::io;
use std::io::{Read, Write};
use std::random::RandomSource;
use std::sync::Wait;

/// A transfer of such a session.
#[derive(Drop)]
struct Live {
    transfer: Transfer<Line>,
}

impl Held for Live {
    type Stream = Transfer<Line>;

    fn of(stream: Transfer<Line>) -> Live {
        Live { transfer: stream }
    }

    fn sent(&self) -> &[u8] {
        self.transfer.get_ref().sent()
    }

    fn take_in<R>(&mut self, _rt: &R, buffer: &mut [u8]) -> io::Result<usize>
    where
        R: Wait + RandomSource + AllocGlobal,
    {
        Read::read(&mut self.transfer, buffer)
    }

    fn put_out<R>(&mut self, _rt: &R, bytes: &[u8]) -> io::Result<usize>
    where
        R: Wait + RandomSource + AllocGlobal,
    {
        Write::write(&mut self.transfer, bytes)
    }

    fn left(self) -> Left {
        let Live { transfer } = self;
        transfer.leave()
    }
}

/// A session that plays a row. It stays where a call fails.
#[derive(Drop)]
pub struct SessionFace {
    session: Option<Box<Secure>>,
    transfers: Box<Transfers<Live>>,
}

impl Face for SessionFace {
    fn is_client() -> bool {
        false
    }

    fn new(alloc: Global, script: &Script, log: &Log) -> Result<Box<SessionFace>, RowError> {
        let face = SessionFace {
            session: script.session(alloc, log, false)?,
            transfers: boxed(alloc, Transfers::new(alloc))?,
        };
        Ok(boxed(alloc, face)?)
    }

    fn make<R>(
        &mut self,
        rt: &R,
        script: &Script,
        log: &Log,
        asked: &Asked,
    ) -> Result<Option<Answer>, RowError>
    where
        R: Wait + RandomSource + AllocGlobal,
    {
        let alloc = rt.alloc();
        if let Asked::Implicit(name) = asked {
            let answer = match connect(alloc, script, log, name.as_str())? {
                Ok(session) => {
                    drop(self.session.replace(session));
                    Answer::Unit
                }
                Err(fault) => failed(fault),
            };
            return Ok(Some(answer));
        }
        let Some(session) = &mut self.session else {
            return Ok(None);
        };
        Ok(Some(match asked {
            Asked::Secure(name) => {
                let seal = Box::into_inner(script.seal(alloc)?);
                unit(session.into_secure(alloc, seal, name.as_str()))
            }
            Asked::Clear => unit(session.clear_command_channel(alloc)),
            Asked::Call(call) => made(rt, session, &mut self.transfers, call)?,
            Asked::Implicit(_) => return Err(RowError::NotUnderstood),
        }))
    }

    fn live(&self) -> Option<&Line> {
        match self.transfers.live() {
            Some(live) => Some(live.transfer.get_ref()),
            None => None,
        }
    }
}

/// The session that connects under TLS, to a server of this name.
///
/// # Errors
/// `OutOfMemory`.
pub fn connect(
    alloc: Global,
    script: &Script,
    log: &Log,
    name: &str,
) -> Result<FtpResult<Box<Secure>>, RowError> {
    let seal = script.seal(alloc)?;
    let net = Box::into_inner(script.net(alloc, log, false)?);
    let seal = Box::into_inner(seal);
    match Session::connect_secure_implicit(alloc, &(), net, &[server()], seal, name) {
        Ok(session) => Ok(Ok(boxed(alloc, session)?)),
        Err(fault) => Ok(Err(fault)),
    }
}

/// Makes a call by its method.
fn made<R>(
    rt: &R,
    session: &mut Secure,
    transfers: &mut Transfers<Live>,
    call: &Call,
) -> Result<Answer, RowError>
where
    R: Wait + RandomSource + AllocGlobal,
{
    let alloc = rt.alloc();
    Ok(match call {
        Call::Noop => unit(session.noop(alloc)),
        Call::Resync => unit(session.resync(alloc)),
        Call::Quit => unit(session.quit(alloc)),
        Call::Size(path) => size(session.size(alloc, path.as_str())),
        Call::ResumeTransfer(offset) => unit(session.resume_transfer(alloc, *offset)),
        Call::Read(most) => transfers.receive(rt, *most)?,
        Call::Write(bytes) => transfers.send(rt, bytes.as_slice()),
        Call::Leave => transfers.leave(alloc)?,
        Call::Finish | Call::Abort => end(alloc, session, transfers, call)?,
        _ => transferred(alloc, session, transfers, call)?,
    })
}

/// Opens a transfer, or makes a whole one.
fn transferred(
    alloc: Global,
    session: &mut Secure,
    transfers: &mut Transfers<Live>,
    call: &Call,
) -> Result<Answer, RowError> {
    Ok(match call {
        Call::RetrAsStream(path) => {
            transfers.opened(session.retr_as_stream(alloc, &(), path.as_str()))
        }
        Call::PutWithStream(path) => {
            transfers.opened(session.put_with_stream(alloc, &(), path.as_str()))
        }
        Call::Retr(path) => bytes(session.retr_as_buffer(alloc, &(), path.as_str())),
        Call::List(path) => lines(session.list(alloc, &(), optional(path))),
        Call::PutFile(path, source) => {
            let mut source = source.as_slice();
            count(session.put_file(alloc, &(), path.as_str(), &mut source))
        }
        Call::Set(Setting::Mode(mode)) => {
            session.set_mode(*mode);
            Answer::Unit
        }
        _ => return Err(RowError::NotUnderstood),
    })
}

/// Brings the live transfer to its end.
fn end(
    alloc: Global,
    session: &mut Secure,
    transfers: &mut Transfers<Live>,
    call: &Call,
) -> Result<Answer, RowError> {
    let Some(Live { transfer }) = transfers.take(alloc)? else {
        return Ok(Answer::NoTransfer);
    };
    Ok(unit(match call {
        Call::Abort => session.abort(alloc, transfer),
        _ => session.finish(alloc, transfer),
    }))
}

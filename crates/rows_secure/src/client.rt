//! The calls of the blocking client, one after another.

use crate::face::{Face, failed, kept};
use crate::script::{Asked, Script};
use crate::session::connect;
use ftp_base::types::FtpResult;
use ftp_blocking::{ImplFtpStream, TransferStream};
use ftp_session::session::{Answer, Call, Setting};
use ftp_transfer::mark::Left;
use rows_plays::{Held, Transfers, boxed, bytes, count, had, lines, optional, size, unit};
use rows_text::RowError;
use rows_tls::{Line, Log, Net, Seal};
use std::alloc::Global;
use std::io;
use std::io::{Read, Write};
use std::random::RandomSource;
use std::sync::Wait;

/// A blocking client whose connections may be under TLS.
type Client = ImplFtpStream<Net, Seal>;

/// A transfer of such a client.
type Stream = TransferStream<Net, Seal>;

/// A transfer that is held.
#[derive(Drop)]
struct Live {
    stream: Stream,
}

impl Held for Live {
    type Stream = Stream;

    fn of(stream: Stream) -> Live {
        Live { stream }
    }

    fn sent(&self) -> &[u8] {
        self.stream.get_ref().sent()
    }

    fn take_in<R>(&mut self, _rt: &R, buffer: &mut [u8]) -> io::Result<usize>
    where
        R: Wait + RandomSource + AllocGlobal,
    {
        Read::read(&mut self.stream, buffer)
    }

    fn put_out<R>(&mut self, _rt: &R, bytes: &[u8]) -> io::Result<usize>
    where
        R: Wait + RandomSource + AllocGlobal,
    {
        Write::write(&mut self.stream, bytes)
    }

    fn left(self) -> Left {
        let Live { stream } = self;
        stream.leave()
    }
}

/// A blocking client that plays a row. It is gone once a call that takes it fails; a transfer that is held is still there.
#[derive(Drop)]
pub struct ClientFace {
    client: Option<Box<Client>>,
    transfers: Box<Transfers<Live>>,
}

impl Face for ClientFace {
    fn is_client() -> bool {
        true
    }

    fn new(alloc: Global, script: &Script, log: &Log) -> Result<Box<ClientFace>, RowError> {
        let client = match script.session(alloc, log, false)? {
            Some(session) => {
                let client = had(Client::new(alloc, Box::into_inner(session)))?;
                Some(boxed(alloc, client)?)
            }
            None => None,
        };
        let transfers = boxed(alloc, Transfers::new(alloc))?;
        Ok(boxed(alloc, ClientFace { client, transfers })?)
    }

    fn make<R>(
        &mut self,
        rt: &R,
        script: &Script,
        log: &Log,
        asked: &Asked,
    ) -> Result<Option<Answer>, RowError>
    where
        R: Wait + RandomSource + AllocGlobal,
    {
        match asked {
            Asked::Implicit(name) => match connect(rt.alloc(), script, log, name.as_str())? {
                Ok(session) => {
                    let made = Client::new(rt.alloc(), Box::into_inner(session));
                    Ok(Some(kept(rt.alloc(), made, &mut self.client)?))
                }
                Err(fault) => Ok(Some(failed(fault))),
            },
            Asked::Secure(_) | Asked::Clear => self.change(rt, script, asked),
            Asked::Call(call) => self.call(rt, call),
        }
    }

    fn live(&self) -> Option<&Line> {
        match self.transfers.live() {
            Some(live) => Some(live.stream.get_ref()),
            None => None,
        }
    }
}

impl ClientFace {
    /// The client is put under TLS, or its control connection is taken from under it.
    fn change<R: Wait + AllocGlobal>(
        &mut self,
        rt: &R,
        script: &Script,
        asked: &Asked,
    ) -> Result<Option<Answer>, RowError> {
        let Some(client) = self.client.take() else {
            return Ok(None);
        };
        let client = Box::into_inner(client);
        let outcome = match asked {
            Asked::Secure(name) => {
                let seal = Box::into_inner(script.seal(rt.alloc())?);
                client.into_secure(rt, seal, name.as_str())
            }
            _ => client.clear_command_channel(rt),
        };
        Ok(Some(kept(rt.alloc(), outcome, &mut self.client)?))
    }

    /// Makes a call of the transfer that is held, or of the client.
    fn call<R>(&mut self, rt: &R, call: &Call) -> Result<Option<Answer>, RowError>
    where
        R: Wait + RandomSource + AllocGlobal,
    {
        let transfers = &mut self.transfers;
        Ok(match call {
            Call::Read(most) => Some(transfers.receive(rt, *most)?),
            Call::Write(bytes) => Some(transfers.send(rt, bytes.as_slice())),
            Call::Leave => Some(transfers.leave(rt.alloc())?),
            Call::Finish | Call::Abort => Some(end(rt, transfers, call)?),
            _ => match &self.client {
                Some(client) => Some(made(rt, client, transfers, call)?),
                None => None,
            },
        })
    }
}

/// Makes a call by its method.
fn made<R>(
    rt: &R,
    client: &Client,
    transfers: &mut Transfers<Live>,
    call: &Call,
) -> Result<Answer, RowError>
where
    R: Wait + RandomSource + AllocGlobal,
{
    Ok(match call {
        Call::Noop => unit(client.noop(rt)),
        Call::Resync => unit(client.resync(rt)),
        Call::Quit => unit(client.quit(rt)),
        Call::Size(path) => size(client.size(rt, path.as_str())),
        Call::ResumeTransfer(offset) => unit(client.resume_transfer(rt, *offset)),
        _ => transferred(rt, client, transfers, call)?,
    })
}

/// Opens a transfer, or makes a whole one.
fn transferred<R: Wait + AllocGlobal>(
    rt: &R,
    client: &Client,
    transfers: &mut Transfers<Live>,
    call: &Call,
) -> Result<Answer, RowError> {
    Ok(match call {
        Call::RetrAsStream(path) => transfers.opened(client.retr_as_stream(rt, path.as_str())),
        Call::PutWithStream(path) => transfers.opened(client.put_with_stream(rt, path.as_str())),
        Call::Retr(path) => bytes(client.retr_as_buffer(rt, path.as_str())),
        Call::List(path) => lines(client.list(rt, optional(path))),
        Call::PutFile(path, source) => {
            let mut source = source.as_slice();
            count(client.put_file(rt, path.as_str(), &mut source))
        }
        Call::Set(Setting::Mode(mode)) => {
            client.set_mode(rt, *mode);
            Answer::Unit
        }
        _ => return Err(RowError::NotUnderstood),
    })
}

/// Brings the live transfer to its end.
fn end<R: Wait + AllocGlobal>(
    rt: &R,
    transfers: &mut Transfers<Live>,
    call: &Call,
) -> Result<Answer, RowError> {
    let Some(Live { stream }) = transfers.take(rt.alloc())? else {
        return Ok(Answer::NoTransfer);
    };
    Ok(unit(match call {
        Call::Abort => stream.abort(rt),
        _ => stream.finish(rt),
    }))
}

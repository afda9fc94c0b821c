//! The calls of the polled client, one after another, each polled to its answer.

use crate::face::{Face, kept, server};
use crate::receiving::{Live, changed, done, opened, unit};
use crate::script::{Asked, Script};
use ftp_polled::ImplAsyncFtpStream;
use ftp_session::session::{Answer, Call, Setting};
use rows_plays::{Transfers, boxed, bytes, count, had, lines, optional, size};
use rows_text::RowError;
use rows_tls::{Line, Log, Net, Seal};
use std::alloc::Global;
use std::random::RandomSource;
use std::sync::Wait;

/// A polled client whose connections may be under TLS.
pub type Client = ImplAsyncFtpStream<Net, Seal>;

/// A polled client that plays a row. It is gone once a call that takes it fails; a transfer that is held is still there.
#[derive(Drop)]
pub struct PolledFace {
    client: Option<Box<Client>>,
    transfers: Box<Transfers<Live>>,
    // Whether its connections wait before each byte.
    slow: bool,
}

/// The client on the row's connection; none where the row connects.
fn client_of(
    alloc: Global,
    script: &Script,
    log: &Log,
    slow: bool,
) -> Result<Option<Box<Client>>, RowError> {
    match script.session(alloc, log, slow)? {
        Some(session) => {
            let client = had(Client::new(alloc, Box::into_inner(session)))?;
            Ok(Some(boxed(alloc, client)?))
        }
        None => Ok(None),
    }
}

impl Face for PolledFace {
    fn is_client() -> bool {
        true
    }

    fn new(alloc: Global, script: &Script, log: &Log) -> Result<Box<PolledFace>, RowError> {
        PolledFace::at_pace(alloc, script, log, false)
    }

    fn make<R>(
        &mut self,
        rt: &R,
        script: &Script,
        log: &Log,
        asked: &Asked,
    ) -> Result<Option<Answer>, RowError>
    where
        R: Wait + RandomSource + AllocGlobal,
    {
        match asked {
            Asked::Implicit(name) => {
                let seal = script.seal(rt.alloc())?;
                let net = Box::into_inner(script.net(rt.alloc(), log, self.slow)?);
                let seal = Box::into_inner(seal);
                let at = [server()];
                let connect = Client::connect_secure_implicit(rt, net, &at, seal, name.as_str());
                let made = done(rt, connect);
                Ok(Some(kept(rt.alloc(), made, &mut self.client)?))
            }
            Asked::Secure(_) | Asked::Clear => self.change(rt, script, asked),
            Asked::Call(call) => self.call(rt, call),
        }
    }

    fn live(&self) -> Option<&Line> {
        match self.transfers.live() {
            Some(live) => Some(live.conn()),
            None => None,
        }
    }
}

impl PolledFace {
    /// One whose connections wait before each byte, or don't.
    fn at_pace(
        alloc: Global,
        script: &Script,
        log: &Log,
        slow: bool,
    ) -> Result<Box<PolledFace>, RowError> {
        let face = PolledFace {
            client: client_of(alloc, script, log, slow)?,
            transfers: boxed(alloc, Transfers::new(alloc))?,
            slow,
        };
        Ok(boxed(alloc, face)?)
    }

    /// One whose connections wait before each byte.
    ///
    /// # Errors
    /// `NotUnderstood`, `OutOfMemory`.
    pub fn slow(alloc: Global, script: &Script, log: &Log) -> Result<Box<PolledFace>, RowError> {
        PolledFace::at_pace(alloc, script, log, true)
    }

    /// The client.
    pub fn client(&self) -> Option<&Client> {
        match &self.client {
            Some(client) => Some(client),
            None => None,
        }
    }

    /// Takes the client.
    pub fn take_client(&mut self) -> Option<Box<Client>> {
        self.client.take()
    }

    /// The client is put under TLS, or its control connection is taken from under it.
    fn change<R>(
        &mut self,
        rt: &R,
        script: &Script,
        asked: &Asked,
    ) -> Result<Option<Answer>, RowError>
    where
        R: Wait + RandomSource + AllocGlobal,
    {
        let Some(client) = self.client.take() else {
            return Ok(None);
        };
        let client = Box::into_inner(client);
        let outcome = match asked {
            Asked::Secure(name) => {
                let seal = Box::into_inner(script.seal(rt.alloc())?);
                changed(rt, client.into_secure(rt, seal, name.as_str()))
            }
            _ => changed(rt, client.clear_command_channel(rt)),
        };
        Ok(Some(kept(rt.alloc(), outcome, &mut self.client)?))
    }

    /// Makes a call of the transfer that is held, or of the client.
    fn call<R>(&mut self, rt: &R, call: &Call) -> Result<Option<Answer>, RowError>
    where
        R: Wait + RandomSource + AllocGlobal,
    {
        let transfers = &mut self.transfers;
        Ok(match call {
            Call::Read(most) => Some(transfers.receive(rt, *most)?),
            Call::Write(bytes) => Some(transfers.send(rt, bytes.as_slice())),
            Call::Leave => Some(transfers.leave(rt.alloc())?),
            Call::Finish | Call::Abort => Some(end(rt, transfers, call)?),
            _ => match &self.client {
                Some(client) => Some(made(rt, client, transfers, call)?),
                None => None,
            },
        })
    }
}

/// Makes a call by its state.
fn made<R>(
    rt: &R,
    client: &Client,
    transfers: &mut Transfers<Live>,
    call: &Call,
) -> Result<Answer, RowError>
where
    R: Wait + RandomSource + AllocGlobal,
{
    Ok(match call {
        Call::Noop => unit(rt, client.noop(rt)),
        Call::Resync => unit(rt, client.resync(rt)),
        Call::Quit => unit(rt, client.quit(rt)),
        Call::Size(path) => size(done(rt, client.size(rt, path.as_str()))),
        Call::ResumeTransfer(offset) => unit(rt, client.resume_transfer(rt, *offset)),
        _ => transferred(rt, client, transfers, call)?,
    })
}

/// Opens a transfer, or makes a whole one.
fn transferred<R>(
    rt: &R,
    client: &Client,
    transfers: &mut Transfers<Live>,
    call: &Call,
) -> Result<Answer, RowError>
where
    R: Wait + RandomSource + AllocGlobal,
{
    Ok(match call {
        Call::RetrAsStream(path) => {
            opened(rt, transfers, client.retr_as_stream(rt, path.as_str()))
        }
        Call::PutWithStream(path) => {
            opened(rt, transfers, client.put_with_stream(rt, path.as_str()))
        }
        Call::Retr(path) => bytes(done(rt, client.retr_as_buffer(rt, path.as_str()))),
        Call::List(path) => lines(done(rt, client.list(rt, optional(path)))),
        Call::PutFile(path, source) => {
            count(done(rt, client.put_file(rt, path.as_str(), source.as_slice())))
        }
        Call::Set(Setting::Mode(mode)) => rows_plays::unit(done(rt, client.set_mode(rt, *mode))),
        _ => return Err(RowError::NotUnderstood),
    })
}

/// Brings the live transfer to its end.
fn end<R>(rt: &R, transfers: &mut Transfers<Live>, call: &Call) -> Result<Answer, RowError>
where
    R: Wait + RandomSource + AllocGlobal,
{
    let Some(Live { stream }) = transfers.take(rt.alloc())? else {
        return Ok(Answer::NoTransfer);
    };
    Ok(rows_plays::unit(match call {
        Call::Abort => done(rt, stream.abort(rt)),
        _ => done(rt, stream.finish(rt)),
    }))
}

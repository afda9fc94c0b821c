//! The calls of the blocking client, one after another.

use ftp_base::types::{FtpError, FtpResult};
use ftp_blocking::{ImplFtpStream, TransferStream};
use ftp_session::session::{Answer, Call, NoTlsConnector, Setting};
use ftp_transfer::mark::Left;
use ftp_transport::MemoryTransport;
use rows_plays::{
    Held, Named, Opening, Play, RowBuilder, RowState, Transfers, boxed, bytes, count, counted,
    features, greeted, had, lines, made_by_method, moment, optional, recorded, reply, size, text,
    texts_of, time, unit,
};
use rows_text::RowError;
use std::alloc::{AllocError, Global};
use std::io;
use std::io::{Read, Write};
use std::random::RandomSource;
use std::sync::Wait;

/// A blocking client over memory whose encoding a row may choose.
type Client = ImplFtpStream<MemoryTransport, NoTlsConnector, Named, RowBuilder>;

/// A transfer of such a client.
type Stream = TransferStream<MemoryTransport, NoTlsConnector, Named, RowBuilder>;

/// A transfer that a face holds.
#[derive(Drop)]
struct Live {
    stream: Stream,
}

impl Held for Live {
    type Stream = Stream;

    fn of(stream: Stream) -> Live {
        Live { stream }
    }

    fn sent(&self) -> &[u8] {
        self.stream.get_ref().sent()
    }

    fn take_in<R>(&mut self, _rt: &R, buffer: &mut [u8]) -> io::Result<usize>
    where
        R: Wait + RandomSource + AllocGlobal,
    {
        Read::read(&mut self.stream, buffer)
    }

    fn put_out<R>(&mut self, _rt: &R, bytes: &[u8]) -> io::Result<usize>
    where
        R: Wait + RandomSource + AllocGlobal,
    {
        Write::write(&mut self.stream, bytes)
    }

    fn left(self) -> Left {
        let Live { stream } = self;
        stream.leave()
    }
}

/// Whether rows can play each of these calls by the client's methods. The greeting can only be the first, which a
/// session has read before the client is made.
pub fn has_methods(calls: &[Call]) -> bool {
    let others = match calls.split_first() {
        Some((Call::Greet, others)) => others,
        _ => calls,
    };
    !others.iter().any(|call| matches!(call, Call::Greet))
}

/// Where these calls lead to, each made by the client's method.
pub fn called<R>(rt: &R, calls: &[Call], play: &Play) -> Result<RowState, RowError>
where
    R: Wait + RandomSource + AllocGlobal,
{
    let Opening {
        session,
        mut answers,
        others,
    } = greeted(rt.alloc(), calls, play)?;
    let client = had(ImplFtpStream::new(rt.alloc(), Box::into_inner(session)))?;
    let client = boxed(rt.alloc(), client)?;
    if let Some(encoding) = play.encoding {
        had(client.set_encoding(rt, encoding))?;
    }
    let uploaded = made(rt, &client, others, &mut answers)?;
    let mut end = stands(rt, &client, &answers)?;
    end.uploaded = uploaded;
    Ok(end)
}

/// Makes these calls one after another, and adds their answers; what was written to the data connections that are over.
fn made<R>(
    rt: &R,
    client: &Client,
    calls: &[Call],
    answers: &mut Vec<Answer>,
) -> Result<Vec<Vec<u8>>, RowError>
where
    R: Wait + RandomSource + AllocGlobal,
{
    let mut transfers = boxed(rt.alloc(), Transfers::new(rt.alloc()))?;
    for call in calls {
        let answer = make(rt, client, &mut transfers, call)?;
        transfers.add(call, answer, answers)?;
    }
    Ok(transfers.take_uploaded(rt.alloc()))
}

/// Makes a call by its method.
fn make<R>(
    rt: &R,
    client: &Client,
    transfers: &mut Transfers<Live>,
    call: &Call,
) -> Result<Answer, RowError>
where
    R: Wait + RandomSource + AllocGlobal,
{
    Ok(made_by_method!(call, client, rt, (), {
        Call::Greet => return Err(RowError::NotUnderstood),
        Call::ReadResponse(status) => reply(client.read_response(rt, *status)),
        Call::ReadResponseIn(codes) => reply(client.read_response_in(rt, codes.as_slice())),
        Call::RetrAsStream(_)
        | Call::PutWithStream(_)
        | Call::AppendWithStream(_)
        | Call::CustomDataCommand(..) => open(rt, client, transfers, call)?,
        Call::Retr(_)
        | Call::List(_)
        | Call::Nlst(_)
        | Call::Mlsd(_)
        | Call::PutFile(..)
        | Call::AppendFile(..) => carry(rt, client, transfers, call)?,
        Call::Set(setting) => set(rt, client, setting)?,
        Call::Read(most) => transfers.receive(rt, *most)?,
        Call::Write(bytes) => transfers.send(rt, bytes.as_slice()),
        Call::Leave => transfers.leave(rt.alloc())?,
        Call::Finish | Call::Abort | Call::Drain => end(rt, client, transfers, call)?,
    }))
}

/// Opens a transfer.
fn open<R: Wait + AllocGlobal>(
    rt: &R,
    client: &Client,
    transfers: &mut Transfers<Live>,
    call: &Call,
) -> Result<Answer, RowError> {
    Ok(match call {
        Call::RetrAsStream(path) => transfers.opened(client.retr_as_stream(rt, path.as_str())),
        Call::PutWithStream(path) => transfers.opened(client.put_with_stream(rt, path.as_str())),
        Call::AppendWithStream(path) => {
            transfers.opened(client.append_with_stream(rt, path.as_str()))
        }
        Call::CustomDataCommand(line, codes) => transfers.opened_with(client.custom_data_command(
            rt,
            line.as_str(),
            codes.as_slice(),
        )),
        _ => return Err(RowError::NotUnderstood),
    })
}

/// Carries a whole file or listing, and notes what was written to its data connection once it is over.
fn carry<R: Wait + AllocGlobal>(
    rt: &R,
    client: &Client,
    transfers: &mut Transfers<Live>,
    call: &Call,
) -> Result<Answer, RowError> {
    let before = client.get_ref(rt).transport().uploaded().len();
    let answer = match call {
        Call::Retr(path) => bytes(client.retr_as_buffer(rt, path.as_str())),
        Call::List(path) => lines(client.list(rt, optional(path))),
        Call::Nlst(path) => lines(client.nlst(rt, optional(path))),
        Call::Mlsd(path) => lines(client.mlsd(rt, optional(path))),
        Call::PutFile(path, source) => {
            count(client.put_file(rt, path.as_str(), &mut source.as_slice()))
        }
        Call::AppendFile(path, source) => {
            count(client.append_file(rt, path.as_str(), &mut source.as_slice()))
        }
        _ => return Err(RowError::NotUnderstood),
    };
    let control = client.get_ref(rt);
    transfers.note(rt.alloc(), control.transport().uploaded(), before)?;
    drop(control);
    Ok(answer)
}

/// Brings a transfer to its end.
fn end<R: Wait + AllocGlobal>(
    rt: &R,
    client: &Client,
    transfers: &mut Transfers<Live>,
    call: &Call,
) -> Result<Answer, RowError> {
    if matches!(call, Call::Drain) {
        return Ok(drain(rt, client, transfers));
    }
    let Some(Live { stream }) = transfers.take(rt.alloc())? else {
        return Ok(Answer::NoTransfer);
    };
    Ok(unit(match call {
        Call::Abort => stream.abort(rt),
        _ => stream.finish(rt),
    }))
}

/// Reads the last reply of the transfer that was left.
fn drain<R: Wait + AllocGlobal>(
    rt: &R,
    client: &Client,
    transfers: &mut Transfers<Live>,
) -> Answer {
    let Some(mut receipt) = transfers.receipt() else {
        return Answer::NoTransfer;
    };
    let answer = unit(client.settle(rt, &mut receipt));
    transfers.keep(receipt, &answer);
    answer
}

/// A setting changes.
fn set<R: Wait>(rt: &R, client: &Client, setting: &Setting) -> Result<Answer, AllocError> {
    match setting {
        Setting::Mode(mode) => client.set_mode(rt, *mode),
        Setting::PassiveNatWorkaround(enabled) => {
            client.set_passive_nat_workaround(rt, *enabled);
        }
        Setting::ActivePeerCheck(check) => client.set_active_peer_check(rt, check.clone()?),
        Setting::ActiveDeadline(deadline) => client.set_active_deadline(rt, *deadline),
        Setting::LenientReplies(lenient) => client.set_lenient_replies(rt, *lenient),
    }
    Ok(Answer::Unit)
}

/// Where a client stands that returned these answers.
fn stands<R: Wait + AllocGlobal>(
    rt: &R,
    client: &Client,
    answers: &[Answer],
) -> Result<RowState, RowError> {
    let Shown {
        asked,
        sent,
        taken,
        counts,
    } = traffic(rt, client)?;
    Ok(RowState {
        asked,
        uploaded: Vec::new(rt.alloc()),
        sent,
        answers: texts_of(rt.alloc(), answers)?,
        taken,
        welcome: had(client.get_welcome_msg(rt))?,
        failed: has_failed(client.noop(rt)),
        counts,
    })
}

/// Whether a session has failed, by what its next call returns.
fn has_failed(answer: FtpResult<()>) -> bool {
    let has_failed = matches!(&answer, Err(FtpError::SessionFailed));
    drop(answer);
    has_failed
}

/// What a client shows under its lock: what its transport was asked, what was sent, how many bytes the replies have
/// consumed, and its transfers.
#[derive(Drop)]
struct Shown {
    asked: Vec<String>,
    sent: Vec<u8>,
    taken: usize,
    counts: String,
}

/// What a client shows under its lock.
fn traffic<R: Wait + AllocGlobal>(rt: &R, client: &Client) -> Result<Shown, AllocError> {
    let control = client.get_ref(rt);
    let conn = control.socket();
    Ok(Shown {
        asked: recorded(rt.alloc(), control.transport().requests())?,
        sent: Vec::from_slice(rt.alloc(), conn.sent())?,
        taken: conn.received().saturating_sub(control.untaken()),
        counts: counted(rt.alloc(), control.counts())?,
    })
}

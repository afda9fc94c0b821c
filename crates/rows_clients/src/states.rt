//! The calls of the polled client, one after another, each polled to its answer.

use crate::polled::{
    Client, Stream, aborted, adjusted, bytes, control, count, done, features, finished, lines,
    opened, reply, size, text, time, unit,
};
use ftp_base::status::Status;
use ftp_base::types::{FtpError, FtpResult};
use ftp_polled::ImplAsyncFtpStream;
use ftp_session::session::{Answer, Call, Setting};
use ftp_transfer::mark::Left;
use futures::Future;
use futures::executor::block_on;
use futures::task::{Context, Poll};
use rows_plays::{
    Held, Opening, Play, RowState, Transfers, boxed, counted, greeted, had, made_by_method, moment,
    optional, recorded, texts_of,
};
use rows_text::RowError;
use std::alloc::{AllocError, Global};
use std::io;
use std::io::ErrorKind;
use std::random::RandomSource;
use std::sync::Wait;

/// One read of a transfer.
#[derive(Drop)]
struct Receiving<'s> {
    stream: &'s mut Stream,
    buffer: &'s mut [u8],
}

impl Future for Receiving<'_> {
    type Output = Result<usize, ErrorKind>;

    fn poll(&mut self, cx: &mut Context<'_>) -> Poll<Result<usize, ErrorKind>> {
        match self.stream.poll_read(cx, self.buffer) {
            Ok(Poll::Ready(count)) => Poll::Ready(Ok(count)),
            Ok(Poll::Pending) => Poll::Pending,
            Err(kind) => Poll::Ready(Err(kind)),
        }
    }
}

/// One write to a transfer.
#[derive(Drop)]
struct Sending<'s> {
    stream: &'s mut Stream,
    bytes: &'s [u8],
}

impl Future for Sending<'_> {
    type Output = Result<usize, ErrorKind>;

    fn poll(&mut self, cx: &mut Context<'_>) -> Poll<Result<usize, ErrorKind>> {
        match self.stream.poll_write(cx, self.bytes) {
            Ok(Poll::Ready(count)) => Poll::Ready(Ok(count)),
            Ok(Poll::Pending) => Poll::Pending,
            Err(kind) => Poll::Ready(Err(kind)),
        }
    }
}

/// A transfer that a face holds.
#[derive(Drop)]
struct Live {
    stream: Stream,
}

impl Held for Live {
    type Stream = Stream;

    fn of(stream: Stream) -> Live {
        Live { stream }
    }

    fn sent(&self) -> &[u8] {
        self.stream.get_ref().sent()
    }

    fn take_in<R>(&mut self, rt: &R, buffer: &mut [u8]) -> io::Result<usize>
    where
        R: Wait + RandomSource + AllocGlobal,
    {
        let stream = &mut self.stream;
        moved(block_on(rt, Receiving { stream, buffer }))
    }

    fn put_out<R>(&mut self, rt: &R, bytes: &[u8]) -> io::Result<usize>
    where
        R: Wait + RandomSource + AllocGlobal,
    {
        let stream = &mut self.stream;
        moved(block_on(rt, Sending { stream, bytes }))
    }

    fn left(self) -> Left {
        let Live { stream } = self;
        stream.leave()
    }
}

/// What a read or a write resulted in.
fn moved(outcome: io::Result<Result<usize, ErrorKind>>) -> io::Result<usize> {
    match outcome {
        Ok(Ok(count)) => Ok(count),
        Ok(Err(kind)) => Err(kind.into()),
        Err(error) => Err(error),
    }
}

/// Where these calls lead to, each made by the client's state.
pub fn called<R>(rt: &R, calls: &[Call], play: &Play) -> Result<RowState, RowError>
where
    R: Wait + RandomSource + AllocGlobal,
{
    let Opening {
        session,
        mut answers,
        others,
    } = greeted(rt.alloc(), calls, play)?;
    let client = had(ImplAsyncFtpStream::new(rt.alloc(), Box::into_inner(session)))?;
    let client = boxed(rt.alloc(), client)?;
    if let Some(encoding) = play.encoding {
        had(done(rt, client.set_encoding(rt, encoding)))?;
    }
    let uploaded = made(rt, &client, others, &mut answers)?;
    let mut end = told(rt, &client, &answers)?;
    end.failed = has_failed(done(rt, client.noop(rt)));
    end.uploaded = uploaded;
    Ok(end)
}

/// Makes these calls one after another, and adds their answers; what was written to the data connections that are over.
fn made<R>(
    rt: &R,
    client: &Client,
    calls: &[Call],
    answers: &mut Vec<Answer>,
) -> Result<Vec<Vec<u8>>, RowError>
where
    R: Wait + RandomSource + AllocGlobal,
{
    let mut transfers = boxed(rt.alloc(), Transfers::new(rt.alloc()))?;
    for call in calls {
        let answer = make(rt, client, &mut transfers, call)?;
        transfers.add(call, answer, answers)?;
    }
    Ok(transfers.take_uploaded(rt.alloc()))
}

/// Makes a call by its state.
fn make<R: Wait + RandomSource + AllocGlobal>(
    rt: &R,
    client: &Client,
    transfers: &mut Transfers<Live>,
    call: &Call,
) -> Result<Answer, RowError> {
    Ok(made_by_method!(call, client, rt, (rt), {
        Call::Greet => reply(rt, client.read_response(rt, Status::Ready)),
        Call::ReadResponse(status) => reply(rt, client.read_response(rt, *status)),
        Call::ReadResponseIn(codes) => {
            reply(rt, client.read_response_in(rt, codes.as_slice()))
        }
        Call::RetrAsStream(_)
        | Call::PutWithStream(_)
        | Call::AppendWithStream(_)
        | Call::CustomDataCommand(..) => open(rt, client, transfers, call)?,
        Call::Retr(_)
        | Call::List(_)
        | Call::Nlst(_)
        | Call::Mlsd(_)
        | Call::PutFile(..)
        | Call::AppendFile(..) => carry(rt, client, transfers, call)?,
        Call::Set(setting) => set(rt, client, setting)?,
        Call::Read(most) => transfers.receive(rt, *most)?,
        Call::Write(bytes) => transfers.send(rt, bytes.as_slice()),
        Call::Leave => transfers.leave(rt.alloc())?,
        Call::Finish | Call::Abort | Call::Drain => end(rt, client, transfers, call)?,
    }))
}

/// Opens a transfer.
fn open<R: Wait + RandomSource + AllocGlobal>(
    rt: &R,
    client: &Client,
    transfers: &mut Transfers<Live>,
    call: &Call,
) -> Result<Answer, RowError> {
    Ok(match call {
        Call::RetrAsStream(path) => {
            transfers.opened(opened(rt, client.retr_as_stream(rt, path.as_str())))
        }
        Call::PutWithStream(path) => {
            transfers.opened(opened(rt, client.put_with_stream(rt, path.as_str())))
        }
        Call::AppendWithStream(path) => {
            transfers.opened(opened(rt, client.append_with_stream(rt, path.as_str())))
        }
        Call::CustomDataCommand(line, codes) => transfers.opened_with(done(
            rt,
            client.custom_data_command(rt, line.as_str(), codes.as_slice()),
        )),
        _ => return Err(RowError::NotUnderstood),
    })
}

/// Carries a whole file or listing, and notes what was written to its data connection once it is over.
fn carry<R: Wait + RandomSource + AllocGlobal>(
    rt: &R,
    client: &Client,
    transfers: &mut Transfers<Live>,
    call: &Call,
) -> Result<Answer, RowError> {
    let before = over(rt, client)?;
    let answer = carried(rt, client, call)?;
    match note(rt, client, transfers, before) {
        Ok(()) => Ok(answer),
        Err(fault) => {
            drop(answer);
            Err(fault)
        }
    }
}

/// The answer of a call that carries a whole file or listing.
fn carried<R: Wait + RandomSource + AllocGlobal>(
    rt: &R,
    client: &Client,
    call: &Call,
) -> Result<Answer, RowError> {
    Ok(match call {
        Call::Retr(path) => bytes(rt, client.retr_as_buffer(rt, path.as_str())),
        Call::List(path) => lines(rt, client.list(rt, optional(path))),
        Call::Nlst(path) => lines(rt, client.nlst(rt, optional(path))),
        Call::Mlsd(path) => lines(rt, client.mlsd(rt, optional(path))),
        Call::PutFile(path, bytes) => {
            count(rt, client.put_file(rt, path.as_str(), bytes.as_slice()))
        }
        Call::AppendFile(path, bytes) => {
            count(rt, client.append_file(rt, path.as_str(), bytes.as_slice()))
        }
        _ => return Err(RowError::NotUnderstood),
    })
}

/// Notes what was written to the data connections that are over, but for so many of them.
fn note<R: Wait + RandomSource + AllocGlobal>(
    rt: &R,
    client: &Client,
    transfers: &mut Transfers<Live>,
    noted: usize,
) -> Result<(), RowError> {
    let control = control(rt, client)?;
    Ok(transfers.note(rt.alloc(), control.transport().uploaded(), noted)?)
}

/// How many data connections are over.
fn over<R: Wait + RandomSource + AllocGlobal>(rt: &R, client: &Client) -> Result<usize, RowError> {
    let control = control(rt, client)?;
    Ok(control.transport().uploaded().len())
}

/// Brings a transfer to its end.
fn end<R: Wait + RandomSource + AllocGlobal>(
    rt: &R,
    client: &Client,
    transfers: &mut Transfers<Live>,
    call: &Call,
) -> Result<Answer, RowError> {
    if matches!(call, Call::Drain) {
        return Ok(drain(rt, client, transfers));
    }
    let Some(Live { stream }) = transfers.take(rt.alloc())? else {
        return Ok(Answer::NoTransfer);
    };
    Ok(match call {
        Call::Abort => aborted(rt, stream.abort(rt)),
        _ => finished(rt, stream.finish(rt)),
    })
}

/// Reads the last reply of the transfer that was left.
fn drain<R: Wait + RandomSource + AllocGlobal>(
    rt: &R,
    client: &Client,
    transfers: &mut Transfers<Live>,
) -> Answer {
    let Some(mut receipt) = transfers.receipt() else {
        return Answer::NoTransfer;
    };
    let answer = rows_plays::unit(done(rt, client.settle(rt, &mut receipt)));
    transfers.keep(receipt, &answer);
    answer
}

/// A setting changes.
fn set<R: Wait + RandomSource + AllocGlobal>(
    rt: &R,
    client: &Client,
    setting: &Setting,
) -> Result<Answer, AllocError> {
    Ok(match setting {
        Setting::Mode(mode) => adjusted(rt, client.set_mode(rt, *mode)),
        Setting::PassiveNatWorkaround(enabled) => {
            adjusted(rt, client.set_passive_nat_workaround(rt, *enabled))
        }
        Setting::ActivePeerCheck(check) => {
            adjusted(rt, client.set_active_peer_check(rt, check.clone()?))
        }
        Setting::ActiveDeadline(deadline) => adjusted(
            rt,
            client.set_active_deadline(rt, *deadline),
        ),
        Setting::LenientReplies(lenient) => {
            adjusted(rt, client.set_lenient_replies(rt, *lenient))
        }
    })
}

/// What a client that returned these answers shows under its lock.
fn told<R: Wait + RandomSource + AllocGlobal>(
    rt: &R,
    client: &Client,
    answers: &[Answer],
) -> Result<RowState, RowError> {
    let alloc = rt.alloc();
    let control = control(rt, client)?;
    Ok(RowState {
        asked: recorded(alloc, control.transport().requests())?,
        uploaded: Vec::new(alloc),
        sent: Vec::from_slice(alloc, control.socket().sent())?,
        answers: texts_of(alloc, answers)?,
        taken: control
            .socket()
            .received()
            .saturating_sub(control.untaken()),
        failed: false,
        welcome: copied(alloc, control.get_welcome_msg())?,
        counts: counted(alloc, control.counts())?,
    })
}

/// The same text, where there is one.
fn copied(alloc: Global, text: Option<&str>) -> Result<Option<String>, AllocError> {
    match text {
        Some(text) => Ok(Some(String::from_str(alloc, text)?)),
        None => Ok(None),
    }
}

/// Whether a session has failed, by what its next call returns.
fn has_failed(answer: FtpResult<()>) -> bool {
    let has_failed = matches!(&answer, Err(FtpError::SessionFailed));
    drop(answer);
    has_failed
}

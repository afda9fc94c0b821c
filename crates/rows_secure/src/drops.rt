//! Rows of calls that are dropped, on the polled client: its connections wait before each byte.

use crate::face::{Face, failed, server};
use crate::polled::{Client, PolledFace};
use crate::receiving::done;
use crate::script::{Asked, Kind, Script, Step};
use ftp_base::encoding::Utf8Encoding;
use ftp_base::types::FtpResult;
use ftp_polled::{Dialogue, TransferStream};
use ftp_session::session::{Answer, Call, NoStreamBuilder};
use futures::Future;
use futures::executor::block_on;
use futures::future::poll_immediate;
use rows_plays::{boxed, bytes, text_of, unit};
use rows_text::RowError;
use rows_tls::{Log, Net, Seal};
use std::alloc::{AllocError, Global};
use std::random::RandomSource;
use std::sync::Wait;

/// A NOOP that was made and isn't polled yet.
type Waiting<'r, R> = Dialogue<'r, R, Net, Seal, Utf8Encoding, NoStreamBuilder, ()>;

/// Plays a row, where the call that is dropped is polled so often: its transcript.
///
/// # Errors
/// `NotUnderstood`, `OutOfMemory`.
pub fn play_dropped<R>(rt: &R, script: &Script, polls: usize) -> Result<String, RowError>
where
    R: Wait + RandomSource + AllocGlobal,
{
    let alloc = rt.alloc();
    let log = Log::new(alloc)?;
    let mut face = PolledFace::slow(alloc, script, &log)?;
    let mut waiting: Option<Box<Waiting<'_, R>>> = None;
    let mut text = String::new(alloc);
    for step in &script.steps {
        let answer = match step.kind {
            Kind::Call => face.make(rt, script, &log, &step.asked)?,
            Kind::Drop => match &*step.asked {
                Asked::Implicit(name) => connected(rt, script, &log, name.as_str(), polls)?,
                asked => dropped(rt, &mut face, script, asked, polls)?,
            },
            Kind::Wait => {
                drop(waiting.replace(boxed(alloc, noop(rt, &face, step)?)?));
                None
            }
        };
        show(alloc, &log, &mut text, answer)?;
    }
    if let Some(waiting) = waiting {
        let answer = unit(done(rt, Box::into_inner(waiting)));
        show(alloc, &log, &mut text, Some(answer))?;
    }
    drop(face);
    Ok(text)
}

/// Adds to a transcript what has happened, and the answer, where there is one.
fn show(
    alloc: Global,
    log: &Log,
    text: &mut String,
    answer: Option<Answer>,
) -> Result<(), AllocError> {
    log.show(text)?;
    if let Some(answer) = answer {
        let said = text_of(alloc, &answer)?;
        drop(answer);
        write!(text, "A: {said}\n")?;
    }
    Ok(())
}

/// The NOOP that a step makes.
///
/// # Errors
/// `NotUnderstood` where it makes another call, or the client is gone.
fn noop<'r, R: AllocGlobal>(
    rt: &'r R,
    face: &PolledFace,
    step: &Step,
) -> Result<Waiting<'r, R>, RowError> {
    match (&*step.asked, face.client()) {
        (Asked::Call(Call::Noop), Some(client)) => Ok(client.noop(rt)),
        _ => Err(RowError::NotUnderstood),
    }
}

/// What a call returns, as an answer. A client and a transfer are dropped.
trait Answers: Drop {
    fn answer(self) -> Answer;
}

impl Answers for Vec<u8> {
    fn answer(self) -> Answer {
        bytes(Ok(self))
    }
}

impl Answers for TransferStream<Net, Seal> {
    fn answer(self) -> Answer {
        drop(self);
        Answer::Opened
    }
}

impl Answers for Client {
    fn answer(self) -> Answer {
        drop(self);
        Answer::Unit
    }
}

/// The answer of a call that is polled so often; none where it waits. Its state is dropped.
fn answer_of<R, F, T>(rt: &R, mut state: F, polls: usize) -> Result<Option<Answer>, RowError>
where
    R: Wait + RandomSource + AllocGlobal,
    F: Future<Output = FtpResult<T>> + Drop,
    T: Answers,
    requires { (state : F) → F.can_poll state }
{
    for _ in 0..polls {
        match block_on(rt, poll_immediate(&mut state)) {
            Ok(None) => {}
            Ok(Some(Ok(value))) => return Ok(Some(value.answer())),
            Ok(Some(Err(fault))) => return Ok(Some(failed(fault))),
            Err(_) => return Err(RowError::OutOfMemory),
        }
    }
    Ok(None)
}

/// A call is polled so often, and dropped, where it waits. The answer, where it doesn't.
fn dropped<R>(
    rt: &R,
    face: &mut PolledFace,
    script: &Script,
    asked: &Asked,
    polls: usize,
) -> Result<Option<Answer>, RowError>
where
    R: Wait + RandomSource + AllocGlobal,
{
    match (asked, face.client()) {
        (Asked::Call(Call::RetrAsStream(path)), Some(client)) => {
            answer_of(rt, client.retr_as_stream(rt, path.as_str()), polls)
        }
        (Asked::Call(Call::Retr(path)), Some(client)) => {
            answer_of(rt, client.retr_as_buffer(rt, path.as_str()), polls)
        }
        (Asked::Secure(name), Some(_)) => {
            secured(rt, face, script.seal(rt.alloc())?, name.as_str(), polls)
        }
        (Asked::Clear, Some(_)) => cleared(rt, face, polls),
        _ => Err(RowError::NotUnderstood),
    }
}

/// A client connects under TLS, is polled so often, and dropped. The answer, where it has one.
fn connected<R>(
    rt: &R,
    script: &Script,
    log: &Log,
    name: &str,
    polls: usize,
) -> Result<Option<Answer>, RowError>
where
    R: Wait + RandomSource + AllocGlobal,
{
    let seal = script.seal(rt.alloc())?;
    let net = Box::into_inner(script.net(rt.alloc(), log, true)?);
    let seal = Box::into_inner(seal);
    let state = Client::connect_secure_implicit(rt, net, &[server()], seal, name);
    answer_of(rt, state, polls)
}

/// The client of a face is put under TLS, polled so often, and dropped. The answer, where it has one.
fn secured<R>(
    rt: &R,
    face: &mut PolledFace,
    seal: Box<Seal>,
    name: &str,
    polls: usize,
) -> Result<Option<Answer>, RowError>
where
    R: Wait + RandomSource + AllocGlobal,
{
    let Some(client) = face.take_client() else {
        return Err(RowError::NotUnderstood);
    };
    let state = Box::into_inner(client).into_secure(rt, Box::into_inner(seal), name);
    answer_of(rt, state, polls)
}

/// The client's control connection is taken from under TLS, polled so often, and dropped. The answer, where it has one.
fn cleared<R>(rt: &R, face: &mut PolledFace, polls: usize) -> Result<Option<Answer>, RowError>
where
    R: Wait + RandomSource + AllocGlobal,
{
    let Some(client) = face.take_client() else {
        return Err(RowError::NotUnderstood);
    };
    answer_of(rt, Box::into_inner(client).clear_command_channel(rt), polls)
}

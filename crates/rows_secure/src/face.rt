//! What plays a row: a session, or a client.

use crate::script::{Asked, Script};
use ftp_base::types::{FtpError, FtpResult};
use ftp_session::session::Answer;
use rows_plays::{boxed, text_of, unit};
use rows_text::RowError;
use rows_tls::{Line, Log};
use std::alloc::{AllocError, Global};
use std::net::{Ipv4Addr, SocketAddr, SocketAddrV4};
use std::random::RandomSource;
use std::sync::Wait;

/// The address at which the row's server is connected to.
pub fn server() -> SocketAddr {
    SocketAddr::V4(SocketAddrV4::new(Ipv4Addr::new(192, 0, 2, 7), 990))
}

/// A session, or a client, that plays a row.
pub trait Face: Drop + Sized {
    /// Whether the lines of the transcript count that are due on clients alone, and not those on sessions alone.
    fn is_client() -> bool;

    /// One on the row's connection; or one that is still to connect.
    ///
    /// # Errors
    /// `NotUnderstood`, `OutOfMemory`.
    fn new(alloc: Global, script: &Script, log: &Log) -> Result<Box<Self>, RowError>;

    /// Makes a call. None where there is nothing to make it by: the client is gone.
    ///
    /// # Errors
    /// `NotUnderstood`; `OutOfMemory` where an allocation fails that is none of the call's.
    fn make<R>(
        &mut self,
        rt: &R,
        script: &Script,
        log: &Log,
        asked: &Asked,
    ) -> Result<Option<Answer>, RowError>
    where
        R: Wait + RandomSource + AllocGlobal;

    /// The data connection of the transfer that is live.
    fn live(&self) -> Option<&Line>;
}

/// What a call returned that gives its client back: the answer, and the client, where there still is one.
///
/// # Errors
/// `OutOfMemory`.
pub fn kept<C: Drop>(
    alloc: Global,
    outcome: FtpResult<C>,
    client: &mut Option<Box<C>>,
) -> Result<Answer, RowError> {
    match outcome {
        Ok(given) => {
            let given = boxed(alloc, given)?;
            drop(client.replace(given));
            Ok(Answer::Unit)
        }
        Err(fault) => {
            drop(client.take());
            Ok(failed(fault))
        }
    }
}

/// The answer of a call that failed.
pub fn failed(fault: FtpError) -> Answer {
    unit(Err(fault))
}

/// An answer as text. That of a call which opened a transfer says whether its data connection is under TLS.
fn said(alloc: Global, answer: &Option<Answer>, live: Option<&Line>) -> Result<String, AllocError> {
    match (answer, live) {
        (None, _) => String::from_str(alloc, "gone"),
        (Some(Answer::Opened), Some(line)) if line.is_under() => {
            String::from_str(alloc, "opened under TLS")
        }
        (Some(answer), _) => text_of(alloc, answer),
    }
}

/// Plays a row: its transcript.
///
/// # Errors
/// `NotUnderstood`, `OutOfMemory`.
pub fn play<F: Face, R>(rt: &R, script: &Script) -> Result<String, RowError>
where
    R: Wait + RandomSource + AllocGlobal,
{
    let alloc = rt.alloc();
    let log = Log::new(alloc)?;
    let mut face = F::new(alloc, script, &log)?;
    let mut text = String::new(alloc);
    for step in &script.steps {
        let answer = face.make(rt, script, &log, &step.asked)?;
        log.show(&mut text)?;
        let said = said(alloc, &answer, face.live())?;
        drop(answer);
        write!(text, "A: {said}\n")?;
    }
    drop(face);
    Ok(text)
}

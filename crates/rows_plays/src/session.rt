//! What a session does over memory: a run of calls, and a polled run.

use crate::answers::texts_of;
use crate::builder::RowBuilder;
use crate::encodings::Named;
use crate::memory::{boxed, ended, had};
use crate::play::Play;
use crate::requests::recorded;
use crate::transcript::RowState;
use ftp_runs::{Event, RunCalls, RunEvents};
use ftp_session::session::{Answer, Call, Counts, NoTlsConnector, Owed, Session, State};
use ftp_transport::{MemoryConn, MemoryTransport};
use rows_text::RowError;
use std::alloc::{AllocError, Global};

/// A session over memory whose encoding and builder a row may choose.
pub type NamedSession = Session<MemoryTransport, NoTlsConnector, Named, RowBuilder>;

/// A connection between the row's ends on which nothing came.
fn bare(alloc: Global, play: &Play) -> MemoryConn {
    let (local, peer) = play.setup.ends();
    MemoryConn::between(alloc, local, peer)
}

/// A connection that the server's bytes came on, and ended.
pub fn conn_of(alloc: Global, play: &Play) -> Result<MemoryConn, AllocError> {
    ended(bare(alloc, play), &play.input)
}

/// A session with the row's settings on the server's bytes, of which nothing was read.
pub fn unread(alloc: Global, play: &Play) -> Result<Box<NamedSession>, RowError> {
    session_on(alloc, conn_of(alloc, play)?, play)
}

/// A session with the row's settings.
fn session_on(alloc: Global, conn: MemoryConn, play: &Play) -> Result<Box<NamedSession>, RowError> {
    let transport = match play.setup.transport(alloc) {
        Ok(transport) => transport,
        Err(_) => {
            drop(conn);
            return Err(RowError::OutOfMemory);
        }
    };
    let session = Session::new(alloc, transport, conn);
    let mut session = boxed(alloc, had(session)?)?;
    play.setup.set(&mut session)?;
    Ok(session)
}

/// A session with the row's encoding.
pub fn encoded(
    alloc: Global,
    mut session: Box<NamedSession>,
    play: &Play,
) -> Result<Box<NamedSession>, RowError> {
    if let Some(encoding) = play.encoding {
        had(session.set_encoding(alloc, encoding))?;
    }
    Ok(session)
}

/// Where a run of these calls ends.
///
/// # Errors
/// `OutOfMemory`.
pub fn ran(alloc: Global, calls: &[Call], play: &Play) -> Result<RowState, RowError> {
    let mut session = encoded(alloc, unread(alloc, play)?, play)?;
    let answers = had(session.run(alloc, &(), calls))?;
    stands(alloc, &session, &answers)
}

/// Where these events lead to, in runs that begin at the row's places.
///
/// # Errors
/// `OutOfMemory`.
pub fn polled(alloc: Global, events: &[Event], play: &Play) -> Result<RowState, RowError> {
    let session = session_on(alloc, bare(alloc, play), play)?;
    let mut session = encoded(alloc, session, play)?;
    let answers = happened(alloc, &mut session, events, &play.runs)?;
    stands(alloc, &session, &answers)
}

/// The answers of these events, in runs that begin at these places.
fn happened(
    alloc: Global,
    session: &mut NamedSession,
    events: &[Event],
    places: &[usize],
) -> Result<Vec<Answer>, RowError> {
    let mut answers = Vec::new(alloc);
    let mut before = 0;
    for place in places {
        if let Some(run) = events.get(before..*place) {
            happen(alloc, session, run, &mut answers)?;
            before = *place;
        }
    }
    if let Some(run) = events.get(before..) {
        happen(alloc, session, run, &mut answers)?;
    }
    Ok(answers)
}

/// Lets these events happen in one run.
fn happen(
    alloc: Global,
    session: &mut NamedSession,
    events: &[Event],
    answers: &mut Vec<Answer>,
) -> Result<(), RowError> {
    let mut more = had(session.run_polled(alloc, events))?;
    Ok(answers.append(&mut more)?)
}

/// Where a session stands that returned these answers.
pub fn stands(
    alloc: Global,
    session: &NamedSession,
    answers: &[Answer],
) -> Result<RowState, RowError> {
    let conn = session.get_ref();
    Ok(RowState {
        asked: recorded(alloc, session.transport().requests())?,
        uploaded: uploaded(alloc, session.transport().uploaded())?,
        sent: Vec::from_slice(alloc, conn.sent())?,
        answers: texts_of(alloc, answers)?,
        taken: conn.received().saturating_sub(session.untaken()),
        failed: session.failed(),
        welcome: welcome(alloc, session.state())?,
        counts: counted(alloc, session.counts())?,
    })
}

/// How many transfers were opened, how many came to which end, and which is owed.
///
/// # Errors
/// `OutOfMemory`.
pub fn counted(alloc: Global, counts: &Counts) -> Result<String, AllocError> {
    let (opened, finished) = (counts.opened(), counts.finished());
    let (aborted, drained) = (counts.aborted(), counts.drained());
    let ends = format!(in alloc; "finished {finished}, aborted {aborted}, drained {drained}")?;
    match counts.owed() {
        Owed::Nothing => format!(in alloc; "opened {opened}, {ends}, nothing owed"),
        Owed::Live(number) => format!(in alloc; "opened {opened}, {ends}, {number} live"),
        Owed::Left(number) => format!(in alloc; "opened {opened}, {ends}, {number} left"),
    }
}

/// What the server greeted with.
///
/// # Errors
/// `OutOfMemory`.
pub fn welcome(alloc: Global, state: &State) -> Result<Option<String>, AllocError> {
    match &state.welcome {
        Some(welcome) => Ok(Some(String::from_str(alloc, welcome.text())?)),
        None => Ok(None),
    }
}

/// What was uploaded on these data connections, one after another.
pub fn uploaded(alloc: Global, conns: &[MemoryConn]) -> Result<Vec<Vec<u8>>, AllocError> {
    let mut uploaded = Vec::new(alloc);
    for conn in conns {
        uploaded.push(Vec::from_slice(alloc, conn.sent())?)?;
    }
    Ok(uploaded)
}

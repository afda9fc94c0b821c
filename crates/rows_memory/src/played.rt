//! What a row comes to: its calls made in turn by the blocking session's methods, or its events in one polled run.

use rows_plays::{Live, NamedSession, Play, Transfers, encoded, make, polled, texts_of, unread};
use rows_text::RowError;
use std::alloc::Global;
use std::mem;
use std::random::RandomSource;
use std::sync::Wait;

/// How many bytes a session has sent, and consumed.
#[derive(Clone, Copy, PartialEq, Eq)]
pub struct Traffic {
    pub sent: usize,
    pub taken: usize,
}

/// What a row came to.
#[derive(Drop)]
pub struct Came {
    /// The answers, as rows write them.
    pub answers: Vec<String>,
    /// What was sent and consumed before each call; nothing of a row of events.
    pub before: Vec<Traffic>,
    /// And after the last.
    pub end: Traffic,
    /// Whether the session has failed.
    pub failed: bool,
}

/// What a session has sent and consumed.
fn traffic_of(session: &NamedSession) -> Traffic {
    let conn = session.get_ref();
    Traffic {
        sent: conn.sent().len(),
        taken: conn.received().saturating_sub(session.untaken()),
    }
}

/// Makes the calls of a row one after another, but for the one at this place.
///
/// # Errors
/// `NotUnderstood`; `OutOfMemory` where an allocation failed that is no call's.
pub fn called<R>(rt: &R, play: &Play, but_for: Option<usize>) -> Result<Came, RowError>
where
    R: Wait + RandomSource + AllocGlobal,
{
    let alloc = rt.alloc();
    let mut session = encoded(alloc, unread(alloc, play)?, play)?;
    let mut transfers: Transfers<Live> = Transfers::new(alloc);
    let mut answers = Vec::with_capacity(alloc, play.calls.len())?;
    let mut before = Vec::with_capacity(alloc, play.calls.len())?;
    for (place, call) in play.calls.iter().enumerate() {
        if but_for != Some(place) {
            before.push(traffic_of(&session))?;
            let answer = make(rt, &mut session, &mut transfers, call)?;
            transfers.add(call, answer, &mut answers)?;
        }
    }
    Ok(Came {
        answers: texts_of(alloc, &answers)?,
        before,
        end: traffic_of(&session),
        failed: session.failed(),
    })
}

/// Lets the events of a row happen in one polled run.
///
/// # Errors
/// `OutOfMemory` where an allocation failed that is no call's.
pub fn happened(alloc: Global, play: &Play) -> Result<Came, RowError> {
    let mut state = polled(alloc, &play.events, play)?;
    let end = Traffic {
        sent: state.sent.len(),
        taken: state.taken,
    };
    let failed = state.failed;
    Ok(Came {
        answers: mem::replace(&mut state.answers, Vec::new(alloc)),
        before: Vec::new(alloc),
        end,
        failed,
    })
}

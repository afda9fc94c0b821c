//! Whether a row in which one allocation failed came to what is due.
//!
//! The call whose allocation failed returns `OutOfMemory`, or the failure of a connection over memory; earlier answers
//! are as without it. If its dialogue had begun, or the control connection itself failed, so has the session. Otherwise the
//! row goes on as one without that call.

use crate::played::{Came, Traffic, called};
use ftp_session::session::Call;
use rows_plays::Play;
use rows_text::RowError;
use std::alloc::{AllocError, Global};
use std::random::RandomSource;
use std::sync::Wait;

/// The error of an allocation that failed.
const OUT_OF_MEMORY: &str = "E13";

/// The failure of a connection over memory for which there was no room.
const CONNECTION_OUT_OF_MEMORY: &str = "E1 OutOfMemory";

/// What a row came to.
#[derive(Clone, Copy)]
pub enum Verdict {
    /// As without a failure: none was met.
    Whole,
    /// The session failed in a call that had begun, and sent and consumed nothing after it.
    Failed,
    /// A call returned the error, and the row went on as one without it.
    WentOn,
    /// The same of a row of events, which isn't compared with one without the call.
    WentOnPolled,
    /// None of these.
    Differs,
}

impl Verdict {
    /// Its words.
    pub fn text(self) -> &'static str {
        match self {
            Verdict::Whole => "whole",
            Verdict::Failed => "failed",
            Verdict::WentOn => "went on",
            Verdict::WentOnPolled => "went on, polled",
            Verdict::Differs => "DIFFERS",
        }
    }
}

/// The place of the first answer that isn't the one due.
fn first_other(came: &Came, due: &str) -> Option<usize> {
    let due = due
        .lines()
        .filter_map(|line| line.strip_prefix("A: "))
        .filter(|answer| *answer != "none");
    let mut answers = came.answers.iter();
    for (place, due) in due.enumerate() {
        match answers.next() {
            Some(answer) if answer.as_str() == due => {}
            _ => return Some(place),
        }
    }
    None
}

/// Whether an answer says that memory ran out.
fn ran_out(answer: Option<&String>) -> bool {
    match answer {
        Some(answer) => {
            let answer = answer.as_str();
            answer == OUT_OF_MEMORY || answer == CONNECTION_OUT_OF_MEMORY
        }
        None => false,
    }
}

/// Whether an answer is the error of the call's own allocation.
fn is_own(answer: Option<&String>) -> bool {
    match answer {
        Some(answer) => answer.as_str() == OUT_OF_MEMORY,
        None => false,
    }
}

/// Whether all answers after the one at a place are those of a session that has failed.
fn all_failed(answers: &[String], place: usize) -> bool {
    let mut later = answers.iter().skip(place.saturating_add(1));
    later.all(|answer| matches!(answer.as_str(), "E14" | "NoTransfer"))
}

/// What was sent and consumed before the call at a place.
fn traffic_at(came: &Came, place: usize) -> Traffic {
    came.before.get(place).copied().unwrap_or(came.end)
}

/// Judges a row of calls.
///
/// # Errors
/// `NotUnderstood`, `OutOfMemory`.
pub fn judge<R>(rt: &R, play: Box<Play>, came: &Came, due: &str) -> Result<Verdict, RowError>
where
    R: Wait + RandomSource + AllocGlobal,
{
    let Some(place) = first_other(came, due) else {
        return Ok(unless(came.failed, Verdict::Whole));
    };
    if !ran_out(came.answers.get(place)) {
        return Ok(Verdict::Differs);
    }
    if came.failed {
        return Ok(unless(!fails(came, place), Verdict::Failed));
    }
    let as_without = goes_on(rt, play, came, place)?;
    Ok(unless(!as_without, Verdict::WentOn))
}

/// A verdict, unless something differs.
fn unless(differs: bool, verdict: Verdict) -> Verdict {
    if differs { Verdict::Differs } else { verdict }
}

/// Whether the session failed as is due in the call at this place: it had sent or consumed a byte, or the connection itself
/// had failed; and nothing was sent or consumed after it.
fn fails(came: &Came, place: usize) -> bool {
    let from = traffic_at(came, place);
    let to = traffic_at(came, place.saturating_add(1));
    let has_begun = from != to || !is_own(came.answers.get(place));
    has_begun && to == came.end && all_failed(&came.answers, place)
}

/// Whether a row came to what it comes to without the call at this place. Of a call that sent nothing all bytes that it
/// consumed were the last reply of a transfer, which the next call reads where this one isn't made; what any other
/// consumed the server doesn't send then.
fn goes_on<R>(rt: &R, mut play: Box<Play>, came: &Came, place: usize) -> Result<bool, RowError>
where
    R: Wait + RandomSource + AllocGlobal,
{
    let from = traffic_at(came, place);
    let mut to = traffic_at(came, place.saturating_add(1));
    if from.sent == to.sent && is_own(came.answers.get(place)) {
        to = from;
    } else if is_own(came.answers.get(place)) && !is_whole(play.calls.get(place)) {
        return Ok(false);
    }
    play.input = without(rt.alloc(), &play.input, from.taken, to.taken)?;
    let other = called(rt, &play, Some(place))?;
    let sent = to.sent.saturating_sub(from.sent);
    let taken = to.taken.saturating_sub(from.taken);
    Ok(
        !other.failed
            && others_agree(came, place, &other)
            && came.end.sent == other.end.sent.saturating_add(sent)
            && came.end.taken == other.end.taken.saturating_add(taken),
    )
}

/// Whether all answers but the one at a place are these.
fn others_agree(came: &Came, place: usize, other: &Came) -> bool {
    let mut others = other.answers.iter();
    for (at, answer) in came.answers.iter().enumerate() {
        if at != place && others.next() != Some(answer) {
            return false;
        }
    }
    others.next().is_none()
}

/// Whether a whole file or listing goes over a call's data connection: the session goes on where there is no room for it.
fn is_whole(call: Option<&Call>) -> bool {
    matches!(
        call,
        Some(Call::Retr(_) | Call::List(_) | Call::Nlst(_) | Call::Mlsd(_))
    )
}

/// These bytes without those from one place to another.
fn without(alloc: Global, bytes: &[u8], from: usize, to: usize) -> Result<Vec<u8>, AllocError> {
    let mut left = Vec::from_slice(alloc, bytes.get(..from).unwrap_or(bytes))?;
    left.extend_from_slice(bytes.get(to..).unwrap_or(&[]))?;
    Ok(left)
}

/// Judges a row of events.
pub fn judge_events(came: &Came, due: &str) -> Verdict {
    let Some(place) = first_other(came, due) else {
        return unless(came.failed, Verdict::Whole);
    };
    if !ran_out(came.answers.get(place)) {
        return Verdict::Differs;
    }
    if came.failed {
        return unless(!all_failed(&came.answers, place), Verdict::Failed);
    }
    Verdict::WentOnPolled
}

//! Calls that are dropped in a list of events: whose reply the next call takes.

use crate::memory_scene::{MemorySession, session_on, transport_with};
use ftp_base::types::{Bytes, FtpError, FtpResult, Text};
use ftp_runs::{Event, RunCalls, RunEvents};
use ftp_session::session::{Answer, Call};
use ftp_transport::MemoryConn;
use std::alloc::Global;
use std::test::Fail;

/// A session on a connection of which nothing was read.
fn session(alloc: Global) -> FtpResult<Box<MemorySession>> {
    session_on(alloc, transport_with(alloc, b"")?, MemoryConn::new(alloc))
}

/// A text.
fn text(alloc: Global, of: &str) -> FtpResult<Text> {
    Ok(Text::from(String::from_str(alloc, of)?))
}

/// The server's bytes come.
fn feed(alloc: Global, bytes: &[u8]) -> FtpResult<Event> {
    Ok(Event::Feed(Bytes::from_slice(alloc, bytes)?))
}

/// `CWD` begins, and is polled.
fn begun(alloc: Global) -> FtpResult<Vec<Event>> {
    let mut events = Vec::new(alloc);
    events.push(Event::Start(Call::Cwd(text(alloc, "a")?)))?;
    events.push(Event::Poll)?;
    Ok(events)
}

/// A call begins, and is polled.
fn then(events: &mut Vec<Event>, call: Call) -> FtpResult<()> {
    events.push(Event::Start(call))?;
    events.push(Event::Poll)?;
    Ok(())
}

/// The status of an answer that is a reply of another status than was expected; 0 of one that is none, and 1 of one that
/// succeeded.
fn status_of(answer: &Answer) -> u32 {
    match answer {
        Answer::Fault(FtpError::UnexpectedResponse(reply)) => reply.status.code(),
        Answer::Unit => 1,
        _ => 0,
    }
}

/// How many answers there are, and the status of the first.
fn told(answers: &[Answer]) -> (usize, u32) {
    match answers.first() {
        Some(answer) => (answers.len(), status_of(answer)),
        None => (0, 0),
    }
}

/// A command is dropped whose line has gone out, and the next one is polled before and after its reply; then one more.
fn next_takes_its_own(alloc: Global) -> FtpResult<[(usize, u32); 2]> {
    let mut session = session(alloc)?;
    let mut events = begun(alloc)?;
    events.push(Event::Cancel)?;
    events.push(feed(alloc, b"250 a\r\n")?)?;
    then(&mut events, Call::Rm(text(alloc, "b")?))?;
    events.push(feed(alloc, b"550 b\r\n")?)?;
    events.push(Event::Poll)?;
    let first = told(&session.run_polled(alloc, &events)?);
    let mut later = Vec::new(alloc);
    later.push(feed(alloc, b"200 c\r\n")?)?;
    then(&mut later, Call::Noop)?;
    let second = told(&session.run_polled(alloc, &later)?);
    Ok([first, second])
}

/// A command is dropped whose line is half out: its tail goes out first, and its reply is read.
fn half_out(alloc: Global) -> FtpResult<((usize, u32), bool)> {
    let mut session = session(alloc)?;
    let mut events = Vec::new(alloc);
    events.push(Event::Room(3))?;
    then(&mut events, Call::Cwd(text(alloc, "a")?))?;
    events.push(Event::Cancel)?;
    events.push(Event::Room(100))?;
    then(&mut events, Call::Rm(text(alloc, "b")?))?;
    events.push(feed(alloc, b"250 a\r\n550 b\r\n")?)?;
    events.push(Event::Poll)?;
    let came = told(&session.run_polled(alloc, &events)?);
    Ok((
        came,
        session.get_ref().sent() == b"CWD a\r\nDELE b\r\n".as_slice(),
    ))
}

/// A list ends where a command waits: the first call of the next list is in step.
fn at_the_end(alloc: Global) -> FtpResult<[(usize, u32); 2]> {
    let mut session = session(alloc)?;
    let first = told(&session.run_polled(alloc, &begun(alloc)?)?);
    let mut later = Vec::new(alloc);
    later.push(feed(alloc, b"250 a\r\n550 b\r\n")?)?;
    then(&mut later, Call::Rm(text(alloc, "b")?))?;
    let second = told(&session.run_polled(alloc, &later)?);
    Ok([first, second])
}

/// A list of calls after a list of events that ended where a command waits: how many answers there are, the statuses of the
/// first and the last, and how many bytes were read.
fn list_of_calls(alloc: Global) -> FtpResult<((usize, u32), u32, usize)> {
    let mut session = session(alloc)?;
    drop(session.run_polled(alloc, &begun(alloc)?)?);
    let mut replies = Vec::new(alloc);
    replies.push(feed(alloc, b"250 a\r\n550 b\r\n200 c\r\n")?)?;
    drop(session.run_polled(alloc, &replies)?);
    let calls = [Call::Rm(text(alloc, "b")?), Call::Noop];
    let answers = session.run(alloc, &(), &calls)?;
    let last = match answers.last() {
        Some(answer) => status_of(answer),
        None => 0,
    };
    Ok((told(&answers), last, session.get_ref().received()))
}

#[test]
fn a_list_of_calls_reads_what_is_due_first(rt: HostRuntime) -> Result<(), Fail> {
    let came = list_of_calls(rt.alloc())?;
    assert_eq!(rt; came, ((2, 550), 1, 21));
    Ok(())
}

#[test]
fn a_call_takes_its_own_reply_after_one_that_was_dropped(rt: HostRuntime) -> Result<(), Fail> {
    let came = next_takes_its_own(rt.alloc())?;
    assert_eq!(rt; came, [(1, 550), (1, 1)]);
    Ok(())
}

#[test]
fn a_line_that_is_half_out_goes_out_first(rt: HostRuntime) -> Result<(), Fail> {
    let came = half_out(rt.alloc())?;
    assert_eq!(rt; came, ((1, 550), true));
    Ok(())
}

#[test]
fn the_next_list_is_in_step(rt: HostRuntime) -> Result<(), Fail> {
    let came = at_the_end(rt.alloc())?;
    assert_eq!(rt; came, [(0, 0), (1, 550)]);
    Ok(())
}

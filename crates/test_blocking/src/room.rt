//! Blocking calls for whose lines there is little room, and what a session was set to.

use crate::scene::{boxed, conn_with, greeted};
use ftp_base::types::{ConnectionError, FtpError, FtpResult};
use ftp_session::session::Session;
use ftp_transport::{MemoryConn, MemoryTransport};
use std::alloc::Global;
use std::io::ErrorKind;
use std::test::Fail;
use std::time::Duration;

/// Two answers, how many bytes were sent, and how many were received.
type Came = (&'static str, &'static str, usize, usize);

/// An answer in a word or two.
fn word(answer: FtpResult<()>) -> &'static str {
    let word = match &answer {
        Ok(()) => "ok",
        Err(FtpError::ConnectionError(ConnectionError::Io(ErrorKind::WouldBlock))) => "would block",
        Err(FtpError::SessionFailed) => "failed",
        Err(_) => "fails",
    };
    drop(answer);
    word
}

/// A server's connection, on which so many bytes may be written.
fn narrow(alloc: Global, room: u64) -> FtpResult<MemoryConn> {
    let mut conn = conn_with(alloc, b"220 r\r\n200 ok\r\n")?;
    conn.allow(room);
    Ok(conn)
}

/// Two commands of a session that blocks, with room for so many bytes.
fn two_commands(alloc: Global, room: u64) -> FtpResult<Came> {
    let conn = narrow(alloc, room)?;
    let mut session = greeted(alloc, MemoryTransport::new(alloc), conn)?;
    let (first, second) = (word(session.noop(alloc)), word(session.noop(alloc)));
    let conn = session.get_ref();
    let taken = conn.received().saturating_sub(session.untaken());
    Ok((first, second, conn.sent().len(), taken))
}

#[test]
fn a_blocking_write_without_room_fails_the_session(rt: HostRuntime) -> Result<(), Fail> {
    let none = two_commands(rt.alloc(), 0)?;
    let two = two_commands(rt.alloc(), 2)?;
    let six = two_commands(rt.alloc(), 6)?;
    let due = [
        ("would block", "failed", 0, 7),
        ("would block", "failed", 2, 7),
        ("ok", "would block", 6, 15),
    ];
    assert_eq!(rt; [none, two, six], due);
    Ok(())
}

/// How long a session waits for an active data connection, and at which offset its next transfer begins.
fn set_to(session: &Session<MemoryTransport>) -> (Duration, u64) {
    let settings = &session.state().settings;
    (settings.active_deadline, settings.restart_offset)
}

#[test]
fn a_session_waits_a_minute_for_its_peer_or_as_long_as_it_is_set_to(
    rt: HostRuntime,
) -> Result<(), Fail> {
    let alloc = rt.alloc();
    let session: Session<MemoryTransport> = Session::new(
        alloc,
        MemoryTransport::new(alloc),
        MemoryConn::new(alloc),
    )?;
    let session = boxed(alloc, session)?;
    let before = set_to(&session);
    let active = Box::into_inner(session).active_mode(Duration::from_secs(5));
    let mut session = boxed(alloc, active)?;
    session.resume_transfer(alloc, 7)?;
    let after = set_to(&session);
    drop(session);
    let due = ((Duration::from_secs(60), 0), (Duration::from_secs(5), 7));
    assert_eq!(rt; (before, after), due);
    Ok(())
}

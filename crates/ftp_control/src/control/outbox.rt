//! The line that goes out, as far as it hasn't yet.
//!
//! A connection may accept a part of what is written. The line stays whole here, with how much of it went out, so that
//! sending resumes at that byte after a wait, and after a call that was dropped.

ghost use Rattle.std.specs.Prelude.{◌≡◌, ◌≤◌, IfErr, Ok, length, drop};
ghost use Rattle.futures.specs.declared.task.Poll.TheVariants as poll;
ghost use Rattle.ftp_control.specs.Sending.{Flushes};
ghost use Rattle.ftp_transport.specs.Told.{before_fault};

use ftp_transport::PollConn;
use futures::task::Poll;
use std::io::ErrorKind;

/// The last line, and how many of its bytes went out.
pub(crate) struct Outbox {
    pub(crate) line: Vec<u8>,
    pub(crate) sent: usize,
}

impl Drop for Outbox {
    fn drop(self) {
        let Self { line, sent: _ } = self;
        drop(line);
    }
}

/// Sends what is unsent, as far as there is room. `Pending` says that the connection waits for room.
///
/// # Errors
/// An error of the connection, whose bytes stay unsent.
pub(crate) fn flush<W, C: PollConn<W>>(
    conn: &mut C,
    outbox: &mut Outbox,
    w: &mut W,
) -> Result<Poll<()>, ErrorKind>
    requires { outbox.old.sent ≤ length outbox.old.line.items }
    ensures within { outbox.new.sent ≤ length outbox.new.line.items }
    ensures waits { result ≡ Ok poll.Pending → C.may_wait }
    ensures fault { C.Tells.tells → IfErr result (λ kind.
        C.write_faults (before_fault (C.Tells.told conn.old) (C.Tells.told conn.new)) kind) }
    ensures flushed { Flushes C.Tells.tells (drop outbox.old.sent outbox.old.line.items)
        (drop outbox.new.sent outbox.new.line.items) (C.Tells.told conn.old)
        (C.Tells.told conn.new) result }
{
    while outbox.sent < outbox.line.as_slice().len() {
        match conn.poll_write(w, unsent(outbox)) {
            Ok(Poll::Ready(count)) => outbox.sent += count,
            Ok(Poll::Pending) => return Ok(Poll::Pending),
            Err(kind) => return Err(kind),
        }
    }
    Ok(Poll::Ready(()))
}

/// What hasn't gone out.
pub(crate) fn unsent(outbox: &Outbox) -> &[u8]
    requires { outbox.now.sent ≤ length outbox.now.line.items }
    ensures { result.now ≡ drop outbox.now.sent outbox.now.line.items }
{
    &outbox.line.as_slice()[outbox.sent..]
}

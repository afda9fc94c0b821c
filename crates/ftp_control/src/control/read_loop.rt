//! The read loop: one for replies and single lines, and for every way to wait.
//!
//! What lies ahead is looked at piece by piece, each up to an LF, and the piece that settles what is sought is the last that
//! is consumed: what belongs to the next reply stays ahead. The connection is read only where nothing lies ahead.

ghost use Rattle.std.specs.Prelude.{◌≡◌, ◌≤◌, Ok, [], length, true};
ghost use Rattle.ftp_control.specs.declared.control.outcome.Outcome.TheVariants as outcomes;
ghost use Rattle.ftp_control.specs.Inside.UnderWay.{IsUnderWay};
ghost use Rattle.ftp_control.specs.Inside.ReadLoop.{CanSeek, ReadsSought, Takes, says_of};
ghost use Rattle.ftp_transport.specs.Told.{EndsAsTold};
ghost use Rattle.ftp_transport.specs.Memory.{IsGiven};
ghost use Rattle.ftp_control.specs.Reading.{MayBreak};

use super::ahead::{ReadAhead, piece_len};
use super::reply_buffer::{REPLY_LIMIT, ReplyBuffer, count};
use super::sought::Sought;
use super::{Broken, Outcome, ReplyRule};
use ftp_transport::PollConn;
use futures::task::Poll;
use std::alloc::Global;

/// Reads what is sought as far as it has come. Returns `Waits` where the connection waits.
///
/// # Errors
/// An error of the connection; out of memory for what comes next, which then stays ahead. What was read is kept.
pub(crate) fn read_sought<W, C: PollConn<W>>(
    alloc: Global,
    conn: &mut C,
    ahead: &mut ReadAhead,
    reply: &mut ReplyBuffer,
    ended: &mut bool,
    rule: ReplyRule,
    sought: Sought,
    w: &mut W,
) -> Result<Outcome, Broken>
    requires under_way { IsUnderWay rule reply.old.bytes.items reply.old.line_start reply.old.phase }
    requires can_seek { CanSeek sought reply.old.bytes.items }
    requires known { C.Tells.tells → (C.Tells.told conn.old).ended ≡ ended.old }
    requires over { ended.old ≡ true → ahead.old ≡ [] }
    requires bound { length ahead.old ≤ 8192 }
    ensures under_way { IsUnderWay rule reply.new.bytes.items reply.new.line_start reply.new.phase }
    ensures known { C.Tells.tells → (C.Tells.told conn.new).ended ≡ ended.new }
    ensures bound { length ahead.new ≤ 8192 }
    ensures waits { result ≡ Ok outcomes.Waits → C.may_wait }
    ensures end { C.Tells.tells → C.may_wait →
        EndsAsTold ended.old ended.new (C.Tells.told conn.old) }
    ensures fault { MayBreak C.read_faults result }
    ensures given { C.Tells.tells → IsGiven (C.Tells.told conn.old) →
        IsGiven (C.Tells.told conn.new) }
    ensures heard { ReadsSought C.Tells.tells (says_of rule sought) reply.old.bytes.items
        reply.new.bytes.items ahead.old ahead.new ended.old ended.new (C.Tells.told conn.old)
        (C.Tells.told conn.new) result }
{
    while !*ended {
        match look(alloc, ahead, reply, rule, sought) {
            Ok(Outcome::Waits) => {}
            other => return other,
        }
        match ahead.fill(conn, w) {
            Ok(Poll::Ready(any)) => *ended = !any,
            Ok(Poll::Pending) => return Ok(Outcome::Waits),
            Err(kind) => return Err(Broken::Connection(kind)),
        }
    }
    Ok(sought.take_end(alloc, reply, rule))
}

/// Looks at what lies ahead, until it settles what is sought or none is left, and consumes what was looked at.
///
/// # Errors
/// Out of memory for the next piece, which stays ahead.
fn look(
    alloc: Global,
    ahead: &mut ReadAhead,
    reply: &mut ReplyBuffer,
    rule: ReplyRule,
    sought: Sought,
) -> Result<Outcome, Broken>
    requires under_way { IsUnderWay rule reply.old.bytes.items reply.old.line_start reply.old.phase }
    requires can_seek { CanSeek sought reply.old.bytes.items }
    ensures under_way { IsUnderWay rule reply.new.bytes.items reply.new.line_start reply.new.phase }
    ensures can_seek { CanSeek sought reply.new.bytes.items }
    ensures fault { MayBreak (λ _. ⊥) result }
    ensures takes { Takes (says_of rule sought) reply.old.bytes.items reply.new.bytes.items
        ahead.old
        ahead.new result }
{
    while !ahead.bytes().is_empty() {
        let most = REPLY_LIMIT + 1 - count(reply);
        let next = piece_len(ahead.bytes(), most);
        if reply.bytes.reserve(next).is_err() {
            return Err(Broken::OutOfMemory);
        }
        let outcome = sought.take_piece(alloc, reply, rule, &ahead.bytes()[..next]);
        ahead.consume(next);
        match outcome {
            Outcome::Waits => {}
            heard => return Ok(heard),
        }
    }
    Ok(Outcome::Waits)
}

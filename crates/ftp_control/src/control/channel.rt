//! The control channel: a connection, the bytes of the reply under way, and the line that goes out.
//!
//! How it works: received bytes lie ahead until a read looks at them. Those of the reply under way are moved, line by
//! line, into one buffer, which holds a part of a reply and nothing after it. A read that is settled empties the
//! buffer, and what came after the reply stays ahead; one that waits leaves the buffer, so that the next read resumes
//! there, whoever makes it. A line is moved into the outbox whole before its first byte is written; what isn't sent of
//! it goes out before anything else. So a call that is dropped in the middle leaves at most a part of a reply to be
//! read on, and a part of a line to be sent on, and never a byte that belongs to something else.
//!
//! An error of the connection, an input that ended or a reply that is too large fails the channel for good: it reads
//! and sends nothing from then on.

ghost use Rattle.std.specs.Prelude.{◌≡◌, ◌||◌, Ok, [], false, true};
ghost use Rattle.futures.specs.declared.task.Poll.TheVariants as poll;
ghost use Rattle.ftp_control.specs.declared.control.outcome.Outcome.TheVariants as outcomes;
ghost use Rattle.ftp_control.specs.Channel.{fails_by};

use super::ahead::ReadAhead;
use super::lenient::Phase;
use super::outbox::{Outbox, flush};
use super::read_loop::read_sought;
use super::reply_buffer::ReplyBuffer;
use super::sought::Sought;
use super::{Broken, Outcome, ReplyForm, ReplyRule, WireLine};
use ftp_transport::{PollConn, Tells};
use futures::task::Poll;
use std::alloc::{AllocError, Global};
use std::io::ErrorKind;
use std::marker::Model;
use std::mem;

/// A control connection: it delivers replies whole and in order, and sends nothing but whole command lines.
///
/// A read or a write that has to wait may be dropped: what was read is kept for the next read, and the unsent
/// tail of a line goes out before any other byte.
pub struct ControlChannel<C: Tells + Drop> {
    pub(super) conn: C,
    pub(super) ahead: ReadAhead,
    pub(super) reply: ReplyBuffer,
    pub(super) outbox: Outbox,
    pub(super) ended: bool,
    pub(super) failed: bool,
    pub(super) rule: ReplyRule,
}

impl<C: Tells + Drop> Drop for ControlChannel<C> {
    fn drop(self) {
        let Self {
            conn,
            ahead,
            reply,
            outbox,
            ended: _,
            failed: _,
            rule: _,
        } = self;
        drop(conn);
        drop(ahead);
        drop(reply);
        drop(outbox);
    }
}

impl<C: Tells + Drop> Model for ControlChannel<C> {
    ghost use Rattle.std.specs.Prelude.{◌≡◌, [], length, drop};
    ghost use Rattle.ftp_control.specs.Channel.{Channel, IsSound};
    ghost use Rattle.ftp_control.specs.Inside.Held.{Holds};

    ghost Value = { Channel };

    ghost view = { λ c. record {
      told = C.told c.conn;
      kept = c.reply.bytes.items;
      ahead = c.ahead;
      unsent = drop c.outbox.sent c.outbox.line.items;
      ended = c.ended;
      failed = c.failed;
      rule = c.rule;
    } };

    ghost invariant = { λ c. Holds C.tells (C.told c.conn) c.reply.bytes.items c.reply.line_start
        c.reply.phase
        c.ahead c.outbox.line.items c.outbox.sent c.ended c.failed c.rule };
}

impl<C: Tells + Drop> ControlChannel<C> {
    ghost use Rattle.std.specs.Prelude.{◌<◌, IfErr, IfOk, length};
    ghost use Rattle.ftp_transport.specs.Memory.{IsGiven};
    ghost use Rattle.ftp_control.specs.Reading.{MayBreak};
    ghost use Rattle.ftp_transport.specs.Told.{EndsAsTold, before_fault, begun};
    ghost use Rattle.ftp_control.specs.Channel.{Channel, IsIdle, IsSound, ReadsReply, FlushesTail, rule_left, untaken};

    /// Reads a reply of this form as far as it has come, and consumes exactly its bytes. Returns `Waits` where the connection
    /// waits.
    ///
    /// # Errors
    /// An error of the connection, after which the channel has failed, or out of memory. Neither loses a byte.
    pub(crate) fn poll_outcome<W>(
        &mut self,
        alloc: Global,
        form: ReplyForm,
        w: &mut W,
    ) -> Result<Outcome, Broken>
    where
        C: PollConn<W>,
        ensures waits { result ≡ Ok outcomes.Waits → C.may_wait }
        ensures end { C.Tells.tells → C.may_wait →
            EndsAsTold self.old.ended self.new.ended self.old.told }
        ensures fault { MayBreak C.read_faults result }
        ensures given { C.Tells.tells → IsGiven self.old.told → IsGiven self.new.told }
        ensures reads { ReadsReply C.Tells.tells form self.old self.new result }
    {
        let result = read_sought(
            alloc,
            &mut self.conn,
            &mut self.ahead,
            &mut self.reply,
            &mut self.ended,
            self.rule,
            Sought::Reply(form),
            w,
        );
        self.failed = fails(self.failed, &result);
        result
    }

    /// A channel on a connection, which reads replies by this rule: nothing is read, nothing is sent.
    ///
    /// # Errors
    /// There is no memory for the buffer of received bytes. The connection is closed.
    pub fn new(alloc: Global, mut conn: C, rule: ReplyRule) -> Result<ControlChannel<C>, AllocError>
        ensures rule { IfOk result (λ channel. channel.rule ≡ rule) }
        ensures begins { IfOk result (λ channel. C.tells → channel.told ≡ begun (C.told conn)) }
        ensures idle { IfOk result (λ channel. IsIdle channel) }
        ensures sound { IfOk result (λ channel. IsSound C.tells channel) }
    {
        let ahead = ReadAhead::new(alloc)?;
        conn.begin();
        Ok(ControlChannel {
            conn,
            ahead,
            reply: ReplyBuffer {
                bytes: Vec::new(alloc),
                line_start: 0,
                phase: Phase::InReply,
            },
            outbox: Outbox {
                line: Vec::new(alloc),
                sent: 0,
            },
            ended: false,
            failed: false,
            rule,
        })
    }

    /// Begins anew on another connection, and returns the one of before (RFC 2228, section 3): what is kept, ahead or
    /// unsent is dropped, so that no byte of before is part of a reply. The rule of replies stays.
    pub fn replace(&mut self, conn: C) -> C
        ensures before { C.told result ≡ self.old.told }
        ensures begins { C.tells → self.new.told ≡ begun (C.told conn) }
        ensures rule { self.new.rule ≡ self.old.rule }
        ensures idle { IsIdle self.new }
        ensures sound { IsSound C.tells self.new }
    {
        let before = mem::replace(&mut self.conn, conn);
        self.conn.begin();
        self.ahead.clear();
        self.reply.bytes.clear();
        self.reply.line_start = 0;
        self.reply.phase = Phase::InReply;
        self.outbox.line.clear();
        self.outbox.sent = 0;
        self.ended = false;
        self.failed = false;
        before
    }

    /// Whether the channel has failed, by a read, a write or the server. A failed channel sends and reads nothing.
    pub fn failed(&self) -> bool
        ensures value { result ≡ self.now.failed }
        ensures sound { IsSound C.tells self.now }
    {
        self.failed
    }

    /// Chooses the rule of the next reply, where nothing of one was read. A reply that was read in part is read on by
    /// the rule by which it began, and this call changes nothing then.
    pub fn set_rule(&mut self, rule: ReplyRule)
        ensures under_way { self.new ≡ record self.old {
          rule = rule_left self.old.kept
              self.old.rule rule;
        } }
        ensures sound { IsSound C.tells self.new }
    {
        if self.reply.bytes.is_empty() {
            self.rule = rule;
        }
    }

    /// From now on the channel has failed, as after an error in the middle of a dialogue.
    pub fn fail(&mut self)
        ensures { self.new ≡ record self.old { failed = true } }
    {
        self.failed = true;
    }

    /// How many received bytes no reply has consumed.
    pub fn untaken(&self) -> usize
        ensures value { result ≡ length (untaken self.now) }
        ensures sound { IsSound C.tells self.now }
    {
        self.reply.bytes.as_slice().len() + self.ahead.bytes().len()
    }

    /// The connection.
    pub fn get_ref(&self) -> &C
        ensures { C.told result.now ≡ self.now.told }
    {
        &self.conn
    }

    /// Returns the connection. What is kept, ahead or unsent is dropped.
    pub fn into_inner(self) -> C
        ensures { C.told result ≡ self.told }
    {
        let ControlChannel {
            conn,
            ahead: _,
            reply: _,
            outbox: _,
            ended: _,
            failed: _,
            rule: _,
        } = self;
        conn
    }

    /// Sends the unsent tail of a line.
    ///
    /// # Errors
    /// An error of the connection, after which the channel has failed.
    pub(crate) fn poll_flush<W>(&mut self, w: &mut W) -> Result<Poll<()>, ErrorKind>
    where
        C: PollConn<W>,
        ensures waits { result ≡ Ok poll.Pending → C.may_wait }
        ensures fault { C.Tells.tells → IfErr result (λ kind.
            C.write_faults (before_fault self.old.told self.new.told) kind) }
        ensures flushes { FlushesTail C.Tells.tells self.old self.new result }
    {
        let result = flush(&mut self.conn, &mut self.outbox, w);
        self.failed = self.failed || result.is_err();
        result
    }

    /// Queues a whole line, to go out.
    pub(crate) fn push(&mut self, line: WireLine)
        requires { self.old.unsent ≡ [] }
        ensures taken { self.new ≡ record self.old { unsent = line } }
        ensures some { 0 < length line }
    {
        self.outbox = Outbox {
            line: line.into_vec(),
            sent: 0,
        };
    }
}

/// Whether a channel has failed after a read.
pub(super) fn fails(failed: bool, heard: &Result<Outcome, Broken>) -> bool
    ensures { result ≡ (failed || fails_by heard.now) }
{
    match heard {
        Ok(Outcome::TooLarge) => true,
        Ok(Outcome::Ended) => true,
        Ok(Outcome::Whole(_, _)) => failed,
        Ok(Outcome::Bad(_)) => failed,
        Ok(Outcome::Waits) => failed,
        Err(Broken::Connection(_)) => true,
        Err(Broken::OutOfMemory) => failed,
    }
}

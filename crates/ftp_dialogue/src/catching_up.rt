//! Replies that are due to commands that were dropped (RFC 959, sections 4.2 and 5.4).
//!
//! A server answers its commands in their order, so that such replies come before those of a later call. They are read
//! before that sends or receives anything of its own, after the unsent tail of the line that was begun last, without
//! which the server would answer nothing. Each is counted as it is read, so a read of them that waits may be dropped,
//! and resumes with the next call.

ghost use Rattle.std.specs.Prelude.{◌≡◌, ◌⊎◌, true, false};
ghost use Rattle.futures.specs.declared.task.Poll.TheVariants as poll;
ghost use Rattle.ftp_calls.specs.Exchanges.{drains, is_local, negotiates, of_transfer};
ghost use Rattle.ftp_dialogue.specs.CatchingUp.{CatchesUp, Flushes, InStepIf, PollsReadInStep, ReadsDue, TellsFault, fault_told, reads_dropped_first, is_caught_up, has_dropped_replies, is_plain_read, told_of_line};
ghost use Rattle.ftp_dialogue.specs.Coding.{coding_of};
ghost use Rattle.ftp_dialogue.specs.Dialogue.{expecting};
ghost use Rattle.ftp_dialogue.specs.Link.{asking, blocking, polling};
ghost use Rattle.ftp_dialogue.specs.Promises.{GivesFault};
ghost use Rattle.ftp_dialogue.specs.Reading.{drain_told};
ghost use Rattle.ftp_dialogue.specs.Sound.{none_left};
ghost use Rattle.ftp_dialogue.specs.Steps.Moving.{MadeDrained};
ghost use Rattle.ftp_dialogue.specs.Steps.Stages.{MayAnswer};
ghost use Rattle.ftp_dialogue.specs.Unanswered.{most_commands};

use super::data_path::{DataPath, NoData};
use super::draining::drained;
use super::machine::Machine;
use super::{Answer, Call, Owed};
use ftp_base::encoding::Encoding;
use ftp_base::status::Status;
use ftp_base::types::{FtpError, FtpResult, Response};
use ftp_calls::exchange::{drains, drains_first, is_read, negotiates, resyncs};
use ftp_transport::{Conn, Network, NeverWaits, PollConn};
use futures::task::Poll;
use std::alloc::Global;

impl<Tr: Network> Machine<Tr> {
    /// Whether replies are due to commands that were dropped, which a call reads first. That is so of each that goes over the
    /// control connection, but of those that bring a transfer to its end, and of those that would open one beside a live one.
    pub fn reads_dropped_first(&self, call: &Call) -> bool
        ensures { result ≡ reads_dropped_first call.now self.now }
    {
        if self.channel.failed() || self.state.unanswered == 0 {
            return false;
        }
        let live = matches!(self.state.counts.owed(), Owed::Live(_));
        (drains_first(call) || drains(call)) && !(live && (negotiates(call) || resyncs(call)))
    }

    /// Polls the replies that are due to commands that were dropped, after the unsent tail of a line; before a plain
    /// read the last reply of a transfer that was left alone. One that waits may be dropped, and polled again. An error in
    /// place of a reply is returned, and counted where it is one that can't be read.
    pub fn poll_dropped_replies<W>(
        &mut self,
        alloc: Global,
        call: &Call,
        w: &mut W,
    ) -> Poll<Option<FtpError>>
    where
        Tr::Conn: PollConn<W>,
        requires going { self.old.channel.failed ≡ false }
        ensures waits { result ≡ poll.Pending → Tr.Conn.may_wait }
        ensures catches_up { CatchesUp (polling Tr.Conn.PollConn) (is_plain_read call.now) self.old
            self.new result }
    {
        self.poll_dropped(alloc, is_read(call) && !drains(call), w)
    }

    /// Polls the replies that are due, after the unsent tail of a line; those before a plain read, or all.
    fn poll_dropped<W>(&mut self, alloc: Global, plain: bool, w: &mut W) -> Poll<Option<FtpError>>
    where
        Tr::Conn: PollConn<W>,
        requires going { self.old.channel.failed ≡ false }
        ensures waits { result ≡ poll.Pending → Tr.Conn.may_wait }
        ensures fails { self.new.channel.failed ≡ true →
            (self.old.channel.failed ≡ true) ⊎ TellsFault result }
        ensures catches_up { CatchesUp (polling Tr.Conn.PollConn) plain self.old self.new result }
    {
        match self.poll_flush(w) {
            Poll::Ready(None) => {}
            other => return other,
        }
        self.poll_due(alloc, plain, w)
    }

    /// Makes a call in step: after the replies that are due to commands that were dropped, where it reads them first.
    /// An error of such a read is returned, and the call isn't made; else the answer is that of `call`.
    pub fn call_in_step<E: Encoding, A: DataPath<Tr, NeverWaits>>(
        &mut self,
        data_path: &A,
        alloc: Global,
        encoding: &E,
        call: &Call,
    ) -> Answer
    where
        Tr::Conn: Conn,
        requires may { negotiates call.now ≡ true → A.may_ask }
        requires channel { is_local call.now ≡ false }
        requires blocks { A.may_wait → ⊥ }
        requires unheld { of_transfer call.now ≡ false }
        ensures answers { MayAnswer call.now result }
        ensures made { InStepIf (reads_dropped_first call.now self.old) (blocking Tr.Conn.Conn) (is_plain_read
            call.now) (drains call.now)
            (MadeDrained (asking (A.builds data_path.now) A.may_wait (blocking Tr.Conn.Conn)) (coding_of
            E.decoded E.encoded encoding.now) call.now)
            self.old self.new result }
    {
        if self.reads_dropped_first(call) {
            match self.poll_dropped_replies(alloc, call, &mut NeverWaits) {
                Poll::Ready(None) => {}
                Poll::Ready(Some(fault)) => return Answer::Fault(fault),
                Poll::Pending => unreachable!(),
            }
        }
        self.call(data_path, alloc, encoding, call)
    }

    /// Reads the last reply of a transfer that was left, and those that are due to commands that were dropped: where some are,
    /// it is among them.
    pub fn settle<E: Encoding>(&mut self, alloc: Global, encoding: &E) -> FtpResult<()>
    where
        Tr::Conn: Conn,
        requires left { none_left self.old.state.counts.owed ≡ false }
        ensures made { InStepIf (reads_dropped_first Call.Drain self.old) (blocking Tr.Conn.Conn) false true
            (MadeDrained (blocking Tr.Conn.Conn) (coding_of E.decoded E.encoded encoding.now)
            Call.Drain)
            self.old self.new (drain_told result) }
    {
        if self.reads_dropped_first(&Call::Drain) {
            return match self.poll_dropped_replies(alloc, &Call::Drain, &mut NeverWaits) {
                Poll::Ready(None) => Ok(()),
                Poll::Ready(Some(fault)) => Err(fault),
                Poll::Pending => unreachable!(),
            };
        }
        drained(self.call_alone(&NoData, alloc, encoding, &Call::Drain))
    }

    /// Polls a read of one reply whose status is among the expected. Where replies are due to commands that were
    /// dropped the unsent tail of a line goes out first, and the reply is one of them. The last reply of a transfer
    /// that was left is polled before it, which a preliminary reply is not where others are due: while that hasn't come whole the read waits, and what came of it is kept; an
    /// error of its read is returned; once it is over the read itself is polled at once. A read that waits may be
    /// dropped and polled again.
    ///
    /// Returns what a read of one reply does; `SessionFailed` on a session that has failed, and nothing changes.
    pub fn poll_read<W, E: Encoding>(
        &mut self,
        alloc: Global,
        encoding: &E,
        expected: &[Status],
        w: &mut W,
    ) -> Poll<FtpResult<Response>>
    where
        Tr::Conn: PollConn<W>,
        ensures waits { result ≡ poll.Pending → Tr.Conn.may_wait }
        ensures fails { self.new.channel.failed ≡ true →
            (self.old.channel.failed ≡ true) ⊎ GivesFault result }
        ensures reads { PollsReadInStep (polling Tr.Conn.PollConn) (coding_of E.decoded E.encoded
            encoding.now) (expecting expected.now)
            self.old self.new result }
    {
        if self.has_dropped_replies() {
            match self.poll_dropped(alloc, true, w) {
                Poll::Ready(None) => {}
                Poll::Ready(Some(fault)) => return Poll::Ready(Err(fault)),
                Poll::Pending => return Poll::Pending,
            }
        }
        self.poll_read_drained(alloc, encoding, expected, w)
    }

    /// Whether replies are due to commands that were dropped, in a session that goes on.
    fn has_dropped_replies(&self) -> bool
        ensures { result ≡ has_dropped_replies self.now }
    {
        !self.channel.failed() && self.state.unanswered > 0
    }

    /// The unsent tail of the line that was begun last goes out.
    fn poll_flush<W>(&mut self, w: &mut W) -> Poll<Option<FtpError>>
    where
        Tr::Conn: PollConn<W>,
        requires going { self.old.channel.failed ≡ false }
        ensures waits { result ≡ poll.Pending → Tr.Conn.may_wait }
        ensures fails { self.new.channel.failed ≡ true →
            (self.old.channel.failed ≡ true) ⊎ TellsFault result }
        ensures flushes { Flushes (polling Tr.Conn.PollConn) self.old self.new result }
    {
        told_of_line(self.channel.poll_perform(&mut None, w))
    }

    /// Whether none is due any more, before a plain read the last reply of a transfer that was left.
    fn is_caught_up(&self, plain: bool) -> bool
        ensures { result ≡ is_caught_up plain self.now.state }
    {
        if plain {
            !matches!(self.state.counts.owed(), Owed::Left(_))
        } else {
            self.state.unanswered == 0
        }
    }

    /// Reads one reply after another, as long as some are due.
    fn poll_due<W>(&mut self, alloc: Global, plain: bool, w: &mut W) -> Poll<Option<FtpError>>
    where
        Tr::Conn: PollConn<W>,
        ensures waits { result ≡ poll.Pending → Tr.Conn.may_wait }
        ensures fails { self.new.channel.failed ≡ true →
            (self.old.channel.failed ≡ true) ⊎ TellsFault result }
        ensures reads { ReadsDue plain most_commands (polling Tr.Conn.PollConn) self.old self.new
            result }
    {
        let mut left = u64::MAX;
        'due: while left > 0 {
            if self.is_caught_up(plain) {
                return Poll::Ready(None);
            }
            match self.poll_read_alone(alloc, &[], w) {
                Poll::Ready(heard) => {
                    if let Some(fault) = fault_told(heard) {
                        return Poll::Ready(Some(fault));
                    }
                }
                Poll::Pending => return Poll::Pending,
            }
            left -= 1;
        }
        Poll::Ready(Some(FtpError::BadResponse))
    }
}

/// A line went out, or is waited for, or this is why it can't.
fn told_of_line(performed: Poll<FtpResult<()>>) -> Poll<Option<FtpError>>
    ensures { result ≡ told_of_line performed }
{
    match performed {
        Poll::Ready(Ok(())) => Poll::Ready(None),
        Poll::Ready(Err(fault)) => Poll::Ready(Some(fault)),
        Poll::Pending => Poll::Pending,
    }
}

/// A reply of any status is passed over, and an error in its place is returned.
fn fault_told(heard: FtpResult<Response>) -> Option<FtpError>
    ensures { result ≡ fault_told heard }
{
    match heard {
        Ok(_reply) => None,
        Err(FtpError::UnexpectedResponse(_reply)) => None,
        Err(fault) => Some(fault),
    }
}

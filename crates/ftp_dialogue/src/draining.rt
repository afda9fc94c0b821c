//! The last reply of a transfer that was left (RFC 959, section 5.4).
//!
//! The server sends it whether it is asked for or not, so it is read before a command sends or receives anything of its
//! own. Whatever its status is, the transfer has come to its end; a reply that can't be read, or a connection that
//! fails, is the call's error.

ghost use Rattle.std.specs.Prelude.{◌≡◌, ◌⊎◌, false, true, None, Some, if◌then◌else◌};
ghost use Rattle.futures.specs.declared.task.Poll.TheVariants as poll;
ghost use Rattle.ftp_calls.specs.Exchanges.{is_local, negotiates, of_transfer};
ghost use Rattle.ftp_dialogue.specs.Coding.{coding_of};
ghost use Rattle.ftp_dialogue.specs.Dialogue.{expecting};
ghost use Rattle.ftp_dialogue.specs.Link.{asking, blocking, polling};
ghost use Rattle.ftp_dialogue.specs.Play.{is_unit};
ghost use Rattle.ftp_dialogue.specs.Promises.{GivesFault, due_of};
ghost use Rattle.ftp_dialogue.specs.Reading.{PollsDrain, PollsRead, ReadsAlone, after_poll, drain_told, due_before_read};
ghost use Rattle.ftp_dialogue.specs.Steps.Moving.{MadeDrained};
ghost use Rattle.ftp_dialogue.specs.Steps.Stages.{MayAnswer};

use super::data_path::{DataPath, NoData};
use super::machine::Machine;
use super::{Answer, Call, Owed};
use ftp_base::encoding::Encoding;
use ftp_base::status::Status;
use ftp_base::types::{FtpError, FtpResult, Response};
use ftp_calls::exchange::drains_first;
use ftp_transport::{Conn, Network, NeverWaits, PollConn};
use futures::task::Poll;
use std::alloc::Global;

impl<Tr: Network> Machine<Tr> {
    /// Whether the last reply of a transfer that was left is due before a call.
    pub fn is_due(&self, call: &Call) -> bool
        ensures { result ≡ due_of call.now self.now }
    {
        if self.channel.failed() || !matches!(self.state.counts.owed(), Owed::Left(_)) {
            return false;
        }
        drains_first(call)
    }

    /// Makes a call, whole, after the last reply of a transfer that was left, where one is due. An error of that
    /// reply's read is returned, and the call isn't made; else the answer is that of `call_alone`.
    pub fn call<E: Encoding, A: DataPath<Tr, NeverWaits>>(
        &mut self,
        data_path: &A,
        alloc: Global,
        encoding: &E,
        call: &Call,
    ) -> Answer
    where
        Tr::Conn: Conn,
        requires may { negotiates call.now ≡ true → A.may_ask }
        requires channel { is_local call.now ≡ false }
        requires blocks { A.may_wait → ⊥ }
        ensures answers { of_transfer call.now ≡ false → MayAnswer call.now result }
        ensures made { MadeDrained (asking (A.builds data_path.now) A.may_wait (blocking Tr.Conn.Conn))
            (coding_of E.decoded E.encoded encoding.now) call.now
            self.old self.new result }
    {
        if self.is_due(call) {
            let first = self.call_alone(data_path, alloc, encoding, &Call::Drain);
            if let Some(answer) = unless_unit(first) {
                return answer;
            }
        }
        self.call_alone(data_path, alloc, encoding, call)
    }

    /// Polls a read of one reply whose status is among the expected, after the last reply of a transfer that was left,
    /// where one is due. That reply is polled first: while it hasn't come whole the read waits, and what came of it is
    /// kept; an error of its read is returned; once it is over the read itself is polled at once. A read that waits
    /// may be dropped and polled again.
    ///
    /// Returns what a read of one reply does; `SessionFailed` on a session that has failed, and nothing changes.
    pub(super) fn poll_read_drained<W, E: Encoding>(
        &mut self,
        alloc: Global,
        encoding: &E,
        expected: &[Status],
        w: &mut W,
    ) -> Poll<FtpResult<Response>>
    where
        Tr::Conn: PollConn<W>,
        ensures waits { result ≡ poll.Pending → Tr.Conn.may_wait }
        ensures fails { self.new.channel.failed ≡ true →
            (self.old.channel.failed ≡ true) ⊎ GivesFault result }
        ensures reads { PollsRead (polling Tr.Conn.PollConn) (coding_of E.decoded E.encoded
            encoding.now) (expecting expected.now)
            self.old self.new result }
    {
        if self.is_due_before_read() {
            match self.poll_drain(alloc, encoding, w) {
                Poll::Ready(Ok(())) => {}
                Poll::Ready(Err(fault)) => return Poll::Ready(Err(fault)),
                Poll::Pending => return Poll::Pending,
            }
        }
        self.poll_read_alone(alloc, expected, w)
    }

    /// Whether the last reply of a transfer that was left is due before a read of one reply.
    fn is_due_before_read(&self) -> bool
        ensures { result ≡ due_before_read self.now }
    {
        !self.channel.failed() && matches!(self.state.counts.owed(), Owed::Left(_))
    }

    /// Polls the last reply of a transfer that was left. Where it waits, what came of that reply is kept.
    fn poll_drain<W, E: Encoding>(
        &mut self,
        alloc: Global,
        encoding: &E,
        w: &mut W,
    ) -> Poll<FtpResult<()>>
    where
        Tr::Conn: PollConn<W>,
        requires due { due_before_read self.old ≡ true }
        ensures waits { result ≡ poll.Pending → Tr.Conn.may_wait }
        ensures drains { PollsDrain (polling Tr.Conn.PollConn) (coding_of E.decoded E.encoded
            encoding.now)
            self.old self.new result }
    {
        let mut stage = self.enter(&Call::Drain);
        match self.poll_call(&NoData, alloc, encoding, &Call::Drain, &mut stage, w) {
            Poll::Ready(answer) => {
                drop(stage);
                self.let_go();
                Poll::Ready(drained(answer))
            }
            Poll::Pending => {
                drop(stage);
                Poll::Pending
            }
        }
    }

    /// Polls a read of one reply by itself.
    pub(super) fn poll_read_alone<W>(
        &mut self,
        alloc: Global,
        expected: &[Status],
        w: &mut W,
    ) -> Poll<FtpResult<Response>>
    where
        Tr::Conn: PollConn<W>,
        ensures waits { result ≡ poll.Pending → Tr.Conn.may_wait }
        ensures fails { self.new.channel.failed ≡ true →
            (self.old.channel.failed ≡ true) ⊎ GivesFault result }
        ensures reads { ReadsAlone (polling Tr.Conn.PollConn) (expecting expected.now)
            self.old self.new result }
    {
        if self.channel.failed() {
            return Poll::Ready(Err(FtpError::SessionFailed));
        }
        let heard = self.hear(&NoData, alloc, expected, w);
        self.count_heard(&heard);
        heard
    }

    /// A reply was read, or an error took its place: it counts where replies are due to commands that were dropped.
    fn count_heard(&mut self, heard: &Poll<FtpResult<Response>>)
        ensures { self.new ≡ record self.old { state = after_poll heard.now self.old.state } }
    {
        match heard {
            Poll::Ready(Ok(reply)) => self.state.answer(reply),
            Poll::Ready(Err(fault)) => self.state.answer_faulty(fault),
            Poll::Pending => {}
        }
    }
}

/// The result of a drain.
pub(super) fn drained(answer: Answer) -> FtpResult<()>
    requires { MayAnswer Call.Drain answer }
    ensures { drain_told result ≡ answer }
{
    match answer {
        Answer::Unit => Ok(()),
        Answer::Fault(fault) => Err(fault),
        Answer::Reply(_) => unreachable!(),
        Answer::Text(_) => unreachable!(),
        Answer::Time(_) => unreachable!(),
        Answer::Size(_) => unreachable!(),
        Answer::Features(_) => unreachable!(),
        Answer::Opened => unreachable!(),
        Answer::OpenedWith(_) => unreachable!(),
        Answer::Bytes(_) => unreachable!(),
        Answer::Count(_) => unreachable!(),
        Answer::Lines(_) => unreachable!(),
        Answer::NoTransfer => unreachable!(),
    }
}

/// The answer of a call, unless the call returned nothing and succeeded: the drain before a call is over then.
pub fn unless_unit(answer: Answer) -> Option<Answer>
    ensures { result ≡ (if is_unit answer then None else Some answer) }
{
    match answer {
        Answer::Unit => None,
        other => Some(other),
    }
}

//! Reads of a reply whose status is among those expected.
//!
//! Where replies are read leniently, which statuses those are also decides the reply's form: where 211 is among them, a
//! first line `211-` may be the whole answer, as to `STAT`; the answer to `FEAT` has a form of its own. The status is
//! tested once the reply is whole, so a reply that wasn't expected is consumed and returned to the caller.

ghost use Rattle.std.specs.Prelude.{◌≡◌, Err, true, false, ◌∷◌, []};
ghost use Rattle.futures.specs.declared.task.Poll.TheVariants as poll;
ghost use Rattle.ftp_transport.specs.Told.{EndsAsTold};
ghost use Rattle.ftp_control.specs.Answer.{AnswersRead, answer_of, form_of, expected_reply};

use super::expected_statuses::expected_reply;
use super::form::form_of;
use super::{Broken, ControlChannel, Outcome, ReplyForm};
use ftp_base::status::Status;
use ftp_base::types::{ConnectionError, FtpError, FtpResult, ReplyTooLarge, Response};
use ftp_transport::{Conn, NeverWaits, PollConn, Tells};
use futures::task::Poll;
use std::alloc::Global;

impl<C: Tells + Drop> ControlChannel<C> {
    /// Reads one reply whose status is among the expected. `Unknown` stands for every code that has no status.
    ///
    /// Dropped while it waits and called again, it resumes where it stopped.
    ///
    /// # Errors
    /// `SessionFailed` where the channel has failed, and nothing is read. `UnexpectedResponse` with a reply
    /// of another status, `BadResponse` where a first line opens no reply: both are consumed. `UnexpectedEof` and
    /// `ReplyTooLarge` (RFC 959, section 4.2), or an error of the connection: then the channel has failed.
    /// `OutOfMemory`: what was read is kept.
    pub fn poll_read_response_in<W>(
        &mut self,
        alloc: Global,
        expected: &[Status],
        w: &mut W,
    ) -> Poll<FtpResult<Response>>
    where
        C: PollConn<W>,
        ensures waits { result ≡ poll.Pending → C.may_wait }
        ensures end { C.Tells.tells → C.may_wait →
            EndsAsTold self.old.ended self.new.ended self.old.told }
        ensures failed { self.old.failed ≡ true →
            (result ≡ poll.Ready (Err FtpError.SessionFailed)) × (self.new ≡ self.old) }
        ensures reads { self.old.failed ≡ false →
            AnswersRead C.Tells.tells C.read_faults (form_of expected.now) expected.now self.old
            self.new result }
    {
        self.poll_read_reply(alloc, form_of(expected), expected, w)
    }

    /// Reads one reply of this form whose status is among the expected, as `poll_read_response_in` does. A list of
    /// features belongs to the reply and to its body (RFC 2389, section 3.2).
    ///
    /// # Errors
    /// Those of `poll_read_response_in`.
    pub fn poll_read_reply<W>(
        &mut self,
        alloc: Global,
        form: ReplyForm,
        expected: &[Status],
        w: &mut W,
    ) -> Poll<FtpResult<Response>>
    where
        C: PollConn<W>,
        ensures waits { result ≡ poll.Pending → C.may_wait }
        ensures end { C.Tells.tells → C.may_wait →
            EndsAsTold self.old.ended self.new.ended self.old.told }
        ensures failed { self.old.failed ≡ true →
            (result ≡ poll.Ready (Err FtpError.SessionFailed)) × (self.new ≡ self.old) }
        ensures reads { self.old.failed ≡ false →
            AnswersRead C.Tells.tells C.read_faults form expected.now self.old self.new result }
    {
        if self.failed() {
            return Poll::Ready(Err(FtpError::SessionFailed));
        }
        let heard = self.poll_outcome(alloc, form, w);
        answer(expected, heard)
    }

    /// Reads one reply of this status, as `poll_read_response_in` does.
    ///
    /// # Errors
    /// Those of `poll_read_response_in`.
    pub fn poll_read_response<W>(
        &mut self,
        alloc: Global,
        expected: Status,
        w: &mut W,
    ) -> Poll<FtpResult<Response>>
    where
        C: PollConn<W>,
        ensures waits { result ≡ poll.Pending → C.may_wait }
        ensures end { C.Tells.tells → C.may_wait →
            EndsAsTold self.old.ended self.new.ended self.old.told }
        ensures failed { self.old.failed ≡ true →
            (result ≡ poll.Ready (Err FtpError.SessionFailed)) × (self.new ≡ self.old) }
        ensures reads { self.old.failed ≡ false →
            AnswersRead C.Tells.tells C.read_faults (form_of (expected ∷ [])) (expected ∷ [])
            self.old self.new result }
    {
        self.poll_read_response_in(alloc, &[expected], w)
    }

    /// Reads one reply whose status is among the expected, and returns when it is whole.
    ///
    /// # Errors
    /// Those of `poll_read_response_in`.
    pub fn read_response_in(&mut self, alloc: Global, expected: &[Status]) -> FtpResult<Response>
    where
        C: Conn,
        ensures failed { self.old.failed ≡ true → (result ≡ Err FtpError.SessionFailed) ×
            (self.new ≡ self.old) }
        ensures reads { self.old.failed ≡ false →
            AnswersRead C.Tells.tells C.blocking_read_faults (form_of expected.now) expected.now
            self.old self.new (poll.Ready result) }
    {
        match self.poll_read_response_in(alloc, expected, &mut NeverWaits) {
            Poll::Ready(answer) => answer,
            Poll::Pending => unreachable!(),
        }
    }

    /// Reads one reply of this status, and returns when it is whole.
    ///
    /// # Errors
    /// Those of `poll_read_response_in`.
    pub fn read_response(&mut self, alloc: Global, expected: Status) -> FtpResult<Response>
    where
        C: Conn,
        ensures failed { self.old.failed ≡ true → (result ≡ Err FtpError.SessionFailed) ×
            (self.new ≡ self.old) }
        ensures reads { self.old.failed ≡ false →
            AnswersRead C.Tells.tells C.blocking_read_faults (form_of (expected ∷ [])) (expected ∷
            []) self.old self.new (poll.Ready result) }
    {
        self.read_response_in(alloc, &[expected])
    }
}

/// What a read that expects these returns.
fn answer(expected: &[Status], heard: Result<Outcome, Broken>) -> Poll<FtpResult<Response>>
    ensures { result ≡ answer_of expected.now heard }
{
    Poll::Ready(match heard {
        Ok(Outcome::Whole(bytes, code)) => {
            let reply = Response {
                status: Status::from(code),
                body: bytes,
            };
            expected_reply(expected, reply)
        }
        Ok(Outcome::Bad(_line)) => Err(FtpError::BadResponse),
        Ok(Outcome::TooLarge) => Err(ReplyTooLarge.into()),
        Ok(Outcome::Ended) => Err(ConnectionError::UnexpectedEof.into()),
        Ok(Outcome::Waits) => return Poll::Pending,
        Err(Broken::Connection(kind)) => Err(ConnectionError::Io(kind).into()),
        Err(Broken::OutOfMemory) => Err(FtpError::OutOfMemory),
    })
}

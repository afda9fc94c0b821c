//! Reads of one line at a time, for the lines after a reply.
//!
//! Where a whole line of a reply under way is kept, a line can't be told from the reply that it is part of: such a read
//! fails with an error, and nothing is lost.

ghost use Rattle.std.specs.Prelude.{◌≡◌, ◌≢◌, Err, [], true, false};
ghost use Rattle.futures.specs.declared.task.Poll.TheVariants as poll;
ghost use Rattle.ftp_control.specs.Grammar.{whole_lines};
ghost use Rattle.ftp_control.specs.LineAnswer.{AnswersLine, line_answer};

use super::channel::fails;
use super::read_loop::read_sought;
use super::sought::Sought;
use super::{Broken, ControlChannel, Outcome};
use ftp_base::types::{Bytes, ConnectionError, FtpError, FtpResult, ReplyTooLarge};
use ftp_transport::{Conn, NeverWaits, PollConn, Tells};
use futures::task::Poll;
use std::alloc::Global;

impl<C: Tells + Drop> ControlChannel<C> {
    /// Reads one line, LF with it; the last may lack it where the input has ended. It is called between replies.
    ///
    /// Dropped while it waits and called again, it resumes where it stopped.
    ///
    /// # Errors
    /// `SessionFailed` where the channel has failed, and `BadResponse` where a whole line of a reply under way is
    /// kept: nothing is read then. `ReplyTooLarge` for a line of more than 262,144 bytes, `UnexpectedEof` where
    /// the input ended before a byte, or an error of the connection: then the channel has failed. `OutOfMemory`:
    /// what was read is kept.
    pub fn poll_read_line<W>(&mut self, alloc: Global, w: &mut W) -> Poll<FtpResult<Bytes>>
    where
        C: PollConn<W>,
        ensures waits { result ≡ poll.Pending → C.may_wait }
        ensures failed { self.old.failed ≡ true →
            (result ≡ poll.Ready (Err FtpError.SessionFailed)) × (self.new ≡ self.old) }
        ensures under_way { self.old.failed ≡ false → whole_lines self.old.kept ≢ [] →
            (result ≡ poll.Ready (Err FtpError.BadResponse)) × (self.new ≡ self.old) }
        ensures reads { self.old.failed ≡ false → whole_lines self.old.kept ≡ [] →
            AnswersLine C.Tells.tells C.read_faults self.old self.new result }
    {
        if self.failed {
            return Poll::Ready(Err(FtpError::SessionFailed));
        }
        if self.reply.line_start != 0 {
            return Poll::Ready(Err(FtpError::BadResponse));
        }
        let heard = read_sought(
            alloc,
            &mut self.conn,
            &mut self.ahead,
            &mut self.reply,
            &mut self.ended,
            self.rule,
            Sought::Line,
            w,
        );
        self.failed = fails(self.failed, &heard);
        answer(heard)
    }

    /// Reads one line, and returns when it is whole.
    ///
    /// # Errors
    /// Those of `poll_read_line`.
    pub fn read_line(&mut self, alloc: Global) -> FtpResult<Bytes>
    where
        C: Conn,
        ensures failed { self.old.failed ≡ true → (result ≡ Err FtpError.SessionFailed) ×
            (self.new ≡ self.old) }
        ensures under_way { self.old.failed ≡ false → whole_lines self.old.kept ≢ [] →
            (result ≡ Err FtpError.BadResponse) × (self.new ≡ self.old) }
        ensures reads { self.old.failed ≡ false → whole_lines self.old.kept ≡ [] →
            AnswersLine C.Tells.tells C.blocking_read_faults self.old self.new (poll.Ready result) }
    {
        match self.poll_read_line(alloc, &mut NeverWaits) {
            Poll::Ready(answer) => answer,
            Poll::Pending => unreachable!(),
        }
    }
}

/// What a read of one line returns.
fn answer(heard: Result<Outcome, Broken>) -> Poll<FtpResult<Bytes>>
    ensures { result ≡ line_answer heard }
{
    Poll::Ready(match heard {
        Ok(Outcome::Whole(line, _code)) => Ok(line),
        Ok(Outcome::Bad(_line)) => Err(FtpError::BadResponse),
        Ok(Outcome::TooLarge) => Err(ReplyTooLarge.into()),
        Ok(Outcome::Ended) => Err(ConnectionError::UnexpectedEof.into()),
        Ok(Outcome::Waits) => return Poll::Pending,
        Err(Broken::Connection(kind)) => Err(ConnectionError::Io(kind).into()),
        Err(Broken::OutOfMemory) => Err(FtpError::OutOfMemory),
    })
}

//! Commands that go out.
//!
//! Only a `WireLine` can be sent, and it is sent whole: the unsent tail of a dropped call's line goes out before the
//! next one. So whatever is dropped, and whenever, a server sees whole commands in the order in which they began.

ghost use Rattle.std.specs.Prelude.{◌≡◌, Ok, Err, Some, [], true, false};
ghost use Rattle.futures.specs.declared.task.Poll.TheVariants as poll;
ghost use Rattle.ftp_base.specs.Command.{text_of};
ghost use Rattle.ftp_base.specs.Wire.{wire};
ghost use Rattle.ftp_control.specs.Saying.{SaysLine};
ghost use Rattle.ftp_control.specs.Performing.{Performs};

use super::{ControlChannel, WireLine};
use ftp_base::command::Command;
use ftp_base::encoding::Encoding;
use ftp_base::types::{ConnectionError, FtpError, FtpResult};
use ftp_transport::{Conn, NeverWaits, PollConn, Tells};
use futures::task::Poll;
use std::alloc::Global;

impl<C: Tells + Drop> ControlChannel<C> {
    /// Sends a line, after the unsent tail of the one before. The line is moved out of the option, whole, once it
    /// begins to go out; dropped while it waits and called again, the call resumes where it stopped.
    ///
    /// # Errors
    /// `SessionFailed` where the channel has failed, and nothing is sent. An error of the connection, after
    /// which the channel has failed.
    pub fn poll_perform<W>(&mut self, line: &mut Option<WireLine>, w: &mut W) -> Poll<FtpResult<()>>
    where
        C: PollConn<W>,
        ensures waits { result ≡ poll.Pending → C.may_wait }
        ensures failed { self.old.failed ≡ true →
            (result ≡ poll.Ready (Err FtpError.SessionFailed)) × (self.new ≡ self.old) ×
            (line.new ≡ line.old) }
        ensures says { self.old.failed ≡ false →
            SaysLine C.Tells.tells C.write_faults self.old self.new line.old line.new result }
    {
        if self.failed() {
            return Poll::Ready(Err(FtpError::SessionFailed));
        }
        match self.poll_flush(w) {
            Ok(Poll::Ready(())) => {}
            Ok(Poll::Pending) => return Poll::Pending,
            Err(kind) => return Poll::Ready(Err(ConnectionError::Io(kind).into())),
        }
        let Some(next) = line.take() else {
            return Poll::Ready(Ok(()));
        };
        self.push(next);
        match self.poll_flush(w) {
            Ok(Poll::Ready(())) => Poll::Ready(Ok(())),
            Ok(Poll::Pending) => Poll::Pending,
            Err(kind) => Poll::Ready(Err(ConnectionError::Io(kind).into())),
        }
    }

    /// Sends a command as one line, after the unsent tail of the one before, and returns when all of it went out.
    ///
    /// # Errors
    /// `SessionFailed` where the channel has failed. `LineBreak`, the encoding's error, `EncodedWithoutCrlf` or
    /// `EncodedLineBreak` where the command has no wire line, or `OutOfMemory`: nothing is sent then, and
    /// nothing changes. An error of the connection, after which the channel has failed.
    pub fn perform<E: Encoding>(
        &mut self,
        alloc: Global,
        command: &Command,
        encoding: &E,
    ) -> FtpResult<()>
    where
        C: Conn,
        ensures failed { self.old.failed ≡ true → (result ≡ Err FtpError.SessionFailed) ×
            (self.new ≡ self.old) }
        ensures performs { self.old.failed ≡ false →
            Performs C.Tells.tells C.blocking_write_faults (wire (E.encoded encoding.now) (text_of
            command.now)) self.old
            self.new result }
    {
        if self.failed() {
            return Err(FtpError::SessionFailed);
        }
        let mut line = Some(WireLine::of(alloc, command, encoding)?);
        match self.poll_perform(&mut line, &mut NeverWaits) {
            Poll::Ready(answer) => answer,
            Poll::Pending => unreachable!(),
        }
    }
}

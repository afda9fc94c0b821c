//! Reads of replies.

ghost use Rattle.std.specs.Prelude.{◌≡◌, Err, true, false};
ghost use Rattle.futures.specs.declared.task.Poll.TheVariants as poll;
ghost use Rattle.ftp_transport.specs.Told.{EndsAsTold};
ghost use Rattle.ftp_control.specs.Answer.{AnswersRead, form_of};

use ftp_base::status::Status;
use ftp_base::types::{FtpError, FtpResult, Response};
use ftp_control::control::{ControlChannel, ReplyForm};
use ftp_transport::{Conn, PollConn, Tells};
use futures::task::Poll;
use std::alloc::Global;

/// `ControlChannel::read_response_in`.
pub fn read_response_in<C: Tells + Drop>(
    channel: &mut ControlChannel<C>,
    alloc: Global,
    expected: &[Status],
) -> FtpResult<Response>
where
    C: Conn,
    ensures failed { channel.old.failed ≡ true → (result ≡ Err FtpError.SessionFailed) ×
        (channel.new ≡ channel.old) }
    ensures reads { channel.old.failed ≡ false → AnswersRead C.Tells.tells C.blocking_read_faults
        (form_of expected.now) expected.now channel.old channel.new (poll.Ready result) }
{
    channel.read_response_in(alloc, expected)
}

/// `ControlChannel::poll_read_reply`.
pub fn poll_read_reply<C: Tells + Drop, W>(
    channel: &mut ControlChannel<C>,
    alloc: Global,
    form: ReplyForm,
    expected: &[Status],
    w: &mut W,
) -> Poll<FtpResult<Response>>
where
    C: PollConn<W>,
    ensures waits { result ≡ poll.Pending → C.may_wait }
    ensures end { C.Tells.tells → C.may_wait →
        EndsAsTold channel.old.ended channel.new.ended channel.old.told }
    ensures failed { channel.old.failed ≡ true →
        (result ≡ poll.Ready (Err FtpError.SessionFailed)) × (channel.new ≡ channel.old) }
    ensures reads { channel.old.failed ≡ false →
        AnswersRead C.Tells.tells C.read_faults form expected.now channel.old channel.new result }
{
    channel.poll_read_reply(alloc, form, expected, w)
}

//! A channel over memory.

ghost use Rattle.std.specs.Prelude.{◌≡◌, ◌⊎◌, Err, true, false};
ghost use Rattle.std.specs.declared.io.ErrorKind.TheVariants as kinds;
ghost use Rattle.futures.specs.declared.task.Poll.TheVariants as poll;
ghost use Rattle.ftp_base.specs.Command.{text_of};
ghost use Rattle.ftp_base.specs.Wire.{wire};
ghost use Rattle.ftp_control.specs.Answer.{AnswersRead, form_of};
ghost use Rattle.ftp_control.specs.Performing.{Performs};
ghost use Rattle.ftp_transport.specs.Told.{IsFull};

use ftp_base::command::Command;
use ftp_base::encoding::Encoding;
use ftp_base::status::Status;
use ftp_base::types::{FtpError, FtpResult, Response};
use ftp_control::control::ControlChannel;
use ftp_transport::MemoryConn;
use std::alloc::Global;

/// `ControlChannel::perform`.
pub fn perform<E: Encoding>(
    channel: &mut ControlChannel<MemoryConn>,
    alloc: Global,
    command: &Command,
    encoding: &E,
) -> FtpResult<()>
    ensures failed { channel.old.failed ≡ true → (result ≡ Err FtpError.SessionFailed) ×
        (channel.new ≡ channel.old) }
    ensures performs { channel.old.failed ≡ false → Performs (Unit {0})
        (λ told kind. (kind ≡ kinds.OutOfMemory) ⊎ ((kind ≡ kinds.WouldBlock) × IsFull told))
        (wire (E.encoded encoding.now) (text_of command.now)) channel.old channel.new result }
{
    channel.perform(alloc, command, encoding)
}

/// `ControlChannel::read_response_in`.
pub fn read_response_in(
    channel: &mut ControlChannel<MemoryConn>,
    alloc: Global,
    expected: &[Status],
) -> FtpResult<Response>
    ensures failed { channel.old.failed ≡ true → (result ≡ Err FtpError.SessionFailed) ×
        (channel.new ≡ channel.old) }
    ensures reads { channel.old.failed ≡ false → AnswersRead (Unit {0}) (λ kind. ⊥)
        (form_of expected.now) expected.now channel.old channel.new (poll.Ready result) }
{
    channel.read_response_in(alloc, expected)
}

//! The line of a command.

ghost use Rattle.std.specs.Prelude.{◌≡◌, Ok, IfOk, IfErr};
ghost use Rattle.ftp_base.specs.Command.{text_of};
ghost use Rattle.ftp_base.specs.Wire.{wire};
ghost use Rattle.ftp_control.specs.Refusal.{IsRefusalOf};

use ftp_base::command::Command;
use ftp_base::encoding::Encoding;
use ftp_base::types::FtpResult;
use ftp_control::control::WireLine;
use std::alloc::Global;

/// `WireLine::of`.
pub fn wire_line_of<E: Encoding>(
    alloc: Global,
    command: &Command,
    encoding: &E,
) -> FtpResult<WireLine>
    ensures line { IfOk result (λ line. wire (E.encoded encoding.now) (text_of command.now) ≡
        Ok line) }
    ensures refused { IfErr result (IsRefusalOf
        (wire (E.encoded encoding.now) (text_of command.now))) }
{
    WireLine::of(alloc, command, encoding)
}

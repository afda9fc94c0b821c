//! Lines of commands, the bytes that Telnet doubles, and the address in a reply to PASV.

ghost use Rattle.std.specs.Prelude.{◌≡◌, IfOk, IfErr, IsOk, MatchOption};
ghost use Rattle.ftp_base.specs.Line.{text_fault};
ghost use Rattle.ftp_base.specs.Scan.{IsPassive, StandsFirst, StandsNowhere};
ghost use Rattle.ftp_base.specs.Telnet.{unescaped};

use ftp_base::command;
use ftp_base::command::scan::{self, Span};
use ftp_base::types::{FtpError, FtpResult};
use std::alloc::Global;

/// `command::validate_command_line`.
pub fn validate_command_line(line: &str) -> FtpResult<()>
    ensures { MatchOption (text_fault line.now) (IsOk result)
        (λ fault. result ≡ Err (FtpError.ConnectionError fault)) }
{
    command::validate_command_line(line)
}

/// `command::unescape_telnet_iac`.
pub fn unescape_telnet_iac(alloc: Global, bytes: &[u8]) -> FtpResult<Vec<u8>>
    ensures single { IfOk result (λ plain. plain.items ≡ unescaped bytes.now) }
    ensures err { IfErr result (λ fault. fault ≡ FtpError.OutOfMemory) }
{
    command::unescape_telnet_iac(alloc, bytes)
}

/// `scan::pasv_port`.
pub fn pasv_port(text: &str) -> Option<[Span; 6]>
    ensures { MatchOption result
        (StandsNowhere (IsPassive text.now)) (StandsFirst (IsPassive text.now)) }
{
    scan::pasv_port(text)
}

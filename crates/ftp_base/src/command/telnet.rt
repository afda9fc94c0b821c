//! Byte 255 on the control connection, which is a Telnet connection (RFC 854).
//!
//! Telnet takes byte 255 for the beginning of a command of its own, so where it is meant as data it is sent twice. No
//! text in UTF-8 has that byte, but one in Latin-1 may. What a server sends is undone the same way, and a single byte
//! 255 stays.

ghost use Rattle.std.specs.Prelude.{◌≡◌, Ok, IfOk, IfErr};
ghost use Rattle.ftp_base.specs.Telnet.{escaped, unescaped};

use crate::types::{FtpError, FtpResult};
use std::alloc::Global;

/// The byte that begins a Telnet command: 'interpret as command'.
const IAC: u8 = 255;

/// Doubles each byte 255, as data that stands for itself is sent.
///
/// # Errors
/// `OutOfMemory` where an allocation fails.
pub fn escape_telnet_iac(alloc: Global, bytes: &[u8]) -> FtpResult<Vec<u8>>
    ensures doubled { IfOk result (λ line. line.items ≡ escaped bytes.now) }
    ensures undone { IfOk result (λ line. unescaped line.items ≡ bytes.now) }
    ensures err { IfErr result (λ fault. fault ≡ FtpError.OutOfMemory) }
{
    let mut line = Vec::with_capacity(alloc, bytes.len())?;
    for byte in bytes {
        line.push(*byte)?;
        if *byte == IAC {
            line.push(*byte)?;
        }
    }
    Ok(line)
}

/// Makes each pair of bytes 255, found from the left, one.
///
/// # Errors
/// `OutOfMemory` where an allocation fails.
pub fn unescape_telnet_iac(alloc: Global, bytes: &[u8]) -> FtpResult<Vec<u8>>
    ensures single { IfOk result (λ plain. plain.items ≡ unescaped bytes.now) }
    ensures err { IfErr result (λ fault. fault ≡ FtpError.OutOfMemory) }
{
    let mut plain = Vec::with_capacity(alloc, bytes.len())?;
    let mut opens_pair = false;
    for byte in bytes {
        if opens_pair && *byte == IAC {
            opens_pair = false;
        } else {
            plain.push(*byte)?;
            opens_pair = *byte == IAC;
        }
    }
    Ok(plain)
}

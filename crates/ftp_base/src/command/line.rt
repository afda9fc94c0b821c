//! No line break inside a command's line, so that no argument becomes a second command (RFC 959, section 4.1.3).
//!
//! A line is tested twice. Its text is tested before it is encoded, as the caller handed it in; its bytes are tested
//! afterwards, since an encoding may make a line break of another character, or lose the one at the end. A test changes
//! nothing and allocates nothing.

ghost use Rattle.std.specs.Prelude.{◌≡◌, IsOk, MatchOption, ◌-◌, if◌then◌else◌};
ghost use Rattle.ftp_base.specs.Line.{text_fault, encoded_fault, before_crlf, has_line_break};

use crate::types::{ConnectionError, FtpError, FtpResult};

const CRLF: [u8; 2] = *b"\r\n";

/// Tests the text of a command before it is encoded. Allocates nothing.
///
/// # Errors
/// `LineBreak` where CR or LF stands before the final CR LF; a text that doesn't end in CR LF is tested
/// whole.
pub fn validate_command_line(line: &str) -> FtpResult<()>
    ensures { MatchOption (text_fault line.now) (IsOk result)
        (λ fault. result ≡ Err (FtpError.ConnectionError fault)) }
{
    if has_line_break(before_crlf(line.as_bytes())) {
        return Err(ConnectionError::LineBreak.into());
    }
    Ok(())
}

/// Tests the encoded bytes of a command, before byte 255 is doubled. Allocates nothing.
///
/// # Errors
/// `EncodedWithoutCrlf` where the bytes don't end in CR LF, else `EncodedLineBreak` where CR or LF stands
/// before those two.
pub fn validate_encoded_command_line(line: &[u8]) -> FtpResult<()>
    ensures { MatchOption (encoded_fault line.now) (IsOk result)
        (λ fault. result ≡ Err (FtpError.ConnectionError fault)) }
{
    if !line.ends_with(&CRLF) {
        return Err(ConnectionError::EncodedWithoutCrlf.into());
    }
    if has_line_break(before_crlf(line)) {
        return Err(ConnectionError::EncodedLineBreak.into());
    }
    Ok(())
}

/// The bytes before the final CR LF, or all of them where they don't end so.
fn before_crlf(line: &[u8]) -> &[u8]
    ensures { result.now ≡ before_crlf line.now }
{
    if line.ends_with(&CRLF) {
        &line[..line.len() - CRLF.len()]
    } else {
        line
    }
}

/// Whether CR or LF stands in the bytes.
fn has_line_break(bytes: &[u8]) -> bool
    ensures { result ≡ has_line_break bytes.now }
{
    bytes.iter().any(|byte| *byte == b'\r' || *byte == b'\n')
}

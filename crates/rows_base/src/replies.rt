//! Replies, their codes, and byte 255.

use ftp_base::command::{escape_telnet_iac, unescape_telnet_iac};
use ftp_base::status::Status;
use ftp_base::types::{FtpResult, Response};
use rows_text::{RowError, bytes_of, pair, value};
use std::alloc::Global;

/// The status of a code: its name, its own code, and its text.
pub fn status(alloc: Global, input: &str) -> Result<Vec<u8>, RowError> {
    let status = Status::from(value::<u32>(input)?);
    let code = status.code();
    Ok(format!(in alloc; "{status:?} {code} {status}")?.into_bytes())
}

/// A reply as it is shown, and its text.
pub fn reply(alloc: Global, input: &str) -> Result<Vec<u8>, RowError> {
    let (code, body) = pair(input, " ")?;
    let reply = Response::new(Status::from(value::<u32>(code)?), bytes_of(alloc, body)?);
    let shown = match reply.as_string(alloc) {
        Ok(text) => format!(in alloc; "{reply} | {text}")?,
        Err(cause) => format!(in alloc; "{reply} | {cause}")?,
    };
    Ok(shown.into_bytes())
}

/// What goes out for bytes: each byte 255 twice.
pub fn escaped(alloc: Global, input: &str) -> Result<Vec<u8>, RowError> {
    memory(escape_telnet_iac(alloc, &bytes_of(alloc, input)?))
}

/// What bytes stand for: each pair of bytes 255 is one.
pub fn unescaped(alloc: Global, input: &str) -> Result<Vec<u8>, RowError> {
    memory(unescape_telnet_iac(alloc, &bytes_of(alloc, input)?))
}

/// Bytes, where there was memory for them.
fn memory(bytes: FtpResult<Vec<u8>>) -> Result<Vec<u8>, RowError> {
    bytes.map_err(|_| RowError::OutOfMemory)
}

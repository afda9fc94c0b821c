//! The lines of a script.
//!
//! `server TEXT` adds to what the server sends; `data TEXT` and `refused` say what becomes of the next data connection;
//! `call NAME` and `call NAME ARGUMENTS` make a call; with `lenient`, wherever it stands, replies are read leniently; an
//! empty line says nothing.

ghost use Rattle.std.specs.Prelude.{◌≡◌, IfOk};
ghost use Rattle.ftp_script.specs.Lines.{data_by, line_of, made_by, served_by};

use crate::call::call_of;
use crate::compare::{begins_with, is};
use crate::escapes::unescaped;
use crate::supplies::DataConn;
use ftp_base::types::Bytes;
use ftp_calls::call::Call;
use std::alloc::{AllocError, Global};

/// What a line says.
#[derive(Drop)]
pub(crate) enum Line {
    /// Nothing.
    Empty,
    /// The server sends these bytes.
    Server(Bytes),
    /// This becomes of the next data connection.
    Data(DataConn),
    /// This call is made.
    Makes(Call),
    /// Replies are read leniently.
    Lenient,
}

/// What a line says, if it is understood.
///
/// # Errors
/// `AllocError`.
pub(crate) fn line_of(alloc: Global, line: &[u8]) -> Result<Option<Line>, AllocError>
    ensures { IfOk result (λ understood. understood ≡ line_of line.now) }
{
    if line.is_empty() {
        Ok(Some(Line::Empty))
    } else if is(line, b"refused") {
        Ok(Some(Line::Data(DataConn::Refused)))
    } else if is(line, b"lenient") {
        Ok(Some(Line::Lenient))
    } else if begins_with(line, b"server ") {
        Ok(served_by(unescaped(alloc, &line[7..])?))
    } else if begins_with(line, b"data ") {
        Ok(data_by(unescaped(alloc, &line[5..])?))
    } else if begins_with(line, b"call ") {
        Ok(made_by(call_of(alloc, &line[5..])?))
    } else {
        Ok(None)
    }
}

/// The line of these bytes of the server.
fn served_by(bytes: Option<Bytes>) -> Option<Line>
    ensures { result ≡ served_by bytes }
{
    match bytes {
        Some(bytes) => Some(Line::Server(bytes)),
        None => None,
    }
}

/// The line of a data connection that delivers these bytes.
fn data_by(bytes: Option<Bytes>) -> Option<Line>
    ensures { result ≡ data_by bytes }
{
    match bytes {
        Some(bytes) => Some(Line::Data(DataConn::Gives(bytes))),
        None => None,
    }
}

/// The line of this call.
fn made_by(call: Option<Call>) -> Option<Line>
    ensures { result ≡ made_by call }
{
    match call {
        Some(call) => Some(Line::Makes(call)),
        None => None,
    }
}

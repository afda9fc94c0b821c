//! The texts of errors.

use crate::words::said;
use ftp_base::encoding::EncodeError;
use ftp_base::status::Status;
use ftp_base::types::{BodyError, ConnectionError, FtpError, ReplyTooLarge, Response, Text};
use rows_text::RowError;
use std::alloc::Global;
use std::fmt;
use std::io::ErrorKind;

/// The text of an error, with its number if it has one.
pub fn fault(alloc: Global, input: &str) -> Result<Vec<u8>, RowError> {
    match input {
        "ReplyTooLarge" => displayed(alloc, &ReplyTooLarge),
        "BodyError::NotUtf8" => displayed(alloc, &BodyError::NotUtf8),
        "BodyError::OutOfMemory" => displayed(alloc, &BodyError::OutOfMemory),
        "EncodeError::Refused" => displayed(alloc, &EncodeError::Refused(ErrorKind::InvalidData)),
        "EncodeError::OutOfMemory" => displayed(alloc, &EncodeError::OutOfMemory),
        _ => match input.strip_prefix("ConnectionError::") {
            Some(name) => numbered(alloc, FtpError::ConnectionError(cause(name)?)),
            None => numbered(alloc, of_ftp(alloc, input)?),
        },
    }
}

/// The text of a value.
fn displayed<T: fmt::Display>(alloc: Global, value: &T) -> Result<Vec<u8>, RowError> {
    let text = format!(in alloc; "{value}")?;
    said(alloc, &text)
}

/// The number of an error and its text.
fn numbered(alloc: Global, fault: FtpError) -> Result<Vec<u8>, RowError> {
    let number = fault.number();
    let text = format!(in alloc; "E{number} {fault}")?;
    said(alloc, &text)
}

/// The error of a name.
fn of_ftp(alloc: Global, name: &str) -> Result<FtpError, RowError> {
    match name {
        "SecureError" => Ok(FtpError::SecureError(Text::from_str(alloc, "no cert")?)),
        "UnexpectedResponse" => Ok(FtpError::UnexpectedResponse(Response::new(
            Status::BadCommand,
            said(alloc, "500 no\r\n")?,
        ))),
        "BadResponse" => Ok(FtpError::BadResponse),
        "InvalidAddress" => Ok(FtpError::InvalidAddress),
        "DataConnectionAlreadyOpen" => Ok(FtpError::DataConnectionAlreadyOpen),
        "OutOfMemory" => Ok(FtpError::OutOfMemory),
        "SessionFailed" => Ok(FtpError::SessionFailed),
        _ => Err(RowError::NotUnderstood),
    }
}

/// The connection's error of a name.
fn cause(name: &str) -> Result<ConnectionError, RowError> {
    match name {
        "Io" => Ok(ConnectionError::Io(ErrorKind::ConnectionRefused)),
        "UnexpectedEof" => Ok(ConnectionError::UnexpectedEof),
        "ReplyTooLarge" => Ok(ConnectionError::ReplyTooLarge),
        "LineBreak" => Ok(ConnectionError::LineBreak),
        "EncodedWithoutCrlf" => Ok(ConnectionError::EncodedWithoutCrlf),
        "EncodedLineBreak" => Ok(ConnectionError::EncodedLineBreak),
        "Encoding" => Ok(ConnectionError::Encoding(ErrorKind::InvalidData)),
        "TimedOut" => Ok(ConnectionError::TimedOut),
        "NoAddress" => Ok(ConnectionError::NoAddress),
        "SourceTooLarge" => Ok(ConnectionError::SourceTooLarge),
        "NotOwed" => Ok(ConnectionError::NotOwed),
        "AlreadyCompleted" => Ok(ConnectionError::AlreadyCompleted),
        _ => Err(RowError::NotUnderstood),
    }
}

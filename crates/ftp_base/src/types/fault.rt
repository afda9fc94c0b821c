//! What can go wrong, one variant a cause.
//!
//! A caller matches on an error to learn what to do next, so each cause has a variant of its own and none holds a
//! text for a program to read. [`FtpError`] is what calls of the client return; [`ConnectionError`] is its part that
//! concerns a connection, or what goes over it, and has a kind of the standard library. The error for out of memory
//! allocates nothing.

ghost use Rattle.std.specs.Prelude.{◌≡◌, ◌≢◌, ◌⊎◌, Some, codes};
ghost use Rattle.std.specs.IoError.{error_kind};
ghost use Rattle.jiff_core.specs.declared.error.Error.TheVariants as date;
ghost use Rattle.ftp_base.specs.Fault.{connection_number, connection_text, kind_of, number_of};
ghost use Rattle.ftp_base.specs.declared.types.fault.FtpError.TheVariants as fault;
ghost use Rattle.ftp_base.specs.declared.types.fault.ConnectionError.TheVariants as connection;

use super::{Response, Text};
use std::alloc::{AllocError, AllocFailed};
use std::error::Error as StdError;
use std::io::ErrorKind;
use std::{fmt, io};
use thiserror::Error;

/// What a call of the client returns.
pub type FtpResult<T> = Result<T, FtpError>;

/// Why a call of the client failed.
#[derive(Clone, Debug, Drop, Error)]
pub enum FtpError {
    /// A connection failed, or what went over it can't be sent or accepted.
    #[error("Connection error: {0}")]
    ConnectionError(ConnectionError),
    /// The connector failed to secure a connection, with this text.
    #[error("Secure error: {0}")]
    SecureError(Text),
    /// The reply's status isn't one that the command allows, or its text lacks what the command asks for.
    #[error("Invalid response: {0}")]
    UnexpectedResponse(Response),
    /// The reply doesn't follow the grammar of replies.
    #[error("Response contains an invalid syntax")]
    BadResponse,
    /// Never returned: addresses are handed in. The variant is kept for its name.
    #[error("Invalid address")]
    InvalidAddress,
    /// A transfer is live, and the command would open another.
    #[error("Data connection is already open")]
    DataConnectionAlreadyOpen,
    /// An allocation failed.
    #[error("Out of memory")]
    OutOfMemory,
    /// The session failed in an earlier call, or has opened as many transfers as can be counted.
    #[error("The session failed earlier; connect anew")]
    SessionFailed,
}

impl FtpError {
    /// The number of this error in the table of errors (docs/REFUSALS.md), by which transcripts name it.
    pub fn number(&self) -> u8
        ensures { result ≡ number_of self.now }
    {
        match self {
            FtpError::ConnectionError(cause) => cause.number(),
            FtpError::SecureError(_) => 9,
            FtpError::UnexpectedResponse(_) => 10,
            FtpError::BadResponse => 11,
            FtpError::DataConnectionAlreadyOpen => 12,
            FtpError::OutOfMemory => 13,
            FtpError::SessionFailed => 14,
            FtpError::InvalidAddress => 15,
        }
    }
}

/// What went wrong with a connection, or with what goes over it.
#[derive(Clone, Copy, Debug, PartialEq, Eq, Drop)]
pub enum ConnectionError {
    /// A connection, a listener, or what the caller handed in failed with an error of this kind.
    Io(ErrorKind),
    /// The input ended before a reply's first byte or in the middle of a reply.
    UnexpectedEof,
    /// A reply has more than 262,144 bytes.
    ReplyTooLarge,
    /// CR or LF stands in a command before the line end that closes it.
    LineBreak,
    /// The encoded command doesn't end in CR LF.
    EncodedWithoutCrlf,
    /// CR or LF stands in the encoded command before the line end that closes it.
    EncodedLineBreak,
    /// The encoding failed on the command's text, with an error of this kind.
    Encoding(ErrorKind),
    /// A deadline passed, or too many strangers connected.
    TimedOut,
    /// There was no address to connect to.
    NoAddress,
    /// An upload would write more than 2^63 - 1 bytes.
    SourceTooLarge,
    /// The transfer isn't the one that the session owes.
    NotOwed,
    /// A future was polled again after it had returned its result.
    AlreadyCompleted,
}

impl ConnectionError {
    /// The kind of error, as `std::io::Error` has it.
    pub fn kind(&self) -> ErrorKind
        ensures { result ≡ kind_of self.now }
    {
        match self {
            ConnectionError::Io(kind) => *kind,
            ConnectionError::UnexpectedEof => ErrorKind::UnexpectedEof,
            ConnectionError::ReplyTooLarge => ErrorKind::InvalidData,
            ConnectionError::LineBreak => ErrorKind::InvalidInput,
            ConnectionError::EncodedWithoutCrlf => ErrorKind::InvalidInput,
            ConnectionError::EncodedLineBreak => ErrorKind::InvalidInput,
            ConnectionError::Encoding(kind) => *kind,
            ConnectionError::TimedOut => ErrorKind::TimedOut,
            ConnectionError::NoAddress => ErrorKind::InvalidInput,
            ConnectionError::SourceTooLarge => ErrorKind::InvalidInput,
            ConnectionError::NotOwed => ErrorKind::InvalidInput,
            ConnectionError::AlreadyCompleted => ErrorKind::InvalidInput,
        }
    }

    /// The number of the error that this is the cause of.
    fn number(&self) -> u8
        ensures { result ≡ connection_number self.now }
    {
        match self {
            ConnectionError::Io(_) => 1,
            ConnectionError::UnexpectedEof => 2,
            ConnectionError::ReplyTooLarge => 3,
            ConnectionError::LineBreak => 4,
            ConnectionError::EncodedWithoutCrlf => 5,
            ConnectionError::EncodedLineBreak => 6,
            ConnectionError::Encoding(_) => 7,
            ConnectionError::TimedOut => 8,
            ConnectionError::NoAddress => 16,
            ConnectionError::SourceTooLarge => 17,
            ConnectionError::NotOwed => 18,
            ConnectionError::AlreadyCompleted => 19,
        }
    }
}

/// A text of two kinds, [`ConnectionError::Io`] and [`ConnectionError::Encoding`], has the text of the standard
/// library's kind in it.
impl fmt::Display for ConnectionError {
    ghost output = { λ fault. connection_text fault };

    fn fmt<W: fmt::Write>(&self, f: &mut fmt::Formatter<W>) -> fmt::Result {
        match self {
            ConnectionError::Io(kind) => write!(f, "{kind}"),
            ConnectionError::UnexpectedEof => f.write_str(
                "the connection was closed before the reply was whole",
            ),
            ConnectionError::ReplyTooLarge => f.write_str(
                "the server sent a reply larger than 262144 bytes",
            ),
            ConnectionError::LineBreak => f.write_str("a line break in the command"),
            ConnectionError::EncodedWithoutCrlf => f.write_str(
                "the encoded command doesn't end in CR LF",
            ),
            ConnectionError::EncodedLineBreak => f.write_str("a line break in the encoded command"),
            ConnectionError::Encoding(kind) => write!(f, "the encoding refused the text: {kind}"),
            ConnectionError::TimedOut => f.write_str("timed out"),
            ConnectionError::NoAddress => f.write_str("no address to connect to"),
            ConnectionError::SourceTooLarge => f.write_str("the source is too large"),
            ConnectionError::NotOwed => f.write_str("the transfer is not of this session"),
            ConnectionError::AlreadyCompleted => f.write_str("the call has completed"),
        }
    }
}

impl StdError for ConnectionError {}

/// A reply has more bytes than a client takes, which are 262,144.
#[derive(Clone, Copy, Debug, PartialEq, Eq, Drop)]
pub struct ReplyTooLarge;

impl fmt::Display for ReplyTooLarge {
    ghost output = { λ _. Some (codes "the server sent a reply larger than 262144 bytes") };

    fn fmt<W: fmt::Write>(&self, f: &mut fmt::Formatter<W>) -> fmt::Result {
        f.write_str("the server sent a reply larger than 262144 bytes")
    }
}

impl StdError for ReplyTooLarge {}

impl From<ConnectionError> for FtpError {
    ghost from_gives = { λ cause error. error ≡ fault.ConnectionError cause };

    fn from(cause: ConnectionError) -> FtpError {
        FtpError::ConnectionError(cause)
    }
}

impl From<ReplyTooLarge> for FtpError {
    ghost from_gives = { λ _ error. error ≡ fault.ConnectionError connection.ReplyTooLarge };

    fn from(_cause: ReplyTooLarge) -> FtpError {
        FtpError::ConnectionError(ConnectionError::ReplyTooLarge)
    }
}

impl From<io::Error> for FtpError {
    ghost from_gives = { λ cause error. error ≡
        fault.ConnectionError (connection.Io (error_kind cause)) };

    fn from(cause: io::Error) -> FtpError {
        FtpError::ConnectionError(ConnectionError::Io(cause.kind()))
    }
}

impl From<ErrorKind> for FtpError {
    ghost from_gives = { λ kind error. error ≡ fault.ConnectionError (connection.Io kind) };

    fn from(kind: ErrorKind) -> FtpError {
        FtpError::ConnectionError(ConnectionError::Io(kind))
    }
}

/// For a program that computes with dates beside the client: what it lacks is a date, as where a reply holds one that
/// doesn't exist.
impl From<jiff_core::Error> for FtpError {
    ghost from_gives = { λ cause error. ((cause ≡ date.OutOfMemory) × (error ≡ fault.OutOfMemory)) ⊎
        ((cause ≢ date.OutOfMemory) × (error ≡ fault.BadResponse)) };

    fn from(cause: jiff_core::Error) -> FtpError {
        match cause {
            jiff_core::Error::OutOfMemory => FtpError::OutOfMemory,
            _ => FtpError::BadResponse,
        }
    }
}

impl From<AllocError> for FtpError {
    ghost from_gives = { λ _ error. error ≡ fault.OutOfMemory };

    fn from(_cause: AllocError) -> FtpError {
        FtpError::OutOfMemory
    }
}

impl<T: Drop> From<AllocFailed<T>> for FtpError {
    ghost from_gives = { λ _ error. error ≡ fault.OutOfMemory };

    fn from(_cause: AllocFailed<T>) -> FtpError {
        FtpError::OutOfMemory
    }
}

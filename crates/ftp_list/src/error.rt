//! Why a line could not be read.
//!
//! There is one error for all forms, so that a caller who tries several can compare them. It
//! holds no text of the line: the caller still has the line, and an error takes no memory.
ghost use Rattle.std.specs.Prelude.{◌≡◌, ◌≢◌, ◌⊎◌};
ghost use Rattle.ftp_base.specs.declared.types.fault.FtpError.TheVariants as fault;
ghost use Rattle.ftp_list.specs.declared.error.ParseError.TheVariants.{OutOfMemory};

use ftp_base::types::FtpError;
use std::alloc::{AllocError, AllocFailed};
use thiserror::Error;

/// What a parser returns.
pub type ParseResult<T> = Result<T, ParseError>;

/// Why a line could not be read.
#[derive(Debug, PartialEq, Eq, Drop, Error)]
pub enum ParseError {
    /// The line doesn't have the form, or a fact has a value that it cannot have.
    #[error("Syntax error: invalid line")]
    SyntaxError,
    /// A date or a time of day that does not exist.
    #[error("Invalid date")]
    InvalidDate,
    /// A size that is no number or is above 2^64 - 1.
    #[error("Bad file size")]
    BadSize,
    /// An allocation failed.
    #[error("out of memory")]
    OutOfMemory,
}

impl From<AllocError> for ParseError {
    ghost from_gives = { λ _ e. e ≡ OutOfMemory };

    fn from(_e: AllocError) -> ParseError {
        ParseError::OutOfMemory
    }
}

impl<T: Drop> From<AllocFailed<T>> for ParseError {
    ghost from_gives = { λ _ e. e ≡ OutOfMemory };

    fn from(_e: AllocFailed<T>) -> ParseError {
        ParseError::OutOfMemory
    }
}

/// For a program that reads lines between calls of the client: a line that can't be read is a bad response.
impl From<ParseError> for FtpError {
    ghost from_gives = { λ cause error. ((cause ≡ OutOfMemory) × (error ≡ fault.OutOfMemory)) ⊎
        ((cause ≢ OutOfMemory) × (error ≡ fault.BadResponse)) };

    fn from(cause: ParseError) -> FtpError {
        match cause {
            ParseError::OutOfMemory => FtpError::OutOfMemory,
            _ => FtpError::BadResponse,
        }
    }
}

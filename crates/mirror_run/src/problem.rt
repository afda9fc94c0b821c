//! Why something is left undone.

use ftp_base::types::{FtpError, Response};
use std::alloc::{AllocError, AllocFailed, Global};
use std::{fmt, io};

/// Whether another try may go better.
#[derive(Clone, Copy)]
enum Outlook {
    /// On another connection, or at another time.
    MayPass,
    /// The server has refused, for good.
    Refused,
    /// It is the same at each try.
    Stays,
}

/// Why a folder wasn't listed, or a file not copied: a text, and whether another try may go better.
#[derive(Drop)]
pub struct Problem {
    // none where there was no memory for it
    text: Option<String>,
    outlook: Outlook,
}

impl From<AllocError> for Problem {
    fn from(_error: AllocError) -> Problem {
        Problem {
            text: None,
            outlook: Outlook::Stays,
        }
    }
}

impl<T: Drop> From<AllocFailed<T>> for Problem {
    fn from(_error: AllocFailed<T>) -> Problem {
        AllocError.into()
    }
}

impl fmt::Display for Problem {
    fn fmt<W: fmt::Write>(&self, f: &mut fmt::Formatter<W>) -> fmt::Result {
        match &self.text {
            Some(text) => f.write_str(text.as_str()),
            None => f.write_str("out of memory"),
        }
    }
}

impl Problem {
    /// The server, or a connection to it.
    pub fn of_server(alloc: Global, fault: FtpError) -> Problem {
        let problem = Problem {
            text: format!(in alloc; "{fault}").ok(),
            outlook: outlook_of(&fault),
        };
        drop(fault);
        problem
    }

    /// A file or folder here.
    pub fn of_file(alloc: Global, path: &str, error: io::Error) -> Problem {
        let problem = Problem {
            text: format!(in alloc; "{path}: {error}").ok(),
            outlook: Outlook::Stays,
        };
        drop(error);
        problem
    }

    /// What came has another size than was listed.
    pub fn of_size(alloc: Global, came: u64, listed: u64) -> Problem {
        Problem {
            text: format!(in alloc; "{came} bytes came, and {listed} were listed").ok(),
            outlook: Outlook::Stays,
        }
    }

    /// Whether the server has refused, for good.
    pub fn is_refused(&self) -> bool {
        matches!(self.outlook, Outlook::Refused)
    }
}

/// Whether another try on another connection may go better: what the server refuses, and what happens here, stays.
pub fn may_pass<T>(came: &Result<T, Problem>) -> bool {
    match came {
        Ok(_) => false,
        Err(problem) => matches!(problem.outlook, Outlook::MayPass),
    }
}

/// Whether the server has refused, for good.
pub fn is_refused<T>(came: &Result<T, Problem>) -> bool {
    match came {
        Ok(_) => false,
        Err(problem) => problem.is_refused(),
    }
}

/// Whether another try may go better after an error of the server's connection.
fn outlook_of(fault: &FtpError) -> Outlook {
    match fault {
        FtpError::UnexpectedResponse(reply) if !is_transient(reply) => Outlook::Refused,
        FtpError::OutOfMemory => Outlook::Stays,
        _ => Outlook::MayPass,
    }
}

/// Whether a reply says that the command may go well another time, as where a data connection was lost (4yz; RFC 959,
/// section 4.2.1).
fn is_transient(reply: &Response) -> bool {
    matches!(reply.body.as_slice(), [b'4', ..])
}

//! What a call returns, of its answer.

use ftp_base::types::{ConnectionError, Features, FtpError, FtpResult, Response};
use ftp_session::session::Answer;
use jiff::civil::DateTime;

/// A value that a call returns.
pub trait FromAnswer: Drop {
    /// The value of an answer.
    ///
    /// # Errors
    /// The answer's error; `AlreadyCompleted` where the answer has no such value, which is none of a call that returns
    /// one.
    fn from_answer(answer: Answer) -> FtpResult<Self>
    where
        Self: Sized;
}

/// The error of an answer without the value that is looked for.
fn other<T>(answer: Answer) -> FtpResult<T> {
    match answer {
        Answer::Fault(fault) => Err(fault),
        _ => Err(FtpError::ConnectionError(ConnectionError::AlreadyCompleted)),
    }
}

impl FromAnswer for () {
    fn from_answer(answer: Answer) -> FtpResult<()> {
        match answer {
            Answer::Unit => Ok(()),
            answer => other(answer),
        }
    }
}

impl FromAnswer for Response {
    fn from_answer(answer: Answer) -> FtpResult<Response> {
        match answer {
            Answer::Reply(reply) => Ok(reply),
            answer => other(answer),
        }
    }
}

impl FromAnswer for String {
    fn from_answer(answer: Answer) -> FtpResult<String> {
        match answer {
            Answer::Text(text) => Ok(text.into_string()),
            answer => other(answer),
        }
    }
}

impl FromAnswer for DateTime {
    fn from_answer(answer: Answer) -> FtpResult<DateTime> {
        match answer {
            Answer::Time(time) => Ok(time),
            answer => other(answer),
        }
    }
}

impl FromAnswer for usize {
    fn from_answer(answer: Answer) -> FtpResult<usize> {
        match answer {
            Answer::Size(size) => Ok(size),
            answer => other(answer),
        }
    }
}

impl FromAnswer for Features {
    fn from_answer(answer: Answer) -> FtpResult<Features> {
        match answer {
            Answer::Features(features) => Ok(features),
            answer => other(answer),
        }
    }
}

impl FromAnswer for Vec<u8> {
    fn from_answer(answer: Answer) -> FtpResult<Vec<u8>> {
        match answer {
            Answer::Bytes(bytes) => Ok(bytes.into_vec()),
            answer => other(answer),
        }
    }
}

impl FromAnswer for Vec<String> {
    fn from_answer(answer: Answer) -> FtpResult<Vec<String>> {
        match answer {
            Answer::Lines(lines) => Ok(lines.into_vec()),
            answer => other(answer),
        }
    }
}

//! Answers as text.

use ftp_base::types::{Bytes, ConnectionError, Features, FtpError, FtpResult, Response, Text};
use ftp_calls::lines::Lines;
use ftp_session::session::Answer;
use jiff::civil::DateTime;
use rows_text::shown;
use std::alloc::{AllocError, Global};

/// An answer: `ok`, `ok` and what it holds, `opened`, `opened with` and the reply, `bytes` and those that were read,
/// `lines` and those of a listing, `count` and how many were written, `NoTransfer`, or the number of the error, with
/// the kind of a connection's error, the code of an unexpected reply or the text of a connector.
pub fn text_of(alloc: Global, answer: &Answer) -> Result<String, AllocError> {
    match answer {
        Answer::Unit => String::from_str(alloc, "ok"),
        Answer::Reply(reply) => word_and_bytes(alloc, "ok", reply.body.as_slice()),
        Answer::Text(text) => word_and_bytes(alloc, "ok", text.as_str().as_bytes()),
        Answer::Time(time) => time_text(alloc, *time),
        Answer::Size(size) => format!(in alloc; "ok {size}"),
        Answer::Features(features) => features_text(alloc, features),
        Answer::Opened => String::from_str(alloc, "opened"),
        Answer::OpenedWith(reply) => word_and_bytes(alloc, "opened with", reply.body.as_slice()),
        Answer::Bytes(bytes) => bytes_text(alloc, bytes.as_slice()),
        Answer::Lines(lines) => lines_text(alloc, lines.as_slice()),
        Answer::Count(count) => format!(in alloc; "count {count}"),
        Answer::NoTransfer => String::from_str(alloc, "NoTransfer"),
        Answer::Fault(fault) => fault_text(alloc, fault),
    }
}

/// A word and these bytes.
fn word_and_bytes(alloc: Global, word: &str, bytes: &[u8]) -> Result<String, AllocError> {
    let text = shown(alloc, bytes)?;
    format!(in alloc; "{word} {text}")
}

/// The bytes of a read: `bytes` alone at the end.
fn bytes_text(alloc: Global, bytes: &[u8]) -> Result<String, AllocError> {
    if bytes.is_empty() {
        return String::from_str(alloc, "bytes");
    }
    word_and_bytes(alloc, "bytes", bytes)
}

/// The lines of a listing, joined by LF: `lines` alone where there are none.
fn lines_text(alloc: Global, lines: &[String]) -> Result<String, AllocError> {
    let mut text = String::from_str(alloc, "lines")?;
    for (place, line) in lines.iter().enumerate() {
        text.push_str(if place == 0 { " " } else { "\\n" })?;
        add_shown(alloc, &mut text, line)?;
    }
    Ok(text)
}

/// Adds a text as rows show it.
fn add_shown(alloc: Global, text: &mut String, more: &str) -> Result<(), AllocError> {
    let more = shown(alloc, more.as_bytes())?;
    text.push_str(more.as_str())
}

/// A date and a time of day.
fn time_text(alloc: Global, time: DateTime) -> Result<String, AllocError> {
    let (date, clock) = (time.date(), time.time());
    let (year, month, day) = (date.year(), date.month(), date.day());
    let (hour, minute, second) = (clock.hour(), clock.minute(), clock.second());
    format!(in alloc; "ok {year:04}-{month:02}-{day:02} {hour:02}:{minute:02}:{second:02}")
}

/// Features in the order of their names, `NAME=VALUE` or `NAME`, joined by `;`.
fn features_text(alloc: Global, features: &Features) -> Result<String, AllocError> {
    let mut text = String::from_str(alloc, "ok ")?;
    let mut first = true;
    for (name, value) in features.iter() {
        if !first {
            text.push(';')?;
        }
        first = false;
        add_shown(alloc, &mut text, name)?;
        if let Some(value) = value {
            text.push('=')?;
            add_shown(alloc, &mut text, value)?;
        }
    }
    Ok(text)
}

/// An error.
fn fault_text(alloc: Global, fault: &FtpError) -> Result<String, AllocError> {
    let number = fault.number();
    match fault {
        FtpError::UnexpectedResponse(reply) => {
            let code = reply.status.code();
            format!(in alloc; "E{number} {code}")
        }
        FtpError::ConnectionError(ConnectionError::Io(kind)) => {
            format!(in alloc; "E{number} {kind:?}")
        }
        FtpError::SecureError(text) => {
            let text = shown(alloc, text.as_str().as_bytes())?;
            format!(in alloc; "E{number} {text}")
        }
        _ => format!(in alloc; "E{number}"),
    }
}

/// All these answers.
pub fn texts_of(alloc: Global, answers: &[Answer]) -> Result<Vec<String>, AllocError> {
    let mut texts = Vec::new(alloc);
    for answer in answers {
        texts.push(text_of(alloc, answer)?)?;
    }
    Ok(texts)
}

/// The answer of a call that returns nothing.
pub fn unit(outcome: FtpResult<()>) -> Answer {
    match outcome {
        Ok(()) => Answer::Unit,
        Err(fault) => Answer::Fault(fault),
    }
}

/// The answer of a call that returns its reply.
pub fn reply(outcome: FtpResult<Response>) -> Answer {
    match outcome {
        Ok(reply) => Answer::Reply(reply),
        Err(fault) => Answer::Fault(fault),
    }
}

/// The answer of a call that returns a text.
pub fn text(outcome: FtpResult<String>) -> Answer {
    match outcome {
        Ok(text) => Answer::Text(Text::from_string(text)),
        Err(fault) => Answer::Fault(fault),
    }
}

/// The answer of a call that returns a time.
pub fn time(outcome: FtpResult<DateTime>) -> Answer {
    match outcome {
        Ok(time) => Answer::Time(time),
        Err(fault) => Answer::Fault(fault),
    }
}

/// The answer of a call that returns a number of bytes.
pub fn size(outcome: FtpResult<usize>) -> Answer {
    match outcome {
        Ok(size) => Answer::Size(size),
        Err(fault) => Answer::Fault(fault),
    }
}

/// The answer of a call that returns features.
pub fn features(outcome: FtpResult<Features>) -> Answer {
    match outcome {
        Ok(features) => Answer::Features(features),
        Err(fault) => Answer::Fault(fault),
    }
}

/// The answer of a call that returns bytes.
pub fn bytes(outcome: FtpResult<Vec<u8>>) -> Answer {
    match outcome {
        Ok(bytes) => Answer::Bytes(Bytes::from_vec(bytes)),
        Err(fault) => Answer::Fault(fault),
    }
}

/// The answer of a call that returns lines.
pub fn lines(outcome: FtpResult<Vec<String>>) -> Answer {
    match outcome {
        Ok(lines) => Answer::Lines(Lines::from_vec(lines)),
        Err(fault) => Answer::Fault(fault),
    }
}

/// The answer of a call that counts bytes.
pub fn count(outcome: FtpResult<u64>) -> Answer {
    match outcome {
        Ok(count) => Answer::Count(count),
        Err(fault) => Answer::Fault(fault),
    }
}

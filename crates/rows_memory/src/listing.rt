//! Lines of listings.

use ftp_list::{File, ListParser, ParseError, ParseResult};
use jiff::Timestamp;
use rows_text::{RowError, value};
use std::alloc::{AllocError, Global};

/// The error of an allocation that failed.
const OUT_OF_MEMORY: &str = "OutOfMemory";

/// Reads a line, and prints what came: what is due, or that memory ran out.
///
/// # Errors
/// `NotUnderstood`, `OutOfMemory`.
pub fn play<R: Print + AllocGlobal>(rt: &R, words: &str, due: &str) -> Result<(), RowError> {
    let came = described(rt.alloc(), &read(rt.alloc(), words)?)?;
    let verdict = if came.as_str() == due {
        "whole"
    } else if came.as_str() == OUT_OF_MEMORY {
        "went on"
    } else {
        "DIFFERS"
    };
    let _ = println!(rt; "{verdict}: {came}");
    Ok(())
}

/// Reads a line: `FORM NOW LINE`, where NOW is in seconds of the epoch.
fn read(alloc: Global, words: &str) -> Result<ParseResult<File>, RowError> {
    let mut parts = words.splitn(3, ' ');
    let (Some(form), Some(now), Some(line)) = (parts.next(), parts.next(), parts.next()) else {
        return Err(RowError::NotUnderstood);
    };
    let Ok(now) = Timestamp::from_second(value(now)?) else {
        return Err(RowError::NotUnderstood);
    };
    Ok(match form {
        "posix" => ListParser::parse_posix(alloc, line, now),
        "dos" => ListParser::parse_dos(alloc, line),
        "mlsd" => ListParser::parse_mlsd(alloc, line),
        "mlst" => ListParser::parse_mlst(alloc, line),
        "any" => File::from_line(alloc, line, now),
        _ => return Err(RowError::NotUnderstood),
    })
}

/// A file's kind, size, time and name, or the error.
fn described(alloc: Global, answer: &ParseResult<File>) -> Result<String, AllocError> {
    match answer {
        Ok(file) => described_file(alloc, file),
        Err(ParseError::SyntaxError) => String::from_str(alloc, "SyntaxError"),
        Err(ParseError::InvalidDate) => String::from_str(alloc, "InvalidDate"),
        Err(ParseError::BadSize) => String::from_str(alloc, "BadSize"),
        Err(ParseError::OutOfMemory) => String::from_str(alloc, OUT_OF_MEMORY),
    }
}

fn described_file(alloc: Global, file: &File) -> Result<String, AllocError> {
    let kind = if file.is_directory() {
        "directory"
    } else {
        "file"
    };
    let (size, time, name) = (file.size(), file.modified().as_secs(), file.name());
    format!(in alloc; "{kind} {size} {time} {name}")
}

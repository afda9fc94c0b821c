//! What the words of a row stand for.

use crate::escape::{RowError, text_of};
use ftp_base::types::{FileType, FormatControl, Text};
use std::alloc::Global;
use std::str::FromStr;

/// The text that a word writes.
///
/// # Errors
/// Those of [`text_of`].
pub fn text(alloc: Global, word: &str) -> Result<Text, RowError> {
    Ok(Text::from_string(text_of(alloc, word)?))
}

/// The value that a word writes: a number or an address.
///
/// # Errors
/// `NotUnderstood`.
pub fn value<T: FromStr>(word: &str) -> Result<T, RowError>
where
    T::Err: Drop,
{
    match word.parse() {
        Ok(value) => Ok(value),
        Err(_) => Err(RowError::NotUnderstood),
    }
}

/// The words before and after the first separator.
///
/// # Errors
/// `NotUnderstood` where there is none.
pub fn pair<'a>(words: &'a str, separator: &str) -> Result<(&'a str, &'a str), RowError> {
    words.split_once(separator).ok_or(RowError::NotUnderstood)
}

/// A type of data: `ascii` or `ebcdic` and a layout, `image`, `binary`, or `local` and a number of bits.
///
/// # Errors
/// `NotUnderstood`.
pub fn file_type(words: &str) -> Result<FileType, RowError> {
    match words.split_once(' ') {
        Some(("ascii", name)) => Ok(FileType::Ascii(format_control(name)?)),
        Some(("ebcdic", name)) => Ok(FileType::Ebcdic(format_control(name)?)),
        Some(("local", bits)) => Ok(FileType::Local(value(bits)?)),
        None if words == "image" => Ok(FileType::Image),
        None if words == "binary" => Ok(FileType::Binary),
        _ => Err(RowError::NotUnderstood),
    }
}

/// A layout of text.
///
/// # Errors
/// `NotUnderstood`.
pub fn format_control(word: &str) -> Result<FormatControl, RowError> {
    match word {
        "default" => Ok(FormatControl::Default),
        "nonprint" => Ok(FormatControl::NonPrint),
        "telnet" => Ok(FormatControl::Telnet),
        "asa" => Ok(FormatControl::Asa),
        _ => Err(RowError::NotUnderstood),
    }
}

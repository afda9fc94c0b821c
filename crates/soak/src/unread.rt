//! What the server has sent and no call has read, the replies in it, and what they say.

use crate::script::{Ending, Sent};
use rows_text::{RowError, shown};
use std::alloc::{AllocError, Global};
use std::collections::BTreeMap;
use std::str;

/// How many digits a code has.
const CODE: usize = 3;

/// How many bytes a first line has at least: its code, a space or a hyphen, and a byte more, as its LF.
const SHORTEST: usize = 5;

/// How many digits a time has: YYYYMMDDhhmmss (RFC 3659, section 2.3).
const TIME: usize = 14;

/// Bytes that were sent and not read, and how they end.
#[derive(Drop)]
pub struct Unread {
    bytes: Vec<u8>,
    /// How they end.
    pub ending: Ending,
}

impl Unread {
    /// Nothing was sent.
    pub fn new(alloc: Global) -> Unread {
        let bytes = Vec::new(alloc);
        let ending = Ending::Whole;
        Unread { bytes, ending }
    }

    /// What is sent for a line comes after what was sent before.
    pub fn add(&mut self, sent: &Sent) -> Result<(), AllocError> {
        self.bytes.extend_from_slice(&sent.reply)?;
        self.bytes.extend_from_slice(sent.last.as_bytes())?;
        self.ending = sent.ending;
        Ok(())
    }

    /// Reads a reply, with its code, or a line that begins none; nothing where neither is whole.
    pub fn read(&mut self, alloc: Global) -> Result<Option<(Option<u32>, Vec<u8>)>, AllocError> {
        let Some((code, length)) = front(&self.bytes, self.ending == Ending::Cut) else {
            return Ok(None);
        };
        let reply = Vec::from_slice(alloc, self.bytes.get(..length).unwrap_or(&[]))?;
        self.bytes = Vec::from_slice(alloc, self.bytes.get(length..).unwrap_or(&[]))?;
        Ok(Some((code, reply)))
    }
}

/// The code and the length of the reply at the front; no code where the first line begins none. A reply ends at a line with
/// the code of its first line and a space (RFC 959, section 4.2). Where the connection was closed, what follows the last LF
/// is a line.
fn front(bytes: &[u8], is_closed: bool) -> Option<(Option<u32>, usize)> {
    let mut length = 0usize;
    let mut first = None;
    for line in bytes.split_inclusive(|byte| *byte == b'\n') {
        if !is_closed && line.last() != Some(&b'\n') {
            break;
        }
        length = length.saturating_add(line.len());
        match (first, code_of(line)) {
            (None, None) => return Some((None, length)),
            (None, _) if line.len() < SHORTEST => return Some((None, length)),
            (None, Some((code, b'-'))) => first = Some(code),
            (None, Some((code, _space))) => return Some((Some(code), length)),
            (Some(code), Some((last, b' '))) if code == last => return Some((first, length)),
            _ => {}
        }
    }
    None
}

/// The code that a line begins with, and the space or hyphen after it.
fn code_of(line: &[u8]) -> Option<(u32, u8)> {
    let digits = line.get(..CODE)?;
    let mark = *line.get(CODE)?;
    if !matches!(mark, b' ' | b'-') || !digits.iter().all(|digit| digit.is_ascii_digit()) {
        return None;
    }
    Some((str::from_utf8(digits).ok()?.parse().ok()?, mark))
}

/// What the call of this name returns for its last reply, which it accepted.
///
/// # Errors
/// `NotUnderstood` where the reply is no text, `OutOfMemory`.
pub fn value_of(alloc: Global, name: &str, reply: &[u8]) -> Result<String, RowError> {
    let text = str::from_utf8(reply).or(Err(RowError::NotUnderstood))?;
    let word = text.trim_end().rsplit_once(' ').map(|(_, word)| word);
    let value = match name {
        "feat" => features(alloc, text)?,
        "mdtm" => time(alloc, word.unwrap_or(""))?,
        "size" => written(alloc, word.filter(|word| word.parse::<u64>().is_ok()))?,
        "mlst" => written(alloc, text.lines().nth(1).map(|line| line.trim()))?,
        "pwd" => written(alloc, path(text))?,
        "site" | "custom" => written(alloc, Some(text))?,
        _ => return Ok(String::from_str(alloc, "ok")?),
    };
    match value {
        Some(value) => Ok(format!(in alloc; "ok {value}")?),
        None if name == "pwd" => Ok(String::from_str(alloc, "E10 257")?),
        None => Ok(String::from_str(alloc, "E11")?),
    }
}

/// A text as rows write it.
fn written(alloc: Global, text: Option<&str>) -> Result<Option<String>, AllocError> {
    match text {
        Some(text) => Ok(Some(shown(alloc, text.as_bytes())?)),
        None => Ok(None),
    }
}

/// The path in a reply to PWD, between its first quote and its last (RFC 959, appendix II).
fn path(reply: &str) -> Option<&str> {
    let (_, after) = reply.split_once('"')?;
    let (path, _) = after.rsplit_once('"')?;
    Some(path)
}

/// A time of the calendar (RFC 3659, section 2.3).
fn time(alloc: Global, digits: &str) -> Result<Option<String>, AllocError> {
    if digits.len() != TIME || !digits.bytes().all(|byte| byte.is_ascii_digit()) {
        return Ok(None);
    }
    let part = |from: usize, to: usize| -> u16 {
        digits.get(from..to).unwrap_or("").parse().unwrap_or(0)
    };
    let (year, month, day) = (part(0, 4), part(4, 6), part(6, 8));
    let (hour, minute, second) = (part(8, 10), part(10, 12), part(12, 14));
    let days = match month {
        2 if year % 4 == 0 && (year % 100 != 0 || year % 400 == 0) => 29,
        2 => 28,
        4 | 6 | 9 | 11 => 30,
        1..=12 => 31,
        _ => 0,
    };
    if !(1..=days).contains(&day) || hour > 23 || minute > 59 || second > 59 {
        return Ok(None);
    }
    let day = format!(in alloc; "{year:04}-{month:02}-{day:02}")?;
    Ok(Some(format!(in alloc; "{day} {hour:02}:{minute:02}:{second:02}")?))
}

/// The features in a reply to FEAT, by their names: each on a line after a blank (RFC 2389, section 3.2).
fn features(alloc: Global, reply: &str) -> Result<Option<String>, AllocError> {
    let mut features = BTreeMap::new(alloc);
    for line in reply
        .lines()
        .skip(1)
        .filter(|line| !line.starts_with("211 "))
    {
        let Some(feature) = line.strip_prefix(' ') else {
            return Ok(None);
        };
        let (name, value) = feature.split_once(' ').unwrap_or((feature, ""));
        features.insert(name, value)?;
    }
    let mut text = String::new(alloc);
    for (name, value) in features.iter() {
        let before = if text.is_empty() { "" } else { ";" };
        let between = if value.is_empty() { "" } else { "=" };
        write!(text, "{before}{name}{between}{value}")?;
    }
    Ok(Some(text))
}

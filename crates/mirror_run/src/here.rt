//! What is asked of the files here.

use crate::listed::{ENTRIES, Kind, Listed};
use std::fs::{FileTimes, Metadata, OpenFile, OpenOptions};
use std::rt::Files;
use std::time::{Duration, SystemTime};
use std::{fs, io};

/// What stands in a folder here. A part of a file is passed over.
///
/// # Errors
/// The folder can't be read, or out of memory.
pub fn list<R>(rt: &R, path: &str) -> io::Result<Listed>
where
    R: Files + AllocGlobal + Clone + Drop,
{
    let mut entries = Vec::new(rt.alloc());
    let mut is_whole = true;
    for entry in fs::read_dir(rt, path)? {
        let entry = entry?;
        if is_part(entry.file_name()) {
            continue;
        }
        if entries.len() == ENTRIES {
            is_whole = false;
            break;
        }
        let kind = kind_of(&entry.metadata()?);
        entries.push((String::from_str(rt.alloc(), entry.file_name())?, kind))?;
    }
    Ok(Listed { is_whole, entries })
}

/// Whether a name is that of a part: `.SIZE-TIME.part` at its end.
pub fn is_part(name: &str) -> bool {
    let Some(rest) = name.strip_suffix(".part") else {
        return false;
    };
    match rest.rsplit_once('.') {
        Some((_, numbers)) => match numbers.split_once('-') {
            Some((size, time)) => is_number(size) && is_number(time),
            None => false,
        },
        None => false,
    }
}

/// Whether a text is digits alone.
fn is_number(text: &str) -> bool {
    !text.is_empty() && text.bytes().all(|byte| byte.is_ascii_digit())
}

/// What stands at a name here. A link is none of a file and a folder, whatever it leads to.
fn kind_of(metadata: &Metadata) -> Kind {
    if metadata.is_dir() {
        Kind::Folder
    } else if metadata.is_file() {
        Kind::File(metadata.len(), seconds_of(metadata.modified()))
    } else {
        Kind::Other
    }
}

/// A time in seconds since 1970, where it is known.
fn seconds_of(time: io::Result<SystemTime>) -> Option<i64> {
    let since = time.ok()?.duration_since(SystemTime::UNIX_EPOCH).ok()?;
    i64::try_from(since.as_secs()).ok()
}

/// Sets the time of a file here, in seconds since 1970.
///
/// # Errors
/// It can't be done.
pub fn set_time<R: Files>(rt: &R, path: &str, seconds: i64) -> io::Result<()> {
    let since = Duration::from_secs(seconds.unsigned_abs());
    let Some(time) = SystemTime::UNIX_EPOCH.checked_add(since) else {
        return Ok(());
    };
    let file = OpenOptions::new().append(true).open(rt, path)?;
    file.set_times(FileTimes::new().set_modified(time))
}

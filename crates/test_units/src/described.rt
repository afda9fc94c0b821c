//! What the parsers make of a line, as text.

use ftp_list::{File, ParseError, ParseResult, PosixPexQuery};
use std::alloc::{AllocError, Global};

/// What a parser returned, in one line: kind, name, target, size, time, owner, group, mode; or the
/// error's number.
pub fn described(alloc: Global, answer: &ParseResult<File>) -> Result<String, AllocError> {
    match answer {
        Ok(file) => described_file(alloc, file),
        Err(ParseError::SyntaxError) => String::from_str(alloc, "P1"),
        Err(ParseError::InvalidDate) => String::from_str(alloc, "P2"),
        Err(ParseError::BadSize) => String::from_str(alloc, "P3"),
        Err(ParseError::OutOfMemory) => String::from_str(alloc, "P4"),
    }
}

fn described_file(alloc: Global, file: &File) -> Result<String, AllocError> {
    let kind = kind(file.is_file(), file.is_directory(), file.is_symlink());
    let name = file.name();
    let target = file.symlink().unwrap_or("-");
    let size = file.size();
    let seconds = file.modified().as_secs();
    let nanoseconds = file.modified().subsec_nanos();
    let uid = file.uid().map_or(-1, i64::from);
    let gid = file.gid().map_or(-1, i64::from);
    let owner = mode_digit(file, PosixPexQuery::Owner);
    let group = mode_digit(file, PosixPexQuery::Group);
    let others = mode_digit(file, PosixPexQuery::Others);
    format!(in alloc;
        "{kind} [{name}] [{target}] {size} {seconds}.{nanoseconds} {uid} {gid} {owner}{group}{others}"
    )
}

/// The kind of what is a file, a directory or a link, and none of the others.
pub fn kind(is_file: bool, is_directory: bool, is_symlink: bool) -> &'static str {
    match (is_file, is_directory, is_symlink) {
        (true, false, false) => "file",
        (false, true, false) => "dir",
        (false, false, true) => "link",
        _ => "none",
    }
}

fn mode_digit(file: &File, who: PosixPexQuery) -> u8 {
    let read = if file.can_read(who) { 4 } else { 0 };
    let write = if file.can_write(who) { 2 } else { 0 };
    let execute = if file.can_execute(who) { 1 } else { 0 };
    read + write + execute
}

//! How the lines of a listing are sorted, as servers send them: files, the directories around them, what only the server's
//! system has, and what can't be read.
ghost use Rattle.std.specs.Prelude.{◌≡◌, IfOk};
ghost use Rattle.ftp_list.specs.Listing.{UnlessMemory};
ghost use Rattle.ftp_list.specs.Sorts.{entry_sort, own_entry_sort, own_sort, mlsd_sort, IsSorted, IsInList, IsOfList, IsOfMlsd};
ghost use Rattle.ftp_list.specs.OwnTypes.{link_of};

use crate::error::{ParseError, ParseResult};
use crate::facts::{file_named, name_and_facts, parse_mlsd};
use crate::file::File;
use crate::file_type::FileType;
use crate::names::is_dots;
use crate::other_file::OtherFile;
use crate::own_types::{is_around_in, link_in, own_type_in, with_other_facts};
use crate::parser::{ListParser, ROOM};
use crate::trims::{chars_of, copied_line, text_of};
use jiff::Timestamp;
use std::alloc::{AllocError, Global};

/// What a line of a listing is.
#[derive(Drop)]
pub enum Sort {
    /// A file of the directory.
    File(File),
    /// The listed directory itself, or one of its parents.
    Around(File),
    /// A file of a type of the server's own.
    Other(OtherFile),
    /// The line can't be read.
    Unread,
}

/// The sort of a line of `LIST`.
///
/// # Errors
/// `AllocError`.
pub fn sort_in_list(alloc: Global, line: &str, now: Timestamp) -> Result<Sort, AllocError>
    ensures { IfOk result (IsOfList now.nanosecond line.now) }
{
    sorted(false, file_in_list(alloc, line, now))
}

/// The file of a line of `LIST`.
fn file_in_list(alloc: Global, line: &str, now: Timestamp) -> ParseResult<File>
    ensures { UnlessMemory (IsInList now.nanosecond line.now) result }
{
    match ListParser::parse_posix(alloc, line, now) {
        Err(ParseError::SyntaxError) => ListParser::parse_dos(alloc, line),
        read => read,
    }
}

/// The sort of a line of `MLSD`.
///
/// # Errors
/// `AllocError`.
pub fn sort_in_mlsd(alloc: Global, line: &str) -> Result<Sort, AllocError>
    ensures { IfOk result (IsOfMlsd line.now) }
{
    let mut room = [' '; ROOM];
    match copied_line(&mut room, line) {
        Some(count) => sort_of_facts(alloc, &room[..count]),
        None => sort_of_facts(alloc, &chars_of(alloc, line)?),
    }
}

/// The sort of the characters of a line of `MLSD`.
fn sort_of_facts(alloc: Global, text: &[char]) -> Result<Sort, AllocError>
    ensures { IfOk result (λ sort. sort ≡ mlsd_sort text.now) }
{
    let (name, facts) = name_and_facts(text);
    match own_type_in(facts) {
        Some(own) => {
            let file = file_named(alloc, name)?;
            sorted_under(alloc, own, with_other_facts(alloc, file, facts))
        }
        None => sorted(is_around_in(facts), parse_mlsd(alloc, text)),
    }
}

/// What was read, sorted: by whether its type says that it is around, and by its name.
///
/// # Errors
/// `AllocError`, where the line wasn't read because an allocation failed.
fn sorted(around: bool, read: ParseResult<File>) -> Result<Sort, AllocError>
    ensures { IfOk result (IsSorted around read) }
{
    match read {
        Ok(file) => Ok(sorted_file(around, file)),
        Err(ParseError::OutOfMemory) => Err(AllocError),
        Err(_) => Ok(Sort::Unread),
    }
}

fn sorted_file(around: bool, file: File) -> Sort
    ensures { result ≡ entry_sort around file }
{
    if around || is_dots(file.name()) {
        Sort::Around(file)
    } else {
        Sort::File(file)
    }
}

/// What was read beside a type of a system's own, sorted: a link is a file, any other type is the system's.
///
/// # Errors
/// `AllocError`, also where the line wasn't read because an allocation failed.
fn sorted_under(alloc: Global, own: &[char], read: ParseResult<File>) -> Result<Sort, AllocError>
    ensures { IfOk result (λ sort. sort ≡ own_sort own.now read) }
{
    match read {
        Ok(file) => sorted_own_file(alloc, own, file),
        Err(ParseError::OutOfMemory) => Err(AllocError),
        Err(_) => Ok(Sort::Unread),
    }
}

fn sorted_own_file(alloc: Global, own: &[char], mut file: File) -> Result<Sort, AllocError>
    ensures { IfOk result (λ sort. sort ≡ own_entry_sort own.now file (link_of own.now)) }
{
    match link_in(own) {
        Some(target) => {
            file.file_type = FileType::Symlink(text_of(alloc, target)?);
            Ok(sorted_file(false, file))
        }
        None => Ok(Sort::Other(OtherFile {
            kind: text_of(alloc, own)?,
            name: file.into_name(),
        })),
    }
}

//! The parsers, one for each form of a line, and one that tries them in turn.
//!
//! They work over characters, since blanks past ASCII count as blanks. Most lines are ASCII and
//! short: their characters stand on the stack, and such a line takes memory for the result and, in
//! the POSIX and DOS forms, for short lists of its parts.
ghost use Rattle.std.specs.Prelude.{◌≡◌};
ghost use Rattle.std.specs.Str.{chars};
ghost use Rattle.ftp_list.specs.Listing.{UnlessMemory, IsPosix, IsDos};
ghost use Rattle.ftp_list.specs.Facts.{mlsd, mlst};
ghost use Rattle.ftp_list.specs.Lines.{IsListed, IsAfterPosix};

use crate::error::{ParseError, ParseResult};
use crate::file::File;
use crate::trims::{chars_of, copied_line};
use crate::{dos, facts, posix};
use jiff::Timestamp;
use std::alloc::Global;

// How many characters of an ASCII line stand on the stack. A longer line, or another, takes memory.
pub(crate) const ROOM: usize = 256;

/// The parsers of the forms of a listing line.
pub struct ListParser;

impl ListParser {
    /// The file of a line in the POSIX form, as most servers answer `LIST`. A date without a year
    /// is of the UTC year of `now`, or of the one before if it would lie more than 180 days ahead.
    ///
    /// # Errors
    ///
    /// `SyntaxError`: the line has no split into the parts of the form. `InvalidDate`: the
    /// calendar has no such day, or the clock no such time. `BadSize`: a size of 2^64 or more.
    /// The date is tested before the size. `OutOfMemory`: an allocation failed.
    pub fn parse_posix(alloc: Global, line: &str, now: Timestamp) -> ParseResult<File>
        ensures exact { UnlessMemory (IsPosix (chars line.now) now.nanosecond) result }
    {
        let mut room = [' '; ROOM];
        match copied_line(&mut room, line) {
            Some(count) => posix::parse(alloc, &room[..count], now),
            None => posix::parse(alloc, &chars_of(alloc, line)?, now),
        }
    }

    /// The file of a line in the DOS form, as IIS answers `LIST`.
    ///
    /// # Errors
    ///
    /// `SyntaxError`: the line has no split into the parts of the form. `InvalidDate`: the
    /// calendar has no such day, or the clock no such time. `BadSize`: a file without a size, or
    /// one of 2^64 or more. The date is tested before the size. `OutOfMemory`: an allocation
    /// failed.
    pub fn parse_dos(alloc: Global, line: &str) -> ParseResult<File>
        ensures exact { UnlessMemory (IsDos (chars line.now)) result }
    {
        let mut room = [' '; ROOM];
        match copied_line(&mut room, line) {
            Some(count) => dos::parse(alloc, &room[..count]),
            None => dos::parse(alloc, &chars_of(alloc, line)?),
        }
    }

    /// The file of a line of `MLSD` (RFC 3659, section 7). Where the line begins with a space it
    /// has no facts.
    ///
    /// # Errors
    ///
    /// The first wrong fact decides. `SyntaxError`: a type or a mode that doesn't exist.
    /// `InvalidDate`: a time that doesn't exist. `BadSize`: a size that is no number below 2^64.
    /// `OutOfMemory`: an allocation failed.
    pub fn parse_mlsd(alloc: Global, line: &str) -> ParseResult<File>
        ensures exact { UnlessMemory (λ answer. answer ≡ mlsd (chars line.now)) result }
    {
        let mut room = [' '; ROOM];
        match copied_line(&mut room, line) {
            Some(count) => facts::parse_mlsd(alloc, &room[..count]),
            None => facts::parse_mlsd(alloc, &chars_of(alloc, line)?),
        }
    }

    /// The file of a line of `MLST`: as `parse_mlsd`, but one leading space is cut first.
    ///
    /// # Errors
    ///
    /// `SyntaxError`, `InvalidDate`, `BadSize` and `OutOfMemory`, as in `parse_mlsd`.
    pub fn parse_mlst(alloc: Global, line: &str) -> ParseResult<File>
        ensures exact { UnlessMemory (λ answer. answer ≡ mlst (chars line.now)) result }
    {
        let mut room = [' '; ROOM];
        match copied_line(&mut room, line) {
            Some(count) => facts::parse_mlst(alloc, &room[..count]),
            None => facts::parse_mlst(alloc, &chars_of(alloc, line)?),
        }
    }
}

impl File {
    /// The file of a line of any form: POSIX, DOS and MLST are tried in this order, and the first
    /// that gives a file decides.
    ///
    /// # Errors
    ///
    /// Where no form gives a file, that of MLST: `SyntaxError`, `InvalidDate` or `BadSize`, as in
    /// `ListParser::parse_mlst`. `OutOfMemory`: an allocation failed; no later form is tried.
    pub fn from_line(alloc: Global, line: &str, now: Timestamp) -> ParseResult<File>
        ensures exact { UnlessMemory (IsListed (chars line.now) now.nanosecond) result }
    {
        let mut room = [' '; ROOM];
        match copied_line(&mut room, line) {
            Some(count) => listed(alloc, &room[..count], now),
            None => listed(alloc, &chars_of(alloc, line)?, now),
        }
    }

    /// The file of a line in the POSIX form: `ListParser::parse_posix`.
    ///
    /// # Errors
    ///
    /// `SyntaxError`, `InvalidDate`, `BadSize` and `OutOfMemory`, as there.
    pub fn from_posix_line(alloc: Global, line: &str, now: Timestamp) -> ParseResult<File>
        ensures exact { UnlessMemory (IsPosix (chars line.now) now.nanosecond) result }
    {
        ListParser::parse_posix(alloc, line, now)
    }

    /// The file of a line in the DOS form: `ListParser::parse_dos`.
    ///
    /// # Errors
    ///
    /// `SyntaxError`, `InvalidDate`, `BadSize` and `OutOfMemory`, as there.
    pub fn from_dos_line(alloc: Global, line: &str) -> ParseResult<File>
        ensures exact { UnlessMemory (IsDos (chars line.now)) result }
    {
        ListParser::parse_dos(alloc, line)
    }

    /// The file of a line of `MLSD`: `ListParser::parse_mlsd`.
    ///
    /// # Errors
    ///
    /// `SyntaxError`, `InvalidDate`, `BadSize` and `OutOfMemory`, as there.
    pub fn from_mlsx_line(alloc: Global, line: &str) -> ParseResult<File>
        ensures exact { UnlessMemory (λ answer. answer ≡ mlsd (chars line.now)) result }
    {
        ListParser::parse_mlsd(alloc, line)
    }
}

fn listed(alloc: Global, text: &[char], now: Timestamp) -> ParseResult<File>
    ensures { UnlessMemory (IsListed text.now now.nanosecond) result }
{
    match posix::parse(alloc, text, now) {
        Ok(file) => Ok(file),
        Err(ParseError::OutOfMemory) => Err(ParseError::OutOfMemory),
        Err(_) => listed_beyond_posix(alloc, text),
    }
}

fn listed_beyond_posix(alloc: Global, text: &[char]) -> ParseResult<File>
    ensures { UnlessMemory (IsAfterPosix text.now (Err ParseError.SyntaxError)) result }
{
    match dos::parse(alloc, text) {
        Ok(file) => Ok(file),
        Err(ParseError::OutOfMemory) => Err(ParseError::OutOfMemory),
        Err(_) => facts::parse_mlst(alloc, text),
    }
}

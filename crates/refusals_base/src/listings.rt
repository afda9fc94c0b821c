//! Lines of listings, and how a text is split into parts.

ghost use Rattle.std.specs.Prelude.{◌≡◌, IfOk, MatchOption, map};
ghost use Rattle.std.specs.Str.{chars};
ghost use Rattle.std.specs.String.{string_bytes};
ghost use Rattle.ftp_list.specs.Entries.{contents, IsRead};
ghost use Rattle.ftp_list.specs.Facts.{mlsd};
ghost use Rattle.ftp_list.specs.Lines.{IsListed};
ghost use Rattle.ftp_list.specs.Listing.{IsDos, IsPosix, UnlessMemory};
ghost use Rattle.ftp_list.specs.Sorts.{IsOfMlsd};
ghost use Rattle.ftp_list.specs.Split.{HasNoSplit, IsGreatestSplit};

use ftp_list::plain::{self, Shape};
use ftp_list::{File, ListParser, Listing, ParseResult};
use jiff::Timestamp;
use std::alloc::{AllocError, Global};

/// `ListParser::parse_posix`.
pub fn parse_posix(alloc: Global, line: &str, now: Timestamp) -> ParseResult<File>
    ensures exact { UnlessMemory (IsPosix (chars line.now) now.nanosecond) result }
{
    ListParser::parse_posix(alloc, line, now)
}

/// `ListParser::parse_dos`.
pub fn parse_dos(alloc: Global, line: &str) -> ParseResult<File>
    ensures exact { UnlessMemory (IsDos (chars line.now)) result }
{
    ListParser::parse_dos(alloc, line)
}

/// `ListParser::parse_mlsd`.
pub fn parse_mlsd(alloc: Global, line: &str) -> ParseResult<File>
    ensures exact { UnlessMemory (λ answer. answer ≡ mlsd (chars line.now)) result }
{
    ListParser::parse_mlsd(alloc, line)
}

/// `File::from_line`.
pub fn from_line(alloc: Global, line: &str, now: Timestamp) -> ParseResult<File>
    ensures exact { UnlessMemory (IsListed (chars line.now) now.nanosecond) result }
{
    File::from_line(alloc, line, now)
}

/// `Listing::of_mlsd`.
pub fn of_mlsd(alloc: Global, lines: &[String]) -> Result<Listing, AllocError>
    ensures read { IfOk result (λ listing.
        IsRead IsOfMlsd (map string_bytes lines.now) (contents listing)) }
{
    Listing::of_mlsd(alloc, lines)
}

/// `plain::greatest_split`.
pub fn greatest_split(
    alloc: Global,
    shapes: &[Shape],
    text: &[char],
) -> Result<Option<Vec<usize>>, AllocError>
    ensures { IfOk result (λ found. MatchOption found (HasNoSplit shapes.now text.now)
        (λ lengths. IsGreatestSplit shapes.now lengths.items text.now)) }
{
    plain::greatest_split(alloc, shapes, text)
}

//! The DOS form: `04-08-14  03:09PM  8192 name`.
//!
//! IIS answers `LIST` so. The line is split into sixteen parts; the date is tested before the
//! size, so a line with both wrong has an invalid date. Of users and permissions such a line
//! says nothing: all permissions are granted, and no number of a user or a group is there.
ghost use Rattle.std.specs.Prelude.{◌≡◌, ◌==◌, not, IfOk};
ghost use Rattle.std.specs.List.{filter};
ghost use Rattle.ftp_list.specs.Listing.{UnlessMemory, dos_file, dos_plain, dos_sized, dos_entry, IsDos};

use crate::class::Class::{Blank, Colon, Dash, Digit, DigitOrComma, NotLineFeed};
use crate::error::{ParseError, ParseResult};
use crate::file::File;
use crate::file_type::FileType;
use crate::moments::moment_of_dos;
use crate::numbers::decimal_of;
use crate::pex::PosixPex;
use crate::places::is_same;
use crate::posix::seconds_of;
use crate::shape::Form::{Between, DirectoryMark, HalfDay};
use crate::shape::Shape::{self, AnyNumber, OneOrMore, Short};
use crate::split::{greatest_split, part_at, starts_of};
use crate::trims::text_of;
use std::alloc::{AllocError, Global};

/// The parts of a line, in order.
const SHAPES: [Shape; 16] = [
    Short(Between(Digit, 2, 2)),
    Short(Between(Dash, 1, 1)),
    Short(Between(Digit, 2, 2)),
    Short(Between(Dash, 1, 1)),
    Short(Between(Digit, 2, 2)),
    OneOrMore(Blank),
    Short(Between(Digit, 2, 2)),
    Short(Between(Colon, 1, 1)),
    Short(Between(Digit, 2, 2)),
    AnyNumber(Blank),
    Short(HalfDay),
    OneOrMore(Blank),
    Short(DirectoryMark),
    AnyNumber(DigitOrComma),
    OneOrMore(Blank),
    OneOrMore(NotLineFeed),
];

/// The file of a line.
pub fn parse(alloc: Global, text: &[char]) -> ParseResult<File>
    ensures { UnlessMemory (IsDos text.now) result }
{
    match greatest_split(alloc, &SHAPES, text)? {
        Some(lengths) => file_of(alloc, &lengths, text),
        None => Err(ParseError::SyntaxError),
    }
}

// The date is tested first.
#[tactic(auto, unfolding(crate::specs::Listing::dos_entry))]
fn file_of(alloc: Global, lengths: &[usize], text: &[char]) -> ParseResult<File>
    ensures { UnlessMemory (λ answer. answer ≡ dos_entry lengths.now text.now) result }
{
    let starts = starts_of(text, lengths);
    let Some(moment) = moment_of_dos(
        part_at(text, lengths, &starts, 0),
        part_at(text, lengths, &starts, 2),
        part_at(text, lengths, &starts, 4),
        part_at(text, lengths, &starts, 6),
        part_at(text, lengths, &starts, 8),
        part_at(text, lengths, &starts, 10),
    ) else {
        return Err(ParseError::InvalidDate);
    };
    let mark = part_at(text, lengths, &starts, 12);
    let size = part_at(text, lengths, &starts, 13);
    let name = part_at(text, lengths, &starts, 15);
    sized_file(alloc, moment, mark, size, name)
}

fn sized_file(
    alloc: Global,
    moment: i64,
    mark: &[char],
    size: &[char],
    name: &[char],
) -> ParseResult<File>
    ensures { UnlessMemory (λ answer. answer ≡ dos_sized moment mark.now size.now name.now) result }
{
    if is_same(mark, &[]) {
        return plain_file(alloc, moment, size, name);
    }
    Ok(with_parts(alloc, moment, FileType::Directory, 0, name)?)
}

#[tactic(auto, unfolding(crate::specs::Listing::dos_plain))]
fn plain_file(alloc: Global, moment: i64, size: &[char], name: &[char]) -> ParseResult<File>
    ensures { UnlessMemory (λ answer. answer ≡ dos_plain moment size.now name.now) result }
{
    let digits = without_commas(alloc, size)?;
    let Some(size) = decimal_of(&digits) else {
        return Err(ParseError::BadSize);
    };
    Ok(with_parts(alloc, moment, FileType::File, size as usize, name)?)
}

fn without_commas(alloc: Global, text: &[char]) -> Result<Vec<char>, AllocError>
    ensures { IfOk result (λ digits. digits.items ≡ filter (λ c. not (c == 44)) text.now) }
{
    text.iter().copied().filter(|c| *c != ',').collect(alloc)
}

fn with_parts(
    alloc: Global,
    moment: i64,
    file_type: FileType,
    size: usize,
    name: &[char],
) -> Result<File, AllocError>
    ensures { IfOk result (λ file. file ≡ dos_file moment file_type size name.now) }
{
    Ok(File {
        name: text_of(alloc, name)?,
        file_type,
        size,
        seconds: seconds_of(moment),
        nanoseconds: 0,
        uid: None,
        gid: None,
        owner: PosixPex::default(),
        group: PosixPex::default(),
        others: PosixPex::default(),
    })
}

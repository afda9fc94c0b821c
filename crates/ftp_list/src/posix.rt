//! The POSIX form: `-rw-r--r-- 1 owner group 1234 Nov 5 13:46 name`.
//!
//! Most servers answer `LIST` as `ls -l` prints. The line is split into eighteen parts, the runs
//! of blanks among them. Names may hold blanks, so the name is the last part and takes all that
//! is left. The date is tested before the size.
ghost use Rattle.std.specs.Prelude.{◌≡◌, ◌+◌, ◌<◌, slice_index, IfOk};
ghost use Rattle.ftp_list.specs.Listing.{UnlessMemory, is_granted, pex_from, posix_name, posix_type, posix_entry, IsPosix, seconds_since};

use crate::class::Class::{Blank, Digit, Kind, NotLineFeed, NotSpace, Permission};
use crate::dates::{Present, present_at};
use crate::error::{ParseError, ParseResult};
use crate::file::File;
use crate::file_type::FileType;
use crate::moments::moment_of_posix;
use crate::numbers::{decimal_of, small_number_of};
use crate::pex::PosixPex;
use crate::places::{is_same, part_before, part_behind};
use crate::shape::Form::{Between, ClockOrYear};
use crate::shape::Shape::{self, OneOrMore, Short};
use crate::split::{greatest_split, part_at, starts_of};
use crate::trims::{text_of, trimmed};
use ftp_base::types::Text;
use jiff::Timestamp;
use std::alloc::{AllocError, Global};

/// The parts of a line, in order.
const SHAPES: [Shape; 18] = [
    Short(Between(Kind, 1, 1)),
    Short(Between(Permission, 9, 9)),
    OneOrMore(Blank),
    OneOrMore(Digit),
    OneOrMore(Blank),
    OneOrMore(NotSpace),
    OneOrMore(Blank),
    OneOrMore(NotSpace),
    OneOrMore(Blank),
    OneOrMore(Digit),
    OneOrMore(Blank),
    OneOrMore(NotSpace),
    OneOrMore(Blank),
    Short(Between(Digit, 1, 2)),
    OneOrMore(Blank),
    Short(ClockOrYear),
    OneOrMore(Blank),
    OneOrMore(NotLineFeed),
];

const ARROW: [char; 4] = [' ', '-', '>', ' '];

/// The file of a line.
pub fn parse(alloc: Global, text: &[char], now: Timestamp) -> ParseResult<File>
    ensures { UnlessMemory (IsPosix text.now now.nanosecond) result }
{
    match greatest_split(alloc, &SHAPES, text)? {
        Some(lengths) => file_of(alloc, present_at(now), &lengths, text),
        None => Err(ParseError::SyntaxError),
    }
}

// The date is tested first, then the size.
#[tactic(auto, unfolding(crate::specs::Listing::posix_entry))]
fn file_of(alloc: Global, present: Present, lengths: &[usize], text: &[char]) -> ParseResult<File>
    ensures { UnlessMemory
        (λ answer. answer ≡ posix_entry present.year present.second lengths.now text.now) result }
{
    let starts = starts_of(text, lengths);
    let month = part_at(text, lengths, &starts, 11);
    let day = part_at(text, lengths, &starts, 13);
    let time = part_at(text, lengths, &starts, 15);
    let Some(moment) = moment_of_posix(present, month, day, time) else {
        return Err(ParseError::InvalidDate);
    };
    let Some(size) = decimal_of(part_at(text, lengths, &starts, 9)) else {
        return Err(ParseError::BadSize);
    };
    let kind = part_at(text, lengths, &starts, 0);
    let permissions = part_at(text, lengths, &starts, 1);
    let name = part_at(text, lengths, &starts, 17);
    Ok(File {
        name: name_of(alloc, kind, name)?,
        file_type: type_of(alloc, kind, name)?,
        size: size as usize,
        seconds: seconds_of(moment),
        nanoseconds: 0,
        uid: small_number_of(trimmed(part_at(text, lengths, &starts, 5))),
        gid: small_number_of(trimmed(part_at(text, lengths, &starts, 7))),
        owner: pex_at(permissions, 0),
        group: pex_at(permissions, 3),
        others: pex_at(permissions, 6),
    })
}

/// The seconds of a moment, zero before the epoch.
pub fn seconds_of(moment: i64) -> u64
    ensures { result ≡ seconds_since moment }
{
    if moment < 0 { 0 } else { moment as u64 }
}

#[tactic(auto, unfolding(crate::specs::Listing::posix_name))]
fn name_of(alloc: Global, kind: &[char], name: &[char]) -> Result<Text, AllocError>
    ensures { IfOk result (λ text. text ≡ posix_name kind.now name.now) }
{
    text_of(
        alloc,
        if is_same(kind, &['l']) {
            part_before(name, &ARROW)
        } else {
            name
        },
    )
}

#[tactic(auto, unfolding(crate::specs::Listing::posix_type))]
fn type_of(alloc: Global, kind: &[char], name: &[char]) -> Result<FileType, AllocError>
    ensures { IfOk result (λ file_type. file_type ≡ posix_type kind.now name.now) }
{
    if is_same(kind, &['d']) {
        return Ok(FileType::Directory);
    }
    if is_same(kind, &['l']) {
        let target = part_before(part_behind(name, &ARROW), &ARROW);
        return Ok(FileType::Symlink(text_of(alloc, target)?));
    }
    Ok(FileType::File)
}

fn pex_at(permissions: &[char], place: usize) -> PosixPex
    requires { place < 100 }
    ensures { result ≡ pex_from place permissions.now }
{
    PosixPex {
        read: grants(permissions, place),
        write: grants(permissions, place + 1),
        execute: grants(permissions, place + 2),
    }
}

// Any letter but S and T grants.
fn grants(permissions: &[char], place: usize) -> bool
    ensures { result ≡ is_granted (slice_index permissions.now place) }
{
    match permissions.get(place) {
        Some(c) => *c != '-' && *c != 'S' && *c != 'T',
        None => true,
    }
}
